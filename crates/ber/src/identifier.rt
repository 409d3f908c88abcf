//! Identifier octets.
ghost use Rattle.std.specs.Prelude.{◌≡◌, ◌≤◌, length, IfSome};
ghost use Rattle.std.specs.Option.{option_map};
ghost use Rattle.ber.specs.Octets.{digits_at, high_at, tag_at};

use crate::tag::Tag;

// A number in base 128, and what follows it.
fn digits(bytes: &[u8]) -> Option<(u32, &[u8])>
    ensures exact { option_map (λ x. (x.0, x.1.now)) result ≡ digits_at 0 bytes.now }
    ensures rest { IfSome result (λ x. length x.1.now ≤ length bytes.now) }
{
    let mut number: u32 = 0;
    let mut rest = bytes;
    while let [first, tail @ ..] = rest {
        if number >= 1 << 25 {
            return None;
        }
        let next = number * 128 + u32::from(*first % 128);
        if *first < 128 {
            return Some((next, tail));
        }
        number = next;
        rest = tail;
    }
    None
}

// The number of a tag from 31 on, and what follows it.
fn high(bytes: &[u8]) -> Option<(u32, &[u8])>
    ensures exact { option_map (λ x. (x.0, x.1.now)) result ≡ high_at bytes.now }
    ensures rest { IfSome result (λ x. length x.1.now ≤ length bytes.now) }
{
    if let [128, ..] = bytes {
        return None;
    }
    let (number, rest) = digits(bytes)?;
    if number < 31 {
        None
    } else {
        Some((number, rest))
    }
}

/// The tag at the front, and what follows it (X.690 8.1.2).
pub fn tag_of(bytes: &[u8]) -> Option<(Tag, &[u8])>
    ensures exact { option_map (λ x. (x.0, x.1.now)) result ≡ tag_at bytes.now }
    ensures rest { IfSome result (λ x. length x.1.now ≤ length bytes.now) }
{
    match bytes {
        [] => None,
        [first, rest @ ..] => {
            let class = *first / 64;
            let constructed = *first / 32 % 2 == 1;
            if *first % 32 == 31 {
                let (number, rest) = high(rest)?;
                return Some((
                    Tag {
                        class,
                        constructed,
                        number,
                    },
                    rest,
                ));
            }
            let number = u32::from(*first % 32);
            if class == 0 && number == 0 {
                return None;
            }
            Some((
                Tag {
                    class,
                    constructed,
                    number,
                },
                rest,
            ))
        }
    }
}
