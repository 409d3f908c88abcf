//! Length octets, and numbers in base 256.
ghost use Rattle.std.specs.Prelude.{◌≡◌, ◌≤◌, ◌∷◌, length, IfSome};
ghost use Rattle.std.specs.Option.{option_map};
ghost use Rattle.ber.specs.Octets.{value_at, length_at};

/// The number that octets have in base 256, the most significant first; `None` exactly from 2^64 on (X.690 8.1.3.5).
pub fn value(octets: &[u8]) -> Option<u64>
    ensures { result ≡ value_at 0 octets.now }
{
    let mut number: u64 = 0;
    let mut rest = octets;
    while let [first, tail @ ..] = rest {
        if number >= 1 << 56 {
            return None;
        }
        number = number * 256 + u64::from(*first);
        rest = tail;
    }
    Some(number)
}

// How many octets the contents have, and what follows the length octets, behind a first octet of 128 at least.
#[inline(never)]
fn long_length(first: u8, rest: &[u8]) -> Option<(Option<usize>, &[u8])>
    requires { 128 ≤ first }
    ensures exact { option_map (λ x. (x.0, x.1.now)) result ≡ length_at (first ∷ rest.now) }
    ensures rest { IfSome result (λ x. length x.1.now ≤ length rest.now) }
{
    if first == 128 {
        return Some((None, rest));
    }
    if first == 255 {
        return None;
    }
    let count = usize::from(first - 128);
    if rest.len() < count {
        return None;
    }
    let (octets, after) = rest.split_at(count);
    let number = value(octets)?;
    Some((Some(number as usize), after))
}

/// How many octets the contents have, `None` within where the length is indefinite, and what follows the length octets (X.690 8.1.3).
#[inline(always)]
pub fn length_of(bytes: &[u8]) -> Option<(Option<usize>, &[u8])>
    ensures exact { option_map (λ x. (x.0, x.1.now)) result ≡ length_at bytes.now }
    ensures rest { IfSome result (λ x. length x.1.now ≤ length bytes.now) }
{
    match bytes {
        [] => None,
        [first, rest @ ..] => {
            if *first < 128 {
                return Some((Some(usize::from(*first)), rest));
            }
            long_length(*first, rest)
        }
    }
}
