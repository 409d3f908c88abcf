//! Elements of a definite length, taken from the front without a tape.
ghost use Rattle.std.specs.Prelude.{◌≡◌, ◌<◌, IfSome, length};
ghost use Rattle.std.specs.Option.{option_map, option_and_then};
ghost use Rattle.ber.specs.Octets.{length_at, definite_at, contents_at};
ghost use Rattle.ber.specs.Spelling.{IsSplit};

use crate::length::length_of;

// The contents octets behind a definite length, and what follows.
#[inline(always)]
fn definite(bytes: &[u8]) -> Option<(&[u8], &[u8])>
    ensures { option_map (λ x. (x.0.now, x.1.now)) result ≡ option_and_then definite_at (length_at bytes.now) }
{
    let (length, body) = length_of(bytes)?;
    let count = length?;
    if body.len() < count {
        return None;
    }
    let (contents, rest) = body.split_at(count);
    Some((contents, rest))
}

// The contents octets of the element at the front, and what follows.
#[inline(always)]
fn front(identifier: u8, bytes: &[u8]) -> Option<(&[u8], &[u8])>
    ensures { option_map (λ x. (x.0.now, x.1.now)) result ≡ contents_at identifier bytes.now }
{
    match bytes {
        [] => None,
        [first, rest @ ..] => {
            if *first == identifier {
                definite(rest)
            } else {
                None
            }
        }
    }
}

/// The contents octets of the element at the front, whose identifier is this one octet and whose length is definite, and what
/// follows it; none exactly where another stands there, or its length goes past the end (X.690 8.1.1).
#[inline(always)]
pub fn split_element(identifier: u8, bytes: &[u8]) -> Option<(&[u8], &[u8])>
    ensures exact { option_map (λ x. (x.0.now, x.1.now)) result ≡ contents_at identifier bytes.now }
    ensures found { IfSome result (λ x. IsSplit identifier bytes.now x.0.now x.1.now) }
    ensures rest { IfSome result (λ x. length x.1.now < length bytes.now) }
{
    front(identifier, bytes)
}
