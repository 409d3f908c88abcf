//! What the contents octets of a record's fields mean.
ghost use Rattle.std.specs.Prelude.{◌≡◌};
ghost use Rattle.std.specs.Option.{option_map};
ghost use Rattle.records.specs.Fields.{integer_of, text_of, stamp_of};

use ber::value;
use moments::from_bcd;
use units::Moment;

/// The number of an INTEGER, two's complement and shortest; none exactly where it is not that, negative, or above a limit.
pub fn integer(limit: u64, contents: &[u8]) -> Option<u64>
    ensures { result ≡ integer_of limit contents.now }
{
    match contents {
        [] => None,
        [first, ..] if *first >= 128 => None,
        [0, second, ..] if *second < 128 => None,
        _ => {
            let number = value(contents)?;
            if number <= limit { Some(number) } else { None }
        }
    }
}

/// The text of UTF-8; none exactly where the octets are not that.
pub fn text(contents: &[u8]) -> Option<&str>
    ensures { option_map (λ s. s.now) result ≡ text_of contents.now }
{
    match std::str::from_utf8(contents) {
        Ok(text) => Some(text),
        Err(_) => None,
    }
}

/// The moment of a time stamp; none exactly where the octets are not one.
pub fn stamp(contents: &[u8]) -> Option<Moment>
    ensures { result ≡ stamp_of contents.now }
{
    match contents {
        [a, b, c, d, e, f, g, h, i] => from_bcd(&[*a, *b, *c, *d, *e, *f, *g, *h, *i]),
        _ => None,
    }
}
