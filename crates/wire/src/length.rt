//! The length of the body that a head's fields state.
ghost use Rattle.std.specs.Prelude.{◌≡◌, All, None, codes, map, length};
ghost use Rattle.httparse.specs.Spans.{IsHeaderWithin, header_bytes};
ghost use Rattle.wire.specs.Fields.{body_length, has_field, has_value, is_word, judged, length_after, length_of, next_length, with_digit};

use crate::refusal::WireRefusal;
use httparse::spans::HeaderSpan;

/// The longest body (this product's own).
const MOST_BYTES: u64 = 1048576;

fn next_digit(number: u64, digit: u8) -> Option<u64>
    ensures { result ≡ with_digit number digit }
{
    if digit < b'0' || digit > b'9' {
        return None;
    }
    number.checked_mul(10)?.checked_add(u64::from(digit - b'0'))
}

/// Whether a text is this word, without regard to case.
pub fn is_named(word: &[u8], text: &[u8]) -> bool
    ensures { result ≡ is_word word.now text.now }
{
    text.eq_ignore_ascii_case(word)
}

// 1 to 10 decimal digits.
fn read_length(value: &[u8]) -> Option<u64>
    ensures { result ≡ length_of value.now }
{
    if value.is_empty() || value.len() > 10 {
        return None;
    }
    let mut number: u64 = 0;
    for digit in value {
        match next_digit(number, *digit) {
            Some(more) => number = more,
            None => return None,
        }
    }
    Some(number)
}

// The length stated after one field more.
fn with_field(had: Option<u64>, name: &[u8], value: &[u8]) -> Option<Option<u64>>
    ensures { result ≡ next_length had (name.now, value.now) }
{
    if !is_named(b"content-length", name) {
        return Some(had);
    }
    let length = read_length(value)?;
    match had {
        Some(other) if other != length => None,
        _ => Some(Some(length)),
    }
}

// The length that these fields state, if they state one; none where one is wrong.
fn stated_length(bytes: &[u8], fields: &[HeaderSpan]) -> Option<Option<u64>>
    requires { All (IsHeaderWithin (length bytes.now)) fields.now }
    ensures { result ≡ length_after None (map (header_bytes bytes.now) fields.now) }
{
    let mut had = None;
    for field in fields {
        match with_field(had, field.name.of(bytes), field.value.of(bytes)) {
            Some(now) => had = now,
            None => return None,
        }
    }
    Some(had)
}

// Whether a field of this name stands there.
fn has_name(bytes: &[u8], fields: &[HeaderSpan], name: &[u8]) -> bool
    requires { All (IsHeaderWithin (length bytes.now)) fields.now }
    ensures { result ≡ has_field name.now (map (header_bytes bytes.now) fields.now) }
{
    for field in fields {
        if is_named(name, field.name.of(bytes)) {
            return true;
        }
    }
    false
}

/// Whether a field of this name stands there whose whole value is this word.
pub fn says(bytes: &[u8], fields: &[HeaderSpan], name: &[u8], word: &[u8]) -> bool
    requires { All (IsHeaderWithin (length bytes.now)) fields.now }
    ensures { result ≡ has_value name.now word.now (map (header_bytes bytes.now) fields.now) }
{
    for field in fields {
        if is_named(name, field.name.of(bytes)) && is_named(word, field.value.of(bytes)) {
            return true;
        }
    }
    false
}

/// The length of the body that follows a head with these fields, or why the head is refused.
#[tactic(auto, unfolding(crate::specs::Fields::body_length))]
pub fn read_body_length(bytes: &[u8], fields: &[HeaderSpan]) -> Result<usize, WireRefusal>
    requires { All (IsHeaderWithin (length bytes.now)) fields.now }
    ensures { result ≡ body_length (map (header_bytes bytes.now) fields.now) }
{
    let Some(stated) = stated_length(bytes, fields) else {
        return Err(WireRefusal::BadHead);
    };
    if has_name(bytes, fields, b"transfer-encoding") {
        return Err(WireRefusal::Chunked);
    }
    match stated {
        Some(count) if count > MOST_BYTES => Err(WireRefusal::TooLong { head: false }),
        Some(count) => Ok(count as usize),
        None => Ok(0),
    }
}
