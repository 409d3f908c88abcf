//! The Location of a response.
ghost use Rattle.std.specs.Prelude.{◌≡◌, ◌≤◌, All, IsUtf8, length, map, true};
ghost use Rattle.std.specs.Str.{is_utf8};
ghost use Rattle.httparse.specs.Spans.{IsHeaderWithin, header_bytes};
ghost use Rattle.wire.specs.ResponseParts.{IsText, text_at};
ghost use Rattle.wire.specs.Responses.{location_in};

use crate::length::is_named;
use httparse::spans::{HeaderSpan, Span};

// Whether bytes are text.
fn is_text(bytes: &[u8]) -> bool
    ensures test { result ≡ is_utf8 bytes.now }
    ensures text { result ≡ true → IsUtf8 bytes.now }
{
    match std::str::from_utf8(bytes) {
        Ok(_) => true,
        Err(_) => false,
    }
}

/// Where the value of the first Location that is text lies, among the fields of a head of so many bytes (RFC 9110 section 10.2.2).
pub fn find_location(bytes: &[u8], size: usize, fields: &[HeaderSpan]) -> Option<Span>
    requires size { size ≤ length bytes.now }
    requires fields { All (IsHeaderWithin size) fields.now }
    ensures text { IsText size bytes.now result }
    ensures first { text_at bytes.now result ≡ location_in (map (header_bytes bytes.now) fields.now) }
{
    for field in fields {
        if is_named(b"location", field.name.of(bytes)) && is_text(field.value.of(bytes)) {
            return Some(field.value);
        }
    }
    None
}
