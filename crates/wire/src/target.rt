//! Whether bytes end within a request's target: the parser tests a target for UTF-8 only at its end.
ghost use Rattle.std.specs.Prelude.{◌≡◌, ◌↔◌, IsTrue};
ghost use Rattle.httparse.specs.Grammar.{EndsInTarget};
ghost use Rattle.wire.specs.Target.{step};

use httparse::{is_method_token, is_uri_token};

/// Where a scan of a request line stands.
#[derive(Clone, Copy, Debug, PartialEq, Eq, Drop)]
pub enum Place {
    Start,
    AfterReturn,
    Method,
    Target,
    Elsewhere,
}

fn next_place(place: Place, byte: u8) -> Place
    ensures { result ≡ step place byte }
{
    match place {
        Place::Start => if is_method_token(byte) {
            Place::Method
        } else if byte == b'\r' {
            Place::AfterReturn
        } else if byte == b'\n' {
            Place::Start
        } else {
            Place::Elsewhere
        },
        Place::AfterReturn => if byte == b'\n' {
            Place::Start
        } else {
            Place::Elsewhere
        },
        Place::Method => if is_method_token(byte) {
            Place::Method
        } else if byte == b' ' {
            Place::Target
        } else {
            Place::Elsewhere
        },
        Place::Target => if is_uri_token(byte) {
            Place::Target
        } else {
            Place::Elsewhere
        },
        Place::Elsewhere => Place::Elsewhere,
    }
}

/// Whether the bytes end within a request's target.
pub fn ends_in_target(bytes: &[u8]) -> bool
    ensures { IsTrue result ↔ EndsInTarget bytes.now }
{
    let mut place = Place::Start;
    for byte in bytes {
        place = next_place(place, *byte);
    }
    matches!(place, Place::Target)
}
