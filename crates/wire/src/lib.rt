//! HTTP/1.1 messages of a byte stream, both ways (RFC 9112).
//!
//! A stream is a list of messages followed by a rest. What bytes begin with is a relation (`specs/Heads`): a whole message of
//! so many bytes, a refusal that no more bytes mend, or neither so far. Heads are those of `httparse`'s grammar, within the
//! first 16,384 bytes and 66 line feeds (`specs/Front`); `specs/Fields` says what Content-Length, Transfer-Encoding and
//! Connection mean, `specs/Requests` and `Responses` which message a head and a body are.
//!
//! `Conn` reads messages exactly by that relation over the bytes held and the bytes of the source, however the source cuts
//! them, and reads the source only where the bytes held decide nothing (`specs/Held`). Bytes are read into one buffer, moved
//! to its front only where few places are left, and copied only into the message's own texts and body.
//!
//! `request_bytes` and `response_bytes` write one message with a fixed order of fields (`specs/Texts`), which reads back as
//! the same whatever follows (`specs/ReadBack`).
//!
//! How it is built: `Framed` is what the reader asks of a kind of message, and `decide` reads until the bytes held decide.
//! A further field that matters goes into `specs/Fields` and `length`, a further part of a message into its `specs`, its
//! `Parts` and its `Framed`.
#![tactic(auto)]

mod buffer;
mod conn;
mod decision;
mod field_line;
mod framed;
mod front;
mod laws;
mod length;
mod line;
mod location;
mod message;
mod refusal;
mod request;
mod request_text;
mod response;
mod response_text;
mod target;
mod text;

pub use conn::Conn;
pub use laws::{requests_decide, responses_decide};
pub use message::{HttpRequest, HttpResponse};
pub use refusal::WireRefusal;
pub use request_text::request_bytes;
pub use response_text::response_bytes;
