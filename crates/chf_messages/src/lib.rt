//! What a message gets from a charging function: its command, and the response.
//!
//! What it promises: a message is answered by one definition (`specs/Routing`, `specs/Answering`): its path, then its
//! method, then its body as JSON, then the machine; the response has a status, a Location and a body (`specs/Responses`).
//! A law says that each message has one, whatever commands were accepted before it.
//!
//! How it is built: `routing` reads the command of a message, `answering` gives it to the machine, `response` makes the
//! response.
//!
//! Where a rule goes: a kind of message into `specs/Routing` and `routing`; what a command comes to into `specs/Responses`
//! and `response`; a problem that refuses one into `refused_reply`.
#![tactic(auto)]

mod answering;
mod laws;
mod method;
mod response;
mod routing;

pub use answering::answer_message;
pub use laws::each_message_is_answered;
pub use method::Method;
pub use response::Response;
