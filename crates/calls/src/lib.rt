//! One call to a peer over a link: one connection, one request, one response.
//!
//! What it promises: `ask` connects once, to the peer that it is given; what it writes is a part, from the front, of the
//! message, and all of it where no call failed. It answers `NotSent` only where the connect failed and `NoReply` only where
//! a later call on the link did. Where the link tells its connections, a response is answered exactly where all that the
//! peer gave, read and left, begins with a whole one (`specs/Asked`).
//!
//! How it is built: `wire` reads the response, and this crate looks at nothing of it; both nodes call their peers by it.
#![tactic(auto)]

mod asked;
mod asking;

pub use asked::Asked;
pub use asking::ask;
