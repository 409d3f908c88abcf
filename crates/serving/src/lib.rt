//! The connections of a door, served one after another, whatever handles their messages.
//!
//! What it promises, for every handler that keeps its meanings: for each connection the clock is asked once and what is due
//! expires, at most 1,000 messages are read and answered in order, a rest that no more bytes make a message gets its
//! refusal, and a round of notices goes out over the link, until the door is closed, enough connections were served, or
//! another node took over. What is written is a part, from the front, of the responses, and all of them where nothing
//! failed (`specs/Talk`, `specs/Visits`). Whatever devices tell, the handler goes from side to side by its own steps alone
//! (`specs/Sides`). How the stream was cut into reads does not matter, and responses of a fault are at most as many as the
//! faults (`specs/Laws`).
//!
//! How it is built: `Handler` is what a node is to serving. `turns` reads and answers one message, `conversations` one
//! connection, `visits` what is done for each, and `serving` goes from one to the next.
#![tactic(auto)]

mod conversations;
mod handler;
mod laws;
mod response;
mod serving;
mod texts;
mod turns;
mod visits;

pub use handler::{Fence, Handler};
pub use laws::{cuts_do_not_matter, faults_are_counted};
pub use response::Response;
pub use serving::{ServeRefusal, Served, serve};
