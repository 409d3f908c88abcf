//! Charging data requests of one session: their content, those that a CHF keeps, and the first reply to each.
//!
//! What it promises: both machines cite these definitions, so that what one end means by a request is what the
//! other means: content (equal but for the retransmission indicator), first replies, how often a container is
//! charged (`specs/`), what becomes of a request by what its session keeps (`specs/Decided`), and what events do to a
//! session as a list of moves (`specs/Trace`), with what is read off it.
#![tactic(auto)]

mod content;
mod laws;

pub use content::same_content;
pub use laws::{contents_are_told, decisions_stay, first_replies_stand, kept_requests_add_up};
