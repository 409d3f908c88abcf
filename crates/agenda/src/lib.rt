//! What is to be looked at among many sessions: which sends next, which wait no more, which have something due, and which have an attempt in
//! flight, each found without a walk over all.
//!
//! What it promises: an `Agenda` is a list of marks, one for each session; `all` is the least of each of their parts, and `places` are the
//! places of the marks that are searched for, in order.
//!
//! How it is kept: above the row of the marks stands a row with a mark for each two of them, and so on up to a row of one (`specs/Rows`). A
//! mark that is set is set in each row, and a search goes down only where a row above has something to find. Places that have no mark yet
//! have one with nothing to find, so that `set` and `add` take no memory.
#![tactic(auto)]

mod agenda;
mod mark;
mod row;

pub use agenda::Agenda;
pub use mark::{Mark, Search};
