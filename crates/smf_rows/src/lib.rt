//! The row that a charging trigger function is set up by, and those of the events that come to it.
//!
//! What it promises: `read_smf_row` gives the setup of a row and `read_event_row` the event of one, `None` exactly where
//! it is none, each by one definition (`specs/SetupRow`, `specs/EventRow`). They stand apart from the machine, since a
//! command, a journal and a drill read the same rows. What a row has in common with those of a charging function stands in
//! `row_fields`.
#![tactic(auto)]

mod event_row;
mod new_groups;
mod setup_row;

pub use event_row::read_event_row;
pub use setup_row::read_smf_row;
