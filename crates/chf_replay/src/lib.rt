//! The charging function's machine from the entries of a journal.
//!
//! What it promises: `replay` gives the machine whose commands, each fresh by those before it, have exactly these entries
//! as their payloads (`specs/Entries`), or says which entry is the first bad one: the payload of no command, or of one
//! that is not fresh at its place, or of a setup that is not the first. Entries have one such list of commands, or one
//! place of a bad entry.
//!
//! How it is built: one walk over the entries; each is read strictly (`chf_payloads`), decided on and committed
//! (`chf_core`). It knows neither journals nor disks.
#![tactic(auto)]

mod laws;
mod refusal;
mod walk;

pub use laws::{entries_are_bad_at_one_place, entries_are_of_one_list};
pub use refusal::ReplayRefusal;
pub use walk::{replay, replay_more};
