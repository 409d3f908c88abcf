//! A list of entries that a node holds in memory, and that stands on a disk.
//!
//! What it promises: while the journal is open, the disk and each of its images stand for the list in memory
//! (`specs/Held`); at every exit of every call each image stands for a list that one stood for before, or, from `append`
//! alone, for the list in memory with the entry behind it; after a fault the next call of `settle` opens the journal
//! again and gives the list that is there, which begins with the one in memory. A list that was opened with a claim owns
//! its disk: where it finds a greater epoch it is closed, without a write. One that was opened without follows.
//!
//! How it is built: `journal` has the bytes and the epochs; this crate keeps it closed from a fault until `settle`, and
//! looks at no entry. Both nodes keep their commands and events by it.
#![tactic(auto)]

mod durable_list;
mod laws;

pub use durable_list::DurableList;
pub use laws::others_may_claim;
