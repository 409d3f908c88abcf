//! Entries that are kept across crashes, under an epoch.
//!
//! The bytes: 16 of header, then for each entry a gate, four bytes of length (big endian) and the payload, and behind the
//! last entry one closed gate. An entry counts where its gate is open, which is byte 01. `append` writes the entry behind
//! the closed gate, syncs, opens the gate, and syncs; so a crash at any place leaves the list from before or that with the
//! whole entry. What is promised is said of the lists that the images of a disk stand for, and no caller sees bytes.
#![tactic(auto)]

mod entries;
mod journal;
mod laws;
mod reading;
mod refusal;
mod starting;

pub use journal::Journal;
pub use laws::{
    bytes_are_no_journal_at_one_place, bytes_stand_for_one_list, entries_go_behind,
    extensions_compose,
};
pub use reading::view;
pub use refusal::JournalRefusal;
