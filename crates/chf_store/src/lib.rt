//! The charging function's machine and the journal of its commands, kept together.
//!
//! What it promises: a machine and a disk belong together by a list of commands (`specs/Stored`): the machine is as they
//! leave it, and the entries on the disk are their payloads. `open` and `settle` make it so from the disk alone; `enter`
//! takes a command in, or answers it from memory without the disk. A fresh command is answered only once its entry
//! stands in each image of the disk. At every exit of every call each image stands for a list that one stood for before,
//! or for the list in memory with the payload of the call's fresh command behind it.
//!
//! How it is built: `durable` keeps the entries, `chf_replay` makes the machine of them. `decide` takes all the memory
//! that a command needs, its payload included; `keep` takes none, so that nothing but the disk stands between an entry
//! and its commit. After a fault the journal is closed, and the machine still answers what it knows.
#![tactic(auto)]

mod adding;
mod entry;
mod refusal;
mod store;

pub use entry::{Decided, Entered, Entry};
pub use refusal::StoreRefusal;
pub use store::ChfStore;
