//! The commands of a charging function as the payloads of a journal, both ways.
//!
//! What it promises: `write_payload` gives exactly `payload_of` (`specs/Written`), and `read_payload` the command whose
//! payload the bytes are, byte for byte. A payload that is spelled otherwise than the writer does it gives none, so that
//! each command has one payload and each payload one command.
//!
//! How it is built: the readers of rows and of JSON, which accept more spellings, give a command (`specs/Read`), and what
//! the writer gives for it is compared with the bytes. A kind is a line of `payload_of` and of `command_by`, with one
//! function in `writing` and in `reading`.
#![tactic(auto)]

mod laws;
mod payloads;
mod reading;
mod writing;

pub use laws::given_rows_read_back;
pub use payloads::{payloads_differ, read_payload};
pub use writing::write_payload;
