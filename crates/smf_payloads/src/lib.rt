//! The setup of a charging trigger function and its events as the payloads of a journal, both ways.
//!
//! What it promises: `write_setup_payload` and `write_payload` give exactly `setup_payload` and `event_payload`
//! (`specs/Written`), and `read_setup_payload` and `read_payload` the setup or event whose payload the bytes are, byte for
//! byte. A payload that is spelled otherwise than the writer does it gives none, so that each event has one payload and
//! each payload one event.
//!
//! How it is built: the readers of rows and of JSON, which accept more spellings, give an event (`specs/Read`), and what
//! the writer gives for it is compared with the bytes. A kind is a line of `event_payload` and of `event_by`, with one
//! function in `writing` or `event_rows` and in `reading`.
#![tactic(auto)]

mod event_rows;
mod laws;
mod payloads;
mod reading;
mod setups;
mod writing;

pub use laws::{attempts_read_back, given_rows_read_back};
pub use payloads::{payloads_differ, read_payload};
pub use setups::{read_setup_payload, write_setup_payload};
pub use writing::write_payload;
