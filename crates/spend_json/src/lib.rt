//! Messages of spending limits as JSON, both ways (TS 29.594, Nchf_SpendingLimitControl).
//!
//! What it promises: reading is one function of the JSON value (`context_of`, `status_of`), which gives the message or
//! its first fault in the profile's order; what is written is the compact text of the message's value, and reads back
//! for every value in the ranges of its format.
//!
//! How it is built: as the messages of charging, over the fields and the writer of `json_objects`; the address for
//! notifications is read by `url`.
//!
//! Where a rule goes: a field of a context is its reading in `specs/Context` at its place in the chain, one function and
//! one line of `context_reader`; its writing in `context_fields` and, at its place among the keys, in `put_context`; its
//! range in `FitsContext`.
#![tactic(auto)]

mod address;
mod cause;
mod context_reader;
mod context_writer;
mod status_reader;
mod status_writer;

pub use cause::cause_of;
pub use context_reader::read_context;
pub use context_writer::write_context;
pub use status_reader::read_status;
pub use status_writer::write_status;
