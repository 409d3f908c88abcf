//! Charging messages as JSON, both ways (TS 32.291, Nchf_ConvergedCharging).
//!
//! What it promises: reading is one function of the JSON value (`request_of`, `reply_of`), which gives the message
//! or its first fault in the profile's order; what is written is the compact text of the message's value, reads back
//! for every value in the ranges of its format, and is for a request that was read at most ten times as long as its
//! body (`written_requests_are_bounded`).
//!
//! How it is built: a source file stands beside each file of definitions. A reader is a function on the value that a
//! body is, over the fields of `json_objects`; a writer is a function on the message, which writes token after token by
//! `json_objects::ObjectWriter`, so that no value of JSON and no key takes memory.
//!
//! Where a rule goes: a field of a request is its reading in `specs/Request` at its place in the chain, one
//! function and one line of `request_reader`; its writing in `request_fields` and, at its place among the keys, in
//! `put_request`; its range in `FitsRequest`, and that this range reads back in `proofs/RequestReadable`. A field within
//! an entry goes the same way through `Usage`, a field of a reply through `Reply`. A trigger type is a line of both
//! tables of `rules` and `triggers`.
#![tactic(auto)]

mod cause;
mod container;
mod information;
mod invocation;
mod location;
mod reply_reader;
mod reply_writer;
mod request_reader;
mod request_writer;
mod rules;
mod triggers;
mod usage;

pub use cause::cause_of;
pub use location::session_location;
pub use reply_reader::read_reply;
pub use reply_writer::{append_reply, reply_location, reply_status, write_reply};
pub use request_reader::read_request;
pub use request_writer::{append_request, write_request, written_requests_are_bounded};
