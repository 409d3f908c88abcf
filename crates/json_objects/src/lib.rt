//! Objects of JSON (RFC 8259), as the messages of the charging interfaces read and write them, for every crate that
//! has such messages.
//!
//! What it promises: a reader of a field is one function of the value that a body is, so that a message is read in the
//! order of its fields and its first fault is named; what is written of an object is the compact text of its fields,
//! the absent ones left out, and reads back.
//!
//! How it is built: values of JSON are seen as `Data` of `serde_json`; a reader of one field is a function on `Data`
//! (`specs/Fields`), and its Rust function has that function as its one clause. `ObjectWriter` writes token after token
//! at the end of a buffer, with no value of JSON between; `specs/Tokens` says which fields the tokens are.
//!
//! Where a rule goes: a further kind of value is a definition of `specs/Fields` and a function of `fields`, and one of
//! `specs/Objects` and a method of `ObjectWriter`.
#![tactic(auto)]

mod body;
mod cause;
mod fields;
mod lists;
mod writer;

pub use body::{bodies_hold_their_objects, read_object};
pub use cause::cause_by;
pub use fields::{
    allowed, given, missing, name, needed_number_32, number, number_32, optional_number,
    optional_number_32, optional_time, or_empty, owned, required, required_if, time, wrong,
};
pub use lists::{names, put_texts};
pub use writer::{ObjectWriter, written_values_read_back};
