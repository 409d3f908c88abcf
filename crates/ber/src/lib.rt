//! Elements of X.690: octets read under a grammar, and written in the one shortest way.
//!
//! What it promises: `read` answers, for a type with `impl Grammar`, the element at the front or the octet of the
//! fault that is met first (clause `exact`), in both directions against `Spells` and `Admits` (`found`, `only`);
//! `write_tlv` writes the shortest form, which reads back for elements within the bounds. It knows octets and
//! positions, and nothing of records: a reader of those is this one under its grammar, and then a function of the
//! tree.
//!
//! How it is built: what is read stands on a `Tape`, one list of nodes in order of their first octets, each with how
//! many nodes behind it are within it; so reading takes memory only where the tape must grow. A `TlvRef` and a `Row`
//! are views of a tape, and contracts see them as the elements that they are (`specs/Tape`). `split_element` takes an
//! element of a definite length from the front without a tape, for a reader that knows what comes next. Writing finds
//! out all lengths first (`measuring`) and then fills one buffer, without a second place for the contents of any
//! element. A `BackwardWriter` takes elements without a tree, the last one first.
//!
//! Where a rule goes: on identifier and length octets into `specs/Spelling` (what is meant), `specs/Octets` (how it
//! is read) and `identifier` or `length`; on positions into `specs/Reading` and `reading`, which alone knows them;
//! on where what is read stands into `specs/Tape`, `node` and `tlv_ref`; on the written form into `specs/Written`,
//! `placing` and `writing`; on which element may stand where into the grammar above.
#![tactic(auto)]

mod anything;
mod backward;
mod element;
mod grammar;
mod identifier;
mod length;
mod measuring;
mod node;
mod placing;
mod reading;
mod refusal;
mod splitting;
mod tag;
mod tape;
mod tlv;
mod tlv_ref;
mod writing;

pub use anything::Anything;
pub use backward::BackwardWriter;
pub use element::{prefix_free, read, read_tlv, spelled_are_read};
pub use grammar::{Grammar, Step};
pub use length::value;
pub use refusal::BerRefusal;
pub use splitting::split_element;
pub use tag::Tag;
pub use tape::Tape;
pub use tlv::{Body, Tlv, constructed, primitive};
pub use tlv_ref::{BodyRef, Row, TlvRef};
pub use writing::write_tlv;
