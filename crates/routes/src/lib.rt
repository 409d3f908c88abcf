//! Routes: which method of which path is which call to a charging function (TS 32.291, TS 29.594; TS 29.501 on paths).
//!
//! What it promises: the call is one definition of the method and the path (`specs/Calls`, `specs/Paths`); a path that
//! names no place is told from a method that the place does not take. Only the making of the table takes memory.
//!
//! How it is kept: a router (`matchit`) has the five paths; the invariant of `Routes` says that it is `specs/Table`, and
//! `proofs/Places` that this table is the meaning of a path in words of its own.
//!
//! Where a rule goes: a further path into `specs/Paths`, `Place`, `Route` and the table, its methods into `call`.
#![tactic(auto)]

mod call;
mod place;
mod table;

pub use call::{Call, NoCall, status_of};
pub use place::Place;
pub use table::Routes;
