//! Numbers, names and the pieces between separators, as rows spell them.
//!
//! What it promises: each reader answers exactly by its grammar (`specs/`), takes no memory, and is the one place
//! of that grammar, below every crate that reads rows. What more than one crate reads of a row comes here.
#![tactic(auto)]

mod digits;
mod names;
mod numbers;
mod pieces;

pub use names::is_name;
pub use numbers::{number, wide_number};
pub use pieces::piece_length;
