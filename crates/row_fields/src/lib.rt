//! The fields that rows of several kinds have: names, rating groups, moments, and how many bytes a row has.
//!
//! What it promises: each reader answers exactly by its definition (`specs/Fields`). The rows of both ends stand on it, so
//! that what they have in common stands once.
#![tactic(auto)]

mod fields;
mod group_lists;
mod size;

pub use fields::{moment, name, small};
pub use group_lists::groups;
pub use size::row_size;
