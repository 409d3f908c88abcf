//! The rows that a charging function is set up by, and those of its operator.
//!
//! What it promises: `read_setup` gives the setup of rows or the number of the first that is not accepted,
//! `read_operator_row` the command of an operator's row, each by one definition (`specs/Setup`,
//! `specs/OperatorRow`). They stand apart from the commands, since a journal and a drill read the same rows. A
//! further kind of row goes into one of these definitions and one function.
#![tactic(auto)]

mod limits;
mod operator_row;
mod refusal;
mod setup_rows;
mod size;

pub use operator_row::read_operator_row;
pub use refusal::SetupRefusal;
pub use setup_rows::{is_setup_row, read_setup};
