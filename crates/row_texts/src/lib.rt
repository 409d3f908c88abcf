//! Rows as texts, both ways: what a journal keeps of a row is its fields joined by commas. Beside them, words and numbers
//! that spaces end.
//!
//! What it promises: a writer adds to a buffer exactly the text of its definition (`specs/RowTexts`), and a reader gives
//! exactly the row or rows that a text is, or the word or number before a space (`specs/Words`). The laws say that what is written reads back, and that a number and a list of
//! rating groups have one spelling. The journals of both ends stand on it; what a field means stands in `row_fields`.
#![tactic(auto)]

mod laws;
mod reading;
mod words;
mod writing;

pub use laws::{
    fields_are_spelled_once, fields_have_field_bytes, numbers_read_back, rows_have_sizes,
    rows_read_back, words_read_back,
};
pub use reading::{row_in, rows_in};
pub use words::{after_space, after_word, first_word, number_before};
pub use writing::{
    push_amount, push_decimal, push_field, push_groups, push_number, push_numbers, push_row,
    push_rows,
};
