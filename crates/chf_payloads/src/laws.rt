//! The law of rows: a function with an empty result, whose contract is the law.
ghost use Rattle.chf_payloads.specs.Laws.{RowsReadBack};

use row_texts::{
    fields_are_spelled_once, fields_have_field_bytes, numbers_read_back, rows_have_sizes,
    rows_read_back,
};

/// What rows give reads back: the setup of setup rows, whose payload has at most 65,537 bytes, and the command of an
/// operator's row, whose payload has at most 1,048,577.
pub fn given_rows_read_back()
    ensures { RowsReadBack }
{
    rows_read_back();
    fields_have_field_bytes();
    numbers_read_back();
    fields_are_spelled_once();
    rows_have_sizes();
}
