//! The laws of what reads back: each is a function with an empty result, whose contract is the law.
ghost use Rattle.smf_payloads.specs.Laws.{AttemptsReadBack, RowsReadBack};

use row_texts::{
    fields_are_spelled_once, fields_have_field_bytes, numbers_read_back, rows_read_back,
};

/// What rows give reads back: the setup of a setup's row, and the event of an event's row.
pub fn given_rows_read_back()
    ensures { RowsReadBack }
{
    rows_read_back();
    fields_have_field_bytes();
    fields_are_spelled_once();
}

/// Attempts, their ends without an answer, and restarts read back.
pub fn attempts_read_back()
    ensures { AttemptsReadBack }
{
    numbers_read_back();
}
