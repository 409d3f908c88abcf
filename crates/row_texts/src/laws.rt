//! The laws of rows as texts: each is a function with an empty body, whose contract is the law.
ghost use Rattle.row_texts.specs.ReadBack.{AreFields, AreSpelledOnce, HaveSizes, NumbersReadBack, RowsReadBack, WordsReadBack};

/// What is written as rows reads back, where each field has printable bytes without comma.
pub fn rows_read_back()
    ensures { RowsReadBack }
{}

/// What is read as a name, a number or rating groups is such a field, and those are UTF-8.
pub fn fields_have_field_bytes()
    ensures { AreFields }
{}

/// A number that is written reads back.
pub fn numbers_read_back()
    ensures { NumbersReadBack }
{}

/// A word before a space is read as the first one.
pub fn words_read_back()
    ensures { WordsReadBack }
{}

/// A number and a list of rating groups have one spelling.
pub fn fields_are_spelled_once()
    ensures { AreSpelledOnce }
{}

/// A row has as many bytes as `row_fields::row_size` says, with a line feed behind it.
pub fn rows_have_sizes()
    ensures { HaveSizes }
{}
