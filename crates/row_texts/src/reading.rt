//! Rows, taken out of texts.
ghost use Rattle.std.specs.Prelude.{◌≡◌, [], IfOk, Some, None, length, nat_eq, if◌then◌else◌};
ghost use Rattle.std.specs.Str.{is_utf8};
ghost use Rattle.row_texts.specs.RowTexts.{row_in, rows_in};

use rows::piece_length;
use std::alloc::Global;
use units::{List, OutOfMemory, Text};

// The text that bytes are, where they are UTF-8.
#[tactic(auto, using(crate::proofs::Utf8::utf8))]
fn as_text(alloc: Global, bytes: &[u8]) -> Result<Option<Text>, OutOfMemory>
    ensures { IfOk result (λ o. o ≡ (if is_utf8 bytes.now then Some bytes.now else None)) }
{
    match std::str::from_utf8(bytes) {
        Ok(text) => Ok(Some(Text::from_text(alloc, text)?)),
        Err(_) => Ok(None),
    }
}

/// The row that a line is: its fields stand between the commas. `None` exactly where one is no UTF-8.
pub fn row_in(alloc: Global, line: &[u8]) -> Result<Option<List<Text>>, OutOfMemory>
    ensures { IfOk result (λ o. o ≡ row_in line.now) }
{
    let mut fields = List::new(alloc);
    let mut rest = line;
    loop {
        let end = piece_length(b',', rest);
        match as_text(alloc, &rest[..end])? {
            Some(text) => fields.push(text)?,
            None => return Ok(None),
        }
        if end >= rest.len() {
            return Ok(Some(fields));
        }
        rest = &rest[end + 1..];
    }
}

// These rows, where nothing stands after the last line feed.
fn ended(rest: &[u8], rows: List<List<Text>>) -> Option<List<List<Text>>>
    ensures { result ≡ (if nat_eq (length rest.now) 0 then Some rows else None) }
{
    if rest.is_empty() { Some(rows) } else { None }
}

/// The rows that a text is, each with a line feed after it. `None` exactly where the last line lacks it or a field is no
/// UTF-8.
pub fn rows_in(alloc: Global, text: &[u8]) -> Result<Option<List<List<Text>>>, OutOfMemory>
    ensures { IfOk result (λ o. o ≡ rows_in text.now) }
{
    let mut rows = List::new(alloc);
    let mut rest = text;
    loop {
        let end = piece_length(b'\n', rest);
        if end >= rest.len() {
            return Ok(ended(rest, rows));
        }
        match row_in(alloc, &rest[..end])? {
            Some(row) => rows.push(row)?,
            None => return Ok(None),
        }
        rest = &rest[end + 1..];
    }
}
