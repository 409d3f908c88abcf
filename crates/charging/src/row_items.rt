//! Rows as items.
ghost use Rattle.std.specs.Prelude.{◌≡◌, IfOk, Some, None, if◌then◌else◌};
ghost use Rattle.std.specs.Str.{is_utf8};
ghost use Rattle.csv.specs.Reading.{reader_state, source_of, strip_bom};
ghost use Rattle.csv.specs.declared.parser.State.TheVariants as st;
ghost use Rattle.csv.specs.Records.{fields_of};
ghost use Rattle.charging.specs.Items.{only_row, operator_items, row_item, rows_in};
ghost use Rattle.charging.specs.Rows.{StandsAt};
ghost use Rattle.charging.specs.Taking.{bytes_left, rows_left};

use crate::csv_rows::{next_row, rows_of};
use crate::item::Item;
use crate::items::Items;
use crate::plain_rows::{is_plain, plain_row};
use csv::{ByteRecord, Reader};
use std::alloc::Global;
use units::{List, OutOfMemory, Text};

/// The text that bytes are, where they are UTF-8.
#[tactic(auto, using(crate::proofs::Utf8::utf8))]
pub fn as_text(alloc: Global, bytes: &[u8]) -> Result<Option<Text>, OutOfMemory>
    ensures { IfOk result (λ o. o ≡ (if is_utf8 bytes.now then Some bytes.now else None)) }
{
    match std::str::from_utf8(bytes) {
        Ok(text) => Ok(Some(Text::from_text(alloc, text)?)),
        Err(_) => Ok(None),
    }
}

/// The item of a row.
pub fn row_item(alloc: Global, row: &ByteRecord) -> Result<Item, OutOfMemory>
    ensures { IfOk result (λ item. item ≡ row_item (fields_of row.now)) }
{
    let mut fields = List::new(alloc);
    let mut at = 0;
    while let Some(field) = row.get(at) {
        match as_text(alloc, field)? {
            Some(text) => fields.push(text)?,
            None => return Ok(Item::Bad),
        }
        at += 1;
    }
    Ok(Item::Row { fields })
}

/// The item of a line that is one row.
#[tactic(auto, using(crate::proofs::PlainLines::plain_rows))]
pub fn only_row(alloc: Global, line: &[u8]) -> Result<Item, OutOfMemory>
    ensures { IfOk result (λ item. item ≡ only_row (rows_in line.now)) }
{
    if is_plain(line) {
        plain_row(alloc, line)
    } else {
        read_row(alloc, line)
    }
}

// The same by the reader of rows.
fn read_row(alloc: Global, line: &[u8]) -> Result<Item, OutOfMemory>
    ensures { IfOk result (λ item. item ≡ only_row (rows_in line.now)) }
{
    let mut reader = rows_of(alloc, line);
    let mut row = ByteRecord::new(alloc);
    let mut other = ByteRecord::new(alloc);
    if !next_row(&mut reader, &mut row)? {
        return Ok(Item::Bad);
    }
    if next_row(&mut reader, &mut other)? {
        return Ok(Item::Bad);
    }
    row_item(alloc, &row)
}

/// The rows of an input, one after the other.
#[derive(Drop)]
pub struct RowItems<'a> {
    bytes: &'a [u8],
    reader: Reader<&'a [u8]>,
    row: ByteRecord,
}

impl<'a> RowItems<'a> {
    /// Those of these bytes.
    pub fn of(alloc: Global, bytes: &'a [u8]) -> RowItems<'a>
        ensures bytes { result.bytes.now ≡ bytes.now }
        ensures reader { StandsAt result.reader st.StartRecord (strip_bom bytes.now) }
    {
        RowItems {
            bytes,
            reader: rows_of(alloc, bytes),
            row: ByteRecord::new(alloc),
        }
    }
}

impl<'a> Items for RowItems<'a> {
    ghost all = { λ r. operator_items r.bytes.now };

    ghost left = { λ r. rows_left (reader_state r.reader) (bytes_left (source_of (λ s. Some s.now) r.reader)) };

    ghost is_sound = { λ r. StandsAt r.reader (reader_state r.reader) (bytes_left (source_of (λ s. Some s.now) r.reader)) };

    fn again(&self, alloc: Global) -> RowItems<'a> {
        RowItems::of(alloc, self.bytes)
    }

    fn take(&mut self, alloc: Global) -> Result<Option<Item>, OutOfMemory> {
        if next_row(&mut self.reader, &mut self.row)? {
            Ok(Some(row_item(alloc, &self.row)?))
        } else {
            Ok(None)
        }
    }
}
