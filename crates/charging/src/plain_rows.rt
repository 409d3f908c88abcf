//! Lines that are one row at sight, which need no reader of rows.
ghost use Rattle.std.specs.Prelude.{◌≡◌, IfOk};
ghost use Rattle.std.specs.List.{list_all};
ghost use Rattle.rows.specs.Pieces.{pieces};
ghost use Rattle.charging.specs.Items.{row_item};
ghost use Rattle.charging.specs.PlainRows.{is_plain_byte, is_plain};

use crate::item::Item;
use crate::row_items::as_text;
use rows::piece_length;
use std::alloc::Global;
use units::{List, OutOfMemory};

fn are_plain_bytes(line: &[u8]) -> bool
    ensures { result ≡ list_all is_plain_byte line.now }
{
    line.iter()
        .all(|byte| 32 <= *byte && *byte <= 126 && *byte != b'"')
}

/// Whether a line has printable bytes alone and no double quote.
pub fn is_plain(line: &[u8]) -> bool
    ensures { result ≡ is_plain line.now }
{
    match line {
        [] => false,
        _ => are_plain_bytes(line),
    }
}

/// The item of such a line: its fields are the pieces between its commas.
pub fn plain_row(alloc: Global, line: &[u8]) -> Result<Item, OutOfMemory>
    ensures { IfOk result (λ item. item ≡ row_item (pieces 44 line.now)) }
{
    let mut fields = List::new(alloc);
    let mut rest = line;
    loop {
        let end = piece_length(b',', rest);
        match as_text(alloc, &rest[..end])? {
            Some(text) => fields.push(text)?,
            None => return Ok(Item::Bad),
        }
        if end >= rest.len() {
            return Ok(Item::Row { fields });
        }
        rest = &rest[end + 1..];
    }
}
