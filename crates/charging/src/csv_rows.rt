//! Rows of an input (RFC 4180), read one after the other.
ghost use Rattle.std.specs.Prelude.{◌≡◌, ℕ, List, [], IfOk, Ok, Some, None, true, false};
ghost use Rattle.csv.specs.Machine.{Read, next_record};
ghost use Rattle.csv.specs.Reading.{default_config, strip_bom};
ghost use Rattle.csv.specs.Records.{fields_of};
ghost use Rattle.csv.specs.declared.parser.State.{State};
ghost use Rattle.csv.specs.declared.parser.State.TheVariants as st;
ghost use Rattle.charging.specs.Rows.{StandsAt};

use csv::{ByteRecord, Reader, ReaderBuilder};
use std::alloc::Global;
use units::OutOfMemory;

/// A reader of the rows of an input, at its first row; a byte order mark before it is passed over.
pub fn rows_of<'a>(alloc: Global, bytes: &'a [u8]) -> Reader<&'a [u8]>
    ensures { StandsAt result st.StartRecord (strip_bom bytes.now) }
{
    ReaderBuilder::new()
        .has_headers(false)
        .flexible(true)
        .from_reader(alloc, bytes)
}

/// Reads the next row in the place of the last one, and answers whether there was one.
pub fn next_row(reader: &mut Reader<&[u8]>, row: &mut ByteRecord) -> Result<bool, OutOfMemory>
    ensures more { (state : State) (left : List ℕ) → StandsAt reader.old state left → result ≡ Ok true →
        (read : Read) × (next_record default_config state [] [] left ≡ Some read) × (fields_of row.new ≡ read.0) × StandsAt reader.new read.1 read.2 }
    ensures end { (state : State) (left : List ℕ) → StandsAt reader.old state left → result ≡ Ok false → next_record default_config state [] [] left ≡ None }
{
    match reader.read_byte_record(row) {
        Ok(found) => Ok(found),
        Err(_) => Err(OutOfMemory),
    }
}
