//! The rows of a charging trigger function: its setup and its events.
use smf_rows::{read_event_row, read_smf_row};
use std::alloc::Global;
use units::{List, OutOfMemory, Text};

// The fields between the commas of a row.
fn fields_of(alloc: Global, row: &str) -> Result<List<Text>, OutOfMemory> {
    let mut fields = List::new(alloc);
    for field in row.split(',') {
        fields.push(Text::from_text(alloc, field)?)?;
    }
    Ok(fields)
}

/// The setup that a row gives, or a hyphen.
pub fn smf_row(alloc: Global, row: &str) -> Result<String, OutOfMemory> {
    let fields = fields_of(alloc, row)?;
    match read_smf_row(fields.as_slice())? {
        Some(setup) => Ok(format!(in alloc; "{setup:?}")?),
        None => Ok(String::from_str(alloc, "-")?),
    }
}

/// The event that a row gives, or a hyphen.
pub fn event_row(alloc: Global, row: &str) -> Result<String, OutOfMemory> {
    let fields = fields_of(alloc, row)?;
    match read_event_row(alloc, fields.as_slice())? {
        Some(event) => Ok(format!(in alloc; "{event:?}")?),
        None => Ok(String::from_str(alloc, "-")?),
    }
}
