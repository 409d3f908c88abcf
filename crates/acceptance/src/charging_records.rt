//! Charging records: octets read and written again.
use crate::values::{hexadecimal, octets};
use records::{RecordRefusal, read_record, write_record};
use std::alloc::Global;
use units::OutOfMemory;

/// How many octets the record at the front takes, how many of its fields are not known, and how it is written, or the octet of
/// the first fault.
pub fn record(alloc: Global, word: &str) -> Result<String, OutOfMemory> {
    match read_record(alloc, octets(alloc, word)?.as_slice()) {
        Ok((record, taken, unknown)) => {
            let written = hexadecimal(alloc, write_record(alloc, &record)?.as_slice())?;
            Ok(format!(in alloc; "{taken} {unknown} {written}")?)
        }
        Err(RecordRefusal::BadRecord { at }) => Ok(format!(in alloc; "!{at}")?),
        Err(RecordRefusal::OutOfMemory) => Err(OutOfMemory),
    }
}
