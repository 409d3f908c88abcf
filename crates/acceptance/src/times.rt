//! Times as text and as time stamps.
use crate::values::{hexadecimal, octets};
use moments::{from_bcd, read_time, to_bcd, write_time};
use std::alloc::Global;
use units::OutOfMemory;

/// The moment of a text with its text and its time stamp, or a hyphen.
pub fn time(alloc: Global, text: &str) -> Result<String, OutOfMemory> {
    let Some(moment) = read_time(text) else {
        return Ok(String::from_str(alloc, "-")?);
    };
    let seconds = moment.seconds();
    let written = write_time(moment);
    let shown = std::str::from_utf8(&written).unwrap_or("?");
    let stamp = hexadecimal(alloc, &to_bcd(moment))?;
    Ok(format!(in alloc; "{seconds} {shown} {stamp}")?)
}

/// The moment of a time stamp, or a hyphen.
pub fn stamp(alloc: Global, word: &str) -> Result<String, OutOfMemory> {
    let mut stamp = [0u8; 9];
    let octets = octets(alloc, word)?;
    for (place, octet) in stamp.iter_mut().zip(octets.iter()) {
        *place = *octet;
    }
    match from_bcd(&stamp) {
        Some(moment) => {
            let seconds = moment.seconds();
            Ok(format!(in alloc; "{seconds}")?)
        }
        None => Ok(String::from_str(alloc, "-")?),
    }
}
