//! Turns of reading and writing the elements of charging records, beside plain passes over their octets.
use ber::{Anything, Tape, read, read_tlv, write_tlv};
use std::alloc::{AllocError, Global};

// A charging record of one container: 139 octets.
const RECORD: [u8; 139] = [
    0xBF, 0x81, 0x48, 0x81, 0x86, 0x80, 0x02, 0x00, 0xC8, 0x81, 0x04, 0x63, 0x68, 0x66, 0x31, 0x82,
    0x14, 0x69, 0x6D, 0x73, 0x69, 0x2D, 0x30, 0x30, 0x31, 0x30, 0x31, 0x30, 0x30, 0x30, 0x30, 0x30,
    0x30, 0x30, 0x30, 0x30, 0x31, 0x83, 0x04, 0x73, 0x6D, 0x66, 0x31, 0xA5, 0x41, 0x30, 0x3F, 0x80,
    0x01, 0x0A, 0xA1, 0x3A, 0x30, 0x38, 0x80, 0x01, 0x01, 0x81, 0x01, 0x3C, 0x82, 0x02, 0x03, 0xE8,
    0x83, 0x02, 0x07, 0xD0, 0x84, 0x09, 0x26, 0x01, 0x02, 0x03, 0x05, 0x00, 0x2B, 0x00, 0x00, 0x85,
    0x09, 0x26, 0x01, 0x02, 0x03, 0x06, 0x00, 0x2B, 0x00, 0x00, 0xA6, 0x07, 0x0C, 0x05, 0x46, 0x49,
    0x4E, 0x41, 0x4C, 0x87, 0x09, 0x26, 0x01, 0x02, 0x03, 0x07, 0x00, 0x2B, 0x00, 0x00, 0x86, 0x09,
    0x26, 0x01, 0x02, 0x03, 0x04, 0x05, 0x2B, 0x00, 0x00, 0x87, 0x02, 0x00, 0xB4, 0x88, 0x01, 0x01,
    0x89, 0x01, 0x00, 0x8B, 0x01, 0x01, 0xAD, 0x03, 0x80, 0x01, 0x07,
];

// That many records, one after another.
fn records(alloc: Global, count: u64) -> Result<Vec<u8>, AllocError> {
    let mut bytes = Vec::new(alloc);
    for _ in 0..count {
        bytes.extend_from_slice(&RECORD)?;
    }
    Ok(bytes)
}

/// Reads that many records, whose contents stay where they are, and counts their octets.
pub fn read_records(alloc: Global, count: u64) -> Result<u64, AllocError> {
    let bytes = records(alloc, count)?;
    let mut tape = Tape::new(alloc);
    let mut at = 0usize;
    for _ in 0..count {
        let Some(rest) = bytes.get(at..) else {
            return Ok(0);
        };
        match read(&mut tape, Anything, rest) {
            Ok((_, length)) => at = at.saturating_add(length),
            Err(_) => return Ok(0),
        }
    }
    Ok(at as u64)
}

/// Passes over the octets of that many records once, each octet after the one before it, and answers a hash of them.
pub fn hashed_records(alloc: Global, count: u64) -> Result<u64, AllocError> {
    let bytes = records(alloc, count)?;
    let mut hash = 0u64;
    for byte in &bytes {
        hash = hash.wrapping_mul(31).wrapping_add(u64::from(*byte));
    }
    Ok(hash)
}

/// Sums up the octets of that many records, many at a time where the processor can.
pub fn summed_records(alloc: Global, count: u64) -> Result<u64, AllocError> {
    let bytes = records(alloc, count)?;
    let mut sum = 0u64;
    for byte in &bytes {
        sum = sum.wrapping_add(u64::from(*byte));
    }
    Ok(sum)
}

/// Writes one record that many times, each time into octets of its own, and counts the octets.
pub fn written_records(alloc: Global, count: u64) -> Result<u64, AllocError> {
    let Ok((record, _)) = read_tlv(alloc, &RECORD) else {
        return Ok(0);
    };
    let mut octets = 0u64;
    for _ in 0..count {
        match write_tlv(alloc, &record) {
            Ok(bytes) => octets = octets.saturating_add(bytes.len() as u64),
            Err(_) => return Ok(0),
        }
    }
    Ok(octets)
}
