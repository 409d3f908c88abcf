//! The lines of a run read as JSON alone.
use edge::{ReadEnd, Source, read_all};
use serde_json::Value;
use std::alloc::Global;
use units::OutOfMemory;

/// The most octets of an input.
const INPUT_LIMIT: usize = 1 << 28;

// The body of a message line, which is all after the second blank.
fn body(line: &[u8]) -> Option<&[u8]> {
    let method = line.iter().position(|byte| *byte == b' ')?;
    let rest = line.get(method + 1..)?;
    let path = rest.iter().position(|byte| *byte == b' ')?;
    rest.get(path + 1..)
}

// Whether a line has a body that is a JSON object.
fn has_object(alloc: Global, line: &[u8]) -> bool {
    match body(line) {
        Some(body) => match Value::from_slice(alloc, body) {
            Ok(value) => value.is_object(),
            Err(_) => false,
        },
        None => false,
    }
}

/// Reads the bodies of the message lines of an input as JSON alone, and counts the objects.
pub fn parsed_lines<S: Source>(alloc: Global, input: &mut S) -> Result<u64, OutOfMemory> {
    let mut count = 0u64;
    if let Ok(bytes) = read_all(alloc, input, INPUT_LIMIT) {
        for line in bytes.as_slice().split(|byte| *byte == b'\n') {
            count = count.wrapping_add(u64::from(has_object(alloc, line)));
        }
    }
    Ok(count)
}
