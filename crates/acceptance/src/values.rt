//! Values of the words of a line. A word that is no such value counts as 0.
use rows::number;
use std::alloc::Global;
use units::{Moment, OutOfMemory};

/// A number of 64 bits.
pub fn long(word: &str) -> u64 {
    number(u64::MAX, word.as_bytes()).unwrap_or(0)
}

/// A number of 32 bits.
pub fn small(word: &str) -> u32 {
    u32::try_from(long(word)).unwrap_or(0)
}

/// A number of 32 bits, where there is one.
pub fn given(word: &str) -> Option<u32> {
    u32::try_from(number(u64::MAX, word.as_bytes())?).ok()
}

/// A moment by its seconds.
pub fn moment(word: &str) -> Moment {
    Moment::new(long(word)).unwrap_or(Moment::first())
}

// The value of a hexadecimal digit.
fn digit(byte: u8) -> u8 {
    match byte {
        b'0'..=b'9' => byte - b'0',
        b'A'..=b'F' => byte - b'A' + 10,
        _ => 0,
    }
}

/// The octets that pairs of hexadecimal digits write.
pub fn octets(alloc: Global, word: &str) -> Result<Vec<u8>, OutOfMemory> {
    let mut octets = Vec::new(alloc);
    for pair in word.as_bytes().chunks(2) {
        if let [high, low] = pair {
            octets.push((digit(*high) & 15) << 4 | digit(*low))?;
        }
    }
    Ok(octets)
}

/// Octets as pairs of hexadecimal digits.
pub fn hexadecimal(alloc: Global, octets: &[u8]) -> Result<String, OutOfMemory> {
    let mut text = String::new(alloc);
    for octet in octets {
        let pair = format!(in alloc; "{octet:02X}")?;
        text.push_str(pair.as_str())?;
    }
    Ok(text)
}
