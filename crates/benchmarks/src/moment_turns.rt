//! Turns of times read and written, beside copies of their texts.
use crate::draws::Draws;
use moments::{read_time, write_time};
use units::Moment;

const TEXTS: [&str; 4] = [
    "2026-01-02T03:04:05Z",
    "2026-01-02T04:04:05+01:00",
    "2026-07-31T23:59:59.123456789Z",
    "2031-12-31t19:00:00-05:30",
];

/// Reads that many times, and sums their seconds up.
pub fn read_texts(turns: u64) -> u64 {
    let mut sum = 0u64;
    for turn in 0..turns {
        if let Some(moment) = read_time(TEXTS[(turn % 4) as usize]) {
            sum = sum.wrapping_add(moment.seconds());
        }
    }
    sum
}

/// Writes that many drawn moments, and sums a byte of each up.
pub fn written_texts(turns: u64) -> u64 {
    let mut draws = Draws::new(1);
    let mut sum = 0u64;
    for _ in 0..turns {
        if let Some(moment) = Moment::new(draws.next()) {
            let text = write_time(moment);
            sum = sum.wrapping_add(u64::from(text[18]));
        }
    }
    sum
}

/// Copies that many texts of 20 bytes, and sums a byte of each up.
pub fn copied_texts(turns: u64) -> u64 {
    let mut draws = Draws::new(1);
    let mut sum = 0u64;
    let mut copy = [0u8; 20];
    for _ in 0..turns {
        let byte = (draws.next() % 256) as u8;
        let text = [byte; 20];
        copy.copy_from_slice(&text);
        sum = sum.wrapping_add(u64::from(copy[18]));
    }
    sum
}
