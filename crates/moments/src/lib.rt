//! A moment as text (RFC 3339) and as a time stamp in BCD (TS 32.298).
//!
//! What it promises: the four calls are the functions `time_of`, `time_text`, `stamp_time` and `stamp_octets` of
//! `specs/Text` and `specs/Stamp`, and by the laws `times_read_back` and `stamps_read_back`, which a writer calls
//! in its body, each moment reads back.
//!
//! How it is built: `LocalTime` (`calendar`) holds all of the calendar, over `jiff`; `specs/Calendar` says what a
//! clock of UTC shows without `jiff`'s code. A further form of time is a file of its own beside `text` and `stamp`.
#![tactic(auto)]

mod calendar;
mod digits;
mod stamp;
mod text;

pub use stamp::{from_bcd, stamps_read_back, to_bcd};
pub use text::{read_time, times_read_back, write_time};
