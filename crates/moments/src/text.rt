//! Date times as text.
ghost use Rattle.std.specs.Prelude.{ℕ, ◌≡◌, ◌≤◌, ◌<◌, IfSome, Some, option_map, option_and_then};
ghost use Rattle.units.specs.Limits.{greatest_moment};
ghost use Rattle.moments.specs.Calendar.{IsWritten, IsZulu};
ghost use Rattle.moments.specs.Digits.{two_at};
ghost use Rattle.moments.specs.Text.{after_fraction, zone_of, year_of, clock_of, has_marks, written_in, time_of, zulu_text, time_text};

use crate::calendar::LocalTime;
use crate::digits::{leading_digits, tens_digit, two_digits, units_digit};
use units::Moment;

// What follows the fraction of a second, where there is one.
fn skip_fraction(text: &[u8]) -> Option<&[u8]>
    ensures { option_map (λ t. t.now) result ≡ after_fraction text.now }
{
    if text.is_empty() || text[0] != b'.' {
        return Some(text);
    }
    let digits = &text[1..];
    let count = leading_digits(digits);
    if count < 1 || count > 9 {
        return None;
    }
    Some(&digits[count..])
}

// How far a zone is ahead of UTC and behind it, in seconds.
fn zone(text: &[u8]) -> Option<(u32, u32)>
    ensures value { result ≡ zone_of text.now }
    ensures small { IfSome result (λ z. (z.0 < 86_400) × (z.1 < 86_400)) }
{
    if text.len() == 1 && (text[0] == b'Z' || text[0] == b'z') {
        return Some((0, 0));
    }
    if text.len() != 6 || text[3] != b':' || text[0] != b'+' && text[0] != b'-' {
        return None;
    }
    let offset = match (two_digits(text, 1), two_digits(text, 4)) {
        (Some(hours), Some(minutes)) => if hours <= 23 && minutes <= 59 {
            hours * 3600 + minutes * 60
        } else {
            return None;
        },
        _ => return None,
    };
    if text[0] == b'+' {
        Some((offset, 0))
    } else {
        Some((0, offset))
    }
}

// The local time of a text whose year and zone are known.
fn date_and_clock(text: &[u8], year: u32, zone: (u32, u32)) -> Option<LocalTime>
    requires year { year ≤ 9999 }
    requires ahead { zone.0 < 86_400 }
    requires behind { zone.1 < 86_400 }
    ensures value { result ≡ clock_of text.now year zone.0 zone.1 }
    ensures small { IfSome result IsWritten }
{
    let month = two_digits(text, 5)?;
    let day = two_digits(text, 8)?;
    let hour = two_digits(text, 11)?;
    let minute = two_digits(text, 14)?;
    let second = two_digits(text, 17)?;
    Some(LocalTime {
        year,
        month,
        day,
        hour,
        minute,
        second,
        ahead: zone.0,
        behind: zone.1,
    })
}

// Whether the marks between the numbers stand at their places.
fn is_marked(text: &[u8]) -> bool
    ensures { result ≡ has_marks text.now }
{
    text.len() >= 20
        && text[4] == b'-'
        && text[7] == b'-'
        && (text[10] == b'T' || text[10] == b't')
        && text[13] == b':'
        && text[16] == b':'
}

fn year(text: &[u8]) -> Option<u32>
    ensures value { result ≡ year_of (two_at text.now 0) (two_at text.now 2) }
    ensures small { IfSome result (λ n. n ≤ 9999) }
{
    match (two_digits(text, 0), two_digits(text, 2)) {
        (Some(century), Some(rest)) => Some(century * 100 + rest),
        _ => None,
    }
}

fn zone_after(text: &[u8]) -> Option<(u32, u32)>
    ensures value { result ≡ option_and_then zone_of (after_fraction text.now) }
    ensures small { IfSome result (λ z. (z.0 < 86_400) × (z.1 < 86_400)) }
{
    match skip_fraction(text) {
        Some(after) => zone(after),
        None => None,
    }
}

// The local time that a text writes.
fn local_time(text: &[u8]) -> Option<LocalTime>
    ensures value { result ≡ written_in text.now }
    ensures small { IfSome result IsWritten }
{
    if !is_marked(text) {
        return None;
    }
    let Some(year) = year(text) else {
        return None;
    };
    let Some(zone) = zone_after(&text[19..]) else {
        return None;
    };
    date_and_clock(text, year, zone)
}

/// The moment that a text writes (RFC 3339, 5.6; TS 29.571, DateTime).
///
/// `T` and `Z` stand in either case, a fraction of 1 to 9 digits is dropped, and second 60 is read as 59.
/// `None` exactly where the text is no such time, or its moment lies outside 1970 to 2069 (this product's own range).
pub fn read_time(text: &str) -> Option<Moment>
    ensures { result ≡ time_of text.now }
{
    match local_time(text.as_bytes()) {
        Some(time) => time.moment(),
        None => None,
    }
}

fn zulu(time: &LocalTime) -> [u8; 20]
    requires { IsZulu time.now }
    ensures { result ≡ zulu_text time.now }
{
    let (century, rest) = (time.year / 100, time.year % 100);
    [
        tens_digit(century),
        units_digit(century),
        tens_digit(rest),
        units_digit(rest),
        b'-',
        tens_digit(time.month),
        units_digit(time.month),
        b'-',
        tens_digit(time.day),
        units_digit(time.day),
        b'T',
        tens_digit(time.hour),
        units_digit(time.hour),
        b':',
        tens_digit(time.minute),
        units_digit(time.minute),
        b':',
        tens_digit(time.second),
        units_digit(time.second),
        b'Z',
    ]
}

/// The text of a moment, `YYYY-MM-DDThh:mm:ssZ` (RFC 3339, 5.6), which reads as the moment.
pub fn write_time(moment: Moment) -> [u8; 20]
    ensures text { result ≡ time_text moment }
    ensures reads_back { time_of result ≡ Some moment }
{
    zulu(&LocalTime::at(moment))
}

/// The text of each moment reads as that moment: a law for proofs, which does nothing.
pub fn times_read_back()
    ensures { (moment : ℕ) → moment ≤ greatest_moment → time_of (time_text moment) ≡ Some moment }
{}
