//! Time stamps of charging records: nine octets of decimal digits and an offset.
ghost use Rattle.std.specs.Prelude.{ℕ, ◌≡◌, ◌≤◌, ◌<◌, IfSome, Some, slice_index};
ghost use Rattle.units.specs.Limits.{greatest_moment};
ghost use Rattle.moments.specs.Calendar.{IsWritten, IsZulu};
ghost use Rattle.moments.specs.Stamp.{bcd_of, octet_of, full_year, shift_of, date_and_clock, stamp_time, zulu_octets, stamp_octets};

use crate::calendar::LocalTime;
use units::Moment;

// The number of two digits that an octet holds.
fn two_digits(octet: u8) -> Option<u32>
    ensures value { result ≡ bcd_of octet }
    ensures small { IfSome result (λ n. n ≤ 99) }
{
    let (tens, units) = (octet / 16, octet % 16);
    if tens <= 9 && units <= 9 {
        Some(tens as u32 * 10 + units as u32)
    } else {
        None
    }
}

// The octet of a number of two digits.
fn octet(n: u32) -> u8
    requires { n ≤ 99 }
    ensures { result ≡ octet_of n }
{
    (n / 10 * 16 + n % 10) as u8
}

// The year of two digits, from 1970 to 2069.
fn year(two: u32) -> u32
    requires { two ≤ 99 }
    ensures value { result ≡ full_year two }
    ensures small { result ≤ 9999 }
{
    if two >= 70 { 1900 + two } else { 2000 + two }
}

// How far the offset is ahead of UTC and behind it, in seconds.
fn offset(octets: &[u8; 9]) -> Option<(u32, u32)>
    ensures value { result ≡ shift_of octets.now }
    ensures small { IfSome result (λ z. (z.0 < 86_400) × (z.1 < 86_400)) }
{
    if octets[6] != b'+' && octets[6] != b'-' {
        return None;
    }
    let seconds = match (two_digits(octets[7]), two_digits(octets[8])) {
        (Some(hours), Some(minutes)) => if hours <= 23 && minutes <= 59 {
            hours * 3600 + minutes * 60
        } else {
            return None;
        },
        _ => return None,
    };
    if octets[6] == b'+' {
        Some((seconds, 0))
    } else {
        Some((0, seconds))
    }
}

fn local_time(octets: &[u8; 9], ahead: u32, behind: u32) -> Option<LocalTime>
    requires ahead { ahead < 86_400 }
    requires behind { behind < 86_400 }
    ensures value { result ≡ date_and_clock octets.now ahead behind }
    ensures small { IfSome result IsWritten }
{
    let two = two_digits(octets[0])?;
    let month = two_digits(octets[1])?;
    let day = two_digits(octets[2])?;
    let hour = two_digits(octets[3])?;
    let minute = two_digits(octets[4])?;
    let second = two_digits(octets[5])?;
    if second > 59 {
        return None;
    }
    let year = year(two);
    Some(LocalTime {
        year,
        month,
        day,
        hour,
        minute,
        second,
        ahead,
        behind,
    })
}

/// The time stamp of a moment, nine octets (TS 32.298, TimeStamp): `YYMMDDhhmmss` in BCD, `2B`, `0000`. It reads as the moment.
pub fn to_bcd(moment: Moment) -> [u8; 9]
    ensures octets { result ≡ stamp_octets moment }
    ensures reads_back { stamp_time result ≡ Some moment }
{
    zulu(&LocalTime::at(moment))
}

fn zulu(time: &LocalTime) -> [u8; 9]
    requires { IsZulu time.now }
    ensures { result ≡ zulu_octets time.now }
{
    [
        octet(time.year % 100),
        octet(time.month),
        octet(time.day),
        octet(time.hour),
        octet(time.minute),
        octet(time.second),
        b'+',
        0,
        0,
    ]
}

/// The moment of a time stamp (TS 32.298, TimeStamp), with any offset from UTC.
///
/// Years 70 to 99 are of 1970 to 1999, 00 to 69 of 2000 to 2069 (this product's own).
/// `None` exactly where the octets are no time stamp, or the moment lies outside 1970 to 2069.
pub fn from_bcd(octets: &[u8; 9]) -> Option<Moment>
    ensures { result ≡ stamp_time octets.now }
{
    match offset(octets) {
        Some((ahead, behind)) => match local_time(octets, ahead, behind) {
            Some(time) => time.moment(),
            None => None,
        },
        None => None,
    }
}

/// The time stamp of each moment reads as that moment: a law for proofs, which does nothing.
pub fn stamps_read_back()
    ensures { (moment : ℕ) → moment ≤ greatest_moment → stamp_time (stamp_octets moment) ≡ Some moment }
{}
