//! Dates and clock times as moments, and back.
ghost use Rattle.std.specs.Prelude.{◌≡◌, ◌≤◌, ◌<◌, ◌+◌, ◌↔◌, ◌≢◌, ℕ, IsSome, IfNone, IfSome, Some, pos, ◌+ℤ◌, ◌-ℤ◌, ◌*ℤ◌, ◌≤ℤ◌};
ghost use Rattle.jiff.specs.Words.{IsDate, IsWithin, epoch_day};
ghost use Rattle.jiff_core.specs.Calendar.{days_from_civil};
ghost use Rattle.jiff_core.specs.Time.{time_seconds};
ghost use Rattle.units.specs.Limits.{greatest_moment};
ghost use Rattle.moments.specs.Calendar.{day_of, in_range, moment_of, shown_at, IsWritten, IsShown};

use jiff::Timestamp;
use jiff::civil::{Date, DateTime};
use jiff::tz::Offset;
use units::Moment;

/// A date and a clock's time, with the offset from UTC: the seconds that the clock is ahead of it, or behind it.
#[derive(Clone, Copy, Debug, PartialEq, Eq)]
pub struct LocalTime {
    pub year: u32,
    pub month: u32,
    pub day: u32,
    pub hour: u32,
    pub minute: u32,
    pub second: u32,
    pub ahead: u32,
    pub behind: u32,
}

// The day number that `jiff` gives a date, where the calendar has it.
fn epoch_day_of(year: u32, month: u32, day: u32) -> Option<i32>
    requires year { year ≤ 9999 }
    requires month { month ≤ 99 }
    requires day { day ≤ 99 }
    ensures there { IsSome result ↔ IsDate (pos year) (pos month) (pos day) }
    ensures value { IfSome result (λ n. n ≡ days_from_civil (pos year) month day) }
    ensures small { IfSome result (IsWithin 5_000_000) }
{
    match Date::new(year as i16, month as i8, day as i8) {
        Ok(date) => Some(date.to_plain().to_unix_epoch_day()),
        Err(_) => None,
    }
}

// The day number of a date, where the calendar has it.
fn day_number(year: u32, month: u32, day: u32) -> Option<i32>
    requires year { year ≤ 9999 }
    requires month { month ≤ 99 }
    requires day { day ≤ 99 }
    ensures value { result ≡ day_of year month day }
    ensures small { IfSome result (IsWithin 5_000_000) }
{
    epoch_day_of(year, month, day)
}

// The seconds of a day and a clock less what the clock is ahead, where they are in range.
fn seconds_from(day: i32, clock: u32, ahead: u32) -> Option<u64>
    requires day { IsWithin 5_000_000 day }
    requires clock { clock < 200_000 }
    requires ahead { ahead < 86_400 }
    ensures none { IfNone result ((m : ℕ) → m ≤ greatest_moment
        → day *ℤ pos 86_400 +ℤ pos clock ≢ pos (m + ahead)) }
    ensures value { IfSome result (λ m. (m ≤ greatest_moment)
        × (day *ℤ pos 86_400 +ℤ pos clock ≡ pos (m + ahead))) }
{
    let seconds = day as i64 * 86_400 + clock as i64 - ahead as i64;
    if seconds < 0 || seconds > Moment::LAST as i64 {
        return None;
    }
    Some(seconds as u64)
}

// The same as a moment.
fn moment_from(day: i32, clock: u32, ahead: u32) -> Option<Moment>
    requires day { IsWithin 5_000_000 day }
    requires clock { clock < 200_000 }
    requires ahead { ahead < 86_400 }
    ensures { result ≡ in_range ((day *ℤ pos 86_400 +ℤ pos clock) -ℤ pos ahead) }
{
    match seconds_from(day, clock, ahead) {
        Some(seconds) => Moment::new(seconds),
        None => None,
    }
}

impl LocalTime {
    /// Its moment, where the date and the clock are sound and the moment is in range.
    pub fn moment(&self) -> Option<Moment>
        requires { IsWritten self.now }
        ensures { result ≡ moment_of self.now }
    {
        let day = day_number(self.year, self.month, self.day)?;
        if self.hour > 23 || self.minute > 59 || self.second > 60 {
            return None;
        }
        let clock = self.hour * 3600 + self.minute * 60 + self.second.min(59);
        moment_from(day, clock + self.behind, self.ahead)
    }

    /// What a clock of UTC shows at a moment.
    pub fn at(moment: Moment) -> LocalTime
        ensures shown { result ≡ shown_at moment }
        ensures range { moment ≤ greatest_moment }
    {
        let seconds = moment.seconds();
        let clock = clock_at(seconds);
        shown(&clock)
    }
}

// What `jiff` shows, as a local time of UTC.
fn shown(clock: &DateTime) -> LocalTime
    requires { pos 1970 ≤ℤ clock.now.date.year }
    ensures { IsShown clock.now result }
{
    LocalTime {
        year: clock.year() as u32,
        month: clock.month() as u32,
        day: clock.day() as u32,
        hour: clock.hour() as u32,
        minute: clock.minute() as u32,
        second: clock.second() as u32,
        ahead: 0,
        behind: 0,
    }
}

// What a clock of UTC shows so many seconds from 1970-01-01T00:00:00Z.
fn clock_at(seconds: u64) -> DateTime
    requires { seconds ≤ greatest_moment }
    ensures local { epoch_day result.date *ℤ pos 86_400 +ℤ pos (time_seconds result.time)
        ≡ pos seconds }
    ensures year { pos 1970 ≤ℤ result.date.year }
{
    Offset::UTC.to_datetime(instant_of(seconds))
}

fn instant_of(seconds: u64) -> Timestamp
    requires { seconds ≤ greatest_moment }
    ensures { result.nanosecond ≡ pos seconds *ℤ pos 1_000_000_000 }
{
    Timestamp::from_second(seconds as i64).unwrap()
}
