//! Searches among the periods of a tariff, and the hours of moments.
ghost use Rattle.std.specs.Prelude.{◌≡◌, ◌≤◌, ◌+◌, ◌*◌, ◌/◌, ◌&&◌, ℕ, All, IfSome, if◌then◌else◌, nat_le, nat_lt, slice_index_or};
ghost use Rattle.std.specs.List.Sorted.{IsNonDecreasingBy};
ghost use Rattle.rating.specs.declared.period.Period.{Period};
ghost use Rattle.rating.specs.Caches.{AreBegun};
ghost use Rattle.rating.specs.Row.{IsSmall};
ghost use Rattle.rating.specs.Price.{period_at, hour_of, in_time};
ghost use Rattle.rating.specs.Switch.{switch_after};

use crate::period::Period;
use units::Moment;

/// The hour of the UTC day.
pub fn hour_of(moment: Moment) -> u32
    ensures value { result ≡ hour_of moment }
    ensures range { result ≤ 23 }
    ensures in_time { in_time moment ≡ moment }
{
    (moment.seconds() / 3_600 % 24) as u32
}

/// The counts of the hours with one period more, which begins at this hour: from it on there are as many.
pub fn begin(begun: &mut [usize; 24], hour: u32, count: usize)
    requires { hour ≤ 23 }
    ensures { (k : ℕ) → slice_index_or begun.new k 0 ≡ (if nat_le hour k && nat_lt k 24 then count else slice_index_or begun.old k 0) }
{
    for k in hour as usize..24 {
        begun[k] = count;
    }
}

/// The period that holds an hour, if there is any.
pub fn period_at(periods: &[Period], begun: &[usize; 24], hour: u32) -> Option<Period>
    requires hour { hour ≤ 23 }
    requires begun { AreBegun periods.now begun.now }
    requires small { All IsSmall periods.now }
    ensures value { result ≡ period_at hour periods.now }
    ensures range { IfSome result IsSmall }
{
    let count = begun[hour as usize];
    if count > 0 {
        Some(periods[count - 1])
    } else {
        periods.last().copied()
    }
}

/// The moment at which an hour of the day that holds a moment begins.
fn today_at(moment: Moment, hour: u32) -> u64
    requires { hour ≤ 23 }
    ensures { result ≡ moment / 86400 * 86400 + hour * 3600 }
{
    moment.seconds() / 86_400 * 86_400 + u64::from(hour) * 3_600
}

/// The first listed hour strictly after a moment, where there are at least two.
pub fn switch_after(periods: &[Period], begun: &[usize; 24], after: Moment) -> Option<Moment>
    requires begun { AreBegun periods.now begun.now }
    requires hours { IsNonDecreasingBy (λ (p : Period). p.hour) periods.now }
    requires small { All IsSmall periods.now }
    ensures { result ≡ switch_after periods.now after }
{
    if periods.len() < 2 {
        return None;
    }
    let count = begun[hour_of(after) as usize];
    if count < periods.len() {
        Moment::new(today_at(after, periods[count].hour))
    } else {
        Moment::new(today_at(after, periods[0].hour) + 86_400)
    }
}
