//! How far a rating group's tariff is known, and the hours at which it may switch.
ghost use Rattle.std.specs.Prelude.{◌≡◌, ◌==◌, ◌≤◌, ◌<◌, false, length, map, position, IfSome, vec_len, vec_capacity};
ghost use Rattle.std.specs.List.{find};
ghost use Rattle.units.specs.Limits.{greatest_moment};
ghost use Rattle.meter.specs.Horizons.{is_within, next_hour, hour_from, least_unsafe, has_unsafe};
ghost use Rattle.meter.specs.Meter.{is_in, with_horizon};

use units::Moment;

/// How far a rating group's tariff is known not to switch (TS 32.291, tariffTimeChange): strictly between `from` and
/// `until`, or after `from` for ever.
#[derive(Clone, Copy, Debug)]
pub struct Horizon {
    /// The rating group.
    pub group: u32,
    /// The moment from which it is known.
    pub from: Moment,
    /// The moment of the next switch, where there is one.
    pub until: Option<Moment>,
}

// The place of the group's horizon.
fn place_of(horizons: &[Horizon], group: u32) -> Option<usize>
    ensures found { IfSome result (λ at. at < length horizons.now) }
    ensures value { result ≡ position (λ h. h.group == group) horizons.now }
{
    horizons.iter().position(|h| h.group == group)
}

// The group's horizon.
pub fn horizon_of(horizons: &[Horizon], group: u32) -> Option<Horizon>
    ensures { result ≡ find (λ h. h.group == group) horizons.now }
{
    let at = place_of(horizons, group)?;
    Some(horizons[at])
}

// The least whole hour after the moment.
fn hour_after(seconds: u64) -> u64
    requires { seconds ≤ greatest_moment }
    ensures { result ≡ next_hour seconds }
{
    3600 * (seconds / 3600 + 1)
}

// The least whole hour at the moment or after it.
fn hour_at(seconds: u64) -> u64
    requires { seconds ≤ greatest_moment }
    ensures { result ≡ hour_from seconds }
{
    3600 * ((seconds + 3599) / 3600)
}

// Whether the moment is strictly within the horizon.
fn holds(horizon: &Horizon, seconds: u64) -> bool
    ensures { result ≡ is_within (Some horizon.now) seconds }
{
    horizon.from.seconds() < seconds
        && match horizon.until {
            Some(until) => seconds < until.seconds(),
            None => true,
        }
}

/// The least unsafe hour after the moment, where there is one; it may be past the range of moments (TS 32.291,
/// tariffTimeChange).
pub fn first_unsafe_hour(horizon: &Option<Horizon>, after: Moment) -> Option<u64>
    ensures { result ≡ least_unsafe horizon.now after }
{
    let next = hour_after(after.seconds());
    match horizon {
        Some(known) if holds(known, next) => known.until.map(|until| hour_at(until.seconds())),
        _ => Some(next),
    }
}

/// Whether an unsafe hour lies after the one moment and not after the other (TS 32.291, tariffTimeChange).
pub fn is_split(horizon: &Option<Horizon>, after: Moment, until: Moment) -> bool
    ensures { result ≡ has_unsafe horizon.now after until }
{
    match first_unsafe_hour(horizon, after) {
        Some(hour) => hour <= until.seconds(),
        None => false,
    }
}

// Sets the horizon of its group.
pub fn set_horizon(horizons: &mut Vec<Horizon>, horizon: Horizon)
    requires { is_in horizon.group (map (λ h. h.group) horizons.old.items) ≡ false → vec_len horizons.old < vec_capacity horizons.old }
    ensures value { horizons.new.items ≡ with_horizon horizons.old.items horizon }
    ensures capacity { vec_capacity horizons.new ≡ vec_capacity horizons.old }
{
    match place_of(horizons, horizon.group) {
        Some(at) => horizons[at] = horizon,
        None => horizons.push_reserved(horizon),
    }
}
