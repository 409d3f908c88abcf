//! Used unit containers, read.
ghost use Rattle.std.specs.Prelude.{◌≡◌, ◌≤◌, ◌^◌, ℕ, codes, IfOk, Some, option_map, option_and_then, vec_len};
ghost use Rattle.serde_json.specs.View.{view, items_view};
ghost use Rattle.serde_json.specs.Find.{as_array};
ghost use Rattle.json_objects.specs.Fields.{given, optional, list_of, or_empty};
ghost use Rattle.charging_json.specs.Triggers.{sound_kind};
ghost use Rattle.charging_json.specs.Usage.{rest_of, directions, volumes_of, usage_times, from_moment, times_of, counts_of, used_of, short, short_list_of};

use crate::triggers::kinds;
use json_objects::{given, needed_number_32, optional_number, optional_number_32, optional_time};
use serde_json::Value;
use std::alloc::{AllocError, Global};
use units::{List, MOST_ENTRIES, Moment, Text, Used};

/// A container's number, seconds and octets.
#[derive(Clone, Copy, Debug, PartialEq, Eq)]
pub struct Counts {
    pub lsn: u32,
    pub seconds: u32,
    pub up: u64,
    pub down: u64,
}

/// A container's trigger time stamp and its times of first and last usage.
#[derive(Clone, Copy, Debug, PartialEq, Eq)]
pub struct Times {
    pub moment: Moment,
    pub first: Moment,
    pub last: Moment,
}

// The other direction of a total.
fn rest_of(total: u64, part: u64) -> Option<u64>
    ensures { result ≡ rest_of total part }
{
    if part <= total && total - part <= 1 << 60 {
        Some(total - part)
    } else {
        None
    }
}

// The octets of both directions, from what is given of both and of the total.
fn directions(up: Option<u64>, down: Option<u64>, total: Option<u64>) -> Option<(u64, u64)>
    ensures { result ≡ directions up down total }
{
    match (up, down, total) {
        (Some(up), Some(down), Some(total)) => if up <= total && total - up == down {
            Some((up, down))
        } else {
            None
        },
        (Some(up), Some(down), None) => Some((up, down)),
        (Some(up), None, Some(total)) => match rest_of(total, up) {
            Some(down) => Some((up, down)),
            None => None,
        },
        (Some(up), None, None) => Some((up, 0)),
        (None, Some(down), Some(total)) => match rest_of(total, down) {
            Some(up) => Some((up, down)),
            None => None,
        },
        (None, Some(down), None) => Some((0, down)),
        (None, None, Some(total)) => if total <= 1 << 60 {
            Some((0, total))
        } else {
            None
        },
        (None, None, None) => Some((0, 0)),
    }
}

// Octets up and down of a container.
fn volumes(value: &Value) -> Option<(u64, u64)>
    ensures { result ≡ volumes_of (view value.now) }
{
    let up = optional_number(value, "uplinkVolume", 1 << 60)?;
    let down = optional_number(value, "downlinkVolume", 1 << 60)?;
    let total = optional_number(value, "totalVolume", 1 << 61)?;
    directions(up, down, total)
}

// The times of first and last usage of a container's information, where it is there.
fn usage_times(value: &Value) -> Option<(Option<Moment>, Option<Moment>)>
    ensures { result ≡ usage_times (given (codes "pDUContainerInformation") (view value.now)) }
{
    let Some(info) = given(value, "pDUContainerInformation") else {
        return Some((None, None));
    };
    if !info.is_object() {
        return None;
    }
    let first = optional_time(info, "timeofFirstUsage")?;
    let last = optional_time(info, "timeofLastUsage")?;
    Some((first, last))
}

// First and last usage, where the first is not after the last.
fn from_moment(moment: Moment, first: Option<Moment>, last: Option<Moment>) -> Option<Times>
    ensures { result ≡ from_moment moment (first, last) }
{
    let first = first.unwrap_or(moment);
    let last = last.unwrap_or(moment);
    if first <= last {
        Some(Times {
            moment,
            first,
            last,
        })
    } else {
        None
    }
}

// A container's times.
fn read_times(stamp: Moment, value: &Value) -> Option<Times>
    ensures { result ≡ times_of stamp (view value.now) }
{
    let moment = optional_time(value, "triggerTimestamp")?;
    match usage_times(value) {
        Some((first, last)) => from_moment(moment.unwrap_or(stamp), first, last),
        None => None,
    }
}

// A container's number, seconds and octets.
fn read_counts(value: &Value) -> Option<Counts>
    ensures { result ≡ counts_of (view value.now) }
{
    let lsn = needed_number_32(value, "localSequenceNumber")?;
    let seconds = optional_number_32(value, "time")?;
    let (up, down) = volumes(value)?;
    Some(Counts {
        lsn,
        seconds: seconds.unwrap_or(0),
        up,
        down,
    })
}

// The types of a container's triggers; `None` where one is wrong.
fn triggers(alloc: Global, value: &Value) -> Result<Option<List<Text>>, AllocError>
    ensures { IfOk result (λ o. o ≡ option_map or_empty (optional (list_of sound_kind) (given (codes "triggers") (view value.now)))) }
{
    match given(value, "triggers") {
        Some(found) => kinds(alloc, found),
        None => Ok(Some(List::new(alloc))),
    }
}

/// A used unit container of a rating group, in a request with this time stamp; `None` where it is wrong.
pub fn container(
    alloc: Global,
    group: u32,
    stamp: Moment,
    value: &Value,
) -> Result<Option<Used>, AllocError>
    ensures { IfOk result (λ o. o ≡ used_of group stamp (view value.now)) }
{
    let Some(counts) = read_counts(value) else {
        return Ok(None);
    };
    let Some(times) = read_times(stamp, value) else {
        return Ok(None);
    };
    let Some(triggers) = triggers(alloc, value)? else {
        return Ok(None);
    };
    Ok(Some(Used {
        lsn: counts.lsn,
        group,
        up: counts.up,
        down: counts.down,
        seconds: counts.seconds,
        first: times.first,
        last: times.last,
        triggers,
        moment: times.moment,
    }))
}

/// The items of a list of at most `MOST_ENTRIES`.
pub fn short_list(value: &Value) -> Option<&[Value]>
    ensures { option_map (λ s. items_view s.now) result ≡ option_and_then short (as_array (view value.now)) }
{
    let items = value.as_array()?;
    let items = items.as_slice();
    if items.len() <= MOST_ENTRIES {
        Some(items)
    } else {
        None
    }
}

/// The containers of such a list; `None` where one is wrong.
pub fn containers(
    alloc: Global,
    group: u32,
    stamp: Moment,
    value: &Value,
) -> Result<Option<List<Used>>, AllocError>
    ensures { IfOk result (λ o. o ≡ short_list_of (used_of group stamp) (view value.now)) }
{
    let Some(items) = short_list(value) else {
        return Ok(None);
    };
    let mut found = Vec::new(alloc);
    for item in items {
        match container(alloc, group, stamp, item)? {
            Some(used) => found.push(used)?,
            None => return Ok(None),
        }
    }
    Ok(Some(List::from_vec(found)))
}
