//! Multiple unit usage, read.
ghost use Rattle.std.specs.Prelude.{◌≡◌, codes, IfOk, Some, option_map, option_and_then};
ghost use Rattle.serde_json.specs.View.{view};
ghost use Rattle.json_objects.specs.Fields.{given, optional, or_empty};
ghost use Rattle.charging_json.specs.Usage.{ask_of, containers_of, entry_of, short_list_of};

use crate::container::{containers, short_list};
use json_objects::{given, needed_number_32, optional_number, optional_number_32};
use serde_json::Value;
use std::alloc::{AllocError, Global};
use units::{Ask, List, Moment, UnitUsage, Used};

// A requested unit.
fn requested(value: &Value) -> Option<Ask>
    ensures { result ≡ ask_of (view value.now) }
{
    if !value.is_object() {
        return None;
    }
    let volume = optional_number(value, "totalVolume", 1 << 60)?;
    let seconds = optional_number_32(value, "time")?;
    Some(Ask { volume, seconds })
}

// The requested unit, where there is one; `None` where it is wrong.
fn optional_ask(value: &Value) -> Option<Option<Ask>>
    ensures { result ≡ optional ask_of (given (codes "requestedUnit") (view value.now)) }
{
    match given(value, "requestedUnit") {
        Some(found) => match requested(found) {
            Some(ask) => Some(Some(ask)),
            None => None,
        },
        None => Some(None),
    }
}

// The used unit containers of an entry; `None` where one is wrong.
fn used_containers(
    alloc: Global,
    group: u32,
    stamp: Moment,
    value: &Value,
) -> Result<Option<List<Used>>, AllocError>
    ensures { IfOk result (λ o. o ≡ option_map or_empty (containers_of stamp group (view value.now))) }
{
    match given(value, "usedUnitContainer") {
        Some(found) => containers(alloc, group, stamp, found),
        None => Ok(Some(List::new(alloc))),
    }
}

// A multiple unit usage; `None` where it is wrong.
fn entry(alloc: Global, stamp: Moment, value: &Value) -> Result<Option<UnitUsage>, AllocError>
    ensures { IfOk result (λ o. o ≡ entry_of stamp (view value.now)) }
{
    let Some(group) = needed_number_32(value, "ratingGroup") else {
        return Ok(None);
    };
    let Some(ask) = optional_ask(value) else {
        return Ok(None);
    };
    let Some(used) = used_containers(alloc, group, stamp, value)? else {
        return Ok(None);
    };
    Ok(Some(UnitUsage { group, ask, used }))
}

/// The multiple unit usage of a request with this time stamp, at most 1,000 entries; `None` where one is wrong.
pub fn entries(
    alloc: Global,
    stamp: Moment,
    value: &Value,
) -> Result<Option<List<UnitUsage>>, AllocError>
    ensures { IfOk result (λ o. o ≡ short_list_of (entry_of stamp) (view value.now)) }
{
    let Some(items) = short_list(value) else {
        return Ok(None);
    };
    let mut found = Vec::new(alloc);
    for item in items {
        match entry(alloc, stamp, item)? {
            Some(usage) => found.push(usage)?,
            None => return Ok(None),
        }
    }
    Ok(Some(List::from_vec(found)))
}
