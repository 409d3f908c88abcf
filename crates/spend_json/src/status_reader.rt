//! Spending limit statuses, read.
ghost use Rattle.std.specs.Prelude.{◌≡◌, codes, IfOk, option_map};
ghost use Rattle.serde_json.specs.View.{view, members_view};
ghost use Rattle.units.specs.Answers.{IsOrNoMemory};
ghost use Rattle.units.specs.declared.refusal.JsonRefusal.TheVariants as refusal;
ghost use Rattle.json_objects.specs.Fields.{given, needed, name, required};
ghost use Rattle.spend_json.specs.Status.{info_of, infos_in, infos_of, status_in, status_of};

use crate::context_reader::supi;
use json_objects::{given, name, read_object, required};
use serde_json::{Map, Value};
use std::alloc::{AllocError, Global};
use units::{CounterStatus, JsonRefusal, List, SpendStatus, Text};

// A name that has to be there.
fn needed_name<'v>(value: &'v Value, label: &str) -> Option<&'v str>
    ensures { option_map (λ t. t.now) result ≡ needed name (given label.now (view value.now)) }
{
    name(given(value, label)?)
}

// The status that stands under the name of a counter; `None` where it is none.
fn info(alloc: Global, key: &str, value: &Value) -> Result<Option<CounterStatus>, AllocError>
    ensures { IfOk result (λ o. o ≡ info_of key.now (view value.now)) }
{
    let Some(status) = needed_name(value, "currentStatus") else {
        return Ok(None);
    };
    let Some(counter) = needed_name(value, "policyCounterId") else {
        return Ok(None);
    };
    if counter != key {
        return Ok(None);
    }
    Ok(Some(CounterStatus {
        counter: Text::from_text(alloc, counter)?,
        status: Text::from_text(alloc, status)?,
    }))
}

// The statuses that the members of an object are; `None` where one is none.
fn infos_in(
    alloc: Global,
    members: &Map<String, Value>,
) -> Result<Option<List<CounterStatus>>, AllocError>
    ensures { IfOk result (λ o. o ≡ infos_in (members_view members.now.entries)) }
{
    let mut infos = List::new(alloc);
    for (key, value) in members {
        match info(alloc, key.as_str(), value)? {
            Some(info) => infos.push(info)?,
            None => return Ok(None),
        }
    }
    Ok(Some(infos))
}

fn infos(alloc: Global, value: &Value) -> Result<List<CounterStatus>, JsonRefusal>
    ensures { IsOrNoMemory refusal.OutOfMemory result (required (codes "statusInfos") (option_map infos_of (given (codes "statusInfos") (view value.now)))) }
{
    let found = match given(value, "statusInfos") {
        Some(found) => match found.as_object() {
            Some(members) => Some(infos_in(alloc, members)?),
            None => Some(None),
        },
        None => None,
    };
    required(alloc, "statusInfos", found)
}

fn read_fields(alloc: Global, value: &Value) -> Result<SpendStatus, JsonRefusal>
    ensures { IsOrNoMemory refusal.OutOfMemory result (status_of (view value.now)) }
{
    let supi = supi(alloc, value)?;
    let infos = infos(alloc, value)?;
    Ok(SpendStatus { supi, infos })
}

/// A spending limit status from a body (TS 29.594, SpendingLimitStatus, in this product's profile).
///
/// `NotJson` exactly where the body is no JSON object of nesting at most 127; else `Missing` or `Wrong` for the first
/// field in this order that is absent or wrong: `supi` (a name), `statusInfos` (an object, in which each member has
/// `currentStatus` and `policyCounterId`, both names, the latter equal to the member's key).
pub fn read_status(alloc: Global, body: &[u8]) -> Result<SpendStatus, JsonRefusal>
    ensures { IsOrNoMemory refusal.OutOfMemory result (status_in body.now) }
{
    match read_object(alloc, body) {
        Ok(value) => read_fields(alloc, &value),
        Err(e) => Err(e),
    }
}
