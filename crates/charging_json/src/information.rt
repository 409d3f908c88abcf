//! Multiple unit information, read.
ghost use Rattle.std.specs.Prelude.{◌≡◌, codes, IfOk, Some, option_map};
ghost use Rattle.serde_json.specs.View.{view};
ghost use Rattle.json_objects.specs.Fields.{given, optional, needed, list_of, or_empty};
ghost use Rattle.charging_json.specs.Rules.{rules_of};
ghost use Rattle.charging_json.specs.Information.{code, action, last_units_of, amount, granted_of, bounds_of, info_of};

use crate::rules::rules;
use json_objects::{given, needed_number_32, optional_number, optional_number_32, optional_time};
use serde_json::Value;
use std::alloc::{AllocError, Global};
use units::{Action, Amount, Code, List, Moment, TriggerRule, UnitInfo, action_named, code_named};

/// A granted unit and the tariff time change that stands beside it.
#[derive(Clone, Copy, Debug, PartialEq, Eq)]
pub struct Granted {
    pub grant: Option<Amount>,
    pub switch: Option<Moment>,
}

/// The validity time, the quota holding time and the thresholds of an entry.
#[derive(Clone, Copy, Debug, PartialEq, Eq)]
pub struct Bounds {
    pub validity: Option<u32>,
    pub holding: Option<u32>,
    pub volume_threshold: Option<u64>,
    pub time_threshold: Option<u32>,
}

fn result_code(value: &Value) -> Option<Code>
    ensures { result ≡ needed code (given (codes "resultCode") (view value.now)) }
{
    match given(value, "resultCode") {
        Some(found) => match found.as_str() {
            Some(text) => Some(code_named(text)),
            None => None,
        },
        None => None,
    }
}

fn optional_action(value: &Value) -> Option<Option<Action>>
    ensures { result ≡ optional action (given (codes "finalUnitAction") (view value.now)) }
{
    match given(value, "finalUnitAction") {
        Some(found) => match found.as_str() {
            Some(text) => match action_named(text) {
                Some(action) => Some(Some(action)),
                None => None,
            },
            None => None,
        },
        None => Some(None),
    }
}

// The final unit indication's action, where there is one; `None` where it is wrong.
fn last_units(value: &Value) -> Option<Option<Action>>
    ensures { result ≡ last_units_of (given (codes "finalUnitIndication") (view value.now)) }
{
    match given(value, "finalUnitIndication") {
        Some(found) => if found.is_object() {
            optional_action(found)
        } else {
            None
        },
        None => Some(None),
    }
}

// The amount of a granted unit.
fn amount(octets: Option<u64>, seconds: Option<u32>) -> Option<Amount>
    ensures { result ≡ amount octets seconds }
{
    match (octets, seconds) {
        (Some(octets), _) => Some(Amount::Volume(octets)),
        (None, Some(seconds)) => Some(Amount::Seconds(seconds)),
        (None, None) => None,
    }
}

// The granted unit; `None` where it is wrong.
fn read_granted(value: &Value) -> Option<Granted>
    ensures { result ≡ granted_of (given (codes "grantedUnit") (view value.now)) }
{
    let Some(found) = given(value, "grantedUnit") else {
        return Some(Granted {
            grant: None,
            switch: None,
        });
    };
    if !found.is_object() {
        return None;
    }
    let switch = optional_time(found, "tariffTimeChange")?;
    let seconds = optional_number_32(found, "time")?;
    let octets = optional_number(found, "totalVolume", 1 << 60)?;
    Some(Granted {
        grant: amount(octets, seconds),
        switch,
    })
}

// The validity time, the quota holding time and the thresholds; `None` where one is wrong.
fn read_bounds(value: &Value) -> Option<Bounds>
    ensures { result ≡ bounds_of (view value.now) }
{
    let validity = optional_number_32(value, "validityTime")?;
    let holding = optional_number_32(value, "quotaHoldingTime")?;
    let volume_threshold = optional_number(value, "volumeQuotaThreshold", 1 << 60)?;
    let time_threshold = optional_number_32(value, "timeQuotaThreshold")?;
    Some(Bounds {
        validity,
        holding,
        volume_threshold,
        time_threshold,
    })
}

// The trigger rules of an entry; `None` where one is wrong.
fn own_rules(alloc: Global, value: &Value) -> Result<Option<List<TriggerRule>>, AllocError>
    ensures { IfOk result (λ o. o ≡ option_map or_empty (optional rules_of (given (codes "triggers") (view value.now)))) }
{
    match given(value, "triggers") {
        Some(found) => rules(alloc, found),
        None => Ok(Some(List::new(alloc))),
    }
}

// An entry for one rating group; `None` where it is wrong.
fn info(alloc: Global, value: &Value) -> Result<Option<UnitInfo>, AllocError>
    ensures { IfOk result (λ o. o ≡ info_of (view value.now)) }
{
    let Some(group) = needed_number_32(value, "ratingGroup") else {
        return Ok(None);
    };
    let Some(code) = result_code(value) else {
        return Ok(None);
    };
    let Some(granted) = read_granted(value) else {
        return Ok(None);
    };
    let Some(bounds) = read_bounds(value) else {
        return Ok(None);
    };
    let Some(last_units) = last_units(value) else {
        return Ok(None);
    };
    let Some(triggers) = own_rules(alloc, value)? else {
        return Ok(None);
    };
    Ok(Some(UnitInfo {
        group,
        code,
        grant: granted.grant,
        switch: granted.switch,
        validity: bounds.validity,
        holding: bounds.holding,
        volume_threshold: bounds.volume_threshold,
        time_threshold: bounds.time_threshold,
        last_units,
        triggers,
    }))
}

/// The multiple unit information; `None` where an entry is wrong.
pub fn infos(alloc: Global, value: &Value) -> Result<Option<List<UnitInfo>>, AllocError>
    ensures { IfOk result (λ o. o ≡ list_of info_of (view value.now)) }
{
    let Some(items) = value.as_array() else {
        return Ok(None);
    };
    let mut found = Vec::new(alloc);
    for item in items {
        match info(alloc, item)? {
            Some(info) => found.push(info)?,
            None => return Ok(None),
        }
    }
    Ok(Some(List::from_vec(found)))
}
