//! A CHF's answers, by the words of a row.
use crate::values::{given, long, small};
use rows::number;
use std::alloc::Global;
use units::{
    Action, Amount, Answer, Code, Handling, List, Moment, OutOfMemory, TriggerRule, TriggerType,
    UnitInfo,
};

/// The moment of the first Attach, which is 245 seconds after an hour.
pub const ATTACHED: u64 = 1_767_323_045;

const TYPES: [(&str, TriggerType); 12] = [
    ("FORCED", TriggerType::ForcedReauthorisation),
    ("QOS", TriggerType::QosChange),
    ("RAT", TriggerType::RatChange),
    ("PLMN", TriggerType::PlmnChange),
    ("LOCATION", TriggerType::UserLocationChange),
    ("TIMEZONE", TriggerType::UeTimezoneChange),
    ("AMBR", TriggerType::SessionAmbrChange),
    ("NODE", TriggerType::ServingNodeChange),
    ("MANAGEMENT", TriggerType::ManagementIntervention),
    ("VOLUME", TriggerType::VolumeLimit),
    ("TIME", TriggerType::TimeLimit),
    (
        "CHANGES",
        TriggerType::MaxNumberOfChangesInChargingConditions,
    ),
];

/// So many seconds after the Attach.
pub fn at(seconds: u64) -> Moment {
    Moment::new(ATTACHED.saturating_add(seconds)).unwrap_or(Moment::first())
}

/// The trigger type of a word.
pub fn trigger(text: &str) -> TriggerType {
    for (name, trigger) in &TYPES {
        if *name == text {
            return *trigger;
        }
    }
    TriggerType::Final
}

/// The failure handling of a letter.
pub fn handling(word: &str) -> Handling {
    match word {
        "T" => Handling::Terminate,
        "R" => Handling::RetryAndTerminate,
        _ => Handling::Continue,
    }
}

fn amount(word: &str) -> Option<u64> {
    number(u64::MAX, word.as_bytes())
}

fn last_units(word: &str) -> Option<Action> {
    match word {
        "T" => Some(Action::Terminate),
        "R" => Some(Action::Redirect),
        "A" => Some(Action::RestrictAccess),
        _ => None,
    }
}

// GROUP:KIND:AMOUNT:THRESHOLD:LAST:SWITCH, and VALIDITY:HOLDING, with the rules for the group.
fn info(fields: &[&str], triggers: List<TriggerRule>) -> Option<UnitInfo> {
    let [group, kind, units, threshold, last, switch, times @ ..] = fields else {
        return None;
    };
    let (validity, holding) = match times {
        [validity, holding] => (given(validity), given(holding)),
        _ => (None, None),
    };
    let is_time = *kind == "s";
    Some(UnitInfo {
        group: small(group),
        code: if *kind == "d" {
            Code::Denied
        } else {
            Code::Success
        },
        grant: match *kind {
            "v" => Some(Amount::Volume(long(units))),
            "s" => Some(Amount::Seconds(small(units))),
            _ => None,
        },
        switch: if *switch == "-" {
            None
        } else {
            Some(at(long(switch)))
        },
        validity,
        holding,
        volume_threshold: if is_time { None } else { amount(threshold) },
        time_threshold: if is_time { given(threshold) } else { None },
        last_units: last_units(last),
        triggers,
    })
}

// TYPE:CATEGORY, and VOLUME:SECONDS:CHANGES, with that type.
fn rule(name: &str, fields: &[&str]) -> Option<TriggerRule> {
    let (category, limits) = match fields {
        [_, category] => (*category, ["-", "-", "-"]),
        [_, category, volume, seconds, changes] => (*category, [*volume, *seconds, *changes]),
        _ => return None,
    };
    let [volume, seconds, changes] = limits;
    Some(TriggerRule {
        trigger: trigger(name),
        immediate: category == "I",
        volume: amount(volume),
        seconds: given(seconds),
        changes: given(changes),
    })
}

// The rule of an entry, where it is one for this rating group, or for the session.
fn rule_for(
    alloc: Global,
    group: Option<u32>,
    fields: &[&str],
) -> Result<Option<TriggerRule>, OutOfMemory> {
    let [first, ..] = fields else {
        return Ok(None);
    };
    let names: Vec<&str> = first.split('/').collect(alloc)?;
    Ok(match (group, names.as_slice()) {
        (None, [name]) => rule(name, fields),
        (Some(group), [number, name]) if small(number) == group => rule(name, fields),
        _ => None,
    })
}

// The rules of some entries for a rating group, or for the session.
fn rules(
    alloc: Global,
    group: Option<u32>,
    entries: &[&str],
) -> Result<List<TriggerRule>, OutOfMemory> {
    let mut rules = List::new(alloc);
    for entry in entries {
        let fields: Vec<&str> = entry.split(':').collect(alloc)?;
        if let Some(rule) = rule_for(alloc, group, fields.as_slice())? {
            rules.push(rule)?;
        }
    }
    Ok(rules)
}

/// The answer to a request, of these entries.
pub fn answer(alloc: Global, request: u32, entries: &[&str]) -> Result<Answer, OutOfMemory> {
    let mut units = List::new(alloc);
    let mut failover = None;
    let mut handles = None;
    for entry in entries {
        match *entry {
            "failover=y" => failover = Some(true),
            "failover=n" => failover = Some(false),
            "handling=T" => handles = Some(handling("T")),
            "handling=C" => handles = Some(handling("C")),
            "handling=R" => handles = Some(handling("R")),
            _ => {
                let fields: Vec<&str> = entry.split(':').collect(alloc)?;
                if let [group, ..] = fields.as_slice() {
                    let rules = rules(alloc, Some(small(group)), entries)?;
                    if let Some(info) = info(fields.as_slice(), rules) {
                        units.push(info)?;
                    }
                }
            }
        }
    }
    Ok(Answer {
        number: request,
        stamp: at(0),
        failover,
        handling: handles,
        triggers: rules(alloc, None, entries)?,
        units,
    })
}
