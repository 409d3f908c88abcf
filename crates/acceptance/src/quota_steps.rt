//! What comes to the quota of one rating group, and what is due then.
use crate::values::{given, long, moment, small};
use quotas::{Gate, Group, Limits, State};
use std::alloc::Global;
use units::{Action, Amount, Code, Container, List, Moment, OutOfMemory, TriggerType, UnitInfo};

/// The words of the triggers that may be due or fire.
const TRIGGERS: [(&str, TriggerType); 10] = [
    ("FINAL", TriggerType::Final),
    ("EXHAUSTED", TriggerType::QuotaExhausted),
    ("THRESHOLD", TriggerType::QuotaThreshold),
    ("VALIDITY", TriggerType::ValidityTime),
    ("QHT", TriggerType::QuotaHoldingTime),
    ("TARIFF", TriggerType::TariffTimeChange),
    ("VOLUME", TriggerType::VolumeLimit),
    ("TIME", TriggerType::TimeLimit),
    ("FORCED", TriggerType::ForcedReauthorisation),
    ("QOS", TriggerType::QosChange),
];

fn trigger(word: &str) -> TriggerType {
    for (name, trigger) in TRIGGERS {
        if name == word {
            return trigger;
        }
    }
    TriggerType::AbnormalRelease
}

fn word_of(due: Option<TriggerType>) -> &'static str {
    let Some(due) = due else {
        return "-";
    };
    for (name, trigger) in TRIGGERS {
        if trigger == due {
            return name;
        }
    }
    "?"
}

fn code(word: &str) -> Code {
    match word {
        "ok" => Code::Success,
        "denied" => Code::Denied,
        "none" => Code::NotApplicable,
        "limit" => Code::LimitReached,
        _ => Code::RatingFailed,
    }
}

fn action(word: &str) -> Option<Action> {
    match word {
        "TERMINATE" => Some(Action::Terminate),
        "REDIRECT" => Some(Action::Redirect),
        "RESTRICT" => Some(Action::RestrictAccess),
        _ => None,
    }
}

// v, s or a hyphen, with an amount behind.
fn amount(word: &str) -> Option<Amount> {
    match word.split_at_checked(1) {
        Some(("v", octets)) => Some(Amount::Volume(long(octets))),
        Some(("s", seconds)) => Some(Amount::Seconds(small(seconds))),
        _ => None,
    }
}

// CODE AMOUNT THRESHOLD VALIDITY HOLDING LAST: an entry whose threshold is of the granted kind; that of the other kind is great.
fn entry(alloc: Global, words: &[&str]) -> Option<UnitInfo> {
    let [code_word, grant, threshold, validity, holding, last] = words else {
        return None;
    };
    let grant = amount(grant);
    let is_time = matches!(grant, Some(Amount::Seconds(_)));
    Some(UnitInfo {
        group: 10,
        code: code(code_word),
        grant,
        switch: None,
        validity: given(validity),
        holding: given(holding),
        volume_threshold: Some(if is_time { 1 << 60 } else { long(threshold) }),
        time_threshold: if is_time {
            given(threshold)
        } else {
            Some(u32::MAX)
        },
        last_units: action(last),
        triggers: List::new(alloc),
    })
}

fn state(state: State) -> &'static str {
    match state {
        State::Nothing => "nothing",
        State::Granted => "granted",
        State::Unlimited => "unlimited",
        State::Denied => "denied",
        State::Spent => "spent",
        State::Free => "free",
    }
}

fn gate(gate: Gate) -> &'static str {
    match gate {
        Gate::Passing => "passing",
        Gate::Waiting => "waiting",
        Gate::Closed => "closed",
        Gate::Redirect => "redirect",
        Gate::Restrict => "restrict",
    }
}

// State and gate, and whether there is a wish, whether it is asked, and whether quota is given back.
fn see(alloc: Global, group: &Group) -> Result<String, OutOfMemory> {
    let wish = if group.wish() { "/wish" } else { "" };
    let asked = if group.is_asked() { "/asked" } else { "" };
    let back = if group.gives_back() { "/back" } else { "" };
    let (state, gate) = (state(group.state()), gate(group.gate()));
    let seen = format!(in alloc; "{state}/{gate}{wish}")?;
    Ok(format!(in alloc; "{seen}{asked}{back}")?)
}

// What is due beside an open container of these octets up and down and these seconds, with whether an hour is unsafe, at a moment,
// under limits of octets and seconds.
fn due_by_container(group: &Group, words: &[&str]) -> Option<TriggerType> {
    let [
        up,
        down,
        seconds,
        unsafe_hour,
        now,
        most_octets,
        most_seconds,
    ] = words
    else {
        return None;
    };
    let at = moment(now);
    let open = Container {
        lsn: 1,
        group: 10,
        up: long(up),
        down: long(down),
        seconds: small(seconds),
        first: at,
        last: at,
        reports: 1,
    };
    let limits = Limits {
        volume: long(most_octets),
        seconds: small(most_seconds),
    };
    group.due(Some(&open), *unsafe_hour == "unsafe", at, &limits)
}

fn due(group: &Group, now: Moment) -> Option<TriggerType> {
    let none = Limits {
        volume: 0,
        seconds: 0,
    };
    group.due(None, false, now, &none)
}

// One step, with what it shows.
fn step(alloc: Global, group: &mut Group, words: &[&str]) -> Result<String, OutOfMemory> {
    match words {
        ["ask"] => group.ask(),
        ["freeze"] => group.freeze(),
        ["answer", stamp, "-"] => group.answer(moment(stamp), None),
        ["answer", stamp, info @ ..] => group.answer(moment(stamp), entry(alloc, info).as_ref()),
        ["without"] => group.continue_without(),
        ["used", octets, seconds, at] => group.used(long(octets), small(seconds), moment(at)),
        ["shut"] => group.shut(),
        ["fire", name] => group.fire(trigger(name)),
        ["see"] => return see(alloc, group),
        ["due", now] => return Ok(String::from_str(alloc, word_of(due(group, moment(now))))?),
        ["open", open @ ..] => {
            return Ok(String::from_str(alloc, word_of(due_by_container(group, open)))?);
        }
        _ => return Ok(String::from_str(alloc, "?")?),
    }
    Ok(String::new(alloc))
}

/// What is seen of a group in the course of its steps.
pub fn quota(alloc: Global, steps: &str) -> Result<String, OutOfMemory> {
    let mut group = Group::new();
    let mut text = String::new(alloc);
    for part in steps.split(';') {
        let words: Vec<&str> = part.split_whitespace().collect(alloc)?;
        let seen = step(alloc, &mut group, &words)?;
        if !seen.is_empty() && !text.is_empty() {
            text.push_str(" ")?;
        }
        text.push_str(seen.as_str())?;
    }
    Ok(text)
}
