//! The trigger rules of a reply, read.
ghost use Rattle.std.specs.Prelude.{◌≡◌, IfOk, Some, option_map, vec_len};
ghost use Rattle.serde_json.specs.View.{view};
ghost use Rattle.charging_json.specs.Rules.{rule_of, rules_of};

use crate::triggers::{kind, read_limits};
use serde_json::Value;
use std::alloc::{AllocError, Global};
use units::{List, TriggerRule, type_named};

// A trigger rule; `None` where it is wrong, `Some(None)` where its type is unknown.
fn rule(value: &Value) -> Option<Option<TriggerRule>>
    ensures { result ≡ rule_of (view value.now) }
{
    let name = kind(value)?;
    let limits = read_limits(value)?;
    match type_named(name) {
        Some(trigger) => Some(Some(TriggerRule {
            trigger,
            immediate: limits.immediate,
            volume: limits.volume,
            seconds: limits.seconds,
            changes: limits.changes,
        })),
        None => Some(None),
    }
}

/// The rules of a list of triggers, those of unknown types read past; `None` where one is wrong.
pub fn rules(alloc: Global, value: &Value) -> Result<Option<List<TriggerRule>>, AllocError>
    ensures { IfOk result (λ o. o ≡ rules_of (view value.now)) }
{
    let Some(items) = value.as_array() else {
        return Ok(None);
    };
    let mut found = Vec::new(alloc);
    for item in items {
        match rule(item) {
            Some(Some(rule)) => found.push(rule)?,
            Some(None) => {}
            None => return Ok(None),
        }
    }
    Ok(Some(List::from_vec(found)))
}
