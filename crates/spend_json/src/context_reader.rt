//! Spending limit contexts, read.
ghost use Rattle.std.specs.Prelude.{◌≡◌, codes, IfOk, option_map};
ghost use Rattle.serde_json.specs.View.{view};
ghost use Rattle.units.specs.Answers.{IsOrNoMemory};
ghost use Rattle.units.specs.declared.refusal.JsonRefusal.TheVariants as refusal;
ghost use Rattle.json_objects.specs.Fields.{given, name, required, allowed};
ghost use Rattle.spend_json.specs.Context.{address_of, context_in, context_of, counters_of};
ghost use Rattle.spend_json.specs.Ranges.{FitsContext};

use crate::address::is_address;
use json_objects::{allowed, given, name, names, or_empty, owned, read_object, required};
use serde_json::Value;
use std::alloc::{AllocError, Global};
use units::{JsonRefusal, List, SpendContext, Text};

/// The subscriber identifier.
pub fn supi(alloc: Global, value: &Value) -> Result<Text, JsonRefusal>
    ensures { IsOrNoMemory refusal.OutOfMemory result (required (codes "supi") (option_map name (given (codes "supi") (view value.now)))) }
{
    let found = match given(value, "supi") {
        Some(found) => Some(owned(alloc, name(found))?),
        None => None,
    };
    required(alloc, "supi", found)
}

// A list of at most 100 names; `None` where it is none.
fn few_names(alloc: Global, value: &Value) -> Result<Option<List<Text>>, AllocError>
    ensures { IfOk result (λ o. o ≡ counters_of (view value.now)) }
{
    match names(alloc, value)? {
        Some(names) => if names.len() <= 100 {
            Ok(Some(names))
        } else {
            Ok(None)
        },
        None => Ok(None),
    }
}

fn counters(alloc: Global, value: &Value) -> Result<Option<List<Text>>, JsonRefusal>
    ensures { IsOrNoMemory refusal.OutOfMemory result (allowed (codes "policyCounterIds") (option_map counters_of (given (codes "policyCounterIds") (view value.now)))) }
{
    let found = match given(value, "policyCounterIds") {
        Some(found) => Some(few_names(alloc, found)?),
        None => None,
    };
    allowed(alloc, "policyCounterIds", found)
}

// An address for notifications; `None` where it is none.
fn address(alloc: Global, value: &Value) -> Result<Option<Text>, AllocError>
    ensures { IfOk result (λ o. o ≡ address_of (view value.now)) }
{
    match value.as_str() {
        Some(text) => if is_address(alloc, text)? {
            Ok(Some(Text::from_text(alloc, text)?))
        } else {
            Ok(None)
        },
        None => Ok(None),
    }
}

fn notify(alloc: Global, value: &Value) -> Result<Text, JsonRefusal>
    ensures { IsOrNoMemory refusal.OutOfMemory result (required (codes "notifUri") (option_map address_of (given (codes "notifUri") (view value.now)))) }
{
    let found = match given(value, "notifUri") {
        Some(found) => Some(address(alloc, found)?),
        None => None,
    };
    required(alloc, "notifUri", found)
}

fn read_fields(alloc: Global, value: &Value) -> Result<SpendContext, JsonRefusal>
    ensures { IsOrNoMemory refusal.OutOfMemory result (context_of (view value.now)) }
{
    let supi = supi(alloc, value)?;
    let counters = counters(alloc, value)?;
    let notify = notify(alloc, value)?;
    Ok(SpendContext {
        supi,
        counters: or_empty(alloc, counters),
        notify,
    })
}

/// A spending limit context from a body (TS 29.594, SpendingLimitContext, in this product's profile).
///
/// `NotJson` exactly where the body is no JSON object of nesting at most 127; else `Missing` or `Wrong` for the first
/// field in the profile's order that is absent or wrong: `supi` (a name), `policyCounterIds` (at most 100 names, which may
/// be absent), `notifUri` (a URL of the scheme `http` of at most 255 bytes). What is read can be written, and reads back.
pub fn read_context(alloc: Global, body: &[u8]) -> Result<SpendContext, JsonRefusal>
    ensures answer { IsOrNoMemory refusal.OutOfMemory result (context_in body.now) }
    ensures range { IfOk result (λ context. FitsContext context) }
{
    match read_object(alloc, body) {
        Ok(value) => read_fields(alloc, &value),
        Err(e) => Err(e),
    }
}
