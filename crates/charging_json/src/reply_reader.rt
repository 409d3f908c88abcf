//! Replies, read.
ghost use Rattle.std.specs.Prelude.{◌≡◌, ◌==◌, codes, false, IfOk, Ok, Err, option_map, option_and_then};
ghost use Rattle.serde_json.specs.View.{view};
ghost use Rattle.serde_json.specs.Find.{as_str};
ghost use Rattle.units.specs.Answers.{IsOrNoMemory};
ghost use Rattle.units.specs.declared.refusal.JsonRefusal.TheVariants as refusal;
ghost use Rattle.units.specs.declared.reply.Reply.TheVariants as reply;
ghost use Rattle.json_objects.specs.Fields.{given, number_32, time, optional, list_of, or_empty, required, allowed};
ghost use Rattle.charging_json.specs.Rules.{rules_of};
ghost use Rattle.charging_json.specs.Information.{info_of};
ghost use Rattle.charging_json.specs.Location.{reference_of};
ghost use Rattle.units.specs.ReplyRanges.{FitsReply};
ghost use Rattle.charging_json.specs.Reply.{handling, result_of, failover, flat, answer_of, problem_of, reference_given, created_of, updated_of, refused_of, reply_of, reply_in};

use crate::information::infos;
use crate::invocation::{sequence_number, stamp};
use crate::location::reference;
use crate::rules::rules;
use json_objects::{allowed, given, or_empty, owned, read_object, required};
use serde_json::Value;
use std::alloc::Global;
use units::{
    Answer, Handling, JsonRefusal, List, Problem, Reply, Text, TriggerRule, UnitInfo,
    failover_named, handling_named,
};

fn optional_handling(value: &Value) -> Option<Option<Handling>>
    ensures { result ≡ optional handling (given (codes "failureHandling") (view value.now)) }
{
    match given(value, "failureHandling") {
        Some(found) => match found.as_str() {
            Some(text) => match handling_named(text) {
                Some(handling) => Some(Some(handling)),
                None => None,
            },
            None => None,
        },
        None => Some(None),
    }
}

// The failure handling of an invocation result; `None` where it is wrong.
fn result_handling(value: &Value) -> Option<Option<Handling>>
    ensures { result ≡ result_of (view value.now) }
{
    if value.is_object() {
        optional_handling(value)
    } else {
        None
    }
}

fn read_handling(alloc: Global, value: &Value) -> Result<Option<Option<Handling>>, JsonRefusal>
    ensures { IsOrNoMemory refusal.OutOfMemory result (allowed (codes "invocationResult") (option_map result_of (given (codes "invocationResult") (view value.now)))) }
{
    let found = match given(value, "invocationResult") {
        Some(found) => Some(result_handling(found)),
        None => None,
    };
    allowed(alloc, "invocationResult", found)
}

fn failover(value: &Value) -> Option<bool>
    ensures { result ≡ failover (view value.now) }
{
    match value.as_str() {
        Some(text) => failover_named(text),
        None => None,
    }
}

fn read_failover(alloc: Global, value: &Value) -> Result<Option<bool>, JsonRefusal>
    ensures { IsOrNoMemory refusal.OutOfMemory result (allowed (codes "sessionFailover") (option_map failover (given (codes "sessionFailover") (view value.now)))) }
{
    let found = match given(value, "sessionFailover") {
        Some(found) => Some(failover(found)),
        None => None,
    };
    allowed(alloc, "sessionFailover", found)
}

fn read_rules(alloc: Global, value: &Value) -> Result<Option<List<TriggerRule>>, JsonRefusal>
    ensures { IsOrNoMemory refusal.OutOfMemory result (allowed (codes "triggers") (option_map rules_of (given (codes "triggers") (view value.now)))) }
{
    let found = match given(value, "triggers") {
        Some(found) => Some(rules(alloc, found)?),
        None => None,
    };
    allowed(alloc, "triggers", found)
}

fn read_units(alloc: Global, value: &Value) -> Result<Option<List<UnitInfo>>, JsonRefusal>
    ensures { IsOrNoMemory refusal.OutOfMemory result (allowed (codes "multipleUnitInformation") (option_map (list_of info_of) (given (codes "multipleUnitInformation") (view value.now)))) }
{
    let found = match given(value, "multipleUnitInformation") {
        Some(found) => Some(infos(alloc, found)?),
        None => None,
    };
    allowed(alloc, "multipleUnitInformation", found)
}

fn flat(handling: Option<Option<Handling>>) -> Option<Handling>
    ensures { result ≡ flat handling }
{
    match handling {
        Some(handling) => handling,
        None => None,
    }
}

fn read_answer(alloc: Global, value: &Value) -> Result<Answer, JsonRefusal>
    ensures { IsOrNoMemory refusal.OutOfMemory result (answer_of (view value.now)) }
{
    let stamp = stamp(alloc, value)?;
    let number = sequence_number(alloc, value)?;
    let handling = read_handling(alloc, value)?;
    let failover = read_failover(alloc, value)?;
    let triggers = read_rules(alloc, value)?;
    let units = read_units(alloc, value)?;
    Ok(Answer {
        number,
        stamp,
        failover,
        handling: flat(handling),
        triggers: or_empty(alloc, triggers),
        units: or_empty(alloc, units),
    })
}

fn read_cause(alloc: Global, value: &Value) -> Result<Text, JsonRefusal>
    ensures { IsOrNoMemory refusal.OutOfMemory result (required (codes "cause") (option_map as_str (given (codes "cause") (view value.now)))) }
{
    let found = match given(value, "cause") {
        Some(found) => Some(owned(alloc, found.as_str())?),
        None => None,
    };
    required(alloc, "cause", found)
}

fn read_detail(alloc: Global, value: &Value) -> Result<Option<Text>, JsonRefusal>
    ensures { IsOrNoMemory refusal.OutOfMemory result (allowed (codes "detail") (option_map as_str (given (codes "detail") (view value.now)))) }
{
    let found = match given(value, "detail") {
        Some(found) => Some(owned(alloc, found.as_str())?),
        None => None,
    };
    allowed(alloc, "detail", found)
}

fn read_problem(alloc: Global, status: u16, value: &Value) -> Result<Problem, JsonRefusal>
    ensures { IsOrNoMemory refusal.OutOfMemory result (problem_of status (view value.now)) }
{
    let cause = read_cause(alloc, value)?;
    let detail = read_detail(alloc, value)?;
    Ok(Problem {
        status,
        cause,
        detail,
    })
}

fn read_reference(alloc: Global, location: Option<&str>) -> Result<u32, JsonRefusal>
    ensures { IsOrNoMemory refusal.OutOfMemory result (reference_given (option_map (λ t. t.now) location.entry)) }
{
    let found = match location {
        Some(location) => Some(reference(alloc, location)?),
        None => None,
    };
    required(alloc, "Location", found)
}

fn read_created(alloc: Global, location: Option<&str>, value: &Value) -> Result<Reply, JsonRefusal>
    ensures { IsOrNoMemory refusal.OutOfMemory result (created_of (option_map (λ t. t.now) location.entry) (view value.now)) }
{
    let answer = read_answer(alloc, value)?;
    let reference = read_reference(alloc, location)?;
    Ok(Reply::Created { reference, answer })
}

fn read_updated(alloc: Global, value: &Value) -> Result<Reply, JsonRefusal>
    ensures { IsOrNoMemory refusal.OutOfMemory result (updated_of (view value.now)) }
{
    let answer = read_answer(alloc, value)?;
    Ok(Reply::Updated { answer })
}

fn read_refused(alloc: Global, status: u16, value: &Value) -> Result<Reply, JsonRefusal>
    ensures { IsOrNoMemory refusal.OutOfMemory result (refused_of status (view value.now)) }
{
    let problem = read_problem(alloc, status, value)?;
    Ok(Reply::Refused { problem })
}

fn read_value(
    alloc: Global,
    status: u16,
    location: Option<&str>,
    value: &Value,
) -> Result<Reply, JsonRefusal>
    ensures { IsOrNoMemory refusal.OutOfMemory result (reply_of status (option_map (λ t. t.now) location.entry) (view value.now)) }
{
    if status == 201 {
        read_created(alloc, location, value)
    } else if status == 200 {
        read_updated(alloc, value)
    } else {
        read_refused(alloc, status, value)
    }
}

/// The reply to a charging data request, from a response's status, Location and body (TS 32.291, 6.1.3.3 and 6.1.6.2.1.6,
/// in this product's profile).
///
/// 201 is `Created`, 200 `Updated`, 204 `Released`, whose body is not read; at every other status the body is problem
/// details. `NotJson` exactly where the body is no JSON object of nesting at most 127; else `Missing` or `Wrong` for the
/// first field in the profile's order that is absent or wrong: `invocationTimeStamp`, `invocationSequenceNumber`,
/// `invocationResult`, `sessionFailover`, `triggers`, `multipleUnitInformation`, and at 201 the `Location`; `cause` and
/// `detail` of a problem. What is read can be written, and reads back.
pub fn read_reply(
    alloc: Global,
    status: u16,
    location: Option<&str>,
    body: &[u8],
) -> Result<Reply, JsonRefusal>
    ensures released { status ≡ 204 → result ≡ Ok reply.Released }
    ensures answer { IsOrNoMemory refusal.OutOfMemory result (reply_in status (option_map (λ t. t.now) location.entry) body.now) }
    ensures range { IfOk result (λ r. FitsReply r) }
{
    if status == 204 {
        return Ok(Reply::Released);
    }
    match read_object(alloc, body) {
        Ok(value) => read_value(alloc, status, location, &value),
        Err(e) => Err(e),
    }
}
