//! Charging data requests, read.
ghost use Rattle.std.specs.Prelude.{◌≡◌, codes, IfOk, Ok, Err, option_map};
ghost use Rattle.std.specs.List.{list_all};
ghost use Rattle.serde_json.specs.View.{view};
ghost use Rattle.serde_json.specs.Find.{as_bool};
ghost use Rattle.units.specs.Answers.{IsOrNoMemory};
ghost use Rattle.units.specs.declared.refusal.JsonRefusal.TheVariants as refusal;
ghost use Rattle.json_objects.specs.Fields.{given, number_32, time, name, text_that, list_of, or_empty, required, allowed, required_if};
ghost use Rattle.charging_json.specs.Triggers.{sound_kind};
ghost use Rattle.charging_json.specs.Usage.{entry_of, short_list_of};
ghost use Rattle.units.specs.Names.{is_visible, is_address};
ghost use Rattle.units.specs.Ranges.{FitsRequest, is_create};
ghost use Rattle.charging_json.specs.Request.{consumer_of, consumer_place, charging_id_place, request_of, request_in};

use crate::invocation::{sequence_number, stamp};
use crate::triggers::kinds;
use crate::usage::entries;
use json_objects::{
    allowed, given, name, number_32, or_empty, owned, read_object, required, required_if,
};
use serde_json::Value;
use std::alloc::{AllocError, Global};
use units::{JsonRefusal, List, Moment, Operation, Request, Text, UnitUsage};

// Where the name of a consumer stands.
fn consumer_place(value: &Value) -> Option<&Value>
    ensures { option_map (λ v. view v.now) result ≡ consumer_place (view value.now) }
{
    match given(value, "nFName") {
        Some(found) => Some(found),
        None => match given(value, "nFIPv4Address") {
            Some(found) => Some(found),
            None => given(value, "nFFqdn"),
        },
    }
}

// The name of a consumer, where it has one that is right.
fn consumer_name(value: &Value) -> Option<&str>
    ensures { option_map (λ t. t.now) result ≡ consumer_of (view value.now) }
{
    match consumer_place(value) {
        Some(found) => name(found),
        None => None,
    }
}

fn consumer(alloc: Global, value: &Value) -> Result<Text, JsonRefusal>
    ensures { IsOrNoMemory refusal.OutOfMemory result (required (codes "nfConsumerIdentification") (option_map consumer_of (given (codes "nfConsumerIdentification") (view value.now)))) }
{
    let found = match given(value, "nfConsumerIdentification") {
        Some(found) => Some(owned(alloc, consumer_name(found))?),
        None => None,
    };
    required(alloc, "nfConsumerIdentification", found)
}

fn subscriber(
    alloc: Global,
    operation: Operation,
    value: &Value,
) -> Result<Option<Text>, JsonRefusal>
    ensures { IsOrNoMemory refusal.OutOfMemory result (required_if (is_create operation) (codes "subscriberIdentifier") (option_map name (given (codes "subscriberIdentifier") (view value.now)))) }
{
    let found = match given(value, "subscriberIdentifier") {
        Some(found) => Some(owned(alloc, name(found))?),
        None => None,
    };
    required_if(alloc, is_create(operation), "subscriberIdentifier", found)
}

/// Whether it is a Create, in which subscriber and charging id have to be there.
pub fn is_create(operation: Operation) -> bool
    ensures { result ≡ is_create operation }
{
    match operation {
        Operation::Create => true,
        Operation::Update(_) => false,
        Operation::Release(_) => false,
    }
}

// Where the charging id stands.
fn charging_id_place(value: &Value) -> Option<&Value>
    ensures { option_map (λ v. view v.now) result ≡ charging_id_place (view value.now) }
{
    match given(value, "chargingId") {
        Some(found) => Some(found),
        None => match given(value, "pDUSessionChargingInformation") {
            Some(session) => given(session, "chargingId"),
            None => None,
        },
    }
}

fn charging_id(
    alloc: Global,
    operation: Operation,
    value: &Value,
) -> Result<Option<u32>, JsonRefusal>
    ensures { IsOrNoMemory refusal.OutOfMemory result (required_if (is_create operation) (codes "chargingId") (option_map number_32 (charging_id_place (view value.now)))) }
{
    let found = match charging_id_place(value) {
        Some(found) => Some(number_32(found)),
        None => None,
    };
    required_if(alloc, is_create(operation), "chargingId", found)
}

fn again(alloc: Global, value: &Value) -> Result<Option<bool>, JsonRefusal>
    ensures { IsOrNoMemory refusal.OutOfMemory result (allowed (codes "retransmissionIndicator") (option_map as_bool (given (codes "retransmissionIndicator") (view value.now)))) }
{
    let found = match given(value, "retransmissionIndicator") {
        Some(found) => Some(found.as_bool()),
        None => None,
    };
    allowed(alloc, "retransmissionIndicator", found)
}

fn are_visible(text: &[u8]) -> bool
    ensures { result ≡ list_all is_visible text.now }
{
    text.iter().all(|byte| 33 <= *byte && *byte <= 126)
}

// Whether a text may be an address for notifications.
fn is_address(text: &[u8]) -> bool
    ensures { result ≡ is_address text.now }
{
    1 <= text.len() && text.len() <= 255 && are_visible(text)
}

fn address(value: &Value) -> Option<&str>
    ensures { option_map (λ t. t.now) result ≡ text_that is_address (view value.now) }
{
    match value.as_str() {
        Some(text) => if is_address(text.as_bytes()) {
            Some(text)
        } else {
            None
        },
        None => None,
    }
}

fn notify(alloc: Global, value: &Value) -> Result<Option<Text>, JsonRefusal>
    ensures { IsOrNoMemory refusal.OutOfMemory result (allowed (codes "notifyUri") (option_map (text_that is_address) (given (codes "notifyUri") (view value.now)))) }
{
    let found = match given(value, "notifyUri") {
        Some(found) => Some(owned(alloc, address(found))?),
        None => None,
    };
    allowed(alloc, "notifyUri", found)
}

fn usage(
    alloc: Global,
    stamp: Moment,
    value: &Value,
) -> Result<Option<List<UnitUsage>>, JsonRefusal>
    ensures { IsOrNoMemory refusal.OutOfMemory result (allowed (codes "multipleUnitUsage") (option_map (short_list_of (entry_of stamp)) (given (codes "multipleUnitUsage") (view value.now)))) }
{
    let found = match given(value, "multipleUnitUsage") {
        Some(found) => Some(entries(alloc, stamp, found)?),
        None => None,
    };
    allowed(alloc, "multipleUnitUsage", found)
}

fn triggers(alloc: Global, value: &Value) -> Result<Option<List<Text>>, JsonRefusal>
    ensures { IsOrNoMemory refusal.OutOfMemory result (allowed (codes "triggers") (option_map (list_of sound_kind) (given (codes "triggers") (view value.now)))) }
{
    let found = match given(value, "triggers") {
        Some(found) => Some(kinds(alloc, found)?),
        None => None,
    };
    allowed(alloc, "triggers", found)
}

fn read_fields(alloc: Global, operation: Operation, value: &Value) -> Result<Request, JsonRefusal>
    ensures { IsOrNoMemory refusal.OutOfMemory result (request_of operation (view value.now)) }
{
    let consumer = consumer(alloc, value)?;
    let stamp = stamp(alloc, value)?;
    let number = sequence_number(alloc, value)?;
    let subscriber = subscriber(alloc, operation, value)?;
    let charging_id = charging_id(alloc, operation, value)?;
    let again = again(alloc, value)?;
    let notify = notify(alloc, value)?;
    let usage = usage(alloc, stamp, value)?;
    let triggers = triggers(alloc, value)?;
    Ok(Request {
        operation,
        consumer,
        subscriber,
        charging_id,
        number,
        stamp,
        again: again.unwrap_or(false),
        notify,
        usage: or_empty(alloc, usage),
        triggers: or_empty(alloc, triggers),
    })
}

/// A charging data request from a body (TS 32.291, 6.1.6.2.1.1, in this product's profile).
///
/// `NotJson` exactly where the body is no JSON object of nesting at most 127; else `Missing` or `Wrong` for the
/// first field in the profile's order that is absent or wrong: `nfConsumerIdentification`, `invocationTimeStamp`,
/// `invocationSequenceNumber`, `subscriberIdentifier` and `chargingId` (which only a Create has to have),
/// `retransmissionIndicator`, `notifyUri`, `multipleUnitUsage`, `triggers`. What is read can be written, and reads back.
pub fn read_request(
    alloc: Global,
    operation: Operation,
    body: &[u8],
) -> Result<Request, JsonRefusal>
    ensures answer { IsOrNoMemory refusal.OutOfMemory result (request_in operation body.now) }
    ensures range { IfOk result (λ request. FitsRequest request) }
{
    match read_object(alloc, body) {
        Ok(value) => read_fields(alloc, operation, &value),
        Err(e) => Err(e),
    }
}
