//! Charging data requests, written.
ghost use Rattle.std.specs.Prelude.{◌≡◌, ◌≤◌, ◌+◌, ◌^◌, ◌++◌, codes, min, length, IfOk, OnOk, OnErr, Ok, Some, option_map, map};
ghost use Rattle.serde_json.specs.Written.{compact_text};
ghost use Rattle.json_objects.specs.Objects.{listed};
ghost use Rattle.json_objects.specs.Tokens.{tokens_of, field_after, fields_after};
ghost use Rattle.units.specs.Ranges.{FitsRequest};
ghost use Rattle.charging_json.specs.Request.{request_in};
ghost use Rattle.charging_json.specs.RequestWritten.{trigger_data, total_of, span_data, used_data, ask_data, usage_data, consumer_data, again_data, invocation_fields, request_data, container_count};
ghost use Rattle.charging_json.specs.RequestBound.{WrittenRequestsAreBounded};

use json_objects::{ObjectWriter, bodies_hold_their_objects, written_values_read_back};
use moments::times_read_back;
use std::alloc::{AllocError, Global};
use std::mem;
use units::{Ask, List, OutOfMemory, Request, Text, UnitUsage, Used, name_of_category};

fn put_trigger(out: &mut ObjectWriter, kind: &Text) -> Result<(), AllocError>
    ensures ok { OnOk result (out.new.tokens ≡ out.old.tokens ++ tokens_of (trigger_data kind.now)) }
    ensures before { out.new.before ≡ out.old.before }
{
    out.begin_object()?;
    out.text("triggerCategory", name_of_category(true))?;
    out.text("triggerType", kind.as_str())?;
    out.end_object()
}

// The triggers, where there are any.
fn put_triggers(out: &mut ObjectWriter, kinds: &[Text]) -> Result<(), AllocError>
    ensures ok { OnOk result (out.new.tokens ≡ field_after out.old.tokens (codes "triggers") (listed (map trigger_data kinds.now))) }
    ensures before { out.new.before ≡ out.old.before }
{
    if kinds.is_empty() {
        return Ok(());
    }
    out.name("triggers")?;
    out.begin_list()?;
    for kind in kinds {
        put_trigger(out, kind)?;
    }
    out.end_list()
}

// The times of first and last usage.
fn put_span(out: &mut ObjectWriter, used: &Used) -> Result<(), AllocError>
    ensures ok { OnOk result (out.new.tokens ≡ field_after out.old.tokens (codes "pDUContainerInformation") (Some (span_data used.now))) }
    ensures before { out.new.before ≡ out.old.before }
{
    out.name("pDUContainerInformation")?;
    out.begin_object()?;
    out.time("timeofFirstUsage", Some(used.first))?;
    out.time("timeofLastUsage", Some(used.last))?;
    out.end_object()
}

fn put_used(out: &mut ObjectWriter, used: &Used) -> Result<(), AllocError>
    ensures ok { OnOk result (out.new.tokens ≡ out.old.tokens ++ tokens_of (used_data used.now)) }
    ensures before { out.new.before ≡ out.old.before }
{
    let total = used.up.saturating_add(used.down);
    out.begin_object()?;
    out.number("downlinkVolume", Some(used.down))?;
    out.number_32("localSequenceNumber", Some(used.lsn))?;
    put_span(out, used)?;
    out.number_32("time", Some(used.seconds))?;
    out.number("totalVolume", Some(total))?;
    out.time("triggerTimestamp", Some(used.moment))?;
    put_triggers(out, used.triggers.as_slice())?;
    out.number("uplinkVolume", Some(used.up))?;
    out.end_object()
}

// The used unit containers, where there are any.
fn put_containers(out: &mut ObjectWriter, used: &[Used]) -> Result<(), AllocError>
    ensures ok { OnOk result (out.new.tokens ≡ field_after out.old.tokens (codes "usedUnitContainer") (listed (map used_data used.now))) }
    ensures before { out.new.before ≡ out.old.before }
{
    if used.is_empty() {
        return Ok(());
    }
    out.name("usedUnitContainer")?;
    out.begin_list()?;
    for container in used {
        put_used(out, container)?;
    }
    out.end_list()
}

fn put_units(out: &mut ObjectWriter, ask: &Ask) -> Result<(), AllocError>
    ensures ok { OnOk result (out.new.tokens ≡ out.old.tokens ++ tokens_of (ask_data ask.now)) }
    ensures before { out.new.before ≡ out.old.before }
{
    out.begin_object()?;
    out.number_32("time", ask.seconds)?;
    out.number("totalVolume", ask.volume)?;
    out.end_object()
}

// The requested unit, where there is one.
#[tactic(auto, unfolding(json_objects::specs::Tokens::field_after))]
fn put_ask(out: &mut ObjectWriter, ask: &Option<Ask>) -> Result<(), AllocError>
    ensures ok { OnOk result (out.new.tokens ≡ field_after out.old.tokens (codes "requestedUnit") (option_map ask_data ask.now)) }
    ensures before { out.new.before ≡ out.old.before }
{
    match ask {
        Some(ask) => {
            out.name("requestedUnit")?;
            put_units(out, ask)
        }
        None => Ok(()),
    }
}

fn put_usage(out: &mut ObjectWriter, usage: &UnitUsage) -> Result<(), AllocError>
    ensures ok { OnOk result (out.new.tokens ≡ out.old.tokens ++ tokens_of (usage_data usage.now)) }
    ensures before { out.new.before ≡ out.old.before }
{
    out.begin_object()?;
    out.number_32("ratingGroup", Some(usage.group))?;
    put_ask(out, &usage.ask)?;
    put_containers(out, usage.used.as_slice())?;
    out.end_object()
}

// The multiple unit usage, where there is any.
fn put_entries(out: &mut ObjectWriter, usage: &[UnitUsage]) -> Result<(), AllocError>
    ensures ok { OnOk result (out.new.tokens ≡ field_after out.old.tokens (codes "multipleUnitUsage") (listed (map usage_data usage.now))) }
    ensures before { out.new.before ≡ out.old.before }
{
    if usage.is_empty() {
        return Ok(());
    }
    out.name("multipleUnitUsage")?;
    out.begin_list()?;
    for entry in usage {
        put_usage(out, entry)?;
    }
    out.end_list()
}

// The consumer, which is an SMF.
fn put_consumer(out: &mut ObjectWriter, name: &Text) -> Result<(), AllocError>
    ensures ok { OnOk result (out.new.tokens ≡ field_after out.old.tokens (codes "nfConsumerIdentification") (Some (consumer_data name.now))) }
    ensures before { out.new.before ≡ out.old.before }
{
    out.name("nfConsumerIdentification")?;
    out.begin_object()?;
    out.text("nFName", name.as_str())?;
    out.text("nodeFunctionality", "SMF")?;
    out.end_object()
}

// The retransmission indicator, where it is set.
#[tactic(auto, unfolding(json_objects::specs::Tokens::field_after))]
fn put_again(out: &mut ObjectWriter, again: bool) -> Result<(), AllocError>
    ensures ok { OnOk result (out.new.tokens ≡ field_after out.old.tokens (codes "retransmissionIndicator") (again_data again)) }
    ensures before { out.new.before ≡ out.old.before }
{
    if again {
        out.boolean("retransmissionIndicator", true)
    } else {
        Ok(())
    }
}

fn put_invocation(out: &mut ObjectWriter, request: &Request) -> Result<(), AllocError>
    ensures ok { OnOk result (out.new.tokens ≡ fields_after out.old.tokens (invocation_fields request.now)) }
    ensures before { out.new.before ≡ out.old.before }
{
    out.number_32("chargingId", request.charging_id)?;
    out.number_32("invocationSequenceNumber", Some(request.number))?;
    out.time("invocationTimeStamp", Some(request.stamp))
}

fn put_request(out: &mut ObjectWriter, request: &Request) -> Result<(), AllocError>
    ensures ok { OnOk result (out.new.tokens ≡ out.old.tokens ++ tokens_of (request_data request.now)) }
    ensures before { out.new.before ≡ out.old.before }
{
    out.begin_object()?;
    put_invocation(out, request)?;
    put_entries(out, request.usage.as_slice())?;
    put_consumer(out, &request.consumer)?;
    out.text_if("notifyUri", &request.notify)?;
    put_again(out, request.again)?;
    out.text_if("subscriberIdentifier", &request.subscriber)?;
    put_triggers(out, request.triggers.as_slice())?;
    out.end_object()
}

/// Appends a charging data request to a buffer: compact, the keys ascending, absent fields and empty lists left out.
/// Where memory is wanting the buffer is as before.
///
/// The text has a byte at least for each container. A request in the ranges of its format reads back, under its
/// operation, as the same request.
pub fn append_request(
    alloc: Global,
    out: &mut List<u8>,
    request: &Request,
) -> Result<(), OutOfMemory>
    ensures text { OnOk result (out.new ≡ out.old ++ compact_text (request_data request.now)) }
    ensures err { OnErr result (out.new ≡ out.old) }
    ensures bytes { container_count request.now ≤ length (compact_text (request_data request.now)) }
    ensures reads_back { FitsRequest request.now → OnOk result (request_in request.now.operation (compact_text (request_data request.now)) ≡ Ok request.now) }
{
    times_read_back();
    written_values_read_back();
    let mut writer = ObjectWriter::new(mem::replace(out, List::new(alloc)));
    match put_request(&mut writer, request) {
        Ok(()) => {
            *out = writer.into_bytes();
            Ok(())
        }
        Err(_) => {
            *out = writer.discard();
            Err(OutOfMemory)
        }
    }
}

/// A charging data request as a body, as `append_request` writes it.
///
/// It has a byte at least for each container. A request in the ranges of its format reads back, under its operation, as
/// the same request.
pub fn write_request(alloc: Global, request: &Request) -> Result<List<u8>, OutOfMemory>
    ensures text { IfOk result (λ b. b ≡ compact_text (request_data request.now)) }
    ensures bytes { IfOk result (λ b. container_count request.now ≤ length b) }
    ensures reads_back { FitsRequest request.now → IfOk result (λ b. request_in request.now.operation b ≡ Ok request.now) }
{
    let mut out = List::from_vec(Vec::with_capacity(alloc, 512)?);
    append_request(alloc, &mut out, request)?;
    Ok(out)
}

/// What is written of a request that was read is at most ten times as long as its body: a law for proofs, which does
/// nothing.
pub fn written_requests_are_bounded()
    ensures { WrittenRequestsAreBounded }
{
    bodies_hold_their_objects();
}
