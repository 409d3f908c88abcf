//! Replies, written, with their status and their Location.
ghost use Rattle.std.specs.Prelude.{◌≡◌, ◌++◌, codes, IfOk, OnOk, OnErr, Ok, None, Some, [], option_map, map};
ghost use Rattle.serde_json.specs.Written.{compact_text};
ghost use Rattle.json_objects.specs.Body.{object_in};
ghost use Rattle.json_objects.specs.Objects.{object_of, listed};
ghost use Rattle.json_objects.specs.ReadBack.{CanBeRead};
ghost use Rattle.json_objects.specs.Tokens.{tokens_of, field_after, fields_after};
ghost use Rattle.units.specs.declared.reply.Reply.TheVariants as variant;
ghost use Rattle.units.specs.ReplyRanges.{FitsAnswer, FitsReply};
ghost use Rattle.charging_json.specs.Reply.{reply_in};
ghost use Rattle.charging_json.specs.ReplyWritten.{rule_data, octets_of, seconds_of, granted_fields, granted_data, last_units_data, bound_fields, info_data, result_data, failover_data, answer_data, problem_data, reply_text, status_of, location_of};

use crate::location::session_location;
use json_objects::{ObjectWriter, written_values_read_back};
use moments::times_read_back;
use std::alloc::{AllocError, Global};
use std::mem;
use units::{
    Action, Amount, Answer, Handling, List, Moment, OutOfMemory, Problem, Reply, Text, TriggerRule,
    UnitInfo, name_of_action, name_of_category, name_of_code, name_of_failover, name_of_handling,
    name_of_type,
};

fn put_rule(out: &mut ObjectWriter, rule: &TriggerRule) -> Result<(), AllocError>
    ensures ok { OnOk result (out.new.tokens ≡ out.old.tokens ++ tokens_of (rule_data rule.now)) }
    ensures before { out.new.before ≡ out.old.before }
{
    out.begin_object()?;
    out.number_32("maxNumberOfccc", rule.changes)?;
    out.number_32("timeLimit", rule.seconds)?;
    out.text("triggerCategory", name_of_category(rule.immediate))?;
    out.text("triggerType", name_of_type(rule.trigger))?;
    out.number("volumeLimit64", rule.volume)?;
    out.end_object()
}

// The trigger rules, where there are any.
fn put_rules(out: &mut ObjectWriter, rules: &[TriggerRule]) -> Result<(), AllocError>
    ensures ok { OnOk result (out.new.tokens ≡ field_after out.old.tokens (codes "triggers") (listed (map rule_data rules.now))) }
    ensures before { out.new.before ≡ out.old.before }
{
    if rules.is_empty() {
        return Ok(());
    }
    out.name("triggers")?;
    out.begin_list()?;
    for rule in rules {
        put_rule(out, rule)?;
    }
    out.end_list()
}

fn octets_of(grant: Option<Amount>) -> Option<u64>
    ensures { result ≡ octets_of grant }
{
    match grant {
        Some(Amount::Volume(octets)) => Some(octets),
        Some(Amount::Seconds(_)) => None,
        None => None,
    }
}

fn seconds_of(grant: Option<Amount>) -> Option<u32>
    ensures { result ≡ seconds_of grant }
{
    match grant {
        Some(Amount::Volume(_)) => None,
        Some(Amount::Seconds(seconds)) => Some(seconds),
        None => None,
    }
}

fn put_granted_object(
    out: &mut ObjectWriter,
    grant: Option<Amount>,
    switch: Option<Moment>,
) -> Result<(), AllocError>
    ensures ok { OnOk result (out.new.tokens ≡ out.old.tokens ++ tokens_of (object_of (granted_fields grant switch))) }
    ensures before { out.new.before ≡ out.old.before }
{
    out.begin_object()?;
    out.time("tariffTimeChange", switch)?;
    out.number_32("time", seconds_of(grant))?;
    out.number("totalVolume", octets_of(grant))?;
    out.end_object()
}

// The granted unit, where there is an amount or a tariff time change.
#[tactic(auto, unfolding(json_objects::specs::Tokens::field_after))]
fn put_granted(
    out: &mut ObjectWriter,
    grant: Option<Amount>,
    switch: Option<Moment>,
) -> Result<(), AllocError>
    ensures ok { OnOk result (out.new.tokens ≡ field_after out.old.tokens (codes "grantedUnit") (granted_data grant switch)) }
    ensures before { out.new.before ≡ out.old.before }
{
    if grant.is_none() && switch.is_none() {
        return Ok(());
    }
    out.name("grantedUnit")?;
    put_granted_object(out, grant, switch)
}

fn put_action(out: &mut ObjectWriter, action: Action) -> Result<(), AllocError>
    ensures ok { OnOk result (out.new.tokens ≡ out.old.tokens ++ tokens_of (last_units_data action)) }
    ensures before { out.new.before ≡ out.old.before }
{
    out.begin_object()?;
    out.text("finalUnitAction", name_of_action(action))?;
    out.end_object()
}

// The final unit indication, where there is one.
#[tactic(auto, unfolding(json_objects::specs::Tokens::field_after))]
fn put_last_units(out: &mut ObjectWriter, last_units: Option<Action>) -> Result<(), AllocError>
    ensures ok { OnOk result (out.new.tokens ≡ field_after out.old.tokens (codes "finalUnitIndication") (option_map last_units_data last_units)) }
    ensures before { out.new.before ≡ out.old.before }
{
    match last_units {
        Some(action) => {
            out.name("finalUnitIndication")?;
            put_action(out, action)
        }
        None => Ok(()),
    }
}

// What bounds the use of a grant, and the triggers of its rating group.
fn put_bounds(out: &mut ObjectWriter, info: &UnitInfo) -> Result<(), AllocError>
    ensures ok { OnOk result (out.new.tokens ≡ fields_after out.old.tokens (bound_fields (listed (map rule_data info.now.triggers)) info.now)) }
    ensures before { out.new.before ≡ out.old.before }
{
    out.number_32("timeQuotaThreshold", info.time_threshold)?;
    put_rules(out, info.triggers.as_slice())?;
    out.number_32("validityTime", info.validity)?;
    out.number("volumeQuotaThreshold", info.volume_threshold)
}

fn put_info(out: &mut ObjectWriter, info: &UnitInfo) -> Result<(), AllocError>
    ensures ok { OnOk result (out.new.tokens ≡ out.old.tokens ++ tokens_of (info_data info.now)) }
    ensures before { out.new.before ≡ out.old.before }
{
    out.begin_object()?;
    put_last_units(out, info.last_units)?;
    put_granted(out, info.grant, info.switch)?;
    out.number_32("quotaHoldingTime", info.holding)?;
    out.number_32("ratingGroup", Some(info.group))?;
    out.text("resultCode", name_of_code(info.code))?;
    put_bounds(out, info)?;
    out.end_object()
}

// The entries for rating groups, where there are any.
fn put_infos(out: &mut ObjectWriter, infos: &[UnitInfo]) -> Result<(), AllocError>
    ensures ok { OnOk result (out.new.tokens ≡ field_after out.old.tokens (codes "multipleUnitInformation") (listed (map info_data infos.now))) }
    ensures before { out.new.before ≡ out.old.before }
{
    if infos.is_empty() {
        return Ok(());
    }
    out.name("multipleUnitInformation")?;
    out.begin_list()?;
    for info in infos {
        put_info(out, info)?;
    }
    out.end_list()
}

fn put_handling(out: &mut ObjectWriter, handling: Handling) -> Result<(), AllocError>
    ensures ok { OnOk result (out.new.tokens ≡ out.old.tokens ++ tokens_of (result_data handling)) }
    ensures before { out.new.before ≡ out.old.before }
{
    out.begin_object()?;
    out.text("failureHandling", name_of_handling(handling))?;
    out.end_object()
}

// The invocation result, where there is a failure handling.
#[tactic(auto, unfolding(json_objects::specs::Tokens::field_after))]
fn put_result(out: &mut ObjectWriter, handling: Option<Handling>) -> Result<(), AllocError>
    ensures ok { OnOk result (out.new.tokens ≡ field_after out.old.tokens (codes "invocationResult") (option_map result_data handling)) }
    ensures before { out.new.before ≡ out.old.before }
{
    match handling {
        Some(handling) => {
            out.name("invocationResult")?;
            put_handling(out, handling)
        }
        None => Ok(()),
    }
}

// Whether session failover is supported, where that is said.
#[tactic(auto, unfolding(json_objects::specs::Tokens::field_after))]
fn put_failover(out: &mut ObjectWriter, failover: Option<bool>) -> Result<(), AllocError>
    ensures ok { OnOk result (out.new.tokens ≡ field_after out.old.tokens (codes "sessionFailover") (option_map failover_data failover)) }
    ensures before { out.new.before ≡ out.old.before }
{
    match failover {
        Some(supported) => out.text("sessionFailover", name_of_failover(supported)),
        None => Ok(()),
    }
}

fn put_answer(out: &mut ObjectWriter, answer: &Answer) -> Result<(), AllocError>
    ensures ok { OnOk result (out.new.tokens ≡ out.old.tokens ++ tokens_of (answer_data answer.now)) }
    ensures before { out.new.before ≡ out.old.before }
{
    out.begin_object()?;
    put_result(out, answer.handling)?;
    out.number_32("invocationSequenceNumber", Some(answer.number))?;
    out.time("invocationTimeStamp", Some(answer.stamp))?;
    put_infos(out, answer.units.as_slice())?;
    put_failover(out, answer.failover)?;
    put_rules(out, answer.triggers.as_slice())?;
    out.end_object()
}

fn put_problem(out: &mut ObjectWriter, problem: &Problem) -> Result<(), AllocError>
    ensures ok { OnOk result (out.new.tokens ≡ out.old.tokens ++ tokens_of (problem_data problem.now)) }
    ensures before { out.new.before ≡ out.old.before }
    ensures readable { OnOk result (CanBeRead 1 (problem_data problem.now)) }
{
    written_values_read_back();
    out.begin_object()?;
    out.text("cause", problem.cause.as_str())?;
    out.text_if("detail", &problem.detail)?;
    out.number_32("status", Some(u32::from(problem.status)))?;
    out.end_object()
}

fn append_answer(alloc: Global, out: &mut List<u8>, answer: &Answer) -> Result<(), OutOfMemory>
    ensures text { OnOk result (out.new ≡ out.old ++ compact_text (answer_data answer.now)) }
    ensures err { OnErr result (out.new ≡ out.old) }
    ensures body { FitsAnswer answer.now → OnOk result (object_in (compact_text (answer_data answer.now)) ≡ Some (answer_data answer.now)) }
{
    written_values_read_back();
    let mut writer = ObjectWriter::new(mem::replace(out, List::new(alloc)));
    match put_answer(&mut writer, answer) {
        Ok(()) => {
            *out = writer.into_bytes();
            Ok(())
        }
        Err(_) => {
            *out = writer.discard();
            Err(OutOfMemory)
        }
    }
}

fn append_problem(alloc: Global, out: &mut List<u8>, problem: &Problem) -> Result<(), OutOfMemory>
    ensures text { OnOk result (out.new ≡ out.old ++ compact_text (problem_data problem.now)) }
    ensures err { OnErr result (out.new ≡ out.old) }
    ensures body { OnOk result (object_in (compact_text (problem_data problem.now)) ≡ Some (problem_data problem.now)) }
{
    let mut writer = ObjectWriter::new(mem::replace(out, List::new(alloc)));
    match put_problem(&mut writer, problem) {
        Ok(()) => {
            *out = writer.into_bytes();
            Ok(())
        }
        Err(_) => {
            *out = writer.discard();
            Err(OutOfMemory)
        }
    }
}

/// The status of a reply's response.
pub fn reply_status(reply: &Reply) -> u16
    ensures { result ≡ status_of reply.now }
{
    match reply {
        Reply::Created { .. } => 201,
        Reply::Updated { .. } => 200,
        Reply::Released => 204,
        Reply::Refused { problem } => problem.status,
    }
}

/// The Location of a reply's response, which only a session that was made has (TS 32.291, 6.1.3.2); the others want no
/// memory.
pub fn reply_location(alloc: Global, reply: &Reply) -> Result<Option<Text>, OutOfMemory>
    ensures location { IfOk result (λ o. o ≡ location_of reply.now) }
    ensures none { location_of reply.now ≡ None → result ≡ Ok None }
{
    match reply {
        Reply::Created { reference, .. } => Ok(Some(session_location(alloc, *reference)?)),
        Reply::Updated { .. } => Ok(None),
        Reply::Released => Ok(None),
        Reply::Refused { .. } => Ok(None),
    }
}

/// Appends the body of a reply to a buffer: compact, the keys ascending, absent fields and empty lists left out; a
/// session that was released has an empty one, which wants no memory. Where memory is wanting the buffer is as before.
///
/// A reply in the ranges of its format reads back, with its status and its Location, as the same reply.
pub fn append_reply(alloc: Global, out: &mut List<u8>, reply: &Reply) -> Result<(), OutOfMemory>
    ensures text { OnOk result (out.new ≡ out.old ++ reply_text reply.now) }
    ensures err { OnErr result (out.new ≡ out.old) }
    ensures released { reply.now ≡ variant.Released → result ≡ Ok tt }
    ensures reads_back { FitsReply reply.now → OnOk result (reply_in (status_of reply.now) (location_of reply.now) (reply_text reply.now) ≡ Ok reply.now) }
{
    times_read_back();
    written_values_read_back();
    match reply {
        Reply::Created { answer, .. } => append_answer(alloc, out, answer),
        Reply::Updated { answer } => append_answer(alloc, out, answer),
        Reply::Released => Ok(()),
        Reply::Refused { problem } => append_problem(alloc, out, problem),
    }
}

/// The body of a reply, as `append_reply` writes it; a session that was released wants no memory.
pub fn write_reply(alloc: Global, reply: &Reply) -> Result<List<u8>, OutOfMemory>
    ensures text { IfOk result (λ b. b ≡ reply_text reply.now) }
    ensures released { reply.now ≡ variant.Released → result ≡ Ok [] }
    ensures reads_back { FitsReply reply.now → IfOk result (λ b. reply_in (status_of reply.now) (location_of reply.now) b ≡ Ok reply.now) }
{
    let mut out = match reply {
        Reply::Released => List::new(alloc),
        _ => List::from_vec(Vec::with_capacity(alloc, 512)?),
    };
    append_reply(alloc, &mut out, reply)?;
    Ok(out)
}
