//! What a reply makes of a session.
ghost use Rattle.std.specs.Prelude.{◌≡◌, ◌==◌, ◌++◌, ◌∷◌, [], IfOk, OnOk, map};
ghost use Rattle.std.specs.List.{find};
ghost use Rattle.std.specs.Option.{option_copied};
ghost use Rattle.smf_core.specs.Draft.{whole};
ghost use Rattle.smf_model.specs.Replies.{is_named, is_bad_request, is_final_refusal, is_final_for, is_answer_to, answer_holding, info_of, horizon_after, answer_entry, with_info_rules, with_group_rules, rules_after, succeeded, released, replied, answered_by};

use crate::draft::{Draft, Pending, request_of, rules_of};
use crate::ending::{end, end_for};
use crate::freeze::is_frozen_place;
use crate::rules::with_rules;
use crate::sending::{at_rest, latest_of};
use meter::Horizon;
use smf_model::{Entry, Holding, Place, Rule, Session, Why};
use std::alloc::Global;
use units::{
    Answer, Cause, List, Moment, Operation, OutOfMemory, Problem, Reply, Request, TriggerRule,
    UnitInfo, copy, name_of_cause,
};

fn is_named(text: &str, cause: Cause) -> bool
    ensures { result ≡ is_named text.now cause }
{
    text == name_of_cause(cause)
}

fn is_bad_request(cause: &str) -> bool
    ensures { result ≡ is_bad_request cause.now }
{
    is_named(cause, Cause::SequencePassed)
        || is_named(cause, Cause::InvalidMessage)
        || is_named(cause, Cause::MandatoryMissing)
        || is_named(cause, Cause::MandatoryIncorrect)
        || is_named(cause, Cause::OptionalIncorrect)
}

fn is_final_refusal(problem: &Problem) -> bool
    ensures { result ≡ is_final_refusal problem.now }
{
    let cause = problem.cause.as_str();
    problem.status == 404 && is_named(cause, Cause::UserUnknown)
        || problem.status == 403
            && (is_named(cause, Cause::SessionExists) || is_named(cause, Cause::SessionClosed))
        || problem.status == 400 && is_bad_request(cause)
}

fn is_final_for(operation: Operation, reply: &Reply, number: u32) -> bool
    ensures { result ≡ is_final_for operation reply.now number }
{
    match reply {
        Reply::Created { answer, .. } => {
            matches!(operation, Operation::Create) && answer.number == number
        }
        Reply::Updated { answer } => {
            matches!(operation, Operation::Update(_)) && answer.number == number
        }
        Reply::Released => matches!(operation, Operation::Release(_)),
        Reply::Refused { problem } => is_final_refusal(problem),
    }
}

/// Whether a reply is a final one to the unanswered request of this number (TS 32.290, 5.3.2).
pub fn is_answer_to(number: u32, reply: &Reply, request: &Option<Request>) -> bool
    ensures { result ≡ is_answer_to number reply.now request.now }
{
    match request {
        None => false,
        Some(request) => {
            request.number == number && is_final_for(request.operation, reply, number)
        }
    }
}

fn answered_holding(holding: &Holding) -> Holding
    ensures { result ≡ answer_holding holding.now }
{
    if is_frozen_place(holding.place) {
        Holding {
            place: Place::Answered,
            ..*holding
        }
    } else {
        *holding
    }
}

fn all_answered(alloc: Global, holdings: &[Holding]) -> Result<Vec<Holding>, OutOfMemory>
    ensures { IfOk result (λ v. v.items ≡ map answer_holding holdings.now) }
{
    let next = holdings.iter().map(|h| answered_holding(h)).collect(alloc)?;
    Ok(next)
}

// The first entry of a rating group.
fn info_in(units: &[UnitInfo], group: u32) -> Option<&UnitInfo>
    ensures { option_copied result ≡ info_of group units.now }
{
    for info in units {
        if info.group == group {
            return Some(info);
        }
    }
    None
}

fn horizon_from(stamp: Moment, info: Option<&UnitInfo>, horizon: Option<Horizon>) -> Option<Horizon>
    ensures { result ≡ horizon_after stamp (option_copied info.entry) horizon }
{
    match info {
        None => horizon,
        Some(info) => {
            if info.grant.is_some() {
                Some(Horizon {
                    group: info.group,
                    from: stamp,
                    until: info.switch,
                })
            } else {
                horizon
            }
        }
    }
}

fn answered_entry(stamp: Moment, units: &[UnitInfo], entry: &Entry) -> Entry
    ensures { result ≡ answer_entry stamp units.now entry.now }
{
    let mut next = *entry;
    next.horizon = horizon_from(stamp, info_in(units, entry.number), entry.horizon);
    next.quota.answer(stamp, info_in(units, entry.number));
    next
}

fn answered_entries(
    alloc: Global,
    stamp: Moment,
    units: &[UnitInfo],
    groups: &[Entry],
) -> Result<Vec<Entry>, OutOfMemory>
    ensures { IfOk result (λ v. v.items ≡ map (answer_entry stamp units.now) groups.now) }
{
    let next = groups
        .iter()
        .map(|e| answered_entry(stamp, units, e))
        .collect(alloc)?;
    Ok(next)
}

// The trigger rules with those of an answer for one rating group.
fn with_group_rules(
    alloc: Global,
    units: &[UnitInfo],
    rules: Vec<Rule>,
    group: u32,
) -> Result<Vec<Rule>, OutOfMemory>
    ensures { IfOk result (λ v. v.items ≡ with_info_rules group (info_of group units.now) rules.items) }
{
    match info_in(units, group) {
        None => Ok(rules),
        Some(info) => with_rules(alloc, Some(group), info.triggers.as_slice(), rules),
    }
}

// The trigger rules with those of an answer.
fn rules_after(
    alloc: Global,
    answer: &Answer,
    groups: &[Entry],
    rules: &[Rule],
) -> Result<Vec<Rule>, OutOfMemory>
    ensures { IfOk result (λ v. v.items ≡ rules_after answer.now groups.now rules.now) }
{
    let before = Vec::from_slice(alloc, rules)?;
    let mut next = with_rules(alloc, None, answer.triggers.as_slice(), before)?;
    for entry in groups {
        next = with_group_rules(alloc, answer.units.as_slice(), next, entry.number)?;
    }
    Ok(next)
}

fn succeed(
    alloc: Global,
    stamp: Moment,
    reference: Option<u32>,
    answer: &Answer,
    before: &Session,
    draft: &mut Draft,
) -> Result<(), OutOfMemory>
    ensures { OnOk result (whole before.now draft.new ≡ succeeded stamp reference answer.now (whole before.now draft.old)) }
{
    let holdings = all_answered(alloc, draft.holdings.as_slice())?;
    let groups = draft.groups.as_slice();
    let entries = answered_entries(alloc, stamp, answer.units.as_slice(), groups)?;
    let rules = rules_after(alloc, answer, groups, rules_of(before, draft).as_slice())?;
    draft.pending = Pending::Nothing;
    draft.course.sending = at_rest();
    draft.course.reference = reference.or(draft.course.reference);
    draft.course.failover = answer.failover.unwrap_or(draft.course.failover);
    draft.course.handling = answer.handling.unwrap_or(draft.course.handling);
    draft.holdings = List::from_vec(holdings);
    draft.groups = List::from_vec(entries);
    draft.rules = Some(List::from_vec(rules));
    Ok(())
}

fn release(
    alloc: Global,
    now: Moment,
    before: &Session,
    draft: &mut Draft,
) -> Result<(), OutOfMemory>
    ensures { OnOk result (whole before.now draft.new ≡ released now (whole before.now draft.old)) }
{
    let holdings = all_answered(alloc, draft.holdings.as_slice())?;
    draft.holdings = List::from_vec(holdings);
    end(alloc, now, before, draft)
}

fn reply_to(
    alloc: Global,
    now: Moment,
    stamp: Moment,
    reply: &Reply,
    before: &Session,
    draft: &mut Draft,
) -> Result<(), OutOfMemory>
    ensures { OnOk result (whole before.now draft.new ≡ replied now stamp reply.now (whole before.now draft.old)) }
{
    match reply {
        Reply::Created { reference, answer } => {
            succeed(alloc, stamp, Some(*reference), answer, before, draft)
        }
        Reply::Updated { answer } => succeed(alloc, stamp, None, answer, before, draft),
        Reply::Released => release(alloc, now, before, draft),
        Reply::Refused { .. } => end_for(alloc, Why::Refused, now, before, draft),
    }
}

/// Takes a final reply to the unanswered request (TS 32.290, 5.3.2 and quota management).
pub fn answer(
    alloc: Global,
    now: Moment,
    reply: &Reply,
    before: &Session,
    draft: &mut Draft,
) -> Result<(), OutOfMemory>
    ensures { OnOk result (whole before.now draft.new ≡ answered_by now reply.now (whole before.now draft.old).request (whole before.now draft.old)) }
{
    let stamp = match request_of(before, draft) {
        None => return Ok(()),
        Some(request) => request.stamp,
    };
    let peer = latest_of(before, draft);
    reply_to(alloc, now, stamp, reply, before, draft)?;
    draft.course.peer = peer;
    Ok(())
}
