//! The checks of an event, in their order.
ghost use Rattle.std.specs.Prelude.{◌≡◌, ◌==◌, length};
ghost use Rattle.std.specs.List.{find};
ghost use Rattle.smf_model.specs.Settle.{entry_of};
ghost use Rattle.smf_model.specs.Machine.{is_live, expected_in, expected_of, gate_in, gate_for, is_served, is_full_for, start_answer, count_answer, change_answer, detach_answer, reply_answer, attempt_by, loss_answer};
ghost use Rattle.smf_core.specs.Lookup.{subject, answer_at, answer_without};

use crate::answers::is_answer_to;
use crate::sending::{is_sent, may_send};
use crate::settle::entry_in;
use quotas::{Gate, State};
use smf_model::{Entry, Life, Peer, Seen, Session, SmfEvent, SmfRefusal};
use units::{MOST_GROUPS, MOST_REPORTS, Moment, Reply, Report};

fn is_live_session(session: &Session) -> bool
    ensures { result ≡ is_live session.now.life }
{
    matches!(session.life, Life::Live)
}

fn expected_from(entry: Option<Entry>) -> u32
    ensures { result ≡ expected_in entry }
{
    match entry {
        None => 1,
        Some(entry) => entry.expected,
    }
}

/// The number of a rating group's next report.
pub fn expected(session: &Session, group: u32) -> u32
    ensures { result ≡ expected_of group session.now }
{
    expected_from(entry_in(session.groups.as_slice(), group))
}

fn open_gate(entry: Option<Entry>) -> Gate
    ensures { result ≡ gate_in entry }
{
    match entry {
        None => Gate::Waiting,
        Some(entry) => entry.quota.gate(),
    }
}

/// What becomes of a rating group's traffic.
pub fn gate(session: &Session, group: u32) -> Gate
    ensures { result ≡ gate_for group session.now }
{
    if is_live_session(session) {
        open_gate(entry_in(session.groups.as_slice(), group))
    } else {
        Gate::Closed
    }
}

fn is_served_group(entry: Option<Entry>) -> bool
    ensures { result ≡ is_served entry }
{
    match entry {
        None => false,
        Some(entry) => match entry.quota.state() {
            State::Granted | State::Unlimited => true,
            State::Nothing | State::Denied | State::Spent | State::Free => entry.quota.is_asked(),
        },
    }
}

fn is_full(entry: Option<Entry>, groups: usize) -> bool
    ensures { result ≡ is_full_for entry groups }
{
    match entry {
        None => groups >= MOST_GROUPS,
        Some(_) => false,
    }
}

fn check_start(group: u32, moment: Moment, session: &Session) -> Result<Seen, SmfRefusal>
    ensures { result ≡ start_answer group moment session.now }
{
    if !is_live_session(session) {
        return Err(SmfRefusal::GateClosed { gate: Gate::Closed });
    }
    if is_served_group(entry_in(session.groups.as_slice(), group)) {
        return Ok(Seen::Known);
    }
    if moment < session.last {
        return Err(SmfRefusal::MomentBack { last: session.last });
    }
    let entry = entry_in(session.groups.as_slice(), group);
    if is_full(entry, session.groups.len()) {
        return Err(SmfRefusal::TooManyGroups);
    }
    Ok(Seen::New)
}

fn check_count(report: &Report, session: &Session) -> Result<Seen, SmfRefusal>
    ensures { result ≡ count_answer report.now session.now }
{
    let expected = expected(session, report.group);
    if 1 <= report.number && report.number < expected {
        return Ok(Seen::Known);
    }
    let gate = gate(session, report.group);
    if !matches!(gate, Gate::Passing) {
        return Err(SmfRefusal::GateClosed { gate });
    }
    if report.number != expected {
        return Err(SmfRefusal::OutOfStep { expected });
    }
    if report.up > 1 << 40 || report.down > 1 << 40 || report.seconds > 86_400 {
        return Err(SmfRefusal::TooLarge);
    }
    if report.moment < session.last {
        return Err(SmfRefusal::MomentBack { last: session.last });
    }
    if session.reports >= MOST_REPORTS {
        return Err(SmfRefusal::TooManyReports);
    }
    Ok(Seen::New)
}

fn check_change(moment: Moment, session: &Session) -> Result<Seen, SmfRefusal>
    ensures { result ≡ change_answer moment session.now }
{
    if !is_live_session(session) {
        return Err(SmfRefusal::GateClosed { gate: Gate::Closed });
    }
    if moment < session.last {
        return Err(SmfRefusal::MomentBack { last: session.last });
    }
    Ok(Seen::New)
}

fn check_detach(moment: Moment, session: &Session) -> Result<Seen, SmfRefusal>
    ensures { result ≡ detach_answer moment session.now }
{
    if !is_live_session(session) {
        return Ok(Seen::Known);
    }
    if moment < session.last {
        return Err(SmfRefusal::MomentBack { last: session.last });
    }
    Ok(Seen::New)
}

fn check_reply(number: u32, reply: &Reply, session: &Session) -> Result<Seen, SmfRefusal>
    ensures { result ≡ reply_answer number reply.now session.now }
{
    if !matches!(session.life, Life::Ended) && is_answer_to(number, reply, &session.request) {
        Ok(Seen::New)
    } else {
        Ok(Seen::Known)
    }
}

fn check_attempt(
    now: Moment,
    next: Option<(u32, Peer)>,
    peer: Peer,
    session: &Session,
) -> Result<Seen, SmfRefusal>
    ensures { result ≡ attempt_by now next peer session.now }
{
    if may_send(now, session) && is_sent(session.number, peer, next) {
        Ok(Seen::New)
    } else {
        Ok(Seen::Known)
    }
}

fn check_loss(session: &Session) -> Result<Seen, SmfRefusal>
    ensures { result ≡ loss_answer session.now }
{
    if session.sending.in_flight {
        Ok(Seen::New)
    } else {
        Ok(Seen::Known)
    }
}

/// The session that an event is for; a tick and a restart are for all.
pub fn subject(event: &SmfEvent) -> Option<u32>
    ensures { result ≡ subject event.now }
{
    match event {
        SmfEvent::Attach { session, .. }
        | SmfEvent::Start { session, .. }
        | SmfEvent::Count { session, .. }
        | SmfEvent::Change { session, .. }
        | SmfEvent::Detach { session, .. }
        | SmfEvent::Answered { session, .. }
        | SmfEvent::Attempt { session, .. }
        | SmfEvent::NotSent { session }
        | SmfEvent::NoReply { session } => Some(*session),
        SmfEvent::Tick { .. } | SmfEvent::Restart => None,
    }
}

/// What the machine answers to an event, whose session is this one, where this sends next.
pub fn check_found(
    now: Moment,
    next: Option<(u32, Peer)>,
    event: &SmfEvent,
    session: &Session,
) -> Result<Seen, SmfRefusal>
    ensures { result ≡ answer_at now next event.now session.now }
{
    match event {
        SmfEvent::Attach { .. } => Err(SmfRefusal::SessionExists),
        SmfEvent::Start { group, moment, .. } => check_start(*group, *moment, session),
        SmfEvent::Count { report, .. } => check_count(report, session),
        SmfEvent::Change { moment, .. } | SmfEvent::Tick { moment } => {
            check_change(*moment, session)
        }
        SmfEvent::Detach { moment, .. } => check_detach(*moment, session),
        SmfEvent::Answered { number, reply, .. } => check_reply(*number, reply, session),
        SmfEvent::Attempt { peer, .. } => check_attempt(now, next, *peer, session),
        SmfEvent::NotSent { .. } | SmfEvent::NoReply { .. } | SmfEvent::Restart => {
            check_loss(session)
        }
    }
}

/// And to one whose session is not there, where an attempt is in flight or not; a tick and a restart have none.
pub fn check_missing(now: Moment, flies: bool, event: &SmfEvent) -> Result<Seen, SmfRefusal>
    ensures { result ≡ answer_without now flies event.now }
{
    match event {
        SmfEvent::Attach { groups, .. } => {
            if groups.len() > MOST_GROUPS {
                Err(SmfRefusal::TooManyGroups)
            } else {
                Ok(Seen::New)
            }
        }
        SmfEvent::Tick { moment } => {
            if *moment < now {
                Err(SmfRefusal::MomentBack { last: now })
            } else {
                Ok(Seen::New)
            }
        }
        SmfEvent::Restart => {
            if flies {
                Ok(Seen::New)
            } else {
                Ok(Seen::Known)
            }
        }
        _ => Err(SmfRefusal::NoSession),
    }
}
