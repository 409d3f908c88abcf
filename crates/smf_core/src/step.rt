//! What an event makes of the sessions that it touches, and the session that it adds.
ghost use Rattle.std.specs.Prelude.{◌≡◌, ◌==◌, ◌++◌, IfOk, OnOk, map, List};
ghost use Rattle.smf_core.specs.Draft.{whole, effect_past, listed};
ghost use Rattle.smf_model.specs.Freeze.{with_request};
ghost use Rattle.smf_model.specs.Machine.{now_after, touches, finished, entries_of, fresh, added_by};

use crate::answers::answer;
use crate::asking::{ask_group, start};
use crate::changes::change;
use crate::counting::count;
use crate::draft::{Draft, draft_of, into_session};
use crate::ending::detach;
use crate::freeze::{drop_oldest, freeze, freeze_request};
use crate::rounds::lose;
use crate::sending::{at_rest, attempt};
use crate::settle::settle;
use smf_model::{Entry, Life, Loss, Peer, Session, SmfEvent, SmfSetup};
use std::alloc::Global;
use units::{List, Moment, Operation, OutOfMemory, Text, copy};

/// The greatest moment that an event carried.
pub fn moment_after(now: Moment, event: &SmfEvent) -> Moment
    ensures { result ≡ now_after now event.now }
{
    match event {
        SmfEvent::Attach { moment, .. }
        | SmfEvent::Start { moment, .. }
        | SmfEvent::Change { moment, .. }
        | SmfEvent::Tick { moment }
        | SmfEvent::Detach { moment, .. } => now.max(*moment),
        SmfEvent::Count { report, .. } => now.max(report.moment),
        SmfEvent::Answered { .. }
        | SmfEvent::Attempt { .. }
        | SmfEvent::NotSent { .. }
        | SmfEvent::NoReply { .. }
        | SmfEvent::Restart => now,
    }
}

/// Whether an event touches a session.
pub fn is_touched(event: &SmfEvent, session: &Session) -> bool
    ensures { result ≡ touches event.now session.now }
{
    match event {
        SmfEvent::Attach { .. } => false,
        SmfEvent::Tick { .. } => true,
        SmfEvent::Detach {
            session: number,
            ..
        } => session.number == *number && matches!(session.life, Life::Live),
        SmfEvent::Start {
            session: number,
            ..
        }
        | SmfEvent::Count {
            session: number,
            ..
        }
        | SmfEvent::Change {
            session: number,
            ..
        }
        | SmfEvent::Answered {
            session: number,
            ..
        }
        | SmfEvent::Attempt {
            session: number,
            ..
        }
        | SmfEvent::NotSent { session: number }
        | SmfEvent::NoReply { session: number } => session.number == *number,
        SmfEvent::Restart => session.sending.in_flight,
    }
}

fn take_effect(
    alloc: Global,
    setup: &SmfSetup,
    past: usize,
    now: Moment,
    event: &SmfEvent,
    before: &Session,
    draft: &mut Draft,
) -> Result<(), OutOfMemory>
    ensures { OnOk result (whole before.now draft.new ≡ effect_past setup.now past now event.now (whole before.now draft.old)) }
{
    match event {
        SmfEvent::Attach { .. } | SmfEvent::Tick { .. } => Ok(()),
        SmfEvent::Start { group, moment, .. } => start(alloc, *group, *moment, before, draft),
        SmfEvent::Count { report, .. } => count(alloc, past, report, before, draft),
        SmfEvent::Change {
            trigger,
            moment,
            ..
        } => change(alloc, *trigger, *moment, before, draft),
        SmfEvent::Detach {
            abnormal,
            moment,
            ..
        } => detach(alloc, *abnormal, *moment, before, draft),
        SmfEvent::Answered { reply, .. } => answer(alloc, now, reply, before, draft),
        SmfEvent::Attempt { peer, .. } => attempt(*peer, before, draft),
        SmfEvent::NotSent { .. } => lose(alloc, setup, now, Loss::Unsent, before, draft),
        SmfEvent::NoReply { .. } | SmfEvent::Restart => {
            lose(alloc, setup, now, Loss::Unanswered, before, draft)
        }
    }
}

fn finish(
    alloc: Global,
    setup: &SmfSetup,
    now: Moment,
    before: &Session,
    draft: &mut Draft,
) -> Result<(), OutOfMemory>
    ensures { OnOk result (whole before.now draft.new ≡ finished setup.now now (whole before.now draft.old)) }
{
    settle(alloc, setup, now, before, draft)?;
    freeze(alloc, setup, now, before, draft)?;
    drop_oldest(alloc, setup, before, draft)
}

/// What an event makes of a session that it touches, of which so many containers are left out.
pub fn draft_after(
    alloc: Global,
    setup: &SmfSetup,
    past: usize,
    now: Moment,
    event: &SmfEvent,
    before: &Session,
) -> Result<Draft, OutOfMemory>
    ensures { IfOk result (λ d. whole before.now d ≡ finished setup.now now (effect_past setup.now past now event.now before.now)) }
{
    let mut draft = draft_of(alloc, before)?;
    take_effect(alloc, setup, past, now, event, before, &mut draft)?;
    finish(alloc, setup, now, before, &mut draft)?;
    Ok(draft)
}

fn asked_entries(alloc: Global, groups: &[u32]) -> Result<Vec<Entry>, OutOfMemory>
    ensures { IfOk result (λ v. v.items ≡ entries_of groups.now) }
{
    let mut entries = Vec::new(alloc);
    for group in groups {
        entries = ask_group(alloc, *group, &entries)?;
    }
    Ok(entries)
}

fn fresh_session(
    alloc: Global,
    setup: &SmfSetup,
    number: u32,
    subscriber: &Text,
    groups: &[u32],
    moment: Moment,
) -> Result<Session, OutOfMemory>
    ensures { IfOk result (λ r. r ≡ fresh setup.now number subscriber.now groups.now moment) }
{
    let groups = asked_entries(alloc, groups)?;
    let subscriber = copy(subscriber)?;
    Ok(Session {
        number,
        subscriber,
        reference: None,
        life: Life::Live,
        last: moment,
        count: 0,
        reports: 0,
        at_once: false,
        failover: setup.failover,
        handling: setup.handling,
        peer: Peer::Primary,
        sending: at_rest(),
        groups: List::from_vec(groups),
        holdings: List::new(alloc),
        rules: List::new(alloc),
        request: None,
    })
}

// A fresh session with its first request.
fn attached(
    alloc: Global,
    setup: &SmfSetup,
    now: Moment,
    fresh: Session,
) -> Result<Session, OutOfMemory>
    ensures { IfOk result (λ r. r ≡ finished setup.now now (with_request setup.now now Operation.Create fresh)) }
{
    let mut draft = draft_of(alloc, &fresh)?;
    freeze_request(alloc, setup, now, Operation::Create, &fresh, &mut draft)?;
    finish(alloc, setup, now, &fresh, &mut draft)?;
    Ok(into_session(fresh, draft))
}

/// The session that an event adds.
pub fn added_session(
    alloc: Global,
    setup: &SmfSetup,
    now: Moment,
    event: &SmfEvent,
) -> Result<Option<Session>, OutOfMemory>
    ensures { IfOk result (λ r. listed r ≡ added_by setup.now now event.now) }
{
    match event {
        SmfEvent::Attach {
            session,
            subscriber,
            groups,
            moment,
        } => {
            let groups = groups.as_slice();
            let fresh = fresh_session(alloc, setup, *session, subscriber, groups, *moment)?;
            let next = attached(alloc, setup, now, fresh)?;
            Ok(Some(next))
        }
        _ => Ok(None),
    }
}
