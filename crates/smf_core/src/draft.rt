//! A session in the course of an event.
ghost use Rattle.std.specs.Prelude.{◌≡◌, IfOk};
ghost use Rattle.std.specs.Option.{option_copied};
ghost use Rattle.smf_core.specs.Draft.{whole, course_in, request_after};

use smf_model::{Entry, Holding, Life, Peer, Rule, Sending, Session};
use std::alloc::Global;
use units::{Handling, List, Moment, OutOfMemory, Request};

/// How a session goes: all of it that is a number or a mark.
#[derive(Clone, Copy)]
pub struct Course {
    pub reference: Option<u32>,
    pub life: Life,
    pub last: Moment,
    pub count: u32,
    pub reports: u32,
    pub at_once: bool,
    pub failover: bool,
    pub handling: Handling,
    pub peer: Peer,
    pub sending: Sending,
}

/// What became of the unanswered request of a session.
#[derive(Drop)]
pub enum Pending {
    /// It is as before.
    Same,
    /// There is none any more.
    Nothing,
    /// This one was frozen.
    New(Request),
}

/// A session in the course of an event: all that the event may change, beside what is before.
#[derive(Drop)]
pub struct Draft {
    pub course: Course,
    pub groups: List<Entry>,
    pub holdings: List<Holding>,
    /// The trigger rules, where they are not as before.
    pub rules: Option<List<Rule>>,
    pub pending: Pending,
}

/// The trigger rules of a session in the course of an event.
pub fn rules_of<'a>(before: &'a Session, draft: &'a Draft) -> &'a List<Rule>
    ensures { result.now ≡ (whole before.now draft.now).rules }
{
    match &draft.rules {
        None => &before.rules,
        Some(rules) => rules,
    }
}

/// Its unanswered request.
pub fn request_of<'a>(before: &'a Session, draft: &'a Draft) -> Option<&'a Request>
    ensures { option_copied result ≡ (whole before.now draft.now).request }
{
    match &draft.pending {
        Pending::Same => before.request.as_ref(),
        Pending::Nothing => None,
        Pending::New(request) => Some(request),
    }
}

/// A session as an event finds it.
pub fn draft_of(alloc: Global, before: &Session) -> Result<Draft, OutOfMemory>
    ensures { IfOk result (λ d. whole before.now d ≡ before.now) }
{
    let groups = Vec::from_slice(alloc, before.groups.as_slice())?;
    let holdings = Vec::from_slice(alloc, before.holdings.as_slice())?;
    Ok(Draft {
        course: course_of(before),
        groups: List::from_vec(groups),
        holdings: List::from_vec(holdings),
        rules: None,
        pending: Pending::Same,
    })
}

fn course_of(before: &Session) -> Course
    ensures { result ≡ course_in before.now }
{
    Course {
        reference: before.reference,
        life: before.life,
        last: before.last,
        count: before.count,
        reports: before.reports,
        at_once: before.at_once,
        failover: before.failover,
        handling: before.handling,
        peer: before.peer,
        sending: before.sending,
    }
}

/// The unanswered request after an event.
pub fn request_left(before: Option<Request>, pending: Pending) -> Option<Request>
    ensures { result ≡ request_after before pending }
{
    match pending {
        Pending::Same => before,
        Pending::Nothing => None,
        Pending::New(request) => Some(request),
    }
}

/// A session as an event leaves it.
pub fn into_session(before: Session, draft: Draft) -> Session
    ensures { result ≡ whole before draft }
{
    let Draft {
        course,
        groups,
        holdings,
        rules,
        pending,
    } = draft;
    let Session {
        number,
        subscriber,
        rules: rules_before,
        request,
        ..
    } = before;
    Session {
        number,
        subscriber,
        reference: course.reference,
        life: course.life,
        last: course.last,
        count: course.count,
        reports: course.reports,
        at_once: course.at_once,
        failover: course.failover,
        handling: course.handling,
        peer: course.peer,
        sending: course.sending,
        groups,
        holdings,
        rules: rules.unwrap_or(rules_before),
        request: request_left(request, pending),
    }
}
