//! What of each session is looked for.
ghost use Rattle.std.specs.Prelude.{◌≡◌, length, slice_set, slice_index_or};
ghost use Rattle.agenda.specs.Marks.{quiet};
ghost use Rattle.smf_core.specs.Caches.{sessions_of};
ghost use Rattle.smf_core.specs.Marking.{attempt_at, waits_until, mark_of, marks_of, remarked};

use crate::kept::Kept;
use crate::resting::rest_end;
use crate::sending::{has_come, may_send, next_of_round};
use agenda::{Agenda, Mark};
use smf_model::{Peer, Session, SmfSetup};
use units::Moment;

// The attempt that a session may make.
fn attempt_of(now: Moment, session: &Session) -> Option<(u32, Peer)>
    ensures { result ≡ attempt_at now session.now }
{
    if may_send(now, session) {
        Some((session.number, next_of_round(session)))
    } else {
        None
    }
}

// The moment that has to come before it may.
fn wait_of(now: Moment, session: &Session) -> Option<Moment>
    ensures { result ≡ waits_until now session.now }
{
    let sending = &session.sending;
    if session.request.is_some() && !sending.in_flight && !has_come(now, sending.wait) {
        sending.wait
    } else {
        None
    }
}

/// The mark of a session.
pub fn mark(setup: &SmfSetup, now: Moment, session: &Session) -> Mark
    ensures { result ≡ mark_of setup.now now session.now }
{
    Mark {
        send: attempt_of(now, session),
        wait: wait_of(now, session),
        due: rest_end(setup, session),
        flies: session.sending.in_flight,
    }
}

// The mark at a place is made anew.
fn remark(agenda: &mut Agenda, setup: &SmfSetup, now: Moment, sessions: &[Kept], at: usize)
    requires { length agenda.old.marks ≡ length sessions.now }
    ensures marks { agenda.new.marks ≡ slice_set agenda.old.marks at (slice_index_or (marks_of setup.now now (sessions_of sessions.now)) at quiet) }
    ensures room { agenda.new.room ≡ agenda.old.room }
{
    if at >= sessions.len() {
        return;
    }
    agenda.set(at, sessions[at].mark(setup, now));
}

/// The marks at places are made anew.
pub fn wake(agenda: &mut Agenda, setup: &SmfSetup, now: Moment, sessions: &[Kept], places: &[usize])
    requires { length agenda.old.marks ≡ length sessions.now }
    ensures marks { agenda.new.marks ≡ remarked (marks_of setup.now now (sessions_of sessions.now)) places.now agenda.old.marks }
    ensures room { agenda.new.room ≡ agenda.old.room }
{
    for at in places {
        remark(agenda, setup, now, sessions, *at);
    }
}
