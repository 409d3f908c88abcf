//! Attempts to send the unanswered request of a session.
ghost use Rattle.std.specs.Prelude.{◌≡◌, ◌==◌, ◌&&◌, OnOk};
ghost use Rattle.smf_core.specs.Draft.{whole};
ghost use Rattle.smf_model.specs.Sending.{at_rest as resting, other_peer, same_peer, second_peer, next_peer, is_past, may_send, is_send, flight_of, attempted, latest_peer};

use crate::draft::{Draft, Pending, request_of};
use smf_model::{Peer, Sending, Session};
use units::{Moment, OutOfMemory, copy};

/// How far the sending of a request is of which there was no attempt.
pub fn at_rest() -> Sending
    ensures { result ≡ resting }
{
    Sending {
        latest: None,
        in_flight: false,
        unsent: true,
        turn: 0,
        wait: None,
    }
}

fn other(peer: Peer) -> Peer
    ensures { result ≡ other_peer peer }
{
    match peer {
        Peer::Primary => Peer::Alternate,
        Peer::Alternate => Peer::Primary,
    }
}

fn is_same(a: Peer, b: Peer) -> bool
    ensures { result ≡ same_peer a b }
{
    match (a, b) {
        (Peer::Primary, Peer::Primary) | (Peer::Alternate, Peer::Alternate) => true,
        (Peer::Primary, Peer::Alternate) | (Peer::Alternate, Peer::Primary) => false,
    }
}

fn second(failover: bool, peer: Peer) -> Peer
    ensures { result ≡ second_peer failover peer }
{
    if failover { other(peer) } else { peer }
}

/// The next peer of a session's round.
pub fn next_of_round(session: &Session) -> Peer
    ensures { result ≡ next_peer session.now }
{
    if session.sending.turn == 0 {
        session.peer
    } else {
        second(session.failover, session.peer)
    }
}

/// Whether a waiting moment, if there is one, has come.
pub fn has_come(now: Moment, wait: Option<Moment>) -> bool
    ensures { result ≡ is_past now wait }
{
    match wait {
        None => true,
        Some(moment) => moment <= now,
    }
}

/// Whether a session may send.
pub fn may_send(now: Moment, session: &Session) -> bool
    ensures { result ≡ may_send now session.now }
{
    session.request.is_some() && !session.sending.in_flight && has_come(now, session.sending.wait)
}

/// Whether that is this session, and to this peer.
pub fn is_sent(number: u32, peer: Peer, next: Option<(u32, Peer)>) -> bool
    ensures { result ≡ is_send number peer next }
{
    match next {
        None => false,
        Some((session, to)) => number == session && is_same(peer, to),
    }
}

/// The peer of the latest attempt of the unanswered request, if there was one.
pub fn latest_of(before: &Session, draft: &Draft) -> Peer
    ensures { result ≡ latest_peer (whole before.now draft.now) }
{
    draft.course.sending.latest.unwrap_or(draft.course.peer)
}

/// The peer of the attempt that has no end, `None` exactly where there is none.
pub fn in_flight(session: &Session) -> Option<Peer>
    ensures { result ≡ flight_of session.now }
{
    if session.sending.in_flight {
        session.sending.latest
    } else {
        None
    }
}

/// An attempt begins; each attempt after it carries the mark (TS 32.290, 5.3.2).
pub fn attempt(peer: Peer, before: &Session, draft: &mut Draft) -> Result<(), OutOfMemory>
    ensures { OnOk result (whole before.now draft.new ≡ attempted peer (whole before.now draft.old)) }
{
    draft.course.sending.latest = Some(peer);
    draft.course.sending.in_flight = true;
    if let Some(request) = request_of(before, draft) {
        let mut next = copy(request)?;
        next.again = true;
        draft.pending = Pending::New(next);
    }
    Ok(())
}
