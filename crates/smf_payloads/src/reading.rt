//! The events that payloads give, however they are spelled.
ghost use Rattle.std.specs.Prelude.{◌≡◌, IfOk, option_map};
ghost use Rattle.std.specs.Result.{result_ok};
ghost use Rattle.charging_json.specs.Reply.{reply_in};
ghost use Rattle.smf_payloads.specs.Read.{answer_in, answered, attempt_in, body_in, end_in, end_of, event_by, event_in, location_in, peer_of, reply_at, reply_by, reply_of, restart_in, row_event, small_before};

use charging_json::read_reply;
use row_texts::{after_space, first_word, number_before, row_in};
use smf_model::{Peer, SmfEvent};
use smf_rows::read_event_row;
use std::alloc::Global;
use units::{JsonRefusal, OutOfMemory, Reply};

fn small_before(text: &[u8]) -> Option<u32>
    ensures { result ≡ small_before text.now }
{
    number_before(u32::MAX, text)
}

// The event of a row.
fn row_event(alloc: Global, text: &[u8]) -> Result<Option<SmfEvent>, OutOfMemory>
    ensures { IfOk result (λ o. o ≡ row_event text.now) }
{
    match row_in(alloc, text)? {
        Some(row) => read_event_row(alloc, row.as_slice()),
        None => Ok(None),
    }
}

fn peer_of(text: &[u8]) -> Option<Peer>
    ensures { result ≡ peer_of text.now }
{
    if text == b"0".as_slice() {
        Some(Peer::Primary)
    } else if text == b"1".as_slice() {
        Some(Peer::Alternate)
    } else {
        None
    }
}

fn attempt_in(text: &[u8]) -> Option<SmfEvent>
    ensures { result ≡ attempt_in text.now }
{
    let session = small_before(text)?;
    let peer = peer_of(after_space(text))?;
    Some(SmfEvent::Attempt { session, peer })
}

fn end_of(session: u32, text: &[u8]) -> Option<SmfEvent>
    ensures { result ≡ end_of session text.now }
{
    if text == b"notsent".as_slice() {
        Some(SmfEvent::NotSent { session })
    } else if text == b"noreply".as_slice() {
        Some(SmfEvent::NoReply { session })
    } else {
        None
    }
}

// The end of an attempt without an answer.
fn end_in(text: &[u8]) -> Option<SmfEvent>
    ensures { result ≡ end_in text.now }
{
    let session = small_before(text)?;
    end_of(session, after_space(text))
}

fn body_in(text: &[u8]) -> &[u8]
    ensures { result.now ≡ body_in text.now }
{
    if text == b"-".as_slice() { &[] } else { text }
}

// The reply of a response.
fn read_as(
    alloc: Global,
    status: u16,
    location: Option<&str>,
    body: &[u8],
) -> Result<Option<Reply>, OutOfMemory>
    ensures { IfOk result (λ o. o ≡ result_ok (reply_in status (option_map (λ t. t.now) location.entry) body.now)) }
{
    match read_reply(alloc, status, location, body) {
        Ok(reply) => Ok(Some(reply)),
        Err(JsonRefusal::OutOfMemory) => Err(OutOfMemory),
        Err(JsonRefusal::NotJson) => Ok(None),
        Err(JsonRefusal::Missing { .. }) => Ok(None),
        Err(JsonRefusal::Wrong { .. }) => Ok(None),
    }
}

// The reply of a status, a Location and a body.
fn reply_at(
    alloc: Global,
    status: u16,
    location: &[u8],
    body: &[u8],
) -> Result<Option<Reply>, OutOfMemory>
    ensures { IfOk result (λ o. o ≡ reply_at status location.now body.now) }
{
    if location == b"-".as_slice() {
        return read_as(alloc, status, None, body);
    }
    match std::str::from_utf8(location) {
        Ok(text) => read_as(alloc, status, Some(text), body),
        Err(_) => Ok(None),
    }
}

// The reply of a status and what follows it: Location and body.
fn reply_by(alloc: Global, status: u16, text: &[u8]) -> Result<Option<Reply>, OutOfMemory>
    ensures { IfOk result (λ o. o ≡ reply_by status text.now) }
{
    reply_at(alloc, status, first_word(text), body_in(after_space(text)))
}

// The reply of `STATUS LOCATION BODY`.
fn reply_of(alloc: Global, text: &[u8]) -> Result<Option<Reply>, OutOfMemory>
    ensures { IfOk result (λ o. o ≡ reply_of text.now) }
{
    match number_before(65_535, text) {
        Some(status) => reply_by(alloc, status as u16, after_space(text)),
        None => Ok(None),
    }
}

// The answer to a request of a session.
fn answered(alloc: Global, session: u32, text: &[u8]) -> Result<Option<SmfEvent>, OutOfMemory>
    ensures { IfOk result (λ o. o ≡ answered session text.now) }
{
    let Some(number) = small_before(text) else {
        return Ok(None);
    };
    match reply_of(alloc, after_space(text))? {
        Some(reply) => Ok(Some(SmfEvent::Answered {
            session,
            number,
            reply,
        })),
        None => Ok(None),
    }
}

fn answer_in(alloc: Global, text: &[u8]) -> Result<Option<SmfEvent>, OutOfMemory>
    ensures { IfOk result (λ o. o ≡ answer_in text.now) }
{
    match small_before(text) {
        Some(session) => answered(alloc, session, after_space(text)),
        None => Ok(None),
    }
}

fn restart_in(text: &[u8]) -> Option<SmfEvent>
    ensures { result ≡ restart_in text.now }
{
    match text {
        [] => Some(SmfEvent::Restart),
        _ => None,
    }
}

// The event of a kind.
fn event_by(alloc: Global, kind: u8, text: &[u8]) -> Result<Option<SmfEvent>, OutOfMemory>
    ensures { IfOk result (λ o. o ≡ event_by kind text.now) }
{
    match kind {
        b'e' => row_event(alloc, text),
        b'a' => Ok(attempt_in(text)),
        b'o' => Ok(end_in(text)),
        b'p' => answer_in(alloc, text),
        b'z' => Ok(restart_in(text)),
        _ => Ok(None),
    }
}

/// The event that a payload gives, however it is spelled.
pub fn event_in(alloc: Global, bytes: &[u8]) -> Result<Option<SmfEvent>, OutOfMemory>
    ensures { IfOk result (λ o. o ≡ event_in bytes.now) }
{
    match bytes {
        [kind, text @ ..] => event_by(alloc, *kind, text),
        [] => Ok(None),
    }
}
