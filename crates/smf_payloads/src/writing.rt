//! The payloads of events, written.
ghost use Rattle.std.specs.Prelude.{◌≡◌, ◌++◌, ◌<◌, ◌≤◌, IfOk, OnOk, Ok, codes, decimal, length};
ghost use Rattle.units.specs.ReplyRanges.{FitsReply};
ghost use Rattle.charging_json.specs.Reply.{reply_in};
ghost use Rattle.charging_json.specs.ReplyWritten.{location_of, reply_text, status_of};
ghost use Rattle.smf_payloads.specs.Laws.{IsOfAnswer};
ghost use Rattle.smf_payloads.specs.Payloads.{ReadsBack};
ghost use Rattle.smf_payloads.specs.Written.{event_payload, part, part_of, peer_text, reply_parts};

use crate::event_rows::{
    push_attach, push_change, push_detach, push_report, push_start, push_tick,
};
use charging_json::{reply_location, reply_status, write_reply};
use row_texts::{fields_have_field_bytes, numbers_read_back, push_decimal, words_read_back};
use smf_model::{Peer, SmfEvent};
use std::alloc::Global;
use units::{List, OutOfMemory, Reply, Text};

// A letter and a session.
fn push_session(kind: &[u8], session: u32, out: &mut Vec<u8>) -> Result<(), OutOfMemory>
    ensures { OnOk result (out.new.items ≡ out.old.items ++ (kind.now ++ decimal session)) }
{
    out.extend_from_slice(kind)?;
    push_decimal(session, out)
}

fn peer_text(peer: Peer) -> &'static [u8]
    ensures { result.now ≡ peer_text peer }
{
    match peer {
        Peer::Primary => b"0",
        Peer::Alternate => b"1",
    }
}

fn push_attempt(session: u32, peer: Peer, out: &mut Vec<u8>) -> Result<(), OutOfMemory>
    ensures { OnOk result (out.new.items ≡ out.old.items ++ event_payload (SmfEvent.Attempt session peer)) }
{
    push_session(b"a", session, out)?;
    out.extend_from_slice(b" ")?;
    out.extend_from_slice(peer_text(peer))?;
    Ok(())
}

fn push_not_sent(session: u32, out: &mut Vec<u8>) -> Result<(), OutOfMemory>
    ensures { OnOk result (out.new.items ≡ out.old.items ++ event_payload (SmfEvent.NotSent session)) }
{
    push_session(b"o", session, out)?;
    out.extend_from_slice(b" notsent")?;
    Ok(())
}

fn push_no_reply(session: u32, out: &mut Vec<u8>) -> Result<(), OutOfMemory>
    ensures { OnOk result (out.new.items ≡ out.old.items ++ event_payload (SmfEvent.NoReply session)) }
{
    push_session(b"o", session, out)?;
    out.extend_from_slice(b" noreply")?;
    Ok(())
}

fn push_location(location: &Option<Text>, out: &mut Vec<u8>) -> Result<(), OutOfMemory>
    ensures { OnOk result (out.new.items ≡ out.old.items ++ part_of location.now) }
{
    match location {
        Some(location) => out.extend_from_slice(location.as_str().as_bytes())?,
        None => out.extend_from_slice(b"-")?,
    }
    Ok(())
}

fn push_body(body: &[u8], out: &mut Vec<u8>) -> Result<(), OutOfMemory>
    ensures { OnOk result (out.new.items ≡ out.old.items ++ part body.now) }
{
    match body {
        [] => out.extend_from_slice(b"-")?,
        _ => out.extend_from_slice(body)?,
    }
    Ok(())
}

// The parts of a reply's response.
fn push_reply(alloc: Global, reply: &Reply, out: &mut Vec<u8>) -> Result<(), OutOfMemory>
    ensures text { OnOk result (out.new.items ≡ out.old.items ++ reply_parts reply.now) }
    ensures status { status_of reply.now ≤ 65535 }
    ensures reads_back { FitsReply reply.now → OnOk result (reply_in (status_of reply.now) (location_of reply.now) (reply_text reply.now) ≡ Ok reply.now) }
{
    let status = reply_status(reply);
    let location = reply_location(alloc, reply)?;
    let body = write_reply(alloc, reply)?;
    push_decimal(u32::from(status), out)?;
    out.extend_from_slice(b" ")?;
    push_location(&location, out)?;
    out.extend_from_slice(b" ")?;
    push_body(body.as_slice(), out)
}

fn push_answer(
    alloc: Global,
    session: u32,
    number: u32,
    reply: &Reply,
    out: &mut Vec<u8>,
) -> Result<(), OutOfMemory>
    ensures text { OnOk result (out.new.items ≡ out.old.items ++ event_payload (SmfEvent.Answered session number reply.now)) }
    ensures reads_back { IsOfAnswer (SmfEvent.Answered session number reply.now) → OnOk result (ReadsBack (SmfEvent.Answered session number reply.now)) }
{
    numbers_read_back();
    words_read_back();
    fields_have_field_bytes();
    push_session(b"p", session, out)?;
    out.extend_from_slice(b" ")?;
    push_decimal(number, out)?;
    out.extend_from_slice(b" ")?;
    push_reply(alloc, reply, out)
}

fn push_restart(out: &mut Vec<u8>) -> Result<(), OutOfMemory>
    ensures { OnOk result (out.new.items ≡ out.old.items ++ codes "z") }
{
    out.extend_from_slice(b"z")?;
    Ok(())
}

fn push_payload(alloc: Global, event: &SmfEvent, out: &mut Vec<u8>) -> Result<(), OutOfMemory>
    ensures text { OnOk result (out.new.items ≡ out.old.items ++ event_payload event.now) }
    ensures reads_back { IsOfAnswer event.now → OnOk result (ReadsBack event.now) }
{
    match event {
        SmfEvent::Attach {
            session,
            subscriber,
            groups,
            moment,
        } => push_attach(*session, subscriber, groups.as_slice(), *moment, out),
        SmfEvent::Start {
            session,
            group,
            moment,
        } => push_start(*session, *group, *moment, out),
        SmfEvent::Count { session, report } => push_report(*session, report, out),
        SmfEvent::Change {
            session,
            trigger,
            moment,
        } => push_change(*session, *trigger, *moment, out),
        SmfEvent::Tick { moment } => push_tick(*moment, out),
        SmfEvent::Detach {
            session,
            abnormal,
            moment,
        } => push_detach(*session, *abnormal, *moment, out),
        SmfEvent::Answered {
            session,
            number,
            reply,
        } => push_answer(alloc, *session, *number, reply, out),
        SmfEvent::Attempt { session, peer } => push_attempt(*session, *peer, out),
        SmfEvent::NotSent { session } => push_not_sent(*session, out),
        SmfEvent::NoReply { session } => push_no_reply(*session, out),
        SmfEvent::Restart => push_restart(out),
    }
}

/// The payload of an event; it has a byte at least. An answer whose reply is in the ranges of its format reads back; other
/// events do so by laws.
pub fn write_payload(alloc: Global, event: &SmfEvent) -> Result<List<u8>, OutOfMemory>
    ensures text { IfOk result (λ b. b ≡ event_payload event.now) }
    ensures bytes { IfOk result (λ b. 0 < length b) }
    ensures reads_back { IsOfAnswer event.now → OnOk result (ReadsBack event.now) }
{
    let mut out = Vec::with_capacity(alloc, 128)?;
    push_payload(alloc, event, &mut out)?;
    Ok(List::from_vec(out))
}
