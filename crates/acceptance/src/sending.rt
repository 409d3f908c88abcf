//! Events of several sessions with attempts, their ends and restarts, and what is seen in their course.
use crate::charging_answers::{ATTACHED, handling};
use crate::events::{fill, take_words, word_of};
use crate::values::{long, small};
use smf_core::{Peer, Smf, SmfSetup};
use std::alloc::Global;
use units::{Moment, Operation, OutOfMemory, Request, Text, UnitUsage, Used};

// HANDLING FAILOVER RETRY HELD CHANGES VOLUME SECONDS
fn setup(alloc: Global, text: &str) -> Result<SmfSetup, OutOfMemory> {
    let words: Vec<&str> = text.split_whitespace().collect(alloc)?;
    let [by, failover, retry, held, changes, volume, seconds] = words.as_slice() else {
        return Err(OutOfMemory);
    };
    Ok(SmfSetup {
        name: Text::from_text(alloc, "smf1")?,
        failover: *failover == "y",
        handling: handling(by),
        retry: small(retry),
        held_max: small(held),
        changes_max: small(changes),
        volume_limit: long(volume),
        time_limit: small(seconds),
    })
}

fn letter(peer: Peer) -> &'static str {
    match peer {
        Peer::Primary => "P",
        Peer::Alternate => "A",
    }
}

fn seconds(moment: Moment) -> u64 {
    moment.seconds().saturating_sub(ATTACHED)
}

// A container of a request: its number, octets and seconds, its trigger and the moment of its close.
fn show_used(alloc: Global, used: &Used, text: &mut String) -> Result<(), OutOfMemory> {
    let (lsn, up, down, time) = (used.lsn, used.up, used.down, used.seconds);
    text.push_str(format!(in alloc; "{lsn}/{up}/{down}/{time}")?.as_str())?;
    for trigger in used.triggers.as_slice() {
        text.push_str("/")?;
        text.push_str(trigger.as_str())?;
    }
    let closed = seconds(used.moment);
    text.push_str(format!(in alloc; "/{closed}")?.as_str())?;
    Ok(())
}

// A rating group of a request: whether it asks, its first three containers, and how many more.
fn show_usage(alloc: Global, entry: &UnitUsage, text: &mut String) -> Result<(), OutOfMemory> {
    let group = entry.group;
    let ask = if entry.ask.is_some() { "?" } else { ":" };
    text.push_str(format!(in alloc; " {group}{ask}")?.as_str())?;
    for (place, used) in entry.used.as_slice().iter().enumerate() {
        if place >= 3 {
            break;
        }
        if place > 0 {
            text.push_str(",")?;
        }
        show_used(alloc, used, text)?;
    }
    if entry.used.len() > 3 {
        let more = entry.used.len() - 3;
        text.push_str(format!(in alloc; "+{more}")?.as_str())?;
    }
    Ok(())
}

fn show_request(alloc: Global, request: &Request, text: &mut String) -> Result<(), OutOfMemory> {
    text.push_str(match request.operation {
        Operation::Create => "C",
        Operation::Update(_) => "U",
        Operation::Release(_) => "R",
    })?;
    let (number, stamp) = (request.number, seconds(request.stamp));
    let mark = if request.again { "*" } else { "" };
    text.push_str(format!(in alloc; "{number}{mark}@{stamp}")?.as_str())?;
    for entry in request.usage.as_slice() {
        show_usage(alloc, entry, text)?;
    }
    if !request.triggers.is_empty() {
        text.push_str(" !")?;
    }
    Ok(())
}

// What sends next, and the attempt of the session that has no end.
fn show_sending(
    alloc: Global,
    smf: &Smf,
    session: u32,
    text: &mut String,
) -> Result<(), OutOfMemory> {
    match smf.next_send() {
        None => text.push_str(">-")?,
        Some((next, peer)) => {
            let peer = letter(peer);
            text.push_str(format!(in alloc; ">{next}{peer}")?.as_str())?;
        }
    }
    text.push_str(" ^")?;
    text.push_str(match smf.in_flight(session) {
        None => "-",
        Some(peer) => letter(peer),
    })?;
    text.push_str(" ")?;
    Ok(())
}

fn is_attached(smf: &Smf, session: u32) -> bool {
    smf.sessions().iter().any(|number| *number == session)
}

// What sends next, the attempt without an end, the unanswered request, how many containers there are and are held, and the gates of
// the rating groups 10 and 20.
fn show(alloc: Global, smf: &Smf, session: u32, text: &mut String) -> Result<(), OutOfMemory> {
    show_sending(alloc, smf, session, text)?;
    match smf.request(session) {
        None => text.push_str("-")?,
        Some(request) => show_request(alloc, request, text)?,
    }
    let all = smf.containers(session).len();
    let held = smf.held(session).len();
    text.push_str(format!(in alloc; " c{all} h{held}")?.as_str())?;
    if is_attached(smf, session) {
        let (ten, twenty) = (smf.gate(session, 10), smf.gate(session, 20));
        let (ten, twenty) = (word_of(ten), word_of(twenty));
        text.push_str(format!(in alloc; " {ten} {twenty}")?.as_str())?;
    }
    Ok(())
}

// An attempt of what sends next.
fn send(alloc: Global, smf: &mut Smf) -> Result<&'static str, OutOfMemory> {
    match smf.next_send() {
        None => Ok("-"),
        Some((session, peer)) => take_words(alloc, smf, session, &["attempt", letter(peer)]),
    }
}

/// What comes of a row of events: the answers, what is seen in their course, and what at the end.
pub fn sending(alloc: Global, given: &str, row: &str) -> Result<String, OutOfMemory> {
    let mut smf = Smf::new(alloc, &setup(alloc, given)?)?;
    let mut session = 7;
    let mut text = String::new(alloc);
    for part in row.split(';') {
        let words: Vec<&str> = part.split_whitespace().collect(alloc)?;
        match words.as_slice() {
            ["on", number] => session = small(number),
            ["send"] => text.push_str(send(alloc, &mut smf)?)?,
            ["fill", count, moment] => fill(alloc, &mut smf, session, count, moment)?,
            ["see"] => {
                text.push_str(" [")?;
                show(alloc, &smf, session, &mut text)?;
                text.push_str("] ")?;
            }
            words => text.push_str(take_words(alloc, &mut smf, session, words)?)?,
        }
    }
    text.push_str(" ")?;
    show(alloc, &smf, session, &mut text)?;
    Ok(text)
}
