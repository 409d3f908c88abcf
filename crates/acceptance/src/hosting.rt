//! Serving with devices in memory: a handler that writes down what it is given, and asks a peer after each connection.
ghost use Rattle.std.specs.Prelude.{⊤};

use crate::devices::failing;
use crate::values::{octets, small};
use calls::{Asked, ask};
use edge::{Link, MemDoor, MemLink, StepClock};
use serving::{Fence, Handler, Response, ServeRefusal, Served, serve};
use std::alloc::{AllocError, Global};
use units::{List, Moment, OutOfMemory};
use wire::{Conn, HttpRequest};

// What it was given so far, and whether it was fenced.
#[derive(Drop)]
struct Recorder {
    log: String,
    fence: Option<Fence>,
}

impl Recorder {
    // Writes a word down.
    fn note(&mut self, word: &str) -> Result<(), AllocError> {
        self.log.push_str(word)?;
        self.log.push_str(" ")
    }
}

// How a call to a peer ended.
fn ending(alloc: Global, asked: &Asked) -> Result<String, AllocError> {
    match asked {
        Asked::NotSent => String::from_str(alloc, "not-sent"),
        Asked::NoReply => String::from_str(alloc, "no-reply"),
        Asked::Response(response) => {
            let status = response.status;
            format!(in alloc; "{status}")
        }
        Asked::NoResponse => String::from_str(alloc, "no-response"),
        Asked::OutOfMemory => String::from_str(alloc, "no-memory"),
    }
}

// The text of a path is what answers it, with an exclamation mark where the connection ends.
fn reply(alloc: Global, message: &HttpRequest) -> Result<Response, AllocError> {
    let mut bytes = Vec::from_slice(alloc, message.path.as_str().as_bytes())?;
    if message.close {
        bytes.extend_from_slice(b"!")?;
    }
    Ok(Response {
        status: 200,
        bytes: List::from_vec(bytes),
    })
}

impl<D> Handler<D> for Recorder {
    ghost is_ready = { λ _ _. ⊤ };

    ghost gives = { λ _ _ _ _ _ _. ⊤ };

    ghost expires = { λ _ _ _ _ _ _. ⊤ };

    ghost notifies = { λ _ _ _ _ _ _ _. ⊤ };

    ghost fence = { λ recorder. recorder.fence };

    fn handle(
        &mut self,
        alloc: Global,
        _disk: &mut D,
        message: &HttpRequest,
    ) -> Result<Response, OutOfMemory> {
        self.note(message.path.as_str())?;
        if message.path.as_str() == "/fence" {
            self.fence = Some(Fence { own: 1, seen: 2 });
        }
        if message.path.as_str() == "/memory" {
            return Err(OutOfMemory);
        }
        Ok(reply(alloc, message)?)
    }

    fn expire(&mut self, alloc: Global, _disk: &mut D, moment: Moment) -> Result<(), OutOfMemory> {
        let seconds = moment.seconds();
        let word = format!(in alloc; "at-{seconds}")?;
        self.note(word.as_str())?;
        Ok(())
    }

    fn notify<L: Link>(
        &mut self,
        alloc: Global,
        _disk: &mut D,
        link: &mut L,
    ) -> Result<(), OutOfMemory> {
        let mut conn = Conn::new(alloc)?;
        let asked = ask(alloc, &mut conn, link, "peer:80", b"note");
        let word = ending(alloc, &asked)?;
        self.note(word.as_str())?;
        Ok(())
    }

    fn fenced(&self) -> Option<Fence> {
        self.fence
    }
}

// Connections by their octets, between strokes; a dot is none.
fn streams(alloc: Global, word: &str) -> Result<List<List<u8>>, OutOfMemory> {
    let mut streams = List::new(alloc);
    if word != "." {
        for stream in word.split('/') {
            streams.push(List::from_vec(octets(alloc, stream)?))?;
        }
    }
    Ok(streams)
}

// How serving ended.
fn end_of(alloc: Global, served: &Result<Served, ServeRefusal>) -> Result<String, AllocError> {
    match served {
        Ok(Served::Closed) => String::from_str(alloc, "closed"),
        Ok(Served::Most) => String::from_str(alloc, "most"),
        Err(ServeRefusal::DoorFault) => String::from_str(alloc, "door-fault"),
        Err(ServeRefusal::NotOwner { own, seen }) => format!(in alloc; "not-owner-{own}-{seen}"),
        Err(ServeRefusal::OutOfMemory) => String::from_str(alloc, "no-memory"),
    }
}

// Serves the connections of a door, and answers what the handler wrote down, how serving ended, and what was written.
fn hosted(
    alloc: Global,
    door: &mut MemDoor,
    link: &mut MemLink,
    most: u32,
) -> Result<String, OutOfMemory> {
    let mut clock = StepClock::new(alloc, Moment::first(), 10)?;
    let mut recorder = Recorder {
        log: String::new(alloc),
        fence: None,
    };
    let mut disk = ();
    let served = serve(
        alloc,
        &mut recorder,
        &mut disk,
        door,
        link,
        &mut clock,
        most,
    );
    let end = end_of(alloc, &served)?;
    let log = recorder.log.as_str();
    let told = std::str::from_utf8(door.bytes()).unwrap_or("?");
    let head = told.lines().next().unwrap_or("");
    let asked = std::str::from_utf8(link.bytes()).unwrap_or("?");
    Ok(format!(in alloc; "{log}{end} {head} {asked}")?)
}

/// What serving does with connections, their faults, the replies of a peer and its faults.
pub fn hosting(
    alloc: Global,
    connections: &str,
    fails: &str,
    replies: &str,
    link_fails: &str,
    most: &str,
) -> Result<String, OutOfMemory> {
    let connections = streams(alloc, connections)?;
    let fails = failing(alloc, fails)?;
    let replies = streams(alloc, replies)?;
    let link_fails = failing(alloc, link_fails)?;
    let mut door = MemDoor::new(alloc, &connections, 2000, fails.as_slice())?;
    let mut link = MemLink::new(alloc, &replies, 1000, link_fails.as_slice())?;
    hosted(alloc, &mut door, &mut link, small(most))
}
