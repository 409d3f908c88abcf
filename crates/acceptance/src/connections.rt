//! Doors, links and clocks: in memory by steps, and of the system on loopback.
use crate::devices::failing;
use crate::http::{answered, asked};
use crate::values::{moment, small};
use edge::{
    Clock, Door, Failed, Link, MemDoor, MemLink, Sink, Source, StepClock, SystemClock, TcpDoor,
    TcpLink, write_all,
};
use std::alloc::{AllocError, Global};
use std::io;
use std::net::{Net, OpenListener, TcpListener};
use units::{List, OutOfMemory};
use wire::{Conn, request_bytes, response_bytes};

/// The first second of 2020.
const AFTER: u64 = 1577836800;

// The bytes of connections, between strokes; a dot is no connection.
fn pieces(alloc: Global, word: &str) -> Result<List<List<u8>>, OutOfMemory> {
    let mut pieces = List::new(alloc);
    if word != "." {
        for piece in word.split('/') {
            pieces.push(List::from_vec(Vec::from_slice(alloc, piece.as_bytes())?))?;
        }
    }
    Ok(pieces)
}

// A text of its own.
fn said(alloc: Global, text: &str) -> Result<String, AllocError> {
    String::from_str(alloc, text)
}

// What a read of at most 16 bytes answers: its text, or a hyphen where there is none.
fn read<S: Source>(alloc: Global, source: &mut S, most: u32) -> Result<String, AllocError> {
    let mut into = [0u8; 16];
    let end = (most as usize).min(16);
    match source.read(&mut into[..end]) {
        Ok(0) => said(alloc, "-"),
        Ok(count) => said(alloc, std::str::from_utf8(&into[..count]).unwrap_or("?")),
        Err(Failed) => said(alloc, "failed"),
    }
}

// What a write answers.
fn write<K: Sink>(alloc: Global, sink: &mut K, text: &str) -> Result<String, AllocError> {
    match sink.write(text.as_bytes()) {
        Ok(count) => format!(in alloc; "{count}"),
        Err(Failed) => said(alloc, "failed"),
    }
}

// What letting a connection in answers.
fn accept<D: Door>(alloc: Global, door: &mut D) -> Result<String, AllocError> {
    match door.accept() {
        Ok(true) => said(alloc, "true"),
        Ok(false) => said(alloc, "false"),
        Err(Failed) => said(alloc, "failed"),
    }
}

// What connecting to a peer answers, whose name has so many letters.
fn connect<L: Link>(alloc: Global, link: &mut L, count: u32) -> Result<String, AllocError> {
    let mut peer = String::new(alloc);
    for _ in 0..count {
        peer.push_str("h")?;
    }
    match link.connect(peer.as_str()) {
        Ok(()) => said(alloc, "ok"),
        Err(Failed) => said(alloc, "failed"),
    }
}

// A step of a door.
fn enter(alloc: Global, door: &mut MemDoor, step: &str) -> Result<String, AllocError> {
    match step.split_once(':') {
        Some(("read", count)) => read(alloc, door, small(count)),
        Some((_, text)) => write(alloc, door, text),
        None => if step == "accept" {
            accept(alloc, door)
        } else {
            door.shut();
            said(alloc, ".")
        },
    }
}

// A step of a link.
fn reach(alloc: Global, link: &mut MemLink, step: &str) -> Result<String, AllocError> {
    match step.split_once(':') {
        Some(("read", count)) => read(alloc, link, small(count)),
        Some(("write", text)) => write(alloc, link, text),
        Some((_, count)) => connect(alloc, link, small(count)),
        None => {
            link.shut();
            said(alloc, ".")
        }
    }
}

// What a door answers to each step.
fn entered(alloc: Global, door: &mut MemDoor, steps: &str) -> Result<String, AllocError> {
    let mut told = String::new(alloc);
    for step in steps.split(' ') {
        told.push_str(enter(alloc, door, step)?.as_str())?;
        told.push_str(" ")?;
    }
    told.push_str(std::str::from_utf8(door.bytes()).unwrap_or("?"))?;
    Ok(told)
}

/// What a door in memory answers to each step, and at the end what was written to it.
pub fn door(
    alloc: Global,
    bytes: &str,
    room: &str,
    fails: &str,
    steps: &str,
) -> Result<String, OutOfMemory> {
    let bytes = pieces(alloc, bytes)?;
    let fails = failing(alloc, fails)?;
    let mut door = MemDoor::new(alloc, &bytes, small(room) as usize, fails.as_slice())?;
    Ok(entered(alloc, &mut door, steps)?)
}

// What a link answers to each step.
fn reached(alloc: Global, link: &mut MemLink, steps: &str) -> Result<String, AllocError> {
    let mut told = String::new(alloc);
    for step in steps.split(' ') {
        told.push_str(reach(alloc, link, step)?.as_str())?;
        told.push_str(" ")?;
    }
    told.push_str(std::str::from_utf8(link.bytes()).unwrap_or("?"))?;
    Ok(told)
}

/// What a link in memory answers to each step, and at the end what was written to it.
pub fn link(
    alloc: Global,
    bytes: &str,
    room: &str,
    fails: &str,
    steps: &str,
) -> Result<String, OutOfMemory> {
    let bytes = pieces(alloc, bytes)?;
    let fails = failing(alloc, fails)?;
    let mut link = MemLink::new(alloc, &bytes, small(room) as usize, fails.as_slice())?;
    Ok(reached(alloc, &mut link, steps)?)
}

/// The first moments of a clock that goes by steps.
pub fn clock(alloc: Global, first: &str, step: &str, count: &str) -> Result<String, OutOfMemory> {
    let mut clock = StepClock::new(alloc, moment(first), small(step))?;
    let mut told = String::new(alloc);
    for _ in 0..small(count) {
        let seconds = clock.now().seconds();
        told.push_str(format!(in alloc; "{seconds} ")?.as_str())?;
    }
    Ok(told)
}

// An address of loopback at which nobody listens now.
fn free_address<R: Net>(net: &R, alloc: Global) -> io::Result<String> {
    let listener = TcpListener::bind(net, "127.0.0.1:0")?;
    let address = listener.local_addr()?;
    Ok(format!(in alloc; "{address}")?)
}

// Connects to a peer and writes a request; answers whether that went well.
fn ask<L: Link>(alloc: Global, link: &mut L, peer: &str, path: &str) -> Result<bool, OutOfMemory> {
    let request = request_bytes(alloc, peer, path, b"{}")?;
    if link.connect(peer).is_err() {
        return Ok(false);
    }
    Ok(write_all(link, request.as_slice()).is_ok())
}

// Lets a connection in, reads its request, answers it with the path as Location, and ends the connection.
fn answer<D: Door>(alloc: Global, door: &mut D, path: &str) -> Result<String, OutOfMemory> {
    let response = response_bytes(alloc, 201, Some(path), b"[]", true)?;
    let mut conn = Conn::new(alloc)?;
    if door.accept().is_err() {
        return Ok(said(alloc, "no connection")?);
    }
    let Ok(Some(request)) = conn.read_request(alloc, door) else {
        return Ok(said(alloc, "no request")?);
    };
    let wrote = write_all(door, response.as_slice());
    door.shut();
    if wrote.is_err() {
        return Ok(said(alloc, "no response")?);
    }
    asked(alloc, &request)
}

// Reads a response, and at the end of the connection what a further read and a read after it was shut answer.
fn hear<L: Link>(alloc: Global, link: &mut L) -> Result<String, OutOfMemory> {
    let mut conn = Conn::new(alloc)?;
    let Ok(response) = conn.read_response(alloc, link) else {
        return Ok(said(alloc, "no response")?);
    };
    let mut told = answered(alloc, &response)?;
    told.push_str(read(alloc, link, 1)?.as_str())?;
    link.shut();
    told.push_str(read(alloc, link, 1)?.as_str())?;
    Ok(told)
}

// A request, its response, and the end.
fn converse<D: Door, L: Link>(
    alloc: Global,
    door: &mut D,
    link: &mut L,
    peer: &str,
    path: &str,
) -> Result<String, OutOfMemory> {
    if !ask(alloc, link, peer, path)? {
        return Ok(said(alloc, "not asked")?);
    }
    let asked = answer(alloc, door, path)?;
    let heard = hear(alloc, link)?;
    Ok(format!(in alloc; "{asked}{heard}")?)
}

// What a door and a link of the system say to one another, on one thread: a request, its response, and the end.
fn talk<R: Net>(net: &R, alloc: Global, path: &str) -> Result<String, OutOfMemory> {
    let Ok(peer) = free_address(net, alloc) else {
        return Ok(said(alloc, "no loopback")?);
    };
    let mut door = TcpDoor::new(alloc, net, Some(peer.as_str()))?;
    let mut link = TcpLink::new(alloc, net)?;
    converse(alloc, &mut door, &mut link, peer.as_str(), path)
}

// Whether a door lets nothing in and takes nothing.
fn is_shut<D: Door>(door: &mut D) -> bool {
    door.accept().is_err() && door.write(b"").is_err()
}

// What a door answers that has no address, one with no port, or one at which another listens: the first that is not shut.
fn shut_doors<R: Net>(net: &R, alloc: Global) -> Result<String, OutOfMemory> {
    let Ok(peer) = free_address(net, alloc) else {
        return Ok(said(alloc, "no loopback")?);
    };
    let _first = TcpDoor::new(alloc, net, Some(peer.as_str()))?;
    for address in [None, Some("127.0.0.1"), Some(peer.as_str())] {
        let mut door = TcpDoor::new(alloc, net, address)?;
        if !is_shut(&mut door) {
            return Ok(said(alloc, "open")?);
        }
    }
    Ok(said(alloc, "shut")?)
}

// What a link answers that connects where nobody listens.
fn nobody<R: Net>(net: &R, alloc: Global) -> Result<String, OutOfMemory> {
    let Ok(peer) = free_address(net, alloc) else {
        return Ok(said(alloc, "no loopback")?);
    };
    let mut link = TcpLink::new(alloc, net)?;
    match link.connect(peer.as_str()) {
        Ok(()) => Ok(said(alloc, "somebody")?),
        Err(Failed) => Ok(read(alloc, &mut link, 1)?),
    }
}

// Whether the clock of the system answers a moment of this time.
fn present<R: std::rt::Clock>(times: &R, alloc: Global) -> Result<String, OutOfMemory> {
    let mut clock = SystemClock::new(alloc, times)?;
    let word = if clock.now().seconds() < AFTER {
        "past"
    } else {
        "present"
    };
    Ok(said(alloc, word)?)
}

/// What devices of the system answer: doors that can't be opened, a link to nobody, the clock, or both ends of a talk at a path.
pub fn loopback<R: Net + std::rt::Clock>(
    rt: &R,
    alloc: Global,
    case: &str,
) -> Result<String, OutOfMemory> {
    match case {
        "shut" => shut_doors(rt, alloc),
        "nobody" => nobody(rt, alloc),
        "present" => present(rt, alloc),
        path => talk(rt, alloc, path),
    }
}
