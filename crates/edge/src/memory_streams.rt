//! Connections in memory, one after another, as a door or a link has them.
ghost use Rattle.std.specs.Prelude.{◌≡◌, ◌≤◌, ◌<◌, ◌-◌, ◌+◌, ◌++◌, ◌∷◌, [], ◌↔◌, ℕ, List, drop, take, false, true, length, map, min, not, IfOk, IsTrue};
ghost use Rattle.edge.specs.Faults.{CountRose};
ghost use Rattle.edge.specs.Connections.{after_read, after_write};
ghost use Rattle.edge.specs.Memory.{IsToFail, after_call, unplayed};
ghost use Rattle.edge.specs.Visits.{IsPresent, ReadsPresent, WritesPresent, after_opening, connection_of, is_none, unopened};

use crate::memory_source::copy_front;
use crate::peer_name::PeerName;
use crate::script::Script;
use crate::traits::Failed;
use std::alloc::{AllocError, Global};
use std::marker::Model;
use units::{List, OutOfMemory, copy};

/// A connection to come: a place for its peer's name, and its bytes.
#[derive(Drop)]
pub struct Coming {
    pub peer: PeerName,
    pub bytes: List<u8>,
}

/// One connection: its peer, its bytes and how many of them were read, and which part of all that was written it wrote.
#[derive(Drop)]
pub struct Visit {
    pub peer: PeerName,
    pub bytes: List<u8>,
    pub at: usize,
    pub from: usize,
    pub to: usize,
    pub read_failed: bool,
    pub write_failed: bool,
}

/// Connections in memory, with a script of the calls that fail.
#[derive(Drop)]
pub struct MemStreams {
    // the last one first
    to_come: Vec<Coming>,
    present: Option<Visit>,
    // the oldest first
    earlier: Vec<Visit>,
    is_open: bool,
    held: Vec<u8>,
    capacity: usize,
    script: Script,
}

impl Model for MemStreams {
    ghost use Rattle.std.specs.Prelude.{◌≤◌, ◌+◌, All, map, reverse, vec_len, vec_capacity};
    ghost use Rattle.edge.specs.Visits.{IsPresentIn, IsVisit, MemoryStreams, connections_of, places};

    ghost Value = { MemoryStreams };

    ghost view = { λ s. record {
      to_come = map (λ c. c.bytes) (reverse s.to_come.items);
      connections = connections_of s.held.items s.present s.earlier.items;
      is_open = s.is_open;
      all = s.held.items;
      capacity = s.capacity;
      script = s.script;
    } };

    ghost invariant = { λ s. (vec_len s.held ≤ s.capacity) × (s.capacity ≤ vec_capacity s.held)
        × (vec_len s.to_come + places s.present + vec_len s.earlier ≤ vec_capacity s.earlier)
        × All (IsVisit (vec_len s.held)) s.earlier.items × IsPresentIn (vec_len s.held) s.is_open s.earlier.items s.present };
}

// Places for connections with these bytes, in their order.
fn places_for(alloc: Global, all: &List<List<u8>>) -> Result<Vec<Coming>, AllocError>
    ensures { IfOk result (λ places. map (λ c. c.bytes) places.items ≡ all.now) }
{
    let mut places = Vec::with_capacity(alloc, all.len())?;
    for bytes in all.as_slice() {
        places.push(Coming {
            peer: PeerName::new(alloc)?,
            bytes: copy(bytes)?,
        })?;
    }
    Ok(places)
}

// Reads of the bytes of a visit.
fn read_visit(visit: &mut Visit, into: &mut [u8]) -> usize
    requires { visit.old.at ≤ length visit.old.bytes }
    ensures count { result ≡ min (length visit.old.bytes - visit.old.at) (length into.old) }
    ensures bound { result ≤ length into.new }
    ensures whole { result ≡ length (take result into.new) }
    ensures read { (all : List ℕ) → connection_of all visit.new ∷ [] ≡ after_read (take result into.new) false (connection_of all visit.old ∷ []) }
    ensures consumes { drop visit.old.at visit.old.bytes ≡ take result into.new ++ drop visit.new.at visit.new.bytes }
    ensures end { result ≡ 0 → 0 < length into.new → drop visit.new.at visit.new.bytes ≡ [] }
    ensures at { visit.new.at ≤ length visit.new.bytes }
    ensures from { visit.new.«from» ≡ visit.old.«from» }
    ensures to { visit.new.to ≡ visit.old.to }
{
    let (_, rest) = visit.bytes.as_slice().split_at(visit.at);
    let count = copy_front(rest, into);
    visit.at += count;
    count
}

// Marks that a read failed.
fn mark_read(visit: &mut Visit)
    ensures read { (all : List ℕ) → connection_of all visit.new ∷ [] ≡ after_read [] true (connection_of all visit.old ∷ []) }
    ensures same { visit.new ≡ record visit.old { read_failed = true } }
{
    visit.read_failed = true;
}

// Marks that a write failed.
fn mark_write(visit: &mut Visit)
    ensures written { (all : List ℕ) → connection_of all visit.new ∷ [] ≡ after_write [] true (connection_of all visit.old ∷ []) }
    ensures same { visit.new ≡ record visit.old { write_failed = true } }
{
    visit.write_failed = true;
}

impl MemStreams {
    /// No connection yet; those with these bytes are to come, and at most `capacity` bytes may be written in all.
    pub fn new(
        alloc: Global,
        all: &List<List<u8>>,
        capacity: usize,
        fails: &[u32],
    ) -> Result<MemStreams, OutOfMemory>
        ensures { IfOk result (λ s. s ≡ unopened all.now capacity (unplayed fails.now)) }
    {
        let mut to_come = places_for(alloc, all)?;
        to_come.reverse();
        Ok(MemStreams {
            to_come,
            present: None,
            earlier: Vec::with_capacity(alloc, all.len())?,
            is_open: false,
            held: Vec::with_capacity(alloc, capacity)?,
            capacity,
            script: Script::new(alloc, fails)?,
        })
    }

    /// All bytes written.
    pub fn bytes(&self) -> &[u8]
        ensures { result.now ≡ self.now.all }
    {
        self.held.as_slice()
    }

    /// Whether the next call fails by the script.
    pub fn fails_next(&self) -> bool
        ensures { IsTrue result ↔ IsToFail self.now.script }
    {
        self.script.fails_next()
    }

    /// Counts a call that fails.
    pub fn fail(&mut self) -> Failed
        ensures counted { self.new ≡ record self.old { script = after_call true self.old.script } }
        ensures later { self.old.script.faults ≤ self.new.script.faults }
        ensures rose { CountRose self.old.script.faults self.new.script.faults }
    {
        self.script.fail()
    }

    /// Counts a call that goes well.
    pub fn succeed(&mut self)
        ensures { self.new ≡ record self.old { script = after_call false self.old.script } }
    {
        self.script.succeed();
    }

    /// Opens the next connection to come, and answers whether one was.
    pub fn open(&mut self, peer: &[u8]) -> bool
        requires { length peer.now ≤ 255 }
        ensures came { result ≡ not (is_none self.old.to_come) }
        ensures after { self.new ≡ after_opening peer.now self.old.to_come self.old }
    {
        let Some(mut coming) = self.to_come.pop() else {
            return false;
        };
        coming.peer.set(peer);
        if let Some(present) = self.present.take() {
            self.earlier.push_reserved(present);
        }
        self.present = Some(Visit {
            peer: coming.peer,
            bytes: coming.bytes,
            at: 0,
            from: self.held.len(),
            to: self.held.len(),
            read_failed: false,
            write_failed: false,
        });
        self.is_open = true;
        true
    }

    /// Ends the present connection.
    pub fn shut(&mut self)
        ensures { self.new ≡ record self.old { is_open = false } }
    {
        self.is_open = false;
    }

    /// Reads from the present connection.
    pub fn read(&mut self, into: &mut [u8]) -> Result<usize, Failed>
        ensures { ReadsPresent self.old self.new result into.new }
    {
        let fails = self.script.fails_next() || !self.is_open;
        match &mut self.present {
            Some(visit) => {
                if fails {
                    mark_read(visit);
                    Err(self.script.fail())
                } else {
                    self.script.succeed();
                    Ok(read_visit(visit, into))
                }
            }
            None => Err(self.script.fail()),
        }
    }

    /// Writes to the present connection.
    pub fn write(&mut self, bytes: &[u8]) -> Result<usize, Failed>
        ensures { WritesPresent self.old self.new result bytes.now }
    {
        let count = bytes.len().min(self.capacity - self.held.len());
        let is_full = count == 0 && !bytes.is_empty();
        let fails = self.script.fails_next() || !self.is_open || is_full;
        match &mut self.present {
            Some(visit) => {
                if fails {
                    mark_write(visit);
                    Err(self.script.fail())
                } else {
                    self.script.succeed();
                    visit.to += count;
                    match self.held.extend_from_slice(&bytes[..count]) {
                        Ok(()) => Ok(count),
                        Err(_) => unreachable!(),
                    }
                }
            }
            None => Err(self.script.fail()),
        }
    }
}
