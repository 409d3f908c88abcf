//! A link in memory.
ghost use Rattle.std.specs.Prelude.{◌≡◌, false, IfOk, OnOk, None, Some};
ghost use Rattle.edge.specs.Faults.{FailsOnlyWithFault};
ghost use Rattle.edge.specs.Openings.{HasOpened};
ghost use Rattle.edge.specs.Memory.{Plays, unplayed};
ghost use Rattle.edge.specs.MemLinks.{CannotConnect, after_connecting, asked};
ghost use Rattle.edge.specs.Visits.{ReadsPresent, WritesPresent, unopened};

use crate::link::Link;
use crate::memory_streams::MemStreams;
use crate::peer_name::{MOST_BYTES, PeerName};
use crate::traits::{Counted, Failed, Sink, Source, Stream};
use std::alloc::Global;
use std::marker::Model;
use units::{List, OutOfMemory};

/// A link in memory, each connection of which has the bytes of one reply (this product's own).
#[derive(Drop)]
pub struct MemLink {
    streams: MemStreams,
    connects: u64,
    failed_connects: u64,
    latest: PeerName,
    has_latest: bool,
}

impl Model for MemLink {
    ghost use Rattle.std.specs.Prelude.{None, Some, if◌then◌else◌};
    ghost use Rattle.edge.specs.MemLinks.{MemoryLink};

    ghost Value = { MemoryLink };

    ghost view = { λ l. record {
      streams = l.streams;
      connects = l.connects;
      failed_connects = l.failed_connects;
      latest_peer = if l.has_latest then Some l.latest else None;
    } };
}

impl MemLink {
    /// A link whose connections get these replies in turn, to which at most `capacity` bytes are written in all. The calls of
    /// `connect`, `read` and `write`, counted together from 1, whose ordinals stand in `fails` answer `Failed`, as does a
    /// `connect` past the last reply or to a peer whose name has more than 255 bytes.
    pub fn new(
        alloc: Global,
        replies: &List<List<u8>>,
        capacity: usize,
        fails: &[u32],
    ) -> Result<MemLink, OutOfMemory>
        ensures { IfOk result (λ l. l ≡ record { streams = unopened replies.now capacity (unplayed fails.now); connects = 0; failed_connects = 0; latest_peer = None }) }
    {
        Ok(MemLink {
            streams: MemStreams::new(alloc, replies, capacity, fails)?,
            connects: 0,
            failed_connects: 0,
            latest: PeerName::new(alloc)?,
            has_latest: false,
        })
    }

    /// All bytes written.
    pub fn bytes(&self) -> &[u8]
        ensures { result.now ≡ self.now.streams.all }
    {
        self.streams.bytes()
    }

    // Counts a call of connect, and keeps its peer.
    fn ask(&mut self, peer: &[u8])
        ensures { self.new ≡ asked peer.now self.old }
    {
        self.connects = self.connects.saturating_add(1);
        self.has_latest = peer.len() <= MOST_BYTES;
        if self.has_latest {
            self.latest.set(peer);
        }
    }
}

impl Counted for MemLink {
    ghost faults = { λ l. l.streams.script.faults };

    ghost failed_openings = { λ l. l.failed_connects };
}

impl Stream for MemLink {
    ghost use Rattle.std.specs.Prelude.{None, Some, refl};
    ghost use Rattle.edge.specs.Connections.{left_of, written_of};

    ghost left = { λ l. left_of l.streams.connections };

    ghost written = { λ l. written_of l.streams.connections };

    ghost connections = { λ l. Some l.streams.connections };

    ghost openings = { λ l. record { closed = None; connects = Some l.connects; latest_peer = l.latest_peer } };

    ghost present = { λ l. (refl, refl) };
}

impl Source for MemLink {
    fn read(&mut self, into: &mut [u8]) -> Result<usize, Failed>
        ensures present { ReadsPresent self.old.streams self.new.streams result into.new }
        ensures rest { self.new ≡ record self.old { streams = self.new.streams } }
    {
        self.streams.read(into)
    }
}

impl Sink for MemLink {
    fn write(&mut self, bytes: &[u8]) -> Result<usize, Failed>
        ensures present { WritesPresent self.old.streams self.new.streams result bytes.now }
        ensures rest { self.new ≡ record self.old { streams = self.new.streams } }
    {
        self.streams.write(bytes)
    }
}

impl Link for MemLink {
    /// Opens a connection with the next reply; it fails exactly where the script says so or it cannot be served.
    fn connect(&mut self, peer: &str) -> Result<(), Failed>
        ensures script { Plays self.old.streams.script self.new.streams.script (CannotConnect peer.now self.old) result }
        ensures after { self.new ≡ after_connecting result peer.now self.old }
        ensures opened { OnOk result (HasOpened peer.now (Some self.old.streams.connections) (Some self.new.streams.connections)) }
        ensures cause { FailsOnlyWithFault self.old.streams.script.faults self.new.streams.script.faults result }
        ensures failed_openings { FailsOnlyWithFault self.old.failed_connects self.new.failed_connects result }
    {
        self.ask(peer.as_bytes());
        let fails = self.streams.fails_next() || peer.len() > MOST_BYTES;
        if fails || !self.streams.open(peer.as_bytes()) {
            self.failed_connects = self.failed_connects.saturating_add(1);
            return Err(self.streams.fail());
        }
        self.streams.succeed();
        Ok(())
    }

    fn shut(&mut self)
        ensures { self.new ≡ record self.old { streams = record self.old.streams { is_open = false } } }
    {
        self.streams.shut();
    }
}
