//! A door in memory.
ghost use Rattle.std.specs.Prelude.{◌≡◌, [], false, true, not, IfOk, Ok, Some};
ghost use Rattle.edge.specs.Faults.{FailsOnlyWithFault};
ghost use Rattle.edge.specs.Openings.{HasOpened};
ghost use Rattle.edge.specs.Memory.{Plays, unplayed};
ghost use Rattle.edge.specs.MemDoors.{after_accept};
ghost use Rattle.edge.specs.Visits.{ReadsPresent, WritesPresent, is_none, unopened};

use crate::door::Door;
use crate::memory_streams::MemStreams;
use crate::traits::{Counted, Failed, Sink, Source, Stream};
use std::alloc::Global;
use std::marker::Model;
use units::{List, OutOfMemory};

/// A door in memory, at which connections come one after another; it is closed after the last (this product's own).
#[derive(Drop)]
pub struct MemDoor {
    streams: MemStreams,
    failed_accepts: u64,
}

impl Model for MemDoor {
    ghost use Rattle.edge.specs.MemDoors.{MemoryDoor};

    ghost Value = { MemoryDoor };

    ghost view = { λ d. record { streams = d.streams; failed_accepts = d.failed_accepts } };
}

impl MemDoor {
    /// A door at which connections with these bytes come, to which at most `capacity` bytes are written in all. The calls of
    /// `accept`, `read` and `write`, counted together from 1, whose ordinals stand in `fails` answer `Failed`.
    pub fn new(
        alloc: Global,
        connections: &List<List<u8>>,
        capacity: usize,
        fails: &[u32],
    ) -> Result<MemDoor, OutOfMemory>
        ensures { IfOk result (λ d. d ≡ record { streams = unopened connections.now capacity (unplayed fails.now); failed_accepts = 0 }) }
    {
        Ok(MemDoor {
            streams: MemStreams::new(alloc, connections, capacity, fails)?,
            failed_accepts: 0,
        })
    }

    /// All bytes written.
    pub fn bytes(&self) -> &[u8]
        ensures { result.now ≡ self.now.streams.all }
    {
        self.streams.bytes()
    }
}

impl Counted for MemDoor {
    ghost faults = { λ d. d.streams.script.faults };

    ghost failed_openings = { λ d. d.failed_accepts };
}

impl Stream for MemDoor {
    ghost use Rattle.std.specs.Prelude.{None, Some, refl};
    ghost use Rattle.edge.specs.Connections.{left_of, written_of};
    ghost use Rattle.edge.specs.Visits.{is_none};

    ghost left = { λ d. left_of d.streams.connections };

    ghost written = { λ d. written_of d.streams.connections };

    ghost connections = { λ d. Some d.streams.connections };

    ghost openings = { λ d. record { closed = Some (is_none d.streams.to_come); connects = None; latest_peer = None } };

    ghost present = { λ d. (refl, refl) };
}

impl Source for MemDoor {
    fn read(&mut self, into: &mut [u8]) -> Result<usize, Failed>
        ensures present { ReadsPresent self.old.streams self.new.streams result into.new }
        ensures rest { self.new ≡ record self.old { streams = self.new.streams } }
    {
        self.streams.read(into)
    }
}

impl Sink for MemDoor {
    fn write(&mut self, bytes: &[u8]) -> Result<usize, Failed>
        ensures present { WritesPresent self.old.streams self.new.streams result bytes.now }
        ensures rest { self.new ≡ record self.old { streams = self.new.streams } }
    {
        self.streams.write(bytes)
    }
}

impl Door for MemDoor {
    /// Lets the next connection in, if one is to come; it fails exactly where the script says so.
    fn accept(&mut self) -> Result<bool, Failed>
        ensures came { IfOk result (λ came. came ≡ not (is_none self.old.streams.to_come)) }
        ensures script { Plays self.old.streams.script self.new.streams.script ⊥ result }
        ensures after { self.new ≡ after_accept result self.old }
        ensures opened { result ≡ Ok true → HasOpened [] (Some self.old.streams.connections) (Some self.new.streams.connections) }
        ensures cause { FailsOnlyWithFault self.old.streams.script.faults self.new.streams.script.faults result }
        ensures failed_openings { FailsOnlyWithFault self.old.failed_accepts self.new.failed_accepts result }
    {
        if self.streams.fails_next() {
            self.failed_accepts = self.failed_accepts.saturating_add(1);
            return Err(self.streams.fail());
        }
        self.streams.succeed();
        Ok(self.streams.open(&[]))
    }

    fn shut(&mut self)
        ensures { self.new ≡ record self.old { streams = record self.old.streams { is_open = false } } }
    {
        self.streams.shut();
    }
}
