//! Bytes in memory as a source.
ghost use Rattle.std.specs.Prelude.{◌≡◌, length, take, min, IfOk, Some, None};
ghost use Rattle.std.specs.Io.{ReadsAtMost};
ghost use Rattle.std.specs.Io.KnownBytes.{ReadConsumes};
ghost use Rattle.edge.specs.Faults.{FailsOnlyWithFault};
ghost use Rattle.edge.specs.Connections.{untold};
ghost use Rattle.edge.specs.Memory.{Plays, unplayed};

use crate::script::Script;
use crate::traits::{Counted, Failed, Source, Stream};
use std::alloc::Global;
use std::marker::Model;
use units::OutOfMemory;

/// Bytes in memory, with a script of the calls that fail (this product's own).
#[derive(Drop)]
pub struct MemSource {
    bytes: Vec<u8>,
    at: usize,
    script: Script,
}

impl Model for MemSource {
    ghost use Rattle.std.specs.Prelude.{drop, ◌≤◌, vec_len};
    ghost use Rattle.edge.specs.Memory.{MemoryInput};

    ghost Value = { MemoryInput };

    ghost view = { λ s. record { left = drop s.at s.bytes.items; script = s.script } };

    ghost invariant = { λ s. s.at ≤ vec_len s.bytes };
}

impl MemSource {
    /// A source of these bytes; the calls whose ordinals from 1 stand in `fails` answer `Failed`.
    pub fn new(alloc: Global, bytes: &[u8], fails: &[u32]) -> Result<MemSource, OutOfMemory>
        ensures { IfOk result (λ s. s ≡ record { left = bytes.now; script = unplayed fails.now }) }
    {
        Ok(MemSource {
            bytes: Vec::from_slice(alloc, bytes)?,
            at: 0,
            script: Script::new(alloc, fails)?,
        })
    }
}

impl Counted for MemSource {
    ghost faults = { λ s. s.script.faults };

    ghost failed_openings = { λ _. 0 };
}

impl Stream for MemSource {
    ghost left = { λ s. Some s.left };

    ghost written = { λ _. None };

    ghost connections = { λ _. None };

    ghost openings = { λ _. untold };

    ghost present = { λ _. tt };
}

impl Source for MemSource {
    /// Reads as much as there is and fits; it fails exactly where the script says so.
    fn read(&mut self, into: &mut [u8]) -> Result<usize, Failed>
        ensures bound { ReadsAtMost result into.new }
        ensures bytes { ReadConsumes (Some self.old.left) (Some self.new.left) result into.new }
        ensures cause { FailsOnlyWithFault self.old.script.faults self.new.script.faults result }
        ensures whole { IfOk result (λ n. n ≡ min (length self.old.left) (length into.new)) }
        ensures script { Plays self.old.script self.new.script ⊥ result }
    {
        if self.script.fails_next() {
            return Err(self.script.fail());
        }
        self.script.succeed();
        let (_, rest) = self.bytes.split_at(self.at);
        let count = copy_front(rest, into);
        self.at += count;
        Ok(count)
    }
}

/// Copies as many bytes as there are in both.
pub fn copy_front(from: &[u8], into: &mut [u8]) -> usize
    ensures count { result ≡ min (length from.now) (length into.old) }
    ensures bytes { take result into.new ≡ take result from.now }
{
    let count = into.len().min(from.len());
    let (front, _) = into.split_at_mut(count);
    let (bytes, _) = from.split_at(count);
    front.copy_from_slice(bytes);
    count
}
