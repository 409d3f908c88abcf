//! The bytes that were read of a connection and not yet used, in one buffer that is taken once.
ghost use Rattle.std.specs.Prelude.{◌≡◌, ◌≢◌, ◌+◌, ◌-◌, ◌<◌, ◌≤◌, [], Ok, true, false, drop, length, option_map, take, IfOk};
ghost use Rattle.std.specs.Io.KnownBytes.{IsAtEnd, ReadConsumes};
ghost use Rattle.edge.specs.Connections.{after_read, bytes_read, has_failed};
ghost use Rattle.edge.specs.Faults.{FailsOnlyWithFault};
ghost use Rattle.wire.specs.Held.{HasTaken};

use edge::{Failed, Source};
use std::alloc::Global;
use std::marker::Model;
use units::OutOfMemory;

/// A whole head and a whole body: 16 KiB and 1 MiB.
const CAPACITY: usize = 16384 + 1048576;

/// Bytes are moved to the front where fewer places than this are left for a read.
const LEAST_READ: usize = 16384;

/// Bytes that are added at the end and taken at the front.
#[derive(Drop)]
pub struct Buffer {
    bytes: Vec<u8>,
    from: usize,
    to: usize,
}

impl Model for Buffer {
    ghost use Rattle.std.specs.Prelude.{◌+◌, ◌-◌, ◌≤◌, ◌≡◌, drop, take, vec_len};
    ghost use Rattle.wire.specs.Buffers.{Buffered};

    ghost Value = { Buffered };

    ghost view = { λ b. record { held = take (b.to - b.from) (drop b.from b.bytes.items); room = vec_len b.bytes - b.to } };

    ghost invariant = { λ b. (b.from ≤ b.to) × (b.to ≤ vec_len b.bytes) × (vec_len b.bytes ≡ 16384 + 1048576) };
}

// Moves the bytes from one place to another to the front.
fn move_front(bytes: &mut [u8], from: usize, to: usize)
    requires ordered { from ≤ to }
    requires within { to ≤ length bytes.old }
    ensures { take (to - from) bytes.new ≡ take (to - from) (drop from bytes.old) }
{
    bytes.copy_within(from..to, 0);
}

// Reads once into the bytes from a place on.
fn read_at<S: Source>(bytes: &mut Vec<u8>, at: usize, source: &mut S) -> Result<usize, Failed>
    requires { at < length bytes.old.items }
    ensures bound { IfOk result (λ count. at + count ≤ length bytes.new.items) }
    ensures length { length bytes.new.items ≡ length bytes.old.items }
    ensures before { take at bytes.new.items ≡ take at bytes.old.items }
    ensures came { ReadConsumes (S.left source.old) (S.left source.new) result (drop at bytes.new.items) }
    ensures connections { S.connections source.new ≡ option_map (after_read (bytes_read result (drop at bytes.new.items)) (has_failed result)) (S.connections source.old) }
    ensures cause { FailsOnlyWithFault (S.faults source.old) (S.faults source.new) result }
    ensures written { S.written source.new ≡ S.written source.old }
    ensures openings { S.openings source.new ≡ S.openings source.old }
    ensures failed_openings { S.failed_openings source.new ≡ S.failed_openings source.old }
{
    source.read(&mut bytes[at..])
}

impl Buffer {
    /// No bytes yet; the buffer takes all its memory.
    pub fn new(alloc: Global) -> Result<Buffer, OutOfMemory>
        ensures { IfOk result (λ buffer. buffer.held ≡ []) }
    {
        Ok(Buffer {
            bytes: vec![in alloc; 0u8; CAPACITY]?,
            from: 0,
            to: 0,
        })
    }

    /// The bytes.
    pub fn bytes(&self) -> &[u8]
        ensures { result.now ≡ self.now.held }
    {
        &self.bytes[self.from..self.to]
    }

    /// Takes bytes off at the front.
    pub fn drop_front(&mut self, size: usize)
        requires { size ≤ length self.old.held }
        ensures { self.new.held ≡ drop size self.old.held }
    {
        self.from += size;
    }

    // Makes a place for one byte more at least.
    fn make_place(&mut self)
        requires { length self.old.held < 16384 + 1048576 }
        ensures same { self.new.held ≡ self.old.held }
        ensures place { 0 < self.new.room }
    {
        if self.from == self.to {
            self.from = 0;
            self.to = 0;
        } else if self.from > 0 && self.bytes.len() - self.to < LEAST_READ {
            move_front(&mut self.bytes, self.from, self.to);
            self.to -= self.from;
            self.from = 0;
        }
    }

    // Reads once into the places that there are.
    fn read_on<S: Source>(&mut self, source: &mut S) -> Result<bool, Failed>
        requires { 0 < self.old.room }
        ensures took { HasTaken (has_failed result) self.old.held self.new.held (S.left source.old) (S.left source.new) (S.connections source.old) (S.connections source.new) }
        ensures more { result ≡ Ok true → length self.old.held < length self.new.held }
        ensures end { result ≡ Ok false → IsAtEnd (S.left source.new) }
        ensures same { result ≢ Ok true → self.new.held ≡ self.old.held }
        ensures cause { FailsOnlyWithFault (S.faults source.old) (S.faults source.new) result }
        ensures written { S.written source.new ≡ S.written source.old }
        ensures openings { S.openings source.new ≡ S.openings source.old }
        ensures failed_openings { S.failed_openings source.new ≡ S.failed_openings source.old }
    {
        let count = read_at(&mut self.bytes, self.to, source)?;
        self.to += count;
        Ok(count > 0)
    }

    /// Reads once; answers whether bytes came.
    pub fn read<S: Source>(&mut self, source: &mut S) -> Result<bool, Failed>
        requires { length self.old.held < 16384 + 1048576 }
        ensures took { HasTaken (has_failed result) self.old.held self.new.held (S.left source.old) (S.left source.new) (S.connections source.old) (S.connections source.new) }
        ensures more { result ≡ Ok true → length self.old.held < length self.new.held }
        ensures end { result ≡ Ok false → IsAtEnd (S.left source.new) }
        ensures same { result ≢ Ok true → self.new.held ≡ self.old.held }
        ensures cause { FailsOnlyWithFault (S.faults source.old) (S.faults source.new) result }
        ensures written { S.written source.new ≡ S.written source.old }
        ensures openings { S.openings source.new ≡ S.openings source.old }
        ensures failed_openings { S.failed_openings source.new ≡ S.failed_openings source.old }
    {
        self.make_place();
        self.read_on(source)
    }
}
