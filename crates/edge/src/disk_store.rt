//! The bytes of a disk in memory, in a buffer that is taken once, with the ranges written since the last sync.
ghost use Rattle.std.specs.Prelude.{◌≡◌, ◌<◌, ◌≤◌, ◌+◌, ◌-◌, ◌++◌, ◌⊎◌, ◌↔◌, [], ◌∷◌, ℕ, length, take, drop, replicate, max, get_or, IfOk, IsTrue, true};
ghost use Rattle.edge.specs.Disk.{overwritten};
ghost use Rattle.edge.specs.Stored.{filled_byte};

use std::alloc::{AllocError, Global};
use std::marker::Model;

/// A written range.
#[derive(Clone, Copy)]
pub struct Span {
    pub at: usize,
    pub size: usize,
}

// Zeros from the end of the bytes in use to a place.
fn fill_gap(buffer: &mut [u8], len: usize, at: usize)
    requires len { len ≤ length buffer.old }
    requires at { at ≤ length buffer.old }
    ensures { take (max len at) buffer.new ≡ take len buffer.old ++ replicate (at - len) 0 }
{
    if len < at {
        buffer[len..at].fill(0);
    }
}

// Writes over a part.
fn splice(buffer: &mut [u8], at: usize, bytes: &[u8])
    requires { at + length bytes.now ≤ length buffer.old }
    ensures { buffer.new ≡ take at buffer.old ++ bytes.now ++ drop (at + length bytes.now) buffer.old }
{
    buffer[at..at + bytes.len()].copy_from_slice(bytes);
}

// Writes into the first bytes, a gap as zeros.
fn put(buffer: &mut [u8], len: usize, at: usize, bytes: &[u8])
    requires len { len ≤ length buffer.old }
    requires room { at + length bytes.now ≤ length buffer.old }
    ensures { take (max len (at + length bytes.now)) buffer.new ≡ overwritten at bytes.now (take len buffer.old) }
{
    fill_gap(buffer, len, at);
    splice(buffer, at, bytes);
}

// Writes a fill over a range, repeated from its start; an empty one changes nothing.
fn fill_span(bytes: &mut [u8], span: Span, fill: &[u8])
    ensures { (k : ℕ) → k < length bytes.new → get_or bytes.new k 0 ≡ filled_byte fill.now (span ∷ []) k (get_or bytes.old k 0) }
{
    if fill.is_empty() {
        return;
    }
    if span.at >= bytes.len() {
        return;
    }
    let end = span.at + span.size.min(bytes.len() - span.at);
    for k in span.at..end {
        bytes[k] = fill[(k - span.at) % fill.len()];
    }
}

// Writes a fill over the ranges, one after the other.
fn fill_spans(bytes: &mut [u8], spans: &[Span], fill: &[u8])
    ensures { (k : ℕ) → k < length bytes.new → get_or bytes.new k 0 ≡ filled_byte fill.now spans.now k (get_or bytes.old k 0) }
{
    for span in spans {
        fill_span(bytes, *span, fill);
    }
}

/// Bytes in a buffer that is taken once, how many there were at the last sync, and the ranges written since.
#[derive(Drop)]
pub struct Store {
    buffer: Vec<u8>,
    len: usize,
    durable: usize,
    kept: [Span; 16],
    count: usize,
}

impl Model for Store {
    ghost use Rattle.std.specs.Prelude.{◌≡◌, ◌≤◌, length, take};
    ghost use Rattle.edge.specs.Stored.{Stored};

    ghost Value = { Stored };

    ghost view = { λ s. record { bytes = take s.len s.buffer.items; synced = s.durable; spans = take s.count s.kept; size = length s.buffer.items } };

    ghost invariant = { λ s. (s.len ≤ length s.buffer.items) × (s.durable ≤ s.len) × (s.count ≤ 16) × (length s.kept ≡ 16) };
}

impl Store {
    ghost use Rattle.edge.specs.Stored.{IsSettled, has_span, synced, with_span, written};

    /// No byte, and room for so many.
    pub fn new(alloc: Global, capacity: usize) -> Result<Store, AllocError>
        ensures { IfOk result (λ s. s ≡ record { bytes = []; synced = 0; spans = []; size = capacity }) }
    {
        Ok(Store {
            buffer: vec![in alloc; 0; capacity]?,
            len: 0,
            durable: 0,
            kept: [Span { at: 0, size: 0 }; 16],
            count: 0,
        })
    }

    /// The bytes as they are now.
    pub fn bytes(&self) -> &[u8]
        ensures value { result.now ≡ self.now.bytes }
        ensures synced { self.now.synced ≤ length self.now.bytes }
    {
        &self.buffer[..self.len]
    }

    /// How many bytes there is room for.
    pub fn size(&self) -> usize
        ensures { result ≡ self.now.size }
    {
        self.buffer.len()
    }

    // How many ranges there are, 16 at most.
    fn ranges(&self) -> usize
        ensures value { result ≡ length self.now.spans }
        ensures most { result ≤ 16 }
    {
        self.count
    }

    // Whether this range was written since the last sync.
    fn has(&self, at: usize, size: usize) -> bool
        ensures { result ≡ has_span at size self.now.spans }
    {
        self.kept[..self.count]
            .iter()
            .any(|span| span.at == at && span.size == size)
    }

    /// Whether there is room for such a write, and a place for its range.
    pub fn fits(&self, at: u64, size: usize) -> bool
        ensures { IsTrue result ↔ ((at + size ≤ self.now.size) × ((has_span at size self.now.spans ≡ true) ⊎ (length self.now.spans < 16))) }
    {
        let room = self.size() as u64;
        at <= room
            && size as u64 <= room - at
            && (self.ranges() < 16 || self.has(at as usize, size))
    }

    // Keeps a range.
    fn keep(&mut self, at: usize, size: usize)
        requires { (has_span at size self.old.spans ≡ true) ⊎ (length self.old.spans < 16) }
        ensures { self.new ≡ record { bytes = self.old.bytes; synced = self.old.synced; spans = with_span at size self.old.spans; size = self.old.size } }
    {
        if self.has(at, size) {
            return;
        }
        self.kept[self.count] = Span { at, size };
        self.count += 1;
    }

    /// Writes, and keeps the range.
    pub fn write(&mut self, at: usize, bytes: &[u8])
        requires room { at + length bytes.now ≤ self.old.size }
        requires place { (has_span at (length bytes.now) self.old.spans ≡ true) ⊎ (length self.old.spans < 16) }
        ensures { self.new ≡ written at bytes.now self.old }
    {
        put(&mut self.buffer, self.len, at, bytes);
        self.len = self.len.max(at + bytes.len());
        self.keep(at, bytes.len());
    }

    /// All is on the disk.
    pub fn sync(&mut self)
        ensures { self.new ≡ synced self.old }
    {
        self.durable = self.len;
        self.count = 0;
    }

    /// A crash: the ranges hold the fill, and all is on the disk.
    pub fn settle(&mut self, fill: &[u8])
        ensures { IsSettled fill.now self.old self.new }
    {
        fill_spans(&mut self.buffer, &self.kept[..self.count], fill);
        self.durable = self.len;
        self.count = 0;
    }
}
