//! What stands on a journal's disk: its header, and its entries one after the other.
ghost use Rattle.std.specs.Prelude.{◌≡◌, ◌↔◌, ◌<◌, ◌≤◌, ◌+◌, ◌^◌, ⊤, List as Listed, ℕ, min, length, take, drop, slice_index, IfOk, IfErr, IsTrue, OnOk, Some, is_some};
ghost use Rattle.std.specs.Int.{w32, to_be_bytes};
ghost use Rattle.edge.specs.Disk.{KeepsImages, Room, KeepsRoom};
ghost use Rattle.journal.specs.Bytes.{header};
ghost use Rattle.journal.specs.Reads.{IsHeadAt};
ghost use Rattle.journal.specs.Refusals.{RefusesReading};

use crate::refusal::JournalRefusal;
use edge::Disk;
use std::alloc::Global;
use units::List;

const HEADER: [u8; 16] = *b"CHARGING-JRNL-1\n";

/// A gate, and the length behind it of the payload, where it is there.
#[derive(Clone, Copy, Debug)]
pub struct Head {
    pub gate: u8,
    pub size: u32,
}

// Whether these bytes begin with the header.
fn has_header(bytes: &[u8]) -> bool
    ensures { IsTrue result ↔ (take 16 bytes.now ≡ header) }
{
    bytes.len() >= 16 && bytes[..16] == HEADER[..]
}

// The gate and the length that the five bytes at a place tell.
fn head_at(bytes: &[u8], at: usize) -> Head
    requires { at + 5 ≤ length bytes.now }
    ensures gate { result.gate ≡ slice_index bytes.now at }
    ensures size { to_be_bytes w32 result.size ≡ take 4 (drop (at + 1) bytes.now) }
    ensures small { result.size < 2 ^ 32 }
{
    let rest = &bytes[at + 1..];
    Head {
        gate: bytes[at],
        size: u32::from_be_bytes([rest[0], rest[1], rest[2], rest[3]]),
    }
}

/// Reads the header, of a disk of which so many bytes count, and the head behind it.
pub fn read_first<D: Disk>(disk: &mut D, end: u64) -> Result<Head, JournalRefusal>
    requires { (b : Listed ℕ) → D.content disk.old ≡ Some b → end ≡ min (length b) (2 ^ 30) }
    ensures header { (b : Listed ℕ) → D.content disk.old ≡ Some b → OnOk result (take 16 b ≡ header) }
    ensures head { (b : Listed ℕ) → D.content disk.old ≡ Some b → IfOk result (IsHeadAt b 16) }
    ensures small { IfOk result (λ h. h.size < 2 ^ 32) }
    ensures more { OnOk result (17 ≤ end) }
    ensures refused { IfErr result (RefusesReading (D.content disk.old) (D.faults disk.old) (D.faults disk.new)) }
    ensures same { OnOk result (D.content disk.new ≡ D.content disk.old) }
    ensures tells { is_some (D.content disk.new) ≡ is_some (D.content disk.old) }
    ensures epoch { D.told_epoch disk.new ≡ D.told_epoch disk.old }
    ensures crash { KeepsImages (D.is_image disk.old) (D.is_image disk.new) }
    ensures count { D.faults disk.old ≤ D.faults disk.new }
    ensures openings { D.failed_openings disk.new ≡ D.failed_openings disk.old }
    ensures room { KeepsRoom (D.faults disk.old) (D.faults disk.new) (D.room disk.old) (D.room disk.new) (λ r. ⊤) 0 }
{
    let mut bytes = [0; 21];
    disk.read(0, &mut bytes)?;
    if end < 16 || !has_header(&bytes) {
        return Err(JournalRefusal::NotAJournal { at: 0 });
    }
    if end == 16 {
        return Err(JournalRefusal::NotAJournal { at: 16 });
    }
    Ok(head_at(&bytes, 16))
}

/// Reads a payload of so many bytes at a place, and the head behind it.
pub fn read_entry<D: Disk>(
    alloc: Global,
    disk: &mut D,
    at: u64,
    size: usize,
) -> Result<(List<u8>, Head), JournalRefusal>
    requires { size < 2 ^ 32 }
    ensures payload { (b : Listed ℕ) → D.content disk.old ≡ Some b → at + size < length b → IfOk result (λ r. r.0 ≡ take size (drop at b)) }
    ensures head { (b : Listed ℕ) → D.content disk.old ≡ Some b → at + size < length b → IfOk result (λ r. IsHeadAt b (at + size) r.1) }
    ensures small { IfOk result (λ r. r.1.size < 2 ^ 32) }
    ensures all { IfOk result (λ r. length r.0 ≡ size) }
    ensures refused { IfErr result (RefusesReading (D.content disk.old) (D.faults disk.old) (D.faults disk.new)) }
    ensures same { OnOk result (D.content disk.new ≡ D.content disk.old) }
    ensures tells { is_some (D.content disk.new) ≡ is_some (D.content disk.old) }
    ensures epoch { D.told_epoch disk.new ≡ D.told_epoch disk.old }
    ensures crash { KeepsImages (D.is_image disk.old) (D.is_image disk.new) }
    ensures count { D.faults disk.old ≤ D.faults disk.new }
    ensures openings { D.failed_openings disk.new ≡ D.failed_openings disk.old }
    ensures room { KeepsRoom (D.faults disk.old) (D.faults disk.new) (D.room disk.old) (D.room disk.new) (λ r. ⊤) 0 }
{
    let mut bytes = vec![in alloc; 0; size + 5]?;
    disk.read(at, &mut bytes)?;
    let head = head_at(&bytes, size);
    bytes.truncate(size);
    Ok((List::from_vec(bytes), head))
}
