//! The payloads that a disk stands for.
ghost use Rattle.std.specs.Prelude.{◌≡◌, ◌<◌, ◌≤◌, ◌+◌, ◌^◌, [], ⊤, List as Listed, ℕ, length, IfErr, IfOk, OnOk, IsErr, Some, is_some};
ghost use Rattle.edge.specs.Disk.{KeepsImages, Room, KeepsRoom};
ghost use Rattle.journal.specs.Bytes.{front, Spells, StandsFor};
ghost use Rattle.journal.specs.Reads.{IsNoJournal};
ghost use Rattle.journal.specs.Lists.{EachStandsFor, Extends};
ghost use Rattle.journal.specs.Refusals.{RefusesReading, RefusesView};

use crate::entries::{read_entry, read_first};
use crate::refusal::JournalRefusal;
use edge::Disk;
use std::alloc::Global;
use units::List;

// Reads the payloads, of which the bytes are on the disk, and where the closed gate ends. Each goes from the disk into its own
// list, so that nothing is held twice.
pub(crate) fn load<D: Disk>(
    alloc: Global,
    disk: &mut D,
) -> Result<(List<List<u8>>, u64), JournalRefusal>
    ensures list { (b : Listed ℕ) → D.content disk.old ≡ Some b → IfOk result (λ r. Spells b r.0) }
    ensures end { IfOk result (λ r. length (front r.0) + 1 ≡ r.1) }
    ensures most { IfOk result (λ r. r.1 ≤ 2 ^ 30) }
    ensures refused { IfErr result (RefusesReading (D.content disk.old) (D.faults disk.old) (D.faults disk.new)) }
    ensures same { OnOk result (D.content disk.new ≡ D.content disk.old) }
    ensures tells { is_some (D.content disk.new) ≡ is_some (D.content disk.old) }
    ensures epoch { D.told_epoch disk.new ≡ D.told_epoch disk.old }
    ensures crash { KeepsImages (D.is_image disk.old) (D.is_image disk.new) }
    ensures count { D.faults disk.old ≤ D.faults disk.new }
    ensures openings { D.failed_openings disk.new ≡ D.failed_openings disk.old }
    ensures room { KeepsRoom (D.faults disk.old) (D.faults disk.new) (D.room disk.old) (D.room disk.new) (λ r. ⊤) 0 }
{
    let end = disk.length()?.min(1 << 30);
    let mut head = read_first(disk, end)?;
    let mut list = List::new(alloc);
    let mut at = 16;
    while head.gate == 1 {
        let size = u64::from(head.size);
        if end < at + 6 + size {
            return Err(JournalRefusal::NotAJournal { at });
        }
        let (payload, next) = read_entry(alloc, disk, at + 5, size as usize)?;
        list.push(payload)?;
        at += 5 + size;
        head = next;
    }
    Ok((list, at + 1))
}

/// The payloads that the disk stands for. It writes and claims nothing.
pub fn view<D: Disk>(alloc: Global, disk: &mut D) -> Result<List<List<u8>>, JournalRefusal>
    // At every exit each image stands for a list that an image stood for.
    ensures every_exit { EachStandsFor (D.told_epoch disk.old) (D.is_image disk.old) (λ _. ⊤)
        → Extends (D.told_epoch disk.old) (D.is_image disk.old) (D.told_epoch disk.new) (D.is_image disk.new) [] 0 }

    // The list is that of the disk, and then that of each image.
    ensures list { (b : Listed ℕ) → D.content disk.old ≡ Some b → IfOk result (λ list. StandsFor (D.told_epoch disk.old) b list) }
    ensures firm { IfOk result (λ list. (c : Listed ℕ) → D.is_image disk.new c → StandsFor (D.told_epoch disk.new) c list) }

    ensures no_journal { (e at : ℕ) (b : Listed ℕ) → D.told_epoch disk.old ≡ Some e → D.content disk.old ≡ Some b → 1 ≤ e → IsNoJournal b at → IsErr result }
    ensures refused { IfErr result (RefusesView (D.content disk.old) (D.told_epoch disk.old) (D.faults disk.old) (D.faults disk.new)) }

    ensures same { OnOk result (D.content disk.new ≡ D.content disk.old) }
    ensures tells { is_some (D.content disk.new) ≡ is_some (D.content disk.old) }
    ensures epoch { D.told_epoch disk.new ≡ D.told_epoch disk.old }
    ensures count { D.faults disk.old ≤ D.faults disk.new }
    ensures openings { D.failed_openings disk.new ≡ D.failed_openings disk.old }
    ensures room { KeepsRoom (D.faults disk.old) (D.faults disk.new) (D.room disk.old) (D.room disk.new) (λ r. ⊤) 0 }
{
    let epoch = disk.epoch()?;
    disk.sync(epoch)?;
    if epoch == 0 {
        return Ok(List::new(alloc));
    }
    let (list, _) = load(alloc, disk)?;
    Ok(list)
}
