//! A journal opened on a disk, which is made there where none was.
ghost use Rattle.std.specs.Prelude.{◌≡◌, ◌<◌, ◌≤◌, ◌+◌, ◌-◌, ◌^◌, [], ⊤, List as Listed, ℕ, length, IfErr, IfOk, OnOk, IsErr, Some, is_some, true, false};
ghost use Rattle.edge.specs.Disk.{KeepsImages, Room, KeepsRoom};
ghost use Rattle.journal.specs.Bytes.{StandsFor};
ghost use Rattle.journal.specs.Reads.{IsNoJournal};
ghost use Rattle.journal.specs.Lists.{EachStandsFor, Extends, IsTied};
ghost use Rattle.journal.specs.Refusals.{RefusesMaking, RefusesEpoch, RefusesStart};
ghost use Rattle.journal.specs.State.{epoch_after};

use crate::journal::Journal;
use crate::reading::load;
use crate::refusal::JournalRefusal;
use edge::Disk;
use std::alloc::{AllocError, Global};
use units::List;

const MOST: usize = (1 << 24) + 5;

const EMPTY: [u8; 17] = *b"CHARGING-JRNL-1\n\0";

// Writes an empty journal on a disk of epoch 0, and claims the first epoch.
fn make<D: Disk>(disk: &mut D) -> Result<(), JournalRefusal>
    requires { (e : ℕ) → D.told_epoch disk.old ≡ Some e → e ≡ 0 }
    ensures every_exit { Extends (D.told_epoch disk.old) (D.is_image disk.old) (D.told_epoch disk.new) (D.is_image disk.new) [] 0 }
    ensures tied { OnOk result (IsTied (record { epoch = 1; length = 17; limit = 17; is_sound = true }) (D.content disk.new) (D.told_epoch disk.new) (D.is_image disk.new) []) }
    ensures owns { OnOk result ((e : ℕ) → D.told_epoch disk.new ≡ Some e → e ≡ 1) }
    ensures refused { IfErr result (RefusesMaking (D.told_epoch disk.old) (D.faults disk.old) (D.faults disk.new)) }
    ensures tells_epoch { is_some (D.told_epoch disk.new) ≡ is_some (D.told_epoch disk.old) }
    ensures tells { is_some (D.content disk.new) ≡ is_some (D.content disk.old) }
    ensures count { D.faults disk.old ≤ D.faults disk.new }
    ensures openings { D.failed_openings disk.new ≡ D.failed_openings disk.old }
    ensures room { KeepsRoom (D.faults disk.old) (D.faults disk.new) (D.room disk.old) (D.room disk.new) (λ r. (17 ≤ r.size) × (r.ranges < 16)) 1 }
{
    disk.write(1, 0, &EMPTY)?;
    disk.sync(1)?;
    disk.claim(1)?;
    Ok(())
}

// The epoch found, or the next one, claimed.
fn own_epoch<D: Disk>(disk: &mut D, found: u64, claim: bool) -> Result<u64, JournalRefusal>
    requires found { 1 ≤ found }
    requires told { (e : ℕ) → D.told_epoch disk.old ≡ Some e → e ≡ found }
    ensures lists { (b : Listed ℕ) (list : Listed (Listed ℕ)) → StandsFor (D.told_epoch disk.old) b list → StandsFor (D.told_epoch disk.new) b list }
    ensures owns { IfOk result (λ n. (e : ℕ) → D.told_epoch disk.new ≡ Some e → e ≡ n) }
    ensures value { IfOk result (λ n. n ≡ epoch_after claim found) }
    ensures refused { IfErr result (RefusesEpoch (D.told_epoch disk.old) claim found (D.faults disk.old) (D.faults disk.new)) }
    ensures spent { 2 ^ 63 - 1 ≤ found → claim ≡ true → IsErr result }
    ensures unclaimed { claim ≡ false → D.told_epoch disk.new ≡ D.told_epoch disk.old }
    ensures tells_epoch { is_some (D.told_epoch disk.new) ≡ is_some (D.told_epoch disk.old) }
    ensures same { OnOk result (D.content disk.new ≡ D.content disk.old) }
    ensures tells { is_some (D.content disk.new) ≡ is_some (D.content disk.old) }
    ensures crash { KeepsImages (D.is_image disk.old) (D.is_image disk.new) }
    ensures count { D.faults disk.old ≤ D.faults disk.new }
    ensures openings { D.failed_openings disk.new ≡ D.failed_openings disk.old }
    ensures room { KeepsRoom (D.faults disk.old) (D.faults disk.new) (D.room disk.old) (D.room disk.new) (λ r. ⊤) 0 }
{
    if !claim {
        return Ok(found);
    }
    if found >= (1 << 63) - 1 {
        return Err(JournalRefusal::EpochsSpent);
    }
    disk.claim(found + 1)?;
    Ok(found + 1)
}

// So many zeros. A literal count would be unrolled in each goal after it.
fn zeros(alloc: Global, count: usize) -> Result<Vec<u8>, AllocError>
    ensures { IfOk result (λ v. length v.items ≡ count) }
{
    vec![in alloc; 0; count]
}

impl Journal {
    /// Starts a journal: on a disk of epoch 0 an empty one is made, whatever bytes are there.
    pub fn start<D: Disk>(
        alloc: Global,
        disk: &mut D,
        claim: bool,
        limit: u32,
    ) -> Result<(Journal, List<List<u8>>), JournalRefusal>
        requires least { 17 ≤ limit }
        requires most { limit ≤ 2 ^ 30 }

        // At every exit each image stands for a list that an image stood for.
        ensures every_exit { EachStandsFor (D.told_epoch disk.old) (D.is_image disk.old) (λ _. ⊤)
            → Extends (D.told_epoch disk.old) (D.is_image disk.old) (D.told_epoch disk.new) (D.is_image disk.new) [] 0 }

        // The list is that of the disk, and then that of each image.
        ensures list { (b : Listed ℕ) → D.content disk.old ≡ Some b → IfOk result (λ r. StandsFor (D.told_epoch disk.old) b r.1) }
        ensures firm { IfOk result (λ r. (c : Listed ℕ) → D.is_image disk.new c → StandsFor (D.told_epoch disk.new) c r.1) }
        ensures tied { IfOk result (λ r. IsTied r.0 (D.content disk.new) (D.told_epoch disk.new) (D.is_image disk.new) r.1) }

        ensures epoch { (e : ℕ) → D.told_epoch disk.old ≡ Some e → IfOk result (λ r. r.0.epoch ≡ epoch_after claim e) }
        ensures owns { IfOk result (λ r. (e : ℕ) → D.told_epoch disk.new ≡ Some e → e ≡ r.0.epoch) }
        ensures limit { IfOk result (λ r. r.0.limit ≡ limit) }
        ensures unclaimed { claim ≡ false → (e : ℕ) → D.told_epoch disk.old ≡ Some e → 1 ≤ e → D.told_epoch disk.new ≡ D.told_epoch disk.old }
        ensures sound { IfOk result (λ r. r.0.is_sound ≡ true) }

        ensures no_journal { (e at : ℕ) (b : Listed ℕ) → D.told_epoch disk.old ≡ Some e → D.content disk.old ≡ Some b → 1 ≤ e → IsNoJournal b at → IsErr result }
        ensures refused { IfErr result (RefusesStart (D.content disk.old) (D.told_epoch disk.old) claim (D.faults disk.old) (D.faults disk.new)) }
        ensures spent { (e : ℕ) → D.told_epoch disk.old ≡ Some e → 2 ^ 63 - 1 ≤ e → claim ≡ true → IsErr result }

        ensures tells_epoch { is_some (D.told_epoch disk.new) ≡ is_some (D.told_epoch disk.old) }
        ensures tells { is_some (D.content disk.new) ≡ is_some (D.content disk.old) }
        ensures count { D.faults disk.old ≤ D.faults disk.new }
        ensures openings { D.failed_openings disk.new ≡ D.failed_openings disk.old }
        ensures room { KeepsRoom (D.faults disk.old) (D.faults disk.new) (D.room disk.old) (D.room disk.new) (λ r. (17 ≤ r.size) × (r.ranges < 16)) 1 }
    {
        let buffer = zeros(alloc, MOST)?;
        let found = disk.epoch()?;
        if found == 0 {
            make(disk)?;
            return Ok((Journal::at(1, 17, limit, buffer), List::new(alloc)));
        }
        let under = own_epoch(disk, found, claim)?;
        disk.sync(under)?;
        let (list, end) = load(alloc, disk)?;
        Ok((Journal::at(under, end, limit, buffer), list))
    }
}
