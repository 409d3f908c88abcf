//! How a payload is added to a list of entries.
ghost use Rattle.std.specs.Prelude.{◌≡◌, ◌<◌, ◌≤◌, ◌+◌, ◌^◌, ◌++◌, ◌∷◌, [], ℕ, List as Listed, length, IfErr, OnOk, OnErr, IsErr, Err, Some, None, is_some, true};
ghost use Rattle.edge.specs.Disk.{KeepsRoom};
ghost use Rattle.journal.specs.Lists.{Grows, MayAdd};
ghost use Rattle.journal.specs.State.{State as Journaled, grown};
ghost use Rattle.durable.specs.Held.{IsHeld};
ghost use Rattle.chf_store.specs.Refusals.{RefusesKeeping};

use crate::refusal::{StoreRefusal, handed_on};
use durable::DurableList;
use edge::Disk;

/// The most bytes of an entry.
const MOST: usize = 1 << 24;

// Adds a payload of at most 2^24 bytes to a list that is open.
fn add_small<D: Disk>(
    list: &mut DurableList,
    disk: &mut D,
    payload: &[u8],
) -> Result<(), StoreRefusal>
    requires any { 1 ≤ length payload.now }
    requires small { length payload.now ≤ 2 ^ 24 }
    requires open { is_some list.old.journal ≡ true }
    requires held { (entries : Listed (Listed ℕ)) × IsHeld list.old (D.content disk.old) (D.told_epoch disk.old) (D.is_image disk.old) entries }
    ensures grows { (entries : Listed (Listed ℕ)) → IsHeld list.old (D.content disk.old) (D.told_epoch disk.old) (D.is_image disk.old) entries → Grows (D.told_epoch disk.old) (D.is_image disk.old) (D.told_epoch disk.new) (D.is_image disk.new) (MayAdd entries payload.now) }
    ensures added { (entries : Listed (Listed ℕ)) → IsHeld list.old (D.content disk.old) (D.told_epoch disk.old) (D.is_image disk.old) entries → OnOk result (IsHeld list.new (D.content disk.new) (D.told_epoch disk.new) (D.is_image disk.new) (entries ++ payload.now ∷ [])) }
    ensures kept { (entries : Listed (Listed ℕ)) → IsHeld list.old (D.content disk.old) (D.told_epoch disk.old) (D.is_image disk.old) entries → OnErr result (IsHeld list.new (D.content disk.new) (D.told_epoch disk.new) (D.is_image disk.new) entries) }
    ensures grown { (journal : Journaled) → list.old.journal ≡ Some journal → OnOk result (list.new ≡ record list.old { journal = Some (grown journal (length payload.now + 5)) }) }
    ensures full { (journal : Journaled) → list.old.journal ≡ Some journal → journal.limit < journal.length + (length payload.now + 5)
        → result ≡ Err (StoreRefusal.Full journal.length (length payload.now + 5)) }
    ensures fenced { (journal : Journaled) (e : ℕ) → list.old.journal ≡ Some journal → D.told_epoch disk.old ≡ Some e → journal.epoch < e → IsErr result }
    ensures refused { IfErr result (RefusesKeeping (D.told_epoch disk.old) (D.faults disk.old) (D.faults disk.new) list.old list.new disk.old disk.new payload.now) }
    ensures epoch { D.told_epoch disk.new ≡ D.told_epoch disk.old }
    ensures tells { is_some (D.content disk.new) ≡ is_some (D.content disk.old) }
    ensures count { D.faults disk.old ≤ D.faults disk.new }
    ensures openings { D.failed_openings disk.new ≡ D.failed_openings disk.old }
    ensures room { KeepsRoom (D.faults disk.old) (D.faults disk.new) (D.room disk.old) (D.room disk.new) (λ r. (list.old.limit ≤ r.size) × (r.ranges < 16)) 1 }
{
    match list.append(disk, payload) {
        Ok(()) => Ok(()),
        Err(refusal) => Err(handed_on(refusal)),
    }
}

/// Adds a payload to a list of entries; nothing where the list is not open, or the payload has more than 2^24 bytes.
pub(crate) fn add<D: Disk>(
    list: &mut DurableList,
    disk: &mut D,
    payload: &[u8],
) -> Result<(), StoreRefusal>
    requires any { 1 ≤ length payload.now }
    requires held { (entries : Listed (Listed ℕ)) × IsHeld list.old (D.content disk.old) (D.told_epoch disk.old) (D.is_image disk.old) entries }
    ensures grows { (entries : Listed (Listed ℕ)) → IsHeld list.old (D.content disk.old) (D.told_epoch disk.old) (D.is_image disk.old) entries → Grows (D.told_epoch disk.old) (D.is_image disk.old) (D.told_epoch disk.new) (D.is_image disk.new) (MayAdd entries payload.now) }
    ensures added { (entries : Listed (Listed ℕ)) → IsHeld list.old (D.content disk.old) (D.told_epoch disk.old) (D.is_image disk.old) entries → OnOk result (IsHeld list.new (D.content disk.new) (D.told_epoch disk.new) (D.is_image disk.new) (entries ++ payload.now ∷ [])) }
    ensures kept { (entries : Listed (Listed ℕ)) → IsHeld list.old (D.content disk.old) (D.told_epoch disk.old) (D.is_image disk.old) entries → OnErr result (IsHeld list.new (D.content disk.new) (D.told_epoch disk.new) (D.is_image disk.new) entries) }
    ensures grown { (journal : Journaled) → list.old.journal ≡ Some journal → OnOk result (list.new ≡ record list.old { journal = Some (grown journal (length payload.now + 5)) }) }
    ensures closed { list.old.journal ≡ None → result ≡ Err StoreRefusal.Closed }
    ensures long { (journal : Journaled) → list.old.journal ≡ Some journal → 2 ^ 24 < length payload.now → result ≡ Err (StoreRefusal.TooLong (length payload.now)) }
    ensures full { (journal : Journaled) → list.old.journal ≡ Some journal → length payload.now ≤ 2 ^ 24 → journal.limit < journal.length + (length payload.now + 5)
        → result ≡ Err (StoreRefusal.Full journal.length (length payload.now + 5)) }
    ensures fenced { (journal : Journaled) (e : ℕ) → list.old.journal ≡ Some journal → D.told_epoch disk.old ≡ Some e → journal.epoch < e → IsErr result }
    ensures refused { IfErr result (RefusesKeeping (D.told_epoch disk.old) (D.faults disk.old) (D.faults disk.new) list.old list.new disk.old disk.new payload.now) }
    ensures epoch { D.told_epoch disk.new ≡ D.told_epoch disk.old }
    ensures tells { is_some (D.content disk.new) ≡ is_some (D.content disk.old) }
    ensures count { D.faults disk.old ≤ D.faults disk.new }
    ensures openings { D.failed_openings disk.new ≡ D.failed_openings disk.old }
    ensures room { KeepsRoom (D.faults disk.old) (D.faults disk.new) (D.room disk.old) (D.room disk.new) (λ r. (list.old.limit ≤ r.size) × (r.ranges < 16)) 1 }
{
    if !list.is_open() {
        return Err(StoreRefusal::Closed);
    }
    let count = payload.len();
    if count > MOST {
        return Err(StoreRefusal::TooLong { count });
    }
    add_small(list, disk, payload)
}
