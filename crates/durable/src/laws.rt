//! What holds of a list while others use its disk.
ghost use Rattle.std.specs.Prelude.{◌≡◌, ◌≤◌, ℕ, List, Some, is_some};
ghost use Rattle.edge.specs.Disk.{KeepsImages};
ghost use Rattle.durable.specs.Held.{IsHeld};
ghost use Rattle.durable.specs.State.{State};

use edge::Disk;

/// A law of a disk's epoch; it does nothing. A list and its disk belong together still when another claims a greater epoch,
/// or looks at the disk (this product's own).
pub fn others_may_claim<D: Disk>()
    ensures { (before after : D) (held : State) (list : List (List ℕ))
        → IsHeld held (D.content before) (D.told_epoch before) (D.is_image before) list
        → D.content after ≡ D.content before → KeepsImages (D.is_image before) (D.is_image after)
        → is_some (D.told_epoch after) ≡ is_some (D.told_epoch before)
        → ((e : ℕ) → D.told_epoch before ≡ Some e → (later : ℕ) × (D.told_epoch after ≡ Some later) × (e ≤ later))
        → IsHeld held (D.content after) (D.told_epoch after) (D.is_image after) list }
{}
