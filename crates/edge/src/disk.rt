//! A disk: what a read gives, its epoch, and what a crash may leave.
ghost use Rattle.std.specs.Prelude.{◌≡◌, ◌<◌, ◌≤◌, ◌+◌, ◌-◌, ◌^◌, ◌++◌, ◌⊎◌, ⊤, List, ℕ, length, take, drop, min, is_some, IfOk, OnOk, OnErr, IsErr, Option, None, Some};
ghost use Rattle.edge.specs.Faults.{FailsWithCause};
ghost use Rattle.edge.specs.Disk.{overwritten, Torn, EachFollows, KeepsImages, IsOnlyImage, IsFailed, IfFenced, ChangesNothing, Room, KeepsRoom};

use crate::traits::{Counted, Failed};

/// Why a disk did not do what it was asked (this product's own).
#[derive(Clone, Copy, Debug, PartialEq, Eq)]
pub enum DiskRefusal {
    /// It failed, and counted it.
    Failed,
    /// It has a greater epoch, this one.
    Fenced(u64),
}

impl From<Failed> for DiskRefusal {
    ghost use Rattle.std.specs.Prelude.{◌≡◌};
    ghost use Rattle.edge.specs.declared.disk.DiskRefusal.TheVariants.{Failed as DiskFailed};

    ghost from_gives = { λ _ e. e ≡ DiskFailed };

    fn from(_: Failed) -> Self {
        DiskRefusal::Failed
    }
}

/// A disk. It may fail at each call; a crash is a failure of that call and of all that follow.
pub trait Disk: Counted {
    /// What a read gives, where the disk tells it.
    ghost content: { Self → Option (List ℕ) };

    /// The epoch, where the disk tells it.
    ghost told_epoch: { Self → Option ℕ };

    /// What a crash at this moment may leave. A disk that does not tell its bytes has no image.
    ghost is_image: { Self → List ℕ → Type 0 };

    /// The room, where the disk tells it.
    ghost room: { Self → Option Room };

    /// How many bytes a read may give.
    fn length(&mut self) -> Result<u64, Failed>
        ensures length { (b : List ℕ) → content self.old ≡ Some b → IfOk result (λ n. n ≡ length b) }
        ensures same { OnOk result (content self.new ≡ content self.old) }
        ensures tells { is_some (content self.new) ≡ is_some (content self.old) }
        ensures epoch { told_epoch self.new ≡ told_epoch self.old }
        ensures crash { KeepsImages (is_image self.old) (is_image self.new) }
        ensures cause { FailsWithCause (Self.faults self.old) (Self.faults self.new) (IsErr result) }
        ensures openings { Self.failed_openings self.new ≡ Self.failed_openings self.old }
        ensures room { KeepsRoom (Self.faults self.old) (Self.faults self.new) (room self.old) (room self.new) (λ r. ⊤) 0 };

    /// Gives the bytes from `at` to the lesser of the buffer's end and the disk's.
    fn read(&mut self, at: u64, into: &mut [u8]) -> Result<usize, Failed>
        ensures bound { IfOk result (λ n. n ≤ length into.old) }
        ensures bytes { (b : List ℕ) → content self.old ≡ Some b
            → IfOk result (λ n. (n ≡ min (length into.old) (length b - at)) × (into.new ≡ take n (drop at b) ++ drop n into.old)) }
        ensures same { OnOk result (content self.new ≡ content self.old) }
        ensures tells { is_some (content self.new) ≡ is_some (content self.old) }
        ensures epoch { told_epoch self.new ≡ told_epoch self.old }
        ensures crash { KeepsImages (is_image self.old) (is_image self.new) }
        ensures cause { FailsWithCause (Self.faults self.old) (Self.faults self.new) (IsErr result) }
        ensures openings { Self.failed_openings self.new ≡ Self.failed_openings self.old }
        ensures room { KeepsRoom (Self.faults self.old) (Self.faults self.new) (room self.old) (room self.new) (λ r. ⊤) 0 };

    /// Writes over what is there, and past the end. Until a sync, a crash may leave any bytes in the range.
    fn write(&mut self, epoch: u64, at: u64, bytes: &[u8]) -> Result<(), DiskRefusal>
        ensures written { (b : List ℕ) → content self.old ≡ Some b → OnOk result (content self.new ≡ Some (overwritten at bytes.now b)) }
        ensures tells { is_some (content self.new) ≡ is_some (content self.old) }
        ensures epoch { told_epoch self.new ≡ told_epoch self.old }
        ensures crash { EachFollows (Torn at (length bytes.now)) (is_image self.old) (is_image self.new) }
        ensures refuses { (e : ℕ) → told_epoch self.old ≡ Some e → epoch < e
            → IsErr result × ChangesNothing (content self.old) (content self.new) (told_epoch self.old) (told_epoch self.new) (is_image self.old) (is_image self.new) }
        ensures fenced { IfFenced result (λ s. (epoch < s) × ((e : ℕ) → told_epoch self.old ≡ Some e → s ≡ e)) }
        ensures cause { FailsWithCause (Self.faults self.old) (Self.faults self.new) (IsFailed result) }
        ensures openings { Self.failed_openings self.new ≡ Self.failed_openings self.old }
        ensures room { KeepsRoom (Self.faults self.old) (Self.faults self.new) (room self.old) (room self.new)
            (λ r. (at + length bytes.now ≤ r.size) × (r.ranges < 16)) 1 };

    /// After it a crash leaves what a read gives.
    fn sync(&mut self, epoch: u64) -> Result<(), DiskRefusal>
        ensures durable { OnOk result (IsOnlyImage (content self.old) (is_image self.new)) }
        ensures same { OnOk result (content self.new ≡ content self.old) }
        ensures tells { is_some (content self.new) ≡ is_some (content self.old) }
        ensures epoch { told_epoch self.new ≡ told_epoch self.old }
        ensures crash { KeepsImages (is_image self.old) (is_image self.new) }
        ensures refuses { (e : ℕ) → told_epoch self.old ≡ Some e → epoch < e
            → IsErr result × ChangesNothing (content self.old) (content self.new) (told_epoch self.old) (told_epoch self.new) (is_image self.old) (is_image self.new) }
        ensures fenced { IfFenced result (λ s. (epoch < s) × ((e : ℕ) → told_epoch self.old ≡ Some e → s ≡ e)) }
        ensures cause { FailsWithCause (Self.faults self.old) (Self.faults self.new) (IsFailed result) }
        ensures openings { Self.failed_openings self.new ≡ Self.failed_openings self.old }
        ensures room { KeepsRoom (Self.faults self.old) (Self.faults self.new) (room self.old) (room self.new) (λ r. ⊤) 0 }
        ensures clean { OnOk result ((s : Room) → room self.new ≡ Some s → s.ranges ≡ 0) };

    /// Makes this the disk's epoch, in one step: after a failure it is made or not.
    fn claim(&mut self, epoch: u64) -> Result<(), DiskRefusal>
        requires { epoch < 2 ^ 63 }
        ensures claimed { (e : ℕ) → told_epoch self.old ≡ Some e → OnOk result ((e < epoch) × (told_epoch self.new ≡ Some epoch)) }
        ensures made_or_not { OnErr result ((told_epoch self.new ≡ told_epoch self.old)
            ⊎ ((e : ℕ) × (told_epoch self.old ≡ Some e) × (e < epoch) × (told_epoch self.new ≡ Some epoch))) }
        ensures tells_epoch { is_some (told_epoch self.new) ≡ is_some (told_epoch self.old) }
        ensures same { OnOk result (content self.new ≡ content self.old) }
        ensures tells { is_some (content self.new) ≡ is_some (content self.old) }
        ensures crash { KeepsImages (is_image self.old) (is_image self.new) }
        ensures refuses { (e : ℕ) → told_epoch self.old ≡ Some e → epoch ≤ e
            → IsErr result × ChangesNothing (content self.old) (content self.new) (told_epoch self.old) (told_epoch self.new) (is_image self.old) (is_image self.new) }
        ensures fenced { IfFenced result (λ s. (epoch ≤ s) × ((e : ℕ) → told_epoch self.old ≡ Some e → s ≡ e)) }
        ensures cause { FailsWithCause (Self.faults self.old) (Self.faults self.new) (IsFailed result) }
        ensures openings { Self.failed_openings self.new ≡ Self.failed_openings self.old }
        ensures room { KeepsRoom (Self.faults self.old) (Self.faults self.new) (room self.old) (room self.new) (λ r. ⊤) 0 };

    /// The greatest epoch that was claimed, 0 where none was.
    fn epoch(&mut self) -> Result<u64, Failed>
        ensures value { (e : ℕ) → told_epoch self.old ≡ Some e → IfOk result (λ n. n ≡ e) }
        ensures same { OnOk result (content self.new ≡ content self.old) }
        ensures tells { is_some (content self.new) ≡ is_some (content self.old) }
        ensures epoch { told_epoch self.new ≡ told_epoch self.old }
        ensures crash { KeepsImages (is_image self.old) (is_image self.new) }
        ensures cause { FailsWithCause (Self.faults self.old) (Self.faults self.new) (IsErr result) }
        ensures openings { Self.failed_openings self.new ≡ Self.failed_openings self.old }
        ensures room { KeepsRoom (Self.faults self.old) (Self.faults self.new) (room self.old) (room self.new) (λ r. ⊤) 0 };

    /// As it reads the disk is one of its images.
    ghost reads_as_image: { (d : Self) (b : List ℕ) → content d ≡ Some b → is_image d b };

    /// Where there is an image, the disk tells its epoch.
    ghost tells_with_epoch: { (d : Self) (c : List ℕ) → is_image d c → (e : ℕ) × (told_epoch d ≡ Some e) };
}
