//! Why a journal did not do what it was asked.

use edge::{DiskRefusal, Failed};
use std::alloc::AllocError;

/// Why a journal refused (this product's own).
#[derive(Clone, Copy, Debug, PartialEq, Eq)]
pub enum JournalRefusal {
    /// The disk failed.
    Fault,
    /// The disk has a greater epoch, this one.
    Fenced(u64),
    /// The entry needs more bytes than the limit leaves.
    Full { len: u64, need: u64 },
    /// The bytes are no journal, from this one on.
    NotAJournal { at: u64 },
    /// No greater epoch is left to claim.
    EpochsSpent,
    /// Memory was wanting.
    OutOfMemory,
}

impl From<DiskRefusal> for JournalRefusal {
    ghost use Rattle.std.specs.Prelude.{◌≡◌};
    ghost use Rattle.journal.specs.Refusals.{handed_on};

    ghost from_gives = { λ r e. e ≡ handed_on r };

    fn from(refusal: DiskRefusal) -> Self {
        match refusal {
            DiskRefusal::Failed => JournalRefusal::Fault,
            DiskRefusal::Fenced(e) => JournalRefusal::Fenced(e),
        }
    }
}

impl From<Failed> for JournalRefusal {
    ghost use Rattle.std.specs.Prelude.{◌≡◌};
    ghost use Rattle.journal.specs.declared.refusal.JournalRefusal.TheVariants.{Fault};

    ghost from_gives = { λ _ e. e ≡ Fault };

    fn from(_: Failed) -> Self {
        JournalRefusal::Fault
    }
}

impl From<AllocError> for JournalRefusal {
    ghost use Rattle.std.specs.Prelude.{◌≡◌};
    ghost use Rattle.journal.specs.declared.refusal.JournalRefusal.TheVariants.{OutOfMemory};

    ghost from_gives = { λ _ e. e ≡ OutOfMemory };

    fn from(_: AllocError) -> Self {
        JournalRefusal::OutOfMemory
    }
}
