//! Why a store did not do what it was asked.
ghost use Rattle.std.specs.Prelude.{◌≡◌};
ghost use Rattle.chf_store.specs.Refusals.{handed_on};

use journal::JournalRefusal;
use units::OutOfMemory;

/// Why a store refused (this product's own).
#[derive(Clone, Copy, PartialEq, Eq, Debug)]
pub enum StoreRefusal {
    /// The disk failed.
    Fault,
    /// The disk has a greater epoch, this one.
    Fenced(u64),
    /// The entry needs more bytes than the limit leaves.
    Full { len: u64, need: u64 },
    /// The bytes are no journal, from this one on.
    NotAJournal { at: u64 },
    /// No greater epoch is left to claim.
    EpochsSpent,
    /// This entry, counted from 1, is the first bad one.
    BadEntry { place: usize },
    /// The journal is not open; `settle` opens it.
    Closed,
    /// The payload has so many bytes, more than 2^24.
    TooLong { count: usize },
    /// Memory was wanting.
    OutOfMemory,
}

impl From<OutOfMemory> for StoreRefusal {
    ghost use Rattle.std.specs.Prelude.{◌≡◌};
    ghost use Rattle.chf_store.specs.declared.refusal.StoreRefusal.TheVariants as refusal;

    ghost from_gives = { λ _ e. e ≡ refusal.OutOfMemory };

    fn from(_error: OutOfMemory) -> StoreRefusal {
        StoreRefusal::OutOfMemory
    }
}

/// A journal's refusal, handed on.
pub(crate) fn handed_on(refusal: JournalRefusal) -> StoreRefusal
    ensures { result ≡ handed_on refusal }
{
    match refusal {
        JournalRefusal::Fault => StoreRefusal::Fault,
        JournalRefusal::Fenced(seen) => StoreRefusal::Fenced(seen),
        JournalRefusal::Full { len, need } => StoreRefusal::Full { len, need },
        JournalRefusal::NotAJournal { at } => StoreRefusal::NotAJournal { at },
        JournalRefusal::EpochsSpent => StoreRefusal::EpochsSpent,
        JournalRefusal::OutOfMemory => StoreRefusal::OutOfMemory,
    }
}
