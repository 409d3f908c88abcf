//! Why a call on policy counters is refused.
use std::alloc::AllocError;
use units::OutOfMemory;

/// Why a call on policy counters or subscriptions is refused (this product's own).
#[derive(Clone, Copy, PartialEq, Eq, Debug)]
pub enum CounterRefusal {
    /// This row, counted from 1, is the first that breaks the grammar.
    BadRow { row: u32 },
    /// A named counter is not in the table.
    UnknownCounter,
    /// No live subscription has this number.
    UnknownSubscription,
    /// Memory was wanting.
    OutOfMemory,
}

impl From<OutOfMemory> for CounterRefusal {
    ghost use Rattle.std.specs.Prelude.{◌≡◌};
    ghost use Rattle.counters.specs.declared.refusal.CounterRefusal.TheVariants as refusal;

    ghost from_gives = { λ _ e. e ≡ refusal.OutOfMemory };

    fn from(_error: OutOfMemory) -> CounterRefusal {
        CounterRefusal::OutOfMemory
    }
}

impl From<AllocError> for CounterRefusal {
    ghost use Rattle.std.specs.Prelude.{◌≡◌};
    ghost use Rattle.counters.specs.declared.refusal.CounterRefusal.TheVariants as refusal;

    ghost from_gives = { λ _ e. e ≡ refusal.OutOfMemory };

    fn from(_error: AllocError) -> CounterRefusal {
        CounterRefusal::OutOfMemory
    }
}
