//! Why rows are no setup.
use std::alloc::AllocError;
use units::OutOfMemory;

/// Why rows are no setup (this product's own).
#[derive(Clone, Copy, PartialEq, Eq, Debug)]
pub enum SetupRefusal {
    /// This row, counted from 1, is the first that is not accepted; the row after the last where something is lacking.
    BadRow { row: usize },
    /// Memory was wanting.
    OutOfMemory,
}

impl From<OutOfMemory> for SetupRefusal {
    ghost use Rattle.std.specs.Prelude.{◌≡◌};
    ghost use Rattle.chf_rows.specs.declared.refusal.SetupRefusal.TheVariants as refusal;

    ghost from_gives = { λ _ e. e ≡ refusal.OutOfMemory };

    fn from(_error: OutOfMemory) -> SetupRefusal {
        SetupRefusal::OutOfMemory
    }
}

impl From<AllocError> for SetupRefusal {
    ghost use Rattle.std.specs.Prelude.{◌≡◌};
    ghost use Rattle.chf_rows.specs.declared.refusal.SetupRefusal.TheVariants as refusal;

    ghost from_gives = { λ _ e. e ≡ refusal.OutOfMemory };

    fn from(_error: AllocError) -> SetupRefusal {
        SetupRefusal::OutOfMemory
    }
}
