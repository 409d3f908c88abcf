//! Why rows are no tariff.
use std::alloc::AllocError;
use units::OutOfMemory;

/// Why rows are no tariffs (this product's own).
#[derive(Clone, Copy, PartialEq, Eq, Debug)]
pub enum RatingRefusal {
    /// This row, counted from 1, is the first that breaks the grammar; the row after the last where a group has no price row.
    BadRow { row: u32 },
    /// Memory was wanting.
    OutOfMemory,
}

impl From<OutOfMemory> for RatingRefusal {
    ghost use Rattle.std.specs.Prelude.{◌≡◌};
    ghost use Rattle.rating.specs.declared.refusal.RatingRefusal.TheVariants as refusal;

    ghost from_gives = { λ _ e. e ≡ refusal.OutOfMemory };

    fn from(_error: OutOfMemory) -> RatingRefusal {
        RatingRefusal::OutOfMemory
    }
}

impl From<AllocError> for RatingRefusal {
    ghost use Rattle.std.specs.Prelude.{◌≡◌};
    ghost use Rattle.rating.specs.declared.refusal.RatingRefusal.TheVariants as refusal;

    ghost from_gives = { λ _ e. e ≡ refusal.OutOfMemory };

    fn from(_error: AllocError) -> RatingRefusal {
        RatingRefusal::OutOfMemory
    }
}
