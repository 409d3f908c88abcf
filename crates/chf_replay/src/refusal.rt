//! Why entries give no machine.
use units::OutOfMemory;

/// Why entries give no machine (this product's own).
#[derive(Clone, Copy, PartialEq, Eq, Debug)]
pub enum ReplayRefusal {
    /// This entry, counted from 1, is the first bad one.
    BadEntry { place: usize },
    /// Memory was wanting.
    OutOfMemory,
}

impl From<OutOfMemory> for ReplayRefusal {
    ghost use Rattle.std.specs.Prelude.{◌≡◌};
    ghost use Rattle.chf_replay.specs.declared.refusal.ReplayRefusal.TheVariants as refusal;

    ghost from_gives = { λ _ e. e ≡ refusal.OutOfMemory };

    fn from(_error: OutOfMemory) -> ReplayRefusal {
        ReplayRefusal::OutOfMemory
    }
}
