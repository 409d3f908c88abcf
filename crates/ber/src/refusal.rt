//! Why no element was read.
ghost use Rattle.std.specs.Prelude.{◌≡◌};
ghost use Rattle.ber.specs.declared.refusal.BerRefusal.TheVariants as refusal;

use std::alloc::{AllocError, AllocFailed};

/// Why no element was read (this product's own).
#[derive(Clone, Copy, Debug, PartialEq, Eq)]
pub enum BerRefusal {
    /// Memory was wanting.
    OutOfMemory,
    /// The octets break the grammar (E21).
    BadRecord {
        /// The first octet, from 0, of the element that has the fault that is met first.
        at: u64,
    },
}

impl From<AllocError> for BerRefusal {
    ghost from_gives = { λ _ e. e ≡ refusal.OutOfMemory };

    fn from(_error: AllocError) -> BerRefusal {
        BerRefusal::OutOfMemory
    }
}

impl<T: Drop> From<AllocFailed<T>> for BerRefusal {
    ghost from_gives = { λ _ e. e ≡ refusal.OutOfMemory };

    fn from(_error: AllocFailed<T>) -> BerRefusal {
        BerRefusal::OutOfMemory
    }
}
