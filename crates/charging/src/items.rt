//! The items of an input, taken one after the other: no list of them is kept.
ghost use Rattle.std.specs.Prelude.{◌≡◌, List as Listed, IfOk, IfSome};
ghost use Rattle.charging.specs.declared.item.Item.{Item as Entry};
ghost use Rattle.charging.specs.Taking.{HasTaken};

use crate::item::Item;
use std::alloc::Global;
use units::OutOfMemory;

/// Where the items of an input come from.
pub trait Items: Drop {
    /// All of them.
    ghost all: { Self → Listed Entry };

    /// Those that are still to come.
    ghost left: { Self → Listed Entry };

    /// No item was missed.
    ghost is_sound: { Self → Type 0 };

    /// The same input, before its first item.
    fn again(&self, alloc: Global) -> Self
        ensures all { all result ≡ all self.now }
        ensures left { left result ≡ all self.now }
        ensures sound { is_sound result };

    /// The next item; none where none is left, and then it is asked no more.
    fn take(&mut self, alloc: Global) -> Result<Option<Item>, OutOfMemory>
        requires { is_sound self.old }
        ensures taken { IfOk result (λ found. HasTaken found (left self.old) (left self.new)) }
        ensures sound { IfOk result (λ found. IfSome found (λ _. is_sound self.new)) }
        ensures all { all self.new ≡ all self.old };
}
