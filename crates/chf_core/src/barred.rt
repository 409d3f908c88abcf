//! The rating groups that are barred for a subscriber.
ghost use Rattle.std.specs.Prelude.{◌≡◌, [], ℕ, nat_eq, IfOk};
ghost use Rattle.std.specs.HashSet.{contains};
ghost use Rattle.std.specs.Cmp.Lexicographic.{pointwise};
ghost use Rattle.chf_core.specs.Barring.{bars};

use std::alloc::Global;
use std::collections::HashSet;
use std::marker::Model;
use units::{List, OutOfMemory};

/// The barred rating groups of a subscriber row, in its order, each found by a look-up (this product's own).
#[derive(Debug, Drop)]
pub(crate) struct Barred {
    groups: List<u32>,
    found: HashSet<u32>,
}

impl Model for Barred {
    ghost use Rattle.std.specs.Prelude.{ℕ, ◌≡◌, List, nat_eq};
    ghost use Rattle.std.specs.HashSet.{contains};
    ghost use Rattle.chf_core.specs.Barring.{bars};

    ghost Value = { List ℕ };

    ghost view = { λ b. b.groups };

    ghost invariant = { λ b. (group : ℕ) → contains nat_eq b.found group ≡ bars b.groups group };
}

/// The groups as a set.
pub fn set_of(alloc: Global, groups: &[u32]) -> Result<HashSet<u32>, OutOfMemory>
    ensures { IfOk result (λ s. (group : ℕ) → contains nat_eq s group ≡ bars groups.now group) }
{
    let mut found = HashSet::new(alloc);
    for group in groups {
        found.insert(*group)?;
    }
    Ok(found)
}

impl Barred {
    /// No groups. Takes no memory.
    pub fn none(alloc: Global) -> Barred
        ensures { result ≡ [] }
    {
        Barred {
            groups: List::new(alloc),
            found: HashSet::new(alloc),
        }
    }

    /// These groups, in their order, with the set of them.
    pub fn with(groups: List<u32>, found: HashSet<u32>) -> Barred
        requires { (group : ℕ) → contains nat_eq found group ≡ bars groups group }
        ensures { result ≡ groups }
    {
        Barred { groups, found }
    }

    /// Whether they are these groups, in this order.
    pub fn are(&self, groups: &List<u32>) -> bool
        ensures { result ≡ pointwise nat_eq self.now groups.now }
    {
        self.groups == *groups
    }

    /// Whether a group is barred.
    pub fn bars(&self, group: u32) -> bool
        ensures { result ≡ bars self.now group }
    {
        self.found.contains(&group)
    }
}
