//! Deadlines in a heap, the soonest first.
ghost use Rattle.std.specs.Prelude.{◌≡◌, ◌≤◌, ◌<◌, ◌+◌, ◌∷◌, [], All, IfSome, IsOk, OnOk, slice_get, Some};
ghost use Rattle.std.specs.List.Sorted.{IsPermutation};
ghost use Rattle.accounts.specs.declared.due.Due.{Due as DueSeen};

use std::alloc::{AllocError, Global};
use std::cmp::Reverse;
use std::collections::BinaryHeap;
use std::marker::Model;

/// When a reservation is due to end.
#[derive(Clone, Copy, Debug, PartialEq, Eq, PartialOrd, Ord)]
pub struct Due {
    /// The deadline, in seconds.
    pub deadline: u64,
    /// The session.
    pub session: u32,
    /// The rating group.
    pub group: u32,
}

/// Deadlines, the soonest first.
#[derive(Drop)]
pub struct Deadlines {
    heap: BinaryHeap<Reverse<Due>>,
}

impl Model for Deadlines {
    ghost use Rattle.std.specs.Prelude.{◌-◌, map};
    ghost use Rattle.std.specs.BinaryHeap.{IsHeap, heap_items, heap_len, heap_capacity};
    ghost use Rattle.accounts.specs.Due.{Queue, coded_queue, due_cmp};

    ghost Value = { Queue };

    ghost coded = { coded_queue };

    ghost view = { λ d. record { dues = map (λ r. r.0) (heap_items d.heap); spare = heap_capacity d.heap - heap_len d.heap } };

    ghost invariant = { λ d. IsHeap due_cmp (heap_items d.heap) };
}

impl Deadlines {
    pub fn new(alloc: Global) -> Deadlines
        ensures { result.dues ≡ [] }
    {
        Deadlines {
            heap: BinaryHeap::new(alloc),
        }
    }

    /// Makes room for that many more.
    pub fn make_room(&mut self, n: usize) -> Result<(), AllocError>
        ensures room { OnOk result (n ≤ self.new.spare) }
        ensures there { n ≤ self.old.spare → IsOk result }
        ensures same { self.new.dues ≡ self.old.dues }
    {
        self.heap.reserve(n)
    }

    /// The soonest.
    pub fn first(&self) -> Option<Due>
        ensures value { result ≡ slice_get self.now.dues 0 }
        ensures least { IfSome result (λ due. All (λ other. due.deadline ≤ other.deadline) self.now.dues) }
    {
        match self.heap.peek() {
            Some(top) => Some(top.0),
            None => None,
        }
    }

    /// Adds one.
    pub fn push(&mut self, due: Due)
        requires { 0 < self.old.spare }
        ensures more { IsPermutation (due ∷ self.old.dues) self.new.dues }
        ensures spare { self.old.spare ≤ self.new.spare + 1 }
    {
        let _ = self.heap.push(Reverse(due));
    }

    /// Takes the soonest away, if there is one.
    pub fn pop(&mut self)
        ensures less { (due : DueSeen) → slice_get self.old.dues 0 ≡ Some due → IsPermutation self.old.dues (due ∷ self.new.dues) }
        ensures spare { self.old.spare ≤ self.new.spare }
    {
        let _ = self.heap.pop();
    }
}
