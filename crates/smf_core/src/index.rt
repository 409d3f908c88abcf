//! The places of the sessions by their numbers.
ghost use Rattle.std.specs.Prelude.{◌≡◌, ◌<◌, ◌≤◌, ◌+◌, ◌++◌, [], ◌∷◌, ℕ, None, OnOk, IfSome, length, nat_eq};
ghost use Rattle.std.specs.HashMap.{get, spare};
ghost use Rattle.smf_core.specs.Index.{place_in, IsIndexed, AreApart, place_for};

use std::alloc::{AllocError, Global};
use std::collections::HashMap;
use std::marker::Model;

/// The numbers of the sessions, in the order of their Attach, and the place of each.
#[derive(Drop)]
pub struct Index {
    numbers: Vec<u32>,
    places: HashMap<u32, usize>,
}

impl Model for Index {
    ghost use Rattle.std.specs.Prelude.{◌-◌, min, nat_eq, vec_len, vec_capacity};
    ghost use Rattle.std.specs.HashMap.{get, spare};
    ghost use Rattle.smf_core.specs.Index.{Indexed, IsIndexed};

    ghost Value = { Indexed };

    ghost view = { λ s. record { numbers = s.numbers.items; room = min (vec_capacity s.numbers - vec_len s.numbers) (spare s.places) } };

    ghost invariant = { λ s. IsIndexed (get nat_eq s.places) s.numbers.items };
}

impl Index {
    /// Without sessions.
    pub fn new(alloc: Global) -> Index
        ensures { result.numbers ≡ [] }
    {
        Index {
            numbers: Vec::new(alloc),
            places: HashMap::new(alloc),
        }
    }

    /// The numbers.
    pub fn numbers(&self) -> &[u32]
        ensures { result.now ≡ self.now.numbers }
    {
        self.numbers.as_slice()
    }

    /// The place of a number; no number has two.
    pub fn place(&self, number: Option<u32>) -> Option<usize>
        ensures value { result ≡ place_for number self.now.numbers }
        ensures apart { AreApart self.now.numbers }
    {
        match number {
            None => None,
            Some(number) => self.places.get(&number).copied(),
        }
    }

    /// Makes room for one more.
    pub fn make_room(&mut self) -> Result<(), AllocError>
        ensures room { OnOk result (0 < self.new.room) }
        ensures same { self.new.numbers ≡ self.old.numbers }
    {
        let numbers = self.numbers.reserve(1);
        let places = self.places.reserve(1);
        match (numbers, places) {
            (Ok(()), Ok(())) => Ok(()),
            _ => Err(AllocError),
        }
    }

    /// Adds a number that is not there.
    pub fn add(&mut self, number: u32)
        requires room { 0 < self.old.room }
        requires fresh { place_in self.old.numbers number ≡ None }
        ensures { self.new.numbers ≡ self.old.numbers ++ number ∷ [] }
    {
        let _ = self.places.insert(number, self.numbers.len());
        self.numbers.push_reserved(number);
    }
}
