//! Names and their numbers, in the order in which they came.
ghost use Rattle.std.specs.Prelude.{◌≡◌, ◌<◌, ◌≤◌, ◌∷◌, [], OnOk, Some, None, length, reverse, slice_get, option_map, string_bytes};
ghost use Rattle.chf_core.specs.Operator.{number_in};

use indexmap::IndexSet;
use std::alloc::Global;
use std::marker::Model;
use units::OutOfMemory;

/// Names, each with its number: how many were there before it.
#[derive(Drop)]
pub(crate) struct Names {
    texts: IndexSet<String>,
}

impl Model for Names {
    ghost use Rattle.chf_core.specs.Named.{Named};
    ghost use Rattle.chf_core.specs.NamesKept.{named, AreNumbered};

    ghost Value = { Named };

    ghost view = { named };

    ghost invariant = { AreNumbered };
}

// The text at a place.
fn text_in(texts: &[String], place: usize) -> Option<&str>
    ensures { option_map (λ t. t.now) result ≡ option_map string_bytes (slice_get texts.now place) }
{
    match texts.get(place) {
        Some(text) => Some(text.as_str()),
        None => None,
    }
}

impl Names {
    pub fn new(alloc: Global) -> Names
        ensures { result.list ≡ [] }
    {
        Names {
            texts: IndexSet::new(alloc),
        }
    }

    /// Makes room for one more.
    pub fn make_room(&mut self) -> Result<(), OutOfMemory>
        ensures same { self.new.list ≡ self.old.list }
        ensures room { OnOk result (0 < self.new.room) }
    {
        if self.texts.reserve(1).is_ok() && self.texts.len() < 4_294_967_295 {
            Ok(())
        } else {
            Err(OutOfMemory)
        }
    }

    /// The number of a name, if it has one.
    pub fn find(&self, name: &str) -> Option<u32>
        ensures { result ≡ number_in self.now.list name.now }
    {
        match self.texts.get_index_of(name) {
            Some(number) => Some(number as u32),
            None => None,
        }
    }

    /// The name with a number, if there is one.
    pub fn name(&self, number: u32) -> Option<&str>
        ensures { option_map (λ t. t.now) result ≡ slice_get (reverse self.now.list) number }
    {
        text_in(self.texts.as_slice(), number as usize)
    }

    /// How many names there are.
    pub fn count(&self) -> u32
        ensures { result ≡ length self.now.list }
    {
        self.texts.len() as u32
    }

    /// Adds a name that has no number yet.
    pub fn add(&mut self, name: String) -> u32
        requires room { 0 < self.old.room }
        requires unknown { number_in self.old.list (string_bytes name) ≡ None }
        ensures number { result ≡ length self.old.list }
        ensures list { self.new.list ≡ string_bytes name ∷ self.old.list }
    {
        let number = self.texts.len() as u32;
        let _ = self.texts.insert(name);
        number
    }
}
