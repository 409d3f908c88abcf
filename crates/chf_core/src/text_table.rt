//! A table whose keys are texts, seen as its entries in the order of their bytes.
ghost use Rattle.std.specs.Prelude.{◌≡◌, ◌<◌, ◌≤◌, ◌+◌, [], OnOk, option_copied, string_bytes};
ghost use Rattle.chf_core.specs.State.{at_text, with_text};

use std::alloc::Global;
use std::collections::HashMap;
use std::marker::Model;
use units::OutOfMemory;

/// Values by texts.
#[derive(Drop)]
pub(crate) struct TextTable<V> {
    table: HashMap<String, V>,
}

impl<V> Model for TextTable<V> {
    ghost use Rattle.std.specs.HashMap.{spare};
    ghost use Rattle.chf_core.specs.TextTable.{Stored, coded_stored, texts_of};

    ghost Value = { Stored V };

    ghost coded = { coded_stored V.code };

    ghost view = { λ t. record { of = texts_of t.table.entries; spare = spare t.table } };
}

impl<V: Drop> TextTable<V> {
    pub fn new(alloc: Global) -> TextTable<V>
        ensures { result.of ≡ [] }
    {
        TextTable {
            table: HashMap::new(alloc),
        }
    }

    /// Makes room for one more.
    pub fn make_room(&mut self) -> Result<(), OutOfMemory>
        ensures same { self.new.of ≡ self.old.of }
        ensures room { OnOk result (0 < self.new.spare) }
    {
        self.table.reserve(1)?;
        Ok(())
    }

    /// The value at a text.
    pub fn get(&self, text: &str) -> Option<&V>
        ensures { option_copied result ≡ at_text self.now.of text.now }
    {
        self.table.get(text)
    }

    /// Puts a value at a text.
    pub fn put(&mut self, text: String, value: V)
        requires { 0 < self.old.spare }
        ensures value { self.new.of ≡ with_text self.old.of (string_bytes text) value }
        ensures spare { self.old.spare ≤ self.new.spare + 1 }
    {
        let _ = self.table.insert(text, value);
    }
}
