//! The places of requests by their keys, and the references of sessions.
ghost use Rattle.std.specs.Prelude.{◌≡◌, ◌<◌, ◌&&◌, [], OnOk, Some, None, cond, length, string_bytes};
ghost use Rattle.std.specs.HashMap.{spare};
ghost use Rattle.chf_core.specs.declared.key.Name.{Name as NameSeen};
ghost use Rattle.chf_core.specs.declared.key.Key.{Key as KeySeen};
ghost use Rattle.chf_core.specs.Operator.{number_in, with_name};
ghost use Rattle.chf_core.specs.Sessions.{name, same_session};
ghost use Rattle.chf_core.specs.Keys.{key, key_eq};
ghost use Rattle.chf_core.specs.Named.{IsProvided};
ghost use Rattle.chf_core.specs.KeyTable.{kept_place, kept_reference, AreKnown, IsSameKeyed, room};

use crate::names::Names;
use crate::numbered::{NumberedKey, NumberedName};
use std::alloc::Global;
use std::collections::HashMap;
use units::OutOfMemory;

/// The consumers by number; the place of each key, and the reference of each session.
#[derive(Drop)]
pub(crate) struct KeyTable {
    pub(crate) consumers: Names,
    pub(crate) places: HashMap<NumberedKey, u32>,
    pub(crate) references: HashMap<NumberedName, u32>,
}

impl KeyTable {
    pub fn new(alloc: Global) -> KeyTable
        ensures places { (k : KeySeen) → kept_place result k ≡ None }
        ensures references { (n : NameSeen) → kept_reference result n ≡ None }
        ensures known { AreKnown result }
        ensures consumers { result.consumers.list ≡ [] }
    {
        KeyTable {
            consumers: Names::new(alloc),
            places: HashMap::new(alloc),
            references: HashMap::new(alloc),
        }
    }

    /// Makes room for one more of each.
    pub fn make_room(&mut self) -> Result<(), OutOfMemory>
        requires { AreKnown self.old }
        ensures same { IsSameKeyed self.old self.new }
        ensures consumers { self.new.consumers.list ≡ self.old.consumers.list }
        ensures room { OnOk result (0 < room self.new) }
    {
        let consumers = self.consumers.make_room().is_ok();
        let places = self.places.reserve(1).is_ok();
        let references = self.references.reserve(1).is_ok();
        if consumers && places && references {
            Ok(())
        } else {
            Err(OutOfMemory)
        }
    }

    /// The place of a key.
    pub fn place(&self, consumer: &str, charging_id: u32, number: u32) -> Option<u32>
        ensures { result ≡ kept_place self.now (key consumer.now charging_id number) }
    {
        match self.consumers.find(consumer) {
            Some(consumer) => self
                .places
                .get(&NumberedKey {
                    consumer,
                    charging_id,
                    number,
                })
                .copied(),
            None => None,
        }
    }

    /// The reference of a session.
    pub fn reference(&self, consumer: &str, charging_id: u32) -> Option<u32>
        ensures { result ≡ kept_reference self.now (name consumer.now charging_id) }
    {
        match self.consumers.find(consumer) {
            Some(consumer) => self
                .references
                .get(&NumberedName {
                    consumer,
                    charging_id,
                })
                .copied(),
            None => None,
        }
    }

    /// The number of a consumer, which is added where it is new.
    pub fn number_for(&mut self, consumer: &str, new: Option<String>) -> u32
        requires known { AreKnown self.old }
        requires room { 0 < room self.old }
        requires provided { IsProvided self.old.consumers.list consumer.now new }
        ensures same { IsSameKeyed self.old self.new }
        ensures consumers { self.new.consumers.list ≡ with_name self.old.consumers.list consumer.now (number_in self.old.consumers.list consumer.now) }
        ensures number { number_in self.new.consumers.list consumer.now ≡ Some result }
        ensures places { self.new.places ≡ self.old.places }
        ensures references { self.new.references ≡ self.old.references }
    {
        match self.consumers.find(consumer) {
            Some(number) => number,
            None => match new {
                Some(new) => self.consumers.add(new),
                None => 0,
            },
        }
    }

    /// Enters the place of a key.
    pub fn enter(&mut self, consumer: &str, at: NumberedKey, place: u32)
        requires known { AreKnown self.old }
        requires room { 0 < spare self.old.places }
        requires number { number_in self.old.consumers.list consumer.now ≡ Some at.consumer }
        ensures places { (k : KeySeen) → kept_place self.new k ≡ cond (key_eq (key consumer.now at.charging_id at.number) k) (Some place) (kept_place self.old k) }
        ensures references { self.new.references ≡ self.old.references }
        ensures consumers { self.new.consumers ≡ self.old.consumers }
        ensures known { AreKnown self.new }
    {
        let _ = self.places.insert(at, place);
    }

    /// Enters the reference of a session.
    pub fn open(&mut self, consumer: &str, at: NumberedName, reference: u32)
        requires known { AreKnown self.old }
        requires room { 0 < spare self.old.references }
        requires number { number_in self.old.consumers.list consumer.now ≡ Some at.consumer }
        ensures references { (n : NameSeen) → kept_reference self.new n ≡ cond (same_session (name consumer.now at.charging_id) n) (Some reference) (kept_reference self.old n) }
        ensures places { self.new.places ≡ self.old.places }
        ensures consumers { self.new.consumers ≡ self.old.consumers }
        ensures known { AreKnown self.new }
    {
        let _ = self.references.insert(at, reference);
    }
}
