//! The rating groups of each session, chained.
ghost use Rattle.std.specs.Prelude.{◌≡◌, ◌≢◌, ◌≤◌, ◌<◌, ◌+◌, ◌⊎◌, ◌==◌, ◌&&◌, ◌||◌, if◌then◌else◌, not, ℕ, Some, None, IsSome, is_some, IsOk, OnOk};
ghost use Rattle.std.specs.HashMap.{get, spare, hash_map_len};
ghost use Rattle.accounts.specs.declared.reservation.Key.{Key as KeySeen};
ghost use Rattle.accounts.specs.Reservations.{at, key_eq};
ghost use Rattle.accounts.specs.Chains.{first_of, next_of, IsChained};

use crate::reservation::Key;
use std::alloc::{AllocError, Global};
use std::collections::HashMap;

/// The rating groups of each session that may have a reservation, as a chain from the latest.
#[derive(Drop)]
pub struct Groups {
    pub first: HashMap<u32, u32>,
    pub next: HashMap<Key, Option<u32>>,
}

// Writes the latest group of a session that has one.
fn overwrite(first: &mut HashMap<u32, u32>, session: u32, group: u32)
    requires { IsSome (get ◌==◌ first.old session) }
    ensures value { (t : ℕ) → get ◌==◌ first.new t ≡ (if session == t then Some group else get ◌==◌ first.old t) }
    ensures spare { spare first.new ≡ spare first.old }
{
    if let Some(slot) = first.get_mut(&session) {
        *slot = group;
    }
}

// The same, and without a group the session has none.
fn replace(first: &mut HashMap<u32, u32>, session: u32, group: Option<u32>)
    requires { IsSome (get ◌==◌ first.old session) }
    ensures value { (t : ℕ) → get ◌==◌ first.new t ≡ (if session == t then group else get ◌==◌ first.old t) }
    ensures spare { spare first.old ≤ spare first.new }
{
    match group {
        Some(group) => overwrite(first, session, group),
        None => {
            let _ = first.remove(&session);
        }
    }
}

impl Groups {
    pub fn new(alloc: Global) -> Groups
        ensures chained { IsChained result }
        ensures none { (t : ℕ) → first_of result t ≡ None }
    {
        Groups {
            first: HashMap::new(alloc),
            next: HashMap::new(alloc),
        }
    }

    /// Makes room for that many more.
    pub fn make_room(&mut self, n: usize) -> Result<(), AllocError>
        requires chained { IsChained self.old }
        ensures chained { IsChained self.new }
        ensures first { (t : ℕ) → first_of self.new t ≡ first_of self.old t }
        ensures next { (k : KeySeen) → next_of self.new k ≡ next_of self.old k }
        ensures room_first { OnOk result (n ≤ spare self.new.first) }
        ensures room_next { OnOk result (n ≤ spare self.new.next) }
        ensures there { n ≤ spare self.old.first → n ≤ spare self.old.next → IsOk result }
    {
        let first = self.first.reserve(n);
        let next = self.next.reserve(n);
        match (first, next) {
            (Ok(()), Ok(())) => Ok(()),
            _ => Err(AllocError),
        }
    }

    /// The latest group of a session, if there is one.
    pub fn latest(&self, session: u32) -> Option<u32>
        ensures { result ≡ first_of self.now session }
    {
        self.first.get(&session).copied()
    }

    /// Adds a group to its session's chain, unless it is there.
    pub fn link(&mut self, key: &Key)
        requires chained { IsChained self.old }
        requires first { 0 < spare self.old.first }
        requires next { 0 < spare self.old.next }
        ensures chained { IsChained self.new }
        ensures linked { (k : KeySeen) → is_some (next_of self.new k) ≡ (key_eq key.now k || is_some (next_of self.old k)) }
        ensures latest { (t : ℕ) → (first_of self.new t ≡ first_of self.old t) ⊎ ((t ≡ key.now.session) × (first_of self.new t ≡ Some key.now.group)) }
        ensures first { spare self.old.first ≤ spare self.new.first + 1 }
        ensures next { spare self.old.next ≤ spare self.new.next + 1 }
    {
        if self.next.contains_key(key) {
            return;
        }
        let before = self.first.get(&key.session).copied();
        let _ = self.next.insert(*key, before);
        let _ = self.first.insert(key.session, key.group);
    }

    /// Takes the latest group off its session's chain.
    pub fn unlink(&mut self, session: u32, group: u32)
        requires chained { IsChained self.old }
        requires latest { first_of self.old session ≡ Some group }
        ensures chained { IsChained self.new }
        ensures linked { (k : KeySeen) → is_some (next_of self.new k) ≡ (not (key_eq (at session group) k) && is_some (next_of self.old k)) }
        ensures others { (t : ℕ) → t ≢ session → first_of self.new t ≡ first_of self.old t }
        ensures len { hash_map_len self.new.next + 1 ≡ hash_map_len self.old.next }
        ensures first { spare self.old.first ≤ spare self.new.first }
        ensures next { spare self.old.next ≤ spare self.new.next }
    {
        let after = self.next.remove(&Key { session, group }).flatten();
        replace(&mut self.first, session, after);
    }
}
