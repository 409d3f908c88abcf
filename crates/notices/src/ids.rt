//! Numbers of subscriptions in ascending order.
ghost use Rattle.std.specs.Prelude.{◌≡◌, ◌≤◌, ◌<◌, ◌+◌, [], OnOk, MatchOption};
ghost use Rattle.std.specs.List.Sorted.{IsNonDecreasing};
ghost use Rattle.notices.specs.InOrder.{put_in_order, without_first};
ghost use Rattle.notices.specs.Places.{IsFirstAt, HasNone, IsPlace};

use std::alloc::Global;
use std::marker::Model;
use units::OutOfMemory;

/// Numbers of subscriptions, ascending.
#[derive(Drop)]
pub struct Ids {
    inner: Vec<u32>,
}

impl Model for Ids {
    ghost use Rattle.std.specs.Prelude.{◌-◌, vec_len, vec_capacity};
    ghost use Rattle.std.specs.List.Sorted.{IsNonDecreasing};
    ghost use Rattle.notices.specs.Places.{Ascending};

    ghost Value = { Ascending };

    ghost view = { λ i. record { ids = i.inner.items; room = vec_capacity i.inner - vec_len i.inner } };

    ghost invariant = { λ i. IsNonDecreasing i.inner.items };
}

// Where a number is among ascending ones.
fn place_of(ids: &[u32], id: u32) -> Option<usize>
    requires { IsNonDecreasing ids.now }
    ensures { MatchOption result (HasNone (λ x. x) id ids.now) (IsFirstAt (λ x. x) id ids.now) }
{
    let at = ids.partition_point(|one| *one < id);
    if at < ids.len() && ids[at] == id {
        Some(at)
    } else {
        None
    }
}

// Where a number goes among ascending ones.
fn place_for(ids: &[u32], id: u32) -> usize
    requires { IsNonDecreasing ids.now }
    ensures { IsPlace (λ x. x) id ids.now result }
{
    ids.partition_point(|one| *one <= id)
}

impl Ids {
    pub fn new(alloc: Global) -> Ids
        ensures { result.ids ≡ [] }
    {
        Ids {
            inner: Vec::new(alloc),
        }
    }

    /// Makes room for that many more.
    pub fn make_room(&mut self, n: usize) -> Result<(), OutOfMemory>
        ensures same { self.new.ids ≡ self.old.ids }
        ensures room { OnOk result (n ≤ self.new.room) }
        ensures kept { self.old.room ≤ self.new.room }
    {
        self.inner.reserve(n)?;
        Ok(())
    }

    /// The numbers.
    pub fn as_slice(&self) -> &[u32]
        ensures value { result.now ≡ self.now.ids }
        ensures ascending { IsNonDecreasing result.now }
    {
        self.inner.as_slice()
    }

    /// Puts a number at its place.
    pub fn put(&mut self, id: u32)
        requires { 0 < self.old.room }
        ensures ids { self.new.ids ≡ put_in_order (λ x. x) self.old.ids id }
        ensures room { self.new.room + 1 ≡ self.old.room }
    {
        let at = place_for(self.inner.as_slice(), id);
        let _ = self.inner.insert(at, id);
    }

    /// Takes a number away, where it is there.
    pub fn take_away(&mut self, id: u32)
        ensures ids { self.new.ids ≡ without_first (λ x. x) self.old.ids id }
        ensures room { self.old.room ≤ self.new.room }
    {
        if let Some(at) = place_of(self.inner.as_slice(), id) {
            let _ = self.inner.remove(at);
        }
    }
}
