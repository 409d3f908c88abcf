//! Notices that were not sent yet.
ghost use Rattle.std.specs.Prelude.{◌≡◌, ◌≤◌, [], OnOk, MatchOption, vec_len};
ghost use Rattle.std.specs.Option.{option_copied};
ghost use Rattle.std.specs.List.Sorted.{IsNonDecreasingBy};
ghost use Rattle.notices.specs.InOrder.{all_put, without_first};
ghost use Rattle.notices.specs.Places.{IsFirstAt, HasNone};
ghost use Rattle.notices.specs.Watched.{first_of, is_numbered};

use crate::merging::merge;
use crate::notice::Notice;
use std::alloc::Global;
use std::marker::Model;
use std::mem::swap;
use units::OutOfMemory;

/// Notices that were not sent yet, by the numbers of their subscriptions.
#[derive(Drop)]
pub struct Unsent {
    inner: Vec<Notice>,
    next: Vec<Notice>,
}

impl Model for Unsent {
    ghost use Rattle.std.specs.Prelude.{◌≡◌, ◌-◌, [], vec_len, vec_capacity};
    ghost use Rattle.std.specs.List.Sorted.{IsNonDecreasingBy};
    ghost use Rattle.notices.specs.Waiting.{Waiting};

    ghost Value = { Waiting };

    ghost view = { λ u. record { notices = u.inner.items; room = vec_capacity u.next - vec_len u.inner } };

    ghost invariant = { λ u. IsNonDecreasingBy (λ n. n.id) u.inner.items × (u.next.items ≡ []) };
}

// Where the first notice of a subscription is.
fn place_of(notices: &[Notice], id: u32) -> Option<usize>
    requires { IsNonDecreasingBy (λ n. n.id) notices.now }
    ensures { MatchOption result (HasNone (λ n. n.id) id notices.now) (IsFirstAt (λ n. n.id) id notices.now) }
{
    let at = notices.partition_point(|one| one.id < id);
    if at < notices.len() && notices[at].id == id {
        Some(at)
    } else {
        None
    }
}

// The first notice of a subscription.
fn first_of(notices: &[Notice], id: u32) -> Option<&Notice>
    requires { IsNonDecreasingBy (λ n. n.id) notices.now }
    ensures { option_copied result ≡ first_of notices.now id }
{
    match place_of(notices, id) {
        Some(at) => Some(&notices[at]),
        None => None,
    }
}

impl Unsent {
    pub fn new(alloc: Global) -> Unsent
        ensures { result.notices ≡ [] }
    {
        Unsent {
            inner: Vec::new(alloc),
            next: Vec::new(alloc),
        }
    }

    /// Makes room for that many more.
    pub fn make_room(&mut self, n: usize) -> Result<(), OutOfMemory>
        ensures same { self.new.notices ≡ self.old.notices }
        ensures room { OnOk result (n ≤ self.new.room) }
    {
        self.next.reserve(self.inner.len().saturating_add(n))?;
        Ok(())
    }

    /// The notices.
    pub fn as_slice(&self) -> &[Notice]
        ensures value { result.now ≡ self.now.notices }
        ensures ordered { IsNonDecreasingBy (λ n. n.id) result.now }
    {
        self.inner.as_slice()
    }

    /// Puts notices, each after those of its subscription. All that wait are moved once.
    pub fn put_all(&mut self, notices: Vec<Notice>)
        requires order { IsNonDecreasingBy (λ n. n.id) notices.items }
        requires room { vec_len notices ≤ self.old.room }
        ensures { self.new.notices ≡ all_put (λ n. n.id) self.old.notices notices.items }
    {
        if notices.is_empty() {
            return;
        }
        merge(&mut self.inner, notices, &mut self.next);
        swap(&mut self.inner, &mut self.next);
    }

    /// Whether the first notice of a subscription has this number.
    pub fn is_first(&self, id: u32, number: u32) -> bool
        ensures { result ≡ is_numbered number (first_of self.now.notices id) }
    {
        match first_of(self.inner.as_slice(), id) {
            Some(notice) => notice.number == number,
            None => false,
        }
    }

    /// Takes the first notice of a subscription away, if there is one.
    pub fn take_first(&mut self, id: u32)
        ensures notices { self.new.notices ≡ without_first (λ n. n.id) self.old.notices id }
        ensures room { self.old.room ≤ self.new.room }
    {
        if let Some(at) = place_of(self.inner.as_slice(), id) {
            let _ = self.inner.remove(at);
        }
    }
}
