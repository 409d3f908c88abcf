//! Subscriptions, the accounts that they watch, and their notices.
ghost use Rattle.std.specs.Prelude.{◌≡◌, ◌<◌, ◌≤◌, ◌+◌, ◌-◌, ◌^◌, All, length, true, vec_len, slice_index, slice_set, OnOk, OnErr, option_copied};
ghost use Rattle.std.specs.List.Sorted.{IsNonDecreasingBy};
ghost use Rattle.counters.specs.Subscriptions.{context_of, is_live, subscribe_answer, modify_answer, remove_answer};
ghost use Rattle.notices.specs.Watched.{nothing_watched, subscribed_on, modified, ended, moved, all_posted, is_first, sent};
ghost use Rattle.notices.specs.Numbers.{numbers_after};

use crate::by_account::ByAccount;
use crate::notice::Notice;
use crate::unsent::Unsent;
use counters::{CounterRefusal, Counters, Subscriptions};
use std::alloc::Global;
use std::marker::Model;
use units::{OutOfMemory, SpendContext};

/// Subscriptions to the spending limits of subscribers with the accounts that they watch, and the notices that were
/// made of them (TS 29.594, 4.2 and 5.3). Accounts are numbers here; subscriptions and their notices have numbers from
/// 1.
#[derive(Drop)]
pub struct Watchers {
    pub(crate) subscriptions: Subscriptions,
    pub(crate) by_account: ByAccount,
    pub(crate) numbers: Vec<u32>,
    pub(crate) unsent: Unsent,
}

impl Model for Watchers {
    ghost use Rattle.notices.specs.Watched.{Kept};
    ghost use Rattle.notices.specs.Caches.{kept, IsKept};

    ghost Value = { Kept };

    ghost view = { kept };

    ghost invariant = { IsKept };
}

// How many notices were made of a subscription.
fn count(numbers: &mut Vec<u32>, id: u32, number: u32)
    ensures { numbers.new.items ≡ slice_set numbers.old.items (id - 1) number }
{
    let at = (id as usize).saturating_sub(1);
    if at < numbers.len() {
        numbers[at] = number;
    }
}

// The same of some notices.
fn count_all(numbers: &mut Vec<u32>, notices: &[Notice])
    ensures { numbers.new.items ≡ numbers_after numbers.old.items notices.now }
{
    for notice in notices {
        count(numbers, notice.id, notice.number);
    }
}

impl Watchers {
    /// No subscription. Takes no memory.
    pub fn new(alloc: Global) -> Watchers
        ensures { result.of ≡ nothing_watched }
    {
        Watchers {
            subscriptions: Subscriptions::new(alloc),
            by_account: ByAccount::new(alloc),
            numbers: Vec::new(alloc),
            unsent: Unsent::new(alloc),
        }
    }

    /// Makes room for one more subscription, and for that many more that watch an account. Nothing else changes, also
    /// where it fails.
    pub fn make_room(&mut self, alloc: Global, account: u32, n: usize) -> Result<(), OutOfMemory>
        ensures same { self.new.of ≡ self.old.of }
        ensures spare { OnOk result (0 < self.new.spare) }
        ensures room { OnOk result (n ≤ slice_index self.new.rooms account) }
    {
        self.subscriptions.make_room(alloc)?;
        self.numbers.reserve(1)?;
        self.by_account.make_room(alloc, account, n)
    }

    /// Makes room for that many more notices. Nothing else changes, also where it fails.
    pub fn make_room_for(&mut self, _alloc: Global, notices: usize) -> Result<(), OutOfMemory>
        ensures same { self.new.of ≡ self.old.of }
        ensures places { OnOk result (notices ≤ self.new.places) }
        ensures spare { self.new.spare ≡ self.old.spare }
        ensures rooms { self.new.rooms ≡ self.old.rooms }
    {
        self.unsent.make_room(notices)
    }

    /// How many subscriptions were ever made.
    pub fn made(&self) -> u32
        ensures { result ≡ length self.now.of.contexts }
    {
        self.subscriptions.made()
    }

    /// The context that a subscription was last given; `None` exactly where it is not live.
    pub fn context(&self, id: u32) -> Option<&SpendContext>
        ensures { option_copied result ≡ context_of self.now.of.contexts id }
    {
        self.subscriptions.context(id)
    }

    /// Makes a subscription that watches an account, and answers its number, which is one more than there were ever
    /// made. Takes a spare place and one of the account.
    ///
    /// # Errors
    ///
    /// [`CounterRefusal::UnknownCounter`] (E22) exactly where a named counter is not in the table. Nothing changes
    /// then.
    pub fn subscribe(
        &mut self,
        counters: &Counters,
        context: SpendContext,
        account: u32,
    ) -> Result<u32, CounterRefusal>
        requires spare { 0 < self.old.spare }
        requires room { 0 < slice_index self.old.rooms account }
        requires few { length self.old.of.contexts < 2 ^ 32 - 1 }
        ensures answer { result ≡ subscribe_answer counters.now self.old.of.contexts context }
        ensures made { OnOk result (self.new.of ≡ subscribed_on self.old.of context account) }
        ensures same { OnErr result (self.new ≡ self.old) }
    {
        match self.subscriptions.subscribe(counters, context) {
            Ok(id) => {
                self.by_account.push(account);
                self.numbers.push_reserved(0);
                Ok(id)
            }
            Err(refusal) => Err(refusal),
        }
    }

    /// Gives a live subscription another context, of the same subscriber: it watches the same account.
    ///
    /// # Errors
    ///
    /// [`CounterRefusal::UnknownSubscription`] (E23) exactly where no live subscription has the number, then
    /// [`CounterRefusal::UnknownCounter`] (E22) exactly where a named counter is not in the table. Nothing changes
    /// then.
    pub fn modify(
        &mut self,
        id: u32,
        counters: &Counters,
        context: SpendContext,
    ) -> Result<(), CounterRefusal>
        ensures answer { result ≡ modify_answer counters.now self.old.of.contexts id context }
        ensures given { OnOk result (self.new.of ≡ modified self.old.of id context) }
        ensures same { OnErr result (self.new ≡ self.old) }
    {
        match self.subscriptions.modify(id, counters, context) {
            Ok(()) => Ok(()),
            Err(refusal) => Err(refusal),
        }
    }

    /// Ends a live subscription. Notices that were made of it stay.
    ///
    /// # Errors
    ///
    /// [`CounterRefusal::UnknownSubscription`] (E23) exactly where no live subscription has the number. Nothing changes
    /// then.
    pub fn remove(&mut self, id: u32) -> Result<(), CounterRefusal>
        ensures answer { result ≡ remove_answer self.old.of.contexts id }
        ensures ended { OnOk result (self.new.of ≡ ended self.old.of id) }
        ensures same { OnErr result (self.new ≡ self.old) }
    {
        match self.subscriptions.remove(id) {
            Ok(()) => {
                self.by_account.set(id, None);
                Ok(())
            }
            Err(refusal) => Err(refusal),
        }
    }

    /// Live subscriptions watch another account from now on. Takes no memory.
    pub fn move_to(&mut self, ids: &[u32], account: u32)
        requires live { All (λ id. is_live self.old.of.contexts id ≡ true) ids.now }
        requires room { length ids.now ≤ slice_index self.old.rooms account }
        ensures { self.new.of ≡ moved self.old.of ids.now account }
    {
        for id in ids {
            self.by_account.set(*id, Some(account));
        }
    }

    /// Notices are made, in the order of their subscriptions. Takes no memory.
    pub fn post(&mut self, notices: Vec<Notice>)
        requires order { IsNonDecreasingBy (λ n. n.id) notices.items }
        requires room { vec_len notices ≤ self.old.places }
        ensures posted { self.new.of ≡ all_posted self.old.of notices.items }
        ensures rooms { self.new.rooms ≡ self.old.rooms }
    {
        count_all(&mut self.numbers, &notices);
        self.unsent.put_all(notices);
    }

    /// The notices that were not sent yet, in the order of their subscriptions, those of one in the order in which they
    /// were made.
    pub fn unsent(&self) -> &[Notice]
        ensures value { result.now ≡ self.now.of.unsent }
        ensures ordered { IsNonDecreasingBy (λ n. n.id) result.now }
    {
        self.unsent.as_slice()
    }

    /// Whether the notice with a number is the first of its subscription that was not sent yet.
    pub fn is_first(&self, id: u32, number: u32) -> bool
        ensures { result ≡ is_first self.now.of id number }
    {
        self.unsent.is_first(id, number)
    }

    /// The first notice of a subscription was sent: it leaves.
    pub fn sent(&mut self, id: u32)
        ensures { self.new.of ≡ sent self.old.of id }
    {
        self.unsent.take_first(id);
    }
}
