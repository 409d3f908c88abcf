//! Which subscriptions watch which account.
ghost use Rattle.std.specs.Prelude.{◌≡◌, ◌≤◌, ◌<◌, ◌+◌, ◌-◌, ◌^◌, ◌==◌, ◌++◌, ◌∷◌, [], ℕ, length, Some, OnOk, IfSome, if◌then◌else◌, slice_set};
ghost use Rattle.std.specs.List.Sorted.{IsNonDecreasing};
ghost use Rattle.notices.specs.InOrder.{put_in_order, without_first};
ghost use Rattle.notices.specs.Places.{ids_at, room_at};
ghost use Rattle.notices.specs.Watching.{watches, watching};

use crate::ids::Ids;
use std::alloc::Global;
use std::marker::Model;
use units::OutOfMemory;

/// The account that each subscription watches, where it is live, and the subscriptions of each account.
#[derive(Drop)]
pub struct ByAccount {
    accounts: Vec<Option<u32>>,
    lists: Vec<Ids>,
}

impl Model for ByAccount {
    ghost use Rattle.notices.specs.Places.{Placed};
    ghost use Rattle.notices.specs.Indexed.{placed, IsIndexed};

    ghost Value = { Placed };

    ghost view = { placed };

    ghost invariant = { IsIndexed };
}

// The subscriptions of an account.
fn list_at(lists: &[Ids], account: u32) -> &[u32]
    ensures ids { result.now ≡ ids_at lists.now account }
    ensures ascending { IsNonDecreasing result.now }
{
    match lists.get(account as usize) {
        Some(list) => list.as_slice(),
        None => &[],
    }
}

// A list for each account up to this one.
fn make_lists(alloc: Global, lists: &mut Vec<Ids>, account: u32) -> Result<(), OutOfMemory>
    ensures same { (other : ℕ) → ids_at lists.new.items other ≡ ids_at lists.old.items other }
    ensures there { OnOk result (account < length lists.new.items) }
{
    let missing = (account as usize + 1).saturating_sub(lists.len());
    for _ in 0..missing {
        lists.push(Ids::new(alloc))?;
    }
    Ok(())
}

// Room for that many more subscriptions of an account that has a list.
fn make_room_at(lists: &mut Vec<Ids>, account: u32, n: usize) -> Result<(), OutOfMemory>
    requires { account < length lists.old.items }
    ensures same { (other : ℕ) → ids_at lists.new.items other ≡ ids_at lists.old.items other }
    ensures room { OnOk result (n ≤ room_at lists.new.items account) }
{
    lists[account as usize].make_room(n)
}

// A subscription watches this account no more.
fn take_from(lists: &mut Vec<Ids>, account: u32, id: u32)
    ensures ids { (other : ℕ) → ids_at lists.new.items other ≡ (if account == other then without_first (λ x. x) (ids_at lists.old.items other) id else ids_at lists.old.items other) }
    ensures room { (other : ℕ) → room_at lists.old.items other ≤ room_at lists.new.items other }
{
    if (account as usize) < lists.len() {
        lists[account as usize].take_away(id);
    }
}

// A subscription watches this account from now on.
fn put_into(lists: &mut Vec<Ids>, account: u32, id: u32)
    requires { 0 < room_at lists.old.items account }
    ensures ids { (other : ℕ) → ids_at lists.new.items other ≡ (if account == other then put_in_order (λ x. x) (ids_at lists.old.items other) id else ids_at lists.old.items other) }
    ensures room { room_at lists.new.items account + 1 ≡ room_at lists.old.items account }
{
    if (account as usize) < lists.len() {
        lists[account as usize].put(id);
    }
}

// A subscription watches the account no more that it watched, if it did.
fn leave(lists: &mut Vec<Ids>, account: Option<u32>, id: u32)
    ensures ids { (other : ℕ) → ids_at lists.new.items other ≡ (if watches other account then without_first (λ x. x) (ids_at lists.old.items other) id else ids_at lists.old.items other) }
    ensures room { (other : ℕ) → room_at lists.old.items other ≤ room_at lists.new.items other }
{
    if let Some(account) = account {
        take_from(lists, account, id);
    }
}

// A subscription watches an account from now on, if it does.
fn enter(lists: &mut Vec<Ids>, account: Option<u32>, id: u32)
    requires { IfSome account (λ a. 0 < room_at lists.old.items a) }
    ensures ids { (other : ℕ) → ids_at lists.new.items other ≡ (if watches other account then put_in_order (λ x. x) (ids_at lists.old.items other) id else ids_at lists.old.items other) }
    ensures room { IfSome account (λ a. room_at lists.new.items a + 1 ≡ room_at lists.old.items a) }
{
    if let Some(account) = account {
        put_into(lists, account, id);
    }
}

impl ByAccount {
    pub fn new(alloc: Global) -> ByAccount
        ensures { result.accounts ≡ [] }
    {
        ByAccount {
            accounts: Vec::new(alloc),
            lists: Vec::new(alloc),
        }
    }

    /// Makes room for one more subscription, and for that many more that watch an account.
    pub fn make_room(&mut self, alloc: Global, account: u32, n: usize) -> Result<(), OutOfMemory>
        ensures same { self.new.accounts ≡ self.old.accounts }
        ensures spare { OnOk result (0 < self.new.spare) }
        ensures room { OnOk result (n ≤ room_at self.new.lists account) }
    {
        self.accounts.reserve(1)?;
        make_lists(alloc, &mut self.lists, account)?;
        make_room_at(&mut self.lists, account, n)
    }

    /// The live subscriptions that watch an account, ascending.
    pub fn watching(&self, account: u32) -> &[u32]
        ensures ids { result.now ≡ watching self.now.accounts account }
        ensures ascending { IsNonDecreasing result.now }
    {
        list_at(self.lists.as_slice(), account)
    }

    /// One more subscription, which watches an account.
    pub fn push(&mut self, account: u32)
        requires few { length self.old.accounts < 2 ^ 32 - 1 }
        requires spare { 0 < self.old.spare }
        requires room { 0 < room_at self.old.lists account }
        ensures { self.new.accounts ≡ self.old.accounts ++ Some account ∷ [] }
    {
        let id = self.accounts.len() as u32 + 1;
        put_into(&mut self.lists, account, id);
        self.accounts.push_reserved(Some(account));
    }

    /// A subscription watches this account from now on, or none.
    pub fn set(&mut self, id: u32, account: Option<u32>)
        requires some { 0 < id }
        requires made { id ≤ length self.old.accounts }
        requires room { IfSome account (λ a. 0 < room_at self.old.lists a) }
        ensures accounts { self.new.accounts ≡ slice_set self.old.accounts (id - 1) account }
        ensures room { IfSome account (λ a. room_at self.old.lists a ≤ room_at self.new.lists a + 1) }
    {
        let at = id as usize - 1;
        leave(&mut self.lists, self.accounts[at], id);
        enter(&mut self.lists, account, id);
        self.accounts[at] = account;
    }
}
