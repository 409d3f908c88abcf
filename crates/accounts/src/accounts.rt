//! The calls of the accounts: each makes one move, or reads.
ghost use Rattle.std.specs.Prelude.{◌≡◌, ◌≤◌, ◌<◌, ◌+◌, ◌-◌, ◌^◌, ℕ, length, IfSome, IsOk, MatchOption, None, OnOk, OnErr, not, ◌==◌};
ghost use Rattle.std.specs.FinMap as map;
ghost use Rattle.accounts.specs.Reservations.{at};
ghost use Rattle.accounts.specs.Endings.{count_ending, IsOneEnding, Session, Until};
ghost use Rattle.accounts.specs.Ledger.{numbers, balance, left, reserved, free, from_own, from_free, uncovered};
ghost use Rattle.accounts.specs.Moves.{Added, ToppedUp, Charged, Reserved, Released, ReleasedAll, Expired, after, empty_state};
ghost use Rattle.accounts.specs.Answers.{where_known, reserve_answer};
ghost use Rattle.accounts.specs.Deadlines.{IsLeast};
ghost use Rattle.accounts.specs.Balanced.{IsBalanced};
ghost use Rattle.accounts.specs.Caches.{IsRead};

use crate::account::Account;
use crate::charge::Charge;
use crate::line::Line;
use crate::refusal::AccountRefusal;
use crate::reservation::{Key, Reservation};
use crate::reservations::Reservations;
use std::alloc::Global;
use std::marker::Model;
use units::{Moment, OutOfMemory};

/// The accounts, what is set aside from them for sessions, and the ledger (this product's own).
///
/// Accounts and sessions are numbers here. Amounts are in grains, which are 10^-12 of a unit of the currency, and the sums of an
/// account stay below 2^128, which is the caller's condition.
#[derive(Drop)]
pub struct Accounts {
    accounts: Vec<Account>,
    reservations: Reservations,
    lines: Vec<Line>,
}

impl Model for Accounts {
    ghost use Rattle.accounts.specs.Ledger.{Contents, coded_contents};
    ghost use Rattle.accounts.specs.Caches.{contents, HasKept};

    ghost Value = { Contents };

    ghost coded = { coded_contents };

    ghost view = { contents };

    ghost invariant = { HasKept };
}

impl Accounts {
    /// No account. Takes no memory.
    pub fn new(alloc: Global) -> Accounts
        ensures { result.state ≡ empty_state }
    {
        Accounts {
            accounts: Vec::new(alloc),
            reservations: Reservations::new(alloc),
            lines: Vec::new(alloc),
        }
    }

    /// Makes room for that many more accounts, lines and reservations. Nothing else changes, also where it fails; it does not where the
    /// room is there already.
    pub fn make_room(&mut self, _alloc: Global, n: usize) -> Result<(), OutOfMemory>
        ensures room { OnOk result (n ≤ self.new.spare) }
        ensures there { n ≤ self.old.spare → IsOk result }
        ensures same { self.new.state ≡ self.old.state }
    {
        self.accounts.reserve(n)?;
        self.lines.reserve(n)?;
        self.reservations.make_room(n)?;
        Ok(())
    }

    /// Adds an account and answers its number, which is how many there were before. Takes a spare place.
    pub fn add(&mut self) -> u32
        requires spare { 0 < self.old.spare }
        requires few { length self.old.state.accounts < 2 ^ 32 - 1 }
        ensures number { result ≡ length self.old.state.accounts }
        ensures state { self.new.state ≡ after Added self.old.state }
        ensures spare { self.old.spare ≤ self.new.spare + 1 }
        ensures taken { self.new.spare ≤ self.old.spare }
    {
        let number = self.accounts.len() as u32;
        self.accounts.push_reserved(Account::empty());
        number
    }

    /// Adds an amount to an account, which pays what is owed first.
    pub fn topup(&mut self, account: u32, amount: u128)
        requires known { account < length self.old.state.accounts }
        requires bound { (numbers self.old.state account).topups + amount < 2 ^ 128 }
        ensures state { self.new.state ≡ after (ToppedUp account amount) self.old.state }
        ensures spare { self.new.spare ≡ self.old.spare }
    {
        let one = self.accounts[account as usize].topped_up(amount);
        self.accounts[account as usize] = one;
    }

    /// Charges an amount to an account: it is taken from what is set aside for the session and rating group, then from
    /// what is free, and the rest is owed. The ledger has a line more. Takes a spare place.
    pub fn charge(
        &mut self,
        account: u32,
        session: u32,
        group: u32,
        lsn: u32,
        amount: u128,
    ) -> Charge
        requires spare { 0 < self.old.spare }
        requires known { account < length self.old.state.accounts }
        requires owner { IfSome (map.get self.old.state.reservations (at session group)) (λ r. r.account ≡ account) }
        requires bound { (numbers self.old.state account).taken + (numbers self.old.state account).owed + amount < 2 ^ 128 }
        ensures own { result.from_own ≡ from_own self.old.state (at session group) amount }
        ensures free { result.from_free ≡ from_free self.old.state account (at session group) amount }
        ensures owed { result.owed ≡ uncovered self.old.state account (at session group) amount }
        ensures state { self.new.state ≡ after (Charged account session group lsn amount) self.old.state }
        ensures spare { self.old.spare ≤ self.new.spare + 1 }
    {
        let key = Key { session, group };
        let left = self.reservations.left(&key);
        let one = self.accounts[account as usize];
        let parts = one.parts(left, amount);
        self.accounts[account as usize] = one.debited(parts);
        self.reservations.lessen(&key, amount);
        self.lines.push_reserved(Line {
            account,
            session,
            lsn,
            amount,
        });
        parts
    }

    /// Sets an amount aside for a session and rating group that has none, where that much is free. It is given back at
    /// the deadline, if there is one. Takes a spare place.
    ///
    /// # Errors
    ///
    /// [`AccountRefusal::UnknownAccount`] (E15), then [`AccountRefusal::Exceeds`] (E16) with what is free. Nothing
    /// changes then.
    pub fn reserve(
        &mut self,
        account: u32,
        session: u32,
        group: u32,
        amount: u128,
        deadline: Option<Moment>,
    ) -> Result<(), AccountRefusal>
        requires spare { 0 < self.old.spare }
        requires none { map.get self.old.state.reservations (at session group) ≡ None }
        ensures answer { result ≡ reserve_answer self.old.state account amount }
        ensures state { OnOk result (self.new.state ≡ after (Reserved account session group amount deadline) self.old.state) }
        ensures same { OnErr result (self.new ≡ self.old) }
        ensures spare { self.old.spare ≤ self.new.spare + 1 }
    {
        if account as usize >= self.accounts.len() {
            return Err(AccountRefusal::UnknownAccount);
        }
        let one = self.accounts[account as usize];
        let available = one.free();
        if amount > available {
            return Err(AccountRefusal::Exceeds { available });
        }
        if amount == 0 {
            return Ok(());
        }
        self.accounts[account as usize] = one.with_reserved(one.reserved + amount);
        let key = Key { session, group };
        self.reservations.put(
            &key,
            &Reservation {
                account,
                left: amount,
                deadline,
            },
        );
        Ok(())
    }

    /// Gives back what is left of the reservation of a session and rating group, if there is one.
    pub fn release(&mut self, session: u32, group: u32)
        ensures state { self.new.state ≡ after (Released session group) self.old.state }
        ensures spare { self.old.spare ≤ self.new.spare }
    {
        let key = Key { session, group };
        if let Some(reservation) = self.reservations.get(&key) {
            let one = self.accounts[reservation.account as usize];
            self.accounts[reservation.account as usize] = one.with_reserved(
                one.reserved - reservation.left,
            );
            self.reservations.remove(&key);
        }
    }

    /// Gives back what is left of each reservation of a session.
    pub fn release_all(&mut self, session: u32)
        ensures state { self.new.state ≡ after (ReleasedAll session) self.old.state }
        ensures spare { self.old.spare ≤ self.new.spare }
    {
        while let Some(key) = self.one_of(session) {
            self.release(key.session, key.group);
        }
    }

    /// Gives back what is left of each reservation whose deadline is at most the moment, and answers how many.
    pub fn expire(&mut self, moment: Moment) -> u32
        requires few { count_ending self.old.state.reservations (Until moment) < 2 ^ 32 }
        ensures state { self.new.state ≡ after (Expired moment) self.old.state }
        ensures count { result ≡ count_ending self.old.state.reservations (Until moment) }
        ensures spare { self.old.spare ≤ self.new.spare }
    {
        let mut count = 0;
        while let Some(key) = self.one_until(&moment) {
            self.release(key.session, key.group);
            count += 1;
        }
        count
    }

    /// Gives back what is left of each reservation whose deadline is at most the moment.
    pub fn release_until(&mut self, moment: Moment)
        ensures state { self.new.state ≡ after (Expired moment) self.old.state }
        ensures spare { self.old.spare ≤ self.new.spare }
    {
        while let Some(key) = self.one_until(&moment) {
            self.release(key.session, key.group);
        }
    }

    /// Whether the deadline of a reservation is at most the moment, so that something would be given back.
    pub fn is_due(&self, moment: Moment) -> bool
        ensures { result ≡ not (count_ending self.now.state.reservations (Until moment) == 0) }
    {
        self.one_until(&moment).is_some()
    }

    // A reservation of a session, if it has one.
    fn one_of(&self, session: u32) -> Option<Key>
        ensures { IsOneEnding self.now.state.reservations (Session session) result }
    {
        self.reservations.one_of(session)
    }

    // A reservation whose deadline is at most the moment, if there is one.
    fn one_until(&self, moment: &Moment) -> Option<Key>
        ensures { IsOneEnding self.now.state.reservations (Until moment.now) result }
    {
        self.reservations.one_until(moment)
    }

    // The account of that number, if there is one.
    fn find(&self, account: u32) -> Option<Account>
        ensures { MatchOption result (length self.now.state.accounts ≤ account) (λ one. IsRead self.now.state account one) }
    {
        self.accounts.get(account as usize).copied()
    }

    /// An account's balance: its top-ups less what was taken. `None` exactly for an unknown account.
    pub fn balance(&self, account: u32) -> Option<u128>
        ensures { result ≡ where_known self.now.state account (balance self.now.state account) }
    {
        match self.find(account) {
            Some(one) => Some(one.balance()),
            None => None,
        }
    }

    /// An account's top-ups: the sum of the amounts topped up. `None` exactly for an unknown account.
    pub fn topups(&self, account: u32) -> Option<u128>
        ensures { result ≡ where_known self.now.state account (numbers self.now.state account).topups }
    {
        match self.find(account) {
            Some(one) => Some(one.topups),
            None => None,
        }
    }

    /// What was taken of an account's top-ups. `None` exactly for an unknown account.
    pub fn taken(&self, account: u32) -> Option<u128>
        ensures { result ≡ where_known self.now.state account (numbers self.now.state account).taken }
    {
        match self.find(account) {
            Some(one) => Some(one.taken),
            None => None,
        }
    }

    /// What is owed on an account. `None` exactly for an unknown account.
    pub fn owed(&self, account: u32) -> Option<u128>
        ensures { result ≡ where_known self.now.state account (numbers self.now.state account).owed }
    {
        match self.find(account) {
            Some(one) => Some(one.owed),
            None => None,
        }
    }

    /// What is set aside from an account: the sum of its reservations. `None` exactly for an unknown account.
    pub fn reserved(&self, account: u32) -> Option<u128>
        ensures { result ≡ where_known self.now.state account (reserved self.now.state account) }
    {
        match self.find(account) {
            Some(one) => Some(one.reserved),
            None => None,
        }
    }

    /// What is free on an account: its balance less what is set aside. `None` exactly for an unknown account.
    pub fn free(&self, account: u32) -> Option<u128>
        ensures { result ≡ where_known self.now.state account (free self.now.state account) }
    {
        match self.find(account) {
            Some(one) => Some(one.free()),
            None => None,
        }
    }

    /// What is left of the reservation of a session and rating group, 0 where there is none.
    pub fn left(&self, session: u32, group: u32) -> u128
        ensures value { result ≡ left self.now.state (at session group) }
        ensures none { result ≡ 0 → map.get self.now.state.reservations (at session group) ≡ None }
    {
        self.reservations.left(&Key { session, group })
    }

    /// The least deadline of a reservation of which something is left. `None` exactly where there is none.
    pub fn next_deadline(&self) -> Option<Moment>
        ensures { IsLeast self.now.state.reservations result }
    {
        self.reservations.next_deadline()
    }

    /// The ledger, the oldest line first. Of each account the balance and the lines are together the top-ups and what
    /// is owed, and what is set aside is within the balance.
    pub fn lines(&self) -> &[Line]
        ensures value { result.now ≡ self.now.state.lines }
        ensures balanced { (account : ℕ) → IsBalanced self.now.state account }
    {
        &self.lines
    }
}
