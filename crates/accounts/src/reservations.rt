//! What is set aside, by session and rating group, with the deadlines in order and the groups of each session.
ghost use Rattle.std.specs.Prelude.{◌≡◌, ◌≢◌, ◌≤◌, ◌<◌, ◌+◌, ◌↔◌, ℕ, IsTrue, IsOk, is_some, OnOk, Contains, None, Some, false};
ghost use Rattle.std.specs.FinMap as map;
ghost use Rattle.std.specs.HashMap.{get, spare};
ghost use Rattle.accounts.specs.declared.due.Due.{Due as DueSeen};
ghost use Rattle.accounts.specs.Reservations.{at, left_of, key_eq};
ghost use Rattle.accounts.specs.Moves.{lessened};
ghost use Rattle.accounts.specs.Endings.{IsOneEnding, Session, Until};
ghost use Rattle.accounts.specs.Deadlines.{deadline_of, IsLeast};
ghost use Rattle.accounts.specs.Chains.{IsChained};
ghost use Rattle.accounts.specs.Indexes.{due_at, AreDue, IsQueued, AreLinked, LatestIsThere, IsGrouped};

use crate::due::{Deadlines, Due};
use crate::groups::Groups;
use crate::reservation::{Key, Reservation};
use std::alloc::{AllocError, Global};
use std::collections::HashMap;
use std::marker::Model;
use units::Moment;

/// The reservations of all sessions, with their deadlines and the groups of each session.
#[derive(Drop)]
pub struct Reservations {
    table: HashMap<Key, Reservation>,
    due: Deadlines,
    groups: Groups,
}

impl Model for Reservations {
    ghost use Rattle.std.specs.Prelude.{min, is_some};
    ghost use Rattle.std.specs.FinMap as map;
    ghost use Rattle.std.specs.HashMap.{get, spare};
    ghost use Rattle.accounts.specs.Reservations.{Stored, coded_stored, key_eq};
    ghost use Rattle.accounts.specs.Deadlines.{deadline_of};
    ghost use Rattle.accounts.specs.Indexes.{IsQueued, IsGrouped};

    ghost Value = { Stored };

    ghost coded = { coded_stored };

    ghost view = { λ r. record { of = map.from_entries r.table.entries; spare = min (min (spare r.table) r.due.spare) (min (spare r.groups.first) (spare r.groups.next)) } };

    ghost invariant = { λ r. IsQueued (λ k. deadline_of (get key_eq r.table k)) r.due.dues × IsGrouped (λ k. is_some (get key_eq r.table k)) r.groups };
}

// Whether this is the deadline of a reservation.
fn is_due(table: &HashMap<Key, Reservation>, due: &Due) -> bool
    ensures { IsTrue result ↔ (deadline_of (get key_eq table.now (at due.now.session due.now.group)) ≡ Some due.now.deadline) }
{
    let key = Key {
        session: due.session,
        group: due.group,
    };
    match table.get(&key) {
        Some(reservation) => match reservation.deadline {
            Some(deadline) => deadline.seconds() == due.deadline,
            None => false,
        },
        None => false,
    }
}

// Takes away what is due first, until that is the deadline of a reservation.
fn settle_due(table: &HashMap<Key, Reservation>, due: &mut Deadlines)
    requires { AreDue (λ k. deadline_of (get key_eq table.now k)) due.old.dues }
    ensures queued { IsQueued (λ k. deadline_of (get key_eq table.now k)) due.new.dues }
    ensures room { due.old.spare ≤ due.new.spare }
{
    while let Some(first) = due.first() {
        if is_due(table, &first) {
            return;
        }
        due.pop();
    }
}

// Adds a deadline, if there is one.
fn enter_due(due: &mut Deadlines, key: &Key, deadline: &Option<Moment>)
    requires { 0 < due.old.spare }
    ensures added { (d : ℕ) → deadline.now ≡ Some d → Contains due.new.dues (due_at d key.now.session key.now.group) }
    ensures kept { (d : DueSeen) → Contains due.old.dues d → Contains due.new.dues d }
    ensures room { due.old.spare ≤ due.new.spare + 1 }
{
    if let Some(deadline) = deadline {
        due.push(Due {
            deadline: deadline.seconds(),
            session: key.session,
            group: key.group,
        });
    }
}

// Takes groups of a session off its chain, until the latest has a reservation.
fn settle_groups(table: &HashMap<Key, Reservation>, groups: &mut Groups, session: u32)
    requires chained { IsChained groups.old }
    requires linked { AreLinked (λ k. is_some (get key_eq table.now k)) groups.old }
    requires latest { (t : ℕ) → t ≢ session → LatestIsThere (λ k. is_some (get key_eq table.now k)) groups.old t }
    ensures grouped { IsGrouped (λ k. is_some (get key_eq table.now k)) groups.new }
    ensures first { spare groups.old.first ≤ spare groups.new.first }
    ensures next { spare groups.old.next ≤ spare groups.new.next }
{
    while let Some(group) = groups.latest(session) {
        if table.contains_key(&Key { session, group }) {
            return;
        }
        groups.unlink(session, group);
    }
}

impl Reservations {
    pub fn new(alloc: Global) -> Reservations
        ensures { result.of ≡ map.empty }
    {
        Reservations {
            table: HashMap::new(alloc),
            due: Deadlines::new(alloc),
            groups: Groups::new(alloc),
        }
    }

    /// Makes room for that many more.
    pub fn make_room(&mut self, n: usize) -> Result<(), AllocError>
        ensures room { OnOk result (n ≤ self.new.spare) }
        ensures there { n ≤ self.old.spare → IsOk result }
        ensures same { self.new.of ≡ self.old.of }
    {
        let table = self.table.reserve(n);
        let due = self.due.make_room(n);
        let groups = self.groups.make_room(n);
        match (table, due, groups) {
            (Ok(()), Ok(()), Ok(())) => Ok(()),
            _ => Err(AllocError),
        }
    }

    /// The reservation at a key.
    pub fn get(&self, key: &Key) -> Option<Reservation>
        ensures { result ≡ map.get self.now.of key.now }
    {
        self.table.get(key).copied()
    }

    /// What is left of the reservation at a key, 0 where there is none.
    pub fn left(&self, key: &Key) -> u128
        ensures { result ≡ left_of (map.get self.now.of key.now) }
    {
        match self.get(key) {
            Some(reservation) => reservation.left,
            None => 0,
        }
    }

    /// Puts a reservation at a key.
    pub fn put(&mut self, key: &Key, reservation: &Reservation)
        requires { 0 < self.old.spare }
        ensures value { self.new.of ≡ map.insert self.old.of key.now reservation.now }
        ensures room { self.old.spare ≤ self.new.spare + 1 }
    {
        let Reservation {
            account,
            left,
            deadline,
        } = *reservation;
        let _ = self.table.insert(
            *key,
            Reservation {
                account,
                left,
                deadline,
            },
        );
        enter_due(&mut self.due, key, &deadline);
        settle_due(&self.table, &mut self.due);
        self.groups.link(key);
    }

    /// Takes an amount from the reservation at a key. One of which nothing is left is none.
    pub fn lessen(&mut self, key: &Key, amount: u128)
        ensures value { self.new.of ≡ lessened self.old.of key.now amount }
        ensures room { self.old.spare ≤ self.new.spare + 1 }
    {
        if let Some(reservation) = self.get(key) {
            if reservation.left <= amount {
                self.remove(key);
            } else {
                let left = reservation.left - amount;
                let _ = self.table.insert(
                    *key,
                    Reservation {
                        left,
                        ..reservation
                    },
                );
            }
        }
    }

    /// Takes away the reservation at a key, if there is one.
    pub fn remove(&mut self, key: &Key)
        ensures value { self.new.of ≡ map.remove self.old.of key.now }
        ensures room { self.old.spare ≤ self.new.spare }
    {
        let _ = self.table.remove(key);
        settle_due(&self.table, &mut self.due);
        settle_groups(&self.table, &mut self.groups, key.session);
    }

    /// A reservation of a session, if it has one.
    pub fn one_of(&self, session: u32) -> Option<Key>
        ensures { IsOneEnding self.now.of (Session session) result }
    {
        match self.groups.latest(session) {
            Some(group) => Some(Key { session, group }),
            None => None,
        }
    }

    /// A reservation whose deadline is at most the moment, if there is one.
    pub fn one_until(&self, moment: &Moment) -> Option<Key>
        ensures { IsOneEnding self.now.of (Until moment.now) result }
    {
        match self.due.first() {
            Some(due) if due.deadline <= moment.seconds() => Some(Key {
                session: due.session,
                group: due.group,
            }),
            _ => None,
        }
    }

    /// The least deadline, if there is one.
    pub fn next_deadline(&self) -> Option<Moment>
        ensures { IsLeast self.now.of result }
    {
        match self.due.first() {
            Some(due) => match self.get(&Key {
                session: due.session,
                group: due.group,
            }) {
                Some(reservation) => reservation.deadline,
                None => None,
            },
            None => None,
        }
    }
}
