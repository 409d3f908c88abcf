//! Turns of charges and reservations of accounts.
ghost use Rattle.std.specs.Prelude.{◌≡◌, ◌<◌, ◌≤◌, OnOk, IfOk};
ghost use Rattle.benchmarks.specs.Books.{IsOnFirst};

use crate::draws::Draws;
use accounts::{Accounts, reservations_stay};
use std::alloc::Global;
use units::{Moment, OutOfMemory};

// One account with more money than any turns take.
fn one_account(alloc: Global) -> Result<Accounts, OutOfMemory>
    ensures { IfOk result (λ a. IsOnFirst a.state) }
{
    reservations_stay();
    let mut accounts = Accounts::new(alloc);
    accounts.make_room(alloc, 1)?;
    let account = accounts.add();
    accounts.topup(account, 1 << 100);
    Ok(accounts)
}

// Charges a reservation, where the sums still fit.
fn charge(accounts: &mut Accounts, session: u32, group: u32, amount: u32)
    requires spare { 0 < accounts.old.spare }
    requires first { IsOnFirst accounts.old.state }
    ensures { IsOnFirst accounts.new.state }
{
    reservations_stay();
    let taken = accounts.taken(0).unwrap_or(0);
    let owed = accounts.owed(0).unwrap_or(0);
    if taken >= 1 << 120 || owed >= 1 << 120 {
        return;
    }
    accounts.charge(0, session, group, 1, u128::from(amount));
}

// Sets an amount aside where nothing is.
fn reserve(accounts: &mut Accounts, session: u32, group: u32, amount: u32)
    requires spare { 0 < accounts.old.spare }
    requires first { IsOnFirst accounts.old.state }
    ensures { IsOnFirst accounts.new.state }
{
    reservations_stay();
    if accounts.left(session, group) != 0 {
        return;
    }
    let _ = accounts.reserve(
        0,
        session,
        group,
        u128::from(amount),
        Moment::new(3_000_000_000),
    );
}

// Gives back what is left.
fn release(accounts: &mut Accounts, session: u32, group: u32)
    requires { IsOnFirst accounts.old.state }
    ensures { IsOnFirst accounts.new.state }
{
    reservations_stay();
    accounts.release(session, group);
}

// The place of a reservation among the sessions, each of the same number of rating groups.
fn place(draw: u64, sessions: u64, groups: u64) -> (u32, u32) {
    let session = u32::try_from(draw % sessions.max(1)).unwrap_or(0);
    let group = u32::try_from(draw / sessions.max(1) % groups.max(1)).unwrap_or(0);
    (session, group)
}

/// Sets amounts aside for each rating group of each session, then makes that many turns of a charge, a release and a
/// reserve at drawn places of the first sessions, as many as are active, and sums up what is left.
pub fn charges(
    alloc: Global,
    sessions: u64,
    groups: u64,
    active: u64,
    turns: u64,
) -> Result<u64, OutOfMemory> {
    let mut accounts = one_account(alloc)?;
    for draw in 0..sessions.saturating_mul(groups) {
        let (session, group) = place(draw, sessions, groups);
        accounts.make_room(alloc, 1)?;
        reserve(&mut accounts, session, group, 1000);
    }
    let mut draws = Draws::new(1);
    let mut left = 0u64;
    for _ in 0..turns {
        let (session, group) = place(draws.next(), active, groups);
        accounts.make_room(alloc, 2)?;
        charge(&mut accounts, session, group, 1);
        release(&mut accounts, session, group);
        accounts.make_room(alloc, 1)?;
        reserve(&mut accounts, session, group, 1000);
        left = left.wrapping_add((accounts.left(session, group) % (1 << 64)) as u64);
    }
    Ok(left)
}
