//! The moves of money that the operator's commands make.
ghost use Rattle.std.specs.Prelude.{◌≡◌, ◌∷◌, ◌<◌, ◌-◌, ◌^◌, ◌↔◌, [], IfOk, IsTrue, None, Some, length};
ghost use Rattle.accounts.specs.Making.{AreMakeable};
ghost use Rattle.accounts.specs.declared.moves.Move.TheVariants.{Expired};
ghost use Rattle.chf_core.specs.CommandMoves.{adding, topping};
ghost use Rattle.chf_core.specs.Machine.{CanTopUp};

use accounts::{Accounts, Moves};
use std::alloc::Global;
use units::{Moment, OutOfMemory};

// Whether the account is there, and so much more can be topped up on it.
fn may_topup(accounts: &Accounts, account: u32, amount: u128) -> bool
    ensures { IsTrue result ↔ CanTopUp accounts.now.state account amount }
{
    match accounts.topups(account) {
        Some(topups) => topups.checked_add(amount).is_some(),
        None => false,
    }
}

// Whether one more account can have a number.
fn may_add(accounts: &Accounts) -> bool
    ensures { IsTrue result ↔ (length accounts.now.state.accounts < 2 ^ 32 - 1) }
{
    accounts.taken(4_294_967_294).is_none()
}

// One account more.
fn one_account(alloc: Global, accounts: &Accounts) -> Result<Moves, OutOfMemory>
    ensures moves { IfOk result (λ m. m ≡ adding None) }
    ensures makeable { IfOk result (λ m. AreMakeable m accounts.now.state) }
{
    if !may_add(accounts) {
        return Err(OutOfMemory);
    }
    let mut moves = Moves::new(alloc);
    moves.add()?;
    Ok(moves)
}

/// An account comes to be with the first row that names it.
pub fn adding(
    alloc: Global,
    accounts: &Accounts,
    account: Option<u32>,
) -> Result<Moves, OutOfMemory>
    ensures moves { IfOk result (λ m. m ≡ adding account) }
    ensures makeable { IfOk result (λ m. AreMakeable m accounts.now.state) }
{
    match account {
        Some(_) => Ok(Moves::new(alloc)),
        None => one_account(alloc, accounts),
    }
}

// An amount is topped up on an account.
fn one_topup(
    alloc: Global,
    accounts: &Accounts,
    account: u32,
    amount: u128,
) -> Result<Moves, OutOfMemory>
    ensures moves { IfOk result (λ m. m ≡ topping amount (Some account)) }
    ensures makeable { IfOk result (λ m. AreMakeable m accounts.now.state) }
{
    if !may_topup(accounts, account, amount) {
        return Err(OutOfMemory);
    }
    let mut moves = Moves::new(alloc);
    moves.topup(account, amount)?;
    Ok(moves)
}

/// An amount is topped up, where the account is known.
pub fn topping(
    alloc: Global,
    accounts: &Accounts,
    amount: u128,
    account: Option<u32>,
) -> Result<Moves, OutOfMemory>
    ensures moves { IfOk result (λ m. m ≡ topping amount account) }
    ensures makeable { IfOk result (λ m. AreMakeable m accounts.now.state) }
{
    match account {
        Some(account) => one_topup(alloc, accounts, account, amount),
        None => Ok(Moves::new(alloc)),
    }
}

/// What is set aside until a moment at the latest is given back.
pub fn expiring(alloc: Global, accounts: &Accounts, moment: Moment) -> Result<Moves, OutOfMemory>
    ensures moves { IfOk result (λ m. m ≡ Expired moment ∷ []) }
    ensures makeable { IfOk result (λ m. AreMakeable m accounts.now.state) }
{
    let mut moves = Moves::new(alloc);
    moves.expire(moment)?;
    Ok(moves)
}
