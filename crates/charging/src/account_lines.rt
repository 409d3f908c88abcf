//! The account lines, by name in byte order.
ghost use Rattle.std.specs.Prelude.{◌≡◌, ◌++◌, IfOk, OnOk, codes, string_bytes};
ghost use Rattle.std.specs.Fmt.{decimal};
ghost use Rattle.accounts.specs.Ledger.{balance, numbers, reserved};
ghost use Rattle.charging.specs.AccountLines.{account_line, account_lines, accounts_by_name, balance_text, name_text, or_zero, owed_text, sum_of};

use crate::name_order::Name;
use accounts::Accounts;
use chf_core::Chf;
use std::alloc::{AllocError, Global};
use std::collections::BTreeMap;
use units::OutOfMemory;

fn or_zero(amount: Option<u128>) -> u128
    ensures { result ≡ or_zero amount }
{
    match amount {
        Some(amount) => amount,
        None => 0,
    }
}

fn balance_text(alloc: Global, accounts: &Accounts, account: u32) -> Result<String, AllocError>
    ensures { IfOk result (λ t. string_bytes t ≡ balance_text accounts.now.state account) }
{
    let topups = or_zero(accounts.topups(account));
    let balance = or_zero(accounts.balance(account));
    let taken = or_zero(accounts.taken(account));
    format!(in alloc; "{topups},{balance},{taken},")
}

fn owed_text(alloc: Global, accounts: &Accounts, account: u32) -> Result<String, AllocError>
    ensures { IfOk result (λ t. string_bytes t ≡ owed_text accounts.now.state account) }
{
    let owed = or_zero(accounts.owed(account));
    let reserved = or_zero(accounts.reserved(account));
    format!(in alloc; "{owed},{reserved}\n")
}

fn push_account(
    alloc: Global,
    accounts: &Accounts,
    name: &Name,
    account: u32,
    out: &mut Vec<u8>,
) -> Result<(), OutOfMemory>
    ensures { OnOk result (out.new.items ≡ out.old.items ++ account_line accounts.now.state (name.now, account)) }
{
    out.extend_from_slice(b"account,")?;
    out.extend_from_slice(name.as_str().as_bytes())?;
    out.extend_from_slice(b",")?;
    out.extend_from_slice(balance_text(alloc, accounts, account)?.as_bytes())?;
    out.extend_from_slice(owed_text(alloc, accounts, account)?.as_bytes())?;
    Ok(())
}

// The accounts by name, each with its number.
fn accounts_by_name(alloc: Global, chf: &Chf) -> Result<BTreeMap<Name, u32>, OutOfMemory>
    ensures { IfOk result (λ map. map.entries ≡ accounts_by_name chf.now.state) }
{
    let mut entries = BTreeMap::new(alloc);
    for account in 0..chf.account_total() {
        let Some(name) = chf.account_name(account) else {
            unreachable!();
        };
        entries.insert(Name::from_text(alloc, name)?, account)?;
    }
    Ok(entries)
}

/// Writes the account lines.
pub fn push_accounts(alloc: Global, chf: &Chf, out: &mut Vec<u8>) -> Result<(), OutOfMemory>
    ensures { OnOk result (out.new.items ≡ out.old.items ++ account_lines chf.now.state) }
{
    let entries = accounts_by_name(alloc, chf)?;
    for (name, account) in &entries {
        push_account(alloc, chf.accounts(), name, *account, out)?;
    }
    Ok(())
}
