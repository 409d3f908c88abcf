//! What a subscription to spending limits is told.
ghost use Rattle.std.specs.Prelude.{◌≡◌, ◌<◌, ◌+◌, ◌-◌, ◌^◌, ◌==◌, false, length, unwrap_or, IfOk};
ghost use Rattle.chf_core.specs.Spending.{spent_on};
ghost use Rattle.chf_core.specs.Deciding.{spent_of, status_for};

use crate::chf::Chf;
use accounts::Accounts;
use std::alloc::Global;
use units::{OutOfMemory, SpendContext, SpendStatus, Text, copy};

// What was taken of an account and what it owes together; it fails where that does not fit its type.
fn sum(taken: Option<u128>, owed: Option<u128>) -> Result<u128, OutOfMemory>
    ensures { IfOk result (λ n. n ≡ unwrap_or taken 0 + unwrap_or owed 0) }
{
    match taken.unwrap_or(0).checked_add(owed.unwrap_or(0)) {
        Some(sum) => Ok(sum),
        None => Err(OutOfMemory),
    }
}

/// What was spent on an account, in grains.
#[tactic(auto, using(crate::proofs::Subscribed::spent_is))]
pub(crate) fn spent_on(accounts: &Accounts, account: Option<u32>) -> Result<u128, OutOfMemory>
    ensures { IfOk result (λ n. n ≡ spent_on accounts.now.state account) }
{
    match account {
        Some(account) => sum(accounts.taken(account), accounts.owed(account)),
        None => Ok(0),
    }
}

impl Chf {
    // What was spent on the account of a subscriber.
    fn spent_of(&self, supi: &Text) -> Result<u128, OutOfMemory>
        ensures { IfOk result (λ n. n ≡ spent_of self.now.state supi.now) }
    {
        spent_on(&self.accounts, self.account_of(supi))
    }

    /// The statuses of the counters that a context watches.
    pub(crate) fn status_for(
        &self,
        alloc: Global,
        context: &SpendContext,
    ) -> Result<SpendStatus, OutOfMemory>
        requires begun { (self.now.state.count == 0) ≡ false }
        ensures { IfOk result (λ s. s ≡ status_for self.now.state context.now) }
    {
        let counters = &self.set_up().counters;
        let spent = self.spent_of(&context.supi)?;
        Ok(SpendStatus {
            supi: copy(&context.supi)?,
            infos: counters.statuses(alloc, &context.counters, spent)?,
        })
    }

    /// The number of the next subscription.
    pub(crate) fn next_subscription(&self) -> u32
        requires { self.now.state.count < 2 ^ 32 - 1 }
        ensures { result ≡ length self.now.state.watched.contexts + 1 }
    {
        self.watchers.made() + 1
    }
}
