//! The notices that come of a change of what was spent on an account.
ghost use Rattle.std.specs.Prelude.{◌≡◌, ◌++◌, IfOk, OnOk, All, true, option_to_list};
ghost use Rattle.std.specs.Option.{option_copied};
ghost use Rattle.std.specs.List.Sorted.{IsNonDecreasing, IsNonDecreasingBy};
ghost use Rattle.counters.specs.Subscriptions.{is_live};
ghost use Rattle.notices.specs.Due.{notice_with, notice_of, notices_of, due, made_of, is_of, watching_for};

use crate::notice::Notice;
use crate::watchers::Watchers;
use counters::Counters;
use std::alloc::Global;
use units::{CounterStatus, List, OutOfMemory, SpendContext, SpendStatus, Text, copy, same};

// The notice of a subscription whose watched counters have these new statuses, where there are any.
fn notice_with(
    id: u32,
    before: u32,
    context: &SpendContext,
    infos: List<CounterStatus>,
) -> Result<Option<Notice>, OutOfMemory>
    ensures { IfOk result (λ n. n ≡ notice_with id before context.now infos) }
{
    if infos.is_empty() {
        return Ok(None);
    }
    match before.checked_add(1) {
        Some(number) => Ok(Some(Notice {
            id,
            number,
            notify: copy(&context.notify)?,
            status: SpendStatus {
                supi: copy(&context.supi)?,
                infos,
            },
        })),
        None => Err(OutOfMemory),
    }
}

// One more notice, where there is one.
fn add(notices: &mut Vec<Notice>, notice: Option<Notice>) -> Result<(), OutOfMemory>
    ensures { OnOk result (notices.new.items ≡ notices.old.items ++ option_to_list notice) }
{
    match notice {
        Some(notice) => Ok(notices.push(notice)?),
        None => Ok(()),
    }
}

// Whether a context is of a subscriber.
fn is_of(supi: &Text, context: Option<&SpendContext>) -> bool
    ensures { result ≡ is_of supi.now (option_copied context.entry) }
{
    match context {
        Some(context) => same(&context.supi, supi),
        None => false,
    }
}

impl Watchers {
    // How many notices were made of a subscription.
    fn made_of(&self, id: u32) -> u32
        ensures { result ≡ made_of self.now.of id }
    {
        let at = (id as usize).saturating_sub(1);
        if at < self.numbers.len() {
            self.numbers[at]
        } else {
            0
        }
    }

    // The notice of a subscription, where there is one.
    fn notice_of(
        &self,
        alloc: Global,
        counters: &Counters,
        before: u128,
        after: u128,
        id: u32,
    ) -> Result<Option<Notice>, OutOfMemory>
        ensures { IfOk result (λ n. n ≡ notice_of counters.now self.now.of before after id) }
    {
        match self.context(id) {
            Some(context) => {
                let infos = counters.changes(alloc, &context.counters, before, after)?;
                notice_with(id, self.made_of(id), context, infos)
            }
            None => Ok(None),
        }
    }

    /// The notices of some subscriptions once so much was spent, in grains, where so much was spent before: of each
    /// that watches a counter which has another status then, and in their order (TS 29.594, 4.2.4).
    pub fn notices_of(
        &self,
        alloc: Global,
        counters: &Counters,
        before: u128,
        after: u128,
        ids: &[u32],
    ) -> Result<Vec<Notice>, OutOfMemory>
        requires { IsNonDecreasing ids.now }
        ensures notices { IfOk result (λ notices. notices.items ≡ notices_of counters.now self.now.of before after ids.now) }
        ensures order { IfOk result (λ notices. IsNonDecreasingBy (λ n. n.id) notices.items) }
    {
        let mut notices = Vec::new(alloc);
        for id in ids {
            add(
                &mut notices,
                self.notice_of(alloc, counters, before, after, *id)?,
            )?;
        }
        Ok(notices)
    }

    /// The notices of the live subscriptions that watch an account, once so much was spent on it, in grains, where so
    /// much was spent before. No other subscription is looked at.
    pub fn due(
        &self,
        alloc: Global,
        counters: &Counters,
        account: u32,
        before: u128,
        after: u128,
    ) -> Result<Vec<Notice>, OutOfMemory>
        ensures notices { IfOk result (λ notices. notices.items ≡ due counters.now self.now.of account before after) }
        ensures order { IfOk result (λ notices. IsNonDecreasingBy (λ n. n.id) notices.items) }
    {
        self.notices_of(
            alloc,
            counters,
            before,
            after,
            self.by_account.watching(account),
        )
    }

    /// The live subscriptions of a subscriber that watch an account, ascending. No subscription of another account is
    /// looked at.
    pub fn watching_for(
        &self,
        alloc: Global,
        supi: &Text,
        account: u32,
    ) -> Result<Vec<u32>, OutOfMemory>
        ensures ids { IfOk result (λ ids. ids.items ≡ watching_for self.now.of supi.now account) }
        ensures ascending { IfOk result (λ ids. IsNonDecreasing ids.items) }
        ensures live { IfOk result (λ ids. All (λ id. is_live self.now.of.contexts id ≡ true) ids.items) }
    {
        let mut found = Vec::new(alloc);
        for id in self.by_account.watching(account) {
            if is_of(supi, self.context(*id)) {
                found.push(*id)?;
            }
        }
        Ok(found)
    }
}
