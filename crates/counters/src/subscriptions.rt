//! Subscriptions to spending limits.
ghost use Rattle.std.specs.Prelude.{◌≡◌, ◌+◌, ◌-◌, ◌^◌, ◌<◌, ◌≤◌, [], length, IfOk, OnOk, OnErr, None};
ghost use Rattle.std.specs.Option.{option_copied};
ghost use Rattle.counters.specs.Watching.{are_known, is_counter};
ghost use Rattle.counters.specs.Subscriptions.{changes_for, context_of, modify_answer, remove_answer, subscribe_answer, subscribed, with_context};

use crate::counters::Counters;
use crate::refusal::CounterRefusal;
use std::alloc::Global;
use std::marker::Model;
use units::{CounterStatus, List, OutOfMemory, SpendContext};

/// Subscriptions to the spending limits of subscribers, by their numbers from 1 (TS 29.594, 5.3).
#[derive(Drop)]
pub struct Subscriptions {
    contexts: Vec<Option<SpendContext>>,
}

impl Model for Subscriptions {
    ghost use Rattle.std.specs.Prelude.{◌-◌, ◌^◌, ◌<◌, vec_len, vec_capacity};
    ghost use Rattle.counters.specs.Subscriptions.{Kept};

    ghost Value = { Kept };

    ghost view = { λ s. record { contexts = s.contexts.items; spare = vec_capacity s.contexts - vec_len s.contexts } };

    ghost invariant = { λ s. vec_len s.contexts < 2 ^ 32 };
}

impl Subscriptions {
    /// No subscription; takes no memory.
    pub fn new(alloc: Global) -> Subscriptions
        ensures { result.contexts ≡ [] }
    {
        Subscriptions {
            contexts: Vec::new(alloc),
        }
    }

    /// Makes room for one more. Nothing else changes, also where it fails.
    pub fn make_room(&mut self, _alloc: Global) -> Result<(), OutOfMemory>
        ensures room { OnOk result (0 < self.new.spare) }
        ensures same { self.new.contexts ≡ self.old.contexts }
    {
        self.contexts.reserve(1)?;
        Ok(())
    }

    /// How many were ever made.
    pub fn made(&self) -> u32
        ensures { result ≡ length self.now.contexts }
    {
        self.contexts.len() as u32
    }

    /// The context that a subscription was last given; `None` exactly where it is not live.
    pub fn context(&self, id: u32) -> Option<&SpendContext>
        ensures { option_copied result ≡ context_of self.now.contexts id }
    {
        let place = id.checked_sub(1)?;
        self.contexts.get(place as usize)?.as_ref()
    }

    /// Makes a subscription, and answers its number, which is one more than there were ever made. Takes a spare place.
    ///
    /// # Errors
    ///
    /// [`CounterRefusal::UnknownCounter`] (E22) exactly where a named counter is not in the table. Nothing changes then.
    pub fn subscribe(
        &mut self,
        counters: &Counters,
        context: SpendContext,
    ) -> Result<u32, CounterRefusal>
        requires spare { 0 < self.old.spare }
        requires few { length self.old.contexts < 2 ^ 32 - 1 }
        ensures answer { result ≡ subscribe_answer counters.now self.old.contexts context }
        ensures made { OnOk result (self.new.contexts ≡ subscribed self.old.contexts context) }
        ensures same { OnErr result (self.new ≡ self.old) }
        ensures spare { self.old.spare ≤ self.new.spare + 1 }
    {
        if !counters.are_known(&context.counters) {
            return Err(CounterRefusal::UnknownCounter);
        }
        self.contexts.push_reserved(Some(context));
        Ok(self.contexts.len() as u32)
    }

    /// Gives a live subscription another context.
    ///
    /// # Errors
    ///
    /// [`CounterRefusal::UnknownSubscription`] (E23) exactly where no live subscription has the number, then
    /// [`CounterRefusal::UnknownCounter`] (E22) exactly where a named counter is not in the table. Nothing changes then.
    pub fn modify(
        &mut self,
        id: u32,
        counters: &Counters,
        context: SpendContext,
    ) -> Result<(), CounterRefusal>
        ensures answer { result ≡ modify_answer counters.now self.old.contexts id context }
        ensures given { OnOk result (self.new.contexts ≡ with_context self.old.contexts id (Some context)) }
        ensures same { OnErr result (self.new ≡ self.old) }
        ensures spare { self.new.spare ≡ self.old.spare }
    {
        if self.context(id).is_none() {
            return Err(CounterRefusal::UnknownSubscription);
        }
        if !counters.are_known(&context.counters) {
            return Err(CounterRefusal::UnknownCounter);
        }
        self.contexts[id as usize - 1] = Some(context);
        Ok(())
    }

    /// Ends a live subscription.
    ///
    /// # Errors
    ///
    /// [`CounterRefusal::UnknownSubscription`] (E23) exactly where no live subscription has the number. Nothing changes then.
    pub fn remove(&mut self, id: u32) -> Result<(), CounterRefusal>
        ensures answer { result ≡ remove_answer self.old.contexts id }
        ensures ended { OnOk result (self.new.contexts ≡ with_context self.old.contexts id None) }
        ensures same { OnErr result (self.new ≡ self.old) }
        ensures spare { self.new.spare ≡ self.old.spare }
    {
        if self.context(id).is_none() {
            return Err(CounterRefusal::UnknownSubscription);
        }
        self.contexts[id as usize - 1] = None;
        Ok(())
    }

    /// The counters that a subscription watches whose status is another after one amount spent than after another, in grains, with
    /// their new statuses, ascending; none where the subscription is not live.
    pub fn changes(
        &self,
        alloc: Global,
        id: u32,
        counters: &Counters,
        before: u128,
        after: u128,
    ) -> Result<List<CounterStatus>, OutOfMemory>
        ensures { IfOk result (λ infos. infos ≡ changes_for counters.now (context_of self.now.contexts id) before after) }
    {
        match self.context(id) {
            Some(context) => counters.changes(alloc, &context.counters, before, after),
            None => Ok(List::new(alloc)),
        }
    }
}
