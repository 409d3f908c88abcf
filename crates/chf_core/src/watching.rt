//! Which notices come of a command, and which subscriptions to spending limits watch another account after it.
ghost use Rattle.std.specs.Prelude.{◌≡◌, ◌≤◌, ◌==◌, [], All, IfOk, OnOk, Some, false, true, length, slice_index};
ghost use Rattle.std.specs.List.Sorted.{IsNonDecreasingBy};
ghost use Rattle.counters.specs.Subscriptions.{is_live};
ghost use Rattle.notices.specs.Watched.{moved, all_posted};
ghost use Rattle.notices.specs.Steps.{Moved};
ghost use Rattle.chf_core.specs.Spending.{counters_in, spent_on};
ghost use Rattle.chf_core.specs.State.{at_text};
ghost use Rattle.chf_core.specs.Stepping.{number_for, due_of, moving, moving_to};
ghost use Rattle.chf_core.specs.Machine.{IsMove, CanWatch, Watches};

use crate::chf::Chf;
use crate::decision::Change;
use crate::setup::ChfSetup;
use crate::spending::spent_on;
use crate::target::Target;
use notices::{Notice, Watchers};
use std::alloc::Global;
use units::{OutOfMemory, SpendContext, Text};

/// The subscriptions that watch another account, and the notices of their move.
#[derive(Debug, Drop)]
pub(crate) struct Moving {
    pub(crate) to: u32,
    pub(crate) ids: Vec<u32>,
    pub(crate) notices: Vec<Notice>,
}

// No subscription moves.
fn still(alloc: Global, to: u32) -> Moving
    ensures to { result.to ≡ to }
    ensures ids { result.ids.items ≡ [] }
    ensures notices { result.notices.items ≡ [] }
{
    Moving {
        to,
        ids: Vec::new(alloc),
        notices: Vec::new(alloc),
    }
}

/// Makes room for one more subscription, for those that watch another account after a change, and for the notices that
/// it makes. Nothing else changes, also where it fails.
pub(crate) fn make_watching_room(
    alloc: Global,
    watchers: &mut Watchers,
    change: &Change,
) -> Result<(), OutOfMemory>
    ensures same { watchers.new.of ≡ watchers.old.of }
    ensures room { OnOk result (CanWatch watchers.new change.now) }
{
    watchers.make_room(alloc, change.watched_account(), change.watching_more())?;
    watchers.make_room_for(alloc, change.notices())
}

/// The notices are made, and then subscriptions watch another account. Takes no memory.
pub(crate) fn move_subscriptions(watchers: &mut Watchers, moving: Moving)
    requires live { All (λ id. is_live watchers.old.of.contexts id ≡ true) moving.ids.items }
    requires order { IsNonDecreasingBy (λ n. n.id) moving.notices.items }
    requires room { length moving.ids.items ≤ slice_index watchers.old.rooms moving.to }
    requires places { length moving.notices.items ≤ watchers.old.places }
    ensures { watchers.new.of ≡ moved (all_posted watchers.old.of moving.notices.items) moving.ids.items moving.to }
{
    let Moving { to, ids, notices } = moving;
    watchers.post(notices);
    watchers.move_to(&ids, to);
}

impl Chf {
    /// The number that the account with a name has, or gets with the first row that names it.
    pub(crate) fn number_for(&self, account: &Text) -> u32
        ensures { result ≡ number_for self.now.state.names account.now }
    {
        match self.account_named(account) {
            Some(number) => number,
            None => self.names.count(),
        }
    }

    /// The notices that a request makes, on whose account so much was spent before it and after it, in grains.
    pub(crate) fn notices_by(
        &self,
        alloc: Global,
        setup: &ChfSetup,
        target: Option<Target>,
        before: u128,
        after: u128,
    ) -> Result<Vec<Notice>, OutOfMemory>
        ensures made { IfOk result (λ notices. notices.items ≡ due_of setup.now.counters self.now.state.watched target before after) }
        ensures order { IfOk result (λ notices. IsNonDecreasingBy (λ n. n.id) notices.items) }
    {
        match target {
            Some(t) => self
                .watchers
                .due(alloc, &setup.counters, t.account, before, after),
            None => Ok(Vec::new(alloc)),
        }
    }

    // The subscriptions of a subscriber that moves from one account to another.
    fn moved(&self, alloc: Global, supi: &Text, from: u32, to: u32) -> Result<Moving, OutOfMemory>
        requires begun { (self.now.state.count == 0) ≡ false }
        ensures { IfOk result (IsMove (counters_in self.now.state.setup) self.now.state.watched to
            (Some (Moved supi.now from to (spent_on self.now.state.money (Some from)) (spent_on self.now.state.money (Some to))))) }
    {
        let counters = &self.set_up().counters;
        let before = spent_on(&self.accounts, Some(from))?;
        let after = spent_on(&self.accounts, Some(to))?;
        let ids = self.watchers.watching_for(alloc, supi, from)?;
        let notices = self
            .watchers
            .notices_of(alloc, counters, before, after, &ids)?;
        Ok(Moving { to, ids, notices })
    }

    // The same, which may be one account.
    fn moving(&self, alloc: Global, supi: &Text, from: u32, to: u32) -> Result<Moving, OutOfMemory>
        requires begun { (self.now.state.count == 0) ≡ false }
        ensures { IfOk result (IsMove (counters_in self.now.state.setup) self.now.state.watched to
            (moving self.now.state.money self.now.state.money supi.now from to)) }
    {
        if from == to {
            Ok(still(alloc, to))
        } else {
            self.moved(alloc, supi, from, to)
        }
    }

    /// The subscriptions of a subscriber whose row names this account from now on.
    pub(crate) fn moving_to(
        &self,
        alloc: Global,
        supi: &Text,
        account: &Text,
    ) -> Result<Moving, OutOfMemory>
        requires begun { (self.now.state.count == 0) ≡ false }
        ensures { IfOk result (IsMove (counters_in self.now.state.setup) self.now.state.watched
            (number_for self.now.state.names account.now)
            (moving_to self.now.state.names self.now.state.money self.now.state.money supi.now account.now
            (at_text self.now.state.subscribers supi.now))) }
    {
        let to = self.number_for(account);
        match self.subscribers.get(supi.as_str()) {
            Some(row) => self.moving(alloc, supi, self.number_for(&row.account), to),
            None => Ok(still(alloc, to)),
        }
    }

    /// The account that a subscription is to watch.
    pub(crate) fn account_to_watch(&self, context: &SpendContext) -> u32
        ensures { Watches self.now.state context.now result }
    {
        match self.subscribers.get(context.supi.as_str()) {
            Some(row) => self.number_for(&row.account),
            None => 0,
        }
    }

    /// The notices that were not sent yet, in the order of their subscriptions, those of one in the order in which they
    /// were made (TS 29.594, 4.2.4).
    pub fn notices(&self) -> &[Notice]
        ensures { result.now ≡ self.now.state.watched.unsent }
    {
        self.watchers.unsent()
    }
}
