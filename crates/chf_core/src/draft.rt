//! The moves of a request, worked out once without a change to the accounts, and what is said of its grants.
ghost use Rattle.std.specs.Prelude.{◌≡◌, ◌≤◌, ◌||◌, ◌++◌, ◌∷◌, [], OnOk, IfOk, IfSome, Some, None, is_some, map as each};
ghost use Rattle.std.specs.FinMap as map;
ghost use Rattle.accounts.specs.Reservations.{at};
ghost use Rattle.accounts.specs.declared.moves.Move.TheVariants.{Charged as ChargedMove, Released as ReleasedMove, Reserved as ReservedMove};
ghost use Rattle.accounts.specs.Ledger.{State as Money};
ghost use Rattle.accounts.specs.Making.{made, AreMakeable};
ghost use Rattle.chf_core.specs.Admits.{OwnsAll, AreClear};
ghost use Rattle.chf_core.specs.Effect.{gives_back, rating_by};
ghost use Rattle.chf_core.specs.Spending.{spent_on};
ghost use Rattle.chf_core.specs.CommandMoves.{charge_of, charges, release_of, releases, reserve_of, grants, info_for, closing, moves_for, infos_for};
ghost use Rattle.chf_core.specs.Drafts.{left_in, drafted, Holds};

use crate::asks::asks_of;
use crate::barred::Barred;
use crate::give_back::gives_back;
use crate::grants::{deadline_for, grant_for, info_for};
use crate::target::{GroupAsk, Target};
use accounts::{Accounts, Moves, moves_change_free};
use rating::Tariffs;
use std::alloc::Global;
use std::collections::HashMap;
use units::{List, Moment, Operation, OutOfMemory, Request, UnitInfo, UnitUsage, Used};

// An empty list with a place for each of so many groups and no more, since a reply is kept.
fn places_for(alloc: Global, count: usize) -> Result<List<UnitInfo>, OutOfMemory>
    ensures { IfOk result (λ l. l ≡ []) }
{
    Ok(List::from_vec(Vec::with_capacity(alloc, count)?))
}

/// The moves so far; what would be free on the account after them, what was charged to it, and what is left of the
/// groups that they change.
#[derive(Drop)]
pub(crate) struct Draft {
    pub(crate) free: u128,
    pub(crate) used: u128,
    pub(crate) lefts: HashMap<u32, u128>,
    pub(crate) moves: Moves,
}

impl Draft {
    // What would be left of a group's quota.
    fn left(&self, accounts: &Accounts, t: Target, group: u32) -> u128
        ensures { result ≡ left_in self.now accounts.now.state t group }
    {
        match self.lefts.get(&group) {
            Some(left) => *left,
            None => accounts.left(t.session, group),
        }
    }

    // A charge takes what its group's quota does not cover from what is free.
    fn charge(
        &mut self,
        accounts: &Accounts,
        t: Target,
        group: u32,
        lsn: u32,
        amount: u128,
    ) -> Result<(), OutOfMemory>
        ensures moves { OnOk result (self.new.moves
            ≡ self.old.moves ++ ChargedMove t.account t.session group lsn amount ∷ []) }
        ensures holds { OnOk result (Holds self.old accounts.now.state t → Holds self.new accounts.now.state t) }
    {
        moves_change_free();
        let left = self.left(accounts, t, group);
        let Some(used) = self.used.checked_add(amount) else {
            return Err(OutOfMemory);
        };
        self.lefts.insert(group, left.saturating_sub(amount))?;
        self.moves.charge(t.account, t.session, group, lsn, amount)?;
        self.used = used;
        self.free = self.free.saturating_sub(amount.saturating_sub(left));
        Ok(())
    }

    // A release gives back what is left.
    fn release(&mut self, accounts: &Accounts, t: Target, group: u32) -> Result<(), OutOfMemory>
        ensures moves { OnOk result (self.new.moves ≡ self.old.moves ++ ReleasedMove t.session group ∷ []) }
        ensures holds { OnOk result (Holds self.old accounts.now.state t → Holds self.new accounts.now.state t) }
    {
        moves_change_free();
        let left = self.left(accounts, t, group);
        let Some(free) = self.free.checked_add(left) else {
            return Err(OutOfMemory);
        };
        self.lefts.insert(group, 0)?;
        self.moves.release(t.session, group)?;
        self.free = free;
        Ok(())
    }

    // The containers of an entry are charged.
    fn charge_used(
        &mut self,
        accounts: &Accounts,
        tariffs: &Tariffs,
        t: Target,
        group: u32,
        used: &[Used],
    ) -> Result<(), OutOfMemory>
        ensures moves { OnOk result (self.new.moves ≡ self.old.moves ++ each (charge_of tariffs.now t group) used.now) }
        ensures holds { OnOk result (Holds self.old accounts.now.state t → Holds self.new accounts.now.state t) }
    {
        for container in used {
            let amount = tariffs.price(
                group,
                container.up,
                container.down,
                container.seconds,
                container.first,
            );
            self.charge(accounts, t, group, container.lsn, amount)?;
        }
        Ok(())
    }

    // So for each entry.
    fn charge_all(
        &mut self,
        accounts: &Accounts,
        tariffs: &Tariffs,
        t: Target,
        usage: &[UnitUsage],
    ) -> Result<(), OutOfMemory>
        ensures moves { OnOk result (self.new.moves ≡ self.old.moves ++ charges tariffs.now t usage.now) }
        ensures holds { OnOk result (Holds self.old accounts.now.state t → Holds self.new accounts.now.state t) }
    {
        for entry in usage {
            self.charge_used(accounts, tariffs, t, entry.group, entry.used.as_slice())?;
        }
        Ok(())
    }

    // The group of an entry that asks or gives back is released.
    fn release_one(
        &mut self,
        accounts: &Accounts,
        t: Target,
        entry: &UnitUsage,
    ) -> Result<(), OutOfMemory>
        ensures moves { OnOk result (self.new.moves ≡ self.old.moves ++ release_of t entry.now) }
        ensures holds { OnOk result (Holds self.old accounts.now.state t → Holds self.new accounts.now.state t) }
    {
        if entry.ask.is_some() || gives_back(entry) {
            self.release(accounts, t, entry.group)?;
        }
        Ok(())
    }

    // So for each entry.
    fn release_all(
        &mut self,
        accounts: &Accounts,
        t: Target,
        usage: &[UnitUsage],
    ) -> Result<(), OutOfMemory>
        ensures moves { OnOk result (self.new.moves ≡ self.old.moves ++ releases t usage.now) }
        ensures holds { OnOk result (Holds self.old accounts.now.state t → Holds self.new accounts.now.state t) }
    {
        for entry in usage {
            self.release_one(accounts, t, entry)?;
        }
        Ok(())
    }

    // Sets aside what a group is granted, which is free.
    fn reserve(
        &mut self,
        accounts: &Accounts,
        t: Target,
        group: u32,
        amount: u128,
        deadline: Option<Moment>,
    ) -> Result<(), OutOfMemory>
        requires { amount ≤ self.old.free }
        ensures moves { OnOk result (self.new.moves
            ≡ self.old.moves ++ ReservedMove t.account t.session group amount deadline ∷ []) }
        ensures holds { OnOk result (Holds self.old accounts.now.state t
            → map.get (drafted self.old accounts.now.state).reservations (at t.session group) ≡ None
            → Holds self.new accounts.now.state t) }
    {
        moves_change_free();
        self.lefts.insert(group, amount)?;
        self.moves
            .reserve(t.account, t.session, group, amount, deadline)?;
        self.free -= amount;
        Ok(())
    }

    // Grants each group that asks, and says what it is granted.
    fn grant_all(
        &mut self,
        alloc: Global,
        accounts: &Accounts,
        tariffs: &Tariffs,
        grace: u32,
        barred: &Barred,
        t: Target,
        stamp: Moment,
        asks: &[GroupAsk],
    ) -> Result<List<UnitInfo>, OutOfMemory>
        requires holds { Holds self.old accounts.now.state t }
        requires clear { AreClear t asks.now (drafted self.old accounts.now.state) }
        ensures moves { IfOk result (λ _. self.new.moves
            ≡ self.old.moves ++ each (reserve_of (rating_by tariffs.now grace barred.now) t stamp)
            (grants (rating_by tariffs.now grace barred.now) t stamp asks.now (drafted self.old accounts.now.state))) }
        ensures infos { IfOk result (λ l. l
            ≡ each (info_for (rating_by tariffs.now grace barred.now) stamp)
            (grants (rating_by tariffs.now grace barred.now) t stamp asks.now (drafted self.old accounts.now.state))) }
        ensures holds { IfOk result (λ _. Holds self.new accounts.now.state t) }
    {
        let mut told = places_for(alloc, asks.len())?;
        for a in asks {
            let grant = grant_for(tariffs, barred, self.free, a);
            let deadline = deadline_for(tariffs, grace, stamp, a.group);
            self.reserve(accounts, t, a.group, grant.reserve, deadline)?;
            told.push(info_for(alloc, tariffs, stamp, a.group, grant))?;
        }
        Ok(told)
    }

    // A Release gives back what its session still has.
    fn close(&mut self, t: Target, operation: Operation) -> Result<(), OutOfMemory>
        ensures moves { OnOk result (self.new.moves ≡ self.old.moves ++ closing operation t) }
        ensures makeable { OnOk result ((s : Money) → AreMakeable self.old.moves s → AreMakeable self.new.moves s) }
        ensures used { OnOk result (self.new.used ≡ self.old.used) }
    {
        if let Operation::Release(_) = operation {
            self.moves.release_all(t.session)?;
        }
        Ok(())
    }

    // No moves.
    fn begin(alloc: Global, accounts: &Accounts, t: Target) -> Option<Draft>
        requires owner { OwnsAll t accounts.now.state }
        ensures none { IfSome result (λ d. d.moves ≡ []) }
        ensures holds { IfSome result (λ d. Holds d accounts.now.state t) }
    {
        let _lines = accounts.lines();
        let free = accounts.free(t.account)?;
        let used = accounts
            .taken(t.account)?
            .checked_add(accounts.owed(t.account)?)?;
        Some(Draft {
            free,
            used,
            lefts: HashMap::new(alloc),
            moves: Moves::new(alloc),
        })
    }
}

/// What a request makes of the accounts, as moves that can be made, what its reply says of the rating groups, and what
/// was spent on its account before it and after it (charging with reservation of units: TS 32.290, 5.2.2).
#[derive(Debug, Drop)]
pub(crate) struct Effect {
    pub(crate) moves: Moves,
    pub(crate) infos: List<UnitInfo>,
    pub(crate) before: u128,
    pub(crate) after: u128,
}

/// The effect of a request that is accepted.
pub fn effect_of(
    alloc: Global,
    accounts: &Accounts,
    tariffs: &Tariffs,
    grace: u32,
    barred: &Barred,
    t: Target,
    request: &Request,
) -> Result<Effect, OutOfMemory>
    requires owner { OwnsAll t accounts.now.state }
    ensures moves { IfOk result (λ e. e.moves
        ≡ moves_for (rating_by tariffs.now grace barred.now) request.now accounts.now.state (Some t)) }
    ensures infos { IfOk result (λ e. e.infos
        ≡ infos_for (rating_by tariffs.now grace barred.now) request.now accounts.now.state (Some t)) }
    ensures makeable { IfOk result (λ e. AreMakeable e.moves accounts.now.state) }
    ensures before { IfOk result (λ e. e.before ≡ spent_on accounts.now.state (Some t.account)) }
    ensures after { IfOk result (λ e. e.after ≡ spent_on (made e.moves accounts.now.state) (Some t.account)) }
{
    let Some(mut draft) = Draft::begin(alloc, accounts, t) else {
        return Err(OutOfMemory);
    };
    let before = draft.used;
    let usage = request.usage.as_slice();
    draft.charge_all(accounts, tariffs, t, usage)?;
    draft.release_all(accounts, t, usage)?;
    let asks = asks_of(alloc, usage)?;
    let infos = draft.grant_all(
        alloc,
        accounts,
        tariffs,
        grace,
        barred,
        t,
        request.stamp,
        &asks,
    )?;
    draft.close(t, request.operation)?;
    let Draft {
        free: _free,
        used,
        lefts: _lefts,
        moves,
    } = draft;
    Ok(Effect {
        moves,
        infos,
        before,
        after: used,
    })
}
