//! The plan of a fresh command, which makes all the memory that its commit needs.
ghost use Rattle.std.specs.Prelude.{◌≡◌, ◌<◌, ◌≤◌, ◌-◌, ◌^◌, ◌==◌, IfOk, IfSome, OnOk, IsSome, is_some, Some, true, false};
ghost use Rattle.accounts.specs.Making.{made, AreMakeable};
ghost use Rattle.chf_core.specs.declared.command.Command.TheVariants.{Setup, Charge, Subscriber, TopUp, Expire, CloseRecords, Subscribe, Modify, Unsubscribe, NoticeSent};
ghost use Rattle.chf_core.specs.Sessions.{supi_of};
ghost use Rattle.chf_core.specs.Keys.{key};
ghost use Rattle.records.specs.Groups.{AreApart};
ghost use Rattle.chf_core.specs.Booked.{CanFile, Opens};
ghost use Rattle.chf_core.specs.Named.{IsProvided};
ghost use Rattle.chf_core.specs.Decisions.{is_fresh};
ghost use Rattle.chf_core.specs.State.{key_of};
ghost use Rattle.chf_core.specs.Spending.{counters_in, spent_on};
ghost use Rattle.chf_core.specs.CommandMoves.{target_of, rating_of, moves_of, infos_for};
ghost use Rattle.chf_core.specs.CommandSteps.{step_of};
ghost use Rattle.chf_core.specs.Deciding.{decision, outcome_of};
ghost use Rattle.chf_core.specs.After.{is_setup};
ghost use Rattle.chf_core.specs.Machine.{Machine, AreMade, CanWatch, IsReady, IsWorkedOut, Writes, filed_containers, filed_reference, new_session, session_by};

use crate::barred::set_of;
use crate::chf::Chf;
use crate::command::{Command, Outcome};
use crate::decision::{Change, Plan};
use crate::draft::{Effect, effect_of};
use crate::filing::{Opening, reference_by};
use crate::lookups::id_of;
use crate::names::Names;
use crate::operator_moves::{adding, expiring, topping};
use crate::session::Session;
use crate::setup::ChfSetup;
use crate::target::Target;
use crate::watching::make_watching_room;
use accounts::Moves;
use notices::Notice;
use records::by_group;
use std::alloc::Global;
use units::{List, Moment, Operation, OutOfMemory, Request, SpendContext, Text, UnitUsage, copy};

// The copy of a name that has no number.
fn name_for(alloc: Global, names: &Names, name: &Text) -> Result<Option<String>, OutOfMemory>
    ensures { IfOk result (λ new. IsProvided names.now.list name.now new) }
{
    match names.find(name.as_str()) {
        Some(_) => Ok(None),
        None => Ok(Some(String::from_str(alloc, name.as_str())?)),
    }
}

fn supi_copy(alloc: Global, supi: &Option<Text>) -> Result<Text, OutOfMemory>
    ensures { IfOk result (λ t. t ≡ supi_of supi.now) }
{
    match supi {
        Some(supi) => Ok(copy(supi)?),
        None => Ok(Text::new(alloc)),
    }
}

// The session that a Create opens.
fn session_for(
    alloc: Global,
    request: &Request,
    account: Option<u32>,
) -> Result<Option<Session>, OutOfMemory>
    ensures { IfOk result (λ s. s ≡ new_session request.now account) }
{
    match account {
        Some(account) => Ok(Some(Session {
            consumer: copy(&request.consumer)?,
            charging_id: id_of(request.charging_id),
            supi: supi_copy(alloc, &request.subscriber)?,
            account,
            last: request.number,
            is_open: true,
        })),
        None => Ok(None),
    }
}

fn session_opened(
    alloc: Global,
    request: &Request,
    account: Option<u32>,
) -> Result<Option<Session>, OutOfMemory>
    ensures { IfOk result (λ s. s ≡ session_by request.now.operation request.now account) }
{
    match request.operation {
        Operation::Create => session_for(alloc, request, account),
        _ => Ok(None),
    }
}

// The names of the records of a session that begins.
fn names_opened(
    alloc: Global,
    request: &Request,
    session: &Option<Session>,
) -> Result<Option<Opening>, OutOfMemory>
    ensures opens { IfOk result (λ o. is_some o ≡ is_some session.now) }
    ensures names { IfOk result (λ o. IfSome o (Opens request.now)) }
{
    match session {
        Some(_) => Ok(Some(Opening {
            subscriber: supi_copy(alloc, &request.subscriber)?,
            consumer: copy(&request.consumer)?,
            charging_id: id_of(request.charging_id),
        })),
        None => Ok(None),
    }
}

// The plan of a setup.
fn plan_setup(alloc: Global, setup: &ChfSetup) -> Result<Plan, OutOfMemory>
    ensures { IfOk result (λ p. (m : Machine) → IsWorkedOut m (Setup setup.now) p) }
{
    Ok(Plan {
        command: Command::Setup {
            setup: copy(setup)?,
        },
        outcome: Outcome::Done,
        moves: Moves::new(alloc),
        change: Change::Setup {
            limits: copy(&setup.limits)?,
        },
    })
}

impl Chf {
    // ---- of a charging data request

    // What a request makes of the accounts, and what is said of its groups.
    fn effect(
        &self,
        alloc: Global,
        setup: &ChfSetup,
        request: &Request,
        target: Option<Target>,
    ) -> Result<Effect, OutOfMemory>
        requires setup { self.now.state.setup ≡ Some setup.now }
        requires target { target ≡ target_of self.now.state request.now }
        ensures moves { IfOk result (λ e. e.moves ≡ moves_of self.now.state (Charge request.now)) }
        ensures infos { IfOk result (λ e. e.infos ≡ infos_for (rating_of self.now.state request.now) request.now self.now.state.money (target_of self.now.state request.now)) }
        ensures makeable { IfOk result (λ e. AreMakeable e.moves self.now.state.money) }
        ensures before { IfOk result (λ e. IfSome target (λ t. e.before ≡ spent_on self.now.state.money (Some t.account))) }
        ensures after { IfOk result (λ e. IfSome target (λ t. e.after ≡ spent_on (made e.moves self.now.state.money) (Some t.account))) }
    {
        match target {
            Some(t) => effect_of(
                alloc,
                &self.accounts,
                &setup.tariffs,
                setup.grace,
                self.barred(request),
                t,
                request,
            ),
            None => Ok(Effect {
                moves: Moves::new(alloc),
                infos: List::new(alloc),
                before: 0,
                after: 0,
            }),
        }
    }

    // What the commit of a request writes besides it.
    fn change_of(
        &self,
        alloc: Global,
        request: &Request,
        charging_id: u32,
        notices: Vec<Notice>,
    ) -> Result<Change, OutOfMemory>
        requires key { key_of self.now.state request.now ≡ Some (key request.now.consumer charging_id request.now.number) }
        requires notices { AreMade (counters_in self.now.state.setup) self.now.state.watched (step_of self.now.state (Charge request.now)) notices.items }
        ensures { IfOk result (Writes self.now (Charge request.now)) }
    {
        let session = session_opened(alloc, request, self.account_for(&request.subscriber))?;
        let names = names_opened(alloc, request, &session)?;
        Ok(Change::Charge {
            charging_id,
            session,
            consumer: name_for(alloc, &self.keyed.consumers, &request.consumer)?,
            names,
            used: by_group(alloc, request.usage.as_slice())?,
            notices,
        })
    }

    // The plan of a request that has a key.
    fn plan_keyed(
        &self,
        alloc: Global,
        request: &Request,
        charging_id: u32,
    ) -> Result<Plan, OutOfMemory>
        requires begun { (self.now.state.count == 0) ≡ false }
        requires few { self.now.state.count < 2 ^ 32 - 1 }
        requires key { key_of self.now.state request.now ≡ Some (key request.now.consumer charging_id request.now.number) }
        ensures { IfOk result (IsWorkedOut self.now (Charge request.now)) }
    {
        let setup = self.set_up();
        let target = self.target_of(request);
        let Effect {
            moves,
            infos,
            before,
            after,
        } = self.effect(alloc, setup, request, target)?;
        let reply = self.first_reply(alloc, setup, request, infos)?;
        let notices = self.notices_by(alloc, setup, target, before, after)?;
        let change = self.change_of(alloc, request, charging_id, notices)?;
        Ok(Plan {
            command: Command::Charge {
                request: copy(request)?,
            },
            outcome: Outcome::Charged(reply),
            moves,
            change,
        })
    }

    fn plan_charge(&self, alloc: Global, request: &Request) -> Result<Plan, OutOfMemory>
        requires begun { (self.now.state.count == 0) ≡ false }
        requires few { self.now.state.count < 2 ^ 32 - 1 }
        requires key { IsSome (key_of self.now.state request.now) }
        ensures { IfOk result (IsWorkedOut self.now (Charge request.now)) }
    {
        match self.key_id(request) {
            Some(charging_id) => self.plan_keyed(alloc, request, charging_id),
            None => unreachable!(),
        }
    }

    // ---- of an operator's command

    fn plan_subscriber(
        &self,
        alloc: Global,
        supi: &Text,
        account: &Text,
        barred: &List<u32>,
    ) -> Result<Plan, OutOfMemory>
        requires begun { (self.now.state.count == 0) ≡ false }
        ensures { IfOk result (IsWorkedOut self.now (Subscriber supi.now account.now barred.now)) }
    {
        let moves = adding(alloc, &self.accounts, self.account_named(account))?;
        Ok(Plan {
            command: Command::Subscriber {
                supi: copy(supi)?,
                account: copy(account)?,
                barred: copy(barred)?,
            },
            outcome: Outcome::Done,
            moves,
            change: Change::Subscriber {
                name: name_for(alloc, &self.names, account)?,
                groups: set_of(alloc, barred.as_slice())?,
                moving: self.moving_to(alloc, supi, account)?,
            },
        })
    }

    fn plan_topup(
        &self,
        alloc: Global,
        id: &Text,
        account: &Text,
        amount: u128,
    ) -> Result<Plan, OutOfMemory>
        ensures { IfOk result (IsWorkedOut self.now (TopUp id.now account.now amount)) }
    {
        let moves = topping(alloc, &self.accounts, amount, self.account_named(account))?;
        Ok(Plan {
            command: Command::TopUp {
                id: copy(id)?,
                account: copy(account)?,
                amount,
            },
            outcome: Outcome::Done,
            moves,
            change: Change::TopUp,
        })
    }

    fn plan_expire(&self, alloc: Global, moment: Moment) -> Result<Plan, OutOfMemory>
        ensures { IfOk result (IsWorkedOut self.now (Expire moment)) }
    {
        Ok(Plan {
            command: Command::Expire { moment },
            outcome: Outcome::Done,
            moves: expiring(alloc, &self.accounts, moment)?,
            change: Change::Expire,
        })
    }

    fn plan_close(&self, alloc: Global, moment: Moment) -> Result<Plan, OutOfMemory>
        ensures { IfOk result (IsWorkedOut self.now (CloseRecords moment)) }
    {
        Ok(Plan {
            command: Command::CloseRecords { moment },
            outcome: Outcome::Done,
            moves: Moves::new(alloc),
            change: Change::CloseRecords,
        })
    }

    // ---- of a subscription to spending limits

    fn plan_subscribe(&self, alloc: Global, context: &SpendContext) -> Result<Plan, OutOfMemory>
        requires begun { (self.now.state.count == 0) ≡ false }
        requires few { self.now.state.count < 2 ^ 32 - 1 }
        ensures { IfOk result (IsWorkedOut self.now (Subscribe context.now)) }
    {
        let status = self.status_for(alloc, context)?;
        Ok(Plan {
            command: Command::Subscribe {
                context: copy(context)?,
            },
            outcome: Outcome::Spending {
                id: self.next_subscription(),
                status,
            },
            moves: Moves::new(alloc),
            change: Change::Subscribe {
                account: self.account_to_watch(context),
            },
        })
    }

    fn plan_modify(
        &self,
        alloc: Global,
        id: u32,
        context: &SpendContext,
    ) -> Result<Plan, OutOfMemory>
        requires begun { (self.now.state.count == 0) ≡ false }
        ensures { IfOk result (IsWorkedOut self.now (Modify id context.now)) }
    {
        let status = self.status_for(alloc, context)?;
        Ok(Plan {
            command: Command::Modify {
                id,
                context: copy(context)?,
            },
            outcome: Outcome::Spending { id, status },
            moves: Moves::new(alloc),
            change: Change::Modify,
        })
    }

    fn plan_unsubscribe(&self, alloc: Global, id: u32) -> Result<Plan, OutOfMemory>
        ensures { IfOk result (IsWorkedOut self.now (Unsubscribe id)) }
    {
        Ok(Plan {
            command: Command::Unsubscribe { id },
            outcome: Outcome::Removed,
            moves: Moves::new(alloc),
            change: Change::Unsubscribe,
        })
    }

    fn plan_sent(&self, alloc: Global, id: u32, number: u32) -> Result<Plan, OutOfMemory>
        ensures { IfOk result (IsWorkedOut self.now (NoticeSent id number)) }
    {
        Ok(Plan {
            command: Command::NoticeSent { id, number },
            outcome: Outcome::Done,
            moves: Moves::new(alloc),
            change: Change::NoticeSent,
        })
    }

    // ---- of each

    // All that comes of a command, worked out.
    fn work_out(&self, alloc: Global, command: &Command) -> Result<Plan, OutOfMemory>
        requires order { is_setup command.now ≡ (self.now.state.count == 0) }
        requires few { self.now.state.count < 2 ^ 32 - 1 }
        requires fresh { is_fresh (decision self.now.state command.now) ≡ true }
        ensures { IfOk result (IsWorkedOut self.now command.now) }
    {
        match command {
            Command::Setup { setup } => plan_setup(alloc, setup),
            Command::Charge { request } => self.plan_charge(alloc, request),
            Command::Subscriber {
                supi,
                account,
                barred,
            } => self.plan_subscriber(alloc, supi, account, barred),
            Command::TopUp {
                id,
                account,
                amount,
            } => self.plan_topup(alloc, id, account, *amount),
            Command::Expire { moment } => self.plan_expire(alloc, *moment),
            Command::CloseRecords { moment } => self.plan_close(alloc, *moment),
            Command::Subscribe { context } => self.plan_subscribe(alloc, context),
            Command::Modify { id, context } => self.plan_modify(alloc, *id, context),
            Command::Unsubscribe { id } => self.plan_unsubscribe(alloc, *id),
            Command::NoticeSent { id, number } => self.plan_sent(alloc, *id, *number),
        }
    }

    // The session in whose records a command files.
    fn filed_reference(&self, command: &Command) -> u32
        requires { self.now.state.count < 2 ^ 32 - 1 }
        ensures { result ≡ filed_reference self.now.state command.now }
    {
        match command {
            Command::Charge { request } => reference_by(request, self.sessions.len()),
            _ => 0,
        }
    }

    // Room for one more command, for that many moves of money, and for what its change files in a session's records and
    // makes of subscriptions. Closed records and sessions together are fewer than 2^32 - 3, so that all records can be
    // closed.
    fn make_room(
        &mut self,
        alloc: Global,
        moves: usize,
        reference: u32,
        change: &Change,
    ) -> Result<(), OutOfMemory>
        requires few { self.old.state.count < 2 ^ 32 - 1 }
        requires apart { AreApart (filed_containers change.now) }
        ensures same { self.new.state ≡ self.old.state }
        ensures consumers { self.new.consumers ≡ self.old.consumers }
        ensures places { OnOk result (0 < self.new.places) }
        ensures moves { OnOk result (moves ≤ self.new.moves) }
        ensures files { OnOk result (CanFile self.new.book reference (filed_containers change.now)) }
        ensures watches { OnOk result (CanWatch self.new.watching change.now) }
    {
        if self.book.closed().len().saturating_add(self.book.begun()) >= 4_294_967_293 {
            return Err(OutOfMemory);
        }
        let book = self.book.make_room(reference, change.containers()).is_ok();
        let requests = self.requests.reserve(1).is_ok();
        let sessions = self.sessions.reserve(1).is_ok();
        let names = self.names.make_room().is_ok();
        let subscribers = self.subscribers.make_room().is_ok();
        let topups = self.topups.make_room().is_ok();
        let keyed = self.keyed.make_room().is_ok();
        let watchers = make_watching_room(alloc, &mut self.watchers, change).is_ok();
        let accounts = self.accounts.make_room(alloc, moves).is_ok();
        let known = names && subscribers && topups && keyed;
        if requests && sessions && known && accounts && book && watchers {
            Ok(())
        } else {
            Err(OutOfMemory)
        }
    }

    /// The plan of a command that is fresh.
    pub(crate) fn plan(&mut self, alloc: Global, command: &Command) -> Result<Plan, OutOfMemory>
        requires order { is_setup command.now ≡ (self.old.state.count == 0) }
        requires few { self.old.state.count < 2 ^ 32 - 1 }
        requires fresh { is_fresh (decision self.old.state command.now) ≡ true }
        ensures same { self.new.state ≡ self.old.state }
        ensures ready { IfOk result (λ p. (p.command ≡ command.now) × IsReady self.new p) }
    {
        let plan = self.work_out(alloc, command)?;
        let reference = self.filed_reference(command);
        self.make_room(alloc, plan.moves.len(), reference, &plan.change)?;
        Ok(plan)
    }
}
