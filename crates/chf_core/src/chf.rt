//! The machine: it decides on a command, and commits what is fresh.
ghost use Rattle.std.specs.Prelude.{◌≡◌, ◌==◌, IfOk, OnErr, option_copied, option_map, length};
ghost use Rattle.accounts.specs.Deadlines.{IsLeast};
ghost use Rattle.chf_core.specs.Sessions.{name};
ghost use Rattle.chf_core.specs.State.{nothing_yet, reference_of, kept_at};
ghost use Rattle.chf_core.specs.After.{after, is_setup};
ghost use Rattle.chf_core.specs.Machine.{account_name, Answers, IsReady, MayWantMemory};

use crate::barred::Barred;
use crate::command::{Command, Outcome};
use crate::decision::{Decision, Plan};
use crate::found_requests::found_at;
use crate::kept_request::KeptRequest;
use crate::key_table::KeyTable;
use crate::names::Names;
use crate::session::Session;
use crate::setup::ChfSetup;
use crate::subscription::{Subscription, Sum};
use crate::text_table::TextTable;
use accounts::Accounts;
use notices::Watchers;
use rating::Tariffs;
use records::Book;
use std::alloc::Global;
use std::marker::Model;
use units::{Moment, OutOfMemory};

/// The charging function: what its commands left (TS 32.290, 5.3.2). Each command is decided first, and what is fresh is
/// then committed.
#[derive(Drop)]
pub struct Chf {
    pub(crate) setup: Option<ChfSetup>,
    pub(crate) count: u32,
    pub(crate) names: Names,
    pub(crate) none_barred: Barred,
    pub(crate) subscribers: TextTable<Subscription>,
    pub(crate) topups: TextTable<Sum>,
    pub(crate) sessions: Vec<Session>,
    pub(crate) accounts: Accounts,
    pub(crate) book: Book,
    pub(crate) watchers: Watchers,
    pub(crate) requests: Vec<KeptRequest>,
    pub(crate) keyed: KeyTable,
}

impl Model for Chf {
    ghost use Rattle.chf_core.specs.Machine.{Machine};

    ghost Value = { Machine };

    ghost use Rattle.std.specs.Coded.{codes};
    ghost use Rattle.accounts.specs.Ledger.{coded_state};

    ghost coded = { Prim.hlevel (codes, coded_state) };

    ghost use Rattle.chf_core.specs.Caches.{machine, IsIndexed};

    ghost view = { machine };

    ghost invariant = { IsIndexed };
}

// What a kept request came to.
fn outcome_in(request: Option<&KeptRequest>) -> Option<&Outcome>
    ensures { option_copied result ≡ option_map (λ r. r.outcome) (option_copied request.entry) }
{
    match request {
        Some(r) => Some(&r.outcome),
        None => None,
    }
}

impl Chf {
    /// No command. Takes no memory.
    pub fn new(alloc: Global) -> Chf
        ensures { result.state ≡ nothing_yet }
    {
        Chf {
            setup: None,
            count: 0,
            names: Names::new(alloc),
            none_barred: Barred::none(alloc),
            subscribers: TextTable::new(alloc),
            topups: TextTable::new(alloc),
            sessions: Vec::new(alloc),
            accounts: Accounts::new(alloc),
            book: Book::empty(alloc),
            watchers: Watchers::new(alloc),
            requests: Vec::new(alloc),
            keyed: KeyTable::new(alloc),
        }
    }

    /// What is decided on a command; where it is fresh, with a plan that owns all that its commit needs. The setup is the
    /// first command and no other. Nothing that is seen changes. Want of memory is answered only on a fresh command or where there is no further place, and too
    /// where the sums of an account would not fit their types.
    pub fn decide(&mut self, alloc: Global, command: &Command) -> Result<Decision, OutOfMemory>
        requires order { is_setup command.now ≡ (self.old.state.count == 0) }
        ensures same { self.new.state ≡ self.old.state }
        ensures answer { IfOk result (Answers self.new command.now) }
        ensures memory { OnErr result (MayWantMemory self.old.state command.now) }
    {
        if self.count == 4_294_967_295 {
            return Err(OutOfMemory);
        }
        match self.answer(command) {
            Some(decision) => Ok(decision),
            None => Ok(Decision::Fresh(self.plan(alloc, command)?)),
        }
    }

    /// What a fresh command comes to.
    pub fn outcome(plan: &Plan) -> &Outcome
        ensures { result.now ≡ plan.now.outcome }
    {
        &plan.outcome
    }

    /// Takes the command of a plan in, the last one made. It takes no memory and can't fail.
    pub fn commit(&mut self, plan: Plan)
        requires { IsReady self.old plan }
        ensures { self.new.state ≡ after self.old.state plan.command }
    {
        let Plan {
            command,
            outcome,
            moves,
            change,
        } = plan;
        match command {
            Command::Setup { setup } => self.commit_setup(setup, outcome, moves, change),
            Command::Charge { request } => self.commit_charge(request, outcome, moves, change),
            Command::Subscriber {
                supi,
                account,
                barred,
            } => self.commit_subscriber(supi, account, barred, outcome, moves, change),
            Command::TopUp {
                id,
                account,
                amount,
            } => self.commit_topup(id, account, amount, outcome, moves, change),
            Command::Expire { moment } => self.commit_expire(moment, outcome, moves, change),
            Command::CloseRecords { moment } => self.commit_close(moment, outcome, moves, change),
            Command::Subscribe { context } => self.commit_subscribe(
                context, outcome, moves, change,
            ),
            Command::Modify { id, context } => self.commit_modify(
                id, context, outcome, moves, change,
            ),
            Command::Unsubscribe { id } => self.commit_unsubscribe(id, outcome, moves, change),
            Command::NoticeSent { id, number } => self.commit_sent(
                id, number, outcome, moves, change,
            ),
        }
    }

    /// What the request that is kept at a place came to, its first reply; `None` where no request is kept, as at the
    /// place of an operator's command.
    pub fn outcome_at(&self, place: u32) -> Option<&Outcome>
        ensures { option_copied result ≡ option_map (λ r. r.outcome) (kept_at self.now.state place) }
    {
        outcome_in(self.kept_at(place))
    }

    /// How many commands there were.
    pub fn count(&self) -> u32
        ensures { result ≡ self.now.state.count }
    {
        self.count
    }

    /// The accounts after the commands.
    pub fn accounts(&self) -> &Accounts
        ensures { result.now.state ≡ self.now.state.money }
    {
        &self.accounts
    }

    /// The charging records after the commands (TS 32.255, 5.2.3).
    pub fn book(&self) -> &Book
        ensures { result.now.records ≡ self.now.state.book }
    {
        &self.book
    }

    /// The name of the account with a number.
    pub fn account_name(&self, account: u32) -> Option<&str>
        ensures { option_map (λ t. t.now) result ≡ account_name self.now.state account }
    {
        self.names.name(account)
    }

    /// How many accounts have a name, which is how many there are.
    pub fn account_total(&self) -> u32
        ensures { result ≡ length self.now.state.names }
    {
        self.names.count()
    }

    /// The tariffs of the setup, `None` exactly where there is none.
    pub fn tariffs(&self) -> Option<&Tariffs>
        ensures { option_copied result ≡ option_map (λ s. s.tariffs) self.now.state.setup }
    {
        match &self.setup {
            Some(setup) => Some(&setup.tariffs),
            None => None,
        }
    }

    /// The reference of the session of a consumer's charging id, `None` exactly where no accepted Create has them
    /// (TS 32.291, 6.1.3.3).
    pub fn reference(&self, consumer: &str, charging_id: u32) -> Option<u32>
        ensures { result ≡ reference_of self.now.state (name consumer.now charging_id) }
    {
        self.keyed.reference(consumer, charging_id)
    }

    /// The least deadline of a quota of which something is left, `None` exactly where there is none.
    pub fn next_deadline(&self) -> Option<Moment>
        ensures { IsLeast self.now.state.money.reservations result }
    {
        self.accounts.next_deadline()
    }
}
