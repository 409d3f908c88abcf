//! What each command's commit writes. Nothing here takes memory.
ghost use Rattle.std.specs.Prelude.{◌≡◌, ◌<◌, ◌≤◌, ◌+◌, ◌-◌, ◌^◌, ◌&&◌, Some, None, Option, ℕ, true, cond, is_some, length, option_map, slice_index, vec_len, vec_capacity};
ghost use Rattle.chf_core.specs.declared.key.Name.{Name as NameSeen};
ghost use Rattle.chf_core.specs.declared.key.Key.{Key as KeySeen};
ghost use Rattle.accounts.specs.Making.{made, AreMakeable};
ghost use Rattle.counters.specs.Subscriptions.{is_live};
ghost use Rattle.counters.specs.Watching.{are_known};
ghost use Rattle.notices.specs.Watched.{subscribed_on, modified, ended};
ghost use Rattle.chf_core.specs.Operator.{number_in, with_name};
ghost use Rattle.chf_core.specs.Sessions.{sessions_after, with_last, write_session, by_reference, name, same_session, id_of};
ghost use Rattle.chf_core.specs.Keys.{key, key_eq};
ghost use Rattle.chf_core.specs.Named.{IsProvided};
ghost use Rattle.chf_core.specs.KeyTable.{kept_place, kept_reference, AreKnown, room};
ghost use Rattle.chf_core.specs.After.{after};
ghost use Rattle.chf_core.specs.Machine.{IsReady, session_by};

use crate::barred::Barred;
use crate::chf::Chf;
use crate::command::{Command, Outcome};
use crate::decision::{Change, Plan};
use crate::filing::file;
use crate::kept_request::KeptRequest;
use crate::key_table::KeyTable;
use crate::lookups::id_of;
use crate::names::Names;
use crate::numbered::{NumberedKey, NumberedName};
use crate::session::Session;
use crate::setup::ChfSetup;
use crate::subscription::{Subscription, Sum};
use crate::watching::move_subscriptions;
use accounts::{Accounts, Moves};
use counters::Counters;
use notices::Watchers;
use units::{List, Moment, Operation, Request, SpendContext, Text};

fn set_last(session: &mut Session, last: u32, is_open: bool)
    ensures { session.new ≡ with_last last is_open session.old }
{
    session.last = last;
    session.is_open = is_open;
}

fn write_session(sessions: &mut Vec<Session>, reference: u32, last: u32, is_open: bool)
    ensures { sessions.new.items ≡ write_session sessions.old.items reference last is_open (by_reference sessions.old.items reference) }
{
    if reference != 0 && reference as usize <= sessions.len() {
        set_last(&mut sessions[reference as usize - 1], last, is_open);
    }
}

// Enters a request in its session, which a Create opens.
fn enter_session(sessions: &mut Vec<Session>, request: &Request, new: Option<Session>)
    requires { vec_len sessions.old < vec_capacity sessions.old }
    ensures { (account : Option ℕ) → new ≡ session_by request.now.operation request.now account → sessions.new.items ≡ sessions_after request.now.operation request.now account sessions.old.items }
{
    match request.operation {
        Operation::Create => if let Some(session) = new {
            sessions.push_reserved(session);
        },
        Operation::Update(reference) => write_session(sessions, reference, request.number, true),
        Operation::Release(reference) => write_session(sessions, reference, request.number, false),
    }
}

// The reference of a session that is opened.
fn reference_for(sessions: &[Session], new: &Option<Session>) -> Option<u32>
    requires { length sessions.now < 2 ^ 32 - 1 }
    ensures { result ≡ option_map (λ _. length sessions.now + 1) new.now }
{
    match new {
        Some(_) => Some(sessions.len() as u32 + 1),
        None => None,
    }
}

// Enters the key of a request, and the reference of the session that it opens.
fn enter_key(
    keyed: &mut KeyTable,
    request: &Request,
    charging_id: u32,
    place: u32,
    reference: Option<u32>,
    new: Option<String>,
)
    requires known { AreKnown keyed.old }
    requires room { 0 < room keyed.old }
    requires provided { IsProvided keyed.old.consumers.list request.now.consumer new }
    ensures places { (k : KeySeen) → kept_place keyed.new k ≡ cond (key_eq (key request.now.consumer charging_id request.now.number) k) (Some place) (kept_place keyed.old k) }
    ensures references { (n : NameSeen) → kept_reference keyed.new n ≡ cond (is_some reference && same_session (name request.now.consumer (id_of request.now.charging_id)) n) reference (kept_reference keyed.old n) }
    ensures consumers { keyed.new.consumers.list ≡ with_name keyed.old.consumers.list request.now.consumer (number_in keyed.old.consumers.list request.now.consumer) }
    ensures known { AreKnown keyed.new }
{
    let consumer = keyed.number_for(request.consumer.as_str(), new);
    let key = NumberedKey {
        consumer,
        charging_id,
        number: request.number,
    };
    keyed.enter(request.consumer.as_str(), key, place);
    if let Some(reference) = reference {
        let name = NumberedName {
            consumer,
            charging_id: id_of(request.charging_id),
        };
        keyed.open(request.consumer.as_str(), name, reference);
    }
}

// The moves of a plan are made.
fn make_moves(accounts: &mut Accounts, moves: &Moves)
    requires makeable { AreMakeable moves.now accounts.old.state }
    requires spare { length moves.now ≤ accounts.old.spare }
    ensures { accounts.new.state ≡ made moves.now accounts.old.state }
{
    accounts.make_all(moves.as_slice());
}

// A name has a number from the first time on that it comes.
fn number_name(names: &mut Names, name: &str, new: Option<String>)
    requires room { 0 < names.old.room }
    requires provided { IsProvided names.old.list name.now new }
    ensures { names.new.list ≡ with_name names.old.list name.now (number_in names.old.list name.now) }
{
    if names.find(name).is_none() {
        if let Some(new) = new {
            let _ = names.add(new);
        }
    }
}

// A subscription is made, which names known counters alone and watches an account.
fn make_subscription(
    watchers: &mut Watchers,
    counters: &Counters,
    context: SpendContext,
    account: u32,
)
    requires spare { 0 < watchers.old.spare }
    requires room { 0 < slice_index watchers.old.rooms account }
    requires few { length watchers.old.of.contexts < 2 ^ 32 - 1 }
    requires known { are_known counters.now context.counters ≡ true }
    ensures { watchers.new.of ≡ subscribed_on watchers.old.of context account }
{
    let Ok(_) = watchers.subscribe(counters, context, account) else {
        unreachable!();
    };
}

// A live subscription gets another context, which names known counters alone.
fn modify_subscription(watchers: &mut Watchers, id: u32, counters: &Counters, context: SpendContext)
    requires live { is_live watchers.old.of.contexts id ≡ true }
    requires known { are_known counters.now context.counters ≡ true }
    ensures { watchers.new.of ≡ modified watchers.old.of id context }
{
    let Ok(_) = watchers.modify(id, counters, context) else {
        unreachable!();
    };
}

// A live subscription ends.
fn end_subscription(watchers: &mut Watchers, id: u32)
    requires live { is_live watchers.old.of.contexts id ≡ true }
    ensures { watchers.new.of ≡ ended watchers.old.of id }
{
    let Ok(_) = watchers.remove(id) else {
        unreachable!();
    };
}

impl Chf {
    pub(crate) fn commit_setup(
        &mut self,
        setup: ChfSetup,
        outcome: Outcome,
        moves: Moves,
        change: Change,
    )
        requires { IsReady self.old (record { command = Command.Setup setup; outcome = outcome; moves = moves; change = change }) }
        ensures { self.new.state ≡ after self.old.state (Command.Setup setup) }
    {
        let Change::Setup { limits } = change else {
            unreachable!();
        };
        self.book.limit(limits);
        self.setup = Some(setup);
        self.count += 1;
    }

    pub(crate) fn commit_charge(
        &mut self,
        mut request: Request,
        outcome: Outcome,
        moves: Moves,
        change: Change,
    )
        requires { IsReady self.old (record { command = Command.Charge request; outcome = outcome; moves = moves; change = change }) }
        ensures { self.new.state ≡ after self.old.state (Command.Charge request) }
    {
        let Change::Charge {
            charging_id,
            session,
            consumer,
            names,
            used,
            notices,
        } = change
        else {
            unreachable!();
        };
        make_moves(&mut self.accounts, &moves);
        self.watchers.post(notices);
        file(&mut self.book, self.sessions.len(), &request, names, used);
        let reference = reference_for(&self.sessions, &session);
        enter_key(
            &mut self.keyed,
            &request,
            charging_id,
            self.count,
            reference,
            consumer,
        );
        enter_session(&mut self.sessions, &request, session);
        request.again = false;
        self.requests.push_reserved(KeptRequest {
            place: self.count,
            charging_id,
            request,
            outcome,
        });
        self.count += 1;
    }

    pub(crate) fn commit_subscriber(
        &mut self,
        supi: Text,
        account: Text,
        barred: List<u32>,
        outcome: Outcome,
        moves: Moves,
        change: Change,
    )
        requires { IsReady self.old (record { command = Command.Subscriber supi account barred; outcome = outcome; moves = moves; change = change }) }
        ensures { self.new.state ≡ after self.old.state (Command.Subscriber supi account barred) }
    {
        let Change::Subscriber {
            name,
            groups,
            moving,
        } = change
        else {
            unreachable!();
        };
        make_moves(&mut self.accounts, &moves);
        move_subscriptions(&mut self.watchers, moving);
        number_name(&mut self.names, account.as_str(), name);
        self.subscribers.put(
            supi.into_string(),
            Subscription {
                account,
                barred: Barred::with(barred, groups),
            },
        );
        self.count += 1;
    }

    pub(crate) fn commit_topup(
        &mut self,
        id: Text,
        account: Text,
        amount: u128,
        outcome: Outcome,
        moves: Moves,
        change: Change,
    )
        requires { IsReady self.old (record { command = Command.TopUp id account amount; outcome = outcome; moves = moves; change = change }) }
        ensures { self.new.state ≡ after self.old.state (Command.TopUp id account amount) }
    {
        make_moves(&mut self.accounts, &moves);
        self.topups.put(id.into_string(), Sum { account, amount });
        self.count += 1;
    }

    pub(crate) fn commit_expire(
        &mut self,
        moment: Moment,
        outcome: Outcome,
        moves: Moves,
        change: Change,
    )
        requires { IsReady self.old (record { command = Command.Expire moment; outcome = outcome; moves = moves; change = change }) }
        ensures { self.new.state ≡ after self.old.state (Command.Expire moment) }
    {
        make_moves(&mut self.accounts, &moves);
        self.count += 1;
    }

    pub(crate) fn commit_close(
        &mut self,
        moment: Moment,
        outcome: Outcome,
        moves: Moves,
        change: Change,
    )
        requires { IsReady self.old (record { command = Command.CloseRecords moment; outcome = outcome; moves = moves; change = change }) }
        ensures { self.new.state ≡ after self.old.state (Command.CloseRecords moment) }
    {
        let _ = self.book.close_all(moment);
        self.count += 1;
    }

    pub(crate) fn commit_subscribe(
        &mut self,
        context: SpendContext,
        outcome: Outcome,
        moves: Moves,
        change: Change,
    )
        requires { IsReady self.old (record { command = Command.Subscribe context; outcome = outcome; moves = moves; change = change }) }
        ensures { self.new.state ≡ after self.old.state (Command.Subscribe context) }
    {
        let Change::Subscribe { account } = change else {
            unreachable!();
        };
        let Some(setup) = &self.setup else {
            unreachable!();
        };
        make_subscription(&mut self.watchers, &setup.counters, context, account);
        self.count += 1;
    }

    pub(crate) fn commit_modify(
        &mut self,
        id: u32,
        context: SpendContext,
        outcome: Outcome,
        moves: Moves,
        change: Change,
    )
        requires { IsReady self.old (record { command = Command.Modify id context; outcome = outcome; moves = moves; change = change }) }
        ensures { self.new.state ≡ after self.old.state (Command.Modify id context) }
    {
        let Some(setup) = &self.setup else {
            unreachable!();
        };
        modify_subscription(&mut self.watchers, id, &setup.counters, context);
        self.count += 1;
    }

    pub(crate) fn commit_unsubscribe(
        &mut self,
        id: u32,
        outcome: Outcome,
        moves: Moves,
        change: Change,
    )
        requires { IsReady self.old (record { command = Command.Unsubscribe id; outcome = outcome; moves = moves; change = change }) }
        ensures { self.new.state ≡ after self.old.state (Command.Unsubscribe id) }
    {
        end_subscription(&mut self.watchers, id);
        self.count += 1;
    }

    pub(crate) fn commit_sent(
        &mut self,
        id: u32,
        number: u32,
        outcome: Outcome,
        moves: Moves,
        change: Change,
    )
        requires { IsReady self.old (record { command = Command.NoticeSent id number; outcome = outcome; moves = moves; change = change }) }
        ensures { self.new.state ≡ after self.old.state (Command.NoticeSent id number) }
    {
        self.watchers.sent(id);
        self.count += 1;
    }
}
