//! What is answered on a command that is not fresh, by the order of checks.
ghost use Rattle.std.specs.Prelude.{◌≡◌, ◌-◌, ◌==◌, Some, false, option_copied};
ghost use Rattle.accounts.specs.Endings.{count_ending, Until};
ghost use Rattle.records.specs.Book.{closable};
ghost use Rattle.counters.specs.Subscriptions.{context_of};
ghost use Rattle.counters.specs.Watching.{are_known};
ghost use Rattle.notices.specs.Watched.{is_first};
ghost use Rattle.chf_core.specs.declared.command.Outcome.{Outcome};
ghost use Rattle.chf_core.specs.Keys.{key};
ghost use Rattle.chf_core.specs.Decisions.{last_of, at_kept, same_row, decide_subscriber, decide_again, decide_topup, decide_counted, decide_known, decide_subscribe, decide_modify, decide_unsubscribe, decide_first};
ghost use Rattle.chf_core.specs.Spending.{counters_in};
ghost use Rattle.chf_core.specs.State.{at_text, account_named, named_by, key_of, place_of};
ghost use Rattle.chf_core.specs.Deciding.{decision, at_key, at_place, at_new, at_new_create, at_new_later};
ghost use Rattle.chf_core.specs.After.{is_setup};
ghost use Rattle.chf_core.specs.Caches.{answer_by};

use crate::chf::Chf;
use crate::command::Command;
use crate::decision::Decision;
use crate::refusal::ChfRefusal;
use crate::session::Session;
use crate::subscription::{Subscription, Sum};
use units::{List, Moment, Operation, Request, SpendContext, Text};

fn last_of(session: Option<&Session>) -> u32
    ensures { result ≡ last_of (option_copied session.entry) }
{
    match session {
        Some(s) => s.last,
        None => 0,
    }
}

fn same_row(account: &Text, barred: &List<u32>, row: Option<&Subscription>) -> bool
    ensures { result ≡ same_row account.now barred.now (option_copied row.entry) }
{
    match row {
        Some(s) => s.account == *account && s.barred.are(barred),
        None => false,
    }
}

fn answer_subscriber(is_same: bool) -> Option<Decision>
    ensures { result ≡ answer_by (decide_subscriber is_same) }
{
    if is_same { Some(Decision::Known) } else { None }
}

fn answer_again(account: &Text, amount: u128, sum: Option<&Sum>) -> Option<Decision>
    ensures { result ≡ answer_by (decide_again account.now amount (option_copied sum.entry)) }
{
    match sum {
        Some(s) => if s.account == *account && s.amount == amount {
            Some(Decision::Known)
        } else {
            Some(Decision::Refused(ChfRefusal::TopUpDiffers))
        },
        None => None,
    }
}

fn answer_kept(place: u32, last: u32, is_repeat: bool) -> Decision
    ensures { Some result ≡ answer_by (at_kept place last is_repeat) }
{
    if is_repeat {
        Decision::Kept(place)
    } else {
        Decision::Refused(ChfRefusal::SequencePassed { last })
    }
}

impl Chf {
    fn answer_topup(&self, id: &Text, account: &Text, amount: u128) -> Option<Decision>
        ensures { result ≡ answer_by (decide_topup account.now amount (account_named self.now.state account.now) (at_text self.now.state.topups id.now)) }
    {
        match self.account_named(account) {
            Some(_) => answer_again(account, amount, self.topups.get(id.as_str())),
            None => Some(Decision::Refused(ChfRefusal::UnknownAccount)),
        }
    }

    fn answer_expire(&self, moment: Moment) -> Option<Decision>
        ensures { result ≡ answer_by (decide_counted (count_ending self.now.state.money.reservations (Until moment))) }
    {
        if self.accounts.is_due(moment) {
            None
        } else {
            Some(Decision::Known)
        }
    }

    fn answer_close(&self) -> Option<Decision>
        ensures { result ≡ answer_by (decide_counted (closable self.now.state.book.sessions)) }
    {
        if self.book.closable() == 0 {
            Some(Decision::Known)
        } else {
            None
        }
    }

    // ---- subscriptions to spending limits

    // Whether each counter that is named is one of the setup.
    fn answer_known(&self, named: &List<Text>) -> Option<Decision>
        requires begun { (self.now.state.count == 0) ≡ false }
        ensures { (told : Outcome) → result ≡ answer_by (decide_known (are_known (counters_in self.now.state.setup) named.now) told) }
    {
        if self.set_up().counters.are_known(named) {
            None
        } else {
            Some(Decision::Refused(ChfRefusal::UnknownCounter))
        }
    }

    fn answer_subscribe(&self, context: &SpendContext) -> Option<Decision>
        requires begun { (self.now.state.count == 0) ≡ false }
        ensures { (told : Outcome) → result ≡ answer_by (decide_subscribe (at_text self.now.state.subscribers context.now.supi) (are_known (counters_in self.now.state.setup) context.now.counters) told) }
    {
        match self.subscribers.get(context.supi.as_str()) {
            Some(_) => self.answer_known(&context.counters),
            None => Some(Decision::Refused(ChfRefusal::UserUnknown)),
        }
    }

    fn answer_modify(&self, id: u32, context: &SpendContext) -> Option<Decision>
        requires begun { (self.now.state.count == 0) ≡ false }
        ensures { (told : Outcome) → result ≡ answer_by (decide_modify (context_of self.now.state.watched.contexts id) context.now.supi (are_known (counters_in self.now.state.setup) context.now.counters) told) }
    {
        match self.watchers.context(id) {
            Some(last) => if last.supi == context.supi {
                self.answer_known(&context.counters)
            } else {
                Some(Decision::Refused(ChfRefusal::WrongSupi))
            },
            None => Some(Decision::Refused(ChfRefusal::UnknownSubscription)),
        }
    }

    fn answer_unsubscribe(&self, id: u32) -> Option<Decision>
        ensures { result ≡ answer_by (decide_unsubscribe (context_of self.now.state.watched.contexts id)) }
    {
        match self.watchers.context(id) {
            Some(_) => None,
            None => Some(Decision::Refused(ChfRefusal::UnknownSubscription)),
        }
    }

    fn answer_sent(&self, id: u32, number: u32) -> Option<Decision>
        ensures { result ≡ answer_by (decide_first (is_first self.now.state.watched id number)) }
    {
        if self.watchers.is_first(id, number) {
            None
        } else {
            Some(Decision::Known)
        }
    }

    // ---- charging data requests

    fn answer_new_later(&self, request: &Request, session: Option<&Session>) -> Option<Decision>
        ensures { result ≡ answer_by (at_new_later self.now.state request.now (option_copied session.entry)) }
    {
        match session {
            Some(s) => if request.number <= s.last {
                Some(Decision::Refused(ChfRefusal::SequencePassed { last: s.last }))
            } else if s.is_open {
                None
            } else {
                Some(Decision::Refused(ChfRefusal::SessionClosed { last: s.last }))
            },
            None => Some(Decision::Refused(ChfRefusal::UnknownReference)),
        }
    }

    fn answer_new_create(&self, request: &Request, session: Option<&Session>) -> Option<Decision>
        ensures { result ≡ answer_by (at_new_create self.now.state request.now (option_copied session.entry)) }
    {
        match session {
            Some(_) => Some(Decision::Refused(ChfRefusal::SessionExists)),
            None => None,
        }
    }

    fn answer_new(&self, request: &Request, session: Option<&Session>) -> Option<Decision>
        ensures { result ≡ answer_by (at_new request.now.operation self.now.state request.now (option_copied session.entry)) }
    {
        match request.operation {
            Operation::Create => self.answer_new_create(request, session),
            Operation::Update(_) => self.answer_new_later(request, session),
            Operation::Release(_) => self.answer_new_later(request, session),
        }
    }

    fn answer_place(&self, request: &Request, place: Option<u32>) -> Option<Decision>
        ensures { result ≡ answer_by (at_place self.now.state request.now (named_by request.now.operation self.now.state request.now) place) }
    {
        let session = self.named(request);
        match place {
            Some(place) => Some(answer_kept(
                place,
                last_of(session),
                self.is_repeat_at(request, place),
            )),
            None => self.answer_new(request, session),
        }
    }

    fn answer_charge(&self, request: &Request) -> Option<Decision>
        ensures { result ≡ answer_by (at_key self.now.state request.now (key_of self.now.state request.now)) }
    {
        match self.key_id(request) {
            Some(id) => self.answer_place(request, self.place_of(request, id)),
            None => Some(Decision::Refused(ChfRefusal::UnknownReference)),
        }
    }

    /// What is answered on a command, `None` where it is fresh.
    pub(crate) fn answer(&self, command: &Command) -> Option<Decision>
        requires order { is_setup command.now ≡ (self.now.state.count == 0) }
        ensures { result ≡ answer_by (decision self.now.state command.now) }
    {
        match command {
            Command::Setup { .. } => None,
            Command::Charge { request } => self.answer_charge(request),
            Command::Subscriber {
                supi,
                account,
                barred,
            } => answer_subscriber(same_row(account, barred, self.subscribers.get(supi.as_str()))),
            Command::TopUp {
                id,
                account,
                amount,
            } => self.answer_topup(id, account, *amount),
            Command::Expire { moment } => self.answer_expire(*moment),
            Command::CloseRecords { .. } => self.answer_close(),
            Command::Subscribe { context } => self.answer_subscribe(context),
            Command::Modify { id, context } => self.answer_modify(*id, context),
            Command::Unsubscribe { id } => self.answer_unsubscribe(*id),
            Command::NoticeSent { id, number } => self.answer_sent(*id, *number),
        }
    }
}
