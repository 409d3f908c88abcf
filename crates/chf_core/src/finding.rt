//! What the machine looks up of its state.
ghost use Rattle.std.specs.Prelude.{◌≡◌, ◌<◌, ◌+◌, ◌-◌, ◌^◌, ◌==◌, Some, false, length, option_copied, option_map};
ghost use Rattle.chf_core.specs.Operator.{barred_in};
ghost use Rattle.chf_core.specs.Keys.{key, key_in};
ghost use Rattle.chf_core.specs.Money.{named_target};
ghost use Rattle.chf_core.specs.State.{at_text, account_named, account_of, account_for, session_at, named_by, key_of, place_of, kept_at};
ghost use Rattle.chf_core.specs.CommandMoves.{target_of, supi_by};
ghost use Rattle.chf_core.specs.Deciding.{is_repeat};

use crate::barred::Barred;
use crate::chf::Chf;
use crate::found_requests::found_at;
use crate::kept_request::KeptRequest;
use crate::lookups::{at_reference, id_of, supi_for};
use crate::session::Session;
use crate::setup::ChfSetup;
use crate::target::Target;
use sessions::same_content;
use units::{Operation, Request, Text};

// Whether what is kept has the content of a request.
fn is_repeat(request: &Request, kept: Option<&KeptRequest>) -> bool
    ensures { result ≡ is_repeat request.now (option_copied kept.entry) }
{
    match kept {
        Some(r) => same_content(&r.request, request),
        None => false,
    }
}

impl Chf {
    // ---- accounts

    pub(crate) fn account_named(&self, account: &Text) -> Option<u32>
        ensures { result ≡ account_named self.now.state account.now }
    {
        self.names.find(account.as_str())
    }

    /// The account of a subscriber, by its latest row.
    pub(crate) fn account_of(&self, supi: &Text) -> Option<u32>
        ensures { result ≡ account_of self.now.state supi.now }
    {
        match self.subscribers.get(supi.as_str()) {
            Some(row) => self.names.find(row.account.as_str()),
            None => None,
        }
    }

    /// The account of the subscriber that a Create names.
    pub(crate) fn account_for(&self, supi: &Option<Text>) -> Option<u32>
        ensures { result ≡ account_for self.now.state supi.now }
    {
        match supi {
            Some(supi) => self.account_of(supi),
            None => None,
        }
    }

    // ---- sessions

    fn session_at(&self, reference: u32) -> Option<&Session>
        ensures { option_copied result ≡ session_at self.now.state reference }
    {
        at_reference(&self.sessions, reference)
    }

    /// The session that a request names.
    pub(crate) fn named(&self, request: &Request) -> Option<&Session>
        ensures { option_copied result ≡ named_by request.now.operation self.now.state request.now }
    {
        match request.operation {
            Operation::Create => match self
                .keyed
                .reference(request.consumer.as_str(), id_of(request.charging_id))
            {
                Some(reference) => self.session_at(reference),
                None => None,
            },
            Operation::Update(reference) => self.session_at(reference),
            Operation::Release(reference) => self.session_at(reference),
        }
    }

    /// The reference of the next session.
    pub(crate) fn next_reference(&self) -> u32
        requires { self.now.state.count < 2 ^ 32 - 1 }
        ensures { result ≡ length self.now.state.sessions + 1 }
    {
        self.sessions.len() as u32 + 1
    }

    // ---- keys and kept requests

    // The charging id in the key of an Update or Release.
    fn id_in(&self, request: &Request, reference: u32) -> Option<u32>
        ensures { option_map (λ id. key request.now.consumer id request.now.number) result ≡ key_in request.now (session_at self.now.state reference) }
    {
        match self.session_at(reference) {
            Some(s) => if s.consumer == request.consumer {
                Some(s.charging_id)
            } else {
                None
            },
            None => None,
        }
    }

    /// The charging id in the key of a request.
    pub(crate) fn key_id(&self, request: &Request) -> Option<u32>
        ensures { option_map (λ id. key request.now.consumer id request.now.number) result ≡ key_of self.now.state request.now }
    {
        match request.operation {
            Operation::Create => Some(id_of(request.charging_id)),
            Operation::Update(reference) => self.id_in(request, reference),
            Operation::Release(reference) => self.id_in(request, reference),
        }
    }

    pub(crate) fn place_of(&self, request: &Request, charging_id: u32) -> Option<u32>
        ensures { result ≡ place_of self.now.state (key request.now.consumer charging_id request.now.number) }
    {
        self.keyed
            .place(request.consumer.as_str(), charging_id, request.number)
    }

    /// The request that is kept at a place.
    pub(crate) fn kept_at(&self, place: u32) -> Option<&KeptRequest>
        ensures { option_copied result ≡ kept_at self.now.state place }
    {
        found_at(&self.requests, place)
    }

    pub(crate) fn is_repeat_at(&self, request: &Request, place: u32) -> bool
        ensures { result ≡ is_repeat request.now (kept_at self.now.state place) }
    {
        is_repeat(request, self.kept_at(place))
    }

    // ---- whom a request charges, and by what it is rated

    fn named_target(&self, reference: u32) -> Option<Target>
        ensures { result ≡ named_target reference (session_at self.now.state reference) }
    {
        match self.session_at(reference) {
            Some(s) => Some(Target {
                account: s.account,
                session: reference,
            }),
            None => None,
        }
    }

    /// Whom a request charges.
    pub(crate) fn target_of(&self, request: &Request) -> Option<Target>
        requires { self.now.state.count < 2 ^ 32 - 1 }
        ensures { result ≡ target_of self.now.state request.now }
    {
        match request.operation {
            Operation::Create => match self.account_for(&request.subscriber) {
                Some(account) => Some(Target {
                    account,
                    session: self.next_reference(),
                }),
                None => None,
            },
            Operation::Update(reference) => self.named_target(reference),
            Operation::Release(reference) => self.named_target(reference),
        }
    }

    /// The setup, the first command.
    pub(crate) fn set_up(&self) -> &ChfSetup
        requires { (self.now.state.count == 0) ≡ false }
        ensures { self.now.state.setup ≡ Some result.now }
    {
        match &self.setup {
            Some(setup) => setup,
            None => unreachable!(),
        }
    }

    /// The groups that are barred for the subscriber of a request.
    pub(crate) fn barred(&self, request: &Request) -> &Barred
        ensures { result.now ≡ barred_in (at_text self.now.state.subscribers (supi_by request.now.operation self.now.state request.now)) }
    {
        match self.subscribers.get(supi_for(&self.sessions, request)) {
            Some(row) => &row.barred,
            None => &self.none_barred,
        }
    }
}
