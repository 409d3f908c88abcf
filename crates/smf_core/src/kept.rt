//! What is kept of a session for speed.
ghost use Rattle.std.specs.Prelude.{◌≡◌, ◌<◌, ◌≤◌, ◌+◌, IfOk, OnOk, filter, length, map, unwrap_or, vec_len, vec_capacity};
ghost use Rattle.std.specs.Option.{option_copied};
ghost use Rattle.smf_model.specs.Machine.{touches, effect, finished, gate_for, expected_of};
ghost use Rattle.smf_core.specs.Lookup.{answer_at};
ghost use Rattle.smf_model.specs.Sending.{flight_of};
ghost use Rattle.smf_core.specs.Reads.{is_held, containers_of, held_of};
ghost use Rattle.smf_core.specs.Marking.{mark_of};
ghost use Rattle.smf_core.specs.Plan.{changed, Fits};
ghost use Rattle.smf_core.specs.Draft.{request_after};
ghost use Rattle.smf_core.specs.Caches.{places_from, HasRoom, rules_left, after_change};
ghost use Rattle.smf_model.specs.GivenUps.{given_up_of};

use crate::change::{change_of, containers_from, held_from, is_held_holding};
use crate::checks::{check_found, expected, gate};
use crate::containers::Containers;
use crate::draft::{Course, Pending};
use crate::giving::{given_up_count, given_up_from, retell};
use crate::marks::mark;
use crate::plan::{Change, Prepared};
use crate::sending::in_flight;
use crate::step::is_touched;
use agenda::Mark;
use quotas::Gate;
use smf_model::{
    Entry, GivenUp, Holding, Peer, Rule, Seen, Session, SmfEvent, SmfRefusal, SmfSetup,
};
use std::alloc::Global;
use std::marker::Model;
use units::{Container, List, Moment, OutOfMemory, Request};

/// A session as the machine keeps it: what events look at, which is what is held, beside all its containers; the places of what is held
/// among them; and what is read of it.
#[derive(Drop)]
pub struct Kept {
    session: Session,
    containers: Containers,
    places: List<usize>,
    held: Vec<Container>,
    given: Vec<GivenUp>,
}

impl Model for Kept {
    ghost use Rattle.std.specs.Prelude.{◌-◌, min, vec_len, vec_capacity};
    ghost use Rattle.smf_core.specs.Caches.{KeptAs, IsKept, full};

    ghost Value = { KeptAs };

    ghost view = { λ k. record { session = full k.session k.containers.holdings; room = min k.containers.room (vec_capacity k.held - vec_len k.held); spare = vec_capacity k.given - vec_len k.given } };

    ghost invariant = { λ k. IsKept k.session k.containers.holdings k.places k.held.items k.given.items };
}

// The place of each container that is held.
fn places_of(alloc: Global, all: &[Holding]) -> Result<List<usize>, OutOfMemory>
    ensures { IfOk result (λ r. r ≡ places_from 0 all.now) }
{
    let mut places = List::new(alloc);
    for (at, holding) in all.iter().enumerate() {
        if is_held_holding(holding) {
            places.push(at)?;
        }
    }
    Ok(places)
}

// What of a list is held.
fn only_held(holdings: List<Holding>) -> List<Holding>
    ensures { result ≡ filter is_held holdings }
{
    let mut held = holdings.into_vec();
    retain_held(&mut held);
    List::from_vec(held)
}

fn retain_held(holdings: &mut Vec<Holding>)
    ensures { holdings.new.items ≡ filter is_held holdings.old.items }
{
    holdings.retain(|h| is_held_holding(h));
}

// The places of what is held, which a change may leave as they are.
fn take_places(before: &mut List<usize>, places: Option<List<usize>>)
    ensures { before.new ≡ unwrap_or places before.old }
{
    if let Some(places) = places {
        *before = places;
    }
}

// The containers of what is held take the places of those before.
fn hold(held: &mut Vec<Container>, live: &[Holding])
    requires { length live.now ≤ vec_capacity held.old }
    ensures { held.new.items ≡ containers_of live.now }
{
    held.clear();
    for holding in live {
        held.push_reserved(holding.container);
    }
}

// The unanswered request after a change.
fn leave_request(request: &mut Option<Request>, pending: Pending)
    ensures { request.new ≡ request_after request.old pending }
{
    match pending {
        Pending::Same => {}
        Pending::Nothing => *request = None,
        Pending::New(next) => *request = Some(next),
    }
}

// A session as a change leaves what events look at.
fn settle_in(
    session: &mut Session,
    course: Course,
    groups: List<Entry>,
    live: List<Holding>,
    rules: Option<List<Rule>>,
    pending: Pending,
)
    ensures { session.new ≡ after_change session.old course groups live rules pending }
{
    session.reference = course.reference;
    session.life = course.life;
    session.last = course.last;
    session.count = course.count;
    session.reports = course.reports;
    session.at_once = course.at_once;
    session.failover = course.failover;
    session.handling = course.handling;
    session.peer = course.peer;
    session.sending = course.sending;
    session.groups = groups;
    session.holdings = live;
    if let Some(rules) = rules {
        session.rules = rules;
    }
    leave_request(&mut session.request, pending);
}

impl Kept {
    /// What is kept of a session.
    pub fn of(alloc: Global, session: Session) -> Result<Kept, OutOfMemory>
        ensures { IfOk result (λ k. k.session ≡ session) }
    {
        let mut session = session;
        let containers = Containers::of(alloc, session.holdings.as_slice())?;
        let live = held_from(alloc, session.holdings.as_slice())?;
        let places = places_of(alloc, session.holdings.as_slice())?;
        let held = containers_from(alloc, &live)?;
        let given = given_up_from(alloc, session.holdings.as_slice())?;
        session.holdings = List::from_vec(live);
        Ok(Kept {
            session,
            containers,
            places,
            held,
            given,
        })
    }

    /// Its number.
    pub fn number(&self) -> u32
        ensures { result ≡ self.now.session.number }
    {
        self.session.number
    }

    /// The answer to an event that is for it, where this sends next.
    pub fn check(
        &self,
        now: Moment,
        next: Option<(u32, Peer)>,
        event: &SmfEvent,
    ) -> Result<Seen, SmfRefusal>
        ensures { result ≡ answer_at now next event.now self.now.session }
    {
        check_found(now, next, event, &self.session)
    }

    /// What of it is looked for.
    pub fn mark(&self, setup: &SmfSetup, now: Moment) -> Mark
        ensures { result ≡ mark_of setup.now now self.now.session }
    {
        mark(setup, now, &self.session)
    }

    /// The peer of the attempt of its unanswered request that has no end, `None` exactly where there is none.
    pub fn in_flight(&self) -> Option<Peer>
        ensures { result ≡ flight_of self.now.session }
    {
        in_flight(&self.session)
    }

    /// Whether an event touches it.
    pub fn is_touched(&self, event: &SmfEvent) -> bool
        ensures { result ≡ touches event.now self.now.session }
    {
        is_touched(event, &self.session)
    }

    // What an event makes of it, and room for the container that it may open.
    fn change_held(
        &mut self,
        alloc: Global,
        setup: &SmfSetup,
        now: Moment,
        event: &SmfEvent,
    ) -> Result<Prepared, OutOfMemory>
        ensures made { IfOk result (λ c. changed c self.old.session ≡ finished setup.now now (effect setup.now now event.now self.old.session)) }
        ensures fits { IfOk result (λ c. Fits c self.old.session) }
        ensures same { self.new.session ≡ self.old.session }
        ensures room { OnOk result (0 < self.new.room) }
    {
        self.containers.make_room()?;
        self.held.reserve(1)?;
        let places = self.places.as_slice();
        change_of(
            alloc,
            setup,
            now,
            event,
            &self.session,
            places,
            self.containers.len(),
        )
    }

    // Room for so many more that are given up.
    fn make_spare(&mut self, more: usize) -> Result<(), OutOfMemory>
        ensures same { self.new.session ≡ self.old.session }
        ensures room { self.new.room ≡ self.old.room }
        ensures spare { OnOk result (more ≤ self.new.spare) }
    {
        self.given.reserve(more)?;
        Ok(())
    }

    /// What an event makes of it, and room for that.
    pub fn change(
        &mut self,
        alloc: Global,
        setup: &SmfSetup,
        now: Moment,
        event: &SmfEvent,
    ) -> Result<Prepared, OutOfMemory>
        ensures made { IfOk result (λ c. changed c self.old.session ≡ finished setup.now now (effect setup.now now event.now self.old.session)) }
        ensures fits { IfOk result (λ c. Fits c self.old.session) }
        ensures same { self.new.session ≡ self.old.session }
        ensures room { IfOk result (λ c. HasRoom c self.new) }
    {
        let change = self.change_held(alloc, setup, now, event)?;
        self.make_spare(given_up_count(change.moved()))?;
        Ok(change)
    }

    // Takes a change that was made for it.
    fn take_change(&mut self, change: Change)
        requires fits { Fits change self.old.session }
        requires room { HasRoom change self.old }
        ensures { self.new.session ≡ changed change self.old.session }
    {
        let Change {
            course,
            groups,
            moved,
            places,
            rules,
            pending,
        } = change;
        retell(
            &mut self.given,
            &mut self.containers,
            self.places.as_slice(),
            moved.as_slice(),
        );
        take_places(&mut self.places, places);
        let live = only_held(moved);
        hold(&mut self.held, live.as_slice());
        settle_in(&mut self.session, course, groups, live, rules, pending);
    }

    /// Takes a change that was made for it; it takes no memory.
    pub fn take(&mut self, change: Prepared)
        requires fits { Fits change self.old.session }
        requires room { HasRoom change self.old }
        ensures { self.new.session ≡ changed change self.old.session }
    {
        self.take_change(change.into_change());
    }

    /// Its unanswered request, `None` exactly where there is none.
    pub fn request(&self) -> Option<&Request>
        ensures { option_copied result ≡ self.now.session.request }
    {
        self.session.request.as_ref()
    }

    /// What becomes of a rating group's traffic.
    pub fn gate(&self, group: u32) -> Gate
        ensures { result ≡ gate_for group self.now.session }
    {
        gate(&self.session, group)
    }

    /// The number of a rating group's next report.
    pub fn expected(&self, group: u32) -> u32
        ensures { result ≡ expected_of group self.now.session }
    {
        expected(&self.session, group)
    }

    /// Its containers, in order of their numbers.
    pub fn containers(&self) -> &[Container]
        ensures { result.now ≡ containers_of self.now.session.holdings }
    {
        self.containers.as_slice()
    }

    /// Those that are open, or closed and neither answered by a final success nor given up.
    pub fn held(&self) -> &[Container]
        ensures { result.now ≡ held_of self.now.session.holdings }
    {
        self.held.as_slice()
    }

    /// Those that are given up, in order of their numbers, each with the cause.
    pub fn given_up(&self) -> &[GivenUp]
        ensures { result.now ≡ given_up_of self.now.session.holdings }
    {
        self.given.as_slice()
    }
}
