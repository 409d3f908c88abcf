//! The machine: an event is planned, and then committed.
ghost use Rattle.std.specs.Prelude.{◌≡◌, ◌<◌, ◌≤◌, IfOk, IfErr, OnOk, map, option_map, slice_get};
ghost use Rattle.std.specs.Option.{option_copied};
ghost use Rattle.smf_model.specs.declared.refusal.Seen.TheVariants.{New, Known as AlreadyKnown};
ghost use Rattle.smf_model.specs.Machine.{answer_of, any_flies, empty, now_after, session_of, stepped};
ghost use Rattle.smf_core.specs.Lookup.{session_for, next_for, flies_for};
ghost use Rattle.smf_model.specs.Sending.{send_of};
ghost use Rattle.smf_core.specs.Reads.{request_in, flight_in, gate_at, expected_at, containers_in, held_in, given_up_in};
ghost use Rattle.smf_core.specs.Plan.{applied, AddedIsReady, IsPlanOf, IsReady, IsRefused, NextIsReady, Takes};
ghost use Rattle.agenda.specs.Marks.{places_from};
ghost use Rattle.smf_core.specs.Marking.{looked_at, marks_of, woken_by};

use crate::adding::{Added, add, added_kept};
use crate::checks::{check_missing, subject};
use crate::index::Index;
use crate::kept::Kept;
use crate::marks::wake;
use crate::next::{next_turns, take_next};
use crate::plan::{Next, SmfPlan};
use crate::step::moment_after;
use agenda::{Agenda, Search};
use quotas::Gate;
use smf_model::{GivenUp, Peer, Seen, SmfEvent, SmfRefusal, SmfSetup, copy_setup, sessions_rest};
use std::alloc::Global;
use std::marker::Model;
use units::{Container, List, Moment, OutOfMemory, Request};

fn kept_at(sessions: &[Kept], at: usize) -> Option<&Kept>
    ensures { option_copied result ≡ slice_get sessions.now at }
{
    sessions.get(at)
}

/// The machine of an SMF's charging trigger function (TS 32.255, 5.2.1; TS 32.290, 5.3.2).
#[derive(Drop)]
pub struct Smf {
    setup: SmfSetup,
    moment: Moment,
    count: u32,
    index: Index,
    sessions: Vec<Kept>,
    agenda: Agenda,
}

impl Model for Smf {
    ghost use Rattle.std.specs.Prelude.{◌≡◌, ◌-◌, min, vec_len, vec_capacity};
    ghost use Rattle.smf_core.specs.Caches.{sessions_of, IsTied};
    ghost use Rattle.smf_core.specs.Plan.{Shown};

    ghost Value = { Shown };

    ghost view = { λ s. record { machine = record { setup = s.setup; moment = s.moment; count = s.count; sessions = sessions_of s.sessions.items }; kept = s.sessions.items; room = min (vec_capacity s.sessions - vec_len s.sessions) (min s.index.room s.agenda.room) } };

    ghost invariant = { λ s. IsTied s.setup s.index.numbers s.agenda.marks s.moment (sessions_of s.sessions.items) };
}

impl Smf {
    /// A machine without sessions.
    pub fn new(alloc: Global, setup: &SmfSetup) -> Result<Smf, OutOfMemory>
        ensures { IfOk result (λ s. s.machine ≡ empty setup.now) }
    {
        let setup = copy_setup(setup)?;
        Ok(Smf {
            setup,
            moment: Moment::first(),
            count: 1,
            index: Index::new(alloc),
            sessions: Vec::new(alloc),
            agenda: Agenda::new(alloc),
        })
    }

    fn found(&self, number: Option<u32>) -> Option<&Kept>
        ensures { option_map (λ k. k.session) (option_copied result) ≡ session_for number self.now.machine.sessions }
    {
        match self.index.place(number) {
            None => None,
            Some(at) => kept_at(&self.sessions, at),
        }
    }

    // What sends next, where an event is an attempt.
    fn next_for(&self, event: &SmfEvent) -> Option<(u32, Peer)>
        ensures { result ≡ next_for self.now.machine.moment self.now.machine.sessions event.now }
    {
        match event {
            SmfEvent::Attempt { .. } => self.next_send(),
            _ => None,
        }
    }

    // Whether an attempt is in flight.
    fn flies(&self) -> bool
        ensures { result ≡ any_flies self.now.machine.sessions }
    {
        self.agenda.all().flies
    }

    // Whether one is, where an event is a restart.
    fn flies_for(&self, event: &SmfEvent) -> bool
        ensures { result ≡ flies_for self.now.machine.sessions event.now }
    {
        match event {
            SmfEvent::Restart => self.flies(),
            _ => false,
        }
    }

    fn check(&self, event: &SmfEvent) -> Result<Seen, SmfRefusal>
        ensures { result ≡ answer_of self.now.machine event.now }
    {
        let next = self.next_for(event);
        let flies = self.flies_for(event);
        match self.found(subject(event)) {
            None => check_missing(self.moment, flies, event),
            Some(kept) => kept.check(self.moment, next, event),
        }
    }

    // Makes room for one more session.
    fn make_room(&mut self, alloc: Global) -> Result<(), OutOfMemory>
        ensures machine { self.new.machine ≡ self.old.machine }
        ensures room { OnOk result (0 < self.new.room) }
    {
        self.sessions.reserve(1)?;
        self.index.make_room()?;
        self.agenda.make_room(alloc)?;
        Ok(())
    }

    // The places of the sessions whose marks have what is searched for.
    fn places(&self, alloc: Global, search: &Search) -> Result<List<usize>, OutOfMemory>
        ensures { IfOk result (λ r. r ≡ places_from search.now 0 (marks_of self.now.machine.setup self.now.machine.moment self.now.machine.sessions)) }
    {
        let places = self.agenda.places(alloc, search)?;
        Ok(List::from_vec(places))
    }

    // The places of the sessions that wait no more once an event has come.
    fn woken(&self, alloc: Global, event: &SmfEvent) -> Result<List<usize>, OutOfMemory>
        ensures { IfOk result (λ r. r ≡ woken_by (now_after self.now.machine.moment event.now) self.now.machine) }
    {
        let now = moment_after(self.moment, event);
        self.places(alloc, &Search::Waits(now))
    }

    // The places of the sessions that an event for all of them may change.
    fn looked_at(&self, alloc: Global, event: &SmfEvent) -> Result<List<usize>, OutOfMemory>
        ensures { IfOk result (λ r. r ≡ looked_at self.now.machine event.now) }
    {
        match event {
            SmfEvent::Tick { moment } => {
                self.places(alloc, &Search::Due(self.moment.max(*moment)))
            }
            SmfEvent::Restart => self.places(alloc, &Search::Flies),
            _ => Ok(List::new(alloc)),
        }
    }

    // The plan of a new event.
    fn plan_new(
        &mut self,
        alloc: Global,
        event: &SmfEvent,
        woken: List<usize>,
        several: &[usize],
    ) -> Result<SmfPlan, OutOfMemory>
        requires new { answer_of self.old.machine event.now ≡ Ok New }
        requires room { 0 < self.old.room }
        requires woken { woken ≡ woken_by (now_after self.old.machine.moment event.now) self.old.machine }
        requires several { several.now ≡ looked_at self.old.machine event.now }
        ensures made { IfOk result (λ p. applied p self.old.machine ≡ stepped self.old.machine event.now) }
        ensures seen { IfOk result (λ p. p.seen ≡ New) }
        ensures next { IfOk result (λ p. NextIsReady p.next self.new.kept) }
        ensures added { IfOk result (λ p. AddedIsReady p.added self.new.machine.sessions self.new.room) }
        ensures later { IfOk result (λ p. self.old.machine.moment ≤ p.moment) }
        ensures woken { IfOk result (λ p. p.woken ≡ woken_by p.moment self.old.machine) }
        ensures same { self.new.machine ≡ self.old.machine }
    {
        sessions_rest();
        let Some(count) = self.count.checked_add(1) else {
            return Err(OutOfMemory);
        };
        let now = moment_after(self.moment, event);
        let _seconds = now.seconds();
        let added = added_kept(alloc, &self.setup, now, event)?;
        let place = self.index.place(subject(event));
        let next = next_turns(
            alloc,
            &self.setup,
            now,
            event,
            place,
            several,
            &mut self.sessions,
        )?;
        Ok(SmfPlan {
            seen: Seen::New,
            moment: now,
            count,
            next,
            added,
            woken,
        })
    }

    // The plan of an event that changes nothing.
    fn plan_known(&self, alloc: Global) -> SmfPlan
        ensures made { applied result self.now.machine ≡ self.now.machine }
        ensures seen { result.seen ≡ AlreadyKnown }
        ensures next { NextIsReady result.next self.now.kept }
        ensures added { AddedIsReady result.added self.now.machine.sessions self.now.room }
        ensures later { self.now.machine.moment ≤ result.moment }
        ensures woken { result.woken ≡ woken_by result.moment self.now.machine }
    {
        SmfPlan {
            seen: Seen::Known,
            moment: self.moment,
            count: self.count,
            next: Next::Nothing,
            added: Added::none(),
            woken: List::new(alloc),
        }
    }

    /// What an event makes of the machine, with all the memory that it takes; nothing that is seen changes. There is no place for more than
    /// 2^32 - 1 entries of the list: want of memory. Each event is refused, or
    /// Known, by its checks in order: no session, session exists, too many groups, gate closed, out of step, too large, moment back,
    /// too many reports.
    pub fn plan(&mut self, alloc: Global, event: &SmfEvent) -> Result<SmfPlan, SmfRefusal>
        ensures made { IfOk result (λ p. IsPlanOf p self.old.machine event.now) }
        ensures refused { IfErr result (λ e. IsRefused e self.old.machine event.now) }
        ensures same { self.new.machine ≡ self.old.machine }
        ensures ready { IfOk result (λ p. IsReady p self.new) }
    {
        match self.check(event)? {
            Seen::Known => Ok(self.plan_known(alloc)),
            Seen::New => {
                let woken = self.woken(alloc, event)?;
                let several = self.looked_at(alloc, event)?;
                self.make_room(alloc)?;
                let plan = self.plan_new(alloc, event, woken, several.as_slice())?;
                Ok(plan)
            }
        }
    }

    /// Whether the plan's event is new.
    pub fn seen(plan: &SmfPlan) -> Seen
        ensures { result ≡ plan.now.seen }
    {
        plan.seen
    }

    /// Takes the step of the event that was planned; it takes no memory and can't fail. The plan has to be of the machine as it stands:
    /// the last one that `plan` made is, with nothing committed since.
    pub fn commit(&mut self, plan: SmfPlan) -> Seen
        requires { IsReady plan self.old }
        ensures step { Takes plan self.old.machine self.new.machine }
        ensures made { self.new.machine ≡ applied plan self.old.machine }
        ensures seen { result ≡ plan.seen }
    {
        let SmfPlan {
            seen,
            moment,
            count,
            next,
            added,
            woken,
        } = plan;
        sessions_rest();
        wake(
            &mut self.agenda,
            &self.setup,
            moment,
            &self.sessions,
            woken.as_slice(),
        );
        self.moment = moment;
        self.count = count;
        take_next(
            &mut self.agenda,
            &self.setup,
            moment,
            &mut self.sessions,
            next,
        );
        add(
            &mut self.index,
            &mut self.agenda,
            &self.setup,
            moment,
            &mut self.sessions,
            added,
        );
        seen
    }

    /// The numbers of the sessions, in the order of their Attach.
    pub fn sessions(&self) -> &[u32]
        ensures { result.now ≡ map (λ s. s.number) self.now.machine.sessions }
    {
        self.index.numbers()
    }

    /// What sends next: the least session that may send, and the next peer of its round. A session may send where its request is unanswered,
    /// no attempt of it is in flight, and it does not wait (TS 32.290, failure handling).
    pub fn next_send(&self) -> Option<(u32, Peer)>
        ensures { result ≡ send_of self.now.machine.moment self.now.machine.sessions }
    {
        self.agenda.all().send
    }

    /// The peer of the attempt of a session's unanswered request that has no end, `None` exactly where there is none.
    pub fn in_flight(&self, session: u32) -> Option<Peer>
        ensures { result ≡ flight_in (session_of session self.now.machine.sessions) }
    {
        match self.found(Some(session)) {
            None => None,
            Some(kept) => kept.in_flight(),
        }
    }

    /// How many entries the list has: its setup, and each event that was new.
    pub fn count(&self) -> u32
        ensures { result ≡ self.now.machine.count }
    {
        self.count
    }

    /// The unanswered request of a session, with the mark of its next attempt; `None` exactly where there is none.
    pub fn request(&self, session: u32) -> Option<&Request>
        ensures { option_copied result ≡ request_in (session_of session self.now.machine.sessions) }
    {
        match self.found(Some(session)) {
            None => None,
            Some(kept) => kept.request(),
        }
    }

    /// What becomes of a rating group's traffic.
    pub fn gate(&self, session: u32, group: u32) -> Gate
        ensures { result ≡ gate_at group (session_of session self.now.machine.sessions) }
    {
        match self.found(Some(session)) {
            None => Gate::Waiting,
            Some(kept) => kept.gate(group),
        }
    }

    /// The number of a rating group's next report.
    pub fn expected(&self, session: u32, group: u32) -> u32
        ensures { result ≡ expected_at group (session_of session self.now.machine.sessions) }
    {
        match self.found(Some(session)) {
            None => 1,
            Some(kept) => kept.expected(group),
        }
    }

    /// The containers of a session, in order of their numbers; empty for an unknown session.
    pub fn containers(&self, session: u32) -> &[Container]
        ensures { result.now ≡ containers_in (session_of session self.now.machine.sessions) }
    {
        match self.found(Some(session)) {
            None => &[],
            Some(kept) => kept.containers(),
        }
    }

    /// Those that are open, or closed and neither answered by a final success nor given up; empty for an unknown session.
    pub fn held(&self, session: u32) -> &[Container]
        ensures { result.now ≡ held_in (session_of session self.now.machine.sessions) }
    {
        match self.found(Some(session)) {
            None => &[],
            Some(kept) => kept.held(),
        }
    }

    /// Those that are given up, each once with the cause, in order of their numbers; empty for an unknown session.
    pub fn given_up(&self, session: u32) -> &[GivenUp]
        ensures { result.now ≡ given_up_in (session_of session self.now.machine.sessions) }
    {
        match self.found(Some(session)) {
            None => &[],
            Some(kept) => kept.given_up(),
        }
    }
}
