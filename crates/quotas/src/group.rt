//! A rating group, and each thing that may come to it.
ghost use Rattle.std.specs.Prelude.{◌≡◌};
ghost use Rattle.std.specs.Option.{option_copied};
ghost use Rattle.quotas.specs.Standing.{state_of};
ghost use Rattle.quotas.specs.Quota.{Quota, new_quota, is_asked, gate_of, asked, frozen, answered, continued, used, shut_off, fired};
ghost use Rattle.quotas.specs.Due.{due_of};
ghost use Rattle.quotas.specs.Deadline.{deadline, IsDeadline};
ghost use Rattle.quotas.specs.Steps.{quota_step};

use crate::due::{deadline_by_terms, due_by_container, due_by_terms};
use crate::standing::{
    Standing, bare_state, left_from, live_gate, spent_from, standing_from, without_quota,
};
use crate::state::{Gate, Limits, State};
use crate::step::Step;
use std::marker::Model;
use units::{Container, Moment, TriggerType, UnitInfo};

/// The quota of one rating group in a charging session (TS 32.290, quota management).
#[derive(Clone, Copy, Debug)]
pub struct Group {
    standing: Standing,
    wish: bool,
    carried: bool,
    given_back: bool,
    shut: bool,
    octets: u64,
    seconds: u64,
    fresh_octets: u64,
    fresh_seconds: u64,
    last_use: Moment,
}

impl Model for Group {
    ghost use Rattle.quotas.specs.Quota.{Quota};

    ghost Value = { Quota };

    ghost view = { λ g. record { standing = g.standing; wish = g.wish; carried = g.carried; given_back = g.given_back; shut = g.shut; octets = g.octets; seconds = g.seconds; fresh_octets = g.fresh_octets; fresh_seconds = g.fresh_seconds; last_use = g.last_use } };

    ghost inverse = { λ q. record { standing = q.standing; wish = q.wish; carried = q.carried; given_back = q.given_back; shut = q.shut; octets = q.octets; seconds = q.seconds; fresh_octets = q.fresh_octets; fresh_seconds = q.fresh_seconds; last_use = q.last_use } };
}

impl Group {
    /// A group for which nothing came yet: no quota, not asked, no use (TS 32.290, quota management).
    pub fn new() -> Group
        ensures { result ≡ new_quota }
    {
        Group {
            standing: Standing::Nothing,
            wish: false,
            carried: false,
            given_back: false,
            shut: false,
            octets: 0,
            seconds: 0,
            fresh_octets: 0,
            fresh_seconds: 0,
            last_use: Moment::first(),
        }
    }

    /// What the group may use, by its latest answer and what came since (TS 32.290, quota management).
    pub fn state(&self) -> State
        ensures { result ≡ state_of self.now.standing }
    {
        bare_state(self.standing)
    }

    /// Whether quota is wished for that no request asked for yet (requestedUnit of TS 32.291).
    pub fn wish(&self) -> bool
        ensures { result ≡ self.now.wish }
    {
        self.wish
    }

    /// Whether quota is wished for, from the wish to the answer to the request that carries it (TS 32.290, quota management).
    pub fn is_asked(&self) -> bool
        ensures { result ≡ is_asked self.now }
    {
        self.wish || self.carried
    }

    /// Whether the next request gives the group's quota back, by an entry without requestedUnit (TS 32.290, quota management).
    pub fn gives_back(&self) -> bool
        ensures { result ≡ self.now.given_back }
    {
        self.given_back
    }

    /// What becomes of the group's traffic: granted units pass until none is left (TS 32.290, quota management).
    pub fn gate(&self) -> Gate
        ensures { result ≡ gate_of self.now }
    {
        if self.shut {
            Gate::Closed
        } else {
            live_gate(self.standing, self.octets, self.seconds)
        }
    }

    /// The first trigger that is due at a moment, in the order of this product's trigger table, and `None` exactly where
    /// none is (TS 32.255, 5.2.1). `open_container` is the group's open container, if there is one, and `unsafe_hour`
    /// tells whether its tariff may have switched since its last report.
    pub fn due(
        &self,
        open_container: Option<&Container>,
        unsafe_hour: bool,
        now: Moment,
        limits: &Limits,
    ) -> Option<TriggerType>
        ensures { result ≡ due_of self.now (option_copied open_container.entry) unsafe_hour now limits.now }
    {
        if !self.wish && !self.carried {
            if let Standing::Granted(terms) = self.standing {
                let left = left_from(terms.amount, self.octets, self.seconds);
                let due = due_by_terms(terms, left, self.last_use, now);
                if due.is_some() {
                    return due;
                }
            }
        }
        due_by_container(open_container, unsafe_hour, limits)
    }

    /// The least moment at which `due` without an open container gives VALIDITY_TIME or QHT, and `None` exactly where there
    /// is none within the range of moments (TS 32.290, quota management).
    pub fn deadline(&self) -> Option<Moment>
        ensures value { result ≡ deadline self.now }
        ensures least { IsDeadline self.now result }
    {
        if self.is_asked() {
            return None;
        }
        match self.standing {
            Standing::Granted(terms) => {
                let left = left_from(terms.amount, self.octets, self.seconds);
                deadline_by_terms(terms, left, self.last_use)
            }
            _ => None,
        }
    }

    /// Quota is wished for (TS 32.290, quota management). A group of state Unlimited needs none: its caller does not ask.
    pub fn ask(&mut self)
        ensures { self.new ≡ asked self.old }
    {
        self.wish = true;
    }

    /// A request of the session was made (frozen): it carries the group's wish and its give-back, and use counts afresh for
    /// its answer (TS 32.290, quota management).
    pub fn freeze(&mut self)
        ensures { self.new ≡ frozen self.old }
    {
        self.carried = self.wish || self.carried;
        self.wish = false;
        self.given_back = false;
        self.fresh_octets = 0;
        self.fresh_seconds = 0;
    }

    /// The request with this time stamp was answered with success; `info` is the answer's entry for the group, if it has
    /// one (TS 32.290, quota management). Of the use, what came after that request was made counts against its grant.
    pub fn answer(&mut self, stamp: Moment, info: Option<&UnitInfo>)
        ensures { self.new ≡ answered stamp (option_copied info.entry) self.old }
    {
        self.carried = false;
        match info {
            None => self.wish = self.wish || matches!(self.standing, Standing::Free),
            Some(info) => {
                self.standing = standing_from(stamp, info);
                self.wish = self.wish && !matches!(self.standing, Standing::Unlimited);
                self.octets = self.fresh_octets;
                self.seconds = self.fresh_seconds;
            }
        }
    }

    /// No CHF answered and the session goes on: a group that has no use left, and is not Unlimited, becomes Free
    /// (failure handling CONTINUE of TS 32.290).
    pub fn continue_without(&mut self)
        ensures { self.new ≡ continued self.old }
    {
        self.standing = without_quota(self.standing, self.octets, self.seconds);
    }

    /// A report of the group: octets up and down together, seconds, and its moment (TS 32.290, quota management). The sums
    /// end at 2^64 - 1, so what is left of an amount, which is at most that, is exact.
    pub fn used(&mut self, octets: u64, seconds: u32, moment: Moment)
        ensures { self.new ≡ used octets seconds moment self.old }
    {
        self.octets = self.octets.saturating_add(octets);
        self.seconds = self.seconds.saturating_add(u64::from(seconds));
        self.fresh_octets = self.fresh_octets.saturating_add(octets);
        self.fresh_seconds = self.fresh_seconds.saturating_add(u64::from(seconds));
        self.last_use = moment;
    }

    /// The session is ending or has ended: the gate stays closed (this product's own).
    pub fn shut(&mut self)
        ensures { self.new ≡ shut_off self.old }
    {
        self.shut = true;
    }

    /// A trigger fired for the group: it sets a wish, gives the quota back, or has no effect here (TS 32.255, 5.2.1).
    pub fn fire(&mut self, trigger: TriggerType)
        ensures { self.new ≡ fired trigger self.old }
    {
        match trigger {
            TriggerType::QuotaExhausted | TriggerType::QuotaThreshold | TriggerType::ValidityTime =>
                self.wish = true,
            TriggerType::ForcedReauthorisation => {
                self.wish = matches!(self.standing, Standing::Granted(_)) || self.wish;
            }
            TriggerType::QuotaHoldingTime => {
                self.standing = Standing::Nothing;
                self.given_back = true;
            }
            TriggerType::Final => {
                self.standing = spent_from(self.standing);
                self.given_back = true;
            }
            _ => {}
        }
    }

    /// What came to the group, by the call that is named for it (this product's own).
    pub fn take(&mut self, step: &Step)
        ensures { self.new ≡ quota_step step.now self.old }
    {
        match step {
            Step::Asked => self.ask(),
            Step::Frozen => self.freeze(),
            Step::Answered(stamp, info) => self.answer(*stamp, info.as_ref()),
            Step::Continued => self.continue_without(),
            Step::Used(octets, seconds, moment) => self.used(*octets, *seconds, *moment),
            Step::Fired(trigger) => self.fire(*trigger),
            Step::Shut => self.shut(),
        }
    }
}
