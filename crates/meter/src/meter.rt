//! The reports of one session, taken one by one.
ghost use Rattle.std.specs.Prelude.{◌≡◌, ◌≢◌, ◌<◌, ◌≤◌, ◌+◌, ◌^◌, ◌==◌, ◌++◌, ◌∷◌, [], ℕ, Bool, List, All, length, OnOk, IsOk, Ok, Some, None, false, is_some};
ghost use Rattle.units.specs.Cut.{AreCuts, AreWidestCuts, IsCut, reports_of, containers_of, no_switch, whole_hour};
ghost use Rattle.units.specs.Limits.{most_reports};
ghost use Rattle.units.specs.declared.report.Report.{Report};
ghost use Rattle.meter.specs.Horizons.{AreForeseen};
ghost use Rattle.meter.specs.Meter.{nothing_yet, answer_of, expected_of, report_total, open_of, last_of, horizon_of, closed_of, with_joined, with_opened, with_closed, after_report, after_close, after_horizon, groups_of, is_in, HasPlaceFor, IsSmall, AreNumbered, IsFirstUnsafe, IsTaken, IsUndisturbed, AreClosedButOpen, IsOpenUntil};

use crate::close::Close;
use crate::container::{is_large, joins, trigger_before};
use crate::counts::{GroupCount, place_of, uncounted};
use crate::horizon::{Horizon, first_unsafe_hour, horizon_of, set_horizon};
use crate::refusal::{MeterRefusal, Seen};
use crate::take::{grow, open_next};
use std::alloc::Global;
use std::marker::Model;
use units::{
    Closed, Container, MOST_GROUPS, MOST_REPORTS, Moment, OutOfMemory, Report, TriggerType,
};

/// The containers of one session, cut where its groups' tariffs may switch (TS 32.255, 5.2.1).
#[derive(Drop)]
pub struct Meter {
    containers: Vec<Container>,
    closes: Vec<Option<Close>>,
    horizons: Vec<Horizon>,
    counts: Vec<GroupCount>,
    last: Moment,
    total: u32,
}

impl Model for Meter {
    ghost use Rattle.meter.specs.Meter.{Metered};

    ghost Value = { Metered };

    ghost use Rattle.meter.specs.Caches.{seen, IsSound};

    ghost view = { seen };

    ghost invariant = { IsSound };
}

impl Meter {
    /// A session without reports and horizons; it takes no memory.
    pub fn new(alloc: Global) -> Meter
        ensures { result.contents ≡ nothing_yet }
    {
        Meter {
            containers: Vec::new(alloc),
            closes: Vec::new(alloc),
            horizons: Vec::new(alloc),
            counts: Vec::new(alloc),
            last: Moment::first(),
            total: 0,
        }
    }

    /// Makes room: then one report, or one horizon of each of at most 16 groups, and closes after these or without them,
    /// take no memory. Where the room is there already it takes none. Where memory is wanting, nothing came of it.
    pub fn make_room(&mut self, _alloc: Global) -> Result<(), OutOfMemory>
        ensures room { OnOk result (0 < self.new.room) }
        ensures there { 0 < self.old.room → IsOk result }
        ensures same { self.new.contents ≡ self.old.contents }
    {
        self.containers.reserve(1)?;
        self.closes.reserve(1)?;
        self.counts.reserve(1)?;
        if self.horizons.capacity() < MOST_GROUPS {
            self.horizons.reserve(MOST_GROUPS)?;
        }
        Ok(())
    }

    /// The containers in the order of their numbers, which run from 1 over all groups (localSequenceNumber of TS 32.291);
    /// at most 2^20, as many as there are reports at most. Each is closed but the open one of its group.
    pub fn containers(&self) -> &[Container]
        ensures value { result.now ≡ self.now.contents.containers }
        ensures few { length result.now ≤ most_reports }
        ensures total { report_total result.now ≤ most_reports }
        ensures numbered { AreNumbered 1 result.now }
        ensures small { All IsSmall result.now }
        ensures closed { AreClosedButOpen self.now.contents }
    {
        self.containers.as_slice()
    }

    /// The number that the group's next report has, from 1 (this product's own).
    pub fn expected(&self, group: u32) -> u32
        ensures { result ≡ expected_of self.now.contents group }
    {
        match place_of(&self.counts, group) {
            Some(at) => self.counts[at].expected,
            None => 1,
        }
    }

    /// The group's open container (this product's own).
    pub fn open_container(&self, group: u32) -> Option<Container>
        ensures { result ≡ open_of self.now.contents group }
    {
        let at = place_of(&self.counts, group)?;
        let place = (self.counts[at].lsn - 1) as usize;
        match self.closes[place] {
            Some(_) => None,
            None => Some(self.containers[place]),
        }
    }

    // Whether the group had a report or a horizon.
    fn has_group(&self, group: u32) -> bool
        ensures { result ≡ is_in group (groups_of self.now.contents) }
    {
        place_of(&self.counts, group).is_some() || horizon_of(&self.horizons, group).is_some()
    }

    // How many groups had a report or a horizon.
    fn group_count(&self) -> usize
        ensures { result ≡ length (groups_of self.now.contents) }
    {
        self.counts.len() + uncounted(&self.horizons, &self.counts)
    }

    // What `report` answers.
    fn answer(&self, report: &Report) -> Result<Seen, MeterRefusal>
        ensures { result ≡ answer_of self.now.contents report.now }
    {
        let expected = self.expected(report.group);
        if 1 <= report.number && report.number < expected {
            return Ok(Seen::Known);
        }
        if report.number != expected {
            return Err(MeterRefusal::OutOfStep { expected });
        }
        if is_large(report) {
            return Err(MeterRefusal::TooLarge);
        }
        if report.moment < self.last {
            return Err(MeterRefusal::MomentBack { last: self.last });
        }
        if self.total >= MOST_REPORTS {
            return Err(MeterRefusal::TooManyReports);
        }
        if !self.has_group(report.group) && self.group_count() >= MOST_GROUPS {
            return Err(MeterRefusal::TooManyGroups);
        }
        Ok(Seen::New)
    }

    // The report joins the last container of its group.
    fn join(&mut self, container: &Container, report: &Report)
        requires new { answer_of self.old.contents report.now ≡ Ok Seen.New }
        requires room { 0 < self.old.room }
        requires last { last_of self.old.contents report.now.group ≡ Some container.now }
        requires seconds { container.now.seconds + report.now.seconds < 2 ^ 32 }
        ensures value { self.new.contents ≡ with_joined self.old.contents container.now report.now }
        ensures room { self.new.room ≤ self.old.room }
        ensures counted { report_total self.new.contents.containers ≡ report_total self.old.contents.containers + 1 }
    {
        grow(
            &mut self.containers,
            &mut self.counts,
            self.last,
            self.total,
            container,
            report,
        );
        self.last = report.moment;
        self.total += 1;
    }

    // The report opens the next container.
    fn open(&mut self, report: &Report)
        requires new { answer_of self.old.contents report.now ≡ Ok Seen.New }
        requires room { 0 < self.old.room }
        requires none { open_of self.old.contents report.now.group ≡ None }
        ensures value { self.new.contents ≡ with_opened self.old.contents report.now }
        ensures room { self.new.room ≤ self.old.room }
        ensures counted { report_total self.new.contents.containers ≡ report_total self.old.contents.containers + 1 }
    {
        open_next(
            &mut self.containers,
            &mut self.closes,
            &mut self.counts,
            self.last,
            self.total,
            report,
        );
        self.last = report.moment;
        self.total += 1;
    }

    // Closes the last container of a group.
    fn shut(&mut self, container: &Container, trigger: TriggerType, moment: Moment)
        requires { last_of self.old.contents container.now.group ≡ Some container.now }
        ensures value { self.new.contents ≡ with_closed self.old.contents container.now trigger moment }
        ensures none { open_of self.new.contents container.now.group ≡ None }
        ensures others { (other : ℕ) → other ≢ container.now.group → open_of self.new.contents other ≡ open_of self.old.contents other }
        ensures room { self.new.room ≡ self.old.room }
    {
        self.closes[(container.lsn - 1) as usize] = Some(Close { trigger, moment });
    }

    // Takes a report that is answered `New`.
    fn take(&mut self, report: &Report)
        requires new { answer_of self.old.contents report.now ≡ Ok Seen.New }
        requires room { 0 < self.old.room }
        ensures value { self.new.contents ≡ after_report self.old.contents report.now }
        ensures room { self.new.room ≤ self.old.room }
        ensures counted { report_total self.new.contents.containers ≡ report_total self.old.contents.containers + 1 }
        ensures numbered { AreNumbered 1 self.old.contents.containers }
        ensures closes { length self.old.contents.closes ≡ length self.old.contents.containers }
    {
        let horizon = horizon_of(&self.horizons, report.group);
        match self.open_container(report.group) {
            Some(container) if joins(&horizon, &container, report) => {
                self.join(&container, report);
            }
            Some(container) => {
                let trigger = trigger_before(&horizon, &container, report);
                self.shut(&container, trigger, report.moment);
                self.open(report);
            }
            None => self.open(report),
        }
    }

    /// Takes the group's next report (TS 32.255, 5.2.1). It joins the group's open container, unless an unsafe hour lies
    /// after that container's last moment and not after the report's, or the seconds would pass 4294967295. Then that
    /// container is closed at the report's moment, by TARIFF_TIME_CHANGE where there is an unsafe hour, else by
    /// TIME_LIMIT, and the report opens the next one. An unsafe hour is a whole hour that is not strictly within the
    /// group's horizon. `Known` is a number from 1 that is below the expected one; refused are, in this order, OutOfStep,
    /// TooLarge, MomentBack, TooManyReports and TooManyGroups, and nothing is changed then. It needs the room of
    /// `make_room`, takes no memory, and costs the same whatever came before.
    pub fn report(&mut self, report: Report) -> Result<Seen, MeterRefusal>
        requires { 0 < self.old.room }
        ensures answer { result ≡ answer_of self.old.contents report }
        ensures new { result ≡ Ok Seen.New → self.new.contents ≡ after_report self.old.contents report }
        ensures same { result ≢ Ok Seen.New → self.new ≡ self.old }
        ensures few { result ≡ Ok Seen.New → report_total self.old.contents.containers < most_reports }
        ensures counted { result ≡ Ok Seen.New → report_total self.new.contents.containers ≡ report_total self.old.contents.containers + 1 }
        ensures horizons { self.new.contents.horizons ≡ self.old.contents.horizons }
        ensures room { self.new.room ≤ self.old.room }

        // The group's open container ends with it, and those of other groups are as before.
        ensures open { result ≡ Ok Seen.New → IsOpenUntil self.new.contents report.group report.moment }
        ensures others { (other : ℕ) → other ≢ report.group → open_of self.new.contents other ≡ open_of self.old.contents other }

        // It joins exactly where the rule for joining allows it.
        ensures rule { result ≡ Ok Seen.New → IsTaken self.old.contents report self.new.contents }

        // The containers of each group stay a plain cut of its reports,
        ensures plain { (reports : List Report) → AreCuts no_switch reports self.old.contents.containers → result ≡ Ok Seen.New
            → AreCuts no_switch (reports ++ report ∷ []) self.new.contents.containers }

        // a cut under whole hours as switches that the group's horizon has not strictly within it,
        ensures cuts { (switches : ℕ → Bool) → (reports : List Report) → AreForeseen (horizon_of self.old.contents report.group) switches
            → AreCuts switches reports self.old.contents.containers → result ≡ Ok Seen.New
            → AreCuts switches (reports ++ report ∷ []) self.new.contents.containers }

        // also where each group has switches of its own,
        ensures cut { (switches : ℕ → Bool) → (reports : List Report) → (group : ℕ)
            → (report.group ≡ group → AreForeseen (horizon_of self.old.contents group) switches)
            → IsCut switches (reports_of group reports) (containers_of group self.old.contents.containers) → result ≡ Ok Seen.New
            → IsCut switches (reports_of group (reports ++ report ∷ [])) (containers_of group self.new.contents.containers) }

        // and where no horizon was set and no close called, the widest cut at whole hours.
        ensures widest { (reports : List Report) → IsUndisturbed self.old.contents → AreWidestCuts whole_hour reports self.old.contents.containers
            → result ≡ Ok Seen.New → AreWidestCuts whole_hour (reports ++ report ∷ []) self.new.contents.containers }
        ensures undisturbed { IsUndisturbed self.old.contents → result ≡ Ok Seen.New → IsUndisturbed self.new.contents }
    {
        match self.answer(&report)? {
            Seen::New => {
                self.take(&report);
                Ok(Seen::New)
            }
            Seen::Known => Ok(Seen::Known),
        }
    }

    /// Closes the group's open container, with what closed it and when; `false` exactly where it has none. It takes no
    /// memory.
    pub fn close(&mut self, group: u32, trigger: TriggerType, moment: Moment) -> bool
        ensures answer { result ≡ is_some (open_of self.old.contents group) }
        ensures value { self.new.contents ≡ after_close self.old.contents group trigger moment }
        ensures none { open_of self.new.contents group ≡ None }
        ensures others { (other : ℕ) → other ≢ group → open_of self.new.contents other ≡ open_of self.old.contents other }
        ensures containers { self.new.contents.containers ≡ self.old.contents.containers }
        ensures horizons { self.new.contents.horizons ≡ self.old.contents.horizons }
        ensures room { self.new.room ≡ self.old.room }
        ensures same { result ≡ false → self.new ≡ self.old }
    {
        match self.open_container(group) {
            Some(container) => {
                self.shut(&container, trigger, moment);
                true
            }
            None => false,
        }
    }

    /// Sets the group's horizon, in place of the one before: its tariff is known not to switch strictly between `from` and
    /// `until`, or after `from` where there is no end (tariffTimeChange of TS 32.291). It needs the room of `make_room`
    /// and takes no memory. The group had a report or a horizon before, or fewer than 16 groups had one.
    pub fn horizon(&mut self, group: u32, from: Moment, until: Option<Moment>)
        requires room { 0 < self.old.room }
        requires place { HasPlaceFor self.old.contents group }
        ensures value { self.new.contents ≡ after_horizon self.old.contents (record { group = group; from = from; until = until }) }
        ensures own { horizon_of self.new.contents group ≡ Some (record { group = group; from = from; until = until }) }
        ensures others { (other : ℕ) → other ≢ group → horizon_of self.new.contents other ≡ horizon_of self.old.contents other }
        ensures room { self.new.room ≡ self.old.room }
    {
        set_horizon(&mut self.horizons, Horizon { group, from, until });
    }

    /// The container with this number, with what closed it and when; `None` exactly where there is no such container, or
    /// it is open (this product's own).
    pub fn is_closed(&self, lsn: u32) -> Option<Closed>
        ensures { result ≡ closed_of self.now.contents lsn }
    {
        let opened = self.containers.len();
        if lsn == 0 {
            return None;
        }
        let place = (lsn - 1) as usize;
        if place >= opened {
            return None;
        }
        let close = self.closes[place]?;
        Some(Closed {
            container: self.containers[place],
            trigger: close.trigger,
            moment: close.moment,
        })
    }

    /// The least unsafe hour after the last moment of the group's open container; `None` exactly where it has none, or
    /// that hour is past the range of moments (this product's own).
    pub fn first_unsafe(&self, group: u32) -> Option<Moment>
        ensures { IsFirstUnsafe self.now.contents group result }
    {
        let container = self.open_container(group)?;
        let horizon = horizon_of(&self.horizons, group);
        Moment::new(first_unsafe_hour(&horizon, container.last)?)
    }
}
