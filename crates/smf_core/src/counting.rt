//! Usage reports: what they close, what they join, and how they are counted.
ghost use Rattle.std.specs.Prelude.{◌≡◌, ◌==◌, ◌+◌, ◌<◌, ◌^◌, ◌↔◌, IfOk, IsOk, OnOk, IsTrue, map};
ghost use Rattle.std.specs.List.{list_any};
ghost use Rattle.smf_core.specs.Draft.{whole, joined_past, counted_past};
ghost use Rattle.smf_model.specs.Settle.{is_open_of};
ghost use Rattle.smf_model.specs.Traffic.{horizon_in, closes_before, close_of, extend_of, SumsFit, first_of as first_held, count_entry};

use crate::draft::Draft;
use crate::settle::{at_once, close_holding, entry_in, is_open_in, open_container};
use meter::{Horizon, first_of, is_large, joins, trigger_before, with_report};
use smf_model::{Entry, Holding, Place, Session};
use std::alloc::Global;
use std::mem;
use units::{Container, List, Moment, OutOfMemory, Report, TriggerType};

fn horizon_of(entry: Option<Entry>) -> Option<Horizon>
    ensures { result ≡ horizon_in entry }
{
    match entry {
        None => None,
        Some(entry) => entry.horizon,
    }
}

// What closes the group's open container before a report.
fn closing_trigger(
    horizon: &Option<Horizon>,
    report: &Report,
    container: Option<Container>,
) -> Option<TriggerType>
    ensures { result ≡ closes_before horizon.now report.now container }
{
    match container {
        None => None,
        Some(container) => {
            if joins(horizon, &container, report) {
                None
            } else {
                Some(trigger_before(horizon, &container, report))
            }
        }
    }
}

fn close_in(group: u32, moment: Moment, trigger: Option<TriggerType>, holding: &Holding) -> Holding
    ensures { result ≡ close_of group moment trigger holding.now }
{
    if is_open_in(group, holding) {
        close_holding(moment, trigger, holding)
    } else {
        *holding
    }
}

fn close_each(group: u32, moment: Moment, trigger: Option<TriggerType>, holdings: &mut [Holding])
    ensures { holdings.new ≡ map (close_of group moment trigger) holdings.old }
{
    for holding in holdings.iter_mut() {
        *holding = close_in(group, moment, trigger, holding);
    }
}

fn closed_in(
    group: u32,
    moment: Moment,
    trigger: Option<TriggerType>,
    holdings: List<Holding>,
) -> List<Holding>
    ensures { result ≡ map (close_of group moment trigger) holdings }
{
    let mut next = holdings.into_vec();
    close_each(group, moment, trigger, next.as_mut_slice());
    List::from_vec(next)
}

// Whether the sums of a container and a report fit their types; in no session do they not.
fn fits(container: &Container, report: &Report) -> bool
    ensures { IsTrue result ↔ SumsFit container.now report.now }
{
    report.up <= u64::MAX - container.up
        && report.down <= u64::MAX - container.down
        && report.seconds <= u32::MAX - container.seconds
        && container.reports < u32::MAX
}

fn extend_in(report: &Report, holding: &Holding) -> Result<Holding, OutOfMemory>
    ensures value { IfOk result (λ h. h ≡ extend_of report.now holding.now) }
    ensures given { SumsFit holding.now.container report.now → IsOk result }
{
    if !is_open_in(report.group, holding) {
        return Ok(*holding);
    }
    if !fits(&holding.container, report) {
        return Err(OutOfMemory);
    }
    Ok(Holding {
        container: with_report(&holding.container, report),
        ..*holding
    })
}

fn extend_each(report: &Report, holdings: &mut [Holding]) -> Result<(), OutOfMemory>
    ensures { OnOk result (holdings.new ≡ map (extend_of report.now) holdings.old) }
{
    for holding in holdings.iter_mut() {
        *holding = extend_in(report, holding)?;
    }
    Ok(())
}

fn all_extended(report: &Report, holdings: List<Holding>) -> Result<List<Holding>, OutOfMemory>
    ensures { IfOk result (λ r. r ≡ map (extend_of report.now) holdings) }
{
    let mut next = holdings.into_vec();
    extend_each(report, next.as_mut_slice())?;
    Ok(List::from_vec(next))
}

fn first_holding(lsn: u32, report: &Report) -> Holding
    ensures { result ≡ first_held lsn report.now }
{
    Holding {
        container: first_of(lsn, report),
        trigger: None,
        moment: report.moment,
        place: Place::Open,
    }
}

fn any_open(group: u32, holdings: &[Holding]) -> bool
    ensures { result ≡ list_any (is_open_of group) holdings.now }
{
    holdings.iter().any(|h| is_open_in(group, h))
}

fn with_joined(
    past: usize,
    report: &Report,
    holdings: List<Holding>,
) -> Result<List<Holding>, OutOfMemory>
    ensures { IfOk result (λ r. r ≡ joined_past past report.now holdings) }
{
    if any_open(report.group, holdings.as_slice()) {
        return all_extended(report, holdings);
    }
    if past >= 1 << 31 || holdings.len() >= 1 << 31 {
        return Err(OutOfMemory);
    }
    let lsn = (past + holdings.len()) as u32 + 1;
    let mut next = holdings;
    next.push(first_holding(lsn, report))?;
    Ok(next)
}

// What a report makes of the containers, once this closed the group's open one.
fn taken_after(
    past: usize,
    trigger: Option<TriggerType>,
    report: &Report,
    holdings: List<Holding>,
) -> Result<List<Holding>, OutOfMemory>
    ensures { IfOk result (λ r. r ≡ joined_past past report.now (map (close_of report.now.group report.now.moment trigger) holdings)) }
{
    match trigger {
        None => with_joined(past, report, holdings),
        Some(_) => {
            let closed = closed_in(report.group, report.moment, trigger, holdings);
            with_joined(past, report, closed)
        }
    }
}

fn counted_entry(report: &Report, entry: &Entry) -> Entry
    requires number { report.now.number + 1 < 2 ^ 32 }
    requires sum { report.now.up + report.now.down < 2 ^ 64 }
    ensures { result ≡ count_entry report.now entry.now }
{
    let mut next = *entry;
    if next.number == report.group {
        next.expected = report.number + 1;
        next.quota
            .used(report.up + report.down, report.seconds, report.moment);
    }
    next
}

fn count_each(report: &Report, groups: &mut [Entry])
    requires number { report.now.number + 1 < 2 ^ 32 }
    requires sum { report.now.up + report.now.down < 2 ^ 64 }
    ensures { groups.new ≡ map (count_entry report.now) groups.old }
{
    for entry in groups.iter_mut() {
        *entry = counted_entry(report, entry);
    }
}

fn counted_entries(report: &Report, groups: List<Entry>) -> List<Entry>
    requires number { report.now.number + 1 < 2 ^ 32 }
    requires sum { report.now.up + report.now.down < 2 ^ 64 }
    ensures { result ≡ map (count_entry report.now) groups }
{
    let mut next = groups.into_vec();
    count_each(report, next.as_mut_slice());
    List::from_vec(next)
}

/// Counts a report (TS 32.255, 5.2.1).
pub fn count(
    alloc: Global,
    past: usize,
    report: &Report,
    before: &Session,
    draft: &mut Draft,
) -> Result<(), OutOfMemory>
    ensures { OnOk result (whole before.now draft.new ≡ counted_past past report.now (whole before.now draft.old)) }
{
    // no report that is accepted comes so far
    if report.number == u32::MAX || is_large(report) || draft.course.reports == u32::MAX {
        return Err(OutOfMemory);
    }
    let holdings = draft.holdings.as_slice();
    let horizon = horizon_of(entry_in(draft.groups.as_slice(), report.group));
    let trigger = closing_trigger(&horizon, report, open_container(holdings, report.group));
    let came = at_once(before, draft, report.group, trigger);
    let holdings = mem::replace(&mut draft.holdings, List::new(alloc));
    draft.holdings = taken_after(past, trigger, report, holdings)?;
    let groups = mem::replace(&mut draft.groups, List::new(alloc));
    draft.groups = counted_entries(report, groups);
    draft.course.last = report.moment;
    draft.course.reports += 1;
    draft.course.at_once = draft.course.at_once || came;
    Ok(())
}
