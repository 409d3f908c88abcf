//! Rating groups that wish for quota.
ghost use Rattle.std.specs.Prelude.{◌≡◌, ◌<◌, nat_lt, IfOk, OnOk, filter};
ghost use Rattle.smf_core.specs.Draft.{whole};
ghost use Rattle.smf_model.specs.Traffic.{new_entry, or_new, asked_entry, with_asked, started};

use crate::draft::Draft;
use crate::settle::entry_in;
use quotas::Group;
use smf_model::{Entry, Session};
use std::alloc::Global;
use units::{List, Moment, OutOfMemory};

fn new_group(group: u32) -> Entry
    ensures { result ≡ new_entry group }
{
    Entry {
        number: group,
        expected: 1,
        quota: Group::new(),
        horizon: None,
    }
}

fn found_or_new(group: u32, entry: Option<Entry>) -> Entry
    ensures { result ≡ or_new group entry }
{
    match entry {
        None => new_group(group),
        Some(entry) => entry,
    }
}

fn asking(entry: Entry) -> Entry
    ensures { result ≡ asked_entry entry }
{
    let mut next = entry;
    next.quota.ask();
    next
}

fn below(alloc: Global, group: u32, entries: &[Entry]) -> Result<Vec<Entry>, OutOfMemory>
    ensures { IfOk result (λ v. v.items ≡ filter (λ e. nat_lt e.number group) entries.now) }
{
    let found = entries
        .iter()
        .filter(|e| e.number < group)
        .copied()
        .collect(alloc)?;
    Ok(found)
}

fn above(alloc: Global, group: u32, entries: &[Entry]) -> Result<Vec<Entry>, OutOfMemory>
    ensures { IfOk result (λ v. v.items ≡ filter (λ e. nat_lt group e.number) entries.now) }
{
    let found = entries
        .iter()
        .filter(|e| group < e.number)
        .copied()
        .collect(alloc)?;
    Ok(found)
}

/// The groups with one that wishes for quota, at its place.
pub fn ask_group(alloc: Global, group: u32, entries: &[Entry]) -> Result<Vec<Entry>, OutOfMemory>
    ensures { IfOk result (λ v. v.items ≡ with_asked group entries.now) }
{
    let mut next = below(alloc, group, entries)?;
    let rest = above(alloc, group, entries)?;
    next.push(asking(found_or_new(group, entry_in(entries, group))))?;
    next.extend_from_slice(&rest)?;
    Ok(next)
}

/// Traffic of a group begins (TS 32.255, 5.2.1).
pub fn start(
    alloc: Global,
    group: u32,
    moment: Moment,
    before: &Session,
    draft: &mut Draft,
) -> Result<(), OutOfMemory>
    ensures { OnOk result (whole before.now draft.new ≡ started group moment (whole before.now draft.old)) }
{
    let groups = ask_group(alloc, group, draft.groups.as_slice())?;
    draft.course.last = moment;
    draft.groups = List::from_vec(groups);
    Ok(())
}
