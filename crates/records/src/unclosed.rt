//! A record that is not closed.
ghost use Rattle.std.specs.Prelude.{◌≡◌, ◌≤◌, ◌<◌, ◌+◌, [], ◌-◌, ◌^◌, ℕ, min, List as Listed, length, OnOk, vec_len, vec_capacity, slice_set, option_map, IfSome};
ghost use Rattle.units.specs.declared.request.UnitUsage.{UnitUsage as Entry};
ghost use Rattle.records.specs.Usage.{with_group, with_entry, with_usage};
ghost use Rattle.records.specs.Closing.{opened, cause_at, has_container, closed_as, with_added, first_reached, is_reached};
ghost use Rattle.records.specs.Sums.{sums_of, total, octets, changes, one_each};
ghost use Rattle.records.specs.Groups.{usage_seen, place_of, room_of, HasPlaces, HaveAllPlaces, IsNot, AreApart, HasRoom};

use crate::group::Group;
use crate::limits::RecordLimits;
use crate::record::Kept;
use crate::sums::Sums;
use std::alloc::{AllocError, Global};
use std::marker::Model;
use units::{List, Moment, UnitUsage};

/// A record that is not closed: what it will be, with room for more containers, and its sums (this product's own).
#[derive(Drop)]
pub struct Unclosed {
    session: u32,
    groups: Vec<Group>,
    // None, with a place for each group.
    usage: Vec<UnitUsage>,
    opening: Moment,
    sequence: u32,
    sums: Sums,
}

impl Model for Unclosed {
    ghost use Rattle.std.specs.Prelude.{◌≡◌, ◌≤◌, ◌-◌, [], min, vec_len, vec_capacity};
    ghost use Rattle.records.specs.Groups.{UnclosedSeen, usage_seen};
    ghost use Rattle.records.specs.Sums.{sums_of, total, octets, changes, one_each};

    ghost Value = { UnclosedSeen };

    ghost view = { λ u. record { kept = record { session = u.session; usage = usage_seen u.groups.items; opening = u.opening; duration = 0; sequence = u.sequence; cause = 0; local = 0 }; groups = u.groups.items; spare = min (vec_capacity u.groups - vec_len u.groups) (vec_capacity u.usage - vec_len u.groups) } };

    ghost invariant = { λ u. (u.usage.items ≡ []) × (vec_len u.groups ≤ vec_capacity u.usage) × (u.sums ≡ sums_of (usage_seen u.groups.items)) };
}

// The place of the group with a number.
fn place(groups: &[Group], number: u32) -> Option<usize>
    ensures { result ≡ place_of groups.now number }
{
    for (at, group) in groups.iter().enumerate() {
        if group.number() == number {
            return Some(at);
        }
    }
    None
}

// Makes room for that many more containers of a group, where it is there.
fn make_places(groups: &mut Vec<Group>, number: u32, n: usize) -> Result<(), AllocError>
    ensures kept { usage_seen groups.new.items ≡ usage_seen groups.old.items }
    ensures capacity { vec_capacity groups.new ≡ vec_capacity groups.old }
    ensures len { vec_len groups.new ≡ vec_len groups.old }
    ensures grown { (e : Entry) → HasPlaces groups.old.items e → HasPlaces groups.new.items e }
    ensures places { OnOk result ((e : Entry) → e.group ≡ number → length e.used ≤ n → HasPlaces groups.new.items e) }
{
    match place(groups, number) {
        Some(at) => groups[at].make_room(n),
        None => Ok(()),
    }
}

// Makes room for the containers of all entries whose groups are there.
fn make_all_places(groups: &mut Vec<Group>, used: &[UnitUsage]) -> Result<(), AllocError>
    ensures kept { usage_seen groups.new.items ≡ usage_seen groups.old.items }
    ensures capacity { vec_capacity groups.new ≡ vec_capacity groups.old }
    ensures len { vec_len groups.new ≡ vec_len groups.old }
    ensures places { OnOk result (HaveAllPlaces groups.new.items used.now) }
    ensures none { groups.old.items ≡ [] → groups.new.items ≡ [] }
{
    for entry in used {
        make_places(groups, entry.group, entry.used.len())?;
    }
    Ok(())
}

// Puts the containers of an entry behind those of its group, or in a new group.
fn join(groups: &mut Vec<Group>, entry: UnitUsage)
    requires spare { vec_len groups.old < vec_capacity groups.old }
    requires places { HasPlaces groups.old.items entry }
    ensures usage { usage_seen groups.new.items ≡ with_group (usage_seen groups.old.items) entry.group entry.used }
    ensures capacity { vec_capacity groups.new ≡ vec_capacity groups.old }
    ensures len { vec_len groups.new ≤ vec_len groups.old + 1 }
    ensures others { (es : Listed Entry) → IsNot entry.group es → HaveAllPlaces groups.old.items es → HaveAllPlaces groups.new.items es }
{
    let UnitUsage {
        group,
        ask: _,
        used,
    } = entry;
    match place(groups, group) {
        Some(at) => groups[at].append(used),
        None => groups.push_reserved(Group::of(group, used)),
    }
}

// Puts the containers of entries behind those of their groups, or in new groups, in order.
fn join_all(groups: &mut Vec<Group>, sums: Sums, used: List<UnitUsage>) -> Sums
    requires apart { AreApart used }
    requires spare { vec_len groups.old + length used ≤ vec_capacity groups.old }
    requires places { HaveAllPlaces groups.old.items used }
    requires sums { sums ≡ sums_of (usage_seen groups.old.items) }
    ensures usage { usage_seen groups.new.items ≡ with_usage (usage_seen groups.old.items) used }
    ensures capacity { vec_capacity groups.new ≡ vec_capacity groups.old }
    ensures len { vec_len groups.new ≤ vec_len groups.old + length used }
    ensures sums { result ≡ sums_of (usage_seen groups.new.items) }
{
    let mut sums = sums;
    let mut left = used.into_vec();
    left.reverse();
    while let Some(entry) = left.pop() {
        if !entry.used.is_empty() {
            sums = sums.with(entry.used.as_slice());
            join(groups, entry);
        }
    }
    sums
}

// The entries of a record that these groups are, in a list that has a place for each.
fn entries(groups: Vec<Group>, list: Vec<UnitUsage>) -> List<UnitUsage>
    requires none { list.items ≡ [] }
    requires room { vec_len groups ≤ vec_capacity list }
    ensures { result ≡ usage_seen groups.items }
{
    let mut list = list;
    let mut left = groups;
    left.reverse();
    while let Some(group) = left.pop() {
        list.push_reserved(group.into_usage());
    }
    List::from_vec(list)
}

// Whether a limit is reached; one of 0 is off. The amount may be the greatest number of its type in place of a greater one.
fn is_reached(limit: u64, amount: u64) -> bool
    ensures exact { result ≡ is_reached limit amount }
    ensures capped { (n : ℕ) → amount ≡ min n (2 ^ 64 - 1) → result ≡ is_reached limit n }
{
    limit != 0 && limit <= amount
}

// The same of smaller numbers.
fn is_count_reached(limit: u32, amount: u32) -> bool
    ensures { (n : ℕ) → amount ≡ min n (2 ^ 32 - 1) → result ≡ is_reached limit n }
{
    limit != 0 && limit <= amount
}

// The first limit that a record with these sums reaches after some seconds, as its cause.
fn first_reached(limits: &RecordLimits, sums: Sums, seconds: u64) -> Option<u8>
    ensures { (usage : Listed Entry) → sums ≡ sums_of usage → result ≡ first_reached limits.now (total octets usage) seconds (total changes usage) (total one_each usage) }
{
    if is_reached(limits.volume, sums.octets) {
        Some(16)
    } else if is_reached(u64::from(limits.seconds), seconds) {
        Some(17)
    } else if is_count_reached(limits.changes, sums.changes) {
        Some(19)
    } else if is_count_reached(limits.containers, sums.containers) {
        Some(1)
    } else {
        None
    }
}

impl Unclosed {
    /// A record without containers and without room.
    pub(crate) fn empty(alloc: Global) -> Unclosed
        ensures none { result.groups ≡ [] }
    {
        Unclosed {
            session: 0,
            groups: Vec::new(alloc),
            usage: Vec::new(alloc),
            opening: Moment::first(),
            sequence: 1,
            sums: Sums::none(),
        }
    }

    /// Opens for a session at a stamp, with its number within it; it has the room that it had.
    pub(crate) fn open(&mut self, session: u32, stamp: Moment, sequence: u32)
        requires none { self.old.groups ≡ [] }
        ensures kept { self.new.kept ≡ opened session stamp sequence }
        ensures groups { self.new.groups ≡ [] }
        ensures spare { self.new.spare ≡ self.old.spare }
    {
        self.session = session;
        self.opening = stamp;
        self.sequence = sequence;
    }

    /// Makes room for entries, no two of one group. Nothing else changes, also where it fails.
    pub(crate) fn make_room(&mut self, used: &[UnitUsage]) -> Result<(), AllocError>
        requires apart { AreApart used.now }
        ensures room { OnOk result (HasRoom self.new used.now) }
        ensures kept { self.new.kept ≡ self.old.kept }
        ensures none { self.old.groups ≡ [] → self.new.groups ≡ [] }
    {
        self.groups.reserve(used.len())?;
        self.usage.reserve(self.groups.len() + used.len())?;
        make_all_places(&mut self.groups, used)
    }

    /// Takes containers, for which it has room.
    pub(crate) fn add(&mut self, used: List<UnitUsage>)
        requires room { HasRoom self.old used }
        ensures kept { self.new.kept ≡ with_added self.old.kept used }
    {
        self.sums = join_all(&mut self.groups, self.sums, used);
    }

    /// Whether it has a container.
    pub(crate) fn has_container(&self) -> bool
        ensures { result ≡ has_container self.now.kept }
    {
        self.sums.containers != 0
    }

    /// The cause for which it is closed at a stamp, if a limit is reached.
    pub(crate) fn cause(&self, limits: &RecordLimits, stamp: Moment) -> Option<u8>
        ensures { result ≡ cause_at limits.now self.now.kept stamp }
    {
        if !self.has_container() {
            return None;
        }
        let seconds = stamp.seconds().saturating_sub(self.opening.seconds());
        first_reached(limits, self.sums, seconds)
    }

    /// Its session.
    pub fn session(&self) -> u32
        ensures { result ≡ self.now.kept.session }
    {
        self.session
    }

    /// Its number within the session.
    pub fn sequence(&self) -> u32
        ensures { result ≡ self.now.kept.sequence }
    {
        self.sequence
    }

    /// Closes at a stamp, as the one of this number among all closed records. Takes no memory.
    pub(crate) fn close(self, cause: u8, stamp: Moment, local: u32) -> Kept
        ensures { result ≡ closed_as self.kept cause stamp local }
    {
        let Unclosed {
            session,
            groups,
            usage,
            opening,
            sequence,
            sums: _,
        } = self;
        let seconds = stamp.seconds().saturating_sub(opening.seconds());
        Kept {
            session,
            usage: entries(groups, usage),
            opening,
            duration: seconds as u32,
            sequence,
            cause,
            local,
        }
    }
}
