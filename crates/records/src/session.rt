//! A session of a book.
ghost use Rattle.std.specs.Prelude.{◌≡◌, ℕ, OnOk, ◌≤◌, ◌<◌, ◌+◌, ◌-◌, ◌^◌, length, option_map, Some, IfSome, vec_len, vec_capacity};
ghost use Rattle.records.specs.Closing.{opened, cause_at};
ghost use Rattle.records.specs.Book.{closable_in, and_closed, cause_of, sweeping, added, ended, swept, settled, with_open};
ghost use Rattle.records.specs.Groups.{HasRoom, AreApart};
ghost use Rattle.records.specs.Seen.{session_seen, SequenceIsWithin, HasRoomIn};

use crate::limits::RecordLimits;
use crate::record::Kept;
use crate::unclosed::Unclosed;
use std::alloc::{AllocError, Global};
use units::{List, Moment, Text, UnitUsage};

/// A session of a book: the names that its records have, and its record that is not closed, until it ends (this product's
/// own).
#[derive(Drop)]
pub struct SessionKept {
    pub number: u32,
    pub subscriber: Text,
    pub consumer: Text,
    pub charging_id: u32,
    pub unclosed: Option<Unclosed>,
}

// A record is closed, and put behind the others.
fn put(closed: &mut Vec<Kept>, record: Unclosed, cause: u8, stamp: Moment)
    requires spare { vec_len closed.old < vec_capacity closed.old }
    requires few { vec_len closed.old < 2 ^ 32 - 2 }
    ensures closed { closed.new.items ≡ and_closed closed.old.items record.kept cause stamp }
    ensures capacity { vec_capacity closed.new ≡ vec_capacity closed.old }
    ensures len { vec_len closed.new ≡ vec_len closed.old + 1 }
{
    let local = closed.len() as u32 + 1;
    closed.push_reserved(record.close(cause, stamp, local));
}

// The record that opens next.
fn next(alloc: Global, session: u32, sequence: u32, stamp: Moment) -> Unclosed
    requires few { sequence < 2 ^ 32 - 1 }
    ensures { result.kept ≡ opened session stamp (sequence + 1) }
{
    let mut record = Unclosed::empty(alloc);
    record.open(session, stamp, sequence + 1);
    record
}

// A record is closed and the next one opens, where there is a cause.
fn settle(
    alloc: Global,
    closed: &mut Vec<Kept>,
    record: Unclosed,
    cause: Option<u8>,
    stamp: Moment,
) -> Unclosed
    requires spare { vec_len closed.old < vec_capacity closed.old }
    requires few { vec_len closed.old < 2 ^ 32 - 2 }
    requires sequence { record.kept.sequence ≤ vec_len closed.old + 1 }
    ensures settled { settled record.kept cause stamp closed.old.items ≡ (Some result.kept, closed.new.items) }
    ensures capacity { vec_capacity closed.new ≡ vec_capacity closed.old }
    ensures len { vec_len closed.new ≤ vec_len closed.old + 1 }
    ensures kept { vec_len closed.old ≤ vec_len closed.new }
    ensures sequence { result.kept.sequence ≤ vec_len closed.new + 1 }
{
    match cause {
        None => record,
        Some(cause) => {
            let after = next(alloc, record.session(), record.sequence(), stamp);
            put(closed, record, cause, stamp);
            after
        }
    }
}

impl SessionKept {
    /// How many records of it can be closed for management intervention: 1 where that which is not closed has a container.
    pub fn closable(&self) -> usize
        ensures count { result ≡ closable_in (session_seen self.now).unclosed }
        ensures bound { result ≤ 1 }
    {
        match &self.unclosed {
            Some(record) if record.has_container() => 1,
            _ => 0,
        }
    }

    /// Makes room for entries in its record, no two of one group. Nothing else changes, also where it fails.
    pub fn make_room(&mut self, used: &[UnitUsage]) -> Result<(), AllocError>
        requires apart { AreApart used.now }
        ensures room { OnOk result (IfSome self.new.unclosed (λ u. HasRoom u used.now)) }
        ensures kept { session_seen self.new ≡ session_seen self.old }
        ensures sequence { (n : ℕ) → SequenceIsWithin n self.old → SequenceIsWithin n self.new }
    {
        match self.unclosed.as_mut() {
            Some(record) => record.make_room(used),
            None => Ok(()),
        }
    }

    // Containers come to it, for which it has room.
    fn fill(
        &mut self,
        alloc: Global,
        limits: &RecordLimits,
        closed: &mut Vec<Kept>,
        used: List<UnitUsage>,
        stamp: Moment,
        last: bool,
    )
        requires room { IfSome self.old.unclosed (λ u. HasRoom u used) }
        requires spare { vec_len closed.old < vec_capacity closed.old }
        requires few { vec_len closed.old < 2 ^ 32 - 2 }
        requires sequence { SequenceIsWithin (vec_len closed.old) self.old }
        ensures added { added limits.now used stamp last (session_seen self.old).unclosed closed.old.items ≡ ((session_seen self.new).unclosed, closed.new.items) }
        ensures session { session_seen self.new ≡ with_open (session_seen self.new).unclosed (session_seen self.old) }
        ensures capacity { vec_capacity closed.new ≡ vec_capacity closed.old }
        ensures len { vec_len closed.new ≤ vec_len closed.old + 1 }
        ensures kept { vec_len closed.old ≤ vec_len closed.new }
        ensures sequence { SequenceIsWithin (vec_len closed.new) self.new }
    {
        if let Some(record) = self.unclosed.take() {
            let mut record = record;
            record.add(used);
            let cause = if last {
                None
            } else {
                record.cause(limits, stamp)
            };
            self.unclosed = Some(settle(alloc, closed, record, cause, stamp));
        }
    }

    // It ends, and its record is closed.
    fn finish(&mut self, closed: &mut Vec<Kept>, cause: u8, stamp: Moment)
        requires spare { vec_len closed.old < vec_capacity closed.old }
        requires few { vec_len closed.old < 2 ^ 32 - 2 }
        ensures ended { ended cause stamp (session_seen self.old).unclosed closed.old.items ≡ ((session_seen self.new).unclosed, closed.new.items) }
        ensures session { session_seen self.new ≡ with_open (session_seen self.new).unclosed (session_seen self.old) }
        ensures capacity { vec_capacity closed.new ≡ vec_capacity closed.old }
        ensures len { vec_len closed.new ≤ vec_len closed.old + 1 }
        ensures kept { vec_len closed.old ≤ vec_len closed.new }
        ensures sequence { SequenceIsWithin (vec_len closed.new) self.new }
    {
        if let Some(record) = self.unclosed.take() {
            put(closed, record, cause, stamp);
        }
    }

    // Its record has a container and is closed for management intervention, and the next one opens.
    fn renew(&mut self, alloc: Global, closed: &mut Vec<Kept>, stamp: Moment)
        requires container { closable_in (session_seen self.old).unclosed ≡ 1 }
        requires spare { vec_len closed.old < vec_capacity closed.old }
        requires few { vec_len closed.old < 2 ^ 32 - 2 }
        requires sequence { SequenceIsWithin (vec_len closed.old) self.old }
        ensures swept { swept stamp (session_seen self.old).unclosed closed.old.items ≡ ((session_seen self.new).unclosed, closed.new.items) }
        ensures session { session_seen self.new ≡ with_open (session_seen self.new).unclosed (session_seen self.old) }
        ensures capacity { vec_capacity closed.new ≡ vec_capacity closed.old }
        ensures kept { vec_len closed.old ≤ vec_len closed.new }
        ensures sequence { SequenceIsWithin (vec_len closed.new) self.new }
    {
        if let Some(record) = self.unclosed.take() {
            self.unclosed = Some(settle(alloc, closed, record, Some(20), stamp));
        }
    }

    /// Containers come to it, for which it has room; the count of closable records is that after it, where it was that before.
    pub fn add(
        &mut self,
        alloc: Global,
        limits: &RecordLimits,
        closed: &mut Vec<Kept>,
        count: &mut usize,
        used: List<UnitUsage>,
        stamp: Moment,
        last: bool,
    )
        requires room { IfSome self.old.unclosed (λ u. HasRoom u used) }
        requires spare { vec_len closed.old < vec_capacity closed.old }
        requires few { vec_len closed.old < 2 ^ 32 - 2 }
        requires sequence { SequenceIsWithin (vec_len closed.old) self.old }
        requires counted { closable_in (session_seen self.old).unclosed ≤ count.old }
        requires bound { count.old < 2 ^ 63 }
        ensures added { added limits.now used stamp last (session_seen self.old).unclosed closed.old.items ≡ ((session_seen self.new).unclosed, closed.new.items) }
        ensures session { session_seen self.new ≡ with_open (session_seen self.new).unclosed (session_seen self.old) }
        ensures capacity { vec_capacity closed.new ≡ vec_capacity closed.old }
        ensures len { vec_len closed.new ≤ vec_len closed.old + 1 }
        ensures kept { vec_len closed.old ≤ vec_len closed.new }
        ensures sequence { SequenceIsWithin (vec_len closed.new) self.new }
        ensures counted { count.new + closable_in (session_seen self.old).unclosed ≡ count.old + closable_in (session_seen self.new).unclosed }
    {
        let before = self.closable();
        self.fill(alloc, limits, closed, used, stamp, last);
        *count = *count - before + self.closable();
    }

    /// It ends, and its record is closed; the count of closable records is that after it, where it was that before.
    pub fn end(&mut self, closed: &mut Vec<Kept>, count: &mut usize, cause: u8, stamp: Moment)
        requires spare { vec_len closed.old < vec_capacity closed.old }
        requires few { vec_len closed.old < 2 ^ 32 - 2 }
        requires counted { closable_in (session_seen self.old).unclosed ≤ count.old }
        requires bound { count.old < 2 ^ 63 }
        ensures ended { ended cause stamp (session_seen self.old).unclosed closed.old.items ≡ ((session_seen self.new).unclosed, closed.new.items) }
        ensures session { session_seen self.new ≡ with_open (session_seen self.new).unclosed (session_seen self.old) }
        ensures capacity { vec_capacity closed.new ≡ vec_capacity closed.old }
        ensures len { vec_len closed.new ≤ vec_len closed.old + 1 }
        ensures kept { vec_len closed.old ≤ vec_len closed.new }
        ensures sequence { SequenceIsWithin (vec_len closed.new) self.new }
        ensures counted { count.new + closable_in (session_seen self.old).unclosed ≡ count.old + closable_in (session_seen self.new).unclosed }
    {
        let before = self.closable();
        self.finish(closed, cause, stamp);
        *count = *count - before + self.closable();
    }

    /// Its record is closed where it has a container, and the next one opens.
    pub fn sweep(&mut self, alloc: Global, closed: &mut Vec<Kept>, stamp: Moment)
        requires spare { vec_len closed.old + closable_in (session_seen self.old).unclosed ≤ vec_capacity closed.old }
        requires few { vec_len closed.old + closable_in (session_seen self.old).unclosed < 2 ^ 32 - 1 }
        requires sequence { SequenceIsWithin (vec_len closed.old) self.old }
        ensures swept { swept stamp (session_seen self.old).unclosed closed.old.items ≡ ((session_seen self.new).unclosed, closed.new.items) }
        ensures session { session_seen self.new ≡ with_open (session_seen self.new).unclosed (session_seen self.old) }
        ensures capacity { vec_capacity closed.new ≡ vec_capacity closed.old }
        ensures kept { vec_len closed.old ≤ vec_len closed.new }
        ensures sequence { SequenceIsWithin (vec_len closed.new) self.new }
    {
        if self.closable() == 1 {
            self.renew(alloc, closed, stamp);
        }
    }
}
