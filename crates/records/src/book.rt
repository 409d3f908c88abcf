//! A book of records.
ghost use Rattle.std.specs.Prelude.{◌≡◌, ◌≤◌, ◌<◌, ◌+◌, ◌-◌, ◌^◌, ℕ, List as Listed, [], ◌∷◌, length, option_map, IfSome, IfOk, OnOk, OnErr, IsOk, IsSome, MatchOption, MatchResult, None, Some, vec_len, vec_capacity, slice_index, slice_set};
ghost use Rattle.std.specs.Option.{option_copied};
ghost use Rattle.std.specs.List.{insert};
ghost use Rattle.units.specs.declared.request.UnitUsage.{UnitUsage as Entry};
ghost use Rattle.records.specs.declared.filing.Filing.TheVariants.{Begun, Added, Ended, ClosedAll};
ghost use Rattle.records.specs.Closing.{opened, no_limits};
ghost use Rattle.records.specs.Book.{no_records, session_of, open_of, closable, after, all_swept, with_one, with_open, added, ended, entered, reopened};
ghost use Rattle.records.specs.Groups.{HasRoom, AreApart};
ghost use Rattle.records.specs.Named.{named_as};
ghost use Rattle.records.specs.Seen.{session_seen, sessions_seen, numbers_of, AreRising, SequenceIsWithin, SequencesAreWithin, kept_of, records_seen, HasRoomIn, HasRoomFor, IsThere, IsMissing, IsGap};

use crate::by_number::{add_to, end_of, enter, found, make_room_of};
use crate::limits::RecordLimits;
use crate::record::{Kept, Record};
use crate::session::SessionKept;
use crate::touched::{note, sweep_all};
use crate::unclosed::Unclosed;
use std::alloc::{AllocError, Global};
use std::marker::Model;
use std::mem;
use units::{List, Moment, OutOfMemory, Text, UnitUsage, copy};

/// The records of all sessions, closed and not closed (TS 32.255, 5.2.3; that they stand in memory is this product's own).
#[derive(Drop)]
pub struct Book {
    alloc: Global,
    limits: RecordLimits,
    // In order.
    numbers: Vec<u32>,
    sessions: Vec<SessionKept>,
    closed: Vec<Kept>,
    // How many sessions have a record with a container that is not closed.
    with_container: usize,
    // Numbers of sessions whose record got its first container since all were closed; some may have none any more.
    touched: Vec<u32>,
    // A record with the room of the session that begins next.
    next: Unclosed,
}

impl Model for Book {
    ghost use Rattle.std.specs.Prelude.{◌≡◌, ◌-◌, [], length, min, Contains, vec_len, vec_capacity};
    ghost use Rattle.records.specs.Book.{closable};
    ghost use Rattle.records.specs.Seen.{BookSeen, sessions_seen, numbers_of, AreRising, SequencesAreWithin, EachClosable};

    ghost Value = { BookSeen };

    ghost view = { λ b. record { limits = b.limits; records = record { sessions = sessions_seen b.sessions.items; closed = b.closed.items }; kept = b.sessions.items; next = b.next; places = min (vec_capacity b.numbers - vec_len b.numbers) (vec_capacity b.sessions - vec_len b.sessions); spare = min (vec_capacity b.closed - vec_len b.closed) (vec_capacity b.touched - vec_len b.touched) } };

    ghost invariant = { λ b. (b.numbers.items ≡ numbers_of b.sessions.items) × AreRising b.numbers.items × SequencesAreWithin (vec_len b.closed) b.sessions.items × (b.next.groups ≡ []) × (b.with_container ≡ closable (sessions_seen b.sessions.items)) × EachClosable (Contains b.touched.items) (sessions_seen b.sessions.items) };
}

// A record with the names of its session.
fn name(limits: &RecordLimits, session: &SessionKept, kept: &Kept) -> Result<Record, OutOfMemory>
    ensures { IfOk result (λ r. r ≡ named_as limits.now (session_seen session.now) kept.now) }
{
    Ok(Record {
        function: copy(&limits.function)?,
        subscriber: copy(&session.subscriber)?,
        consumer: copy(&session.consumer)?,
        charging_id: session.charging_id,
        usage: copy(&kept.usage)?,
        opening: kept.opening,
        duration: kept.duration,
        sequence: kept.sequence,
        cause: kept.cause,
        local: kept.local,
    })
}

impl Book {
    /// No session and no record, and no limits. Takes no memory.
    pub fn empty(alloc: Global) -> Book
        ensures records { result.records ≡ no_records }
        ensures limits { result.limits ≡ no_limits }
    {
        Book {
            alloc,
            limits: RecordLimits::none(alloc),
            numbers: Vec::new(alloc),
            sessions: Vec::new(alloc),
            closed: Vec::new(alloc),
            with_container: 0,
            touched: Vec::new(alloc),
            next: Unclosed::empty(alloc),
        }
    }

    /// No session and no record.
    pub fn new(alloc: Global, limits: &RecordLimits) -> Result<Book, OutOfMemory>
        ensures records { IfOk result (λ b. b.records ≡ no_records) }
        ensures limits { IfOk result (λ b. b.limits ≡ limits.now) }
    {
        let mut book = Book::empty(alloc);
        book.limit(copy(limits)?);
        Ok(book)
    }

    /// Other limits from now on.
    pub fn limit(&mut self, limits: RecordLimits)
        ensures records { self.new.records ≡ self.old.records }
        ensures limits { self.new.limits ≡ limits }
    {
        self.limits = limits;
    }

    /// Makes room for the entries of a session, no two of one group: then one `begin` of that session, one `add` of these
    /// entries to it, and one `close` of it or one `close_all`, have their places. Nothing else changes, also where it fails.
    pub fn make_room(&mut self, session: u32, used: &[UnitUsage]) -> Result<(), OutOfMemory>
        requires apart { AreApart used.now }
        ensures places { OnOk result (0 < self.new.places) }
        ensures spare { OnOk result (length self.new.records.sessions + 2 ≤ self.new.spare) }
        ensures room { OnOk result (HasRoomFor self.new session used.now) }
        ensures records { self.new.records ≡ self.old.records }
        ensures limits { self.new.limits ≡ self.old.limits }
    {
        self.numbers.reserve(1)?;
        self.sessions.reserve(1)?;
        self.closed.reserve(self.sessions.len() + 2)?;
        self.touched.reserve(self.sessions.len() + 2)?;
        self.next.make_room(used)?;
        make_room_of(&self.numbers, &mut self.sessions, session, used)?;
        Ok(())
    }

    /// A session begins, with the names of its records; its first record opens. Takes a place.
    pub fn begin(
        &mut self,
        session: u32,
        subscriber: Text,
        consumer: Text,
        charging_id: u32,
        stamp: Moment,
    )
        requires places { 0 < self.old.places }
        requires fresh { session_of self.old.records.sessions session ≡ None }
        ensures records { self.new.records ≡ after self.old.limits (Begun session subscriber consumer charging_id stamp) self.old.records }
        ensures room { (used : Listed Entry) → HasRoomFor self.old session used → HasRoomFor self.new session used }
        ensures spare { self.new.spare ≡ self.old.spare }
        ensures limits { self.new.limits ≡ self.old.limits }
    {
        let mut record = mem::replace(&mut self.next, Unclosed::empty(self.alloc));
        record.open(session, stamp, 1);
        let new = SessionKept {
            number: session,
            subscriber,
            consumer,
            charging_id,
            unclosed: Some(record),
        };
        enter(&mut self.numbers, &mut self.sessions, new);
    }

    /// Containers come to a session that has begun and not ended. Where they are not the last and a limit is reached, its
    /// record is closed, and the next one opens at that stamp.
    pub fn add(&mut self, session: u32, used: List<UnitUsage>, stamp: Moment, last: bool)
        requires room { HasRoomFor self.old session used }
        requires spare { 0 < self.old.spare }
        requires few { length self.old.records.closed < 2 ^ 32 - 2 }
        ensures records { self.new.records ≡ after self.old.limits (Added session used stamp last) self.old.records }
        ensures spare { self.old.spare ≤ self.new.spare + 1 }
        ensures limits { self.new.limits ≡ self.old.limits }
    {
        let before = self.with_container;
        add_to(
            self.alloc,
            &self.limits,
            &self.numbers,
            &mut self.sessions,
            &mut self.closed,
            &mut self.with_container,
            session,
            used,
            stamp,
            last,
        );
        note(&mut self.touched, session, before, self.with_container);
    }

    /// A session that has begun ends, and its record is closed, also where it has no container.
    pub fn close(&mut self, session: u32, cause: u8, stamp: Moment)
        requires spare { 0 < self.old.spare }
        requires few { length self.old.records.closed < 2 ^ 32 - 2 }
        ensures records { self.new.records ≡ after self.old.limits (Ended session cause stamp) self.old.records }
        ensures spare { self.old.spare ≤ self.new.spare + 1 }
        ensures limits { self.new.limits ≡ self.old.limits }
    {
        end_of(
            &self.numbers,
            &mut self.sessions,
            &mut self.closed,
            &mut self.with_container,
            session,
            cause,
            stamp,
        );
    }

    /// Closes every record that has a container, in order of session, and answers how many those were; the next ones open at
    /// that stamp.
    pub fn close_all(&mut self, stamp: Moment) -> u32
        requires spare { length self.old.records.sessions ≤ self.old.spare }
        requires few { length self.old.records.closed + length self.old.records.sessions < 2 ^ 32 - 1 }
        ensures records { self.new.records ≡ after self.old.limits (ClosedAll stamp) self.old.records }
        ensures count { result ≡ closable self.old.records.sessions }
        ensures none { closable self.new.records.sessions ≡ 0 }
        ensures limits { self.new.limits ≡ self.old.limits }
    {
        let count = self.with_container;
        sweep_all(
            self.alloc,
            &self.numbers,
            &mut self.sessions,
            &mut self.closed,
            &mut self.touched,
            stamp,
        );
        self.with_container = 0;
        count as u32
    }

    /// How many sessions have begun.
    pub fn begun(&self) -> usize
        ensures { result ≡ length self.now.records.sessions }
    {
        self.sessions.len()
    }

    /// How many sessions have a record with a container that is not closed: so many records `close_all` closes.
    pub fn closable(&self) -> usize
        ensures count { result ≡ closable self.now.records.sessions }
        ensures bound { result ≤ length self.now.records.sessions }
    {
        self.with_container
    }

    /// The closed records, in order of closing.
    pub fn closed(&self) -> &[Kept]
        ensures { result.now ≡ self.now.records.closed }
    {
        self.closed.as_slice()
    }

    /// The record of a session that is not closed; none exactly where the session has not begun or has ended.
    pub fn unclosed(&self, session: u32) -> Option<&Unclosed>
        ensures { option_map (λ u. u.now.kept) result ≡ open_of self.now.records.sessions session }
    {
        match found(&self.numbers, &self.sessions, session) {
            Some(session) => session.unclosed.as_ref(),
            None => None,
        }
    }

    /// A record of a session that has begun, with the names that the session gave and the function that writes it.
    pub fn named(&self, kept: &Kept) -> Result<Record, OutOfMemory>
        requires begun { IsSome (session_of self.now.records.sessions kept.now.session) }
        ensures { IfOk result (λ r. IfSome (session_of self.now.records.sessions kept.now.session) (λ z. r ≡ named_as self.now.limits z kept.now)) }
    {
        match found(&self.numbers, &self.sessions, kept.session) {
            Some(session) => name(&self.limits, session, kept),
            None => unreachable!(),
        }
    }
}
