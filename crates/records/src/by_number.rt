//! The sessions of a book, found by their numbers.
ghost use Rattle.std.specs.Prelude.{◌≡◌, ◌≤◌, ◌<◌, ◌+◌, ◌-◌, ◌^◌, ℕ, length, IfSome, OnOk, MatchOption, MatchResult, None, Some, vec_len, vec_capacity};
ghost use Rattle.std.specs.Option.{option_copied};
ghost use Rattle.records.specs.Book.{open_of, with_one, added, ended, entered, closable};
ghost use Rattle.records.specs.Groups.{HasRoom, AreApart};
ghost use Rattle.records.specs.Seen.{session_seen, sessions_seen, numbers_of, AreRising, SequenceIsWithin, SequencesAreWithin, kept_of, records_seen, IsThere, IsMissing, IsGap};

use crate::limits::RecordLimits;
use crate::record::Kept;
use crate::session::SessionKept;
use std::alloc::{AllocError, Global};
use units::{List, Moment, UnitUsage};

// Where a number is in rising ones, or where it would go.
fn search(numbers: &[u32], number: u32) -> Result<usize, usize>
    requires { AreRising numbers.now }
    ensures { MatchResult result (IsThere numbers.now number) (IsGap numbers.now number) }
{
    numbers.binary_search(&number)
}

// The place of a number before which there are no gaps, as among references of sessions there are none; else none.
fn guessed(numbers: &[u32], number: u32) -> Option<usize>
    ensures { IfSome result (IsThere numbers.now number) }
{
    let first = *numbers.first()?;
    let at = number.checked_sub(first)? as usize;
    if at < numbers.len() && numbers[at] == number {
        Some(at)
    } else {
        None
    }
}

// The place of a number in rising ones, by halves; none exactly where it is not among them.
fn place_by_halves(numbers: &[u32], number: u32) -> Option<usize>
    requires { AreRising numbers.now }
    ensures { MatchOption result (IsMissing numbers.now number) (IsThere numbers.now number) }
{
    match search(numbers, number) {
        Ok(at) => Some(at),
        Err(_) => None,
    }
}

/// The place of a number in rising ones; none exactly where it is not among them.
pub fn place(numbers: &[u32], number: u32) -> Option<usize>
    requires { AreRising numbers.now }
    ensures { MatchOption result (IsMissing numbers.now number) (IsThere numbers.now number) }
{
    match guessed(numbers, number) {
        Some(at) => Some(at),
        None => place_by_halves(numbers, number),
    }
}

/// The session of a number.
pub fn found<'a>(
    numbers: &[u32],
    sessions: &'a [SessionKept],
    number: u32,
) -> Option<&'a SessionKept>
    requires same { numbers.now ≡ numbers_of sessions.now }
    requires rising { AreRising numbers.now }
    ensures { option_copied result ≡ kept_of sessions.now number }
{
    match place(numbers, number) {
        Some(at) => Some(&sessions[at]),
        None => None,
    }
}

/// Containers come to the session of a number, and the closable records are counted.
pub fn add_to(
    alloc: Global,
    limits: &RecordLimits,
    numbers: &[u32],
    sessions: &mut [SessionKept],
    closed: &mut Vec<Kept>,
    count: &mut usize,
    number: u32,
    used: List<UnitUsage>,
    stamp: Moment,
    last: bool,
)
    requires same { numbers.now ≡ numbers_of sessions.old }
    requires rising { AreRising numbers.now }
    requires room { IfSome (kept_of sessions.old number) (λ z. IfSome z.unclosed (λ u. HasRoom u used)) }
    requires spare { vec_len closed.old < vec_capacity closed.old }
    requires few { vec_len closed.old < 2 ^ 32 - 2 }
    requires sequences { SequencesAreWithin (vec_len closed.old) sessions.old }
    requires count { count.old ≡ closable (sessions_seen sessions.old) }
    ensures added { with_one number (records_seen sessions.old closed.old.items) (added limits.now used stamp last (open_of (sessions_seen sessions.old) number) closed.old.items) ≡ records_seen sessions.new closed.new.items }
    ensures numbers { numbers_of sessions.new ≡ numbers_of sessions.old }
    ensures sequences { SequencesAreWithin (vec_len closed.new) sessions.new }
    ensures capacity { vec_capacity closed.new ≡ vec_capacity closed.old }
    ensures len { vec_len closed.new ≤ vec_len closed.old + 1 }
    ensures count { count.new ≡ closable (sessions_seen sessions.new) }
{
    let _length = sessions.len();
    if let Some(at) = place(numbers, number) {
        sessions[at].add(alloc, limits, closed, count, used, stamp, last);
    }
}

/// The session of a number ends, and the closable records are counted.
pub fn end_of(
    numbers: &[u32],
    sessions: &mut [SessionKept],
    closed: &mut Vec<Kept>,
    count: &mut usize,
    number: u32,
    cause: u8,
    stamp: Moment,
)
    requires same { numbers.now ≡ numbers_of sessions.old }
    requires rising { AreRising numbers.now }
    requires spare { vec_len closed.old < vec_capacity closed.old }
    requires few { vec_len closed.old < 2 ^ 32 - 2 }
    requires sequences { SequencesAreWithin (vec_len closed.old) sessions.old }
    requires count { count.old ≡ closable (sessions_seen sessions.old) }
    ensures ended { with_one number (records_seen sessions.old closed.old.items) (ended cause stamp (open_of (sessions_seen sessions.old) number) closed.old.items) ≡ records_seen sessions.new closed.new.items }
    ensures numbers { numbers_of sessions.new ≡ numbers_of sessions.old }
    ensures sequences { SequencesAreWithin (vec_len closed.new) sessions.new }
    ensures capacity { vec_capacity closed.new ≡ vec_capacity closed.old }
    ensures len { vec_len closed.new ≤ vec_len closed.old + 1 }
    ensures count { count.new ≡ closable (sessions_seen sessions.new) }
{
    let _length = sessions.len();
    if let Some(at) = place(numbers, number) {
        sessions[at].end(closed, count, cause, stamp);
    }
}

// Makes room for entries of the session of a number, where it is there.
fn make_room_in(
    numbers: &[u32],
    sessions: &mut [SessionKept],
    number: u32,
    used: &[UnitUsage],
) -> Result<(), AllocError>
    requires same { numbers.now ≡ numbers_of sessions.old }
    requires rising { AreRising numbers.now }
    requires apart { AreApart used.now }
    ensures room { OnOk result (IfSome (kept_of sessions.new number) (λ z. IfSome z.unclosed (λ u. HasRoom u used.now))) }
    ensures kept { sessions_seen sessions.new ≡ sessions_seen sessions.old }
    ensures numbers { numbers_of sessions.new ≡ numbers_of sessions.old }
    ensures sequences { (n : ℕ) → SequencesAreWithin n sessions.old → SequencesAreWithin n sessions.new }
{
    match place(numbers, number) {
        Some(at) => sessions[at].make_room(used),
        None => Ok(()),
    }
}

/// Makes room for entries of the session of a number among all sessions, where it is there.
pub fn make_room_of(
    numbers: &[u32],
    sessions: &mut Vec<SessionKept>,
    number: u32,
    used: &[UnitUsage],
) -> Result<(), AllocError>
    requires same { numbers.now ≡ numbers_of sessions.old.items }
    requires rising { AreRising numbers.now }
    requires apart { AreApart used.now }
    ensures room { OnOk result (IfSome (kept_of sessions.new.items number) (λ z. IfSome z.unclosed (λ u. HasRoom u used.now))) }
    ensures kept { sessions_seen sessions.new.items ≡ sessions_seen sessions.old.items }
    ensures numbers { numbers_of sessions.new.items ≡ numbers_of sessions.old.items }
    ensures sequences { (n : ℕ) → SequencesAreWithin n sessions.old.items → SequencesAreWithin n sessions.new.items }
    ensures len { vec_len sessions.new ≡ vec_len sessions.old }
    ensures capacity { vec_capacity sessions.new ≡ vec_capacity sessions.old }
{
    make_room_in(numbers, sessions, number, used)
}

/// A session begins, in its place.
pub fn enter(numbers: &mut Vec<u32>, sessions: &mut Vec<SessionKept>, new: SessionKept)
    requires same { numbers.old.items ≡ numbers_of sessions.old.items }
    requires rising { AreRising numbers.old.items }
    requires fresh { kept_of sessions.old.items new.number ≡ None }
    requires places { vec_len numbers.old < vec_capacity numbers.old }
    requires room { vec_len sessions.old < vec_capacity sessions.old }
    ensures entered { sessions_seen sessions.new.items ≡ entered (session_seen new) (sessions_seen sessions.old.items) }
    ensures same { numbers.new.items ≡ numbers_of sessions.new.items }
    ensures rising { AreRising numbers.new.items }
    ensures kept { kept_of sessions.new.items new.number ≡ Some new }
    ensures sequences { (n : ℕ) → SequencesAreWithin n sessions.old.items → SequenceIsWithin n new → SequencesAreWithin n sessions.new.items }
{
    let number = new.number;
    match search(numbers, number) {
        Ok(_) => unreachable!(),
        Err(at) => {
            match numbers.insert(at, number) {
                Ok(()) => {}
                Err(_) => unreachable!(),
            }
            match sessions.insert(at, new) {
                Ok(()) => {}
                Err(_) => unreachable!(),
            }
        }
    }
}
