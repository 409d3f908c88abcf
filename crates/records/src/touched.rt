//! The sessions whose record got a container: only these are looked at where every record that has one is closed.
ghost use Rattle.std.specs.Prelude.{◌≡◌, ◌≤◌, ◌<◌, ◌+◌, ◌-◌, ◌^◌, ◌∷◌, ℕ, List as Listed, length, Contains, vec_len, vec_capacity};
ghost use Rattle.std.specs.List.Sorted.{IsNonDecreasing};
ghost use Rattle.records.specs.Book.{all_swept, closable};
ghost use Rattle.records.specs.Seen.{session_seen, sessions_seen, numbers_of, AreRising, SequencesAreWithin, records_seen, IsThere, IsMissing, EachClosable};

use crate::by_number::place;
use crate::record::Kept;
use crate::session::SessionKept;
use std::alloc::Global;
use units::Moment;

/// The number of a session goes behind the others where more records can be closed now than before.
pub fn note(touched: &mut Vec<u32>, number: u32, before: usize, now: usize)
    requires spare { vec_len touched.old < vec_capacity touched.old }
    ensures noted { before < now → Contains touched.new.items number }
    ensures kept { (n : ℕ) → Contains touched.old.items n → Contains touched.new.items n }
    ensures len { vec_len touched.new ≤ vec_len touched.old + 1 }
    ensures capacity { vec_capacity touched.new ≡ vec_capacity touched.old }
{
    if before < now {
        touched.push_reserved(number);
    }
}

// The record of the session of a number is closed where it has a container. No session of a smaller number has one.
fn sweep_one(
    alloc: Global,
    numbers: &[u32],
    sessions: &mut [SessionKept],
    closed: &mut Vec<Kept>,
    number: u32,
    stamp: Moment,
)
    requires same { numbers.now ≡ numbers_of sessions.old }
    requires rising { AreRising numbers.now }
    requires spare { vec_len closed.old + closable (sessions_seen sessions.old) ≤ vec_capacity closed.old }
    requires few { vec_len closed.old + closable (sessions_seen sessions.old) < 2 ^ 32 - 1 }
    requires sequences { SequencesAreWithin (vec_len closed.old) sessions.old }
    requires least { EachClosable (λ n. number ≤ n) (sessions_seen sessions.old) }
    ensures swept { all_swept (sessions_seen sessions.new) stamp closed.new.items ≡ all_swept (sessions_seen sessions.old) stamp closed.old.items }
    ensures others { (ns : Listed ℕ) → EachClosable (Contains (number ∷ ns)) (sessions_seen sessions.old) → EachClosable (Contains ns) (sessions_seen sessions.new) }
    ensures numbers { numbers_of sessions.new ≡ numbers_of sessions.old }
    ensures sequences { SequencesAreWithin (vec_len closed.new) sessions.new }
    ensures capacity { vec_capacity closed.new ≡ vec_capacity closed.old }
    ensures left { vec_len closed.new + closable (sessions_seen sessions.new) ≡ vec_len closed.old + closable (sessions_seen sessions.old) }
{
    let _length = sessions.len();
    if let Some(at) = place(numbers, number) {
        sessions[at].sweep(alloc, closed, stamp);
    }
}

// Every record that has a container is closed, in order of their sessions, whose numbers are all among these.
fn sweep_these(
    alloc: Global,
    numbers: &[u32],
    sessions: &mut [SessionKept],
    closed: &mut Vec<Kept>,
    touched: &[u32],
    stamp: Moment,
)
    requires same { numbers.now ≡ numbers_of sessions.old }
    requires rising { AreRising numbers.now }
    requires spare { vec_len closed.old + closable (sessions_seen sessions.old) ≤ vec_capacity closed.old }
    requires few { vec_len closed.old + closable (sessions_seen sessions.old) < 2 ^ 32 - 1 }
    requires sequences { SequencesAreWithin (vec_len closed.old) sessions.old }
    requires touched { EachClosable (Contains touched.now) (sessions_seen sessions.old) }
    requires order { IsNonDecreasing touched.now }
    ensures swept { all_swept (sessions_seen sessions.old) stamp closed.old.items ≡ records_seen sessions.new closed.new.items }
    ensures numbers { numbers_of sessions.new ≡ numbers_of sessions.old }
    ensures sequences { SequencesAreWithin (vec_len closed.new) sessions.new }
    ensures none { closable (sessions_seen sessions.new) ≡ 0 }
{
    for number in touched {
        sweep_one(alloc, numbers, sessions, closed, *number, stamp);
    }
}

/// Every record that has a container is closed, in order of their sessions, whose numbers are all among the touched; none
/// is touched then.
pub fn sweep_all(
    alloc: Global,
    numbers: &[u32],
    sessions: &mut [SessionKept],
    closed: &mut Vec<Kept>,
    touched: &mut Vec<u32>,
    stamp: Moment,
)
    requires same { numbers.now ≡ numbers_of sessions.old }
    requires rising { AreRising numbers.now }
    requires spare { vec_len closed.old + closable (sessions_seen sessions.old) ≤ vec_capacity closed.old }
    requires few { vec_len closed.old + closable (sessions_seen sessions.old) < 2 ^ 32 - 1 }
    requires sequences { SequencesAreWithin (vec_len closed.old) sessions.old }
    requires touched { EachClosable (Contains touched.old.items) (sessions_seen sessions.old) }
    ensures swept { all_swept (sessions_seen sessions.old) stamp closed.old.items ≡ records_seen sessions.new closed.new.items }
    ensures numbers { numbers_of sessions.new ≡ numbers_of sessions.old }
    ensures sequences { SequencesAreWithin (vec_len closed.new) sessions.new }
    ensures none { closable (sessions_seen sessions.new) ≡ 0 }
    ensures touched { EachClosable (Contains touched.new.items) (sessions_seen sessions.new) }
{
    touched.sort_unstable();
    sweep_these(alloc, numbers, sessions, closed, touched, stamp);
    touched.clear();
}
