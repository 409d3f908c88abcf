//! The rows that set a charging function up.
ghost use Rattle.std.specs.Prelude.{◌≡◌, ◌<◌, ◌≤◌, ◌+◌, ◌^◌, [], length, take, drop, None, IsSome, IfOk, IfErr, Ok, Err, Result, MatchOption};
ghost use Rattle.units.specs.Answers.{IsOrNoMemory};
ghost use Rattle.rating.specs.Grammar.{first_bad};
ghost use Rattle.counters.specs.Grammar as counter;
ghost use Rattle.chf_rows.specs.Setup.{alone, counters_of, counters_place, ending, front_of, is_counter_row, is_setup_row, limits_answer, limits_place, lacking, naming_row, setup_answer, tariff_of, with_counters, with_size, with_tariff};

use crate::limits::{Limits, limits_place, limits_row};
use crate::refusal::SetupRefusal;
use crate::size::first_past;
use chf_core::ChfSetup;
use counters::{CounterRefusal, Counters};
use rating::{RatingRefusal, Tariffs};
use std::alloc::Global;
use units::{List, OutOfMemory, Text, copy};

/// Whether a row is of a kind that setup rows have.
pub fn is_setup_row(fields: &[Text]) -> bool
    ensures { result ≡ is_setup_row fields.now }
{
    match fields {
        [word, ..] => {
            let word = word.as_str();
            word == "group" || word == "price" || word == "counter" || word == "limits"
        }
        [] => false,
    }
}

/// The most bytes of setup rows.
const MOST_BYTES: usize = 65_536;

// Some of the rows.
fn some_rows(alloc: Global, rows: &[List<Text>]) -> Result<List<List<Text>>, OutOfMemory>
    ensures { IfOk result (λ some. some ≡ rows.now) }
{
    let mut some = List::new(alloc);
    for row in rows {
        some.push(copy(row)?)?;
    }
    Ok(some)
}

fn is_counter_row(fields: &[Text]) -> bool
    ensures { result ≡ is_counter_row fields.now }
{
    match fields {
        [word, ..] => word.as_str() == "counter",
        [] => false,
    }
}

// How many rows stand before the first row of a policy counter.
fn counters_place(rows: &[List<Text>]) -> usize
    ensures value { result ≡ counters_place rows.now }
    ensures within { result ≤ length rows.now }
    ensures small { result < 2 ^ 63 }
{
    let mut place = 0;
    for row in rows {
        if is_counter_row(row.as_slice()) {
            return place;
        }
        place += 1;
    }
    place
}

// A limits row under this number, and nothing after it.
fn alone(limits: Option<Limits>, number: usize, rows: &[List<Text>]) -> Result<Limits, usize>
    requires { number < 2 ^ 63 + 1 }
    ensures { result ≡ alone limits number rows.now }
{
    match limits {
        Some(limits) => match rows {
            [] => Ok(limits),
            _ => Err(number + 1),
        },
        None => Err(number),
    }
}

// The limits row that ends a setup with that many rows before it.
fn ending(front: usize, rows: &[List<Text>]) -> Result<Result<Limits, usize>, OutOfMemory>
    requires { front < 2 ^ 63 }
    ensures { IfOk result (λ end. end ≡ ending front rows.now) }
{
    match rows {
        [row, rest @ ..] => Ok(alone(limits_row(row.as_slice())?, front + 1, rest)),
        [] => Ok(Err(front + 1)),
    }
}

fn with_counters(
    tariff: usize,
    bad: Option<u32>,
    end: Result<Limits, usize>,
) -> Result<Limits, usize>
    requires { tariff < 2 ^ 63 }
    ensures { result ≡ with_counters tariff bad end }
{
    match bad {
        None => end,
        Some(row) => Err(tariff + row as usize),
    }
}

fn with_tariff(
    tariff: usize,
    front: usize,
    bad: Option<u32>,
    end: Result<Limits, usize>,
) -> Result<Limits, usize>
    requires { front < 2 ^ 63 }
    ensures { result ≡ with_tariff tariff front bad end }
{
    match bad {
        None => end,
        Some(row) => if row as usize <= tariff {
            Err(row as usize)
        } else {
            match end {
                Ok(_) => Err(front + 2),
                Err(row) => Err(row),
            }
        },
    }
}

fn with_size(past: Option<usize>, limits: Result<Limits, usize>) -> Result<Limits, usize>
    ensures { result ≡ with_size past limits }
{
    match past {
        None => limits,
        Some(row) => match limits {
            Ok(_) => Err(row),
            Err(other) => Err(row.min(other)),
        },
    }
}

// The first bad row of a tariff and, where there is none, the tariffs.
fn tariffs(
    alloc: Global,
    rows: &List<List<Text>>,
) -> Result<(Option<u32>, Option<Tariffs>), OutOfMemory>
    ensures bad { IfOk result (λ both. both.0 ≡ first_bad [] rows.now) }
    ensures good { IfOk result (λ both. MatchOption both.1 (IsSome both.0) (λ t. (t ≡ rows.now) × (both.0 ≡ None))) }
{
    match Tariffs::read(alloc, rows) {
        Ok(tariffs) => Ok((None, Some(tariffs))),
        Err(RatingRefusal::BadRow { row }) => Ok((Some(row), None)),
        Err(RatingRefusal::OutOfMemory) => Err(OutOfMemory),
    }
}

// The first bad row of the policy counters and, where there is none, the counters.
fn counters(
    alloc: Global,
    rows: &List<List<Text>>,
) -> Result<(Option<u32>, Option<Counters>), OutOfMemory>
    ensures bad { IfOk result (λ both. both.0 ≡ counter.first_bad [] rows.now) }
    ensures good { IfOk result (λ both. MatchOption both.1 (IsSome both.0) (λ t. (t ≡ rows.now) × (both.0 ≡ None))) }
{
    match Counters::read(alloc, rows) {
        Ok(counters) => Ok((None, Some(counters))),
        Err(CounterRefusal::BadRow { row }) => Ok((Some(row), None)),
        Err(_) => Err(OutOfMemory),
    }
}

// The rows before the limits row.
fn front(rows: &[List<Text>]) -> &[List<Text>]
    ensures { result.now ≡ front_of rows.now }
{
    &rows[..limits_place(rows)]
}

// Of these, the rows of the tariff.
fn tariff_rows(rows: &[List<Text>]) -> &[List<Text>]
    ensures { result.now ≡ tariff_of (front_of rows.now) }
{
    let front = front(rows);
    &front[..counters_place(front)]
}

// And those of the policy counters.
fn counter_rows(rows: &[List<Text>]) -> &[List<Text>]
    ensures { result.now ≡ counters_of (front_of rows.now) }
{
    let front = front(rows);
    &front[counters_place(front)..]
}

// The limits of a setup whose first bad rows these are, or its first bad row.
fn limits_answer(
    rows: &[List<Text>],
    bad_tariff: Option<u32>,
    bad_counter: Option<u32>,
) -> Result<Result<Limits, usize>, OutOfMemory>
    requires tariff { bad_tariff ≡ first_bad [] (tariff_of (front_of rows.now)) }
    requires counters { bad_counter ≡ counter.first_bad [] (counters_of (front_of rows.now)) }
    ensures value { IfOk result (λ answer. answer ≡ limits_answer rows.now) }
    ensures good { IfOk result (λ answer. IfOk answer (λ _. (bad_tariff ≡ None) × (bad_counter ≡ None))) }
{
    let place = limits_place(rows);
    let tariff = counters_place(front(rows));
    let counted = with_counters(tariff, bad_counter, ending(place, &rows[place..])?);
    let end = with_tariff(tariff, place, bad_tariff, counted);
    Ok(with_size(first_past(MOST_BYTES, rows), end))
}

/// The setup that rows give.
///
/// # Errors
///
/// `BadRow` names the first row, counted from 1, that is not accepted: first the rows of a tariff, then those of the policy
/// counters, then one limits row, and nothing after it, of at most 65,536 bytes together.
pub fn read_setup(alloc: Global, rows: &[List<Text>]) -> Result<ChfSetup, SetupRefusal>
    ensures { IsOrNoMemory SetupRefusal.OutOfMemory result (naming_row (setup_answer rows.now)) }
{
    let (bad_tariff, tariffs) = tariffs(alloc, &some_rows(alloc, tariff_rows(rows))?)?;
    let (bad_counter, counters) = counters(alloc, &some_rows(alloc, counter_rows(rows))?)?;
    match limits_answer(rows, bad_tariff, bad_counter)? {
        Ok(limits) => match (tariffs, counters) {
            (Some(tariffs), Some(counters)) => Ok(ChfSetup {
                tariffs,
                counters,
                limits: limits.records,
                grace: limits.grace,
                failover: limits.failover,
            }),
            _ => unreachable!(),
        },
        Err(row) => Err(SetupRefusal::BadRow { row }),
    }
}
