//! The marks of all sessions.
ghost use Rattle.std.specs.Prelude.{◌≡◌, ◌<◌, ◌+◌, ◌/◌, ◌++◌, [], ◌∷◌, ℕ, IfOk, OnOk, OnErr, length, replicate, slice_set, slice_index_or};
ghost use Rattle.std.specs.Bool.{OnTrue};
ghost use Rattle.agenda.specs.Marks.{quiet, all_of, places_from};
ghost use Rattle.agenda.specs.Rows.{first_row, pair_at, set_rows, top, found_in, AreRows};

use crate::mark::{Mark, Search, is_found, is_same, nothing};
use crate::row::{found_under, pair, rows_over, with_more};
use std::alloc::Global;
use std::marker::Model;
use units::{List, OutOfMemory};

// The row of the marks.
fn marks_of(rows: &[List<Mark>]) -> &[Mark]
    ensures { result.now ≡ first_row rows.now }
{
    if rows.is_empty() {
        &[]
    } else {
        rows[0].as_slice()
    }
}

// Sets a mark in a row; the mark of the two there.
fn set_row(rows: &mut [List<Mark>], level: usize, at: usize, mark: Mark) -> Mark
    requires level { level < length rows.old }
    requires at { at < length (slice_index_or rows.old level []) }
    ensures rows { rows.new ≡ slice_set rows.old level (slice_set (slice_index_or rows.old level []) at mark) }
    ensures pair { result ≡ pair_at (slice_set (slice_index_or rows.old level []) at mark) (at / 2) }
{
    rows[level].set(at, mark);
    pair(rows[level].as_slice(), at / 2)
}

// Sets a mark in each row.
fn set_all(rows: &mut [List<Mark>], place: usize, mark: Mark)
    requires rows { AreRows rows.old }
    requires place { place < length (first_row rows.old) }
    ensures { rows.new ≡ set_rows rows.old place mark }
{
    let mut at = place;
    let mut next = mark;
    for level in 0..rows.len() {
        next = set_row(rows, level, at, next);
        at /= 2;
    }
}

// Whether a mark stands at a place already.
fn has_at(rows: &[List<Mark>], place: usize, mark: &Mark) -> bool
    ensures { OnTrue result (slice_set (first_row rows.now) place mark.now ≡ first_row rows.now) }
{
    let row = marks_of(rows);
    place < row.len() && is_same(&row[place], mark)
}

// The mark at the top.
fn top_of(rows: &[List<Mark>]) -> Mark
    ensures { result ≡ top rows.now }
{
    if rows.is_empty() {
        return nothing();
    }
    let row = rows[rows.len() - 1].as_slice();
    if row.is_empty() { nothing() } else { row[0] }
}

// The places with what is searched for, from the top row down.
#[tactic(auto, using(crate::proofs::Finding::found_first))]
fn found_down(
    alloc: Global,
    search: &Search,
    rows: &[List<Mark>],
) -> Result<Vec<usize>, OutOfMemory>
    requires rows { AreRows rows.now }
    requires some { 0 < length rows.now }
    ensures { IfOk result (λ v. v.items ≡ places_from search.now 0 (first_row rows.now)) }
{
    let mut found = Vec::new(alloc);
    found.push(0)?;
    for step in 0..rows.len() {
        let level = rows.len() - 1 - step;
        found = found_under(alloc, search, rows[level].as_slice(), found.as_slice())?;
    }
    Ok(found)
}

/// Marks by their places, and places for more of them.
#[derive(Drop)]
pub struct Agenda {
    rows: Vec<List<Mark>>,
    count: usize,
}

impl Model for Agenda {
    ghost use Rattle.std.specs.Prelude.{◌-◌, length, take};
    ghost use Rattle.agenda.specs.Rows.{Marked, IsRoomy, first_row};

    ghost Value = { Marked };

    ghost view = { λ a. record { marks = take a.count (first_row a.rows.items); room = length (first_row a.rows.items) - a.count } };

    ghost invariant = { λ a. IsRoomy a.rows.items a.count };
}

impl Agenda {
    /// Without marks.
    pub fn new(alloc: Global) -> Agenda
        ensures { result.marks ≡ [] }
    {
        Agenda {
            rows: Vec::new(alloc),
            count: 0,
        }
    }

    /// How many marks there are.
    pub fn len(&self) -> usize
        ensures { result ≡ length self.now.marks }
    {
        self.count
    }

    /// Makes a place for one more mark; as before where memory is wanting.
    pub fn make_room(&mut self, alloc: Global) -> Result<(), OutOfMemory>
        ensures room { OnOk result (0 < self.new.room) }
        ensures same { self.new.marks ≡ self.old.marks }
    {
        let row = marks_of(self.rows.as_slice());
        if self.count < row.len() {
            return Ok(());
        }
        let marks = with_more(alloc, row)?;
        self.rows = rows_over(alloc, marks)?;
        Ok(())
    }

    /// Adds a mark; it takes no memory.
    pub fn add(&mut self, mark: Mark)
        requires { 0 < self.old.room }
        ensures { self.new.marks ≡ self.old.marks ++ mark ∷ [] }
    {
        let _places = marks_of(self.rows.as_slice()).len();
        set_all(self.rows.as_mut_slice(), self.count, mark);
        self.count += 1;
    }

    /// Sets the mark at a place; it takes no memory.
    pub fn set(&mut self, place: usize, mark: Mark)
        requires { place < length self.old.marks }
        ensures value { self.new.marks ≡ slice_set self.old.marks place mark }
        ensures room { self.new.room ≡ self.old.room }
    {
        if has_at(self.rows.as_slice(), place, &mark) {
            return;
        }
        set_all(self.rows.as_mut_slice(), place, mark);
    }

    /// All marks together.
    pub fn all(&self) -> Mark
        ensures { result ≡ all_of self.now.marks }
    {
        top_of(self.rows.as_slice())
    }

    /// The places of the marks that have what is searched for, in order.
    pub fn places(&self, alloc: Global, search: &Search) -> Result<Vec<usize>, OutOfMemory>
        ensures { IfOk result (λ v. v.items ≡ places_from search.now 0 self.now.marks) }
    {
        if self.rows.is_empty() {
            return Ok(Vec::new(alloc));
        }
        let together = self.all();
        if is_found(search, &together) {
            found_down(alloc, search, self.rows.as_slice())
        } else {
            Ok(Vec::new(alloc))
        }
    }
}
