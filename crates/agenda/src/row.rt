//! Rows of marks: each with a mark for each two of the one below.
ghost use Rattle.std.specs.Prelude.{◌≡◌, ◌<◌, ◌+◌, ◌*◌, ◌++◌, IfOk, OnOk, length, replicate, slice_index_or};
ghost use Rattle.agenda.specs.Marks.{quiet};
ghost use Rattle.agenda.specs.Rows.{halved, pair_at, AreRows, first_row, child, spread};

use crate::mark::{Mark, Search, is_found, nothing, together};
use std::alloc::Global;
use units::{List, OutOfMemory};

// The mark at a place, or one with nothing to find past the end.
fn mark_at(row: &[Mark], at: usize) -> Mark
    ensures { result ≡ slice_index_or row.now at quiet }
{
    if at < row.len() { row[at] } else { nothing() }
}

/// The mark of the two at twice a place and behind it.
pub fn pair(row: &[Mark], at: usize) -> Mark
    requires { 2 * at < length row.now }
    ensures { result ≡ pair_at row.now at }
{
    together(&mark_at(row, 2 * at), &mark_at(row, 2 * at + 1))
}

// A mark for each two.
#[tactic(auto, using(crate::proofs::Building::halved_more))]
fn halve(alloc: Global, row: &[Mark]) -> Result<Vec<Mark>, OutOfMemory>
    ensures { IfOk result (λ v. v.items ≡ halved row.now) }
{
    let mut half = Vec::new(alloc);
    for at in 0..row.len().div_ceil(2) {
        half.push(pair(row, at))?;
    }
    Ok(half)
}

/// A row with the rows over it.
#[tactic(auto, using(crate::proofs::Building::shorter, crate::proofs::Building::rows_more, crate::proofs::Building::rows_end, crate::proofs::Building::first_more))]
pub fn rows_over(alloc: Global, marks: Vec<Mark>) -> Result<Vec<List<Mark>>, OutOfMemory>
    ensures rows { IfOk result (λ v. AreRows v.items) }
    ensures first { IfOk result (λ v. first_row v.items ≡ marks.items) }
{
    let mut rows = Vec::new(alloc);
    let mut row = marks;
    'over: while row.len() > 1 {
        let above = halve(alloc, row.as_slice())?;
        rows.push(List::from_vec(row))?;
        row = above;
    }
    rows.push(List::from_vec(row))?;
    Ok(rows)
}

/// A row with as many more marks with nothing to find, and one.
pub fn with_more(alloc: Global, row: &[Mark]) -> Result<Vec<Mark>, OutOfMemory>
    ensures { IfOk result (λ v. v.items ≡ row.now ++ replicate (length row.now + 1) quiet) }
{
    let mut marks = Vec::from_slice(alloc, row)?;
    for at in 0..row.len() {
        let _ = at;
        marks.push(nothing())?;
    }
    marks.push(nothing())?;
    Ok(marks)
}

// Adds a place where its mark has what is searched for.
fn add_found(
    found: &mut Vec<usize>,
    search: &Search,
    row: &[Mark],
    at: usize,
) -> Result<(), OutOfMemory>
    ensures { OnOk result (found.new.items ≡ found.old.items ++ child search.now row.now at) }
{
    if is_found(search, &mark_at(row, at)) {
        found.push(at)?;
    }
    Ok(())
}

/// The places with what is searched for, under those of the row above.
pub fn found_under(
    alloc: Global,
    search: &Search,
    row: &[Mark],
    above: &[usize],
) -> Result<Vec<usize>, OutOfMemory>
    ensures { IfOk result (λ v. v.items ≡ spread search.now row.now above.now) }
{
    let mut found = Vec::new(alloc);
    for at in above {
        let Some(first) = at.checked_mul(2) else {
            return Err(OutOfMemory);
        };
        let Some(second) = first.checked_add(1) else {
            return Err(OutOfMemory);
        };
        add_found(&mut found, search, row, first)?;
        add_found(&mut found, search, row, second)?;
    }
    Ok(found)
}
