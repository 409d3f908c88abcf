//! The table of the rows that were read so far.
ghost use Rattle.std.specs.Prelude.{◌≡◌, ◌==◌, ◌&&◌, ◌++◌, ◌∷◌, [], true, nat_lt, length, IfOk, Ok, List as Listed, slice_get, slice_index_or, slice_set, bytes_eq};
ghost use Rattle.std.specs.List.{insert, list_all};
ghost use Rattle.counters.specs.declared.row.CounterRow.{CounterRow as Row};
ghost use Rattle.counters.specs.Names.{IsThere, IsGap};
ghost use Rattle.counters.specs.Grammar.{is_latest, may_follow};
ghost use Rattle.counters.specs.Caches.{AreSound, IsOf};

use crate::row::{CounterRow, Limit};
use crate::search::{is_above, search};
use std::alloc::{AllocError, Global};
use units::{List, OutOfMemory, Text};

/// The counters of some rows: their names, ascending, the limits of each, and the place of the counter of the latest row.
#[derive(Drop)]
pub struct Table {
    pub names: Vec<Text>,
    pub limits: Vec<List<Limit>>,
    pub latest: usize,
}

// Whether the latest row is one of this counter.
fn is_latest(names: &[Text], latest: usize, counter: &str) -> bool
    ensures { result ≡ is_latest (slice_get names.now latest) counter.now }
{
    match names.get(latest) {
        Some(name) => name.as_str() == counter,
        None => false,
    }
}

// A list of one limit.
fn first_limit(alloc: Global, limit: Limit) -> Result<List<Limit>, AllocError>
    ensures { IfOk result (λ limits. limits ≡ limit ∷ []) }
{
    let mut limits = List::new(alloc);
    limits.push(limit)?;
    Ok(limits)
}

// Takes a row of the counter at a place, where it may follow.
fn go_on(table: &mut Table, at: usize, row: CounterRow) -> Result<bool, OutOfMemory>
    requires sound { AreSound table.old.names.items table.old.limits.items }
    requires there { IsThere table.old.names.items row.counter at }
    ensures taken { IfOk result (λ taken. taken ≡ (is_latest (slice_get table.old.names.items table.old.latest) row.counter && list_all (λ l. nat_lt l.amount row.limit.amount) (slice_index_or table.old.limits.items at []))) }
    ensures names { table.new.names.items ≡ table.old.names.items }
    ensures latest { table.new.latest ≡ table.old.latest }
    ensures limits { result ≡ Ok true → table.new.limits.items ≡ slice_set table.old.limits.items at (slice_index_or table.old.limits.items at [] ++ row.limit ∷ []) }
{
    let CounterRow { counter, limit } = row;
    if !is_latest(&table.names, table.latest, counter.as_str())
        || !is_above(table.limits[at].as_slice(), limit.amount)
    {
        return Ok(false);
    }
    table.limits[at].push(limit)?;
    Ok(true)
}

// Takes the first row of a counter, which goes to a place, where it may follow.
fn begin(alloc: Global, table: &mut Table, at: usize, row: CounterRow) -> Result<bool, OutOfMemory>
    requires sound { AreSound table.old.names.items table.old.limits.items }
    requires gap { IsGap table.old.names.items row.counter at }
    ensures taken { IfOk result (λ taken. taken ≡ ((row.limit.amount == 0) && nat_lt (length table.old.names.items) 100)) }
    ensures names { result ≡ Ok true → table.new.names.items ≡ insert table.old.names.items at row.counter }
    ensures latest { result ≡ Ok true → table.new.latest ≡ at }
    ensures limits { result ≡ Ok true → table.new.limits.items ≡ insert table.old.limits.items at (row.limit ∷ []) }
{
    let CounterRow { counter, limit } = row;
    if limit.amount != 0 || table.names.len() >= 100 {
        return Ok(false);
    }
    table.names.insert(at, counter)?;
    table.limits.insert(at, first_limit(alloc, limit)?)?;
    table.latest = at;
    Ok(true)
}

impl Table {
    /// The table of no row.
    pub fn new(alloc: Global) -> Table
        ensures { IsOf [] result }
    {
        Table {
            names: Vec::new(alloc),
            limits: Vec::new(alloc),
            latest: 0,
        }
    }
}

/// Takes one row more, where it may follow.
pub fn take(alloc: Global, table: &mut Table, row: CounterRow) -> Result<bool, OutOfMemory>
    requires { AreSound table.old.names.items table.old.limits.items }
    ensures taken { (rows : Listed Row) → IsOf rows table.old → IfOk result (λ taken. taken ≡ may_follow rows row) }
    ensures table { (rows : Listed Row) → IsOf rows table.old → result ≡ Ok true → IsOf (rows ++ row ∷ []) table.new }
{
    match search(&table.names, row.counter.as_str()) {
        Ok(at) => go_on(table, at, row),
        Err(at) => begin(alloc, table, at, row),
    }
}
