//! The table of policy counters.
ghost use Rattle.std.specs.Prelude.{◌≡◌, ◌<◌, ◌↔◌, [], length, None, Some, slice_index_or, IfOk, IfErr, IsSome, IsTrue, MatchOption, option_map, false};
ghost use Rattle.units.specs.Answers.{IsOrNoMemory};
ghost use Rattle.counters.specs.Row.{counter_rows};
ghost use Rattle.counters.specs.Names.{AreAscending, IsThere, names_of, is_among};
ghost use Rattle.counters.specs.Status.{status};
ghost use Rattle.counters.specs.Watching.{are_known, is_counter, statuses, changes};
ghost use Rattle.counters.specs.Grammar.{first_bad, read_answer, IsCause};
ghost use Rattle.counters.specs.Caches.{AreOf};

use crate::refusal::CounterRefusal;
use crate::row::{Limit, counter_row};
use crate::search::{reached, search};
use crate::table::{Table, take};
use crate::watching::{push_status, watched};
use std::alloc::{AllocError, Global};
use std::marker::Model;
use units::{CounterStatus, List, OutOfMemory, Plain, Text, copy};

/// Policy counters with their statuses, as rows give them (TS 29.594; the rows are this product's own).
#[derive(Debug, Drop)]
pub struct Counters {
    rows: List<List<Text>>,
    names: List<Text>,
    limits: List<List<Limit>>,
}

impl Model for Counters {
    ghost use Rattle.std.specs.Prelude.{List, ℕ};

    ghost Value = { List (List (List ℕ)) };

    ghost use Rattle.counters.specs.Caches.{IsWhole};

    ghost view = { λ t. t.rows };

    ghost invariant = { IsWhole };
}

// The table of rows.
fn read_table(alloc: Global, rows: &[List<Text>]) -> Result<Table, CounterRefusal>
    ensures good { IfOk result (λ table. first_bad [] rows.now ≡ None) }
    ensures table { IfOk result (λ table. AreOf (counter_rows rows.now) table.names.items table.limits.items) }
    ensures bad { IfErr result (IsCause (first_bad [] rows.now)) }
{
    let mut table = Table::new(alloc);
    for (at, fields) in rows.iter().enumerate() {
        let Ok(row) = u32::try_from(at + 1) else {
            return Err(CounterRefusal::OutOfMemory);
        };
        let bad = CounterRefusal::BadRow { row };
        let Some(row) = counter_row(fields.as_slice())? else {
            return Err(bad);
        };
        if !take(alloc, &mut table, row)? {
            return Err(bad);
        }
    }
    Ok(table)
}

impl Counters {
    /// No counter; takes no memory.
    pub fn new(alloc: Global) -> Counters
        ensures { result ≡ [] }
    {
        Counters {
            rows: List::new(alloc),
            names: List::new(alloc),
            limits: List::new(alloc),
        }
    }

    /// The counters that rows give. `BadRow` names the first row, counted from 1, that breaks the grammar: a row is `counter,NAME,LIMIT,STATUS`,
    /// rows of a name are adjacent, the first limit of a name is 0 and its limits ascend, and there are at most 100 names (this product's own).
    pub fn read(alloc: Global, rows: &List<List<Text>>) -> Result<Counters, CounterRefusal>
        ensures { IsOrNoMemory CounterRefusal.OutOfMemory result (read_answer rows.now) }
    {
        let Table { names, limits, .. } = read_table(alloc, rows.as_slice())?;
        Ok(Counters {
            rows: copy(rows)?,
            names: List::from_vec(names),
            limits: List::from_vec(limits),
        })
    }

    /// The rows that were read, in order.
    pub fn rows(&self) -> &List<List<Text>>
        ensures rows { result.now ≡ self.now }
        ensures good { first_bad [] self.now ≡ None }
    {
        &self.rows
    }

    /// The names of the counters, ascending.
    pub fn names(&self) -> &List<Text>
        ensures names { result.now ≡ names_of (counter_rows self.now) }
        ensures ascending { AreAscending result.now }
    {
        &self.names
    }

    /// The status of a counter after an amount, in grains, was spent: the name at the greatest of its limits that is not above that
    /// amount. `None` exactly for an unknown counter (TS 29.594, 4.1.2; the limits are this product's own).
    pub fn status(&self, counter: &str, spent: u128) -> Option<&str>
        ensures value { option_map (λ t. t.now) result ≡ status self.now counter.now spent }
        ensures known { IsSome result ↔ IsTrue (is_among counter.now (names_of (counter_rows self.now))) }
    {
        let at = self.place(counter)?;
        Some(self.status_at(at, spent))
    }

    // The place of a counter among the names.
    fn place(&self, counter: &str) -> Option<usize>
        ensures { MatchOption result (is_counter self.now counter.now ≡ false) (IsThere (names_of (counter_rows self.now)) counter.now) }
    {
        match search(self.names.as_slice(), counter) {
            Ok(at) => Some(at),
            Err(_) => None,
        }
    }

    // Whether a counter is one of the table.
    fn is_counter(&self, counter: &str) -> bool
        ensures { result ≡ is_counter self.now counter.now }
    {
        self.place(counter).is_some()
    }

    /// Whether each of these names is that of a counter.
    pub fn are_known(&self, named: &List<Text>) -> bool
        ensures { result ≡ are_known self.now named.now }
    {
        named.iter().all(|name| self.is_counter(name.as_str()))
    }

    // The status of the counter at a place.
    fn status_at(&self, at: usize, spent: u128) -> &str
        requires { at < length (names_of (counter_rows self.now)) }
        ensures { Some result.now ≡ status self.now (slice_index_or (names_of (counter_rows self.now)) at []) spent }
    {
        let limits = self.limits.as_slice();
        match reached(limits[at].as_slice(), spent) {
            Some(limit) => limit.status.as_str(),
            None => unreachable!(),
        }
    }

    /// The statuses after an amount, in grains, was spent of the counters that are named, or of all where none is, ascending, each once.
    pub fn statuses(
        &self,
        alloc: Global,
        named: &List<Text>,
        spent: u128,
    ) -> Result<List<CounterStatus>, OutOfMemory>
        ensures { IfOk result (λ infos. infos ≡ statuses self.now named.now spent) }
    {
        let names = self.names.as_slice();
        let flags = watched(names, named.as_slice());
        let mut infos = List::new(alloc);
        for at in 0..names.len() {
            if flags[at] {
                push_status(
                    alloc,
                    &mut infos,
                    names[at].as_str(),
                    self.status_at(at, spent),
                )?;
            }
        }
        Ok(infos)
    }

    /// The new statuses of those of them whose status is another after one amount spent than after another, ascending, each once.
    pub fn changes(
        &self,
        alloc: Global,
        named: &List<Text>,
        before: u128,
        after: u128,
    ) -> Result<List<CounterStatus>, OutOfMemory>
        ensures { IfOk result (λ infos. infos ≡ changes self.now named.now before after) }
    {
        let names = self.names.as_slice();
        let flags = watched(names, named.as_slice());
        let mut infos = List::new(alloc);
        for at in 0..names.len() {
            if flags[at] {
                let status = self.status_at(at, after);
                if self.status_at(at, before) != status {
                    push_status(alloc, &mut infos, names[at].as_str(), status)?;
                }
            }
        }
        Ok(infos)
    }
}

impl Clone for Counters {
    ghost use Rattle.std.specs.Prelude.{◌≡◌};

    ghost is_clone = { λ a b. b ≡ a };

    fn clone(&self) -> Result<Counters, AllocError> {
        Ok(Counters {
            rows: self.rows.clone()?,
            names: self.names.clone()?,
            limits: self.limits.clone()?,
        })
    }
}

impl PartialEq for Counters {
    ghost use Rattle.std.specs.Prelude.{nat_eq};
    ghost use Rattle.std.specs.Cmp.Lexicographic.{pointwise, lists_per, nat_list_eq_equiv};
    ghost use Rattle.std.specs.Cmp.{partial_equiv_from_equiv};

    ghost eq = { pointwise (pointwise (pointwise nat_eq)) };

    ghost laws = { lists_per (lists_per (partial_equiv_from_equiv nat_list_eq_equiv)) };

    fn eq(&self, other: &Counters) -> bool {
        self.rows == other.rows
    }
}

impl Eq for Counters {
    ghost use Rattle.std.specs.Cmp.Lexicographic.{lists_equiv, nat_list_eq_equiv};

    ghost laws = { lists_equiv (lists_equiv nat_list_eq_equiv) };
}

impl Plain for Counters {
    ghost use Rattle.std.specs.Cmp.Lexicographic.{bytes_decides, pointwise_decides};

    ghost copies = { λ a b h. h };

    ghost decides = { pointwise_decides (pointwise_decides bytes_decides) };
}
