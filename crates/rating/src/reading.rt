//! The rows that were read so far.
ghost use Rattle.std.specs.Prelude.{◌≡◌, ◌+◌, ◌==◌, ◌&&◌, ◌++◌, ◌∷◌, [], ℕ, nat_eq, nat_lt, is_none, true, Ok, Some, None, Option, IfOk, OnOk, length, if◌then◌else◌};
ghost use Rattle.std.specs.HashMap.{get};
ghost use Rattle.rating.specs.Row.{IsInRange, IsSmall};
ghost use Rattle.rating.specs.Tariff.{GroupTariff, extended, tariff_of, periods_by};
ghost use Rattle.rating.specs.Grammar.{is_complete, is_priced, may_extend_some, may_follow};

use crate::period::Period;
use crate::row::TariffRow;
use crate::tariff::Tariff;
use crate::terms::Terms;
use std::alloc::Global;
use std::collections::HashMap;
use std::marker::Model;
use units::{List, OutOfMemory};

/// The rows of a tariff that were read so far, and the tariffs of their groups.
#[derive(Drop)]
pub struct Reading {
    rows: List<TariffRow>,
    groups: u32,
    table: HashMap<u32, Tariff>,
}

impl Model for Reading {
    ghost use Rattle.std.specs.Prelude.{List};
    ghost use Rattle.rating.specs.declared.row.TariffRow.{TariffRow};

    ghost Value = { List TariffRow };

    ghost use Rattle.rating.specs.Caches.{IsRead};

    ghost view = { λ r. r.rows };

    ghost invariant = { IsRead };
}

// Puts a new group into the table, unless it is there.
fn take_group(
    alloc: Global,
    table: &mut HashMap<u32, Tariff>,
    group: u32,
    terms: Terms,
) -> Result<bool, OutOfMemory>
    ensures taken { IfOk result (λ taken. taken ≡ is_none (get nat_eq table.old group)) }
    ensures table { result ≡ Ok true → (q : ℕ) → get nat_eq table.new q ≡ (if group == q then Some (record { terms = terms; periods = [] }) else get nat_eq table.old q) }
{
    if table.contains_key(&group) {
        return Ok(false);
    }
    table.insert(group, Tariff::new(alloc, terms))?;
    Ok(true)
}

// Adds a period to a group's tariff, where it has one that admits it.
fn take_price(
    table: &mut HashMap<u32, Tariff>,
    group: u32,
    period: Period,
) -> Result<bool, OutOfMemory>
    requires { IsSmall period }
    ensures taken { IfOk result (λ taken. taken ≡ may_extend_some (get nat_eq table.old group) period) }
    ensures table { result ≡ Ok true → (q : ℕ) → get nat_eq table.new q ≡ (if group == q then extended (get nat_eq table.old group) period else get nat_eq table.old q) }
{
    let Some(mut tariff) = table.remove(&group) else {
        return Ok(false);
    };
    if !tariff.admits(&period) {
        return Ok(false);
    }
    tariff.add(period)?;
    table.insert(group, tariff)?;
    Ok(true)
}

// Whether a group has a tariff with a price.
fn has_price(table: &HashMap<u32, Tariff>, group: u32) -> bool
    ensures { result ≡ nat_lt 0 (length (periods_by (get nat_eq table.now group))) }
{
    match table.get(&group) {
        Some(tariff) => tariff.has_price(),
        None => false,
    }
}

// Whether the group of a group row has a price.
fn is_priced(table: &HashMap<u32, Tariff>, row: &TariffRow) -> bool
    ensures { result ≡ is_priced (λ group. nat_lt 0 (length (periods_by (get nat_eq table.now group)))) row.now }
{
    match row {
        TariffRow::Group { group, .. } => has_price(table, *group),
        TariffRow::Price { .. } => true,
    }
}

impl Reading {
    pub fn new(alloc: Global) -> Reading
        ensures { result ≡ [] }
    {
        Reading {
            rows: List::new(alloc),
            groups: 0,
            table: HashMap::new(alloc),
        }
    }

    /// The number of the row after these, from 1.
    pub fn next_row(&self) -> u32
        ensures { result ≡ length self.now + 1 }
    {
        let _groups = self.groups;
        self.rows.len() as u32 + 1
    }

    /// With one row more, where it may follow.
    pub fn take(self, alloc: Global, row: TariffRow) -> Result<Option<Reading>, OutOfMemory>
        requires { IsInRange row }
        ensures { IfOk result (λ next. next ≡ (if may_follow self row then Some (self ++ row ∷ []) else None)) }
    {
        let Reading {
            mut rows,
            mut groups,
            mut table,
        } = self;
        let taken = match row {
            TariffRow::Group { group, terms } => {
                groups += 1;
                groups <= 1_000 && take_group(alloc, &mut table, group, terms)?
            }
            TariffRow::Price { group, period } => take_price(&mut table, group, period)?,
        };
        if !taken {
            return Ok(None);
        }
        rows.push(row)?;
        Ok(Some(Reading {
            rows,
            groups,
            table,
        }))
    }

    /// Whether each group has a price row.
    pub fn is_complete(&self) -> bool
        ensures { result ≡ is_complete self.now }
    {
        let table = &self.table;
        self.rows.iter().all(|row| is_priced(table, row))
    }

    /// The tariffs of the groups.
    pub fn into_table(self) -> HashMap<u32, Tariff>
        ensures { (group : ℕ) → get nat_eq result group ≡ tariff_of self group }
    {
        let Reading {
            rows: _,
            groups: _,
            table,
        } = self;
        table
    }
}
