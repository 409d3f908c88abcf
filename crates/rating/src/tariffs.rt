//! The tariffs of all rating groups.
ghost use Rattle.std.specs.Prelude.{◌≡◌, ℕ, None, Some, [], nat_eq, IfOk, IfErr, option_copied, option_map};
ghost use Rattle.std.specs.HashMap.{get};
ghost use Rattle.units.specs.Answers.{IsOrNoMemory};
ghost use Rattle.rating.specs.Tariff.{tariff};
ghost use Rattle.rating.specs.Grammar.{first_bad, read_answer, IsCause};
ghost use Rattle.rating.specs.Price.{price};
ghost use Rattle.rating.specs.Switch.{is_switch, next_switch, IsFirstSwitch};
ghost use Rattle.rating.specs.Grant.{grant};

use crate::grant::{Grant, no_quota};
use crate::reading::Reading;
use crate::refusal::RatingRefusal;
use crate::row::tariff_row;
use crate::tariff::Tariff;
use crate::terms::Terms;
use std::alloc::{AllocError, Global};
use std::collections::HashMap;
use std::marker::Model;
use units::{Ask, Code, List, Moment, Plain, Text, copy};

/// The tariffs of all rating groups, as rows give them (TS 32.290, rating; the rows are this product's own).
#[derive(Debug, Drop)]
pub struct Tariffs {
    rows: List<List<Text>>,
    table: HashMap<u32, Tariff>,
}

impl Model for Tariffs {
    ghost use Rattle.std.specs.Prelude.{List, ℕ};

    ghost Value = { List (List (List ℕ)) };

    ghost use Rattle.rating.specs.Caches.{IsWhole};

    ghost view = { λ t. t.rows };

    ghost invariant = { IsWhole };
}

// The tariffs that rows give, by their groups.
fn read_table(alloc: Global, rows: &[List<Text>]) -> Result<HashMap<u32, Tariff>, RatingRefusal>
    ensures good { IfOk result (λ table. first_bad [] rows.now ≡ None) }
    ensures table { IfOk result (λ table. (group : ℕ) → get nat_eq table group ≡ tariff rows.now group) }
    ensures bad { IfErr result (IsCause (first_bad [] rows.now)) }
{
    let mut reading = Reading::new(alloc);
    for fields in rows {
        let row = reading.next_row();
        let Some(read) = tariff_row(fields.as_slice()) else {
            return Err(RatingRefusal::BadRow { row });
        };
        reading = match reading.take(alloc, read)? {
            Some(next) => next,
            None => return Err(RatingRefusal::BadRow { row }),
        };
    }
    if !reading.is_complete() {
        return Err(RatingRefusal::BadRow {
            row: reading.next_row(),
        });
    }
    Ok(reading.into_table())
}

impl Tariffs {
    /// The tariffs of no group; takes no memory.
    pub fn new(alloc: Global) -> Tariffs
        ensures { result ≡ [] }
    {
        Tariffs {
            rows: List::new(alloc),
            table: HashMap::new(alloc),
        }
    }

    /// The tariffs that rows give. `BadRow` names the first row, counted from 1, that breaks the grammar of rows: a group row is
    /// `group,G,KIND,CHUNK,THRESHOLD,VALIDITY,HOLDING,ACTION`, a price row after it `price,G,HOUR,PU,PD,PS` with ascending hours (this product's own).
    pub fn read(alloc: Global, rows: &List<List<Text>>) -> Result<Tariffs, RatingRefusal>
        ensures { IsOrNoMemory RatingRefusal.OutOfMemory result (read_answer rows.now) }
    {
        let table = read_table(alloc, rows.as_slice())?;
        Ok(Tariffs {
            rows: copy(rows)?,
            table,
        })
    }

    /// The rows that were read, in order.
    pub fn rows(&self) -> &List<List<Text>>
        ensures rows { result.now ≡ self.now }
        ensures good { first_bad [] self.now ≡ None }
    {
        &self.rows
    }

    // The tariff of a group.
    fn tariff(&self, group: u32) -> Option<&Tariff>
        ensures { option_copied result ≡ tariff self.now group }
    {
        self.table.get(&group)
    }

    /// The terms of a rating group's quotas, `None` exactly where it has no tariff.
    pub fn terms(&self, group: u32) -> Option<Terms>
        ensures { result ≡ option_map (λ t. t.terms) (tariff self.now group) }
    {
        Some(self.tariff(group)?.terms())
    }

    /// The price, in grains (10^-12 of a currency unit), of octets up and down and of seconds of a rating group, by its prices at the first
    /// moment; 0 for an unknown group (TS 32.290, rating).
    pub fn price(&self, group: u32, up: u64, down: u64, seconds: u32, first: Moment) -> u128
        ensures { result ≡ price self.now group up down seconds first }
    {
        match self.tariff(group) {
            Some(tariff) => tariff.price(up, down, seconds, first),
            None => 0,
        }
    }

    /// The first listed hour of a rating group strictly after a moment. `None` exactly where the group is unknown, has one period, or has no
    /// such moment up to the last one (tariff time change: TS 32.291, 6.1.6.2.1.9).
    pub fn next_switch(&self, group: u32, after: Moment) -> Option<Moment>
        ensures value { result ≡ next_switch self.now group after }
        ensures first { IsFirstSwitch (is_switch self.now group) after result }
    {
        self.tariff(group)?.next_switch(after)
    }

    /// What a rating group that asks is granted out of free money, in grains: RATING_FAILED where it has no tariff,
    /// QUOTA_MANAGEMENT_NOT_APPLICABLE where it is offline, QUOTA_LIMIT_REACHED where the units are 0, and else SUCCESS (result codes:
    /// TS 32.291, 6.1.6.3.14). The units are the lesser of the chunk and the amount asked, and at a top price above 0 at most what the free
    /// money buys; what is set aside is their top price (this product's own).
    pub fn grant(&self, group: u32, free: u128, ask: &Ask) -> Grant
        ensures { result ≡ grant self.now group free ask.now }
    {
        match self.tariff(group) {
            Some(tariff) => tariff.grant(free, ask),
            None => no_quota(Code::RatingFailed),
        }
    }
}

impl Clone for Tariffs {
    ghost use Rattle.std.specs.Prelude.{◌≡◌};

    ghost is_clone = { λ a b. b ≡ a };

    fn clone(&self) -> Result<Tariffs, AllocError> {
        Ok(Tariffs {
            rows: self.rows.clone()?,
            table: self.table.clone()?,
        })
    }
}

impl PartialEq for Tariffs {
    ghost use Rattle.std.specs.Prelude.{nat_eq};
    ghost use Rattle.std.specs.Cmp.Lexicographic.{pointwise, lists_per, nat_list_eq_equiv};
    ghost use Rattle.std.specs.Cmp.{partial_equiv_from_equiv};

    ghost eq = { pointwise (pointwise (pointwise nat_eq)) };

    ghost laws = { lists_per (lists_per (partial_equiv_from_equiv nat_list_eq_equiv)) };

    fn eq(&self, other: &Tariffs) -> bool {
        self.rows == other.rows
    }
}

impl Eq for Tariffs {
    ghost use Rattle.std.specs.Cmp.Lexicographic.{lists_equiv, nat_list_eq_equiv};

    ghost laws = { lists_equiv (lists_equiv nat_list_eq_equiv) };
}

impl Plain for Tariffs {
    ghost use Rattle.std.specs.Cmp.Lexicographic.{bytes_decides, pointwise_decides};

    ghost copies = { λ a b h. h };

    ghost decides = { pointwise_decides (pointwise_decides bytes_decides) };
}
