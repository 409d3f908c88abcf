//! One row of a table of policy counters.
ghost use Rattle.std.specs.Prelude.{◌≡◌, IfOk};
ghost use Rattle.counters.specs.Row.{counter_row, limit_row};

use rows::{is_name, wide_number};
use std::alloc::Global;
use units::{OutOfMemory, Plain, Text, copy};

/// A limit of a policy counter: from this amount on, in grains, it has this status.
#[derive(Clone, PartialEq, Eq, Debug, Drop)]
pub struct Limit {
    pub amount: u128,
    pub status: Text,
}

impl Plain for Limit {
    ghost use Rattle.std.proofs.Common.{rules};

    ghost copies = { Prim.search rules };

    ghost decides = { Prim.search rules };
}

/// A row of a table of policy counters.
#[derive(Debug, Drop)]
pub struct CounterRow {
    pub counter: Text,
    pub limit: Limit,
}

fn limit_row(
    counter: &Text,
    amount: &Text,
    status: &Text,
) -> Result<Option<CounterRow>, OutOfMemory>
    ensures { IfOk result (λ row. row ≡ limit_row counter.now amount.now status.now) }
{
    if !is_name(counter.as_str().as_bytes()) || !is_name(status.as_str().as_bytes()) {
        return Ok(None);
    }
    match wide_number(u128::MAX, amount.as_str().as_bytes()) {
        Some(amount) => Ok(Some(CounterRow {
            counter: copy(counter)?,
            limit: Limit {
                amount,
                status: copy(status)?,
            },
        })),
        None => Ok(None),
    }
}

/// The row of a counter that these fields are, if they are one.
pub fn counter_row(fields: &[Text]) -> Result<Option<CounterRow>, OutOfMemory>
    ensures { IfOk result (λ row. row ≡ counter_row fields.now) }
{
    match fields {
        [word, counter, amount, status] if word.as_str() == "counter" => {
            limit_row(counter, amount, status)
        }
        _ => Ok(None),
    }
}
