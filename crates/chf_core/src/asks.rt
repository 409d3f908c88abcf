//! Which groups ask in a request, and what.
ghost use Rattle.std.specs.Prelude.{◌≡◌, ◌++◌, ℕ, nat_eq, IfOk, OnOk};
ghost use Rattle.std.specs.HashMap.{get};
ghost use Rattle.chf_core.specs.Effect.{first_ask, asking, asks_of};

use crate::target::GroupAsk;
use std::alloc::Global;
use std::collections::{HashMap, HashSet};
use units::{Ask, OutOfMemory, UnitUsage};

// What each group asks: in its first entry that asks.
fn first_asks(alloc: Global, usage: &[UnitUsage]) -> Result<HashMap<u32, Ask>, OutOfMemory>
    ensures { IfOk result (λ m. (group : ℕ) → get nat_eq m group ≡ first_ask group usage.now) }
{
    let mut asks = HashMap::new(alloc);
    for entry in usage {
        if let Some(ask) = entry.ask {
            if !asks.contains_key(&entry.group) {
                asks.insert(entry.group, ask)?;
            }
        }
    }
    Ok(asks)
}

// One more group, where it asks.
fn push_asking(
    first: &HashMap<u32, Ask>,
    group: u32,
    asks: &mut Vec<GroupAsk>,
) -> Result<(), OutOfMemory>
    ensures { OnOk result (asks.new.items ≡ asks.old.items ++ asking group (get nat_eq first.now group)) }
{
    if let Some(ask) = first.get(&group) {
        asks.push(GroupAsk { group, ask: *ask })?;
    }
    Ok(())
}

/// The groups that ask, in the order in which they are first mentioned.
pub fn asks_of(alloc: Global, usage: &[UnitUsage]) -> Result<Vec<GroupAsk>, OutOfMemory>
    ensures { IfOk result (λ asks. asks.items ≡ asks_of usage.now) }
{
    let first = first_asks(alloc, usage)?;
    let mut mentioned = HashSet::new(alloc);
    let mut asks = Vec::new(alloc);
    for entry in usage {
        if mentioned.insert(entry.group)? {
            push_asking(&first, entry.group, &mut asks)?;
        }
    }
    Ok(asks)
}
