//! Which counters are watched, by their places.
ghost use Rattle.std.specs.Prelude.{◌≡◌, ◌≤◌, ◌<◌, ◌++◌, ◌∷◌, [], ℕ, length, false, OnOk, slice_index_or};
ghost use Rattle.counters.specs.Names.{AreAscending};
ghost use Rattle.counters.specs.Watching.{is_watched};

use crate::search::search;
use std::alloc::Global;
use units::{CounterStatus, List, OutOfMemory, Text};

/// Whether the counter at each place is watched, where some are named; none named means all.
pub fn watched(names: &[Text], named: &[Text]) -> [bool; 100]
    requires ascending { AreAscending names.now }
    requires few { length names.now ≤ 100 }
    ensures { (k : ℕ) → k < length names.now → slice_index_or result k false ≡ is_watched named.now (slice_index_or names.now k []) }
{
    let mut flags = [named.is_empty(); 100];
    for name in named {
        if let Ok(at) = search(names, name.as_str()) {
            flags[at] = true;
        }
    }
    flags
}

/// Adds a counter with its status.
pub fn push_status(
    alloc: Global,
    infos: &mut List<CounterStatus>,
    counter: &str,
    status: &str,
) -> Result<(), OutOfMemory>
    ensures { OnOk result (infos.new ≡ infos.old ++ record { counter = counter.now; status = status.now } ∷ []) }
{
    infos.push(CounterStatus {
        counter: Text::from_text(alloc, counter)?,
        status: Text::from_text(alloc, status)?,
    })?;
    Ok(())
}
