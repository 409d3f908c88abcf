//! Turns of a hash table alone.
use crate::draws::Draws;
use std::alloc::Global;
use std::collections::HashMap;
use units::OutOfMemory;

/// Fills a table with that many keys, then makes that many turns of a look-up, a removal and an insertion at drawn keys, and
/// sums up what was found.
pub fn table_turns(alloc: Global, keys: u64, turns: u64) -> Result<u64, OutOfMemory> {
    let mut table: HashMap<u64, u64> = HashMap::new(alloc);
    for key in 0..keys {
        table.insert(key, 1000).map_err(|_| OutOfMemory)?;
    }
    let mut draws = Draws::new(1);
    let mut sum = 0u64;
    for _ in 0..turns {
        let key = draws.next() % keys.max(1);
        if let Some(found) = table.get(&key) {
            sum = sum.wrapping_add(*found);
        }
        table.remove(&key);
        table.insert(key, 1000).map_err(|_| OutOfMemory)?;
    }
    Ok(sum)
}
