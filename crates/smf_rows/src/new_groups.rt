//! Rating groups that differ.
ghost use Rattle.std.specs.Prelude.{◌≡◌, [], IfOk};
ghost use Rattle.smf_rows.specs.EventRow.{differ_after, new_groups};

use row_fields::groups;
use std::alloc::Global;
use std::collections::HashSet;
use units::{List, OutOfMemory, Text};

// Whether no group stands there twice.
fn differ(alloc: Global, groups: &[u32]) -> Result<bool, OutOfMemory>
    ensures { IfOk result (λ b. b ≡ differ_after [] groups.now) }
{
    let mut seen = HashSet::new(alloc);
    for group in groups {
        if !seen.insert(*group)? {
            return Ok(false);
        }
    }
    Ok(true)
}

/// The rating groups of a field, where they differ.
pub fn new_groups(alloc: Global, field: &Text) -> Result<Option<List<u32>>, OutOfMemory>
    ensures { IfOk result (λ o. o ≡ new_groups field.now) }
{
    let Some(groups) = groups(alloc, field.as_str().as_bytes())? else {
        return Ok(None);
    };
    if differ(alloc, groups.as_slice())? {
        Ok(Some(groups))
    } else {
        Ok(None)
    }
}
