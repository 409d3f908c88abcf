//! Lists of rating groups.
ghost use Rattle.std.specs.Prelude.{◌≡◌, IfOk};
ghost use Rattle.rows.specs.Pieces.{pieces};
ghost use Rattle.row_fields.specs.Fields.{groups_in, groups_of};

use rows::{number, piece_length};
use std::alloc::Global;
use units::{List, OutOfMemory};

// The rating groups that are the pieces between single spaces.
fn groups_in(alloc: Global, field: &[u8]) -> Result<Option<List<u32>>, OutOfMemory>
    ensures { IfOk result (λ o. o ≡ groups_in (pieces 32 field.now)) }
{
    let mut groups = List::new(alloc);
    let mut rest = field;
    loop {
        let count = piece_length(b' ', rest);
        let Some(group) = number(u64::from(u32::MAX), &rest[..count]) else {
            return Ok(None);
        };
        groups.push(group as u32)?;
        if count >= rest.len() {
            return Ok(Some(groups));
        }
        rest = &rest[count + 1..];
    }
}

/// The rating groups of a field: numbers separated by single spaces, or none.
pub fn groups(alloc: Global, field: &[u8]) -> Result<Option<List<u32>>, OutOfMemory>
    ensures { IfOk result (λ o. o ≡ groups_of field.now) }
{
    match field {
        [] => Ok(Some(List::new(alloc))),
        _ => groups_in(alloc, field),
    }
}
