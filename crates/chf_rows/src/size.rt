//! With which row rows have too many bytes.
ghost use Rattle.std.specs.Prelude.{◌≡◌, ◌<◌, ◌^◌};
ghost use Rattle.chf_rows.specs.Size.{first_past};

use row_fields::row_size;
use units::{List, Text};

/// The number of the first row, from 1, with which rows have more bytes than that.
pub fn first_past(most: usize, rows: &[List<Text>]) -> Option<usize>
    requires { most < 2 ^ 32 }
    ensures { result ≡ first_past most 1 rows.now }
{
    let mut room = most;
    let mut number = 1;
    for row in rows {
        let size = row_size(row.as_slice());
        if size > room {
            return Some(number);
        }
        room -= size;
        number += 1;
    }
    None
}
