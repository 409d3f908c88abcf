//! How many bytes a row has.
ghost use Rattle.std.specs.Prelude.{◌≡◌, ◌-◌, ◌^◌, min};
ghost use Rattle.row_fields.specs.Fields.{row_size};

use units::Text;

/// The bytes of a row: each field and the comma or line feed after it.
pub fn row_size(fields: &[Text]) -> usize
    ensures { result ≡ min (row_size fields.now) (2 ^ 64 - 1) }
{
    let mut size = 0usize;
    for field in fields {
        size = size.saturating_add(field.len()).saturating_add(1);
    }
    size
}
