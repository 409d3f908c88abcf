//! Fields that are one value.
ghost use Rattle.std.specs.Prelude.{◌≡◌, option_map};
ghost use Rattle.rows.specs.Number.{number_of};
ghost use Rattle.row_fields.specs.Fields.{name_of};

use rows::{is_name, number};
use units::{Moment, Text};

/// The name that a field is.
pub fn name(field: &Text) -> Option<&Text>
    ensures { option_map (λ t. t.now) result ≡ name_of field.now }
{
    if is_name(field.as_str().as_bytes()) {
        Some(field)
    } else {
        None
    }
}

/// The number of at most `most` that a field is.
pub fn small(most: u32, field: &Text) -> Option<u32>
    ensures { result ≡ number_of most field.now }
{
    Some(number(u64::from(most), field.as_str().as_bytes())? as u32)
}

/// The moment that a field is, in seconds since 1970.
pub fn moment(field: &Text) -> Option<Moment>
    ensures { result ≡ number_of 3155759999 field.now }
{
    Moment::new(number(Moment::LAST, field.as_str().as_bytes())?)
}
