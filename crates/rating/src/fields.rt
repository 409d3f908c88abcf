//! The fields of rows: a number in a range, and words.
ghost use Rattle.std.specs.Prelude.{◌≡◌, ◌≤◌, IfSome};
ghost use Rattle.rows.specs.Number.{number_of};
ghost use Rattle.units.specs.Words.{action_named};
ghost use Rattle.rating.specs.Row.{chunk_of, kind_of};

use crate::terms::Kind;
use rows::number;
use units::{Action, Text, action_named};

/// The number in a field, where it is a numeral of at most `most`.
pub fn small_number(most: u32, field: &Text) -> Option<u32>
    ensures value { result ≡ number_of most field.now }
    ensures range { IfSome result (λ n. n ≤ most) }
{
    Some(number(u64::from(most), field.as_str().as_bytes())? as u32)
}

/// The same of 64 bits.
pub fn large_number(most: u64, field: &Text) -> Option<u64>
    ensures value { result ≡ number_of most field.now }
    ensures range { IfSome result (λ n. n ≤ most) }
{
    number(most, field.as_str().as_bytes())
}

/// The kind that a field names.
pub fn kind(field: &Text) -> Option<Kind>
    ensures { result ≡ kind_of field.now }
{
    let word = field.as_str();
    if word == "volume" {
        Some(Kind::Volume)
    } else if word == "time" {
        Some(Kind::Time)
    } else if word == "offline" {
        Some(Kind::Offline)
    } else {
        None
    }
}

/// The action that a field names.
pub fn action(field: &Text) -> Option<Action>
    ensures { result ≡ action_named field.now }
{
    action_named(field.as_str())
}

/// The chunk in a field: at least 1, and at most what the kind allows.
pub fn chunk(kind: Kind, field: &Text) -> Option<u64>
    ensures { result ≡ chunk_of kind field.now }
{
    let most = match kind {
        Kind::Time => u64::from(u32::MAX),
        Kind::Volume | Kind::Offline => 1 << 40,
    };
    let chunk = large_number(most, field)?;
    if chunk == 0 { None } else { Some(chunk) }
}
