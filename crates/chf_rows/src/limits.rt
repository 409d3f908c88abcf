//! The limits row of a setup.
ghost use Rattle.std.specs.Prelude.{◌≡◌, ◌≤◌, ◌<◌, ◌^◌, IfOk, length, option_map};
ghost use Rattle.chf_rows.specs.Setup.{bounds_of, is_limits_row, limits_by, limits_of, limits_place, limits_row, limits_with};

use records::RecordLimits;
use row_fields::{name, small};
use rows::number;
use units::{List, OutOfMemory, Text, copy, failover_named};

/// What a limits row says.
#[derive(Clone, PartialEq, Eq, Debug, Drop)]
pub struct Limits {
    pub records: RecordLimits,
    pub grace: u32,
    pub failover: bool,
}

// The numbers and the word of a limits row.
#[derive(Clone, Copy, Debug)]
struct Bounds {
    volume: u64,
    seconds: u32,
    changes: u32,
    containers: u32,
    grace: u32,
    failover: bool,
}

// The numbers and the word of a limits row.
fn bounds_of(
    volume: &Text,
    seconds: &Text,
    changes: &Text,
    containers: &Text,
    grace: &Text,
    word: &Text,
) -> Option<Bounds>
    ensures { result ≡ bounds_of volume.now seconds.now changes.now containers.now grace.now word.now }
{
    let volume = number(u64::MAX, volume.as_str().as_bytes())?;
    let seconds = small(u32::MAX, seconds)?;
    let changes = small(u32::MAX, changes)?;
    let containers = small(u32::MAX, containers)?;
    let grace = small(604_800, grace)?;
    let failover = failover_named(word.as_str())?;
    Some(Bounds {
        volume,
        seconds,
        changes,
        containers,
        grace,
        failover,
    })
}

// The limits with these bounds, of a function with a name.
fn limits_with(bounds: Bounds, function: &Text) -> Result<Limits, OutOfMemory>
    ensures { IfOk result (λ l. l ≡ limits_with bounds function.now) }
{
    Ok(Limits {
        records: RecordLimits {
            volume: bounds.volume,
            seconds: bounds.seconds,
            changes: bounds.changes,
            containers: bounds.containers,
            function: copy(function)?,
        },
        grace: bounds.grace,
        failover: bounds.failover,
    })
}

// The same, where there are bounds and a name.
fn limits_by(bounds: Option<Bounds>, function: Option<&Text>) -> Result<Option<Limits>, OutOfMemory>
    ensures { IfOk result (λ o. o ≡ limits_by bounds (option_map (λ t. t.now) function.entry)) }
{
    match (bounds, function) {
        (Some(bounds), Some(function)) => Ok(Some(limits_with(bounds, function)?)),
        _ => Ok(None),
    }
}

fn limits_of(fields: &[Text]) -> Result<Option<Limits>, OutOfMemory>
    ensures { IfOk result (λ o. o ≡ limits_of fields.now) }
{
    match fields {
        [volume, seconds, changes, containers, grace, function, word] => limits_by(
            bounds_of(volume, seconds, changes, containers, grace, word),
            name(function),
        ),
        _ => Ok(None),
    }
}

/// The limits that a row gives, whatever its word.
pub fn limits_row(fields: &[Text]) -> Result<Option<Limits>, OutOfMemory>
    ensures { IfOk result (λ o. o ≡ limits_row fields.now) }
{
    match fields {
        [_, rest @ ..] => limits_of(rest),
        [] => Ok(None),
    }
}

fn is_limits_row(fields: &[Text]) -> bool
    ensures { result ≡ is_limits_row fields.now }
{
    match fields {
        [word, ..] => word.as_str() == "limits",
        [] => false,
    }
}

/// How many rows stand before the first limits row.
pub fn limits_place(rows: &[List<Text>]) -> usize
    ensures value { result ≡ limits_place rows.now }
    ensures within { result ≤ length rows.now }
    ensures small { result < 2 ^ 63 }
{
    let mut place = 0;
    for row in rows {
        if is_limits_row(row.as_slice()) {
            return place;
        }
        place += 1;
    }
    place
}
