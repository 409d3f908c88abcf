//! The row that sets a charging trigger function up.
ghost use Rattle.std.specs.Prelude.{◌≡◌, IfOk, option_map};
ghost use Rattle.smf_rows.specs.SetupRow.{count_of, defaults_in, defaults_of, setup_by, setup_in, setup_of, setup_with, worded};

use row_fields::{name, row_size, small};
use rows::number;
use smf_model::SmfSetup;
use units::{Handling, OutOfMemory, Text, copy, failover_named, handling_named};

// What follows the name in a row.
#[derive(Clone, Copy, Debug)]
struct Defaults {
    failover: bool,
    handling: Handling,
    retry: u32,
    held_max: u32,
    changes_max: u32,
    volume_limit: u64,
    time_limit: u32,
}

fn count(most: u32, field: &Text) -> Option<u32>
    ensures { result ≡ count_of most field.now }
{
    let count = small(most, field)?;
    if count > 0 { Some(count) } else { None }
}

fn defaults_of(
    failover: &Text,
    handling: &Text,
    retry: &Text,
    held: &Text,
    changes: &Text,
    volume: &Text,
    time: &Text,
) -> Option<Defaults>
    ensures { result ≡ defaults_of failover.now handling.now retry.now held.now changes.now volume.now time.now }
{
    let failover = failover_named(failover.as_str())?;
    let handling = handling_named(handling.as_str())?;
    let retry = count(86_400, retry)?;
    let held_max = count(1000, held)?;
    let changes_max = count(held_max, changes)?;
    let volume_limit = number(u64::MAX, volume.as_str().as_bytes())?;
    let time_limit = small(u32::MAX, time)?;
    Some(Defaults {
        failover,
        handling,
        retry,
        held_max,
        changes_max,
        volume_limit,
        time_limit,
    })
}

fn setup_with(d: Defaults, name: &Text) -> Result<SmfSetup, OutOfMemory>
    ensures { IfOk result (λ s. s ≡ setup_with d name.now) }
{
    Ok(SmfSetup {
        name: copy(name)?,
        failover: d.failover,
        handling: d.handling,
        retry: d.retry,
        held_max: d.held_max,
        changes_max: d.changes_max,
        volume_limit: d.volume_limit,
        time_limit: d.time_limit,
    })
}

fn setup_by(
    defaults: Option<Defaults>,
    name: Option<&Text>,
) -> Result<Option<SmfSetup>, OutOfMemory>
    ensures { IfOk result (λ o. o ≡ setup_by defaults (option_map (λ t. t.now) name.entry)) }
{
    match (defaults, name) {
        (Some(defaults), Some(name)) => Ok(Some(setup_with(defaults, name)?)),
        _ => Ok(None),
    }
}

fn defaults_in(fields: &[Text]) -> Option<Defaults>
    ensures { result ≡ defaults_in fields.now }
{
    match fields {
        [failover, handling, retry, held, changes, volume, time] => {
            defaults_of(failover, handling, retry, held, changes, volume, time)
        }
        _ => None,
    }
}

fn setup_in(fields: &[Text]) -> Result<Option<SmfSetup>, OutOfMemory>
    ensures { IfOk result (λ o. o ≡ setup_in fields.now) }
{
    match fields {
        [function, rest @ ..] => setup_by(defaults_in(rest), name(function)),
        [] => Ok(None),
    }
}

fn worded(fields: &[Text]) -> Result<Option<SmfSetup>, OutOfMemory>
    ensures { IfOk result (λ o. o ≡ worded fields.now) }
{
    match fields {
        [word, rest @ ..] if word.as_str() == "smf" => setup_in(rest),
        _ => Ok(None),
    }
}

/// The most bytes of the row, with a line feed.
const MOST_BYTES: usize = 65_536;

/// The setup that a row gives, `None` exactly where it is none.
pub fn read_smf_row(fields: &[Text]) -> Result<Option<SmfSetup>, OutOfMemory>
    ensures { IfOk result (λ o. o ≡ setup_of fields.now) }
{
    if row_size(fields) <= MOST_BYTES {
        worded(fields)
    } else {
        Ok(None)
    }
}
