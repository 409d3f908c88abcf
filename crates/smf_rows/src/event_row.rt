//! The events that rows give.
ghost use Rattle.std.specs.Prelude.{◌≡◌, IfOk};
ghost use Rattle.smf_rows.specs.EventRow.{attach_of, change_named, change_of, detach_of, event_in, event_of, is_change, report_of, report_with, small_of, start_of, tick_of};

use crate::new_groups::new_groups;
use row_fields::{moment, name, row_size, small};
use rows::number;
use smf_model::SmfEvent;
use std::alloc::Global;
use units::{OutOfMemory, Report, Text, TriggerType, copy, type_named};

fn number_in(field: &Text) -> Option<u32>
    ensures { result ≡ small_of field.now }
{
    small(u32::MAX, field)
}

fn attach(alloc: Global, fields: &[Text]) -> Result<Option<SmfEvent>, OutOfMemory>
    ensures { IfOk result (λ o. o ≡ attach_of fields.now) }
{
    let [session, supi, when, groups] = fields else {
        return Ok(None);
    };
    let (Some(session), Some(supi), Some(moment)) = (number_in(session), name(supi), moment(when))
    else {
        return Ok(None);
    };
    match new_groups(alloc, groups)? {
        Some(groups) => Ok(Some(SmfEvent::Attach {
            session,
            subscriber: copy(supi)?,
            groups,
            moment,
        })),
        None => Ok(None),
    }
}

fn start(fields: &[Text]) -> Option<SmfEvent>
    ensures { result ≡ start_of fields.now }
{
    match fields {
        [session, group, when] => Some(SmfEvent::Start {
            session: number_in(session)?,
            group: number_in(group)?,
            moment: moment(when)?,
        }),
        _ => None,
    }
}

fn report_with(
    group: &Text,
    place: &Text,
    up: &Text,
    down: &Text,
    seconds: &Text,
    when: &Text,
) -> Option<Report>
    ensures { result ≡ report_with group.now place.now up.now down.now seconds.now when.now }
{
    let group = number_in(group)?;
    let place = number_in(place)?;
    let up = number(u64::MAX, up.as_str().as_bytes())?;
    let down = number(u64::MAX, down.as_str().as_bytes())?;
    let seconds = number_in(seconds)?;
    let moment = moment(when)?;
    Some(Report {
        number: place,
        group,
        up,
        down,
        seconds,
        moment,
    })
}

fn report(fields: &[Text]) -> Option<SmfEvent>
    ensures { result ≡ report_of fields.now }
{
    match fields {
        [session, group, place, up, down, seconds, when] => Some(SmfEvent::Count {
            session: number_in(session)?,
            report: report_with(group, place, up, down, seconds, when)?,
        }),
        _ => None,
    }
}

// Whether a type is one of a change of charging conditions.
fn is_change(trigger: TriggerType) -> bool
    ensures { result ≡ is_change trigger }
{
    matches!(
        trigger,
        TriggerType::ForcedReauthorisation
            | TriggerType::QosChange
            | TriggerType::RatChange
            | TriggerType::PlmnChange
            | TriggerType::UserLocationChange
            | TriggerType::UeTimezoneChange
            | TriggerType::SessionAmbrChange
            | TriggerType::ServingNodeChange
            | TriggerType::ManagementIntervention
    )
}

fn change_named(field: &Text) -> Option<TriggerType>
    ensures { result ≡ change_named field.now }
{
    let trigger = type_named(field.as_str())?;
    if is_change(trigger) {
        Some(trigger)
    } else {
        None
    }
}

fn change(fields: &[Text]) -> Option<SmfEvent>
    ensures { result ≡ change_of fields.now }
{
    match fields {
        [session, kind, when] => Some(SmfEvent::Change {
            session: number_in(session)?,
            trigger: change_named(kind)?,
            moment: moment(when)?,
        }),
        _ => None,
    }
}

fn tick(fields: &[Text]) -> Option<SmfEvent>
    ensures { result ≡ tick_of fields.now }
{
    match fields {
        [when] => Some(SmfEvent::Tick {
            moment: moment(when)?,
        }),
        _ => None,
    }
}

fn detach(abnormal: bool, fields: &[Text]) -> Option<SmfEvent>
    ensures { result ≡ detach_of abnormal fields.now }
{
    match fields {
        [session, when] => Some(SmfEvent::Detach {
            session: number_in(session)?,
            abnormal,
            moment: moment(when)?,
        }),
        _ => None,
    }
}

fn event_in(alloc: Global, fields: &[Text]) -> Result<Option<SmfEvent>, OutOfMemory>
    ensures { IfOk result (λ o. o ≡ event_in fields.now) }
{
    match fields {
        [word, rest @ ..] if word.as_str() == "attach" => attach(alloc, rest),
        [word, rest @ ..] if word.as_str() == "start" => Ok(start(rest)),
        [word, rest @ ..] if word.as_str() == "report" => Ok(report(rest)),
        [word, rest @ ..] if word.as_str() == "change" => Ok(change(rest)),
        [word, rest @ ..] if word.as_str() == "tick" => Ok(tick(rest)),
        [word, rest @ ..] if word.as_str() == "detach" => Ok(detach(false, rest)),
        [word, rest @ ..] if word.as_str() == "abort" => Ok(detach(true, rest)),
        _ => Ok(None),
    }
}

/// The most bytes of a row, with a line feed.
const MOST_BYTES: usize = 1_048_577;

/// The event that a row gives, `None` exactly where it is none (TS 32.255, 5.2.1).
pub fn read_event_row(alloc: Global, fields: &[Text]) -> Result<Option<SmfEvent>, OutOfMemory>
    ensures { IfOk result (λ o. o ≡ event_of fields.now) }
{
    if row_size(fields) <= MOST_BYTES {
        event_in(alloc, fields)
    } else {
        Ok(None)
    }
}
