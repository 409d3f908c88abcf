//! Payloads that are the rows of events, written.
ghost use Rattle.std.specs.Prelude.{◌≡◌, ◌++◌, OnOk};
ghost use Rattle.smf_payloads.specs.Written.{detach_word, event_payload};

use row_texts::{push_field, push_groups, push_number, push_numbers};
use smf_model::SmfEvent;
use units::{Moment, OutOfMemory, Report, Text, TriggerType, name_of_type};

/// The row of a PDU session that begins.
pub fn push_attach(
    session: u32,
    subscriber: &Text,
    groups: &[u32],
    moment: Moment,
    out: &mut Vec<u8>,
) -> Result<(), OutOfMemory>
    ensures { OnOk result (out.new.items ≡ out.old.items ++ event_payload (SmfEvent.Attach session subscriber.now groups.now moment)) }
{
    out.extend_from_slice(b"eattach")?;
    push_number(u64::from(session), out)?;
    push_field(subscriber.as_str(), out)?;
    push_number(moment.seconds(), out)?;
    push_groups(groups, out)
}

/// The row of traffic that begins.
pub fn push_start(
    session: u32,
    group: u32,
    moment: Moment,
    out: &mut Vec<u8>,
) -> Result<(), OutOfMemory>
    ensures { OnOk result (out.new.items ≡ out.old.items ++ event_payload (SmfEvent.Start session group moment)) }
{
    out.extend_from_slice(b"estart")?;
    push_numbers(
        &[u64::from(session), u64::from(group), moment.seconds()],
        out,
    )
}

/// The row of a usage report.
pub fn push_report(session: u32, report: &Report, out: &mut Vec<u8>) -> Result<(), OutOfMemory>
    ensures { OnOk result (out.new.items ≡ out.old.items ++ event_payload (SmfEvent.Count session report.now)) }
{
    out.extend_from_slice(b"ereport")?;
    push_numbers(
        &[
            u64::from(session),
            u64::from(report.group),
            u64::from(report.number),
            report.up,
            report.down,
            u64::from(report.seconds),
            report.moment.seconds(),
        ],
        out,
    )
}

/// The row of a change of charging conditions.
pub fn push_change(
    session: u32,
    trigger: TriggerType,
    moment: Moment,
    out: &mut Vec<u8>,
) -> Result<(), OutOfMemory>
    ensures { OnOk result (out.new.items ≡ out.old.items ++ event_payload (SmfEvent.Change session trigger moment)) }
{
    out.extend_from_slice(b"echange")?;
    push_number(u64::from(session), out)?;
    push_field(name_of_type(trigger), out)?;
    push_number(moment.seconds(), out)
}

/// The row of time that passes.
pub fn push_tick(moment: Moment, out: &mut Vec<u8>) -> Result<(), OutOfMemory>
    ensures { OnOk result (out.new.items ≡ out.old.items ++ event_payload (SmfEvent.Tick moment)) }
{
    out.extend_from_slice(b"etick")?;
    push_number(moment.seconds(), out)
}

fn detach_word(abnormal: bool) -> &'static [u8]
    ensures { result.now ≡ detach_word abnormal }
{
    if abnormal { b"abort" } else { b"detach" }
}

/// The row of a PDU session that ends.
pub fn push_detach(
    session: u32,
    abnormal: bool,
    moment: Moment,
    out: &mut Vec<u8>,
) -> Result<(), OutOfMemory>
    ensures { OnOk result (out.new.items ≡ out.old.items ++ event_payload (SmfEvent.Detach session abnormal moment)) }
{
    out.extend_from_slice(b"e")?;
    out.extend_from_slice(detach_word(abnormal))?;
    push_number(u64::from(session), out)?;
    push_number(moment.seconds(), out)
}
