//! Reports given to a meter.
use crate::values::{long, moment, small};
use meter::{Meter, MeterRefusal, Seen};
use std::alloc::Global;
use units::{Container, OutOfMemory, Report};

fn word(answer: &Result<Seen, MeterRefusal>) -> &'static str {
    match answer {
        Ok(Seen::New) => "N",
        Ok(Seen::Known) => "K",
        Err(MeterRefusal::OutOfStep { .. }) => "E17",
        Err(MeterRefusal::MomentBack { .. }) => "E18",
        Err(MeterRefusal::TooLarge) => "E19",
        Err(MeterRefusal::TooManyGroups) => "E20",
        Err(MeterRefusal::TooManyReports) => "E33",
    }
}

// NUMBER,GROUP,UP,DOWN,SECONDS,MOMENT; the answer to that report.
fn take(alloc: Global, meter: &mut Meter, report: &str) -> Result<&'static str, OutOfMemory> {
    let fields: Vec<&str> = report.split(',').collect(alloc)?;
    match fields.as_slice() {
        [number, group, up, down, seconds, at] => {
            let report = Report {
                number: small(number),
                group: small(group),
                up: long(up),
                down: long(down),
                seconds: small(seconds),
                moment: moment(at),
            };
            meter.make_room(alloc)?;
            Ok(word(&meter.report(report)))
        }
        _ => Ok("?"),
    }
}

// GROUP,FROM,UNTIL, where UNTIL may be a hyphen: the horizon of a group of a new meter.
fn set_horizon(alloc: Global, horizon: &str) -> Result<Meter, OutOfMemory> {
    let mut meter = Meter::new(alloc);
    meter.make_room(alloc)?;
    let fields: Vec<&str> = horizon.split(',').collect(alloc)?;
    if let [group, from, until] = fields.as_slice() {
        let end = if *until == "-" {
            None
        } else {
            Some(moment(until))
        };
        meter.horizon(small(group), moment(from), end);
    }
    Ok(meter)
}

fn push_container(
    alloc: Global,
    text: &mut String,
    container: &Container,
) -> Result<(), OutOfMemory> {
    let Container {
        lsn,
        group,
        up,
        down,
        ..
    } = *container;
    let seconds = container.seconds;
    let (first, last) = (container.first.seconds(), container.last.seconds());
    let amounts = format!(in alloc; " {lsn},{group},{up},{down}")?;
    let times = format!(in alloc; ",{seconds},{first},{last}")?;
    text.push_str(amounts.as_str())?;
    text.push_str(times.as_str())?;
    Ok(())
}

/// The answers to reports of a session that begins with a horizon, or with none, and then its containers.
pub fn meter(alloc: Global, horizon: &str, reports: &str) -> Result<String, OutOfMemory> {
    let mut meter = set_horizon(alloc, horizon)?;
    let mut text = String::new(alloc);
    for report in reports.split(';') {
        text.push_str(take(alloc, &mut meter, report)?)?;
    }
    for container in meter.containers() {
        push_container(alloc, &mut text, container)?;
    }
    Ok(text)
}
