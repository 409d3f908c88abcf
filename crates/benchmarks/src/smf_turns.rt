//! Turns of reports of many sessions through the SMF's machine.
use crate::draws::Draws;
use meter::Meter;
use smf_core::{Smf, SmfEvent, SmfRefusal, SmfSetup};
use std::alloc::Global;
use std::io;
use std::time::Instant;
use units::{
    Amount, Answer, Code, Handling, List, Moment, Operation, OutOfMemory, Reply, Report, Text,
    TriggerType, UnitInfo,
};

const ATTACHED: u32 = 1_767_323_045;

fn setup(alloc: Global) -> Result<SmfSetup, OutOfMemory> {
    Ok(SmfSetup {
        name: Text::from_text(alloc, "smf1")?,
        failover: true,
        handling: Handling::Continue,
        retry: 30,
        held_max: 1000,
        changes_max: 1000,
        volume_limit: 0,
        time_limit: 0,
    })
}

fn at(seconds: u64) -> Moment {
    Moment::first()
        .plus(ATTACHED)
        .plus(u32::try_from(seconds).unwrap_or(u32::MAX))
}

// A step of the machine, where its event is not refused.
fn step(alloc: Global, smf: &mut Smf, event: &SmfEvent) -> Result<(), OutOfMemory> {
    match smf.plan(alloc, event) {
        Ok(plan) => {
            smf.commit(plan);
            Ok(())
        }
        Err(SmfRefusal::OutOfMemory) => Err(OutOfMemory),
        Err(_) => Ok(()),
    }
}

fn attach(alloc: Global, smf: &mut Smf, session: u32) -> Result<(), OutOfMemory> {
    let mut groups = List::new(alloc);
    groups.push(10)?;
    let event = SmfEvent::Attach {
        session,
        subscriber: Text::from_text(alloc, "imsi-001010000000001")?,
        groups,
        moment: at(0),
    };
    step(alloc, smf, &event)
}

// 1,000,000 octets with a threshold of 100,000.
fn answer_to(alloc: Global, number: u32) -> Result<Answer, OutOfMemory> {
    let mut units = List::new(alloc);
    units.push(UnitInfo {
        group: 10,
        code: Code::Success,
        grant: Some(Amount::Volume(1_000_000)),
        switch: None,
        validity: None,
        holding: None,
        volume_threshold: Some(100_000),
        time_threshold: None,
        last_units: None,
        triggers: List::new(alloc),
    })?;
    Ok(Answer {
        number,
        stamp: at(0),
        failover: None,
        handling: None,
        triggers: List::new(alloc),
        units,
    })
}

// A CHF's answer to the unanswered request of a session, if there is one.
fn answer(alloc: Global, smf: &mut Smf, session: u32) -> Result<(), OutOfMemory> {
    let Some(request) = smf.request(session) else {
        return Ok(());
    };
    let number = request.number;
    let is_first = matches!(request.operation, Operation::Create);
    let answer = answer_to(alloc, number)?;
    let reply = if is_first {
        Reply::Created {
            reference: session,
            answer,
        }
    } else {
        Reply::Updated { answer }
    };
    let event = SmfEvent::Answered {
        session,
        number,
        reply,
    };
    step(alloc, smf, &event)
}

// One report in five uses up what was granted.
fn octets(draw: u64) -> u64 {
    if draw % 5 == 0 { 950_000 } else { 100 }
}

fn report(number: u32, octets: u64, turn: u64) -> Report {
    Report {
        number,
        group: 10,
        up: octets,
        down: 0,
        seconds: 1,
        moment: at(turn),
    }
}

// A machine with that many sessions, each with a grant.
fn attached(alloc: Global, sessions: u32) -> Result<Smf, OutOfMemory> {
    let mut smf = Smf::new(alloc, &setup(alloc)?)?;
    for session in 0..sessions {
        attach(alloc, &mut smf, session)?;
        answer(alloc, &mut smf, session)?;
    }
    Ok(smf)
}

// That many reports at drawn sessions, each request answered at once.
fn reports(
    alloc: Global,
    smf: &mut Smf,
    draws: &mut Draws,
    sessions: u32,
    from: u64,
    count: u64,
) -> Result<(), OutOfMemory> {
    for turn in 0..count {
        let session = (draws.next() % u64::from(sessions.max(1))) as u32;
        let number = smf.expected(session, 10);
        let report = report(
            number,
            octets(draws.next()),
            from.saturating_add(turn) / 1000,
        );
        step(alloc, smf, &SmfEvent::Count { session, report })?;
        answer(alloc, smf, session)?;
    }
    Ok(())
}

fn small(number: u64) -> u32 {
    u32::try_from(number).unwrap_or(0)
}

/// Makes that many reports over that many sessions, and counts the containers.
pub fn smf_turns(alloc: Global, sessions: u64, turns: u64) -> Result<u64, OutOfMemory> {
    let sessions = small(sessions);
    let mut smf = attached(alloc, sessions)?;
    let mut draws = Draws::new(1);
    reports(alloc, &mut smf, &mut draws, sessions, 0, turns)?;
    let mut containers = 0u64;
    for session in 0..sessions {
        containers = containers.wrapping_add(smf.containers(session).len() as u64);
    }
    Ok(containers)
}

/// The nanoseconds of the first thousand of that many reports, of all, and of the last thousand.
pub fn smf_times(rt: &HostRuntime, sessions: u64, turns: u64) -> io::Result<Option<[u128; 3]>> {
    let alloc = rt.alloc();
    let sessions = small(sessions);
    let Ok(mut smf) = attached(alloc, sessions) else {
        return Ok(None);
    };
    let mut draws = Draws::new(1);
    let begun = Instant::now(rt)?;
    if reports(alloc, &mut smf, &mut draws, sessions, 0, 1000).is_err() {
        return Ok(None);
    }
    let first = begun.elapsed(rt)?;
    if reports(
        alloc,
        &mut smf,
        &mut draws,
        sessions,
        1000,
        turns.saturating_sub(2000),
    )
    .is_err()
    {
        return Ok(None);
    }
    let last = Instant::now(rt)?;
    if reports(alloc, &mut smf, &mut draws, sessions, turns, 1000).is_err() {
        return Ok(None);
    }
    let end = last.elapsed(rt)?;
    let all = begun.elapsed(rt)?;
    Ok(Some([first.as_nanos(), all.as_nanos(), end.as_nanos()]))
}

// That many ticks, each a second after the one before.
fn ticks(alloc: Global, smf: &mut Smf, count: u64) -> Result<(), OutOfMemory> {
    for second in 0..count {
        step(alloc, smf, &SmfEvent::Tick { moment: at(second) })?;
    }
    Ok(())
}

/// The nanoseconds of that many ticks over that many sessions in which nothing is due.
pub fn tick_time(rt: &HostRuntime, sessions: u64, count: u64) -> io::Result<Option<u128>> {
    let alloc = rt.alloc();
    let Ok(mut smf) = attached(alloc, small(sessions)) else {
        return Ok(None);
    };
    let begun = Instant::now(rt)?;
    if ticks(alloc, &mut smf, count).is_err() {
        return Ok(None);
    }
    let all = begun.elapsed(rt)?;
    Ok(Some(all.as_nanos()))
}

// A meter for each session.
fn meters(alloc: Global, sessions: u32) -> Result<Vec<Meter>, OutOfMemory> {
    let mut meters = Vec::new(alloc);
    for _ in 0..sessions {
        meters.push(Meter::new(alloc))?;
    }
    Ok(meters)
}

/// The same reports to bare meters, each container closed where it uses up what was granted: what of it no machine spares.
pub fn meter_turns(alloc: Global, sessions: u64, turns: u64) -> Result<u64, OutOfMemory> {
    let sessions = small(sessions);
    let mut meters = meters(alloc, sessions)?;
    let mut draws = Draws::new(1);
    for turn in 0..turns {
        let session = (draws.next() % u64::from(sessions.max(1))) as usize;
        let octets = octets(draws.next());
        if session >= meters.len() {
            continue;
        }
        let meter = &mut meters[session];
        meter.make_room(alloc)?;
        let number = meter.expected(10);
        let _ = meter.report(report(number, octets, turn / 1000));
        if octets > 900_000 {
            let _ = meter.close(10, TriggerType::QuotaThreshold, at(turn / 1000));
        }
    }
    let mut containers = 0u64;
    for meter in &meters {
        containers = containers.wrapping_add(meter.containers().len() as u64);
    }
    Ok(containers)
}
