//! Events of a session, given to the machine of the charging trigger function.
use crate::charging_answers::{answer, at, trigger};
use crate::values::{long, small};
use quotas::Gate;
use smf_core::{Peer, Seen, Smf, SmfEvent, SmfRefusal, SmfSetup};
use std::alloc::Global;
use units::{Handling, List, Operation, OutOfMemory, Problem, Reply, Report, Request, Text};

// A setup; with many, a request is not due for the number of changes.
fn setup(alloc: Global, many: bool) -> Result<SmfSetup, OutOfMemory> {
    Ok(SmfSetup {
        name: Text::from_text(alloc, "smf1")?,
        failover: true,
        handling: Handling::Continue,
        retry: 30,
        held_max: if many { 1000 } else { 100 },
        changes_max: if many { 1000 } else { 20 },
        volume_limit: 0,
        time_limit: 0,
    })
}

fn problem(alloc: Global, status: u16, cause: &str) -> Result<Problem, OutOfMemory> {
    Ok(Problem {
        status,
        cause: Text::from_text(alloc, cause)?,
        detail: None,
    })
}

/// The event of a session by its words; the number of a report may be the one that is expected.
pub fn event(
    alloc: Global,
    smf: &Smf,
    session: u32,
    words: &[&str],
) -> Result<SmfEvent, OutOfMemory> {
    Ok(match words {
        ["attach", numbers] => {
            let mut groups = List::new(alloc);
            for group in numbers.split(',') {
                groups.push(small(group))?;
            }
            SmfEvent::Attach {
                session,
                subscriber: Text::from_text(alloc, "imsi-001010000000001")?,
                groups,
                moment: at(0),
            }
        }
        ["start", group, moment] => SmfEvent::Start {
            session,
            group: small(group),
            moment: at(long(moment)),
        },
        ["count", place, group, up, down, seconds, moment] => {
            let group = small(group);
            SmfEvent::Count {
                session,
                report: Report {
                    number: if *place == "+" {
                        smf.expected(session, group)
                    } else {
                        small(place)
                    },
                    group,
                    up: long(up),
                    down: long(down),
                    seconds: small(seconds),
                    moment: at(long(moment)),
                },
            }
        }
        ["change", name, moment] => SmfEvent::Change {
            session,
            trigger: trigger(name),
            moment: at(long(moment)),
        },
        ["detach", moment] => SmfEvent::Detach {
            session,
            abnormal: false,
            moment: at(long(moment)),
        },
        ["abort", moment] => SmfEvent::Detach {
            session,
            abnormal: true,
            moment: at(long(moment)),
        },
        ["ok", request, entries @ ..] => {
            let answer = answer(alloc, small(request), entries)?;
            SmfEvent::Answered {
                session,
                number: small(request),
                reply: if *request == "1" {
                    Reply::Created {
                        reference: 1,
                        answer,
                    }
                } else {
                    Reply::Updated { answer }
                },
            }
        }
        ["released", request] => SmfEvent::Answered {
            session,
            number: small(request),
            reply: Reply::Released,
        },
        ["refused", request, cause] => SmfEvent::Answered {
            session,
            number: small(request),
            reply: Reply::Refused {
                problem: problem(alloc, 404, cause)?,
            },
        },
        ["refused", request, status, cause] => SmfEvent::Answered {
            session,
            number: small(request),
            reply: Reply::Refused {
                problem: problem(alloc, u16::try_from(long(status)).unwrap_or(0), cause)?,
            },
        },
        ["attempt", peer] => SmfEvent::Attempt {
            session,
            peer: if *peer == "A" {
                Peer::Alternate
            } else {
                Peer::Primary
            },
        },
        ["notsent"] => SmfEvent::NotSent { session },
        ["noreply"] => SmfEvent::NoReply { session },
        ["restart"] => SmfEvent::Restart,
        [_, moment] => SmfEvent::Tick {
            moment: at(long(moment)),
        },
        _ => SmfEvent::Tick { moment: at(0) },
    })
}

/// The word of an answer.
pub fn word(answer: &Result<Seen, SmfRefusal>) -> &'static str {
    match answer {
        Ok(Seen::New) => "N",
        Ok(Seen::Known) => "K",
        Err(SmfRefusal::NoSession) => "E25",
        Err(SmfRefusal::SessionExists) => "E26",
        Err(SmfRefusal::TooManyGroups) => "E20",
        Err(SmfRefusal::GateClosed { .. }) => "E24",
        Err(SmfRefusal::OutOfStep { .. }) => "E17",
        Err(SmfRefusal::TooLarge) => "E19",
        Err(SmfRefusal::MomentBack { .. }) => "E18",
        Err(SmfRefusal::TooManyReports) => "E33",
        Err(SmfRefusal::OutOfMemory) => "M",
    }
}

/// Takes an event by a plan.
pub fn taken(alloc: Global, smf: &mut Smf, event: &SmfEvent) -> Result<Seen, SmfRefusal> {
    let plan = smf.plan(alloc, event)?;
    let seen = Smf::seen(&plan);
    let committed = smf.commit(plan);
    if seen == committed {
        Ok(seen)
    } else {
        Err(SmfRefusal::OutOfMemory)
    }
}

fn show_request(alloc: Global, request: &Request, text: &mut String) -> Result<(), OutOfMemory> {
    text.push_str(match request.operation {
        Operation::Create => "C",
        Operation::Update(_) => "U",
        Operation::Release(_) => "R",
    })?;
    let number = request.number;
    text.push_str(format!(in alloc; "{number}")?.as_str())?;
    for entry in request.usage.as_slice() {
        let group = entry.group;
        let ask = if entry.ask.is_some() { "?" } else { ":" };
        let used = entry.used.len();
        text.push_str(format!(in alloc; " {group}{ask}{used}")?.as_str())?;
    }
    if !request.triggers.is_empty() {
        text.push_str(" !")?;
    }
    Ok(())
}

/// The word of a gate.
pub fn word_of(gate: Gate) -> &'static str {
    match gate {
        Gate::Passing => "passing",
        Gate::Waiting => "waiting",
        Gate::Closed => "closed",
        Gate::Redirect => "redirect",
        Gate::Restrict => "restrict",
    }
}

// The unanswered request with its rating groups (`?` where it asks, and how many containers), how many containers there are and are held, and the gate of group 10.
fn show(alloc: Global, smf: &Smf, text: &mut String) -> Result<(), OutOfMemory> {
    match smf.request(7) {
        None => text.push_str("-")?,
        Some(request) => show_request(alloc, request, text)?,
    }
    let all = smf.containers(7).len();
    let held = smf.held(7).len();
    text.push_str(format!(in alloc; " c{all} h{held} ")?.as_str())?;
    text.push_str(word_of(smf.gate(7, 10)))?;
    Ok(())
}

/// Takes the event of a session that these words say.
pub fn take_words(
    alloc: Global,
    smf: &mut Smf,
    session: u32,
    words: &[&str],
) -> Result<&'static str, OutOfMemory> {
    let event = event(alloc, smf, session, words)?;
    Ok(word(&taken(alloc, smf, &event)))
}

/// Takes so many reports of group 10, each in a container that a change closes.
pub fn fill(
    alloc: Global,
    smf: &mut Smf,
    session: u32,
    count: &str,
    moment: &str,
) -> Result<(), OutOfMemory> {
    for _ in 0..small(count) {
        let report = ["count", "+", "10", "1", "1", "1", moment];
        take_words(alloc, smf, session, &report)?;
        take_words(alloc, smf, session, &["change", "QOS", moment])?;
    }
    Ok(())
}

/// What comes of a row of events of session 7: the answers, and what is seen at the end. With many, a request is not due for the number of changes.
/// A word `fill` makes so many containers of group 10, each closed by a change.
pub fn events(alloc: Global, many: bool, row: &str) -> Result<String, OutOfMemory> {
    let mut smf = Smf::new(alloc, &setup(alloc, many)?)?;
    let mut text = String::new(alloc);
    for part in row.split(';') {
        let words: Vec<&str> = part.split_whitespace().collect(alloc)?;
        if let ["fill", count, moment] = words.as_slice() {
            fill(alloc, &mut smf, 7, count, moment)?;
        } else {
            text.push_str(take_words(alloc, &mut smf, 7, &words)?)?;
        }
    }
    text.push_str(" ")?;
    show(alloc, &smf, &mut text)?;
    Ok(text)
}
