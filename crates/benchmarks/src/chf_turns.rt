//! Turns of charging data requests of many sessions through the CHF's machine.
ghost use Rattle.std.specs.Prelude.{◌≡◌, ◌==◌, false, IfOk, IfSome};
ghost use Rattle.chf_core.specs.After.{is_setup};

use crate::draws::Draws;
use chf_core::{Chf, ChfSetup, Command, Decision};
use chf_rows::read_setup;
use std::alloc::Global;
use std::io;
use std::time::Instant;
use units::{Ask, List, Moment, Operation, OutOfMemory, Request, Text, UnitUsage, Used};

const SETUP: [&str; 4] = [
    "group,10,volume,1000000,100000,3600,0,TERMINATE",
    "price,10,8,1,2,0",
    "price,10,20,1,1,0",
    "limits,0,0,0,0,60,chf1,FAILOVER_SUPPORTED",
];

const BEGUN: u32 = 1_767_323_045;

// The fields of a row.
fn fields(alloc: Global, row: &str) -> Result<List<Text>, OutOfMemory> {
    let mut fields = List::new(alloc);
    for field in row.split(',') {
        fields.push(Text::from_text(alloc, field)?)?;
    }
    Ok(fields)
}

fn setup(alloc: Global) -> Result<Option<ChfSetup>, OutOfMemory> {
    let mut rows = List::new(alloc);
    for row in &SETUP {
        rows.push(fields(alloc, row)?)?;
    }
    Ok(read_setup(alloc, rows.as_slice()).ok())
}

// The subscriber of a session.
fn subscriber(alloc: Global, session: u32) -> Result<Text, OutOfMemory> {
    Ok(Text::from_string(format!(in alloc; "imsi-{session:015}")?))
}

// The account of a session.
fn account(alloc: Global, session: u32) -> Result<Text, OutOfMemory> {
    Ok(Text::from_string(format!(in alloc; "a{session}")?))
}

// A machine that is set up.
#[tactic(auto, using(crate::proofs::CountedUp::one_more))]
fn set_up(alloc: Global, setup: ChfSetup) -> Result<Option<Chf>, OutOfMemory>
    ensures { IfOk result (λ o. IfSome o (λ chf. (chf.state.count == 0) ≡ false)) }
{
    let mut chf = Chf::new(alloc);
    match chf.decide(alloc, &Command::Setup { setup })? {
        Decision::Fresh(plan) => {
            chf.commit(plan);
            Ok(Some(chf))
        }
        _ => Ok(None),
    }
}

// Takes a command in, where it is fresh; whether it was.
#[tactic(auto, using(crate::proofs::CountedUp::one_more))]
fn step(alloc: Global, chf: &mut Chf, command: &Command) -> Result<bool, OutOfMemory>
    requires begun { (chf.old.state.count == 0) ≡ false }
    requires later { is_setup command.now ≡ false }
    ensures { (chf.new.state.count == 0) ≡ false }
{
    match chf.decide(alloc, command)? {
        Decision::Fresh(plan) => {
            chf.commit(plan);
            Ok(true)
        }
        _ => Ok(false),
    }
}

// The row of a session's subscriber.
fn subscriber_row(alloc: Global, session: u32) -> Result<Command, OutOfMemory>
    ensures { IfOk result (λ c. is_setup c ≡ false) }
{
    let supi = subscriber(alloc, session)?;
    let account = account(alloc, session)?;
    Ok(Command::Subscriber {
        supi,
        account,
        barred: List::new(alloc),
    })
}

// The row of the money of a session's account.
fn topup_row(alloc: Global, session: u32) -> Result<Command, OutOfMemory>
    ensures { IfOk result (λ c. is_setup c ≡ false) }
{
    let id = account(alloc, session)?;
    let account = account(alloc, session)?;
    Ok(Command::TopUp {
        id,
        account,
        amount: 1_000_000_000_000,
    })
}

// The subscriber of a session, with its account.
fn add_subscriber(alloc: Global, chf: &mut Chf, session: u32) -> Result<(), OutOfMemory>
    requires { (chf.old.state.count == 0) ≡ false }
    ensures { (chf.new.state.count == 0) ≡ false }
{
    let row = subscriber_row(alloc, session)?;
    step(alloc, chf, &row)?;
    Ok(())
}

// The money of a session's account.
fn add_money(alloc: Global, chf: &mut Chf, session: u32) -> Result<(), OutOfMemory>
    requires { (chf.old.state.count == 0) ≡ false }
    ensures { (chf.new.state.count == 0) ≡ false }
{
    let row = topup_row(alloc, session)?;
    step(alloc, chf, &row)?;
    Ok(())
}

// The subscriber and the account of a session, with money.
fn add(alloc: Global, chf: &mut Chf, session: u32) -> Result<(), OutOfMemory>
    requires { (chf.old.state.count == 0) ≡ false }
    ensures { (chf.new.state.count == 0) ≡ false }
{
    add_subscriber(alloc, chf, session)?;
    add_money(alloc, chf, session)
}

// A machine that is set up, with a subscriber and an account with money for each session.
fn begun(alloc: Global, sessions: u32) -> Result<Option<Chf>, OutOfMemory>
    ensures { IfOk result (λ o. IfSome o (λ chf. (chf.state.count == 0) ≡ false)) }
{
    let Some(setup) = setup(alloc)? else {
        return Ok(None);
    };
    let Some(mut chf) = set_up(alloc, setup)? else {
        return Ok(None);
    };
    for session in 0..sessions {
        add(alloc, &mut chf, session.saturating_add(1))?;
    }
    Ok(Some(chf))
}

fn used(
    alloc: Global,
    draws: &mut Draws,
    lsn: u32,
    moment: Moment,
) -> Result<List<Used>, OutOfMemory> {
    let mut triggers = List::new(alloc);
    triggers.push(Text::from_text(alloc, "QUOTA_THRESHOLD")?)?;
    let mut used = List::new(alloc);
    used.push(Used {
        lsn,
        group: 10,
        up: draws.next() % 400_000,
        down: draws.next() % 500_000,
        seconds: (draws.next() % 60) as u32,
        first: moment,
        last: moment,
        triggers,
        moment,
    })?;
    Ok(used)
}

// A Create, or an Update with one container, of a session; its reference is its number.
fn request(
    alloc: Global,
    draws: &mut Draws,
    session: u32,
    number: u32,
    moment: Moment,
) -> Result<Command, OutOfMemory>
    ensures { IfOk result (λ c. is_setup c ≡ false) }
{
    let is_first = number == 1;
    let mut usage = List::new(alloc);
    usage.push(UnitUsage {
        group: 10,
        ask: Some(Ask {
            volume: None,
            seconds: None,
        }),
        used: if is_first {
            List::new(alloc)
        } else {
            used(alloc, draws, number.saturating_sub(1), moment)?
        },
    })?;
    let request = Request {
        operation: if is_first {
            Operation::Create
        } else {
            Operation::Update(session)
        },
        consumer: Text::from_text(alloc, "smf1")?,
        subscriber: Some(subscriber(alloc, session)?),
        charging_id: Some(session),
        number,
        stamp: moment,
        again: false,
        notify: None,
        usage,
        triggers: List::new(alloc),
    };
    Ok(Command::Charge { request })
}

// A round of requests with this number, one for each session; how many were fresh.
fn round(
    alloc: Global,
    chf: &mut Chf,
    draws: &mut Draws,
    sessions: u32,
    number: u32,
) -> Result<u64, OutOfMemory>
    requires { (chf.old.state.count == 0) ≡ false }
    ensures { (chf.new.state.count == 0) ≡ false }
{
    let moment = Moment::first().plus(BEGUN).plus(number.saturating_mul(60));
    let mut fresh = 0u64;
    for session in 0..sessions {
        let command = request(alloc, draws, session.saturating_add(1), number, moment)?;
        if step(alloc, chf, &command)? {
            fresh = fresh.wrapping_add(1);
        }
    }
    Ok(fresh)
}

// That many rounds of requests, from this number on; how many requests were fresh.
fn rounds(
    alloc: Global,
    chf: &mut Chf,
    draws: &mut Draws,
    sessions: u32,
    first: u32,
    count: u32,
) -> Result<u64, OutOfMemory>
    requires { (chf.old.state.count == 0) ≡ false }
    ensures { (chf.new.state.count == 0) ≡ false }
{
    let mut fresh = 0u64;
    for turn in 0..count {
        let number = first.saturating_add(turn);
        fresh = fresh.wrapping_add(round(alloc, chf, draws, sessions, number)?);
    }
    Ok(fresh)
}

fn small(number: u64) -> u32 {
    u32::try_from(number).unwrap_or(0)
}

/// Takes in a Create and that many Updates of that many sessions, and counts the requests that were fresh.
pub fn chf_turns(alloc: Global, sessions: u64, updates: u64) -> Result<u64, OutOfMemory> {
    let sessions = small(sessions);
    let Some(mut chf) = begun(alloc, sessions)? else {
        return Ok(0);
    };
    let mut draws = Draws::new(1);
    let count = small(updates).saturating_add(1);
    rounds(alloc, &mut chf, &mut draws, sessions, 1, count)
}

// The nanoseconds of so many rounds of Updates, of which the first and the last are timed too.
fn timed(
    rt: &HostRuntime,
    chf: &mut Chf,
    sessions: u32,
    tenth: u32,
    between: u32,
) -> io::Result<Option<[u128; 3]>>
    requires { (chf.old.state.count == 0) ≡ false }
{
    let alloc = rt.alloc();
    let mut draws = Draws::new(1);
    let middle = tenth.saturating_add(2);
    let end = middle.saturating_add(between);
    if rounds(alloc, chf, &mut draws, sessions, 1, 1).is_err() {
        return Ok(None);
    }
    let begun = Instant::now(rt)?;
    if rounds(alloc, chf, &mut draws, sessions, 2, tenth).is_err() {
        return Ok(None);
    }
    let first = begun.elapsed(rt)?;
    if rounds(alloc, chf, &mut draws, sessions, middle, between).is_err() {
        return Ok(None);
    }
    let late = Instant::now(rt)?;
    if rounds(alloc, chf, &mut draws, sessions, end, tenth).is_err() {
        return Ok(None);
    }
    let last = late.elapsed(rt)?;
    let all = begun.elapsed(rt)?;
    Ok(Some([first.as_nanos(), all.as_nanos(), last.as_nanos()]))
}

/// The nanoseconds of the first tenth of that many rounds of Updates, of all of them, and of the last tenth, in one run.
pub fn chf_times(rt: &HostRuntime, sessions: u64, updates: u64) -> io::Result<Option<[u128; 3]>> {
    let sessions = small(sessions);
    let tenth = small(updates / 10).max(1);
    let between = small(updates).saturating_sub(tenth.saturating_mul(2));
    let Ok(Some(mut chf)) = begun(rt.alloc(), sessions) else {
        return Ok(None);
    };
    timed(rt, &mut chf, sessions, tenth, between)
}
