//! The walk over entries.
ghost use Rattle.std.specs.Prelude.{◌≡◌, ◌+◌, ◌≤◌, ℕ, length, take, IfOk, OnOk, OnErr, IsErr, Err};
ghost use Rattle.chf_core.specs.After.{is_setup};
ghost use Rattle.chf_replay.specs.Entries.{IsAfter, IsAfterFirst, IsBadAt};
ghost use Rattle.chf_replay.specs.Entering.{Comes, Enters};

use crate::laws::entries_are_bad_at_one_place;
use crate::refusal::ReplayRefusal;
use chf_core::{Chf, Command, Decision, histories_grow, states_are_joined};
use chf_payloads::read_payload;
use std::alloc::Global;
use units::{List, OutOfMemory};

fn is_setup(command: &Command) -> bool
    ensures { result ≡ is_setup command.now }
{
    match command {
        Command::Setup { .. } => true,
        _ => false,
    }
}

// Enters a command where it may come.
fn enter_command(alloc: Global, chf: &mut Chf, command: &Command) -> Result<bool, OutOfMemory>
    ensures comes { IfOk result (λ b. Comes b chf.old.state chf.new.state command.now) }
    ensures err { OnErr result (chf.new.state ≡ chf.old.state) }
{
    if is_setup(command) != (chf.count() == 0) {
        return Ok(false);
    }
    match chf.decide(alloc, command)? {
        Decision::Fresh(plan) => {
            chf.commit(plan);
            Ok(true)
        }
        _ => Ok(false),
    }
}

// Enters the command of an entry where it may come; false exactly where none may.
fn enter(alloc: Global, chf: &mut Chf, entry: &[u8]) -> Result<bool, OutOfMemory>
    ensures entered { IfOk result (λ b. Enters b chf.old.state chf.new.state entry.now) }
    ensures err { OnErr result (chf.new.state ≡ chf.old.state) }
{
    match read_payload(alloc, entry)? {
        Some(command) => enter_command(alloc, chf, &command),
        None => Ok(false),
    }
}

// Enters the entries from a place on.
fn enter_from(
    alloc: Global,
    chf: &mut Chf,
    entries: &[List<u8>],
    start: usize,
) -> Result<(), ReplayRefusal>
    requires within { start ≤ length entries.now }
    requires held { IsAfter chf.old.state (take start entries.now) }
    ensures ok { OnOk result (IsAfter chf.new.state entries.now) }
    ensures err { OnErr result (IsAfterFirst chf.new.state entries.now) }
    ensures kept { start ≤ chf.new.state.count }
    ensures bad { (place : ℕ) → result ≡ Err (ReplayRefusal.BadEntry place) → IsBadAt entries.now place × (place ≡ chf.new.state.count + 1) }
{
    histories_grow();
    states_are_joined();
    for entry in &entries[start..] {
        match enter(alloc, chf, entry.as_slice()) {
            Ok(true) => {}
            Ok(false) => {
                let place = chf.count() as usize + 1;
                return Err(ReplayRefusal::BadEntry { place });
            }
            Err(OutOfMemory) => return Err(ReplayRefusal::OutOfMemory),
        }
    }
    Ok(())
}

/// Goes on with a machine to the end of these entries, the first of which are those of its commands. After a refusal it
/// has the commands of the entries before the first bad one, or where memory was wanting of some of the first.
pub fn replay_more(alloc: Global, chf: &mut Chf, entries: &[List<u8>]) -> Result<(), ReplayRefusal>
    requires held { IsAfterFirst chf.old.state entries.now }
    ensures ok { OnOk result (IsAfter chf.new.state entries.now) }
    ensures err { OnErr result (IsAfterFirst chf.new.state entries.now) }
    ensures kept { chf.old.state.count ≤ chf.new.state.count }
    ensures bad { (place : ℕ) → result ≡ Err (ReplayRefusal.BadEntry place) → IsBadAt entries.now place × (place ≡ chf.new.state.count + 1) }
    ensures none { (place : ℕ) → IsBadAt entries.now place → IsErr result }
{
    states_are_joined();
    entries_are_bad_at_one_place();
    let start = chf.count() as usize;
    enter_from(alloc, chf, entries, start)
}

/// The machine of entries: its commands, each fresh by those before it and the setup first, are those whose payloads
/// the entries are. An entry that is the payload of no such command is bad, and the first one is named.
pub fn replay(alloc: Global, entries: &[List<u8>]) -> Result<Chf, ReplayRefusal>
    ensures ok { IfOk result (λ chf. IsAfter chf.state entries.now) }
    ensures bad { (place : ℕ) → result ≡ Err (ReplayRefusal.BadEntry place) → IsBadAt entries.now place }
    ensures none { (place : ℕ) → IsBadAt entries.now place → IsErr result }
{
    let mut chf = Chf::new(alloc);
    match replay_more(alloc, &mut chf, entries) {
        Ok(()) => Ok(chf),
        Err(refusal) => Err(refusal),
    }
}
