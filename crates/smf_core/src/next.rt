//! The sessions that an event changes.
ghost use Rattle.std.specs.Prelude.{◌≡◌, ◌<◌, None, IfOk, OnOk, map, length, slice_set};
ghost use Rattle.smf_model.specs.Machine.{next_session};
ghost use Rattle.smf_core.specs.Lookup.{subject};
ghost use Rattle.smf_core.specs.Index.{AreApart, place_for};
ghost use Rattle.smf_core.specs.Plan.{changed, sessions_next, turned, NextIsReady, AreReady, IsReadyAt, map_at};
ghost use Rattle.smf_core.specs.Caches.{KeptAs, numbers_of, sessions_of};
ghost use Rattle.smf_core.specs.Marking.{marks_of};
ghost use Rattle.smf_core.specs.Turns.{mapped_at, AreAll, AreFrom, IsAt, with_next};

use crate::checks::subject;
use crate::kept::Kept;
use crate::plan::{Next, Prepared, Turn};
use agenda::Agenda;
use smf_model::{SmfEvent, SmfSetup};
use std::alloc::Global;
use units::{List, Moment, OutOfMemory};

// What an event makes of its own session.
fn one_change(
    alloc: Global,
    setup: &SmfSetup,
    now: Moment,
    event: &SmfEvent,
    at: usize,
    sessions: &mut [Kept],
) -> Result<Next, OutOfMemory>
    requires { at < length sessions.old }
    ensures made { IfOk result (λ n. sessions_next n (sessions_of sessions.old) ≡ map_at at (next_session setup.now now event.now) (sessions_of sessions.old)) }
    ensures ready { IfOk result (λ n. NextIsReady n sessions.new) }
    ensures place { IfOk result (λ n. IsAt at n) }
    ensures others { (k : KeptAs) × (sessions.new ≡ slice_set sessions.old at k) }
    ensures same { sessions_of sessions.new ≡ sessions_of sessions.old }
{
    let kept = &mut sessions[at];
    if !kept.is_touched(event) {
        return Ok(Next::Nothing);
    }
    let change = kept.change(alloc, setup, now, event)?;
    Ok(Next::One(Turn { at, change }))
}

// One more change, if there is one.
fn push_next(turns: &mut Vec<Turn>, next: Next) -> Result<(), OutOfMemory>
    ensures { OnOk result (turns.new.items ≡ with_next turns.old.items next) }
{
    match next {
        Next::One(turn) => turns.push(turn)?,
        Next::Nothing | Next::Several(_) => {}
    }
    Ok(())
}

// What an event makes of the sessions at places.
fn turns_at(
    alloc: Global,
    setup: &SmfSetup,
    now: Moment,
    event: &SmfEvent,
    places: &[usize],
    sessions: &mut [Kept],
) -> Result<Vec<Turn>, OutOfMemory>
    requires { AreFrom 0 places.now }
    ensures made { IfOk result (λ v. turned v.items (sessions_of sessions.old) ≡ mapped_at (next_session setup.now now event.now) (sessions_of sessions.old) places.now) }
    ensures ready { IfOk result (λ v. AreReady v.items sessions.new) }
    ensures same { sessions_of sessions.new ≡ sessions_of sessions.old }
{
    let mut turns = Vec::new(alloc);
    for at in places {
        let at = *at;
        if at >= sessions.len() {
            continue;
        }
        let next = one_change(alloc, setup, now, event, at, sessions)?;
        push_next(&mut turns, next)?;
    }
    Ok(turns)
}

/// The sessions that an event changes, where this is the place of its own, and these are those of the several that it may change where it has
/// none of its own.
pub fn next_turns(
    alloc: Global,
    setup: &SmfSetup,
    now: Moment,
    event: &SmfEvent,
    place: Option<usize>,
    several: &[usize],
    sessions: &mut [Kept],
) -> Result<Next, OutOfMemory>
    requires several { subject event.now ≡ None → AreAll (next_session setup.now now event.now) (sessions_of sessions.old) several.now }
    requires place { place ≡ place_for (subject event.now) (numbers_of (sessions_of sessions.old)) }
    requires apart { AreApart (numbers_of (sessions_of sessions.old)) }
    ensures made { IfOk result (λ n. sessions_next n (sessions_of sessions.old) ≡ map (next_session setup.now now event.now) (sessions_of sessions.old)) }
    ensures ready { IfOk result (λ n. NextIsReady n sessions.new) }
    ensures same { sessions_of sessions.new ≡ sessions_of sessions.old }
{
    match subject(event) {
        None => {
            let turns = turns_at(alloc, setup, now, event, several, sessions)?;
            Ok(Next::Several(List::from_vec(turns)))
        }
        Some(_) => match place {
            None => Ok(Next::Nothing),
            Some(at) => one_change(alloc, setup, now, event, at, sessions),
        },
    }
}

// The session at a place takes its change.
fn take_at(
    agenda: &mut Agenda,
    setup: &SmfSetup,
    now: Moment,
    sessions: &mut [Kept],
    at: usize,
    change: Prepared,
)
    requires ready { IsReadyAt at change sessions.old }
    requires marks { agenda.old.marks ≡ marks_of setup.now now (sessions_of sessions.old) }
    ensures value { sessions_of sessions.new ≡ map_at at (changed change) (sessions_of sessions.old) }
    ensures others { (k : KeptAs) × (sessions.new ≡ slice_set sessions.old at k) }
    ensures marks { agenda.new.marks ≡ marks_of setup.now now (sessions_of sessions.new) }
    ensures room { agenda.new.room ≡ agenda.old.room }
{
    if at >= sessions.len() {
        return;
    }
    let kept = &mut sessions[at];
    kept.take(change);
    agenda.set(at, kept.mark(setup, now));
}

// Each session takes its change.
fn take_all(
    agenda: &mut Agenda,
    setup: &SmfSetup,
    now: Moment,
    sessions: &mut [Kept],
    turns: List<Turn>,
)
    requires ready { AreReady turns sessions.old }
    requires marks { agenda.old.marks ≡ marks_of setup.now now (sessions_of sessions.old) }
    ensures value { sessions_of sessions.new ≡ turned turns (sessions_of sessions.old) }
    ensures marks { agenda.new.marks ≡ marks_of setup.now now (sessions_of sessions.new) }
    ensures room { agenda.new.room ≡ agenda.old.room }
{
    let mut turns = turns.into_vec();
    while let Some(turn) = turns.pop() {
        let Turn { at, change } = turn;
        take_at(agenda, setup, now, sessions, at, change);
    }
}

/// The sessions that an event changes take their changes, and their marks are as they are then.
pub fn take_next(
    agenda: &mut Agenda,
    setup: &SmfSetup,
    now: Moment,
    sessions: &mut [Kept],
    next: Next,
)
    requires ready { NextIsReady next sessions.old }
    requires marks { agenda.old.marks ≡ marks_of setup.now now (sessions_of sessions.old) }
    ensures value { sessions_of sessions.new ≡ sessions_next next (sessions_of sessions.old) }
    ensures marks { agenda.new.marks ≡ marks_of setup.now now (sessions_of sessions.new) }
    ensures room { agenda.new.room ≡ agenda.old.room }
{
    match next {
        Next::Nothing => {}
        Next::One(turn) => {
            let Turn { at, change } = turn;
            take_at(agenda, setup, now, sessions, at, change)
        }
        Next::Several(turns) => take_all(agenda, setup, now, sessions, turns),
    }
}
