//! What an event changes of a session of which only what is held is kept.
ghost use Rattle.std.specs.Prelude.{◌≡◌, ◌<◌, ◌+◌, ◌-◌, IfOk, length, map, filter, unwrap_or};
ghost use Rattle.std.specs.List.{list_all};
ghost use Rattle.smf_core.specs.Draft.{effect_past};
ghost use Rattle.smf_model.specs.Machine.{finished};
ghost use Rattle.smf_core.specs.Reads.{is_held, is_held_at, containers_of};
ghost use Rattle.smf_core.specs.Caches.{live_after, place_at, IsMade, HasParts};

use crate::draft::Draft;
use crate::plan::{Change, Prepared};
use crate::step::draft_after;
use smf_model::{Holding, Place, Session, SmfEvent, SmfSetup};
use std::alloc::Global;
use units::{Container, List, Moment, OutOfMemory};

/// Whether a container is held.
pub fn is_held_holding(holding: &Holding) -> bool
    ensures { result ≡ is_held holding.now }
{
    matches!(holding.place, Place::Open | Place::Waiting | Place::Frozen)
}

/// The containers of a list.
pub fn containers_from(alloc: Global, holdings: &[Holding]) -> Result<Vec<Container>, OutOfMemory>
    ensures { IfOk result (λ v. v.items ≡ containers_of holdings.now) }
{
    let containers = holdings.iter().map(|h| h.container).collect(alloc)?;
    Ok(containers)
}

/// Those of a list that are held.
pub fn held_from(alloc: Global, holdings: &[Holding]) -> Result<Vec<Holding>, OutOfMemory>
    ensures { IfOk result (λ v. v.items ≡ filter is_held holdings.now) }
{
    let mut held = Vec::with_capacity(alloc, holdings.len())?;
    for holding in holdings {
        if is_held_holding(holding) {
            held.push(*holding)?;
        }
    }
    Ok(held)
}

// The place of one that came after so many of which these were held.
fn place_of(places: &[usize], count: usize, at: usize) -> Result<usize, OutOfMemory>
    ensures { IfOk result (λ p. p ≡ place_at places.now count at) }
{
    if at < places.len() {
        return Ok(places[at]);
    }
    match count.checked_add(at - places.len()) {
        Some(place) => Ok(place),
        None => Err(OutOfMemory),
    }
}

// The places of what is held after others took the places of what was held.
fn places_after(
    alloc: Global,
    places: &[usize],
    count: usize,
    moved: &[Holding],
) -> Result<List<usize>, OutOfMemory>
    ensures { IfOk result (λ r. r ≡ live_after places.now count moved.now) }
{
    let mut next = List::new(alloc);
    for (at, holding) in moved.iter().enumerate() {
        if is_held_holding(holding) {
            next.push(place_of(places, count, at)?)?;
        }
    }
    Ok(next)
}

// Whether each of a list is held.
fn all_held(holdings: &[Holding]) -> bool
    ensures { result ≡ list_all is_held holdings.now }
{
    holdings.iter().all(|h| is_held_holding(h))
}

// The same, where they are not as before.
fn places_left(
    alloc: Global,
    places: &[usize],
    count: usize,
    moved: &[Holding],
) -> Result<Option<List<usize>>, OutOfMemory>
    ensures { IfOk result (λ r. unwrap_or r places.now ≡ live_after places.now count moved.now) }
{
    if moved.len() == places.len() && all_held(moved) {
        return Ok(None);
    }
    let next = places_after(alloc, places, count, moved)?;
    Ok(Some(next))
}

fn change_from(
    alloc: Global,
    places: &[usize],
    count: usize,
    draft: Draft,
) -> Result<Prepared, OutOfMemory>
    ensures { IfOk result (λ c. HasParts c draft places.now count) }
{
    let Draft {
        course,
        groups,
        holdings,
        rules,
        pending,
    } = draft;
    let places = places_left(alloc, places, count, holdings.as_slice())?;
    let change = Change {
        course,
        groups,
        moved: holdings,
        places,
        rules,
        pending,
    };
    Prepared::of(alloc, change)
}

/// What an event makes of a session that it touches, of which only what is held is kept: where that is, and how many containers there are.
pub fn change_of(
    alloc: Global,
    setup: &SmfSetup,
    now: Moment,
    event: &SmfEvent,
    before: &Session,
    places: &[usize],
    count: usize,
) -> Result<Prepared, OutOfMemory>
    ensures { IfOk result (λ c. IsMade c before.now places.now count (finished setup.now now (effect_past setup.now (count - length places.now) now event.now before.now))) }
{
    let past = count.saturating_sub(places.len());
    let draft = draft_after(alloc, setup, past, now, event, before)?;
    change_from(alloc, places, count, draft)
}
