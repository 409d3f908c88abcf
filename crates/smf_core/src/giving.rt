//! What is given up of a session, as a list that a change makes anew from the first container on that it gives up.
ghost use Rattle.std.specs.Prelude.{IfOk, ◌≡◌, ◌≤◌, ◌<◌, ◌+◌, ◌-◌, ◌++◌, ◌∷◌, [], drop, filter, is_some, length, take, vec_len, vec_capacity};
ghost use Rattle.smf_model.specs.GivenUps.{given_up_as, given_up_of, why_in};
ghost use Rattle.smf_core.specs.Reads.{is_held};
ghost use Rattle.smf_core.specs.Caches.{first_given_up, given_up_count, places_from, put_places};

use crate::containers::{Containers, put_all};
use smf_model::{GivenUp, Holding, Place};
use std::alloc::Global;
use units::OutOfMemory;

// A container with the cause, where it is given up.
fn given_up_as(holding: &Holding) -> Option<GivenUp>
    ensures { result ≡ given_up_as holding.now }
{
    match holding.place {
        Place::GivenUp(why) => Some(GivenUp {
            container: holding.container,
            why,
        }),
        _ => None,
    }
}

pub fn is_given_up_place(place: Place) -> bool
    ensures { result ≡ is_some (why_in place) }
{
    matches!(place, Place::GivenUp(_))
}

/// How many containers of a list are given up.
pub fn given_up_count(holdings: &[Holding]) -> usize
    ensures { result ≡ given_up_count holdings.now }
{
    holdings
        .iter()
        .filter(|h| is_given_up_place(h.place))
        .count()
}

/// What is given up of a list of containers.
pub fn given_up_from(alloc: Global, holdings: &[Holding]) -> Result<Vec<GivenUp>, OutOfMemory>
    ensures { IfOk result (λ v. v.items ≡ given_up_of holdings.now) }
{
    let mut given = Vec::new(alloc);
    for holding in holdings {
        if let Some(one) = given_up_as(holding) {
            given.push(one)?;
        }
    }
    Ok(given)
}

// The place of the first that is given up of those that take these places; where none is, how many there are in all.
fn first_given_up(places: &[usize], moved: &[Holding], count: usize) -> usize
    ensures { result ≡ first_given_up places.now moved.now count }
{
    for (at, place) in places.iter().enumerate() {
        if at >= moved.len() {
            return count;
        }
        if is_given_up_place(moved[at].place) {
            return *place;
        }
    }
    count
}

/// A container comes to what is told, if it is given up.
pub fn tell(given: &mut Vec<GivenUp>, holding: &Holding)
    requires { vec_len given.old + length (given_up_of (holding.now ∷ [])) ≤ vec_capacity given.old }
    ensures told { given.new.items ≡ given.old.items ++ given_up_of (holding.now ∷ []) }
    ensures len { vec_len given.new ≡ vec_len given.old + length (given_up_of (holding.now ∷ [])) }
    ensures capacity { vec_capacity given.new ≡ vec_capacity given.old }
{
    if let Some(one) = given_up_as(holding) {
        given.push_reserved(one);
    }
}

// What is given up from a place on is told no more.
fn untell(given: &mut Vec<GivenUp>, all: &Containers, since: usize)
    ensures items { given.new.items ≡ take (length given.old.items - given_up_count (drop since all.now.holdings)) given.old.items }
    ensures capacity { vec_capacity given.new ≡ vec_capacity given.old }
{
    let behind = all.given_up_from(since);
    given.truncate(given.len().saturating_sub(behind));
}

/// Containers take the places of those that were held, and what is given up is told: from the first one on that they give up it is
/// made anew.
pub fn retell(given: &mut Vec<GivenUp>, all: &mut Containers, places: &[usize], moved: &[Holding])
    requires told { given.old.items ≡ given_up_of all.old.holdings }
    requires places { places.now ≡ places_from 0 all.old.holdings }
    requires enough { length (filter is_held all.old.holdings) ≤ length moved.now }
    requires one { length moved.now ≤ length places.now + 1 }
    requires room { 0 < all.old.room }
    requires spare { vec_len given.old + given_up_count moved.now ≤ vec_capacity given.old }
    ensures holdings { all.new.holdings ≡ put_places places.now moved.now all.old.holdings }
    ensures given { given.new.items ≡ given_up_of all.new.holdings }
{
    let since = first_given_up(places, moved, all.len());
    untell(given, all, since);
    put_all(all, places, moved);
    all.tell_from(since, given);
}
