//! All containers of a session, each once, beside what closed it and where it is.
ghost use Rattle.std.specs.Prelude.{◌≡◌, ◌<◌, ◌≤◌, ◌+◌, ◌++◌, ◌∷◌, [], IfOk, OnOk, drop, length, slice_set, vec_len, vec_capacity};
ghost use Rattle.smf_model.specs.GivenUps.{given_up_of};
ghost use Rattle.smf_core.specs.Reads.{containers_of};
ghost use Rattle.smf_core.specs.Caches.{given_up_count, put_places};
ghost use Rattle.smf_core.specs.Stored.{holding_at, is_lost, lost_count, stage_of, staged, stages_of};

use crate::change::containers_from;
use crate::giving::{is_given_up_place, tell};
use smf_model::{GivenUp, Holding, Place};
use std::alloc::Global;
use std::marker::Model;
use units::{Container, Moment, OutOfMemory, TriggerType};

/// What closed a container and when, and where it is.
#[derive(Clone, Copy)]
pub struct Stage {
    pub trigger: Option<TriggerType>,
    pub moment: Moment,
    pub place: Place,
}

/// All containers of a session, in order of their numbers.
#[derive(Drop)]
pub struct Containers {
    containers: Vec<Container>,
    stages: Vec<Stage>,
}

impl Model for Containers {
    ghost use Rattle.std.specs.Prelude.{◌≡◌, ◌-◌, length, min, vec_len, vec_capacity};
    ghost use Rattle.smf_core.specs.Stored.{Stored, staged};

    ghost Value = { Stored };

    ghost view = { λ c. record { holdings = staged c.containers.items c.stages.items; room = min (vec_capacity c.containers - vec_len c.containers) (vec_capacity c.stages - vec_len c.stages) } };

    ghost invariant = { λ c. length c.containers.items ≡ length c.stages.items };
}

fn stage_of(holding: &Holding) -> Stage
    ensures { result ≡ stage_of holding.now }
{
    Stage {
        trigger: holding.trigger,
        moment: holding.moment,
        place: holding.place,
    }
}

fn holding_at(container: &Container, stage: &Stage) -> Holding
    ensures { result ≡ holding_at container.now stage.now }
{
    Holding {
        container: *container,
        trigger: stage.trigger,
        moment: stage.moment,
        place: stage.place,
    }
}

fn stages_from(alloc: Global, holdings: &[Holding]) -> Result<Vec<Stage>, OutOfMemory>
    ensures { IfOk result (λ v. v.items ≡ stages_of holdings.now) }
{
    let stages = holdings.iter().map(|h| stage_of(h)).collect(alloc)?;
    Ok(stages)
}

fn is_lost(stage: &Stage) -> bool
    ensures { result ≡ is_lost stage.now }
{
    is_given_up_place(stage.place)
}

// At how many of these stages a container is given up.
fn count_lost(stages: &[Stage]) -> usize
    ensures { result ≡ lost_count stages.now }
{
    stages.iter().filter(|s| is_lost(s)).count()
}

// Those of a list from a place on.
fn from_place<T>(items: &[T], place: usize) -> &[T]
    ensures { result.now ≡ drop place items.now }
{
    if place >= items.len() {
        return &[];
    }
    &items[place..]
}

// What of these containers is given up comes to what is told.
fn tell_all(given: &mut Vec<GivenUp>, containers: &[Container], stages: &[Stage])
    requires { vec_len given.old + length (given_up_of (staged containers.now stages.now)) ≤ vec_capacity given.old }
    ensures { given.new.items ≡ given.old.items ++ given_up_of (staged containers.now stages.now) }
{
    for (at, container) in containers.iter().enumerate() {
        if at >= stages.len() {
            return;
        }
        tell(given, &holding_at(container, &stages[at]));
    }
}

impl Containers {
    /// Those of a list.
    pub fn of(alloc: Global, holdings: &[Holding]) -> Result<Containers, OutOfMemory>
        ensures { IfOk result (λ c. c.holdings ≡ holdings.now) }
    {
        let containers = containers_from(alloc, holdings)?;
        let stages = stages_from(alloc, holdings)?;
        Ok(Containers { containers, stages })
    }

    /// How many there are.
    pub fn len(&self) -> usize
        ensures { result ≡ length self.now.holdings }
    {
        self.containers.len()
    }

    /// The containers alone.
    pub fn as_slice(&self) -> &[Container]
        ensures { result.now ≡ containers_of self.now.holdings }
    {
        self.containers.as_slice()
    }

    /// Makes room for one more.
    pub fn make_room(&mut self) -> Result<(), OutOfMemory>
        ensures same { self.new.holdings ≡ self.old.holdings }
        ensures room { OnOk result (0 < self.new.room) }
    {
        self.containers.reserve(1)?;
        self.stages.reserve(1)?;
        Ok(())
    }

    // Puts one in the place of another; past the end there is none.
    fn put(&mut self, at: usize, holding: &Holding)
        ensures holdings { self.new.holdings ≡ slice_set self.old.holdings at holding.now }
        ensures room { self.new.room ≡ self.old.room }
    {
        if at >= self.containers.len() {
            return;
        }
        self.containers[at] = holding.container;
        self.stages[at] = stage_of(holding);
    }

    // Adds one at the end.
    fn push(&mut self, holding: &Holding)
        requires { 0 < self.old.room }
        ensures { self.new.holdings ≡ self.old.holdings ++ holding.now ∷ [] }
    {
        self.containers.push_reserved(holding.container);
        self.stages.push_reserved(stage_of(holding));
    }

    /// How many from a place on are given up.
    pub fn given_up_from(&self, place: usize) -> usize
        ensures { result ≡ given_up_count (drop place self.now.holdings) }
    {
        count_lost(from_place(&self.stages, place))
    }

    /// What is given up from a place on comes to what is told.
    pub fn tell_from(&self, place: usize, given: &mut Vec<GivenUp>)
        requires { vec_len given.old + length (given_up_of (drop place self.now.holdings)) ≤ vec_capacity given.old }
        ensures { given.new.items ≡ given.old.items ++ given_up_of (drop place self.now.holdings) }
    {
        tell_all(
            given,
            from_place(&self.containers, place),
            from_place(&self.stages, place),
        );
    }
}

/// Others written at places, one after another; the one that is left comes at the end.
pub fn put_all(all: &mut Containers, places: &[usize], next: &[Holding])
    requires one { length next.now ≤ length places.now + 1 }
    requires room { 0 < all.old.room }
    ensures { all.new.holdings ≡ put_places places.now next.now all.old.holdings }
{
    for (at, holding) in next.iter().enumerate() {
        if at >= places.len() {
            all.push(holding);
            continue;
        }
        all.put(places[at], holding);
    }
}
