//! A plan: what an event makes of the machine, with all the memory that it takes.
ghost use Rattle.std.specs.Prelude.{◌≡◌, IfOk};

use crate::adding::Added;
use crate::draft::{Course, Pending};
use smf_model::{Entry, Holding, Rule, Seen};
use std::alloc::Global;
use std::marker::Model;
use units::{List, Moment, OutOfMemory};

/// What an event makes of one session: what it changes, and the places of what is held then.
#[derive(Drop)]
pub struct Change {
    pub course: Course,
    pub groups: List<Entry>,
    /// What was held before, as it is now, and the container that was opened.
    pub moved: List<Holding>,
    /// The places of what of it is held, where they are not as before.
    pub places: Option<List<usize>>,
    /// The trigger rules, where they are not as before.
    pub rules: Option<List<Rule>>,
    pub pending: Pending,
}

/// A change that stands apart, so that what holds it is small.
#[derive(Drop)]
pub struct Prepared {
    change: Box<Change>,
}

impl Model for Prepared {
    ghost use Rattle.smf_core.specs.declared.plan.Change.{Change};

    ghost Value = { Change };

    ghost view = { λ p. p.change.value };
}

impl Prepared {
    /// It, apart.
    pub fn of(alloc: Global, change: Change) -> Result<Prepared, OutOfMemory>
        ensures { IfOk result (λ p. p ≡ change) }
    {
        let change = Box::new(alloc, change)?;
        Ok(Prepared { change })
    }

    /// What was held before, as it is then, and the container that is opened.
    pub fn moved(&self) -> &[Holding]
        ensures { result.now ≡ self.now.moved }
    {
        self.change.moved.as_slice()
    }

    /// The change.
    pub fn into_change(self) -> Change
        ensures { result ≡ self }
    {
        let Prepared { change } = self;
        Box::into_inner(change)
    }
}

/// A change of the session at a place.
#[derive(Drop)]
pub struct Turn {
    pub at: usize,
    pub change: Prepared,
}

/// The sessions that an event changes.
#[derive(Drop)]
pub enum Next {
    /// None.
    Nothing,
    /// One.
    One(Turn),
    /// Some, in the order of their places.
    Several(List<Turn>),
}

/// What an event makes of the machine, with all the memory that it takes; `Smf::plan` makes it, and `Smf::commit` takes it.
#[derive(Drop)]
pub struct SmfPlan {
    pub(crate) seen: Seen,
    pub(crate) moment: Moment,
    /// How many entries the list has then.
    pub(crate) count: u32,
    pub(crate) next: Next,
    pub(crate) added: Added,
    /// The places of the sessions that wait no more.
    pub(crate) woken: List<usize>,
}
