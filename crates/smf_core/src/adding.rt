//! The session that an event adds.
ghost use Rattle.std.specs.Prelude.{◌≡◌, ◌-◌, ◌++◌, IfOk, None, Some, min, vec_len, vec_capacity};
ghost use Rattle.smf_model.specs.Machine.{added_by};
ghost use Rattle.smf_core.specs.Plan.{added_in, AddedIsReady};
ghost use Rattle.smf_core.specs.Caches.{sessions_of, AreAtRest, IsTied};

use crate::index::Index;
use crate::kept::Kept;
use crate::step::added_session;
use agenda::Agenda;
use smf_model::{SmfEvent, SmfSetup};
use std::alloc::Global;
use std::marker::Model;
use units::{Moment, OutOfMemory};

/// What is kept of the session that an event adds, if it adds one; it stands apart, so that a plan without one is small.
#[derive(Drop)]
pub struct Added {
    kept: Option<Box<Kept>>,
}

impl Model for Added {
    ghost use Rattle.std.specs.Prelude.{Option, option_map};
    ghost use Rattle.smf_core.specs.Caches.{KeptAs};

    ghost Value = { Option KeptAs };

    ghost view = { λ a. option_map (λ b. b.value) a.kept };
}

impl Added {
    /// None.
    pub fn none() -> Added
        ensures { result ≡ None }
    {
        Added { kept: None }
    }

    /// This one.
    pub fn one(alloc: Global, kept: Kept) -> Result<Added, OutOfMemory>
        ensures { IfOk result (λ a. a ≡ Some kept) }
    {
        let kept = Box::new(alloc, kept)?;
        Ok(Added { kept: Some(kept) })
    }

    /// It, `None` exactly where there is none.
    pub fn into_kept(self) -> Option<Kept>
        ensures { result ≡ self }
    {
        match self.kept {
            None => None,
            Some(kept) => Some(Box::into_inner(kept)),
        }
    }
}

/// What is kept of the session that an event adds.
pub fn added_kept(
    alloc: Global,
    setup: &SmfSetup,
    now: Moment,
    event: &SmfEvent,
) -> Result<Added, OutOfMemory>
    ensures { IfOk result (λ r. added_in r ≡ added_by setup.now now event.now) }
{
    match added_session(alloc, setup, now, event)? {
        None => Ok(Added::none()),
        Some(session) => {
            let kept = Kept::of(alloc, session)?;
            Added::one(alloc, kept)
        }
    }
}

/// The session that is added takes its place.
pub fn add(
    index: &mut Index,
    agenda: &mut Agenda,
    setup: &SmfSetup,
    now: Moment,
    sessions: &mut Vec<Kept>,
    added: Added,
)
    requires rest { AreAtRest setup.now (added_in added) }
    requires tied { IsTied setup.now index.old.numbers agenda.old.marks now (sessions_of sessions.old.items) }
    requires ready { AddedIsReady added (sessions_of sessions.old.items) (min (vec_capacity sessions.old - vec_len sessions.old) (min index.old.room agenda.old.room)) }
    ensures tied { IsTied setup.now index.new.numbers agenda.new.marks now (sessions_of sessions.new.items) }
    ensures sessions { sessions_of sessions.new.items ≡ sessions_of sessions.old.items ++ added_in added }
{
    if let Some(kept) = added.into_kept() {
        index.add(kept.number());
        agenda.add(kept.mark(setup, now));
        sessions.push_reserved(kept);
    }
}
