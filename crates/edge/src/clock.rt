//! A clock, and its form in memory.
ghost use Rattle.std.specs.Prelude.{◌≡◌, ℕ, Option, Some, IfOk};
ghost use Rattle.edge.specs.Clocks.{HasTold, moment_of};

use std::alloc::Global;
use std::marker::Model;
use units::{Moment, OutOfMemory};

/// A clock. Where it tells, `to_come` are the moments of the calls of `now` to come, from 0.
pub trait Clock {
    ghost to_come: { Self → ℕ → Option ℕ };

    /// The moment, which need not be after the one before.
    fn now(&mut self) -> Moment
        ensures { HasTold (to_come self.old) (to_come self.new) result };
}

/// A clock each moment of which is a step after the one before, up to the last moment (this product's own).
#[derive(Drop)]
pub struct StepClock {
    next: Moment,
    step: u32,
}

impl Model for StepClock {
    ghost use Rattle.std.specs.Prelude.{◌≤◌};
    ghost use Rattle.units.specs.Limits.{greatest_moment};
    ghost use Rattle.edge.specs.Clocks.{Stepping};

    ghost Value = { Stepping };

    ghost view = { λ c. record { next = c.next; step = c.step } };

    ghost invariant = { λ c. c.next ≤ greatest_moment };
}

impl StepClock {
    /// A clock whose first moment is this one, with that many seconds a step.
    pub fn new(_alloc: Global, first: Moment, step: u32) -> Result<StepClock, OutOfMemory>
        ensures { IfOk result (λ clock. clock ≡ record { next = first; step = step }) }
    {
        Ok(StepClock { next: first, step })
    }
}

impl Clock for StepClock {
    ghost to_come = { λ c n. Some (moment_of c n) };

    fn now(&mut self) -> Moment {
        let moment = self.next;
        self.next = moment.plus(self.step);
        moment
    }
}
