//! What the machine answers to an event.
use quotas::Gate;
use units::Moment;

/// Whether an event is a step, or changes nothing (this product's own).
#[derive(Clone, Copy, PartialEq, Eq, Debug)]
pub enum Seen {
    /// It is a step.
    New,
    /// It is known already, or has nothing to act on.
    Known,
}

/// Why an event is refused (this product's own).
#[derive(Clone, Copy, PartialEq, Eq, Debug)]
pub enum SmfRefusal {
    /// There is no session of this number.
    NoSession,
    /// There is a session of this number.
    SessionExists,
    /// The session would have more than 16 rating groups.
    TooManyGroups,
    /// The rating group's gate is not open.
    GateClosed {
        /// What becomes of its traffic.
        gate: Gate,
    },
    /// The report's number is 0 or above the expected one.
    OutOfStep {
        /// The number of the group's next report.
        expected: u32,
    },
    /// More than 2^40 octets up or down, or more than 86400 seconds.
    TooLarge,
    /// The moment is before the last one.
    MomentBack {
        /// The last moment.
        last: Moment,
    },
    /// The session has 2^20 reports.
    TooManyReports,
    /// An allocation was refused.
    OutOfMemory,
}

impl From<units::OutOfMemory> for SmfRefusal {
    ghost use Rattle.std.specs.Prelude.{◌≡◌};
    ghost use Rattle.smf_model.specs.declared.refusal.SmfRefusal.TheVariants.{OutOfMemory};

    ghost from_gives = { λ _ e. e ≡ OutOfMemory };

    fn from(_error: units::OutOfMemory) -> SmfRefusal {
        SmfRefusal::OutOfMemory
    }
}
