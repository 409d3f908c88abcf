//! When records are closed before their session ends.
ghost use Rattle.std.specs.Prelude.{◌≡◌};
ghost use Rattle.records.specs.Closing.{no_limits};

use std::alloc::Global;
use units::{Plain, Text};

/// When a record is closed before its session ends, and the function that writes it (TS 32.255, 5.2.3). A limit of 0 is
/// off.
#[derive(Clone, PartialEq, Eq, Debug, Drop)]
pub struct RecordLimits {
    /// The octets of its containers.
    pub volume: u64,
    /// The seconds since its opening.
    pub seconds: u32,
    /// Its containers with a change of charging conditions.
    pub changes: u32,
    /// Its containers.
    pub containers: u32,
    /// The recording network function.
    pub function: Text,
}

impl RecordLimits {
    /// No limits, of a function without a name. Takes no memory.
    pub fn none(alloc: Global) -> RecordLimits
        ensures { result ≡ no_limits }
    {
        RecordLimits {
            volume: 0,
            seconds: 0,
            changes: 0,
            containers: 0,
            function: Text::new(alloc),
        }
    }
}

impl Plain for RecordLimits {
    ghost use Rattle.std.proofs.Common.{rules};
    ghost use Rattle.units.specs.contracts.text.TextPlain.TheImpl.Laws as text;

    ghost copies = { Prim.search (rules, text.copies-law) };

    ghost decides = { Prim.search (rules, text.decides-law) };
}
