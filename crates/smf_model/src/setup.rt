//! How the machine is set up.
ghost use Rattle.std.specs.Prelude.{◌≡◌, IfOk};

use units::{Handling, OutOfMemory, Text, copy};

/// How an SMF charges (TS 32.255, 5.2.1; TS 32.290, 5.3 and failure handling).
#[derive(Debug, Drop)]
pub struct SmfSetup {
    /// Its name, as a consumer of the CHF's service.
    pub name: Text,
    /// Whether a session fails over to the alternate CHF, until a CHF says otherwise.
    pub failover: bool,
    /// What it does when no CHF answers, until a CHF says otherwise.
    pub handling: Handling,
    /// Seconds from a round of attempts to the next.
    pub retry: u32,
    /// How many closed containers may wait that are in no request; the oldest above that are given up.
    pub held_max: u32,
    /// How many closed containers wait before an Update is made (maxNumberOfccc of TS 32.291), until a CHF says otherwise.
    pub changes_max: u32,
    /// The volume limit of a container in octets, 0 for none, until a CHF says otherwise.
    pub volume_limit: u64,
    /// The time limit of a container in seconds, 0 for none, until a CHF says otherwise.
    pub time_limit: u32,
}

/// A copy of a setup.
pub fn copy_setup(setup: &SmfSetup) -> Result<SmfSetup, OutOfMemory>
    ensures { IfOk result (λ r. r ≡ setup.now) }
{
    let name = copy(&setup.name)?;
    Ok(SmfSetup {
        name,
        failover: setup.failover,
        handling: setup.handling,
        retry: setup.retry,
        held_max: setup.held_max,
        changes_max: setup.changes_max,
        volume_limit: setup.volume_limit,
        time_limit: setup.time_limit,
    })
}
