//! What the containers of a record add up to.
ghost use Rattle.std.specs.Prelude.{◌≡◌, ◌∷◌, []};
ghost use Rattle.records.specs.Sums.{is_change_type, is_change, changes, octets, one_each, sums_with};
ghost use Rattle.units.specs.Words.{type_named};

use units::{TriggerType, Used, type_named};

/// The octets, change containers and containers of a record, each up to the greatest number of its type (this product's
/// own).
#[derive(Clone, Copy, PartialEq, Eq, Debug)]
pub struct Sums {
    /// Octets up and down.
    pub octets: u64,
    /// Containers with a change trigger.
    pub changes: u32,
    /// Containers.
    pub containers: u32,
}

// Whether a trigger is a change of charging conditions.
fn is_change_type(trigger: Option<TriggerType>) -> bool
    ensures { result ≡ is_change_type trigger }
{
    matches!(
        trigger,
        Some(
            TriggerType::TariffTimeChange
                | TriggerType::QosChange
                | TriggerType::RatChange
                | TriggerType::PlmnChange
                | TriggerType::UserLocationChange
                | TriggerType::UeTimezoneChange
                | TriggerType::SessionAmbrChange
                | TriggerType::ServingNodeChange
        )
    )
}

// Whether a container has a change trigger.
fn is_change(container: &Used) -> bool
    ensures { result ≡ is_change container.now }
{
    for name in container.triggers.as_slice() {
        if is_change_type(type_named(name.as_str())) {
            return true;
        }
    }
    false
}

// The sums with one container more.
fn with_one(sums: Sums, container: &Used) -> Sums
    ensures { result ≡ sums_with sums (container.now ∷ []) }
{
    let changes = if is_change(container) { 1 } else { 0 };
    Sums {
        octets: sums
            .octets
            .saturating_add(container.up)
            .saturating_add(container.down),
        changes: sums.changes.saturating_add(changes),
        containers: sums.containers.saturating_add(1),
    }
}

impl Sums {
    /// Those of no container.
    pub fn none() -> Sums
        ensures { result ≡ record { octets = 0; changes = 0; containers = 0 } }
    {
        Sums {
            octets: 0,
            changes: 0,
            containers: 0,
        }
    }

    /// Those with more containers.
    pub fn with(self, used: &[Used]) -> Sums
        ensures { result ≡ sums_with self used.now }
    {
        let mut sums = self;
        for container in used {
            sums = with_one(sums, container);
        }
        sums
    }
}
