//! Whether an entry of a request gives back what was set aside.
ghost use Rattle.std.specs.Prelude.{◌≡◌};
ghost use Rattle.chf_core.specs.Effect.{gives_back, ends_final, has_final};

use units::{Text, TriggerType, UnitUsage, Used, name_of_type};

// Whether triggers hold the final units or the quota holding time.
fn has_final(triggers: &[Text]) -> bool
    ensures { result ≡ has_final triggers.now }
{
    for trigger in triggers {
        if trigger.as_str() == name_of_type(TriggerType::QuotaHoldingTime)
            || trigger.as_str() == name_of_type(TriggerType::Final)
        {
            return true;
        }
    }
    false
}

// Whether the last container does, or there is none.
fn ends_final(used: &[Used]) -> bool
    ensures { result ≡ ends_final used.now }
{
    match used.last() {
        Some(container) => has_final(container.triggers.as_slice()),
        None => true,
    }
}

/// Whether an entry gives back what is left of its group's quota.
pub fn gives_back(entry: &UnitUsage) -> bool
    ensures { result ≡ gives_back entry.now }
{
    entry.ask.is_none() && ends_final(entry.used.as_slice())
}
