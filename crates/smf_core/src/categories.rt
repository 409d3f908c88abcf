//! Trigger types in their order, and which of them are immediate where no rule says otherwise.
ghost use Rattle.std.specs.Prelude.{◌≡◌, ◌<◌};
ghost use Rattle.smf_model.specs.Categories.{order_of, same_type, is_immediate_by_default};

use units::TriggerType;

/// The place of a type in their order.
pub fn order_of(trigger: TriggerType) -> u64
    ensures order { result ≡ order_of trigger }
    ensures few { result < 32 }
{
    match trigger {
        TriggerType::Final => 0,
        TriggerType::QuotaExhausted => 1,
        TriggerType::QuotaThreshold => 2,
        TriggerType::ValidityTime => 3,
        TriggerType::QuotaHoldingTime => 4,
        TriggerType::TariffTimeChange => 5,
        TriggerType::VolumeLimit => 6,
        TriggerType::TimeLimit => 7,
        TriggerType::ForcedReauthorisation => 8,
        TriggerType::QosChange => 9,
        TriggerType::RatChange => 10,
        TriggerType::PlmnChange => 11,
        TriggerType::UserLocationChange => 12,
        TriggerType::UeTimezoneChange => 13,
        TriggerType::SessionAmbrChange => 14,
        TriggerType::ServingNodeChange => 15,
        TriggerType::ManagementIntervention => 16,
        TriggerType::MaxNumberOfChangesInChargingConditions => 17,
        TriggerType::AbnormalRelease => 18,
    }
}

/// Whether two types are the same.
pub fn is_same(a: TriggerType, b: TriggerType) -> bool
    ensures { result ≡ same_type a b }
{
    order_of(a) == order_of(b)
}

/// Whether a type is of immediate category where no rule says otherwise (this product's own table).
pub fn immediate_by_default(trigger: TriggerType) -> bool
    ensures { result ≡ is_immediate_by_default trigger }
{
    matches!(
        trigger,
        TriggerType::Final
            | TriggerType::QuotaExhausted
            | TriggerType::QuotaThreshold
            | TriggerType::ValidityTime
            | TriggerType::QuotaHoldingTime
            | TriggerType::VolumeLimit
            | TriggerType::TimeLimit
            | TriggerType::ForcedReauthorisation
            | TriggerType::PlmnChange
            | TriggerType::ManagementIntervention
    )
}
