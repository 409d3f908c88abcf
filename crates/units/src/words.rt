//! The words of charging messages (TS 32.291, 6.1.6.3 and 6.1.7; the sets are this product's profile).
ghost use Rattle.std.specs.Prelude.{◌≡◌};
ghost use Rattle.units.specs.Words.{name_of_type, type_named, name_of_category, is_immediate, name_of_code, code_named, name_of_action, action_named, name_of_handling, handling_named, name_of_failover, failover_named, name_of_cause};

use crate::answer::{Action, Code, Handling};
use crate::trigger::TriggerType;

/// The cause of problem details (TS 29.500, 5.2.7.2; TS 32.291, 6.1.7; some are this product's own).
#[derive(Clone, Copy, PartialEq, Eq, Debug)]
pub enum Cause {
    /// The body is no JSON object.
    InvalidMessage,
    /// A required field is absent.
    MandatoryMissing,
    /// A required field is wrong.
    MandatoryIncorrect,
    /// Another field is wrong.
    OptionalIncorrect,
    /// There is no such resource.
    NotFound,
    /// The subscriber is unknown.
    UserUnknown,
    /// The charging session is unknown.
    UnknownReference,
    /// There is such a charging session already.
    SessionExists,
    /// The charging session is closed.
    SessionClosed,
    /// The sequence number is below one that was answered.
    SequencePassed,
    /// Memory was wanting (this product's own).
    NoMemory,
}

/// A trigger type as written (TS 32.291, 6.1.6.3.6).
pub fn name_of_type(trigger: TriggerType) -> &'static str
    ensures { result.now ≡ name_of_type trigger }
{
    match trigger {
        TriggerType::Final => "FINAL",
        TriggerType::QuotaExhausted => "QUOTA_EXHAUSTED",
        TriggerType::QuotaThreshold => "QUOTA_THRESHOLD",
        TriggerType::ValidityTime => "VALIDITY_TIME",
        TriggerType::QuotaHoldingTime => "QHT",
        TriggerType::TariffTimeChange => "TARIFF_TIME_CHANGE",
        TriggerType::VolumeLimit => "VOLUME_LIMIT",
        TriggerType::TimeLimit => "TIME_LIMIT",
        TriggerType::ForcedReauthorisation => "FORCED_REAUTHORISATION",
        TriggerType::QosChange => "QOS_CHANGE",
        TriggerType::RatChange => "RAT_CHANGE",
        TriggerType::PlmnChange => "PLMN_CHANGE",
        TriggerType::UserLocationChange => "USER_LOCATION_CHANGE",
        TriggerType::UeTimezoneChange => "UE_TIMEZONE_CHANGE",
        TriggerType::SessionAmbrChange => "SESSION_AMBR_CHANGE",
        TriggerType::ServingNodeChange => "SERVING_NODE_CHANGE",
        TriggerType::ManagementIntervention => "MANAGEMENT_INTERVENTION",
        TriggerType::MaxNumberOfChangesInChargingConditions => {
            "MAX_NUMBER_OF_CHANGES_IN_CHARGING_CONDITIONS"
        }
        TriggerType::AbnormalRelease => "ABNORMAL_RELEASE",
    }
}

/// The trigger type of a name.
pub fn type_named(name: &str) -> Option<TriggerType>
    ensures { result ≡ type_named name.now }
{
    match name {
        "FINAL" => Some(TriggerType::Final),
        "QUOTA_EXHAUSTED" => Some(TriggerType::QuotaExhausted),
        "QUOTA_THRESHOLD" => Some(TriggerType::QuotaThreshold),
        "VALIDITY_TIME" => Some(TriggerType::ValidityTime),
        "QHT" => Some(TriggerType::QuotaHoldingTime),
        "TARIFF_TIME_CHANGE" => Some(TriggerType::TariffTimeChange),
        "VOLUME_LIMIT" => Some(TriggerType::VolumeLimit),
        "TIME_LIMIT" => Some(TriggerType::TimeLimit),
        "FORCED_REAUTHORISATION" => Some(TriggerType::ForcedReauthorisation),
        "QOS_CHANGE" => Some(TriggerType::QosChange),
        "RAT_CHANGE" => Some(TriggerType::RatChange),
        "PLMN_CHANGE" => Some(TriggerType::PlmnChange),
        "USER_LOCATION_CHANGE" => Some(TriggerType::UserLocationChange),
        "UE_TIMEZONE_CHANGE" => Some(TriggerType::UeTimezoneChange),
        "SESSION_AMBR_CHANGE" => Some(TriggerType::SessionAmbrChange),
        "SERVING_NODE_CHANGE" => Some(TriggerType::ServingNodeChange),
        "MANAGEMENT_INTERVENTION" => Some(TriggerType::ManagementIntervention),
        "MAX_NUMBER_OF_CHANGES_IN_CHARGING_CONDITIONS" => {
            Some(TriggerType::MaxNumberOfChangesInChargingConditions)
        }
        "ABNORMAL_RELEASE" => Some(TriggerType::AbnormalRelease),
        _ => None,
    }
}

/// A trigger's category as written (TS 32.291, 6.1.6.3.7).
pub fn name_of_category(immediate: bool) -> &'static str
    ensures { result.now ≡ name_of_category immediate }
{
    if immediate {
        "IMMEDIATE_REPORT"
    } else {
        "DEFERRED_REPORT"
    }
}

/// Whether the category of this name is immediate.
pub fn is_immediate(name: &str) -> Option<bool>
    ensures { result ≡ is_immediate name.now }
{
    match name {
        "IMMEDIATE_REPORT" => Some(true),
        "DEFERRED_REPORT" => Some(false),
        _ => None,
    }
}

/// A result code as written (TS 32.291, 6.1.6.3.14).
pub fn name_of_code(code: Code) -> &'static str
    ensures { result.now ≡ name_of_code code }
{
    match code {
        Code::Success => "SUCCESS",
        Code::Denied => "END_USER_SERVICE_DENIED",
        Code::NotApplicable => "QUOTA_MANAGEMENT_NOT_APPLICABLE",
        Code::LimitReached => "QUOTA_LIMIT_REACHED",
        Code::RatingFailed => "RATING_FAILED",
    }
}

/// The result code of a text; one that is unknown is read as `Denied` (this product's own).
pub fn code_named(name: &str) -> Code
    ensures { result ≡ code_named name.now }
{
    match name {
        "SUCCESS" => Code::Success,
        "QUOTA_MANAGEMENT_NOT_APPLICABLE" => Code::NotApplicable,
        "QUOTA_LIMIT_REACHED" => Code::LimitReached,
        "RATING_FAILED" => Code::RatingFailed,
        _ => Code::Denied,
    }
}

/// The action of a final unit indication as written (TS 32.291, 6.1.6.3.4).
pub fn name_of_action(action: Action) -> &'static str
    ensures { result.now ≡ name_of_action action }
{
    match action {
        Action::Terminate => "TERMINATE",
        Action::Redirect => "REDIRECT",
        Action::RestrictAccess => "RESTRICT_ACCESS",
    }
}

/// The action of a name.
pub fn action_named(name: &str) -> Option<Action>
    ensures { result ≡ action_named name.now }
{
    match name {
        "TERMINATE" => Some(Action::Terminate),
        "REDIRECT" => Some(Action::Redirect),
        "RESTRICT_ACCESS" => Some(Action::RestrictAccess),
        _ => None,
    }
}

/// A failure handling as written (TS 32.291, 6.1.6.3.12).
pub fn name_of_handling(handling: Handling) -> &'static str
    ensures { result.now ≡ name_of_handling handling }
{
    match handling {
        Handling::Terminate => "TERMINATE",
        Handling::Continue => "CONTINUE",
        Handling::RetryAndTerminate => "RETRY_AND_TERMINATE",
    }
}

/// The failure handling of a name.
pub fn handling_named(name: &str) -> Option<Handling>
    ensures { result ≡ handling_named name.now }
{
    match name {
        "TERMINATE" => Some(Handling::Terminate),
        "CONTINUE" => Some(Handling::Continue),
        "RETRY_AND_TERMINATE" => Some(Handling::RetryAndTerminate),
        _ => None,
    }
}

/// Whether session failover is supported, as written (TS 32.291, 6.1.6.3.13).
pub fn name_of_failover(supported: bool) -> &'static str
    ensures { result.now ≡ name_of_failover supported }
{
    if supported {
        "FAILOVER_SUPPORTED"
    } else {
        "FAILOVER_NOT_SUPPORTED"
    }
}

/// Whether session failover is supported, by its word.
pub fn failover_named(name: &str) -> Option<bool>
    ensures { result ≡ failover_named name.now }
{
    match name {
        "FAILOVER_SUPPORTED" => Some(true),
        "FAILOVER_NOT_SUPPORTED" => Some(false),
        _ => None,
    }
}

/// A cause as written.
pub fn name_of_cause(cause: Cause) -> &'static str
    ensures { result.now ≡ name_of_cause cause }
{
    match cause {
        Cause::InvalidMessage => "INVALID_MSG_FORMAT",
        Cause::MandatoryMissing => "MANDATORY_IE_MISSING",
        Cause::MandatoryIncorrect => "MANDATORY_IE_INCORRECT",
        Cause::OptionalIncorrect => "OPTIONAL_IE_INCORRECT",
        Cause::NotFound => "NOT_FOUND",
        Cause::UserUnknown => "USER_UNKNOWN",
        Cause::UnknownReference => "UNKNOWN_REFERENCE",
        Cause::SessionExists => "SESSION_EXISTS",
        Cause::SessionClosed => "SESSION_CLOSED",
        Cause::SequencePassed => "SEQUENCE_PASSED",
        Cause::NoMemory => "NO_MEMORY",
    }
}
