//! The cause that a refusal of a body has.
ghost use Rattle.std.specs.Prelude.{◌≡◌};
ghost use Rattle.charging_json.specs.Cause.{is_always_required, is_required_in_create, is_required, cause_of};

use crate::request_reader::is_create;
use json_objects::cause_by;
use units::{Cause, JsonRefusal, Operation};

fn is_always_required(label: &str) -> bool
    ensures { result ≡ is_always_required label.now }
{
    label == "nfConsumerIdentification"
        || label == "invocationTimeStamp"
        || label == "invocationSequenceNumber"
}

fn is_required_in_create(label: &str) -> bool
    ensures { result ≡ is_required_in_create label.now }
{
    label == "subscriberIdentifier" || label == "chargingId"
}

// Whether a request of an operation has to have a field.
fn is_required(operation: Operation, label: &str) -> bool
    ensures { result ≡ is_required operation label.now }
{
    is_always_required(label) || is_create(operation) && is_required_in_create(label)
}

/// The cause of a refused charging data request of an operation, for whoever answers it over HTTP (TS 29.500, 5.2.7.2):
/// `InvalidMessage` for a body that is no JSON object, `MandatoryMissing` for a field that is absent, `MandatoryIncorrect`
/// for a wrong field that the operation requires, `OptionalIncorrect` for another; `NoMemory` (this product's own) where
/// memory was wanting.
pub fn cause_of(operation: Operation, refusal: &JsonRefusal) -> Cause
    ensures { result ≡ cause_of operation refusal.now }
{
    match refusal {
        JsonRefusal::Wrong { field } => cause_by(is_required(operation, field.as_str()), refusal),
        JsonRefusal::NotJson | JsonRefusal::Missing { .. } | JsonRefusal::OutOfMemory => {
            cause_by(true, refusal)
        }
    }
}
