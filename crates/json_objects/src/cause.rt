//! The cause of a refusal, by whether its field is required.
ghost use Rattle.std.specs.Prelude.{◌≡◌};
ghost use Rattle.json_objects.specs.Cause.{cause_by};

use units::{Cause, JsonRefusal};

/// The cause of a refused body, for whoever answers over HTTP (TS 29.500, 5.2.7.2), where a wrong field is required or is
/// not: `InvalidMessage` for a body that is no JSON object, `MandatoryMissing` for a field that is absent,
/// `MandatoryIncorrect` for a wrong field that is required, `OptionalIncorrect` for another; `NoMemory` (this product's
/// own) where memory was wanting.
pub fn cause_by(required: bool, refusal: &JsonRefusal) -> Cause
    ensures { result ≡ cause_by (λ label. required) refusal.now }
{
    match refusal {
        JsonRefusal::NotJson => Cause::InvalidMessage,
        JsonRefusal::Missing { .. } => Cause::MandatoryMissing,
        JsonRefusal::Wrong { .. } => if required {
            Cause::MandatoryIncorrect
        } else {
            Cause::OptionalIncorrect
        },
        JsonRefusal::OutOfMemory => Cause::NoMemory,
    }
}
