//! The cause that a refusal of a context has.
ghost use Rattle.std.specs.Prelude.{◌≡◌};
ghost use Rattle.spend_json.specs.Cause.{cause_of, is_required};

use json_objects::cause_by;
use units::{Cause, JsonRefusal};

fn is_required(label: &str) -> bool
    ensures { result ≡ is_required label.now }
{
    label == "supi" || label == "notifUri"
}

/// The cause of a refused spending limit context, for whoever answers it over HTTP (TS 29.500, 5.2.7.2): `InvalidMessage`
/// for a body that is no JSON object, `MandatoryMissing` for a field that is absent, `MandatoryIncorrect` for a wrong
/// `supi` or `notifUri`, `OptionalIncorrect` for another; `NoMemory` (this product's own) where memory was wanting.
pub fn cause_of(refusal: &JsonRefusal) -> Cause
    ensures { result ≡ cause_of refusal.now }
{
    match refusal {
        JsonRefusal::Wrong { field } => cause_by(is_required(field.as_str()), refusal),
        JsonRefusal::NotJson | JsonRefusal::Missing { .. } | JsonRefusal::OutOfMemory => {
            cause_by(true, refusal)
        }
    }
}
