//! A body that is a JSON object.
ghost use Rattle.std.specs.Prelude.{◌≡◌, ◌⊎◌, Some, None, IfOk, IfErr, Err};
ghost use Rattle.serde_json.specs.View.{view};
ghost use Rattle.units.specs.declared.refusal.JsonRefusal.TheVariants as refusal;
ghost use Rattle.json_objects.specs.Body.{object_in};
ghost use Rattle.json_objects.specs.Sizes.{BodiesHoldTheirObjects};

use serde_json::Value;
use std::alloc::Global;
use units::JsonRefusal;

/// A body as a JSON object: `NotJson` exactly where it is none.
#[tactic(auto, using(crate::proofs::BodyObjects::objects))]
pub fn read_object(alloc: Global, body: &[u8]) -> Result<Value, JsonRefusal>
    ensures ok { IfOk result (λ v. object_in body.now ≡ Some (view v)) }
    ensures not_json { result ≡ Err refusal.NotJson → object_in body.now ≡ None }
    ensures kinds { IfErr result (λ e. (e ≡ refusal.NotJson) ⊎ (e ≡ refusal.OutOfMemory)) }
{
    match Value::from_slice(alloc, body) {
        Ok(value) => if value.is_object() {
            Ok(value)
        } else {
            Err(JsonRefusal::NotJson)
        },
        Err(e) => if e.is_memory() {
            Err(JsonRefusal::OutOfMemory)
        } else {
            Err(JsonRefusal::NotJson)
        },
    }
}

/// An object that was read takes at most the bytes of its body: a law for proofs, which does nothing.
pub fn bodies_hold_their_objects()
    ensures { BodiesHoldTheirObjects }
{}
