//! Time stamp and number of an invocation, read.
ghost use Rattle.std.specs.Prelude.{codes, option_map};
ghost use Rattle.serde_json.specs.View.{view};
ghost use Rattle.units.specs.Answers.{IsOrNoMemory};
ghost use Rattle.units.specs.declared.refusal.JsonRefusal.TheVariants as refusal;
ghost use Rattle.json_objects.specs.Fields.{given, number_32, time, required};

use json_objects::{given, number_32, required, time};
use serde_json::Value;
use std::alloc::Global;
use units::{JsonRefusal, Moment};

/// The invocation time stamp.
pub fn stamp(alloc: Global, value: &Value) -> Result<Moment, JsonRefusal>
    ensures { IsOrNoMemory refusal.OutOfMemory result (required (codes "invocationTimeStamp") (option_map time (given (codes "invocationTimeStamp") (view value.now)))) }
{
    let found = match given(value, "invocationTimeStamp") {
        Some(found) => Some(time(found)),
        None => None,
    };
    required(alloc, "invocationTimeStamp", found)
}

/// The invocation sequence number.
pub fn sequence_number(alloc: Global, value: &Value) -> Result<u32, JsonRefusal>
    ensures { IsOrNoMemory refusal.OutOfMemory result (required (codes "invocationSequenceNumber") (option_map number_32 (given (codes "invocationSequenceNumber") (view value.now)))) }
{
    let found = match given(value, "invocationSequenceNumber") {
        Some(found) => Some(number_32(found)),
        None => None,
    };
    required(alloc, "invocationSequenceNumber", found)
}
