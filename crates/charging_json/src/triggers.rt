//! The triggers of a request, and what a trigger says, read.
ghost use Rattle.std.specs.Prelude.{◌≡◌, codes, IfOk, Some, option_map, option_and_then};
ghost use Rattle.std.specs.List.{list_all};
ghost use Rattle.serde_json.specs.View.{view};
ghost use Rattle.units.specs.Names.{is_name_byte, is_kind};
ghost use Rattle.json_objects.specs.Fields.{given, optional, list_of};
ghost use Rattle.charging_json.specs.Triggers.{category, kind_of, limits_of, sound_kind};

use json_objects::{given, optional_number, optional_number_32, owned};
use serde_json::Value;
use std::alloc::{AllocError, Global};
use units::{List, Text, is_immediate};

/// What a trigger says beside its type: whether it is immediate, and its limits.
#[derive(Clone, Copy, Debug, PartialEq, Eq)]
pub struct Limits {
    pub immediate: bool,
    pub volume: Option<u64>,
    pub seconds: Option<u32>,
    pub changes: Option<u32>,
}

fn are_kind_bytes(text: &[u8]) -> bool
    ensures { result ≡ list_all is_name_byte text.now }
{
    text.iter().all(|byte| 33 <= *byte && *byte <= 126 && *byte != b',' && *byte != b'"')
}

// Whether a text may be a trigger's type.
fn is_kind(text: &[u8]) -> bool
    ensures { result ≡ is_kind text.now }
{
    1 <= text.len() && text.len() <= 64 && are_kind_bytes(text)
}

// The category, where there is one; `None` where it is wrong.
fn optional_category(value: &Value) -> Option<Option<bool>>
    ensures { result ≡ optional category (given (codes "triggerCategory") (view value.now)) }
{
    match given(value, "triggerCategory") {
        Some(found) => match found.as_str() {
            Some(text) => match is_immediate(text) {
                Some(immediate) => Some(Some(immediate)),
                None => None,
            },
            None => None,
        },
        None => Some(None),
    }
}

/// The category and limits of a trigger, where they are right.
pub fn read_limits(value: &Value) -> Option<Limits>
    ensures { result ≡ limits_of (view value.now) }
{
    let immediate = optional_category(value)?;
    let seconds = optional_number_32(value, "timeLimit")?;
    let changes = optional_number_32(value, "maxNumberOfccc")?;
    let wide = optional_number(value, "volumeLimit64", 1 << 60)?;
    let narrow = optional_number(value, "volumeLimit", 1 << 60)?;
    Some(Limits {
        immediate: immediate.unwrap_or(true),
        volume: wide.or(narrow),
        seconds,
        changes,
    })
}

/// The type that a trigger names.
pub fn kind(value: &Value) -> Option<&str>
    ensures { option_map (λ t. t.now) result ≡ kind_of (view value.now) }
{
    let text = given(value, "triggerType")?.as_str()?;
    if is_kind(text.as_bytes()) {
        Some(text)
    } else {
        None
    }
}

// The type of a trigger whose other members are right.
fn sound_kind(value: &Value) -> Option<&str>
    ensures { option_map (λ t. t.now) result ≡ sound_kind (view value.now) }
{
    let found = kind(value)?;
    match read_limits(value) {
        Some(_limits) => Some(found),
        None => None,
    }
}

// The same as a text of its own.
fn owned_kind(alloc: Global, value: &Value) -> Result<Option<Text>, AllocError>
    ensures { IfOk result (λ o. o ≡ sound_kind (view value.now)) }
{
    owned(alloc, sound_kind(value))
}

/// The types of a list of triggers; `None` where one is wrong.
pub fn kinds(alloc: Global, value: &Value) -> Result<Option<List<Text>>, AllocError>
    ensures { IfOk result (λ o. o ≡ list_of sound_kind (view value.now)) }
{
    let Some(items) = value.as_array() else {
        return Ok(None);
    };
    let mut found = Vec::new(alloc);
    for item in items {
        match owned_kind(alloc, item)? {
            Some(kind) => found.push(kind)?,
            None => return Ok(None),
        }
    }
    Ok(Some(List::from_vec(found)))
}
