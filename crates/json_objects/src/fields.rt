//! The fields of an object, read in order.
ghost use Rattle.std.specs.Prelude.{◌≡◌, ◌⊎◌, IfOk, IsOk, Ok, None, Some, option_map};
ghost use Rattle.serde_json.specs.View.{view};
ghost use Rattle.units.specs.Answers.{IsOrNoMemory};
ghost use Rattle.units.specs.declared.refusal.JsonRefusal.TheVariants as refusal;
ghost use Rattle.json_objects.specs.Fields.{given, is_object, number_to, number_32, volume, time, name, optional, needed, required, allowed, required_if, or_empty};

use moments::read_time;
use rows::is_name;
use serde_json::Value;
use std::alloc::{AllocError, Global};
use units::{JsonRefusal, List, Moment, Text};

/// The field of an object, where it is present and not `null`.
pub fn given<'v>(value: &'v Value, label: &str) -> Option<&'v Value>
    ensures { option_map (λ v. view v.now) result ≡ given label.now (view value.now) }
{
    let found = value.get(label)?;
    if found.is_null() {
        return None;
    }
    Some(found)
}

/// A whole number up to a bound.
pub fn number(value: &Value, most: u64) -> Option<u64>
    ensures { result ≡ number_to most (view value.now) }
{
    let n = value.as_u64()?;
    if n <= most { Some(n) } else { None }
}

/// A number from 0 to 2^32 - 1.
pub fn number_32(value: &Value) -> Option<u32>
    ensures { result ≡ number_32 (view value.now) }
{
    match value.as_u64() {
        Some(n) => if n <= 4294967295 {
            Some(n as u32)
        } else {
            None
        },
        None => None,
    }
}

/// A time whose moment is in range.
pub fn time(value: &Value) -> Option<Moment>
    ensures { result ≡ time (view value.now) }
{
    match value.as_str() {
        Some(text) => read_time(text),
        None => None,
    }
}

/// A name.
pub fn name(value: &Value) -> Option<&str>
    ensures { option_map (λ t. t.now) result ≡ name (view value.now) }
{
    match value.as_str() {
        Some(text) => if is_name(text.as_bytes()) {
            Some(text)
        } else {
            None
        },
        None => None,
    }
}

/// A number up to a bound in a field that may be absent; `None` where it is wrong.
pub fn optional_number(value: &Value, label: &str, most: u64) -> Option<Option<u64>>
    ensures { result ≡ optional (number_to most) (given label.now (view value.now)) }
{
    match given(value, label) {
        Some(found) => match number(found, most) {
            Some(n) => Some(Some(n)),
            None => None,
        },
        None => Some(None),
    }
}

/// A number from 0 to 2^32 - 1 in a field that may be absent; `None` where it is wrong.
pub fn optional_number_32(value: &Value, label: &str) -> Option<Option<u32>>
    ensures { result ≡ optional number_32 (given label.now (view value.now)) }
{
    match given(value, label) {
        Some(found) => match number_32(found) {
            Some(n) => Some(Some(n)),
            None => None,
        },
        None => Some(None),
    }
}

/// A time in a field that may be absent; `None` where it is wrong.
pub fn optional_time(value: &Value, label: &str) -> Option<Option<Moment>>
    ensures { result ≡ optional time (given label.now (view value.now)) }
{
    match given(value, label) {
        Some(found) => match time(found) {
            Some(moment) => Some(Some(moment)),
            None => None,
        },
        None => Some(None),
    }
}

/// A number from 0 to 2^32 - 1 in a field that has to be there.
pub fn needed_number_32(value: &Value, label: &str) -> Option<u32>
    ensures { result ≡ needed number_32 (given label.now (view value.now)) }
{
    match given(value, label) {
        Some(found) => number_32(found),
        None => None,
    }
}

/// A text of its own.
pub fn owned(alloc: Global, text: Option<&str>) -> Result<Option<Text>, AllocError>
    ensures copy { IfOk result (λ o. o ≡ option_map (λ t. t.now) text.entry) }
    ensures none { text.entry ≡ None → result ≡ Ok None }
{
    match text {
        Some(text) => Ok(Some(Text::from_text(alloc, text)?)),
        None => Ok(None),
    }
}

/// The refusal of a field that is absent.
pub fn missing(alloc: Global, label: &str) -> JsonRefusal
    ensures { (result ≡ refusal.Missing label.now) ⊎ (result ≡ refusal.OutOfMemory) }
{
    match Text::from_text(alloc, label) {
        Ok(field) => JsonRefusal::Missing { field },
        Err(_) => JsonRefusal::OutOfMemory,
    }
}

/// The refusal of a field that is wrong.
pub fn wrong(alloc: Global, label: &str) -> JsonRefusal
    ensures { (result ≡ refusal.Wrong label.now) ⊎ (result ≡ refusal.OutOfMemory) }
{
    match Text::from_text(alloc, label) {
        Ok(field) => JsonRefusal::Wrong { field },
        Err(_) => JsonRefusal::OutOfMemory,
    }
}

/// A field that has to be there: absent, wrong or right, which wants no memory.
pub fn required<T: Drop>(
    alloc: Global,
    label: &str,
    found: Option<Option<T>>,
) -> Result<T, JsonRefusal>
    ensures answer { IsOrNoMemory refusal.OutOfMemory result (required label.now found) }
    ensures right { IsOk (required label.now found) → result ≡ required label.now found }
{
    match found {
        Some(Some(value)) => Ok(value),
        Some(None) => Err(wrong(alloc, label)),
        None => Err(missing(alloc, label)),
    }
}

/// A field that may be absent: wrong, or right, which wants no memory.
pub fn allowed<T: Drop>(
    alloc: Global,
    label: &str,
    found: Option<Option<T>>,
) -> Result<Option<T>, JsonRefusal>
    ensures answer { IsOrNoMemory refusal.OutOfMemory result (allowed label.now found) }
    ensures right { IsOk (allowed label.now found) → result ≡ allowed label.now found }
{
    match found {
        Some(Some(value)) => Ok(Some(value)),
        Some(None) => Err(wrong(alloc, label)),
        None => Ok(None),
    }
}

/// A field that has to be there where `must` holds: absent, wrong or right, which wants no memory.
pub fn required_if<T: Drop>(
    alloc: Global,
    must: bool,
    label: &str,
    found: Option<Option<T>>,
) -> Result<Option<T>, JsonRefusal>
    ensures answer { IsOrNoMemory refusal.OutOfMemory result (required_if must label.now found) }
    ensures right { IsOk (required_if must label.now found) → result ≡ required_if must label.now found }
{
    match found {
        Some(Some(value)) => Ok(Some(value)),
        Some(None) => Err(wrong(alloc, label)),
        None => if must {
            Err(missing(alloc, label))
        } else {
            Ok(None)
        },
    }
}

/// A list that may be absent, which is as if it were empty.
pub fn or_empty<T>(alloc: Global, list: Option<List<T>>) -> List<T>
    ensures { result ≡ or_empty list }
{
    match list {
        Some(list) => list,
        None => List::new(alloc),
    }
}
