//! A record whose fields ascend, all known and of definite lengths, from octets in one pass.
ghost use Rattle.std.specs.Prelude.{◌≡◌, ◌≤◌, ◌<◌, ◌^◌, ℕ, true, false, [], length, take, IfSome, Ok};
ghost use Rattle.records.specs.declared.place.Place.TheVariants as places;
ghost use Rattle.records.specs.declared.record.Record.{Record as RecordSeen};
ghost use Rattle.records.specs.Fields.{integer_of, text_of, stamp_of};
ghost use Rattle.records.specs.Grammar.{no_field, no_used};
ghost use Rattle.records.specs.Usage.{unit_usage};
ghost use Rattle.records.specs.Reading.{with_trigger, no_used_of, with_used, with_container, with_usage_field, with_unit_usage, with_field, no_record, SpellsRecord, record_at};
ghost use Rattle.std.specs.Option.{option_map};
ghost use Rattle.records.specs.Ordered.{behind_kind, Makes, Has, BeginsTriggers, EndsUsed, BeginsUsages, EndsRecord};

use crate::fields::{integer, stamp, text};
use crate::place::Place;
use crate::record::Record;
use ber::{spelled_are_read, split_element};
use std::alloc::Global;
use units::{List, Moment, Text, UnitUsage, Used};

// The number of the element at the front, and what follows.
#[inline(always)]
fn number(limit: u64, identifier: u8, bytes: &[u8]) -> Option<(u64, &[u8])>
    ensures has { IfSome result (λ x. Has (integer_of limit) identifier bytes.now x.0 x.1.now) }
    ensures bound { IfSome result (λ x. x.0 ≤ limit) }
{
    let (contents, rest) = split_element(identifier, bytes)?;
    let number = integer(limit, contents)?;
    Some((number, rest))
}

// The same of a number of 32 bits.
#[inline(always)]
fn small(identifier: u8, bytes: &[u8]) -> Option<(u32, &[u8])>
    ensures { IfSome result (λ x. Has (integer_of 4294967295) identifier bytes.now x.0 x.1.now) }
{
    let (number, rest) = number(u64::from(u32::MAX), identifier, bytes)?;
    Some((number as u32, rest))
}

// The text of the element at the front, and what follows.
#[inline(always)]
fn words(alloc: Global, identifier: u8, bytes: &[u8]) -> Option<(Text, &[u8])>
    ensures has { IfSome result (λ x. Has text_of identifier bytes.now x.0 x.1.now) }
    ensures rest { IfSome result (λ x. length x.1.now < length bytes.now) }
{
    let (contents, rest) = split_element(identifier, bytes)?;
    let text = text(contents)?;
    match Text::from_text(alloc, text) {
        Ok(words) => Some((words, rest)),
        Err(_) => None,
    }
}

// Triggers, one at least.
fn triggers(alloc: Global, bytes: &[u8]) -> Option<List<Text>>
    ensures { IfSome result (λ l. Makes 10 (places.Triggers false) with_trigger [] l bytes.now) }
{
    if bytes.is_empty() {
        return None;
    }
    let mut all = List::new(alloc);
    let mut rest = bytes;
    while !rest.is_empty() {
        let (kind, behind) = words(alloc, 12, rest)?;
        match all.push(kind) {
            Ok(()) => {}
            Err(_) => return None,
        }
        rest = behind;
    }
    Some(all)
}

// What a container ends with.
#[derive(Drop)]
struct Closed {
    triggers: List<Text>,
    moment: Moment,
}

// The triggers of a container, if there are any, and what follows.
#[inline(always)]
fn trigger_field(alloc: Global, bytes: &[u8]) -> Option<(List<Text>, &[u8])>
    ensures { IfSome result (λ x. BeginsTriggers bytes.now x.0 x.1.now) }
{
    match split_element(166, bytes) {
        Some((contents, rest)) => {
            let kinds = triggers(alloc, contents)?;
            Some((kinds, rest))
        }
        None => Some((List::new(alloc), bytes)),
    }
}

// The triggers of a container, if there are any, and its trigger time stamp, up to its end.
#[inline(always)]
fn ending(alloc: Global, bytes: &[u8]) -> Option<Closed>
    ensures { IfSome result (λ x. EndsUsed bytes.now x.triggers x.moment) }
{
    let (triggers, rest) = trigger_field(alloc, bytes)?;
    let (octets, rest) = split_element(135, rest)?;
    let moment = stamp(octets)?;
    if !rest.is_empty() {
        return None;
    }
    Some(Closed { triggers, moment })
}

// A container, from its contents octets.
fn container(alloc: Global, group: u32, bytes: &[u8]) -> Option<Used>
    ensures { IfSome result (λ u. Makes 11 (places.Used no_used 0) with_used (no_used_of group, 0) (u, 0) bytes.now) }
{
    let (lsn, rest) = small(128, bytes)?;
    let (seconds, rest) = small(129, rest)?;
    let (up, rest) = number(u64::MAX, 130, rest)?;
    let (down, rest) = number(u64::MAX, 131, rest)?;
    let (first_octets, rest) = split_element(132, rest)?;
    let first = stamp(first_octets)?;
    let (last_octets, rest) = split_element(133, rest)?;
    let last = stamp(last_octets)?;
    let Closed { triggers, moment } = ending(alloc, rest)?;
    Some(Used {
        lsn,
        group,
        up,
        down,
        seconds,
        first,
        last,
        triggers,
        moment,
    })
}

// The containers of a unit usage.
fn containers(alloc: Global, group: u32, bytes: &[u8]) -> Option<List<Used>>
    ensures { IfSome result (λ l. Makes 12 places.Containers (with_container group) ([], 0) (l, 0) bytes.now) }
{
    let mut all = List::new(alloc);
    let mut rest = bytes;
    while !rest.is_empty() {
        let (contents, behind) = split_element(48, rest)?;
        let used = container(alloc, group, contents)?;
        match all.push(used) {
            Ok(()) => {}
            Err(_) => return None,
        }
        rest = behind;
    }
    Some(all)
}

// A unit usage, from its contents octets.
fn usage(alloc: Global, bytes: &[u8]) -> Option<UnitUsage>
    ensures { IfSome result (λ u. Makes 13 (places.Usage false false) with_usage_field (unit_usage 0 [], 0) (u, 0) bytes.now) }
{
    let (group, list) = small(128, bytes)?;
    let (contents, rest) = split_element(161, list)?;
    if !rest.is_empty() {
        return None;
    }
    let used = containers(alloc, group, contents)?;
    Some(UnitUsage {
        group,
        ask: None,
        used,
    })
}

// Unit usages, one at least.
fn usages(alloc: Global, bytes: &[u8]) -> Option<List<UnitUsage>>
    ensures { IfSome result (λ l. Makes 14 (places.Usages false) with_unit_usage ([], 0) (l, 0) bytes.now) }
{
    if bytes.is_empty() {
        return None;
    }
    let mut all = List::new(alloc);
    let mut rest = bytes;
    while !rest.is_empty() {
        let (contents, behind) = split_element(48, rest)?;
        let entry = usage(alloc, contents)?;
        match all.push(entry) {
            Ok(()) => {}
            Err(_) => return None,
        }
        rest = behind;
    }
    Some(all)
}

// The unit usages of a record, if there are any, and what follows.
#[inline(always)]
fn usage_field(alloc: Global, bytes: &[u8]) -> Option<(List<UnitUsage>, &[u8])>
    ensures { IfSome result (λ x. BeginsUsages bytes.now x.0 x.1.now) }
{
    match split_element(165, bytes) {
        Some((contents, rest)) => {
            let entries = usages(alloc, contents)?;
            Some((entries, rest))
        }
        None => Some((List::new(alloc), bytes)),
    }
}

// The values of a record behind its names and unit usages.
#[derive(Clone, Copy)]
struct Remaining {
    opening: Moment,
    duration: u32,
    sequence: u32,
    cause: u8,
    local: u32,
    charging_id: u32,
}

// All fields of a record behind its names and unit usages, up to its end.
#[inline(always)]
fn others(bytes: &[u8]) -> Option<Remaining>
    ensures { IfSome result (λ x. EndsRecord bytes.now x.opening x.duration x.sequence x.cause x.local x.charging_id) }
{
    let (opening_octets, rest) = split_element(134, bytes)?;
    let opening = stamp(opening_octets)?;
    let (duration, rest) = small(135, rest)?;
    let (sequence, rest) = small(136, rest)?;
    let (cause, rest) = number(255, 137, rest)?;
    let (local, rest) = small(139, rest)?;
    let (session, rest) = split_element(173, rest)?;
    let (charging_id, inner) = small(128, session)?;
    if !inner.is_empty() || !rest.is_empty() {
        return None;
    }
    Some(Remaining {
        opening,
        duration,
        sequence,
        cause: cause as u8,
        local,
        charging_id,
    })
}

// A record, from its contents octets.
fn fields(alloc: Global, bytes: &[u8]) -> Option<Record>
    ensures { IfSome result (λ r. Makes 15 (places.Record no_field) with_field (no_record, 0) (r, 0) bytes.now) }
{
    let (kind, rest) = number(200, 128, bytes)?;
    if kind != 200 {
        return None;
    }
    let (function, rest) = words(alloc, 129, rest)?;
    let (subscriber, rest) = words(alloc, 130, rest)?;
    let (consumer, rest) = words(alloc, 131, rest)?;
    let (usage, rest) = usage_field(alloc, rest)?;
    let others = others(rest)?;
    Some(Record {
        function,
        subscriber,
        consumer,
        charging_id: others.charging_id,
        usage,
        opening: others.opening,
        duration: others.duration,
        sequence: others.sequence,
        cause: others.cause,
        local: others.local,
    })
}

// What follows the first two of the three identifier octets of a record.
#[inline(always)]
fn behind_kind(bytes: &[u8]) -> Option<&[u8]>
    ensures exact { option_map (λ x. x.now) result ≡ behind_kind bytes.now }
    ensures rest { IfSome result (λ x. length x.now ≤ length bytes.now) }
{
    match bytes {
        [191, 129, rest @ ..] => Some(rest),
        _ => None,
    }
}

// The record at the front, how many octets it takes, and that memory holds the octets.
fn record(alloc: Global, bytes: &[u8]) -> Option<(Record, usize)>
    ensures spelled { IfSome result (λ x. (x.1 ≤ length bytes.now) × SpellsRecord (take x.1 bytes.now) (x.0, 0)) }
    ensures bound { length bytes.now < 2 ^ 63 }
{
    let length = bytes.len();
    let tail = behind_kind(bytes)?;
    let (contents, rest) = split_element(72, tail)?;
    let record = fields(alloc, contents)?;
    Some((record, length - rest.len()))
}

/// The record at the front of the octets, where its fields ascend, all are known, and all lengths are definite, and how many
/// octets it takes; so are all records that this product writes. None where it is another, or memory is wanting.
pub fn ordered(alloc: Global, bytes: &[u8]) -> Option<(Record, usize)>
    // It is what is read.
    ensures exact { IfSome result (λ x. record_at bytes.now ≡ Ok (x.0, x.1, 0)) }
    // It is spelled so.
    ensures found { IfSome result (λ x. (x.1 ≤ length bytes.now) × SpellsRecord (take x.1 bytes.now) (x.0, 0)) }
    // What is spelled so is read.
    ensures only { (r : RecordSeen) (n unknown : ℕ) → n ≤ length bytes.now → SpellsRecord (take n bytes.now) (r, unknown) → record_at bytes.now ≡ Ok (r, n, unknown) }
{
    spelled_are_read(Place::Start);
    record(alloc, bytes)
}
