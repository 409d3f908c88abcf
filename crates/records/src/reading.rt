//! A record from octets.
ghost use Rattle.std.specs.Prelude.{◌≡◌, ◌≤◌, ℕ, [], length, take, IfOk, Ok};
ghost use Rattle.ber.specs.Tape.{seen, row_seen};
ghost use Rattle.ber.specs.Reading.{Gives};
ghost use Rattle.records.specs.declared.record.Record.{Record as RecordSeen};
ghost use Rattle.records.specs.Reading.{number_in, text_in, moment_in, elements_in, is_tag, counted, over, with_trigger, no_used_of, with_amount, is_known_used, with_used, with_container, with_usage_field, with_unit_usage, with_session, with_plain, is_known, with_field, no_record, read_in, SpellsRecord, record_at};
ghost use Rattle.records.specs.Usage.{unit_usage};

use crate::contents::{counted, is_known, is_tag, moment, number, small, words};
use crate::ordered::ordered;
use crate::place::Place;
use crate::record::Record;
use ber::{BerRefusal, Row, Tape, TlvRef};
use std::alloc::{AllocError, Global};
use units::{List, Moment, Text, UnitUsage, Used};

fn triggers(alloc: Global, kinds: Row) -> Result<List<Text>, AllocError>
    ensures { IfOk result (λ l. l ≡ over with_trigger [] (row_seen kinds.entry)) }
{
    let mut all = List::new(alloc);
    let mut left = kinds;
    while let Some((kind, rest)) = left.split_first() {
        all.push(words(alloc, &kind)?)?;
        left = rest;
    }
    Ok(all)
}

fn triggers_in(alloc: Global, field: &TlvRef) -> Result<List<Text>, AllocError>
    ensures { IfOk result (λ l. l ≡ over with_trigger [] (elements_in (seen field.now))) }
{
    match field.inner() {
        Some(kinds) => triggers(alloc, kinds),
        None => Ok(List::new(alloc)),
    }
}

fn with_amount(used: Used, field: &TlvRef) -> Used
    ensures { result ≡ with_amount used (seen field.now) }
{
    let mut used = used;
    if is_tag(0, field) {
        used.lsn = small(field);
    } else if is_tag(1, field) {
        used.seconds = small(field);
    } else if is_tag(2, field) {
        used.up = number(u64::MAX, field);
    } else if is_tag(3, field) {
        used.down = number(u64::MAX, field);
    } else if is_tag(4, field) {
        used.first = moment(field);
    } else if is_tag(5, field) {
        used.last = moment(field);
    } else if is_tag(7, field) {
        used.moment = moment(field);
    }
    used
}

fn is_known_used(field: &TlvRef) -> bool
    ensures { result ≡ is_known_used (seen field.now) }
{
    let tag = field.tag();
    tag.class == 2 && tag.number <= 7
}

fn with_used(
    alloc: Global,
    used: Used,
    unknown: u32,
    field: &TlvRef,
) -> Result<(Used, u32), AllocError>
    ensures { IfOk result (λ x. x ≡ with_used (used, unknown) (seen field.now)) }
{
    if is_tag(6, field) {
        let mut used = used;
        used.triggers = triggers_in(alloc, field)?;
        Ok((used, unknown))
    } else if is_known_used(field) {
        Ok((with_amount(used, field), unknown))
    } else {
        Ok((used, counted(unknown)))
    }
}

fn no_used_of(alloc: Global, group: u32) -> Used
    ensures { result ≡ no_used_of group }
{
    Used {
        lsn: 0,
        group,
        up: 0,
        down: 0,
        seconds: 0,
        first: Moment::first(),
        last: Moment::first(),
        triggers: List::new(alloc),
        moment: Moment::first(),
    }
}

fn container(
    alloc: Global,
    group: u32,
    unknown: u32,
    fields: Row,
) -> Result<(Used, u32), AllocError>
    ensures { IfOk result (λ x. x ≡ over with_used (no_used_of group, unknown) (row_seen fields.entry)) }
{
    let mut read = (no_used_of(alloc, group), unknown);
    let mut left = fields;
    while let Some((field, rest)) = left.split_first() {
        let (used, unknown) = read;
        read = with_used(alloc, used, unknown, &field)?;
        left = rest;
    }
    Ok(read)
}

fn container_in(
    alloc: Global,
    group: u32,
    unknown: u32,
    field: &TlvRef,
) -> Result<(Used, u32), AllocError>
    ensures { IfOk result (λ x. x ≡ over with_used (no_used_of group, unknown) (elements_in (seen field.now))) }
{
    match field.inner() {
        Some(fields) => container(alloc, group, unknown, fields),
        None => Ok((no_used_of(alloc, group), unknown)),
    }
}

fn containers(
    alloc: Global,
    group: u32,
    unknown: u32,
    list: Row,
) -> Result<(List<Used>, u32), AllocError>
    ensures { IfOk result (λ x. x ≡ over (with_container group) ([], unknown) (row_seen list.entry)) }
{
    let mut all = List::new(alloc);
    let mut count = unknown;
    let mut left = list;
    while let Some((field, rest)) = left.split_first() {
        let (used, unknown) = container_in(alloc, group, count, &field)?;
        all.push(used)?;
        count = unknown;
        left = rest;
    }
    Ok((all, count))
}

fn containers_in(
    alloc: Global,
    group: u32,
    unknown: u32,
    field: &TlvRef,
) -> Result<(List<Used>, u32), AllocError>
    ensures { IfOk result (λ x. x ≡ over (with_container group) ([], unknown) (elements_in (seen field.now))) }
{
    match field.inner() {
        Some(list) => containers(alloc, group, unknown, list),
        None => Ok((List::new(alloc), unknown)),
    }
}

fn with_usage_field(
    alloc: Global,
    usage: UnitUsage,
    unknown: u32,
    field: &TlvRef,
) -> Result<(UnitUsage, u32), AllocError>
    ensures { IfOk result (λ x. x ≡ with_usage_field (usage, unknown) (seen field.now)) }
{
    if is_tag(0, field) {
        let UnitUsage {
            group: _,
            ask: _,
            used,
        } = usage;
        Ok((unit_usage(small(field), used), unknown))
    } else if is_tag(1, field) {
        let group = usage.group;
        let (used, unknown) = containers_in(alloc, group, unknown, field)?;
        Ok((unit_usage(group, used), unknown))
    } else {
        Ok((usage, counted(unknown)))
    }
}

fn unit_usage(group: u32, used: List<Used>) -> UnitUsage
    ensures { result ≡ unit_usage group used }
{
    UnitUsage {
        group,
        ask: None,
        used,
    }
}

fn usage(alloc: Global, unknown: u32, fields: Row) -> Result<(UnitUsage, u32), AllocError>
    ensures { IfOk result (λ x. x ≡ over with_usage_field (unit_usage 0 [], unknown) (row_seen fields.entry)) }
{
    let mut read = (unit_usage(0, List::new(alloc)), unknown);
    let mut left = fields;
    while let Some((field, rest)) = left.split_first() {
        let (usage, unknown) = read;
        read = with_usage_field(alloc, usage, unknown, &field)?;
        left = rest;
    }
    Ok(read)
}

fn usage_in(alloc: Global, unknown: u32, field: &TlvRef) -> Result<(UnitUsage, u32), AllocError>
    ensures { IfOk result (λ x. x ≡ over with_usage_field (unit_usage 0 [], unknown) (elements_in (seen field.now))) }
{
    match field.inner() {
        Some(fields) => usage(alloc, unknown, fields),
        None => Ok((unit_usage(0, List::new(alloc)), unknown)),
    }
}

fn usages(alloc: Global, unknown: u32, list: Row) -> Result<(List<UnitUsage>, u32), AllocError>
    ensures { IfOk result (λ x. x ≡ over with_unit_usage ([], unknown) (row_seen list.entry)) }
{
    let mut all = List::new(alloc);
    let mut count = unknown;
    let mut left = list;
    while let Some((field, rest)) = left.split_first() {
        let (usage, unknown) = usage_in(alloc, count, &field)?;
        all.push(usage)?;
        count = unknown;
        left = rest;
    }
    Ok((all, count))
}

fn usages_in(
    alloc: Global,
    unknown: u32,
    field: &TlvRef,
) -> Result<(List<UnitUsage>, u32), AllocError>
    ensures { IfOk result (λ x. x ≡ over with_unit_usage ([], unknown) (elements_in (seen field.now))) }
{
    match field.inner() {
        Some(list) => usages(alloc, unknown, list),
        None => Ok((List::new(alloc), unknown)),
    }
}

fn with_session(id: u32, unknown: u32, field: &TlvRef) -> (u32, u32)
    ensures { result ≡ with_session (id, unknown) (seen field.now) }
{
    if is_tag(0, field) {
        (small(field), unknown)
    } else {
        (id, counted(unknown))
    }
}

fn session(unknown: u32, fields: Row) -> (u32, u32)
    ensures { result ≡ over with_session (0, unknown) (row_seen fields.entry) }
{
    let mut read = (0, unknown);
    let mut left = fields;
    while let Some((field, rest)) = left.split_first() {
        let (id, unknown) = read;
        read = with_session(id, unknown, &field);
        left = rest;
    }
    read
}

fn session_in(unknown: u32, field: &TlvRef) -> (u32, u32)
    ensures { result ≡ over with_session (0, unknown) (elements_in (seen field.now)) }
{
    match field.inner() {
        Some(fields) => session(unknown, fields),
        None => (0, unknown),
    }
}

fn with_plain(alloc: Global, before: Record, field: &TlvRef) -> Result<Record, AllocError>
    ensures { IfOk result (λ r. r ≡ with_plain before (seen field.now)) }
{
    let mut record = before;
    if is_tag(1, field) {
        record.function = words(alloc, field)?;
    } else if is_tag(2, field) {
        record.subscriber = words(alloc, field)?;
    } else if is_tag(3, field) {
        record.consumer = words(alloc, field)?;
    } else if is_tag(6, field) {
        record.opening = moment(field);
    } else if is_tag(7, field) {
        record.duration = small(field);
    } else if is_tag(8, field) {
        record.sequence = small(field);
    } else if is_tag(9, field) {
        record.cause = number(255, field) as u8;
    } else if is_tag(11, field) {
        record.local = small(field);
    }
    Ok(record)
}

fn with_field(
    alloc: Global,
    before: Record,
    unknown: u32,
    field: &TlvRef,
) -> Result<(Record, u32), AllocError>
    ensures { IfOk result (λ x. x ≡ with_field (before, unknown) (seen field.now)) }
{
    let mut record = before;
    if is_tag(5, field) {
        let (usage, unknown) = usages_in(alloc, unknown, field)?;
        record.usage = usage;
        return Ok((record, unknown));
    }
    if is_tag(13, field) {
        let (id, unknown) = session_in(unknown, field);
        record.charging_id = id;
        return Ok((record, unknown));
    }
    if is_known(field) {
        return Ok((with_plain(alloc, record, field)?, unknown));
    }
    Ok((record, counted(unknown)))
}

fn no_record(alloc: Global) -> Record
    ensures { result ≡ no_record }
{
    Record {
        function: Text::new(alloc),
        subscriber: Text::new(alloc),
        consumer: Text::new(alloc),
        charging_id: 0,
        usage: List::new(alloc),
        opening: Moment::first(),
        duration: 0,
        sequence: 0,
        cause: 0,
        local: 0,
    }
}

fn fields(alloc: Global, row: Row) -> Result<(Record, u32), AllocError>
    ensures { IfOk result (λ x. x ≡ over with_field (no_record, 0) (row_seen row.entry)) }
{
    let mut read = (no_record(alloc), 0);
    let mut left = row;
    while let Some((field, rest)) = left.split_first() {
        let (record, unknown) = read;
        read = with_field(alloc, record, unknown, &field)?;
        left = rest;
    }
    Ok(read)
}

fn made(alloc: Global, tlv: &TlvRef) -> Result<(Record, u32), AllocError>
    ensures { IfOk result (λ x. x ≡ read_in (seen tlv.now)) }
{
    match tlv.inner() {
        Some(row) => fields(alloc, row),
        None => Ok((no_record(alloc), 0)),
    }
}

#[tactic(auto, unfolding(crate::specs::Reading::record_at))]
fn all(alloc: Global, bytes: &[u8]) -> Result<(Record, usize, u32), BerRefusal>
    ensures exact { Gives {Y = RecordSeen × ℕ × ℕ} (λ x. x) result (record_at bytes.now) }
    ensures found { IfOk result (λ x. (x.1 ≤ length bytes.now) × SpellsRecord (take x.1 bytes.now) (x.0, x.2)) }
    ensures only { (r : RecordSeen) (n unknown : ℕ) → n ≤ length bytes.now → SpellsRecord (take n bytes.now) (r, unknown) → Gives {Y = RecordSeen × ℕ × ℕ} (λ x. x) result (Ok (r, n, unknown)) }
{
    let mut tape = Tape::with_places(alloc, 64)?;
    let (tlv, count) = ber::read(&mut tape, Place::Start, bytes)?;
    let (record, unknown) = made(alloc, &tlv)?;
    Ok((record, count, unknown))
}

/// The record at the front of the octets, how many octets it takes, whatever follows, and how many fields that are not known
/// it has (TS 32.298, 5.1.5.0; X.690 8.1). Else the first octet of the element that has the fault that is met first in
/// reading from the left (E21).
pub fn read_record(alloc: Global, bytes: &[u8]) -> Result<(Record, usize, u32), BerRefusal>
    // The octet of the first fault, and what is read.
    ensures exact { Gives {Y = RecordSeen × ℕ × ℕ} (λ x. x) result (record_at bytes.now) }
    // What is read is spelled so.
    ensures found { IfOk result (λ x. (x.1 ≤ length bytes.now) × SpellsRecord (take x.1 bytes.now) (x.0, x.2)) }
    // What is spelled so is read, unless memory is wanting.
    ensures only { (r : RecordSeen) (n unknown : ℕ) → n ≤ length bytes.now → SpellsRecord (take n bytes.now) (r, unknown) → Gives {Y = RecordSeen × ℕ × ℕ} (λ x. x) result (Ok (r, n, unknown)) }
{
    match ordered(alloc, bytes) {
        Some((record, count)) => Ok((record, count, 0)),
        None => all(alloc, bytes),
    }
}
