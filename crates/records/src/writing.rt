//! A record as octets, written from its last field to its first.
ghost use Rattle.std.specs.Prelude.{◌≡◌, ◌≤◌, ◌++◌, ◌∷◌, [], ℕ, List as Listed, length, IfOk, OnOk};
ghost use Rattle.moments.specs.Stamp.{stamp_octets};
ghost use Rattle.ber.specs.Element as elements_of;
ghost use Rattle.ber.specs.Element.{Elements, more, none};
ghost use Rattle.ber.specs.Spelling.{Spells};
ghost use Rattle.ber.specs.Written.{written, onto, IsBounded};
ghost use Rattle.records.specs.Fitting.{FitsRecord};
ghost use Rattle.records.specs.Reading.{SpellsRecord};
ghost use Rattle.records.specs.Fields.{integer_count, integer_octets};
ghost use Rattle.records.specs.Written.{number_field, text_field, stamp_field, each, trigger_element, triggers_field, amount_fields, time_fields, trigger_fields, used_element, usage_element, usage_field, name_fields, session_field, other_fields, record_element};

use crate::record::Record;
use ber::{BackwardWriter, Tag};
use moments::{stamps_read_back, to_bcd};
use std::alloc::Global;
use units::{List, Moment, OutOfMemory, Text, UnitUsage, Used};

// How many octets a number below 2 ^ 63 takes.
fn octet_count(n: u64) -> usize
    ensures count { result ≡ integer_count n }
    ensures bound { result ≤ 8 }
{
    if n < 1 << 7 {
        1
    } else if n < 1 << 15 {
        2
    } else if n < 1 << 23 {
        3
    } else if n < 1 << 31 {
        4
    } else if n < 1 << 39 {
        5
    } else if n < 1 << 47 {
        6
    } else if n < 1 << 55 {
        7
    } else {
        8
    }
}

// A field of octets.
#[inline(always)]
fn field(out: &mut BackwardWriter, number: u32, contents: &[u8]) -> Result<(), OutOfMemory>
    ensures { OnOk result (out.new ≡ written (elements_of.primitive 2 number contents.now) ++ out.old) }
{
    let tag = Tag {
        class: 2,
        constructed: false,
        number,
    };
    out.primitive(&tag, contents)
}

// An element around those in front of the last octets.
fn close(out: &mut BackwardWriter, class: u8, number: u32, behind: usize) -> Result<(), OutOfMemory>
    requires { behind ≤ length out.old }
    ensures { (inner : Elements) (rest : Listed ℕ) → length rest ≡ behind → out.old ≡ onto inner rest → OnOk result (out.new ≡ written (elements_of.constructed class number inner) ++ rest) }
{
    let tag = Tag {
        class,
        constructed: true,
        number,
    };
    out.close(&tag, behind)
}

// A field with a number.
fn number(out: &mut BackwardWriter, tag: u32, n: u64) -> Result<(), OutOfMemory>
    ensures { OnOk result (out.new ≡ written (number_field tag n) ++ out.old) }
{
    if n < 1 << 7 {
        return field(out, tag, &[n as u8]);
    }
    let octets = n.to_be_bytes();
    if n < 1 << 63 {
        let (_, last) = octets.split_at(8 - octet_count(n));
        return field(out, tag, last);
    }
    let [a, b, c, d, e, f, g, h] = octets;
    field(out, tag, &[0, a, b, c, d, e, f, g, h])
}

// The same of a smaller number.
fn small(out: &mut BackwardWriter, tag: u32, n: u32) -> Result<(), OutOfMemory>
    ensures { OnOk result (out.new ≡ written (number_field tag n) ++ out.old) }
{
    number(out, tag, u64::from(n))
}

fn text(out: &mut BackwardWriter, tag: u32, text: &Text) -> Result<(), OutOfMemory>
    ensures { OnOk result (out.new ≡ written (text_field tag text.now) ++ out.old) }
{
    field(out, tag, text.as_str().as_bytes())
}

fn stamp(out: &mut BackwardWriter, tag: u32, moment: Moment) -> Result<(), OutOfMemory>
    ensures { OnOk result (out.new ≡ written (stamp_field tag moment) ++ out.old) }
{
    field(out, tag, &to_bcd(moment))
}

// A trigger, as a UTF8String.
fn trigger(out: &mut BackwardWriter, kind: &Text) -> Result<(), OutOfMemory>
    ensures { OnOk result (out.new ≡ written (trigger_element kind.now) ++ out.old) }
{
    let tag = Tag {
        class: 0,
        constructed: false,
        number: 12,
    };
    out.primitive(&tag, kind.as_str().as_bytes())
}

fn triggers(out: &mut BackwardWriter, kinds: &[Text]) -> Result<(), OutOfMemory>
    ensures { OnOk result (out.new ≡ onto (each trigger_element kinds.now) out.old) }
{
    let mut left = kinds;
    while let Some((last, front)) = left.split_last() {
        trigger(out, last)?;
        left = front;
    }
    Ok(())
}

// The field of the triggers, where there are some.
fn triggers_of(out: &mut BackwardWriter, kinds: &[Text]) -> Result<(), OutOfMemory>
    ensures { OnOk result (out.new ≡ onto (triggers_field kinds.now) out.old) }
{
    if kinds.is_empty() {
        return Ok(());
    }
    let behind = out.len();
    triggers(out, kinds)?;
    close(out, 2, 6, behind)?;
    Ok(())
}

// The numbers of a container.
fn amounts(out: &mut BackwardWriter, used: &Used) -> Result<(), OutOfMemory>
    ensures { OnOk result (out.new ≡ onto (amount_fields used.now) out.old) }
{
    number(out, 3, used.down)?;
    number(out, 2, used.up)?;
    small(out, 1, used.seconds)?;
    small(out, 0, used.lsn)?;
    Ok(())
}

// The times of a container.
fn times(out: &mut BackwardWriter, used: &Used) -> Result<(), OutOfMemory>
    ensures { OnOk result (out.new ≡ onto (time_fields used.now) out.old) }
{
    stamp(out, 5, used.last)?;
    stamp(out, 4, used.first)?;
    Ok(())
}

// The triggers of a container, and when they were.
fn ending(out: &mut BackwardWriter, used: &Used) -> Result<(), OutOfMemory>
    ensures { OnOk result (out.new ≡ onto (trigger_fields used.now) out.old) }
{
    stamp(out, 7, used.moment)?;
    triggers_of(out, used.triggers.as_slice())?;
    Ok(())
}

// A container.
fn container(out: &mut BackwardWriter, used: &Used) -> Result<(), OutOfMemory>
    ensures { OnOk result (out.new ≡ written (used_element used.now) ++ out.old) }
{
    let behind = out.len();
    ending(out, used)?;
    times(out, used)?;
    amounts(out, used)?;
    close(out, 0, 16, behind)?;
    Ok(())
}

// Containers, in order.
fn containers(out: &mut BackwardWriter, all: &[Used]) -> Result<(), OutOfMemory>
    ensures { OnOk result (out.new ≡ onto (each used_element all.now) out.old) }
{
    let mut left = all;
    while let Some((last, front)) = left.split_last() {
        container(out, last)?;
        left = front;
    }
    Ok(())
}

// The field of the containers.
fn containers_of(out: &mut BackwardWriter, all: &[Used]) -> Result<(), OutOfMemory>
    ensures { OnOk result (out.new ≡ written (elements_of.constructed 2 1 (each used_element all.now)) ++ out.old) }
{
    let behind = out.len();
    containers(out, all)?;
    close(out, 2, 1, behind)?;
    Ok(())
}

// A unit usage.
fn unit_usage(out: &mut BackwardWriter, usage: &UnitUsage) -> Result<(), OutOfMemory>
    ensures { OnOk result (out.new ≡ written (usage_element usage.now) ++ out.old) }
{
    let behind = out.len();
    containers_of(out, usage.used.as_slice())?;
    small(out, 0, usage.group)?;
    close(out, 0, 16, behind)?;
    Ok(())
}

// Unit usages, in order.
fn unit_usages(out: &mut BackwardWriter, all: &[UnitUsage]) -> Result<(), OutOfMemory>
    ensures { OnOk result (out.new ≡ onto (each usage_element all.now) out.old) }
{
    let mut left = all;
    while let Some((last, front)) = left.split_last() {
        unit_usage(out, last)?;
        left = front;
    }
    Ok(())
}

// The field of the unit usages, where there are some.
fn usage_of(out: &mut BackwardWriter, usage: &[UnitUsage]) -> Result<(), OutOfMemory>
    ensures { OnOk result (out.new ≡ onto (usage_field usage.now) out.old) }
{
    if usage.is_empty() {
        return Ok(());
    }
    let behind = out.len();
    unit_usages(out, usage)?;
    close(out, 2, 5, behind)?;
    Ok(())
}

// The record type and the names.
fn names(out: &mut BackwardWriter, entry: &Record) -> Result<(), OutOfMemory>
    ensures { OnOk result (out.new ≡ onto (name_fields entry.now) out.old) }
{
    text(out, 3, &entry.consumer)?;
    text(out, 2, &entry.subscriber)?;
    text(out, 1, &entry.function)?;
    number(out, 0, 200)?;
    Ok(())
}

// The session.
fn session(out: &mut BackwardWriter, charging_id: u32) -> Result<(), OutOfMemory>
    ensures { OnOk result (out.new ≡ written (session_field charging_id) ++ out.old) }
{
    let behind = out.len();
    small(out, 0, charging_id)?;
    close(out, 2, 13, behind)?;
    Ok(())
}

// The other fields.
fn others(out: &mut BackwardWriter, entry: &Record) -> Result<(), OutOfMemory>
    ensures { OnOk result (out.new ≡ onto (other_fields entry.now) out.old) }
{
    session(out, entry.charging_id)?;
    small(out, 11, entry.local)?;
    number(out, 9, u64::from(entry.cause))?;
    small(out, 8, entry.sequence)?;
    small(out, 7, entry.duration)?;
    stamp(out, 6, entry.opening)?;
    Ok(())
}

// The element of a record.
fn whole(out: &mut BackwardWriter, entry: &Record) -> Result<(), OutOfMemory>
    ensures { OnOk result (out.new ≡ written (record_element entry.now) ++ out.old) }
{
    let behind = out.len();
    others(out, entry)?;
    usage_of(out, entry.usage.as_slice())?;
    names(out, entry)?;
    close(out, 2, 200, behind)?;
    Ok(())
}

// The octets of the element of a record.
fn octets(alloc: Global, entry: &Record) -> Result<List<u8>, OutOfMemory>
    ensures written { IfOk result (λ bytes. bytes ≡ written (record_element entry.now)) }
    ensures spells { IsBounded 16 (record_element entry.now) → IfOk result (λ bytes. Spells 16 bytes (record_element entry.now)) }
{
    // Most records have fewer octets.
    let mut out = BackwardWriter::new(alloc, 1024)?;
    whole(&mut out, entry)?;
    out.to_octets()
}

/// The octets of a record: definite shortest lengths, and its fields ascending (TS 32.298, 5.1.5.0; X.690 10.1).
pub fn write_record(alloc: Global, entry: &Record) -> Result<List<u8>, OutOfMemory>
    // The one spelling.
    ensures written { IfOk result (λ bytes. bytes ≡ written (record_element entry.now)) }
    // A record in range is spelled so: `read_record` reads it back, whatever follows.
    ensures spells { FitsRecord entry.now → IfOk result (λ bytes. SpellsRecord bytes (entry.now, 0)) }
{
    stamps_read_back();
    octets(alloc, entry)
}
