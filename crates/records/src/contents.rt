//! What a field of a record that was read has.
ghost use Rattle.std.specs.Prelude.{◌≡◌, ◌≤◌, IfOk};
ghost use Rattle.ber.specs.Tape.{seen};
ghost use Rattle.records.specs.Reading.{number_in, text_in, moment_in, is_tag, is_known, counted};

use crate::fields::{integer, stamp, text};
use crate::place::is_field;
use ber::TlvRef;
use std::alloc::{AllocError, Global};
use units::{Moment, Text};

pub fn number(limit: u64, field: &TlvRef) -> u64
    ensures is { result ≡ number_in limit (seen field.now) }
    ensures bound { result ≤ limit }
{
    match field.contents() {
        Some(contents) => match integer(limit, contents) {
            Some(number) => number,
            None => 0,
        },
        None => 0,
    }
}

pub fn small(field: &TlvRef) -> u32
    ensures { result ≡ number_in 4294967295 (seen field.now) }
{
    number(u64::from(u32::MAX), field) as u32
}

pub fn moment(field: &TlvRef) -> Moment
    ensures { result ≡ moment_in (seen field.now) }
{
    match field.contents() {
        Some(contents) => match stamp(contents) {
            Some(moment) => moment,
            None => Moment::first(),
        },
        None => Moment::first(),
    }
}

pub fn is_tag(number: u32, field: &TlvRef) -> bool
    ensures { result ≡ is_tag number (seen field.now) }
{
    let tag = field.tag();
    tag.class == 2 && tag.number == number
}

pub fn counted(n: u32) -> u32
    ensures { result ≡ counted n }
{
    n.saturating_add(1)
}

pub fn words(alloc: Global, field: &TlvRef) -> Result<Text, AllocError>
    ensures { IfOk result (λ t. t ≡ text_in (seen field.now)) }
{
    match field.contents() {
        Some(contents) => match text(contents) {
            Some(text) => Text::from_text(alloc, text),
            None => Ok(Text::new(alloc)),
        },
        None => Ok(Text::new(alloc)),
    }
}

pub fn is_known(field: &TlvRef) -> bool
    ensures { result ≡ is_known (seen field.now) }
{
    let tag = field.tag();
    tag.class == 2 && is_field(tag.number)
}
