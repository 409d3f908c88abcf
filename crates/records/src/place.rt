//! Which elements stand where in a record.
ghost use Rattle.std.specs.Prelude.{◌≡◌, ◌≤◌};
ghost use Rattle.records.specs.Grammar.{forms_differ, is_field, is_group, field_place, used_place, in_record, in_usage, in_used, in_session, in_list, records, has_required, has_all_used};

use crate::fields::{integer, stamp, text};
use ber::{Grammar, Step, Tag};

/// Where an open element of a record stands, and what was seen in it (this product's own).
#[derive(Clone, Copy, Debug)]
pub enum Place {
    /// Before the record.
    Start,
    /// The record, with the fields that were seen.
    Record([bool; 14]),
    /// The list of unit usages, and whether there was one.
    Usages(bool),
    /// A unit usage: whether its rating group and its containers were seen.
    Usage(bool, bool),
    /// The list of containers.
    Containers,
    /// A container, with the fields that were seen, and one more than the greatest of them.
    Used([bool; 8], u32),
    /// The list of triggers, and whether there was one.
    Triggers(bool),
    /// The session, and whether its charging id was seen.
    Session(bool),
    /// The record type.
    Kind,
    /// A number up to a limit.
    Number(u64),
    /// A time stamp.
    Stamp,
    /// A text.
    Text,
    /// A field that is not known, or what is within one.
    Unknown,
}

#[inline(always)]
pub fn is_field(number: u32) -> bool
    ensures { result ≡ is_field number }
{
    number <= 3 || 5 <= number && number <= 9 || number == 11 || number == 13
}

#[inline(always)]
fn is_group(number: u32) -> bool
    ensures { result ≡ is_group number }
{
    number == 5 || number == 13
}

#[inline(always)]
fn field_place(number: u32) -> Place
    ensures { result ≡ field_place number }
{
    if number == 0 {
        Place::Kind
    } else if number <= 3 {
        Place::Text
    } else if number == 5 {
        Place::Usages(false)
    } else if number == 6 {
        Place::Stamp
    } else if number == 9 {
        Place::Number(255)
    } else if number == 13 {
        Place::Session(false)
    } else {
        Place::Number(u64::from(u32::MAX))
    }
}

#[inline(always)]
fn used_place(number: u32) -> Place
    ensures { result ≡ used_place number }
{
    if number <= 1 {
        Place::Number(u64::from(u32::MAX))
    } else if number <= 3 {
        Place::Number(u64::MAX)
    } else if number == 6 {
        Place::Triggers(false)
    } else {
        Place::Stamp
    }
}

#[inline(always)]
fn forms_differ(constructed: bool, due: bool) -> bool
    ensures { result ≡ forms_differ constructed due }
{
    constructed != due
}

#[inline(always)]
fn in_record(seen: [bool; 14], tag: &Tag) -> Step<Place>
    ensures { result ≡ in_record seen tag.now }
{
    let number = tag.number;
    if !(tag.class == 2 && is_field(number)) {
        return Step::Into {
            outer: Place::Record(seen),
            inner: Place::Unknown,
        };
    }
    if seen[number as usize] {
        return Step::Around;
    }
    if forms_differ(tag.constructed, is_group(number)) {
        return Step::Here;
    }
    let mut next = seen;
    next[number as usize] = true;
    Step::Into {
        outer: Place::Record(next),
        inner: field_place(number),
    }
}

#[inline(always)]
fn in_usage(group: bool, used: bool, tag: &Tag) -> Step<Place>
    ensures { result ≡ in_usage group used tag.now }
{
    if !(tag.class == 2 && tag.number <= 1) {
        return Step::Into {
            outer: Place::Usage(group, used),
            inner: Place::Unknown,
        };
    }
    if tag.number == 0 {
        if group {
            return Step::Around;
        }
        if tag.constructed || used {
            return Step::Here;
        }
        return Step::Into {
            outer: Place::Usage(true, used),
            inner: Place::Number(u64::from(u32::MAX)),
        };
    }
    if used {
        return Step::Around;
    }
    if !tag.constructed {
        return Step::Here;
    }
    Step::Into {
        outer: Place::Usage(group, true),
        inner: Place::Containers,
    }
}

#[inline(always)]
fn in_used(seen: [bool; 8], next: u32, tag: &Tag) -> Step<Place>
    ensures { result ≡ in_used seen next tag.now }
{
    let number = tag.number;
    if !(tag.class == 2 && number <= 7) {
        return Step::Into {
            outer: Place::Used(seen, next),
            inner: Place::Unknown,
        };
    }
    if seen[number as usize] {
        return Step::Around;
    }
    if forms_differ(tag.constructed, number == 6) || number < next {
        return Step::Here;
    }
    let mut after = seen;
    after[number as usize] = true;
    Step::Into {
        outer: Place::Used(after, number + 1),
        inner: used_place(number),
    }
}

#[inline(always)]
fn in_session(seen: bool, tag: &Tag) -> Step<Place>
    ensures { result ≡ in_session seen tag.now }
{
    if !(tag.class == 2 && tag.number == 0) {
        return Step::Into {
            outer: Place::Session(seen),
            inner: Place::Unknown,
        };
    }
    if seen {
        return Step::Around;
    }
    if tag.constructed {
        return Step::Here;
    }
    Step::Into {
        outer: Place::Session(true),
        inner: Place::Number(u64::from(u32::MAX)),
    }
}

#[inline(always)]
fn in_list(number: u32, form: bool, around: Place, inner: Place, tag: &Tag) -> Step<Place>
    ensures { result ≡ in_list number form around inner tag.now }
{
    if tag.class == 0 && tag.number == number && !forms_differ(tag.constructed, form) {
        Step::Into {
            outer: around,
            inner,
        }
    } else {
        Step::Here
    }
}

#[inline(always)]
fn has_required(seen: [bool; 14]) -> bool
    ensures { result ≡ has_required seen }
{
    seen[0]
        && seen[1]
        && seen[2]
        && seen[3]
        && seen[6]
        && seen[7]
        && seen[8]
        && seen[9]
        && seen[11]
        && seen[13]
}

#[inline(always)]
fn has_all_used(seen: [bool; 8]) -> bool
    ensures { result ≡ has_all_used seen }
{
    seen[0] && seen[1] && seen[2] && seen[3] && seen[4] && seen[5] && seen[7]
}

impl Grammar for Place {
    ghost use Rattle.records.specs.Grammar.{records};

    ghost rules = { records };

    #[inline(always)]
    fn enter(&self, tag: &Tag) -> Step<Place> {
        match *self {
            Place::Start => {
                if tag.class == 2 && tag.number == 200 && tag.constructed {
                    Step::Into {
                        outer: Place::Start,
                        inner: Place::Record([false; 14]),
                    }
                } else {
                    Step::Here
                }
            }
            Place::Record(seen) => in_record(seen, tag),
            Place::Usages(_) => in_list(
                16,
                true,
                Place::Usages(true),
                Place::Usage(false, false),
                tag,
            ),
            Place::Usage(group, used) => in_usage(group, used, tag),
            Place::Containers => in_list(
                16,
                true,
                Place::Containers,
                Place::Used([false; 8], 0),
                tag,
            ),
            Place::Used(seen, next) => in_used(seen, next, tag),
            Place::Triggers(_) => in_list(12, false, Place::Triggers(true), Place::Text, tag),
            Place::Session(seen) => in_session(seen, tag),
            Place::Kind | Place::Number(_) | Place::Stamp | Place::Text | Place::Unknown => {
                Step::Into {
                    outer: *self,
                    inner: Place::Unknown,
                }
            }
        }
    }

    #[inline(always)]
    fn takes(&self, contents: &[u8]) -> bool {
        match *self {
            Place::Kind => integer(200, contents) == Some(200),
            Place::Number(limit) => integer(limit, contents).is_some(),
            Place::Stamp => stamp(contents).is_some(),
            Place::Text => text(contents).is_some(),
            _ => true,
        }
    }

    #[inline(always)]
    fn is_whole(&self) -> bool {
        match *self {
            Place::Record(seen) => has_required(seen),
            Place::Usages(some) => some,
            Place::Usage(group, used) => group && used,
            Place::Used(seen, _) => has_all_used(seen),
            Place::Triggers(some) => some,
            Place::Session(seen) => seen,
            _ => true,
        }
    }
}
