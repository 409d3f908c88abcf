//! How many octets an element takes where it is written.
ghost use Rattle.std.specs.Prelude.{◌≡◌, ◌+◌, ◌≤◌, ◌++◌, length, IfOk, OnOk};
ghost use Rattle.ber.specs.Element.{element};
ghost use Rattle.ber.specs.Written.{octet_count, length_octets, identifier, lengths_in, written};

use crate::tag::Tag;
use crate::tlv::{Body, Tlv};
use units::OutOfMemory;

/// How many octets a number takes.
pub fn octet_count(n: u64) -> usize
    ensures count { result ≡ octet_count n }
    ensures bound { result ≤ 8 }
{
    if n < 1 << 8 {
        1
    } else if n < 1 << 16 {
        2
    } else if n < 1 << 24 {
        3
    } else if n < 1 << 32 {
        4
    } else if n < 1 << 40 {
        5
    } else if n < 1 << 48 {
        6
    } else if n < 1 << 56 {
        7
    } else {
        8
    }
}

/// How many octets a definite length takes.
pub fn length_count(n: u64) -> usize
    ensures count { result ≡ length (length_octets n) }
    ensures bound { result ≤ 9 }
{
    if n < 128 { 1 } else { 1 + octet_count(n) }
}

/// How many octets a tag takes.
pub fn tag_count(tag: &Tag) -> usize
    ensures count { result ≡ length (identifier tag.now) }
    ensures bound { result ≤ 6 }
{
    if tag.number < 31 {
        1
    } else if tag.number < 1 << 7 {
        2
    } else if tag.number < 1 << 14 {
        3
    } else if tag.number < 1 << 21 {
        4
    } else if tag.number < 1 << 28 {
        5
    } else {
        6
    }
}

// A sum, unless no memory could hold so many octets.
fn sum(a: usize, b: usize) -> Result<usize, OutOfMemory>
    ensures { IfOk result (λ n. n ≡ a + b) }
{
    if b > usize::MAX - a {
        return Err(OutOfMemory);
    }
    Ok(a + b)
}

// How many octets an element with so many contents octets takes.
fn whole(tag: &Tag, count: usize) -> Result<usize, OutOfMemory>
    ensures { IfOk result (λ n. n ≡ length (identifier tag.now) + (length (length_octets count) + count)) }
{
    sum(tag_count(tag) + length_count(count as u64), count)
}

/// How many octets an element takes; how many contents octets each constructed one has is put behind `lengths`.
pub fn measure(lengths: &mut Vec<usize>, tlv: &Tlv) -> Result<usize, OutOfMemory>
    ensures count { IfOk result (λ n. n ≡ length (written (element tlv.now))) }
    ensures lengths { OnOk result (lengths.new.items ≡ lengths.old.items ++ lengths_in (element tlv.now)) }
{
    let tag = tlv.tag();
    match &tlv.body {
        Body::Primitive(contents) => whole(&tag, contents.as_slice().len()),
        Body::Constructed(inner) => {
            let place = lengths.len();
            lengths.push(0)?;
            let mut count = 0;
            for child in inner.as_slice() {
                let more = measure(lengths, child)?;
                count = sum(count, more)?;
            }
            lengths[place] = count;
            whole(&tag, count)
        }
    }
}
