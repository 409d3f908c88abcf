//! Elements written from their last octet to their first.
ghost use Rattle.std.specs.Prelude.{◌≡◌, ◌++◌, ◌+◌, ◌-◌, ◌≤◌, ◌<◌, ◌^◌, [], true, false, length, drop, IfOk, OnOk, OnErr, List as Listed, ℕ, vec_len};
ghost use Rattle.ber.specs.Element as elements_of;
ghost use Rattle.ber.specs.Element.{Element, Elements};
ghost use Rattle.ber.specs.Written.{length_octets, identifier, written, onto, IsBounded};
ghost use Rattle.ber.specs.Spelling.{Spells};

use crate::measuring::{length_count, tag_count};
use crate::placing::{put_length, put_octets, put_tag};
use crate::tag::Tag;
use std::alloc::Global;
use std::marker::Model;
use units::{List, OutOfMemory};

/// Octets that are written from the last to the first, so that the length of an element is known once what is within it
/// stands. Contracts see it as the octets that are written so far (this product's own).
#[derive(Drop)]
pub struct BackwardWriter {
    alloc: Global,
    octets: Vec<u8>,
    // How many octets in front are not written yet.
    free: usize,
}

impl Model for BackwardWriter {
    ghost use Rattle.std.specs.Prelude.{ℕ, List, ◌≤◌, drop, vec_len};

    ghost Value = { List ℕ };

    ghost view = { λ w. drop w.free w.octets.items };

    ghost invariant = { λ w. w.free ≤ vec_len w.octets };
}

// A buffer with the same octets behind more free ones, and how many those are.
#[inline(never)]
fn larger(
    alloc: Global,
    octets: &[u8],
    free: usize,
    count: usize,
) -> Result<(Vec<u8>, usize), OutOfMemory>
    requires { free ≤ length octets.now }
    ensures room { IfOk result (λ x. count ≤ x.1) }
    ensures bound { IfOk result (λ x. x.1 ≤ vec_len x.0) }
    ensures same { IfOk result (λ x. drop x.1 x.0.items ≡ drop free octets.now) }
{
    let more = count.max(octets.len());
    if more > usize::MAX - octets.len() {
        return Err(OutOfMemory);
    }
    let place = more + free;
    let mut buffer = Vec::from_elem(alloc, 0u8, more + octets.len())?;
    buffer[place..].copy_from_slice(&octets[free..]);
    Ok((buffer, place))
}

// Makes room in front for so many octets.
#[inline(always)]
fn make_room(
    alloc: Global,
    octets: &mut Vec<u8>,
    free: &mut usize,
    count: usize,
) -> Result<(), OutOfMemory>
    requires { free.old ≤ vec_len octets.old }
    ensures room { OnOk result (count ≤ free.new) }
    ensures bound { free.new ≤ vec_len octets.new }
    ensures same { drop free.new octets.new.items ≡ drop free.old octets.old.items }
{
    if count <= *free {
        return Ok(());
    }
    let (buffer, place) = larger(alloc, octets, *free, count)?;
    *octets = buffer;
    *free = place;
    Ok(())
}

// Puts the identifier and length octets of an element in front, and answers how many octets are free then.
#[inline(always)]
fn put_header(octets: &mut [u8], free: usize, tag: &Tag, count: usize) -> usize
    requires room { length (identifier tag.now) + length (length_octets count) ≤ free }
    requires bound { free ≤ length octets.old }
    ensures bound { result ≤ length octets.new }
    ensures put { drop result octets.new ≡ identifier tag.now ++ (length_octets count ++ drop free octets.old) }
{
    let place = free - length_count(count as u64);
    put_length(octets, place, count as u64);
    let first = place - tag_count(tag);
    put_tag(octets, first, tag);
    first
}

// Puts octets in front, and answers how many are free then.
#[inline(always)]
fn put_contents(octets: &mut [u8], free: usize, contents: &[u8]) -> usize
    requires room { length contents.now ≤ free }
    requires bound { free ≤ length octets.old }
    ensures free { result + length contents.now ≡ free }
    ensures put { drop result octets.new ≡ contents.now ++ drop free octets.old }
{
    let first = free - contents.len();
    put_octets(octets, first, contents);
    first
}

impl BackwardWriter {
    /// No octet, with room for some before it grows.
    pub fn new(alloc: Global, room: usize) -> Result<BackwardWriter, OutOfMemory>
        ensures { IfOk result (λ w. w ≡ []) }
    {
        let octets = Vec::from_elem(alloc, 0u8, room)?;
        Ok(BackwardWriter {
            alloc,
            octets,
            free: room,
        })
    }

    /// How many octets are written.
    pub fn len(&self) -> usize
        ensures { result ≡ length self.now }
    {
        self.octets.len() - self.free
    }

    // Writes the identifier and length octets of an element whose contents stand in front.
    #[inline(always)]
    fn header(&mut self, tag: &Tag, count: usize) -> Result<(), OutOfMemory>
        ensures ok { OnOk result (self.new ≡ identifier tag.now ++ (length_octets count ++ self.old)) }
        ensures err { OnErr result (self.new ≡ self.old) }
    {
        make_room(self.alloc, &mut self.octets, &mut self.free, 15)?;
        self.free = put_header(&mut self.octets, self.free, tag, count);
        Ok(())
    }

    /// Writes a primitive element in front of what is written (X.690 8.1.1, 10.1); nothing changes where memory is wanting.
    #[inline(always)]
    pub fn primitive(&mut self, tag: &Tag, contents: &[u8]) -> Result<(), OutOfMemory>
        requires { tag.now.constructed ≡ false }
        ensures ok { OnOk result (self.new ≡ written (elements_of.primitive tag.now.class tag.now.number contents.now) ++ self.old) }
        ensures err { OnErr result (self.new ≡ self.old) }
    {
        make_room(
            self.alloc,
            &mut self.octets,
            &mut self.free,
            contents.len() + 15,
        )?;
        let place = put_contents(&mut self.octets, self.free, contents);
        self.free = put_header(&mut self.octets, place, tag, contents.len());
        Ok(())
    }

    /// Puts a constructed element around the elements that are written in front of the last octets, which are so many
    /// (X.690 8.1.1, 10.1); nothing changes where memory is wanting.
    pub fn close(&mut self, tag: &Tag, behind: usize) -> Result<(), OutOfMemory>
        requires tag { tag.now.constructed ≡ true }
        requires behind { behind ≤ length self.old }
        ensures ok { (inner : Elements) (rest : Listed ℕ) → length rest ≡ behind → self.old ≡ onto inner rest → OnOk result (self.new ≡ written (elements_of.constructed tag.now.class tag.now.number inner) ++ rest) }
        ensures err { OnErr result (self.new ≡ self.old) }
    {
        let count = self.len() - behind;
        self.header(tag, count)
    }

    // The octets that are written, and that memory holds them.
    fn copied(&self) -> Result<List<u8>, OutOfMemory>
        ensures octets { IfOk result (λ l. l ≡ self.now) }
        ensures bound { IfOk result (λ l. length l < 2 ^ 63) }
    {
        let written = Vec::from_slice(self.alloc, &self.octets[self.free..])?;
        let _length = written.as_slice().len();
        Ok(List::from_vec(written))
    }

    /// The octets that are written, in memory that they fill.
    pub fn to_octets(&self) -> Result<List<u8>, OutOfMemory>
        ensures octets { IfOk result (λ l. l ≡ self.now) }
        // An element within the bounds on tags and depth is spelled so.
        ensures spells { (e : Element) → self.now ≡ written e → IsBounded 16 e → IfOk result (λ l. Spells 16 l e) }
    {
        self.copied()
    }
}
