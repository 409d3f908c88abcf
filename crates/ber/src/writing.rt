//! Elements written with the fewest octets.
ghost use Rattle.std.specs.Prelude.{◌≡◌, ◌++◌, ◌+◌, ◌<◌, ◌≤◌, ◌^◌, ◌∷◌, [], length, Ok, IfOk, List as Listed, ℕ};
ghost use Rattle.ber.specs.Element.{element};
ghost use Rattle.ber.specs.Spelling.{Spells};
ghost use Rattle.ber.specs.Anything.{first_element};
ghost use Rattle.ber.specs.Written.{lengths_in, written, IsBounded};
ghost use Rattle.ber.specs.Placed.{IsPlaced};

use crate::measuring::measure;
use crate::placing::{put_length, put_octets, put_tag};
use crate::tlv::{Body, Tlv};
use std::alloc::Global;
use units::{List, OutOfMemory};

// Puts the octets of an element, of whose constructed elements `lengths` begins with the lengths, at a place; answers
// the place behind them, and the other lengths.
fn put<'l>(out: &mut [u8], at: usize, lengths: &'l [usize], tlv: &Tlv) -> (usize, &'l [usize])
    requires known { (rest : Listed ℕ) × (lengths.now ≡ lengths_in (element tlv.now) ++ rest) }
    requires fits { at + length (written (element tlv.now)) ≤ length out.old }
    ensures others { (rest : Listed ℕ) → lengths.now ≡ lengths_in (element tlv.now) ++ rest → result.1.now ≡ rest }
    ensures written { IsPlaced out.old out.new at (written (element tlv.now)) result.0 }
{
    let tag = tlv.tag();
    let place = put_tag(out, at, &tag);
    match &tlv.body {
        Body::Primitive(contents) => {
            let contents = contents.as_slice();
            let place = put_length(out, place, contents.len() as u64);
            (put_octets(out, place, contents), lengths)
        }
        Body::Constructed(inner) => {
            let Some((length, behind)) = lengths.split_first() else {
                unreachable!();
            };
            let mut place = put_length(out, place, *length as u64);
            let mut left = behind;
            for child in inner.as_slice() {
                (place, left) = put(out, place, left, child);
            }
            (place, left)
        }
    }
}

// The octets, in one buffer that is taken once, and that memory holds them.
fn octets(alloc: Global, tlv: &Tlv) -> Result<List<u8>, OutOfMemory>
    ensures written { IfOk result (λ bytes. bytes ≡ written (element tlv.now)) }
    ensures bound { IfOk result (λ bytes. length bytes < 2 ^ 63) }
{
    // Most records have at most 16 constructed elements.
    let mut lengths = Vec::with_capacity(alloc, 16)?;
    let count = measure(&mut lengths, tlv)?;
    let mut out = Vec::from_elem(alloc, 0u8, count)?;
    put(out.as_mut_slice(), 0, &lengths, tlv);
    let _length = out.as_slice().len();
    Ok(List::from_vec(out))
}

/// The octets of an element with definite lengths and the fewest octets (X.690 8.1, 10.1).
pub fn write_tlv(alloc: Global, tlv: &Tlv) -> Result<List<u8>, OutOfMemory>
    ensures written { IfOk result (λ bytes. bytes ≡ written (element tlv.now)) }
    // An element within the bounds on tags and depth is spelled so.
    ensures spells { IsBounded 16 (element tlv.now) → IfOk result (λ bytes. Spells 16 bytes (element tlv.now)) }
    // It is read back, whatever follows.
    ensures reads_back { IsBounded 16 (element tlv.now) → IfOk result (λ bytes. (rest : Listed ℕ) → length (bytes ++ rest) < 2 ^ 63 → first_element (bytes ++ rest) ≡ Ok (element tlv.now, length bytes)) }
{
    octets(alloc, tlv)
}
