//! Identifier, length and other octets put into a buffer at a place.
ghost use Rattle.std.specs.Prelude.{◌≡◌, ◌+◌, ◌<◌, ◌≤◌, ◌^◌, ◌∷◌, [], length};
ghost use Rattle.ber.specs.Written.{length_octets, high_octets, identifier};
ghost use Rattle.ber.specs.Placed.{IsPut};

use crate::measuring::octet_count;
use crate::tag::Tag;

// Puts an octet at a place, and answers the place behind it.
#[inline(always)]
fn put_octet(out: &mut [u8], at: usize, octet: u8) -> usize
    requires { at < length out.old }
    ensures { IsPut out.old out.new at (octet ∷ []) result }
{
    out[at] = octet;
    at + 1
}

/// Puts octets at a place, and answers the place behind them.
#[inline(always)]
pub fn put_octets(out: &mut [u8], at: usize, octets: &[u8]) -> usize
    requires { at + length octets.now ≤ length out.old }
    ensures { IsPut out.old out.new at octets.now result }
{
    let end = at + octets.len();
    out[at..end].copy_from_slice(octets);
    end
}

// Puts the octets of a definite length of 128 at least.
#[inline(never)]
fn put_long_length(out: &mut [u8], at: usize, n: u64) -> usize
    requires long { 128 ≤ n }
    requires fits { at + length (length_octets n) ≤ length out.old }
    ensures { IsPut out.old out.new at (length_octets n) result }
{
    let count = octet_count(n);
    let behind = put_octet(out, at, 128 + count as u8);
    let octets = n.to_be_bytes();
    let (_, last) = octets.split_at(8 - count);
    put_octets(out, behind, last)
}

/// Puts the shortest octets of a definite length.
#[inline(always)]
pub fn put_length(out: &mut [u8], at: usize, n: u64) -> usize
    requires { at + length (length_octets n) ≤ length out.old }
    ensures { IsPut out.old out.new at (length_octets n) result }
{
    if n < 128 {
        return put_octet(out, at, n as u8);
    }
    put_long_length(out, at, n)
}

// Puts a number from 31 on in base 128.
#[inline(never)]
fn put_high(out: &mut [u8], at: usize, n: u32) -> usize
    requires { at + length (high_octets n) ≤ length out.old }
    ensures { IsPut out.old out.new at (high_octets n) result }
{
    let last = (n % 128) as u8;
    let second = 128 + (n / 128 % 128) as u8;
    let third = 128 + (n / 16384 % 128) as u8;
    let fourth = 128 + (n / 2097152 % 128) as u8;
    let fifth = 128 + (n / 268435456) as u8;
    if n < 1 << 7 {
        put_octets(out, at, &[last])
    } else if n < 1 << 14 {
        put_octets(out, at, &[second, last])
    } else if n < 1 << 21 {
        put_octets(out, at, &[third, second, last])
    } else if n < 1 << 28 {
        put_octets(out, at, &[fourth, third, second, last])
    } else {
        put_octets(out, at, &[fifth, fourth, third, second, last])
    }
}

/// Puts the identifier octets.
#[inline(always)]
pub fn put_tag(out: &mut [u8], at: usize, tag: &Tag) -> usize
    requires { at + length (identifier tag.now) ≤ length out.old }
    ensures { IsPut out.old out.new at (identifier tag.now) result }
{
    let form = if tag.constructed { 32 } else { 0 };
    let first = tag.class % 4 * 64 + form;
    if tag.number < 31 {
        return put_octet(out, at, first + tag.number as u8);
    }
    let behind = put_octet(out, at, first + 31);
    put_high(out, behind, tag.number)
}
