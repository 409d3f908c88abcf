//! The one reader of elements, from left to right under a grammar.
ghost use Rattle.std.specs.Prelude.{◌≡◌, ◌+◌, ◌-◌, ◌<◌, ◌≤◌, ◌^◌, length, IfOk, vec_len, slice_set};
ghost use Rattle.std.specs.Option.{option_map};
ghost use Rattle.ber.specs.declared.node.Content.{Content};
ghost use Rattle.ber.specs.Element.{more, none};
ghost use Rattle.ber.specs.Tape.{Adds, Lays, node_with};
ghost use Rattle.ber.specs.Reading.{end_at, item_with, items_with, inside_at};

use crate::grammar::{Grammar, Step};
use crate::identifier::tag_of;
use crate::length::length_of;
use crate::node::{Node, constructed_node, primitive_node};
use crate::refusal::BerRefusal;
use crate::tag::Tag;

// What follows the end of contents, where it stands here.
fn end(definite: bool, bytes: &[u8]) -> Option<&[u8]>
    ensures { option_map (λ x. x.now) result ≡ end_at definite bytes.now }
{
    match bytes {
        [] if definite => Some(bytes),
        [0, 0, rest @ ..] if !definite => Some(rest),
        _ => None,
    }
}

// The element at this place has all nodes behind it within it.
fn close<'a>(out: &mut Vec<Node<'a>>, tag: &Tag, first: usize)
    requires { first < vec_len out.old }
    ensures { out.new.items ≡ slice_set out.old.items first (node_with tag.now.class tag.now.number (Content.Nodes (length out.old.items - (first + 1)))) }
{
    let size = out.len() - (first + 1);
    out[first] = constructed_node(tag, size);
}

/// The element at `at` within the one at `around`, whose state is `state`, put behind `out`; its state from here on, and
/// what follows.
#[cycle(reading)]
#[inline(always)]
#[tactic(auto, unfolding(crate::specs::Reading::item_with))]
pub fn item<'a, G: Grammar>(
    out: &mut Vec<Node<'a>>,
    levels: u32,
    state: G,
    around: usize,
    at: usize,
    bytes: &'a [u8],
) -> Result<(G, &'a [u8]), BerRefusal>
    requires { at + length bytes.now < 2 ^ 63 }
    ensures exact { Lays (λ x e. (x.0, e, x.1.now)) (λ e. Adds out.old.items out.new.items (more e none)) result (item_with G.rules (inside_at G.rules levels) state around at bytes.now) }
    ensures rest { IfOk result (λ x. length x.1.now ≤ length bytes.now) }
{
    let Some((tag, rest)) = tag_of(bytes) else {
        return Err(BerRefusal::BadRecord { at: at as u64 });
    };
    match state.enter(&tag) {
        Step::Into { outer, inner } => {
            let place = at + (bytes.len() - rest.len());
            let rest = inside(out, levels, inner, tag, at, place, rest)?;
            Ok((outer, rest))
        }
        Step::Here => Err(BerRefusal::BadRecord { at: at as u64 }),
        Step::Around => Err(BerRefusal::BadRecord { at: around as u64 }),
    }
}

// The elements within the one at `around`, up to its end, put behind `out`.
#[cycle(reading)]
#[tactic(auto, unfolding(crate::specs::Reading::items_with))]
fn items<'a, G: Grammar>(
    out: &mut Vec<Node<'a>>,
    levels: u32,
    definite: bool,
    state: G,
    around: usize,
    place: usize,
    bytes: &'a [u8],
) -> Result<&'a [u8], BerRefusal>
    requires { place + length bytes.now < 2 ^ 63 }
    ensures exact { Lays (λ x es. (es, x.now)) (λ es. Adds out.old.items out.new.items es) result (items_with G.rules (inside_at G.rules levels) (length bytes.now + 1) definite state around place bytes.now) }
    ensures rest { IfOk result (λ x. length x.now ≤ length bytes.now) }
{
    let mut state = state;
    let mut at = place;
    let mut rest = bytes;
    for _ in 0..bytes.len() + 1 {
        if let Some(after) = end(definite, rest) {
            if state.is_whole() {
                return Ok(after);
            }
            return Err(BerRefusal::BadRecord { at: around as u64 });
        }
        if rest.is_empty() {
            return Err(BerRefusal::BadRecord { at: around as u64 });
        }
        let (next, after) = item(out, levels, state, around, at, rest)?;
        state = next;
        at += rest.len() - after.len();
        rest = after;
    }
    Err(BerRefusal::BadRecord { at: around as u64 })
}

// Length and contents of the element at `at`, whose state is `state`, from `place` on, put behind `out`.
#[cycle(reading)]
#[inline(always)]
#[tactic(auto, unfolding(crate::specs::Reading::inside_at))]
fn inside<'a, G: Grammar>(
    out: &mut Vec<Node<'a>>,
    levels: u32,
    state: G,
    tag: Tag,
    at: usize,
    place: usize,
    bytes: &'a [u8],
) -> Result<&'a [u8], BerRefusal>
    requires { place + length bytes.now < 2 ^ 63 }
    ensures exact { Lays (λ x e. (e, x.now)) (λ e. Adds out.old.items out.new.items (more e none)) result (inside_at G.rules levels state tag at place bytes.now) }
    ensures rest { IfOk result (λ x. length x.now ≤ length bytes.now) }
{
    if levels == 0 {
        return Err(BerRefusal::BadRecord { at: at as u64 });
    }
    let Some((length, body)) = length_of(bytes) else {
        return Err(BerRefusal::BadRecord { at: at as u64 });
    };
    let place = place + (bytes.len() - body.len());
    let first = out.len();
    match length {
        None => {
            if !tag.constructed {
                return Err(BerRefusal::BadRecord { at: at as u64 });
            }
            out.push(constructed_node(&tag, 0))?;
            let rest = items(out, levels - 1, false, state, at, place, body)?;
            close(out, &tag, first);
            Ok(rest)
        }
        Some(count) => {
            if body.len() < count {
                return Err(BerRefusal::BadRecord { at: at as u64 });
            }
            let (contents, rest) = body.split_at(count);
            if tag.constructed {
                out.push(constructed_node(&tag, 0))?;
                items(out, levels - 1, true, state, at, place, contents)?;
                close(out, &tag, first);
                return Ok(rest);
            }
            if !state.takes(contents) {
                return Err(BerRefusal::BadRecord { at: at as u64 });
            }
            out.push(primitive_node(&tag, contents))?;
            Ok(rest)
        }
    }
}
