//! Elements at the front of octets, under a grammar and under none.
ghost use Rattle.std.specs.Prelude.{◌≡◌, ◌<◌, ◌≤◌, ◌^◌, ◌++◌, ℕ, List, length, take, Ok, IfOk};
ghost use Rattle.ber.specs.Element.{Element, element, more, none};
ghost use Rattle.ber.specs.Tape.{Lays, nodes_seen, seen};
ghost use Rattle.ber.specs.Spelling.{Spells};
ghost use Rattle.ber.specs.Grammar.{Admits};
ghost use Rattle.ber.specs.Anything.{first_element};
ghost use Rattle.ber.specs.Written.{IsBounded};
ghost use Rattle.ber.specs.Reading.{Gives, element_at};

use crate::anything::Anything;
use crate::grammar::Grammar;
use crate::reading::item;
use crate::refusal::BerRefusal;
use crate::tape::Tape;
use crate::tlv::Tlv;
use crate::tlv_ref::{Row, TlvRef};
use std::alloc::Global;

// The element at the front, alone on the tape, how many octets it takes, and that memory holds the octets.
#[tactic(auto, unfolding(crate::specs::Reading::element_at))]
fn front<'a, G: Grammar>(
    tape: &mut Tape<'a>,
    grammar: G,
    bytes: &'a [u8],
) -> Result<usize, BerRefusal>
    ensures exact { Lays (λ n e. (e, n)) (λ e. nodes_seen tape.new.nodes.items ≡ more e none) result (element_at G.rules grammar bytes.now) }
    ensures bound { length bytes.now < 2 ^ 63 }
{
    tape.nodes.clear();
    let (_, rest) = item(&mut tape.nodes, 16, grammar, 0, 0, bytes)?;
    Ok(bytes.len() - rest.len())
}

// The element at the front as it is seen, and that memory holds the octets.
fn first<'t, 'a, G: Grammar>(
    tape: &'t mut Tape<'a>,
    grammar: G,
    bytes: &'a [u8],
) -> Result<(TlvRef<'t, 'a>, usize), BerRefusal>
    ensures exact { Gives (λ x. (seen x.0, x.1)) result (element_at G.rules grammar bytes.now) }
    ensures bound { length bytes.now < 2 ^ 63 }
{
    let count = front(tape, grammar, bytes)?;
    match Row::of(&tape.nodes).split_first() {
        Some((tlv, _)) => Ok((tlv, count)),
        None => unreachable!(),
    }
}

/// The element at the front of the octets that a grammar admits, and how many octets it takes, whatever follows; at most 16 elements within each other
/// (X.690 8.1). Else the first octet of the element that has the fault that is met first in reading from the left. No contents are copied.
pub fn read<'t, 'a, G: Grammar>(
    tape: &'t mut Tape<'a>,
    grammar: G,
    bytes: &'a [u8],
) -> Result<(TlvRef<'t, 'a>, usize), BerRefusal>
    // The octet of the first fault, and what is read.
    ensures exact { Gives (λ x. (seen x.0, x.1)) result (element_at G.rules grammar bytes.now) }
    // What is read is spelled so, and the grammar admits it.
    ensures found { IfOk result (λ x. (x.1 ≤ length bytes.now) × Spells 16 (take x.1 bytes.now) (seen x.0) × Admits G.rules grammar (seen x.0)) }
    // What is spelled so and admitted is read, unless memory is wanting.
    ensures only { (e : Element) (n : ℕ) → n ≤ length bytes.now → Spells 16 (take n bytes.now) e → Admits G.rules grammar e → Gives {Y = Element × ℕ} (λ x. (seen x.0, x.1)) result (Ok (e, n)) }
    // What is read can be written and read again.
    ensures bounded { IfOk result (λ x. IsBounded 16 (seen x.0)) }
{
    first(tape, grammar, bytes)
}

// The element at the front, with octets of its own, and that memory holds the octets.
fn front_tlv(alloc: Global, bytes: &[u8]) -> Result<(Tlv, usize), BerRefusal>
    ensures exact { Gives (λ x. (element x.0, x.1)) result (first_element bytes.now) }
    ensures bound { length bytes.now < 2 ^ 63 }
{
    let mut tape = Tape::new(alloc);
    let (tlv, count) = first(&mut tape, Anything, bytes)?;
    Ok((tlv.to_tlv(alloc)?, count))
}

/// The element at the front of the octets, and how many octets it takes, whatever follows; at most 16 elements within each other (X.690 8.1).
/// Else the first octet of the element that has the fault that is met first in reading from the left.
pub fn read_tlv(alloc: Global, bytes: &[u8]) -> Result<(Tlv, usize), BerRefusal>
    // The octet of the first fault, and what is read.
    ensures exact { Gives (λ x. (element x.0, x.1)) result (first_element bytes.now) }
    // What is read is spelled so.
    ensures found { IfOk result (λ x. (x.1 ≤ length bytes.now) × Spells 16 (take x.1 bytes.now) (element x.0)) }
    // What is spelled so is read, unless memory is wanting.
    ensures only { (e : Element) (n : ℕ) → n ≤ length bytes.now → Spells 16 (take n bytes.now) e → Gives {Y = Element × ℕ} (λ x. (element x.0, x.1)) result (Ok (e, n)) }
    // What is read can be written and read again.
    ensures bounded { IfOk result (λ x. IsBounded 16 (element x.0)) }
{
    front_tlv(alloc, bytes)
}

/// No spelling of an element begins a spelling of another, nor of the same element, in any octets that memory can hold (X.690 8.1).
pub fn prefix_free()
    ensures { (a b x y : List ℕ) (d e : Element) → length (a ++ x) < 2 ^ 63 → Spells 16 a d → Spells 16 b e → a ++ x ≡ b ++ y → (a ≡ b) × (d ≡ e) }
{}

/// What is spelled as an element that a grammar admits from a state is read as that element, whatever follows: a law for
/// proofs, which does nothing (X.690 8.1).
pub fn spelled_are_read<G: Grammar>(grammar: G)
    ensures { (bytes : List ℕ) (e : Element) (n : ℕ) → length bytes < 2 ^ 63 → n ≤ length bytes → Spells 16 (take n bytes) e → Admits G.rules grammar e → element_at G.rules grammar bytes ≡ Ok (e, n) }
{
    let _state = grammar;
}
