//! Elements of X.690: octets read and written again, lengths, and a grammar.
use crate::values::{hexadecimal, octets, small};
use ber::{BerRefusal, Grammar, Step, Tag, Tape, primitive, read, read_tlv, write_tlv};
use std::alloc::Global;
use units::{List, OutOfMemory};

// The octet of a refusal, behind an exclamation mark.
fn refused(alloc: Global, refusal: &BerRefusal) -> Result<String, OutOfMemory> {
    match refusal {
        BerRefusal::BadRecord { at } => Ok(format!(in alloc; "!{at}")?),
        BerRefusal::OutOfMemory => Err(OutOfMemory),
    }
}

/// How many octets the element at the front takes, and how it is written, or the octet of the first fault.
pub fn element(alloc: Global, word: &str) -> Result<String, OutOfMemory> {
    match read_tlv(alloc, octets(alloc, word)?.as_slice()) {
        Ok((tlv, taken)) => {
            let written = hexadecimal(alloc, write_tlv(alloc, &tlv)?.as_slice())?;
            Ok(format!(in alloc; "{taken} {written}")?)
        }
        Err(refusal) => refused(alloc, &refusal),
    }
}

/// What stands before the contents of an OCTET STRING of so many octets, as it is written.
pub fn length(alloc: Global, count: &str) -> Result<String, OutOfMemory> {
    let count = small(count) as usize;
    let tag = Tag {
        class: 0,
        constructed: false,
        number: 4,
    };
    let mut contents = Vec::new(alloc);
    contents.resize(count, 7)?;
    let tlv = primitive(&tag, List::from_vec(contents));
    let written = write_tlv(alloc, &tlv)?;
    let before = written.len().saturating_sub(count);
    hexadecimal(alloc, written.as_slice().get(..before).unwrap_or(&[]))
}

/// A grammar for a test: number 1 stands once in each element, number 2 nowhere, and no contents are empty.
#[derive(Clone, Copy, Debug)]
struct NumberOnce {
    seen: bool,
}

impl Grammar for NumberOnce {
    ghost use Rattle.std.specs.Prelude.{if◌then◌else◌, ◌==◌, nat_lt, length, true, false};
    ghost use Rattle.ber.specs.declared.grammar.Step.TheVariants as steps;

    ghost rules = { record {
      enter = λ s tag. if tag.number == 1 then (if s.seen then steps.Around else steps.Into (record { seen = true }) (record { seen = true }))
          else (if tag.number == 2 then steps.Here else steps.Into s (record { seen = false }));
      takes = λ s contents. nat_lt 0 (length contents);
      whole = λ s. s.seen;
    } };

    fn enter(&self, tag: &Tag) -> Step<NumberOnce> {
        if tag.number == 1 {
            if self.seen {
                return Step::Around;
            }
            return Step::Into {
                outer: NumberOnce { seen: true },
                inner: NumberOnce { seen: true },
            };
        }
        if tag.number == 2 {
            return Step::Here;
        }
        Step::Into {
            outer: *self,
            inner: NumberOnce { seen: false },
        }
    }

    fn takes(&self, contents: &[u8]) -> bool {
        0 < contents.len()
    }

    fn is_whole(&self) -> bool {
        self.seen
    }
}

/// How many octets are read under that grammar, or the octet of the first fault.
pub fn once(alloc: Global, word: &str) -> Result<String, OutOfMemory> {
    let octets = octets(alloc, word)?;
    let mut tape = Tape::new(alloc);
    let grammar = NumberOnce { seen: false };
    match read(&mut tape, grammar, octets.as_slice()) {
        Ok((_, taken)) => Ok(format!(in alloc; "{taken}")?),
        Err(refusal) => refused(alloc, &refusal),
    }
}
