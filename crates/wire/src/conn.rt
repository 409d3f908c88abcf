//! The reader of a connection.
ghost use Rattle.std.specs.Prelude.{◌≡◌, ◌↔◌, ◌≤◌, ◌+◌, ◌++◌, [], ℕ, List, false, drop, IfOk, IsErrOf, IsTrue, OnErr, OnOk, Some};
ghost use Rattle.edge.specs.Faults.{CountRose};
ghost use Rattle.wire.specs.Decisions.{IsReady};
ghost use Rattle.wire.specs.Heads.{Begins, More, Whole};
ghost use Rattle.wire.specs.Held.{AnswersOrEnds, AnswersStream, HasRead, Reads, ReadsOrEnds};
ghost use Rattle.wire.specs.Requests.{RequestLooks};
ghost use Rattle.wire.specs.Responses.{ResponseLooks};

use crate::buffer::Buffer;
use crate::decision::{Decision, decide};
use crate::framed::{FoundHead, Framed};
use crate::message::{HttpRequest, HttpResponse};
use crate::refusal::WireRefusal;
use edge::Source;
use httparse::spans::{EMPTY_HEADER_SPAN, HeaderSpan};
use std::alloc::{AllocError, Global};
use std::marker::Model;
use units::OutOfMemory;

/// What was read of a connection and not yet used, and whether a message of it was refused (RFC 9112 section 9.3).
#[derive(Drop)]
pub struct Conn {
    buffer: Buffer,
    refused: bool,
    // places for the fields of a head that is parsed
    fields: [HeaderSpan; 66],
}

impl Model for Conn {
    ghost use Rattle.std.specs.Prelude.{◌≡◌, length};
    ghost use Rattle.wire.specs.Held.{Held};

    ghost Value = { Held };

    ghost view = { λ c. record { bytes = c.buffer.held; refused = c.refused } };

    ghost invariant = { λ c. length c.fields ≡ 66 };
}

// Whether the source ended between messages.
fn is_end<T>(answer: &Result<T, WireRefusal>) -> bool
    ensures { IsTrue result ↔ (answer.now ≡ Err (WireRefusal.CutShort 0)) }
{
    matches!(answer, Err(WireRefusal::CutShort { had: 0 }))
}

// Takes a whole message off at the front.
fn take_message<M: Framed>(
    alloc: Global,
    buffer: &mut Buffer,
    found: FoundHead<M::Parts>,
    count: usize,
) -> Result<M, AllocError>
    requires { IsReady M.is_at M.are_parts buffer.old.held found count }
    ensures message { IfOk result (λ message. Begins M.is_at M.is_hopeless buffer.old.held (Whole message (found.size + count))) }
    ensures rest { OnOk result (buffer.new.held ≡ drop (found.size + count) buffer.old.held) }
    ensures same { OnErr result (buffer.new.held ≡ buffer.old.held) }
{
    let (head, body) = buffer.bytes().split_at(found.size);
    let message = M::message(alloc, head, found.parts, &body[..count])?;
    buffer.drop_front(found.size + count);
    Ok(message)
}

impl Conn {
    /// Nothing read yet; it takes its whole buffer of 16 KiB and 1 MiB.
    pub fn new(alloc: Global) -> Result<Conn, OutOfMemory>
        ensures { IfOk result (λ conn. conn ≡ record { bytes = []; refused = false }) }
    {
        Ok(Conn {
            buffer: Buffer::new(alloc)?,
            refused: false,
            fields: [EMPTY_HEADER_SPAN; 66],
        })
    }

    // The next message, of one kind.
    fn next<M: Framed, S: Source>(
        &mut self,
        alloc: Global,
        source: &mut S,
    ) -> Result<M, WireRefusal>
        requires { self.old.refused ≡ false }
        ensures read { HasRead (Reads (Begins M.is_at M.is_hopeless)) (λ bytes. Begins M.is_at M.is_hopeless bytes More) self.old self.new result (S.left source.old) (S.left source.new) (S.connections source.old) (S.connections source.new) }
        ensures later { S.faults source.old ≤ S.faults source.new }
        ensures rose { IsErrOf result WireRefusal.ReadFault → CountRose (S.faults source.old) (S.faults source.new) }
        ensures kept { (IsErrOf result WireRefusal.ReadFault → ⊥) → S.faults source.new ≡ S.faults source.old }
        ensures written { S.written source.new ≡ S.written source.old }
        ensures openings { S.openings source.new ≡ S.openings source.old }
        ensures failed_openings { S.failed_openings source.new ≡ S.failed_openings source.old }
    {
        match decide::<M, S>(&mut self.buffer, &mut self.fields, source) {
            Ok(Decision::Message(found, count)) => match take_message::<M>(
                alloc,
                &mut self.buffer,
                found,
                count,
            ) {
                Ok(message) => Ok(message),
                Err(_) => Err(WireRefusal::OutOfMemory),
            },
            Ok(Decision::Refused(refusal)) => {
                self.refused = true;
                Err(refusal)
            }
            Ok(Decision::Ended) => {
                self.refused = true;
                Err(WireRefusal::CutShort {
                    had: self.buffer.bytes().len() as u64,
                })
            }
            Err(_) => {
                self.refused = true;
                Err(WireRefusal::ReadFault)
            }
        }
    }

    // The same of a connection that may have been refused before.
    fn read<M: Framed, S: Source>(
        &mut self,
        alloc: Global,
        source: &mut S,
    ) -> Result<M, WireRefusal>
        ensures read { HasRead (Reads (Begins M.is_at M.is_hopeless)) (λ bytes. Begins M.is_at M.is_hopeless bytes More) self.old self.new result (S.left source.old) (S.left source.new) (S.connections source.old) (S.connections source.new) }
        ensures later { S.faults source.old ≤ S.faults source.new }
        ensures rose { IsErrOf result WireRefusal.ReadFault → CountRose (S.faults source.old) (S.faults source.new) }
        ensures kept { (IsErrOf result WireRefusal.ReadFault → ⊥) → S.faults source.new ≡ S.faults source.old }
        ensures written { S.written source.new ≡ S.written source.old }
        ensures openings { S.openings source.new ≡ S.openings source.old }
        ensures failed_openings { S.failed_openings source.new ≡ S.failed_openings source.old }
    {
        if self.refused {
            return Err(WireRefusal::BadHead);
        }
        self.next(alloc, source)
    }

    /// The next request; `None` exactly where the stream ended between messages.
    ///
    /// The source is read only where the bytes held begin with no whole request and are not refused. After a refusal other
    /// than want of memory each call answers `BadHead`, and reads nothing.
    pub fn read_request<S: Source>(
        &mut self,
        alloc: Global,
        source: &mut S,
    ) -> Result<Option<HttpRequest>, WireRefusal>
        ensures read { HasRead (ReadsOrEnds RequestLooks) (λ bytes. RequestLooks bytes More) self.old self.new result (S.left source.old) (S.left source.new) (S.connections source.old) (S.connections source.new) }
        ensures stream { self.old.refused ≡ false → (left left_now : List ℕ) → S.left source.old ≡ Some left → S.left source.new ≡ Some left_now
            → AnswersOrEnds RequestLooks (self.old.bytes ++ left) (self.new.bytes ++ left_now) result }
        ensures later { S.faults source.old ≤ S.faults source.new }
        ensures rose { IsErrOf result WireRefusal.ReadFault → CountRose (S.faults source.old) (S.faults source.new) }
        ensures kept { (IsErrOf result WireRefusal.ReadFault → ⊥) → S.faults source.new ≡ S.faults source.old }
        ensures written { S.written source.new ≡ S.written source.old }
        ensures openings { S.openings source.new ≡ S.openings source.old }
        ensures failed_openings { S.failed_openings source.new ≡ S.failed_openings source.old }
    {
        let result = self.read::<HttpRequest, S>(alloc, source);
        if is_end(&result) {
            self.refused = false;
            return Ok(None);
        }
        match result {
            Ok(request) => Ok(Some(request)),
            Err(refusal) => Err(refusal),
        }
    }

    /// The next response; where the stream ends before it, `CutShort` has 0.
    ///
    /// The source is read only where the bytes held begin with no whole response and are not refused. After a refusal other
    /// than want of memory each call answers `BadHead`, and reads nothing.
    pub fn read_response<S: Source>(
        &mut self,
        alloc: Global,
        source: &mut S,
    ) -> Result<HttpResponse, WireRefusal>
        ensures read { HasRead (Reads ResponseLooks) (λ bytes. ResponseLooks bytes More) self.old self.new result (S.left source.old) (S.left source.new) (S.connections source.old) (S.connections source.new) }
        ensures stream { self.old.refused ≡ false → (left left_now : List ℕ) → S.left source.old ≡ Some left → S.left source.new ≡ Some left_now
            → AnswersStream ResponseLooks (self.old.bytes ++ left) (self.new.bytes ++ left_now) result }
        ensures later { S.faults source.old ≤ S.faults source.new }
        ensures rose { IsErrOf result WireRefusal.ReadFault → CountRose (S.faults source.old) (S.faults source.new) }
        ensures kept { (IsErrOf result WireRefusal.ReadFault → ⊥) → S.faults source.new ≡ S.faults source.old }
        ensures written { S.written source.new ≡ S.written source.old }
        ensures openings { S.openings source.new ≡ S.openings source.old }
        ensures failed_openings { S.failed_openings source.new ≡ S.failed_openings source.old }
    {
        self.read::<HttpResponse, S>(alloc, source)
    }
}
