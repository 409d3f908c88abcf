//! Reading until the bytes held decide.
ghost use Rattle.std.specs.Prelude.{◌≡◌, ◌≢◌, ◌+◌, ◌<◌, ◌≤◌, Ok, true, false, length};
ghost use Rattle.std.specs.Io.KnownBytes.{IsAtEnd};
ghost use Rattle.edge.specs.Connections.{has_failed};
ghost use Rattle.edge.specs.Faults.{FailsOnlyWithFault};
ghost use Rattle.wire.specs.Decisions.{Decided, HasFilled};
ghost use Rattle.wire.specs.Front.{front};
ghost use Rattle.wire.specs.Heads.{Begins, More};
ghost use Rattle.wire.specs.Held.{HasTaken};
ghost use Rattle.wire.specs.Starts.{IsFound};

use crate::buffer::Buffer;
use crate::field_line::Line;
use crate::framed::{FoundHead, Framed, Look, look_at};
use crate::refusal::WireRefusal;
use edge::{Failed, Source};
use httparse::spans::HeaderSpan;

/// What reading decided.
#[derive(Clone, Copy, Debug)]
pub enum Decision<P> {
    /// A head, and its body of so many bytes behind it.
    Message(FoundHead<P>, usize),
    /// No more bytes make a message.
    Refused(WireRefusal),
    /// The source is at its end, and the bytes held decide nothing.
    Ended,
}

// Reads until there are so many bytes; answers whether they came.
fn fill<S: Source>(buffer: &mut Buffer, size: usize, source: &mut S) -> Result<bool, Failed>
    requires { size ≤ 16384 + 1048576 }
    ensures took { HasTaken (has_failed result) buffer.old.held buffer.new.held (S.left source.old) (S.left source.new) (S.connections source.old) (S.connections source.new) }
    ensures all { result ≡ Ok true → size ≤ length buffer.new.held }
    ensures few { result ≢ Ok true → length buffer.new.held < size }
    ensures end { result ≡ Ok false → IsAtEnd (S.left source.new) }
    ensures had { size ≤ length buffer.old.held → buffer.new.held ≡ buffer.old.held }
    ensures cause { FailsOnlyWithFault (S.faults source.old) (S.faults source.new) result }
    ensures written { S.written source.new ≡ S.written source.old }
    ensures openings { S.openings source.new ≡ S.openings source.old }
    ensures failed_openings { S.failed_openings source.new ≡ S.failed_openings source.old }
{
    while buffer.bytes().len() < size {
        if !buffer.read(source)? {
            return Ok(false);
        }
    }
    Ok(true)
}

// Reads the body of a head.
fn with_body<M: Framed, S: Source>(
    buffer: &mut Buffer,
    found: FoundHead<M::Parts>,
    count: usize,
    source: &mut S,
) -> Result<Decision<M::Parts>, Failed>
    requires found { IsFound M.is_at M.are_parts (front buffer.old.held) found }
    requires body { found.body ≡ Ok count }
    ensures filled { HasFilled (λ bytes. Begins M.is_at M.is_hopeless bytes More) (has_failed result) buffer.old.held buffer.new.held (S.left source.old) (S.left source.new) (S.connections source.old) (S.connections source.new) }
    ensures decided { Decided M.is_at M.is_hopeless M.are_parts buffer.new.held (S.left source.new) result }
    ensures cause { FailsOnlyWithFault (S.faults source.old) (S.faults source.new) result }
    ensures written { S.written source.new ≡ S.written source.old }
    ensures openings { S.openings source.new ≡ S.openings source.old }
    ensures failed_openings { S.failed_openings source.new ≡ S.failed_openings source.old }
{
    match fill(buffer, found.size + count, source) {
        Ok(true) => Ok(Decision::Message(found, count)),
        Ok(false) => Ok(Decision::Ended),
        Err(failed) => Err(failed),
    }
}

/// Reads until the bytes held decide or the source is at its end.
pub fn decide<M: Framed, S: Source>(
    buffer: &mut Buffer,
    fields: &mut [HeaderSpan],
    source: &mut S,
) -> Result<Decision<M::Parts>, Failed>
    requires { length fields.old ≡ 66 }
    ensures filled { HasFilled (λ bytes. Begins M.is_at M.is_hopeless bytes More) (has_failed result) buffer.old.held buffer.new.held (S.left source.old) (S.left source.new) (S.connections source.old) (S.connections source.new) }
    ensures decided { Decided M.is_at M.is_hopeless M.are_parts buffer.new.held (S.left source.new) result }
    ensures cause { FailsOnlyWithFault (S.faults source.old) (S.faults source.new) result }
    ensures written { S.written source.new ≡ S.written source.old }
    ensures openings { S.openings source.new ≡ S.openings source.old }
    ensures failed_openings { S.failed_openings source.new ≡ S.failed_openings source.old }
{
    let mut had = 0;
    let mut line = Line::Unknown;
    loop {
        match look_at::<M>(buffer.bytes(), had, line, fields) {
            Look::Found(found) => return match found.body {
                Ok(count) => with_body::<M, S>(buffer, found, count, source),
                Err(refusal) => Ok(Decision::Refused(refusal)),
            },
            Look::Refused(refusal) => return Ok(Decision::Refused(refusal)),
            Look::Open(end) => line = end,
        }
        had = buffer.bytes().len();
        match buffer.read(source) {
            Ok(true) => {}
            Ok(false) => return Ok(Decision::Ended),
            Err(failed) => return Err(failed),
        }
    }
}
