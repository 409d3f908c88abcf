//! What the reader asks of a kind of message, and what stands at the front of some bytes.
ghost use Rattle.std.specs.Prelude.{◌≡◌, ◌≢◌, ◌≤◌, ◌<◌, ℕ, List, IfOk, IsTrue, false, length, take};
ghost use Rattle.wire.specs.Front.{front, is_cut, line_feeds};
ghost use Rattle.wire.specs.Heads.{Head};
ghost use Rattle.wire.specs.FieldLines.{EndsIn};
ghost use Rattle.wire.specs.Looks.{Looks};
ghost use Rattle.wire.specs.Starts.{FindsHead, IsOpen, Starts};

use crate::field_line::{Line, follow, line_of};
use crate::front::{MOST_BYTES, MOST_LINES, count_lines, front_of, is_front_cut};
use crate::refusal::WireRefusal;
use httparse::spans::HeaderSpan;
use std::alloc::{AllocError, Global};

/// A head: how many bytes it has, the length of the body that follows it or why it is refused, and where its parts lie.
#[derive(Clone, Copy, Debug)]
pub struct FoundHead<P> {
    pub size: usize,
    pub body: Result<usize, WireRefusal>,
    pub parts: P,
}

/// What bytes begin with.
#[derive(Clone, Copy, Debug)]
pub enum Start<P> {
    Found(FoundHead<P>),
    /// No head so far.
    Open,
    /// No head, whatever follows.
    Hopeless,
}

/// A kind of message: how its heads are found, and how a message is made of a head and its body.
pub trait Framed {
    type Parts: Copy;

    ghost is_at: { List ℕ → Head Self → Type 0 };

    ghost is_hopeless: { List ℕ → Type 0 };

    ghost are_parts: { Self.Parts → List ℕ → Head Self → Type 0 };

    /// What these bytes begin with; where they have too many lines only a head that is found counts.
    fn parse(near: &[u8], fields: &mut [HeaderSpan]) -> Start<Self::Parts>
        requires { length fields.old ≡ 66 }
        ensures found { FindsHead is_at are_parts near.now result }
        ensures exact { line_feeds near.now ≤ 66 → Starts is_at is_hopeless are_parts near.now result };

    /// Whether bytes that end within the line of a field decide nothing, as the first so many of them do not: it is only asked
    /// whether it is known where they end.
    fn goes_on(near: &[u8], had: usize, line: Line) -> bool
        requires within { had ≤ length near.now }
        requires ends { EndsIn had near.now line }
        ensures known { IsTrue result → line ≢ Line.Unknown }
        ensures exact { IsTrue result → IsOpen is_at is_hopeless (take had near.now) → IsOpen is_at is_hopeless near.now };

    /// The message that a head with these parts is with this body.
    fn message(
        alloc: Global,
        head: &[u8],
        parts: Self::Parts,
        body: &[u8],
    ) -> Result<Self, AllocError>
        requires { (found : Head Self) × are_parts parts head.now found }
        ensures { (found : Head Self) → are_parts parts head.now found → IfOk result (λ message. message ≡ found.message body.now) };
}

/// What stands at the front of these bytes; the places for fields are written over.
///
/// Most heads are short, so the front is looked for only where no short one stands there, or the first bytes have too many
/// lines or no head can come of them.
pub fn start_of<M: Framed>(bytes: &[u8], fields: &mut [HeaderSpan]) -> Start<M::Parts>
    requires { length fields.old ≡ 66 }
    ensures { Starts M.is_at M.is_hopeless M.are_parts (front bytes.now) result }
{
    let near = &bytes[..bytes.len().min(MOST_BYTES)];
    match M::parse(near, fields) {
        Start::Found(found) if count_lines(&near[..found.size]) < MOST_LINES => Start::Found(found),
        Start::Open if count_lines(near) < MOST_LINES => Start::Open,
        _ => M::parse(front_of(bytes), fields),
    }
}

/// What bytes say of the message that they begin with.
#[derive(Clone, Copy, Debug)]
pub enum Look<P> {
    Found(FoundHead<P>),
    /// No more bytes make a message.
    Refused(WireRefusal),
    /// Nothing so far, and where they end.
    Open(Line),
}

/// What these bytes say, of which the first so many say nothing, or are none, and end here.
pub fn look_at<M: Framed>(
    bytes: &[u8],
    had: usize,
    line: Line,
    fields: &mut [HeaderSpan],
) -> Look<M::Parts>
    requires places { length fields.old ≡ 66 }
    requires within { had ≤ length bytes.now }
    requires ends { EndsIn had (take had bytes.now) line }
    requires known { 0 < had → IsOpen M.is_at M.is_hopeless (front (take had bytes.now)) }
    requires short { 0 < had → is_cut (take had bytes.now) ≡ false }
    ensures { Looks M.is_at M.is_hopeless M.are_parts bytes.now result }
{
    let line = follow(bytes, had, line);
    if bytes.len() < MOST_BYTES && M::goes_on(bytes, had, line) {
        return Look::Open(line);
    }
    match start_of::<M>(bytes, fields) {
        Start::Found(found) => Look::Found(found),
        Start::Hopeless => Look::Refused(WireRefusal::BadHead),
        Start::Open => if is_front_cut(bytes) {
            Look::Refused(WireRefusal::TooLong { head: true })
        } else {
            Look::Open(line_of(bytes))
        },
    }
}
