//! Where bytes end within the lines of a head: within a field they go on to be no head, and no wrong one, so a reader that
//! follows them there needs no parser.
ghost use Rattle.std.specs.Prelude.{◌≡◌, ◌≢◌, ◌≤◌, IsTrue, length, take};
ghost use Rattle.wire.specs.FieldLines.{EndsIn, step_line};

use httparse::{is_header_name_token, is_header_value_token};

/// Where bytes end.
#[derive(Clone, Copy, Debug, PartialEq, Eq)]
pub enum Line {
    Unknown,
    /// Behind a line feed.
    Start,
    /// Within a field's name.
    Name,
    /// Within a field's value.
    Value,
}

// Where bytes end with one byte more.
fn next_line(line: Line, byte: u8) -> Line
    ensures { result ≡ step_line line byte }
{
    match line {
        Line::Unknown => Line::Unknown,
        Line::Start => if is_header_name_token(byte) {
            Line::Name
        } else {
            Line::Unknown
        },
        Line::Name => if is_header_name_token(byte) {
            Line::Name
        } else if byte == b':' {
            Line::Value
        } else {
            Line::Unknown
        },
        Line::Value => if is_header_value_token(byte) {
            Line::Value
        } else {
            Line::Unknown
        },
    }
}

// The same byte by byte.
fn follow_each(bytes: &[u8], had: usize, line: Line) -> Line
    requires within { had ≤ length bytes.now }
    requires ends { EndsIn had (take had bytes.now) line }
    ensures { EndsIn had bytes.now result }
{
    let mut line = line;
    for byte in &bytes[had..] {
        line = next_line(line, *byte);
    }
    line
}

/// Where bytes end, of which the first so many end here; where that is unknown, none of them is looked at.
pub fn follow(bytes: &[u8], had: usize, line: Line) -> Line
    requires within { had ≤ length bytes.now }
    requires ends { EndsIn had (take had bytes.now) line }
    ensures { EndsIn had bytes.now result }
{
    if is_known(line) {
        follow_each(bytes, had, line)
    } else {
        Line::Unknown
    }
}

/// Where bytes end of which nothing is known but what they are: only an end behind a line feed is looked for.
pub fn line_of(bytes: &[u8]) -> Line
    ensures { EndsIn (length bytes.now) bytes.now result }
{
    let size = bytes.len();
    if size > 0 && bytes[size - 1] == b'\n' && bytes[0] != b'\r' && bytes[0] != b'\n' {
        Line::Start
    } else {
        Line::Unknown
    }
}

/// Whether it is known where bytes end.
pub fn is_known(line: Line) -> bool
    ensures { IsTrue result → line ≢ Line.Unknown }
{
    !matches!(line, Line::Unknown)
}
