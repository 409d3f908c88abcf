//! The front of a message: the bytes in which its head must end.
ghost use Rattle.std.specs.Prelude.{◌≡◌, ◌≤◌, ◌<◌, length};
ghost use Rattle.wire.specs.Front.{front, is_cut, line_feeds};

/// How many bytes a head may have at most (this product's own).
pub const MOST_BYTES: usize = 16384;

/// How many line feeds a head may have at most: a start line, 64 fields and an empty line (this product's own).
pub const MOST_LINES: usize = 66;

/// Of so many bytes the line feeds are counted in one byte, which goes many places at a time.
const FEW: usize = 255;

// How many line feeds there are of few bytes.
fn count_few(bytes: &[u8]) -> u8
    requires { length bytes.now ≤ 255 }
    ensures { result ≡ line_feeds bytes.now }
{
    let mut count = 0u8;
    for byte in bytes {
        count += u8::from(*byte == b'\n');
    }
    count
}

// How many line feeds there are of many bytes.
fn count_many(bytes: &[u8]) -> usize
    ensures { result ≡ line_feeds bytes.now }
{
    bytes.iter().filter(|byte| **byte == b'\n').count()
}

/// How many line feeds there are.
pub fn count_lines(bytes: &[u8]) -> usize
    ensures { result ≡ line_feeds bytes.now }
{
    let (near, far) = bytes.split_at(bytes.len().min(FEW));
    let count = count_many(far);
    usize::from(count_few(near)) + count
}

/// The front of these bytes.
pub fn front_of(bytes: &[u8]) -> &[u8]
    ensures front { result.now ≡ front bytes.now }
    ensures lines { line_feeds result.now ≤ 66 }
{
    let end = bytes.len().min(MOST_BYTES);
    let mut lines = MOST_LINES;
    for at in 0..end {
        if bytes[at] == b'\n' {
            lines -= 1;
            if lines == 0 {
                return &bytes[..at + 1];
            }
        }
    }
    &bytes[..end]
}

/// Whether the front of these bytes is cut.
#[tactic(auto, unfolding(crate::specs::Front::is_cut))]
pub fn is_front_cut(bytes: &[u8]) -> bool
    ensures { result ≡ is_cut bytes.now }
{
    bytes.len() >= MOST_BYTES || count_lines(bytes) >= MOST_LINES
}
