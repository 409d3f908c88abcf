//! The text of an epoch: decimal digits and a line feed.
ghost use Rattle.std.specs.Prelude.{◌≡◌, ◌≤◌, ◌<◌, ◌^◌, length, drop, Some};
ghost use Rattle.edge.specs.EpochText.{epoch_from, epoch_of};

// The most bytes that an epoch and its line feed have.
const MOST: usize = 21;

/// The text of one epoch.
#[derive(Drop)]
pub struct EpochText {
    text: [u8; MOST],
    from: usize,
    ghost within: { from ≤ 21 },
}

// Puts the digits of a number before a place, the last one first, and gives the place of the first one.
fn put_digits(text: &mut [u8], end: usize, number: u64) -> usize
    requires end { end < length text.old }
    requires room { number < 10 ^ end }
    requires feed { epoch_from number (drop end text.old) ≡ Some number }
    ensures place { result ≤ end }
    ensures text { epoch_from 0 (drop result text.new) ≡ Some number }
{
    let mut from = end;
    let mut rest = number;
    while rest > 0 {
        from -= 1;
        text[from] = b'0' + (rest % 10) as u8;
        rest /= 10;
    }
    from
}

impl EpochText {
    ghost use Rattle.edge.specs.FileDisks.{epoch_bytes};

    /// The digits of an epoch, and a line feed.
    pub fn new(epoch: u64) -> EpochText
        ensures { epoch_of (epoch_bytes result) ≡ Some epoch }
    {
        let mut text = [b'\n'; MOST];
        let from = put_digits(&mut text, MOST - 1, epoch);
        if from < MOST - 1 {
            return EpochText { text, from };
        }
        text[MOST - 2] = b'0';
        EpochText {
            text,
            from: MOST - 2,
        }
    }

    /// Its bytes.
    pub fn bytes(&self) -> &[u8]
        ensures { result.now ≡ epoch_bytes self.now }
    {
        &self.text[self.from..]
    }
}

/// The epoch of a text, where it is one.
pub fn epoch_in(text: &[u8]) -> Option<u64>
    ensures { result ≡ epoch_of text.now }
{
    if let [b'\n', ..] = text {
        return None;
    }
    let mut epoch: u64 = 0;
    let mut rest = text;
    while let [byte, behind @ ..] = rest {
        if *byte == b'\n' {
            return if behind.is_empty() { Some(epoch) } else { None };
        }
        if *byte < b'0' || b'9' < *byte {
            return None;
        }
        let digit = u64::from(*byte - b'0');
        if epoch > (u64::MAX - digit) / 10 {
            return None;
        }
        epoch = epoch * 10 + digit;
        rest = behind;
    }
    None
}
