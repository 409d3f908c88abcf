//! The pieces of a text between separators.
ghost use Rattle.std.specs.Prelude.{◌≡◌, ◌≤◌, ◌<◌, ◌+◌, ◌^◌, ◌∷◌, [], length, take, drop};
ghost use Rattle.rows.specs.Pieces.{piece_length, pieces};

/// How many bytes of a text stand before the first separator, all where there is none. They are the first piece, and what follows that
/// separator has the other pieces (this product's own).
pub fn piece_length(separator: u8, text: &[u8]) -> usize
    ensures value { result ≡ piece_length separator text.now }
    ensures within { result ≤ length text.now }
    ensures small { result < 2 ^ 63 }
    ensures first { result < length text.now → pieces separator text.now ≡ take result text.now ∷ pieces separator (drop (result + 1) text.now) }
    ensures last { length text.now ≤ result → pieces separator text.now ≡ take result text.now ∷ [] }
{
    let mut at = 0;
    while at < text.len() && text[at] != separator {
        at += 1;
    }
    at
}
