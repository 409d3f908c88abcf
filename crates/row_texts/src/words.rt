//! Words and numbers that spaces end.
ghost use Rattle.std.specs.Prelude.{◌≡◌, option_map};
ghost use Rattle.row_texts.specs.Words.{after_space, after_word, first_word, number_before};

use rows::{number, piece_length};

/// What follows a word that a text begins with.
pub fn after_word<'a>(text: &'a [u8], word: &[u8]) -> Option<&'a [u8]>
    ensures { option_map (λ t. t.now) result ≡ after_word text.now word.now }
{
    text.strip_prefix(word)
}

/// The first word of a text: what stands before the first space, all where there is none.
pub fn first_word(text: &[u8]) -> &[u8]
    ensures { result.now ≡ first_word text.now }
{
    &text[..piece_length(b' ', text)]
}

/// What follows the first space.
pub fn after_space(text: &[u8]) -> &[u8]
    ensures { result.now ≡ after_space text.now }
{
    let end = piece_length(b' ', text);
    if end < text.len() {
        &text[end + 1..]
    } else {
        &[]
    }
}

/// The number of at most `most` that the first word of a text is.
pub fn number_before(most: u32, text: &[u8]) -> Option<u32>
    ensures { result ≡ number_before most text.now }
{
    Some(number(u64::from(most), first_word(text))? as u32)
}
