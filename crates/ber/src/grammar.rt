//! What a grammar says as an element is read.
ghost use Rattle.std.specs.Prelude.{◌≡◌};

use crate::tag::Tag;

/// What a grammar says of an inner element by its tag (this product's own).
#[derive(Clone, Copy, Debug)]
pub enum Step<S> {
    /// It may stand here: the states of the element around, from here on, and of the inner one.
    Into {
        /// The state of the element around, from here on.
        outer: S,
        /// The state of the inner element at its start.
        inner: S,
    },
    /// A fault of the inner element.
    Here,
    /// A fault of the element around.
    Around,
}

/// Which elements may stand where, by a state for each element that is open (this product's own).
pub trait Grammar: Copy {
    ghost use Rattle.ber.specs.Grammar.{Rules};

    ghost rules: { Rules Self };

    /// Whether an inner element with this tag may stand here.
    fn enter(&self, tag: &Tag) -> Step<Self>
        ensures { result ≡ rules.enter self.now tag.now };

    /// Whether a primitive element in this state may have these contents.
    fn takes(&self, contents: &[u8]) -> bool
        ensures { result ≡ rules.takes self.now contents.now };

    /// Whether a constructed element in this state may end.
    fn is_whole(&self) -> bool
        ensures { result ≡ rules.whole self.now };
}
