//! The nodes of a tape.
ghost use Rattle.std.specs.Prelude.{◌≡◌};
ghost use Rattle.ber.specs.Tape.{node_with};

use crate::tag::Tag;

/// An element on a tape, which those within it follow.
#[derive(Clone, Copy, Debug)]
pub struct Node<'a> {
    pub class: u8,
    pub number: u32,
    pub content: Content<'a>,
}

/// What is within an element on a tape.
#[derive(Clone, Copy, Debug)]
pub enum Content<'a> {
    /// These octets.
    Octets(&'a [u8]),
    /// So many of the nodes behind it, at all depths.
    Nodes(usize),
}

/// A primitive element with these contents octets.
pub fn primitive_node<'a>(tag: &Tag, contents: &'a [u8]) -> Node<'a>
    ensures { result ≡ node_with tag.now.class tag.now.number (Content.Octets contents.entry) }
{
    Node {
        class: tag.class,
        number: tag.number,
        content: Content::Octets(contents),
    }
}

/// A constructed element of which so many nodes behind it are.
pub fn constructed_node<'a>(tag: &Tag, size: usize) -> Node<'a>
    ensures { result ≡ node_with tag.now.class tag.now.number (Content.Nodes size) }
{
    Node {
        class: tag.class,
        number: tag.number,
        content: Content::Nodes(size),
    }
}
