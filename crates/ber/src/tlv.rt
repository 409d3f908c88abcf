//! An element as a value.
ghost use Rattle.std.specs.Prelude.{◌≡◌};
ghost use Rattle.std.specs.Option.{option_map};
ghost use Rattle.ber.specs.Element as elements_of;
ghost use Rattle.ber.specs.Element.{element, elements, contents_of, inner_of, tag_is};

use crate::tag::Tag;
use sqlite_items::Items;
use units::List;

/// An element: tag, length and value (X.690 8.1.1). A class of 0 to 3, and not class 0 with number 0, can be read and written back.
#[cycle(tlv)]
#[derive(Debug, Drop)]
pub struct Tlv {
    /// 0 universal, 1 application, 2 context-specific, 3 private (X.690 8.1.2.2, Table 1).
    pub class: u8,
    /// The number within the class (X.690 8.1.2).
    pub number: u32,
    /// The contents octets (X.690 8.1.4).
    pub body: Body,
}

/// The contents of an element (X.690 8.1.4).
#[cycle(tlv)]
#[derive(Debug, Drop)]
pub enum Body {
    /// Octets.
    Primitive(List<u8>),
    /// Elements, in order.
    Constructed(Items<Tlv>),
}

impl Tlv {
    /// What its identifier octets say (X.690 8.1.2).
    pub fn tag(&self) -> Tag
        ensures { result ≡ tag_is (element self.now) }
    {
        Tag {
            class: self.class,
            constructed: matches!(&self.body, Body::Constructed(_)),
            number: self.number,
        }
    }

    /// The octets of a primitive element; `None` exactly of a constructed one (X.690 8.1.4).
    pub fn contents(&self) -> Option<&[u8]>
        ensures { option_map (λ b. b.now) result ≡ contents_of (element self.now) }
    {
        match &self.body {
            Body::Primitive(contents) => Some(contents.as_slice()),
            Body::Constructed(_) => None,
        }
    }

    /// The elements within a constructed one; `None` exactly of a primitive one (X.690 8.1.4).
    pub fn inner(&self) -> Option<&[Tlv]>
        ensures { option_map (λ l. elements l.now) result ≡ inner_of (element self.now) }
    {
        match &self.body {
            Body::Primitive(_) => None,
            Body::Constructed(inner) => Some(inner.as_slice()),
        }
    }
}

/// A constructed element of this class and number (X.690 8.1.2.5); it takes no memory.
pub fn constructed(tag: &Tag, inner: Items<Tlv>) -> Tlv
    ensures { element result ≡ elements_of.constructed tag.now.class tag.now.number (elements inner) }
{
    Tlv {
        class: tag.class,
        number: tag.number,
        body: Body::Constructed(inner),
    }
}

/// A primitive element of this class and number (X.690 8.1.2.5); it takes no memory.
pub fn primitive(tag: &Tag, contents: List<u8>) -> Tlv
    ensures { element result ≡ elements_of.primitive tag.now.class tag.now.number contents }
{
    Tlv {
        class: tag.class,
        number: tag.number,
        body: Body::Primitive(contents),
    }
}
