//! Elements that were read, whose contents octets stand where they were read.
ghost use Rattle.std.specs.Prelude.{◌≡◌, IfOk};
ghost use Rattle.std.specs.Option.{option_map};
ghost use Rattle.ber.specs.Element as elements_of;
ghost use Rattle.ber.specs.Element.{element, contents_of, inner_of, first_of, tag_is};
ghost use Rattle.ber.specs.Tape.{nodes_seen, seen, row_seen};

use crate::node::{Content, Node};
use crate::tag::Tag;
use crate::tlv::{Tlv, constructed, primitive};
use sqlite_items::Items;
use std::alloc::{AllocError, Global};
use units::List;

/// An element that was read: tag, length and value (X.690 8.1.1); its contents octets are those that were read, not a copy.
#[derive(Clone, Copy, Debug)]
pub struct TlvRef<'t, 'a> {
    /// 0 universal, 1 application, 2 context-specific, 3 private (X.690 8.1.2.2, Table 1).
    pub class: u8,
    /// The number within the class (X.690 8.1.2).
    pub number: u32,
    /// The contents octets (X.690 8.1.4).
    pub body: BodyRef<'t, 'a>,
}

/// The contents of an element that was read (X.690 8.1.4).
#[derive(Clone, Copy, Debug)]
pub enum BodyRef<'t, 'a> {
    /// Octets.
    Primitive(&'a [u8]),
    /// Elements, in order.
    Constructed(Row<'t, 'a>),
}

/// Elements that were read one after the other (this product's own).
#[derive(Clone, Copy, Debug)]
pub struct Row<'t, 'a> {
    nodes: &'t [Node<'a>],
}

impl<'t, 'a> Row<'t, 'a> {
    // The elements that these nodes are.
    pub(crate) fn of(nodes: &'t [Node<'a>]) -> Row<'t, 'a>
        ensures { row_seen result ≡ nodes_seen nodes.now }
    {
        Row { nodes }
    }

    /// The first of them, and those behind it; `None` exactly where there is none.
    pub fn split_first(&self) -> Option<(TlvRef<'t, 'a>, Row<'t, 'a>)>
        ensures { option_map (λ x. (seen x.0, row_seen x.1)) result ≡ first_of (row_seen self.now) }
    {
        let (node, behind) = self.nodes.split_first()?;
        match node.content {
            Content::Octets(contents) => {
                let tlv = primitive_ref(node.class, node.number, contents);
                Some((tlv, Row::of(behind)))
            }
            Content::Nodes(size) => {
                let (inner, rest) = behind.split_at(size.min(behind.len()));
                let tlv = constructed_ref(node.class, node.number, Row::of(inner));
                Some((tlv, Row::of(rest)))
            }
        }
    }
}

// A primitive element of this class and number.
fn primitive_ref<'t, 'a>(class: u8, number: u32, contents: &'a [u8]) -> TlvRef<'t, 'a>
    ensures { seen result ≡ elements_of.primitive class number contents.now }
{
    TlvRef {
        class,
        number,
        body: BodyRef::Primitive(contents),
    }
}

// A constructed element of this class and number.
fn constructed_ref<'t, 'a>(class: u8, number: u32, inner: Row<'t, 'a>) -> TlvRef<'t, 'a>
    ensures { seen result ≡ elements_of.constructed class number (row_seen inner.entry) }
{
    TlvRef {
        class,
        number,
        body: BodyRef::Constructed(inner),
    }
}

impl<'t, 'a> TlvRef<'t, 'a> {
    /// What its identifier octets say (X.690 8.1.2).
    pub fn tag(&self) -> Tag
        ensures { result ≡ tag_is (seen self.now) }
    {
        Tag {
            class: self.class,
            constructed: matches!(&self.body, BodyRef::Constructed(_)),
            number: self.number,
        }
    }

    /// The octets of a primitive element; `None` exactly of a constructed one (X.690 8.1.4).
    pub fn contents(&self) -> Option<&'a [u8]>
        ensures { option_map (λ b. b.now) result ≡ contents_of (seen self.now) }
    {
        match self.body {
            BodyRef::Primitive(contents) => Some(contents),
            BodyRef::Constructed(_) => None,
        }
    }

    /// The elements within a constructed one; `None` exactly of a primitive one (X.690 8.1.4).
    pub fn inner(&self) -> Option<Row<'t, 'a>>
        ensures { option_map row_seen result ≡ inner_of (seen self.now) }
    {
        match self.body {
            BodyRef::Primitive(_) => None,
            BodyRef::Constructed(inner) => Some(inner),
        }
    }

    /// The same element with contents octets of its own (this product's own).
    pub fn to_tlv(&self, alloc: Global) -> Result<Tlv, AllocError>
        ensures { IfOk result (λ t. element t ≡ seen self.now) }
    {
        let tag = self.tag();
        match self.body {
            BodyRef::Primitive(contents) => {
                let contents = Vec::from_slice(alloc, contents)?;
                Ok(primitive(&tag, List::from_vec(contents)))
            }
            BodyRef::Constructed(inner) => {
                let mut copies = Vec::new(alloc);
                let mut left = inner;
                while let Some((child, rest)) = left.split_first() {
                    copies.push(child.to_tlv(alloc)?)?;
                    left = rest;
                }
                Ok(constructed(&tag, Items::from_vec(copies)))
            }
        }
    }
}
