//! Where elements are put as they are read.
use crate::node::Node;
use std::alloc::{AllocError, Global};

/// Where elements are put as they are read, in a list that keeps its memory from one reading to the next (this product's
/// own).
#[derive(Drop)]
pub struct Tape<'a> {
    pub(crate) nodes: Vec<Node<'a>>,
}

impl<'a> Tape<'a> {
    /// An empty one, with places for so many elements before it grows.
    pub fn with_places(alloc: Global, places: usize) -> Result<Tape<'a>, AllocError> {
        Ok(Tape {
            nodes: Vec::with_capacity(alloc, places)?,
        })
    }

    /// An empty one, which has taken no memory.
    pub fn new(alloc: Global) -> Tape<'a> {
        Tape {
            nodes: Vec::new(alloc),
        }
    }
}
