//! The name of a peer, in a buffer that is taken once.
ghost use Rattle.std.specs.Prelude.{◌≡◌, ◌≤◌, [], length, IfOk};

use std::alloc::{AllocError, Global};
use std::marker::Model;

/// The longest name of a peer that a link in memory keeps (this product's own).
pub const MOST_BYTES: usize = 255;

/// The name of a peer, of at most 255 bytes.
#[derive(Drop)]
pub struct PeerName {
    bytes: Vec<u8>,
}

impl Model for PeerName {
    ghost use Rattle.std.specs.Prelude.{ℕ, List, ◌≤◌, vec_capacity};

    ghost Value = { List ℕ };

    ghost view = { λ name. name.bytes.items };

    ghost invariant = { λ name. 255 ≤ vec_capacity name.bytes };
}

impl PeerName {
    /// An empty name, with a place for a longest one.
    pub fn new(alloc: Global) -> Result<PeerName, AllocError>
        ensures { IfOk result (λ name. name ≡ []) }
    {
        Ok(PeerName {
            bytes: Vec::with_capacity(alloc, MOST_BYTES)?,
        })
    }

    /// Becomes this name.
    pub fn set(&mut self, name: &[u8])
        requires { length name.now ≤ 255 }
        ensures { self.new ≡ name.now }
    {
        self.bytes.clear();
        match self.bytes.extend_from_slice(name) {
            Ok(()) => {}
            Err(_) => unreachable!(),
        }
    }
}
