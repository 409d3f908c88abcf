//! What is decided on a command and what entering it answers.
use chf_core::{ChfRefusal, Plan};
use units::List;

/// A fresh command: the plan of its commit, and its payload (this product's own).
#[derive(Debug, Drop)]
pub struct Entry {
    pub plan: Plan,
    pub payload: List<u8>,
}

/// What is decided on a command (this product's own).
#[derive(Debug, Drop)]
pub enum Decided {
    /// An earlier charging data request has the key and content: its place, from 0.
    Kept(u32),
    /// An operator's command changes nothing.
    Known,
    /// It is refused, and nothing is kept of it.
    Refused(ChfRefusal),
    /// It is fresh, and may be kept.
    Fresh(Entry),
}

/// What entering a command answers (this product's own).
#[derive(Clone, Copy, PartialEq, Eq, Debug)]
pub enum Entered {
    /// An earlier charging data request has the key and content: its place, from 0.
    Kept(u32),
    /// An operator's command changes nothing.
    Known,
    /// It is refused, and nothing is kept of it.
    Refused(ChfRefusal),
    /// It was fresh and is kept, at this place, from 0.
    Fresh(u32),
}
