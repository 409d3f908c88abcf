//! A charging record, and what a book keeps of one.
use units::{List, Moment, Text, UnitUsage};

/// A charging record of a data session (TS 32.298, 5.1.5.0; the selection of fields is this product's profile). No entry
/// of its usage asks for quota.
#[derive(Clone, PartialEq, Eq, Debug, Drop)]
pub struct Record {
    /// The recording network function.
    pub function: Text,
    /// The subscriber identifier.
    pub subscriber: Text,
    /// The consumer, which is the SMF.
    pub consumer: Text,
    /// The charging id of the session.
    pub charging_id: u32,
    /// The containers, by rating group.
    pub usage: List<UnitUsage>,
    /// When it was opened.
    pub opening: Moment,
    /// From its opening to its closing, in seconds.
    pub duration: u32,
    /// Its number within the session, from 1.
    pub sequence: u32,
    /// The cause for closing (TS 32.298, 5.1.5.1.2).
    pub cause: u8,
    /// Its number among all closed records, from 1.
    pub local: u32,
}

/// A record as a book keeps it: all but the names that its session gave (this product's own). Duration, cause and local
/// number are 0 until it is closed.
#[derive(Clone, PartialEq, Eq, Debug, Drop)]
pub struct Kept {
    /// The session.
    pub session: u32,
    /// The containers: an entry for each rating group that has one, in order of first appearance.
    pub usage: List<UnitUsage>,
    /// When it was opened.
    pub opening: Moment,
    /// From its opening to its closing, in seconds.
    pub duration: u32,
    /// Its number within the session, from 1.
    pub sequence: u32,
    /// The cause for closing.
    pub cause: u8,
    /// Its number among all closed records, from 1.
    pub local: u32,
}
