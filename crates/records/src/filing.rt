//! What comes to a book of records.
use units::{List, Moment, Text, UnitUsage};

/// A call that files something in a book (this product's own).
#[derive(Clone, Debug, Drop)]
pub enum Filing {
    /// A session begins, with its names.
    Begun {
        /// The session.
        session: u32,
        /// Its subscriber.
        subscriber: Text,
        /// Its consumer.
        consumer: Text,
        /// Its charging id.
        charging_id: u32,
        /// When its first record opens.
        stamp: Moment,
    },
    /// Containers come to a session; the last ones come with its Release.
    Added {
        /// The session.
        session: u32,
        /// The containers.
        used: List<UnitUsage>,
        /// When they came.
        stamp: Moment,
        /// Whether no more will come.
        last: bool,
    },
    /// A session ends, and its record is closed.
    Ended {
        /// The session.
        session: u32,
        /// Why.
        cause: u8,
        /// When.
        stamp: Moment,
    },
    /// Every record that has a container is closed.
    ClosedAll {
        /// When.
        stamp: Moment,
    },
}
