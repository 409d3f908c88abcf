//! Notices.
use units::{SpendStatus, Text};

/// A notice to whoever made a subscription that watched policy counters have other statuses than before (TS 29.594,
/// 4.2.4).
#[derive(Debug, Drop)]
pub struct Notice {
    /// The number of the subscription, from 1.
    pub id: u32,
    /// Which of the subscription's notices it is, from 1.
    pub number: u32,
    /// The address for notifications that the subscription had when the notice was made.
    pub notify: Text,
    /// The subscriber, and the counters whose status is another than before with their new statuses, ascending.
    pub status: SpendStatus,
}
