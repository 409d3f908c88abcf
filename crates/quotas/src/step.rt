//! What may come to a group, as a value.
use units::{Moment, TriggerType, UnitInfo};

/// What may come to a rating group; the calls of `Group` by their names (this product's own).
#[derive(Debug, Drop)]
pub enum Step {
    /// Quota is wished for.
    Asked,
    /// A request of the session is made.
    Frozen,
    /// The request with this time stamp is answered with success, with or without an entry of the group.
    Answered(Moment, Option<UnitInfo>),
    /// No CHF answered, and the session goes on.
    Continued,
    /// A report: octets up and down, seconds, and its moment.
    Used(u64, u32, Moment),
    /// A trigger fired.
    Fired(TriggerType),
    /// The session is ending.
    Shut,
}
