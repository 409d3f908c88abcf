//! An amount that is set aside, and for whom.
use units::Moment;

/// For whom an amount is set aside: a session and a rating group (this product's own).
#[derive(Clone, Copy, Debug, PartialEq, Eq, Hash, Drop)]
pub struct Key {
    /// The session.
    pub session: u32,
    /// The rating group.
    pub group: u32,
}

/// What is left of an amount that was set aside (this product's own).
#[derive(Clone, Copy, Debug)]
pub struct Reservation {
    /// The account that it is set aside from.
    pub account: u32,
    /// What is left of it, at least 1.
    pub left: u128,
    /// When it ends, if it does.
    pub deadline: Option<Moment>,
}
