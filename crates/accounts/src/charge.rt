//! The parts of a charge.
/// Where the amount of a charge came from: the three parts are together the amount (this product's own).
#[derive(Clone, Copy, Debug, PartialEq, Eq)]
pub struct Charge {
    /// From what was set aside for the session and rating group.
    pub from_own: u128,
    /// From what was free.
    pub from_free: u128,
    /// Not covered, so owed.
    pub owed: u128,
}
