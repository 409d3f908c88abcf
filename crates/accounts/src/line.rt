//! A line of the ledger.
/// A line of the ledger: what one used unit container cost (this product's own).
#[derive(Clone, Copy, Debug, PartialEq, Eq)]
pub struct Line {
    /// The account that was charged.
    pub account: u32,
    /// The session.
    pub session: u32,
    /// The local sequence number of the used unit container (TS 32.290, 6.1.1.3).
    pub lsn: u32,
    /// The amount charged, in grains.
    pub amount: u128,
}
