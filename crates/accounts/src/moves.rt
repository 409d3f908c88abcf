//! A move of money as a value.
use units::Moment;

/// One move of money (this product's own). Accounts and sessions are numbers, amounts are in grains.
#[derive(Clone, Copy, Debug, PartialEq, Eq)]
pub enum Move {
    /// An account comes to be, under the next number.
    Added,
    /// An amount is topped up.
    ToppedUp {
        account: u32,
        amount: u128,
    },
    /// A used unit container is charged.
    Charged {
        account: u32,
        session: u32,
        group: u32,
        lsn: u32,
        amount: u128,
    },
    /// An amount that is free is set aside for a session's rating group, until the deadline, if there is one.
    Reserved {
        account: u32,
        session: u32,
        group: u32,
        amount: u128,
        deadline: Option<Moment>,
    },
    /// What is set aside for a session's rating group is given back.
    Released {
        session: u32,
        group: u32,
    },
    /// What is set aside for a session is given back.
    ReleasedAll {
        session: u32,
    },
    /// What is set aside until this moment at the latest is given back.
    Expired {
        moment: Moment,
    },
}
