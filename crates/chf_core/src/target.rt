//! Whom a request charges, and what it asks for.
use units::Ask;

/// Whom a request charges: an account, for the session with a reference.
#[derive(Clone, Copy, Debug)]
pub(crate) struct Target {
    pub(crate) account: u32,
    pub(crate) session: u32,
}

/// A rating group and the amount that it asks.
#[derive(Clone, Copy, Debug)]
pub(crate) struct GroupAsk {
    pub(crate) group: u32,
    pub(crate) ask: Ask,
}
