//! What callers see of a group: its state, its gate, and the limits of its containers.
/// What a rating group may use (TS 32.290, quota management; the names are this product's own).
#[derive(Clone, Copy, PartialEq, Eq, Debug)]
pub enum State {
    /// No quota: never asked for, or given back.
    Nothing,
    /// A volume or a time is granted.
    Granted,
    /// No quota is managed for the group.
    Unlimited,
    /// The CHF refused the group.
    Denied,
    /// The last units are used up.
    Spent,
    /// The session goes on without quota, since no CHF answered.
    Free,
}

/// What becomes of a rating group's traffic (TS 32.290, quota management; final unit actions of TS 32.291, 6.1.6.3.4).
#[derive(Clone, Copy, PartialEq, Eq, Debug)]
pub enum Gate {
    /// It passes.
    Passing,
    /// It waits for quota.
    Waiting,
    /// It is blocked.
    Closed,
    /// It is redirected.
    Redirect,
    /// It passes to restricted addresses alone.
    Restrict,
}

/// The limits of a used unit container (TS 32.291, 6.1.6.2.1.7); 0 is none.
#[derive(Clone, Copy, PartialEq, Eq, Debug)]
pub struct Limits {
    /// The volume limit, in octets up and down.
    pub volume: u64,
    /// The time limit, in seconds.
    pub seconds: u32,
}
