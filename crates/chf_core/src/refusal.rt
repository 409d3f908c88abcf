//! Why a command is refused.
/// Why a command is refused (this product's own; causes of charging data requests after TS 32.291, 6.1.7).
#[derive(Clone, Copy, PartialEq, Eq, Debug)]
pub enum ChfRefusal {
    /// E7: the subscriber is not that of the subscription to spending limits.
    WrongSupi,
    /// E15: no account has this name.
    UnknownAccount,
    /// E22: a policy counter that is named is not one of the setup.
    UnknownCounter,
    /// E23: no live subscription to spending limits has this number.
    UnknownSubscription,
    /// E27: no row names the subscriber of a subscription to spending limits.
    UserUnknown,
    /// E28: the session of a Create exists.
    SessionExists,
    /// E29: the session was released; `last` is its last accepted number.
    SessionClosed { last: u32 },
    /// E30: the number is at most the session's last accepted one, or stands with other content; `last` is that number, 0 without a session.
    SequencePassed { last: u32 },
    /// E31: no session of this consumer has the reference.
    UnknownReference,
    /// E36: the top-up's id stands with another account or amount.
    TopUpDiffers,
}
