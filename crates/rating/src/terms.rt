//! The terms of a rating group.
use units::{Action, Plain};

/// What the quotas of a rating group count (granted unit and offline charging: TS 32.291, 6.1.6.2.1.9 and 6.1.6.3.14).
#[derive(Clone, Copy, PartialEq, Eq, Debug)]
pub enum Kind {
    /// Octets, up and down together.
    Volume,
    /// Seconds.
    Time,
    /// Nothing: usage is charged without quota management.
    Offline,
}

/// What a tariff says of the quotas of a rating group (multiple unit information: TS 32.291, 6.1.6.2.1.8; the ranges are this product's own).
#[derive(Clone, Copy, PartialEq, Eq, Debug)]
pub struct Terms {
    /// What its quotas count.
    pub kind: Kind,
    /// The most units of a quota: 1 to 2^40 octets, or 1 to 2^32 - 1 seconds.
    pub chunk: u64,
    /// The quota threshold, in units of the kind; 0 for none.
    pub threshold: u32,
    /// The validity time, in seconds, at most 604,800; 0 for none.
    pub validity: u32,
    /// The quota holding time, in seconds, at most 604,800; 0 for none.
    pub holding: u32,
    /// What follows once the final units are used up.
    pub action: Action,
}

impl Plain for Kind {
    ghost use Rattle.std.proofs.Common.{rules};

    ghost copies = { Prim.search rules };

    ghost decides = { Prim.search rules };
}

impl Plain for Terms {
    ghost use Rattle.std.proofs.Common.{rules};
    ghost use Rattle.rating.specs.Same.{terms_decides};
    ghost use Rattle.units.specs.contracts.answer.ActionPlain.TheImpl.Laws as action;
    ghost use Rattle.rating.specs.contracts.terms.KindPlain.TheImpl.Laws as kind;

    ghost copies = { Prim.search rules };

    ghost decides = { λ a b. terms_decides _ _ a b (kind.decides-law a.kind b.kind) (action.decides-law a.action b.action) };
}
