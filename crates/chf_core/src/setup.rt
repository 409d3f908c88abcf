//! The setup.
use counters::Counters;
use rating::Tariffs;
use records::RecordLimits;
use units::Plain;

/// What the operator sets up before anything is charged (this product's own).
#[derive(Clone, PartialEq, Eq, Debug, Drop)]
pub struct ChfSetup {
    /// The tariffs of all rating groups.
    pub tariffs: Tariffs,
    /// The policy counters of all subscribers.
    pub counters: Counters,
    /// When records are closed before their session ends, and the function that writes them.
    pub limits: RecordLimits,
    /// How many seconds after its validity time a quota is given back, at most 604,800.
    pub grace: u32,
    /// Whether session failover is supported (TS 32.291, 6.1.6.2.1.6).
    pub failover: bool,
}

impl Plain for ChfSetup {
    ghost use Rattle.std.proofs.Common.{rules};
    ghost use Rattle.chf_core.specs.Same.{setup_decides};
    ghost use Rattle.rating.specs.contracts.tariffs.TariffsPlain.TheImpl.Laws as tariffs;
    ghost use Rattle.counters.specs.contracts.counters.CountersPlain.TheImpl.Laws as counters;
    ghost use Rattle.records.specs.contracts.limits.RecordLimitsPlain.TheImpl.Laws as limits;

    ghost copies = { Prim.search (rules, tariffs.copies-law, counters.copies-law, limits.copies-law) };

    ghost decides = { λ a b. setup_decides _ _ _ a b (tariffs.decides-law a.tariffs b.tariffs) (counters.decides-law a.counters b.counters) (limits.decides-law a.limits b.limits) };
}
