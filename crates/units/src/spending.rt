//! Spending limits: which policy counters are watched for a subscriber, and what their statuses are.
use crate::list::List;
use crate::plain::Plain;
use crate::text::Text;

/// A spending limit context: what a policy control function subscribes to (TS 29.594, 5.6.2.2).
#[derive(Clone, PartialEq, Eq, Debug, Drop)]
pub struct SpendContext {
    /// The subscriber identifier.
    pub supi: Text,
    /// The policy counters to be watched; none named means all.
    pub counters: List<Text>,
    /// The address for notifications.
    pub notify: Text,
}

/// The status of a policy counter (TS 29.594, 5.6.2.4).
#[derive(Clone, PartialEq, Eq, Debug, Drop)]
pub struct CounterStatus {
    /// The policy counter.
    pub counter: Text,
    /// The name of its current status.
    pub status: Text,
}

/// A spending limit status: the statuses of policy counters of a subscriber (TS 29.594, 5.6.2.3).
#[derive(Clone, PartialEq, Eq, Debug, Drop)]
pub struct SpendStatus {
    /// The subscriber identifier.
    pub supi: Text,
    /// The counters with their statuses.
    pub infos: List<CounterStatus>,
}

impl Plain for SpendContext {
    ghost use Rattle.std.proofs.Common.{rules};
    ghost use Rattle.std.specs.Cmp.Lexicographic.{pointwise_decides, bytes_decides};

    ghost copies = { Prim.search rules };

    ghost decides = { λ a b. let named = pointwise_decides bytes_decides a.counters b.counters in Prim.search rules };
}

impl Plain for CounterStatus {
    ghost use Rattle.std.proofs.Common.{rules};

    ghost copies = { Prim.search rules };

    ghost decides = { Prim.search rules };
}

impl Plain for SpendStatus {
    ghost use Rattle.std.proofs.Common.{rules};
    ghost use Rattle.std.specs.Cmp.Lexicographic.{pointwise_decides};
    ghost use Rattle.units.specs.contracts.spending.CounterStatusPlain.TheImpl.Laws as info;

    ghost copies = { Prim.search rules };

    ghost decides = { λ a b. let infos = pointwise_decides info.decides-law a.infos b.infos in Prim.search rules };
}
