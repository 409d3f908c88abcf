//! Commands, and what they come to.
use crate::setup::ChfSetup;
use units::{List, Moment, Plain, Reply, Request, SpendContext, SpendStatus, Text};

/// What a charging function is told (charging data requests: TS 32.290, 5.3.2; the operator's commands are this product's own).
#[derive(Clone, PartialEq, Eq, Debug, Drop)]
pub enum Command {
    /// The setup, before all others.
    Setup {
        setup: ChfSetup,
    },
    /// A charging data request.
    Charge {
        request: Request,
    },
    /// A subscriber, the name of its account and the rating groups that are barred for it.
    Subscriber {
        supi: Text,
        account: Text,
        barred: List<u32>,
    },
    /// A top-up of an account, told apart by its id; 1 to 2^80 grains.
    TopUp {
        id: Text,
        account: Text,
        amount: u128,
    },
    /// The time has come to this moment: quotas whose deadline has passed are given back.
    Expire {
        moment: Moment,
    },
    /// Every charging record that has a container and is not closed is closed at this moment, for management
    /// intervention (TS 32.255, 5.2.3; TS 32.298, 5.1.5.1.2).
    CloseRecords {
        moment: Moment,
    },
    /// A subscription to the spending limits of a subscriber is made (TS 29.594, 4.2.2.2).
    Subscribe {
        context: SpendContext,
    },
    /// A subscription gets another context (TS 29.594, 4.2.2.3).
    Modify {
        id: u32,
        context: SpendContext,
    },
    /// A subscription ends (TS 29.594, 4.2.3).
    Unsubscribe {
        id: u32,
    },
    /// The first notice of a subscription that was not sent yet reached whoever made the subscription (TS 29.594,
    /// 4.2.4).
    NoticeSent {
        id: u32,
        number: u32,
    },
}

/// What a command comes to (this product's own).
#[derive(Clone, PartialEq, Eq, Debug, Drop)]
pub enum Outcome {
    /// The reply to a charging data request.
    Charged(Reply),
    /// The number of a subscription to spending limits, and the statuses of the counters that it watches.
    Spending { id: u32, status: SpendStatus },
    /// A subscription to spending limits ended.
    Removed,
    /// An operator's command was carried out.
    Done,
    /// An operator's command changes nothing.
    Known,
}

impl Plain for Command {
    ghost use Rattle.std.proofs.Common.{rules};
    ghost use Rattle.chf_core.specs.contracts.setup.ChfSetupPlain.TheImpl.Laws as setup;
    ghost use Rattle.units.specs.contracts.request.RequestPlain.TheImpl.Laws as request;
    ghost use Rattle.units.specs.contracts.moment.MomentPlain.TheImpl.Laws as moment;
    ghost use Rattle.units.specs.contracts.spending.SpendContextPlain.TheImpl.Laws as context;

    ghost copies = { Prim.search (rules, setup.copies-law, request.copies-law, moment.copies-law, context.copies-law) };

    ghost decides = { Prim.search (rules, setup.decides-law, request.decides-law, moment.decides-law, context.decides-law) };
}
