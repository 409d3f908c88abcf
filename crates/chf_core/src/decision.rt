//! Decisions, and the plans of fresh commands.
ghost use Rattle.std.specs.Prelude.{◌≡◌, length};
ghost use Rattle.chf_core.specs.Machine.{filed_containers, watched_account, watching_more, made_notices};

use crate::command::{Command, Outcome};
use crate::filing::Opening;
use crate::refusal::ChfRefusal;
use crate::session::Session;
use crate::watching::Moving;
use accounts::Moves;
use notices::Notice;
use records::RecordLimits;
use std::collections::HashSet;
use units::{List, UnitUsage};

/// What a command's commit writes besides what the command says.
#[derive(Debug, Drop)]
pub(crate) enum Change {
    /// The limits of records.
    Setup {
        limits: RecordLimits,
    },
    /// The charging id in the request's key, the session that it opens, and the name of its consumer where that is new;
    /// the names of the records that begin with it, its containers by rating group, and the notices that it makes.
    Charge {
        charging_id: u32,
        session: Option<Session>,
        consumer: Option<String>,
        names: Option<Opening>,
        used: List<UnitUsage>,
        notices: Vec<Notice>,
    },
    /// The name of the account, where that is new, the set of the barred groups, and the subscriptions that move.
    Subscriber {
        name: Option<String>,
        groups: HashSet<u32>,
        moving: Moving,
    },
    TopUp,
    Expire,
    CloseRecords,
    /// The account that the subscription watches.
    Subscribe {
        account: u32,
    },
    Modify,
    Unsubscribe,
    NoticeSent,
}

impl Change {
    /// The containers that the command files.
    pub(crate) fn containers(&self) -> &[UnitUsage]
        ensures { result.now ≡ filed_containers self.now }
    {
        match self {
            Change::Charge { used, .. } => used.as_slice(),
            _ => &[],
        }
    }

    /// The account that subscriptions watch from now on.
    pub(crate) fn watched_account(&self) -> u32
        ensures { result ≡ watched_account self.now }
    {
        match self {
            Change::Subscriber { moving, .. } => moving.to,
            Change::Subscribe { account } => *account,
            _ => 0,
        }
    }

    /// How many subscriptions do so.
    pub(crate) fn watching_more(&self) -> usize
        ensures { result ≡ watching_more self.now }
    {
        match self {
            Change::Subscriber { moving, .. } => moving.ids.len(),
            Change::Subscribe { .. } => 1,
            _ => 0,
        }
    }

    /// How many notices the command makes.
    pub(crate) fn notices(&self) -> usize
        ensures { result ≡ length (made_notices self.now) }
    {
        match self {
            Change::Charge { notices, .. } => notices.len(),
            Change::Subscriber { moving, .. } => moving.notices.len(),
            _ => 0,
        }
    }
}

/// A command that is fresh, what it comes to, and the moves of money that it makes. It is to be committed before
/// anything else is decided (this product's own).
#[derive(Debug, Drop)]
pub struct Plan {
    pub(crate) command: Command,
    pub(crate) outcome: Outcome,
    pub(crate) moves: Moves,
    pub(crate) change: Change,
}

/// What is decided on a command (this product's own).
#[derive(Debug, Drop)]
pub enum Decision {
    /// An earlier charging data request has the key and content: its place, from 0.
    Kept(u32),
    /// An operator's command changes nothing.
    Known,
    /// It is refused, and nothing is kept of it.
    Refused(ChfRefusal),
    /// It is fresh.
    Fresh(Plan),
}

/// A decision before any room was made for it, as definitions speak of it.
#[derive(PartialEq, Eq, Debug, Drop)]
pub enum Verdict {
    Kept { place: u32 },
    Known,
    Refused { refusal: ChfRefusal },
    Fresh { outcome: Outcome },
}
