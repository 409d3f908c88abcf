//! The machine as a value: its sessions, and what each holds.
use crate::setup::SmfSetup;
use meter::Horizon;
use quotas::Group;
use units::{Container, Handling, List, Moment, Request, Text, TriggerRule, TriggerType};

/// How far a session is (TS 32.290, 5.3.2).
#[derive(Clone, Copy, PartialEq, Eq, Debug)]
pub enum Life {
    /// It goes on.
    Live,
    /// It was detached, and is to be released.
    Ending,
    /// It ends abnormally, and is to be released.
    Aborting,
    /// It is over.
    Ended,
}

/// Why a container is given up (this product's own).
#[derive(Clone, Copy, PartialEq, Eq, Debug)]
pub enum Why {
    /// Its request could not be sent.
    NotSent,
    /// Too many containers waited.
    HeldFull,
    /// Its request was refused.
    Refused,
}

/// Where a container is (this product's own).
#[derive(Clone, Copy, PartialEq, Eq, Debug)]
pub enum Place {
    /// It is its group's open one.
    Open,
    /// It is closed, and in no request.
    Waiting,
    /// It is in the unanswered request.
    Frozen,
    /// It was in a request that a CHF answered with success.
    Answered,
    /// It is given up.
    GivenUp(Why),
}

/// The CHF that an attempt goes to (TS 32.290, failure handling).
#[derive(Clone, Copy, PartialEq, Eq, Debug)]
pub enum Peer {
    /// The primary one.
    Primary,
    /// The alternate one.
    Alternate,
}

/// How an attempt ended that brought no answer (this product's own).
#[derive(Clone, Copy, PartialEq, Eq, Debug)]
pub enum Loss {
    /// The request did not leave.
    Unsent,
    /// It left, or may have left, and no reply came.
    Unanswered,
}

/// How far the sending of the unanswered request is (TS 32.290, failure handling): the peer of its latest attempt; whether that has no
/// end yet; whether each attempt that ended did not leave; how many attempts of the round ended; and the moment before which no attempt
/// is made.
#[derive(Clone, Copy, PartialEq, Eq, Debug)]
pub struct Sending {
    pub latest: Option<Peer>,
    pub in_flight: bool,
    pub unsent: bool,
    pub turn: u32,
    pub wait: Option<Moment>,
}

/// A container of a session, with what closed it and when (TS 32.255, 5.2.1).
#[derive(Clone, Copy, PartialEq, Eq, Debug)]
pub struct Holding {
    pub container: Container,
    pub trigger: Option<TriggerType>,
    pub moment: Moment,
    pub place: Place,
}

/// A container that is given up, and why (this product's own).
#[derive(Clone, Copy, PartialEq, Eq, Debug)]
pub struct GivenUp {
    pub container: Container,
    pub why: Why,
}

/// A rating group of a session: the number of its next report, its quota, and how far its tariff is known not to switch.
#[derive(Clone, Copy, Debug)]
pub struct Entry {
    pub number: u32,
    pub expected: u32,
    pub quota: Group,
    pub horizon: Option<Horizon>,
}

/// The trigger rule of one type, for the session or for one rating group: its category, and of its limits the latest that a rule of
/// that type gave (TS 32.291, 6.1.6.2.1.7).
#[derive(Clone, Copy, PartialEq, Eq, Debug)]
pub struct Rule {
    pub group: Option<u32>,
    pub rule: TriggerRule,
}

/// A charging session as it is now. Its groups ascend, its containers are in order of their numbers, and of its rules those of the
/// session come first, then those of each group, in the order of their types. Its peer is the CHF that its rounds of attempts begin with.
#[derive(Debug, Drop)]
pub struct Session {
    pub number: u32,
    pub subscriber: Text,
    pub reference: Option<u32>,
    pub life: Life,
    pub last: Moment,
    pub count: u32,
    pub reports: u32,
    pub at_once: bool,
    pub failover: bool,
    pub handling: Handling,
    pub peer: Peer,
    pub sending: Sending,
    pub groups: List<Entry>,
    pub holdings: List<Holding>,
    pub rules: List<Rule>,
    pub request: Option<Request>,
}

/// The machine as it is now: its setup, the greatest moment that an event carried, how many entries its list has, which are its setup and each
/// event that was a step, and its sessions in the order of their Attach.
#[derive(Debug, Drop)]
pub struct Machine {
    pub setup: SmfSetup,
    pub moment: Moment,
    pub count: u32,
    pub sessions: List<Session>,
}
