//! What may come to the machine.
use crate::session::Peer;
use units::{List, Moment, Reply, Report, Text, TriggerType};

/// What comes to the machine (TS 32.255, 5.2.1; TS 32.290, 5.3.2).
#[derive(Debug, Drop)]
pub enum SmfEvent {
    /// A PDU session begins, with quota wished for these rating groups.
    Attach {
        session: u32,
        subscriber: Text,
        groups: List<u32>,
        moment: Moment,
    },
    /// Traffic of a rating group begins: quota is wished for.
    Start {
        session: u32,
        group: u32,
        moment: Moment,
    },
    /// A usage report.
    Count {
        session: u32,
        report: Report,
    },
    /// A change of charging conditions, which closes every open container of the session.
    Change {
        session: u32,
        trigger: TriggerType,
        moment: Moment,
    },
    /// Time passes.
    Tick {
        moment: Moment,
    },
    /// The PDU session ends.
    Detach {
        session: u32,
        abnormal: bool,
        moment: Moment,
    },
    /// A CHF replied to the request of this number.
    Answered {
        session: u32,
        number: u32,
        reply: Reply,
    },
    /// An attempt to send the unanswered request begins.
    Attempt {
        session: u32,
        peer: Peer,
    },
    /// That attempt ended, and the request did not leave.
    NotSent {
        session: u32,
    },
    /// That attempt ended without a reply.
    NoReply {
        session: u32,
    },
    /// The machine starts again: what became of the attempts that have no end is not known.
    Restart,
}
