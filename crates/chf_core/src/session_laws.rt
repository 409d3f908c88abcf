//! What holds of each charging session in every list of commands.
ghost use Rattle.chf_core.specs.InRange.{FirstRepliesFit};
ghost use Rattle.chf_core.specs.RecordLaws.{RecordsAreFiled, RecordsAreInOrder, RecordsHoldAccepted, RecordsHoldTimes};
ghost use Rattle.chf_core.specs.OfSessions.{CreatesHaveKeys, DecisionsByKept, KeptGrow, KeysAreOwn, KeysStand, LedgerBySessions, OwnAreKept, ReferencesName, RepliesTellSwitches, UnnamedAreRefused};

use records::{containers_in_order, containers_stand_once};

/// A law of all lists of commands; it does nothing. The key of a request has the request's own consumer and number, and
/// a Create has one; what a reference names stays, and the reference that a kept Create was given names its session
/// (TS 32.291, 6.1.3.3; the key is this product's own).
pub fn keys_stand()
    ensures own { KeysAreOwn }
    ensures creates { CreatesHaveKeys }
    ensures stand { KeysStand }
    ensures references { ReferencesName }
{}

/// A law of all lists of commands; it does nothing. A request comes to be kept with its first reply, in its own session,
/// and no other command changes what is kept of a session (TS 32.290, 5.3.2; keeping first replies is this product's
/// own).
pub fn kept_requests_grow()
    ensures each { KeptGrow }
    ensures own { OwnAreKept }
{}

/// A law of all lists of commands that came to be; it does nothing. What is decided on a request follows from what its
/// session keeps alone: its first reply where it is kept, with its mark or without, refused where its number has passed
/// or its session exists or is closed, and else fresh; one of no session is refused (TS 32.290, 5.3.2; the order is this
/// product's own).
pub fn sessions_decide()
    ensures unnamed { UnnamedAreRefused }
    ensures named { DecisionsByKept }
{}

/// A law of all lists of commands that came to be; it does nothing. The lines of a session in the ledger are those of
/// its accepted requests, the oldest first, on one account, at the prices of the setup; and each quota that is granted
/// in a kept first reply tells the first switch after its request's time stamp (TS 32.290, 5.2.2; the ledger is this
/// product's own).
pub fn ledger_is_by_sessions()
    ensures lines { LedgerBySessions }
    ensures switches { RepliesTellSwitches }
{}

/// A law of all lists of commands that came to be; it does nothing. The records are those that all filings leave, under
/// the limits of the setup; each container of a session's accepted requests stands in exactly one of its records, closed
/// or open, and no other container in any, and they are divided into these in order; and how often a container stands in
/// them is how often the accepted requests charge it (TS 32.255, 5.2.3).
pub fn records_hold_accepted()
    ensures filed { RecordsAreFiled }
    ensures held { RecordsHoldAccepted }
    ensures order { RecordsAreInOrder }
    ensures times { RecordsHoldTimes }
{
    containers_stand_once();
    containers_in_order();
}

/// A law of all lists of commands; it does nothing. The first reply to a request in the ranges of its format is in those
/// of a reply, so that it is written so that it reads back (TS 32.291, 6.1.6.2.1.6; the ranges are this product's own).
pub fn first_replies_fit()
    ensures { FirstRepliesFit }
{
    rating::terms_are_in_range();
}
