//! What holds of all requests, and of all lists of kept requests.
ghost use Rattle.sessions.specs.Content.{ContentsAreTold};
ghost use Rattle.sessions.specs.Decided.{DecisionsStay};
ghost use Rattle.sessions.specs.Kept.{FirstRepliesStand, NewRepliesAreFirst, TimesAddUp};

/// A law of all requests; it does nothing. The test of contents tells whether two requests are the same but for the retransmission
/// indicator (TS 32.290, 5.3.2).
pub fn contents_are_told()
    ensures { ContentsAreTold }
{}

/// A law of kept requests; it does nothing. The first reply under a number stands, whatever is kept later; it is the one that was kept
/// with the first request of that number (TS 32.290, 5.3.2).
pub fn first_replies_stand()
    ensures stand { FirstRepliesStand }
    ensures new { NewRepliesAreFirst }
{}

/// A law of kept requests; it does nothing. How often a container stands in accepted requests is the sum of how often it stands in the
/// earlier and in the later ones (this product's own).
pub fn kept_requests_add_up()
    ensures { TimesAddUp }
{}

/// A law of kept requests; it does nothing. What is decided on a request by what its session keeps stays when another
/// that is new comes to be kept: a repeat gets the same reply, and a refusal stays one (TS 32.290, 5.3.2; this product's
/// own).
pub fn decisions_stay()
    ensures { DecisionsStay }
{}
