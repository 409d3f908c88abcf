//! What holds of the states that lists of commands leave.
ghost use Rattle.chf_core.specs.Joined.{StatesAreJoined, DecisionsAreJoined, RepliesAreJoined};
ghost use Rattle.chf_core.specs.Standing.{EnteredIsKept, HistoriesGrow, ReferencesStand, RepeatsStand, RequestsAreAnswered, SessionsAreByKept};

/// A law of all lists of commands; it does nothing. The state that a list leaves has in each part what the whole list
/// says; what is decided in it is what is decided after the list, and so is each first reply (TS 32.290, 5.3.2; this
/// product's own).
pub fn states_are_joined()
    ensures parts { StatesAreJoined }
    ensures decisions { DecisionsAreJoined }
    ensures replies { RepliesAreJoined }
{}

/// A law of all lists of commands that came to be; it does nothing. Such a list with a fresh command more came to be,
/// where the setup comes first and nowhere else (this product's own).
pub fn histories_grow()
    ensures { HistoriesGrow }
{}

/// A law of all lists of commands; it does nothing. Each request has a reply; one that was fresh is kept at its place
/// once it is entered, for each request of its content; and in a list that came to be it gets its first reply, whatever
/// came later (TS 32.290, 5.3.2; keeping first replies is this product's own).
pub fn requests_are_answered()
    ensures answered { RequestsAreAnswered }
    ensures entered { EnteredIsKept }
    ensures repeated { RepeatsStand }
{
    sessions::contents_are_told();
}

/// A law of all lists of commands; it does nothing. A reference names its own session for good (TS 32.291, 6.1.3.3).
pub fn references_stand()
    ensures { ReferencesStand }
{}

/// A law of all lists of commands that came to be; it does nothing. The session with a reference is the one of its
/// consumer and charging id; its last number is that of its newest accepted request, and it is open where none of them
/// is a Release (this product's own).
pub fn sessions_are_by_kept()
    ensures { SessionsAreByKept }
{}
