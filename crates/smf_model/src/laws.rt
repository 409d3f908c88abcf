//! What holds of all lists of events.
ghost use Rattle.std.specs.Prelude.{◌≡◌, ◌≤◌, ◌↔◌, ◌++◌, false, ◌∷◌, ℕ, None, List};
ghost use Rattle.std.specs.List.Sorted.{IsNonDecreasingBy};
ghost use Rattle.units.specs.declared.report.Report.{Report};
ghost use Rattle.units.specs.Cut.{reports_of};
ghost use Rattle.smf_model.specs.declared.setup.SmfSetup.{SmfSetup};
ghost use Rattle.smf_model.specs.declared.session.Peer.{Peer};
ghost use Rattle.smf_model.specs.declared.event.SmfEvent.{SmfEvent};
ghost use Rattle.smf_model.specs.declared.event.SmfEvent.TheVariants.{Attempt, NotSent, NoReply, Restart};
ghost use Rattle.smf_model.specs.Machine.{machine_after, session_of, answer_of};
ghost use Rattle.smf_model.specs.Counts.{entries_in};
ghost use Rattle.smf_model.specs.Forward.{IsLaterSession};
ghost use Rattle.sessions.specs.Trace.{IsTrace, flight};
ghost use Rattle.smf_model.specs.Trace.{trace, moves_if, AgreesWith};
ghost use Rattle.smf_model.specs.Sent.{IsSentAsMoved};
ghost use Rattle.smf_model.specs.Flights.{IsStep, Begins, Flies, IsGivenUp};
ghost use Rattle.smf_model.specs.Places.{StandsAsMoved};
ghost use Rattle.smf_model.specs.Exact.{ArePlacedExactly};
ghost use Rattle.smf_model.specs.Among.{StandAmong};
ghost use Rattle.smf_model.specs.GivenUps.{GivesUpAsMoved};
ghost use Rattle.smf_model.specs.History.{history};
ghost use Rattle.smf_model.specs.LatestRules.{rules_in, RulesAreLatest};
ghost use Rattle.smf_model.specs.Once.{EachStandsOnce, IsGivenUpFor};
ghost use Rattle.smf_model.specs.Contents.{AreContents};
ghost use Rattle.smf_model.specs.RequestNames.{AreNamed};
ghost use Rattle.smf_model.specs.Causes.{AreCaused, AreFinal};
ghost use Rattle.smf_model.specs.Excess.{EndsEvent};
ghost use Rattle.smf_model.specs.Apart.{RequestsAreApart, SessionsAreApart};
ghost use Rattle.smf_model.specs.Ended.{HoldsNothing};
ghost use Rattle.smf_model.specs.Prefixes.{AreStanding};
ghost use Rattle.smf_model.specs.Limits.{WaitsAtMost};
ghost use Rattle.smf_model.specs.declared.session.Session.{Session};
ghost use Rattle.smf_model.specs.Machine.{finished};
ghost use Rattle.smf_model.specs.Resting.{IsAtRest, RestsUntilEnd};
ghost use Rattle.smf_model.specs.Still.{is_due};
ghost use Rattle.smf_model.specs.Settle.{settled};
ghost use Rattle.smf_model.specs.Freeze.{waiting_count, dropped};
ghost use Rattle.smf_model.specs.Left.{NothingIsLeft, StaysClosed, AreOfSubscriber};
ghost use Rattle.smf_model.specs.Reports.{reports, StandsByReports};
ghost use Rattle.smf_model.specs.Came.{steps};
ghost use Rattle.smf_model.specs.Quotas.{StandsBySteps, NoneIsDue};

use meter::reports_keep_cuts;
use quotas::{by_whole_list, fires_once, rests_until_deadline};

/// A law of events; it does nothing. After any events each session is as its moves leave it: its requests are numbered 1, 2, 3, each
/// after the first was frozen after a success of the one before, and the unanswered one is the newest (TS 32.290, 5.3.2).
pub fn requests_in_order()
    ensures { (setup : SmfSetup) (events : List SmfEvent) (number : ℕ) → AgreesWith (trace setup events number) (session_of number (machine_after setup events).sessions) }
{}

/// A law of events; it does nothing. After any events the machine has counted the entries of its list: its setup, and each event that was a
/// step (this product's own).
pub fn entries_are_counted()
    ensures { (setup : SmfSetup) (events : List SmfEvent) → (machine_after setup events).count ≡ entries_in setup events }
{}

/// A law of events; it does nothing. As events go on a session stays, and each of its containers stays where it is or goes on: open,
/// waiting, frozen, then answered or given up, so what is answered or given up stays so (this product's own).
pub fn places_go_on()
    ensures { (setup : SmfSetup) (more events : List SmfEvent) (number : ℕ) → IsLaterSession (session_of number (machine_after setup events).sessions) (session_of number (machine_after setup (more ++ events)).sessions) }
{}

/// A law of events; it does nothing. After any events each move of a session is one that may come after those before it: a container is
/// closed once; a request is frozen only where nothing is unanswered, and holds containers that wait, each once, so that no container is
/// in two requests; what is given up as too much waits; a reply comes only to an unanswered request (TS 32.290, 5.3.2).
pub fn moves_may_follow()
    ensures { (setup : SmfSetup) (events : List SmfEvent) (number : ℕ) → IsTrace (trace setup events number) }
{}

/// A law of events; it does nothing. After any events the containers of a session are numbered 1, 2, 3, and each is where the moves of
/// the session say, with what closed it and when: open until it is closed; then given up, with the cause; else waiting, where no request
/// has it; else frozen, where no request with a final success has it; else answered. So each place is held exactly where the moves say so: a
/// container is frozen exactly where it stands in the unanswered request (this product's own).
pub fn places_by_moves()
    ensures places { (setup : SmfSetup) (events : List SmfEvent) (number : ℕ) → StandsAsMoved (trace setup events number) (session_of number (machine_after setup events).sessions) }
    ensures exact { (setup : SmfSetup) (events : List SmfEvent) (number : ℕ) → ArePlacedExactly (trace setup events number) (session_of number (machine_after setup events).sessions) }
{}

/// A law of events; it does nothing. After any events each container of a session stands in exactly one place: open, waiting, in the unanswered
/// request, in one with a final success, or given up. It is given up in exactly these cases: as too much, where a move says so; with NOT_SENT
/// where its session was given up unsent, and with REFUSED where a request of it was refused, in both if it was left till then. It is given up
/// once: the cause stands whatever comes later (TS 32.290, 5.3.2; what is given up is this product's own).
pub fn containers_stand_once()
    ensures places { (setup : SmfSetup) (events : List SmfEvent) (number : ℕ) → EachStandsOnce (trace setup events number) (session_of number (machine_after setup events).sessions) }
    ensures causes { (setup : SmfSetup) (events : List SmfEvent) (number lsn : ℕ) → IsGivenUpFor (trace setup events number) lsn }
{}

/// A law of events; it does nothing. After any events what is told as given up of a session is, of its containers, exactly those that its moves
/// give up, each once with the cause that they say, in ascending order of their numbers (this product's own).
pub fn giving_up_is_told()
    ensures { (setup : SmfSetup) (events : List SmfEvent) (number : ℕ) → GivesUpAsMoved (trace setup events number) (session_of number (machine_after setup events).sessions) }
{}

/// A law of events; it does nothing. After any events each container that the moves of a session close is among its containers, and no number
/// but those from 1 to their count is one: none such is closed or stands in a request (TS 32.255, 5.2.1).
pub fn closes_are_its_own()
    ensures { (setup : SmfSetup) (events : List SmfEvent) (number : ℕ) → StandAmong (trace setup events number) (session_of number (machine_after setup events).sessions) }
{}

/// A law of events; it does nothing. After any events the unanswered request of a session is the newest as it was frozen, marked as a repeat
/// exactly where it has had an attempt; an attempt is in flight where its end has not come; and the attempts that ended are all unsent where
/// the moves say so (TS 32.290, 5.3.2 and failure handling).
pub fn sending_by_moves()
    ensures { (setup : SmfSetup) (events : List SmfEvent) (number : ℕ) → IsSentAsMoved (trace setup events number) (session_of number (machine_after setup events).sessions) }
{}

/// A law of events; it does nothing. An attempt that is a step is the next one of its session and has no end, and the unanswered request stays as
/// it was (TS 32.290, failure handling).
pub fn attempts_begin()
    ensures { (setup : SmfSetup) (events : List SmfEvent) (session : ℕ) (peer : Peer)
        → IsStep setup events (Attempt session peer) → Begins (trace setup events session) (trace setup (Attempt session peer ∷ events) session) }
{}

/// A law of events; it does nothing. The end of an attempt is a step exactly where an attempt of the session has no end; after it, and after a
/// restart that is a step, the session has none in flight (TS 32.290, failure handling).
pub fn attempts_end()
    ensures not_sent { (setup : SmfSetup) (events : List SmfEvent) (session : ℕ) → IsStep setup events (NotSent session) → flight (trace setup (NotSent session ∷ events) session) ≡ None }
    ensures no_reply { (setup : SmfSetup) (events : List SmfEvent) (session : ℕ) → IsStep setup events (NoReply session) → flight (trace setup (NoReply session ∷ events) session) ≡ None }
    ensures restart { (setup : SmfSetup) (events : List SmfEvent) (session : ℕ) → IsStep setup events Restart → flight (trace setup (Restart ∷ events) session) ≡ None }
    ensures not_sent_is_step { (setup : SmfSetup) (events : List SmfEvent) (session : ℕ) → IsStep setup events (NotSent session) ↔ Flies (trace setup events session) }
    ensures no_reply_is_step { (setup : SmfSetup) (events : List SmfEvent) (session : ℕ) → IsStep setup events (NoReply session) ↔ Flies (trace setup events session) }
{}

/// A law of events; it does nothing. A session is given up unsent exactly where it was before, or where the event is the end of its attempt in
/// flight, which did not leave and was the last of its round, the session does not go on without an answer, and no attempt of its request left
/// before (TS 32.290, failure handling).
pub fn given_up_unsent()
    ensures { (setup : SmfSetup) (event : SmfEvent) (events : List SmfEvent) (number : ℕ) → IsGivenUp setup event events number }
{}

/// A law of events; it does nothing. What events did to a session stands whatever events come after them; so each request, its number and
/// what it holds depend only on the events up to its freezing (this product's own).
pub fn requests_stand()
    ensures { (setup : SmfSetup) (more events : List SmfEvent) (number : ℕ) → AreStanding setup more events number }
{}

/// A law of events; it does nothing. After any events at most the setup's greatest number of closed containers of a session wait (this
/// product's own).
pub fn few_wait()
    ensures { (setup : SmfSetup) (events : List SmfEvent) (number : ℕ) → WaitsAtMost setup.held_max (session_of number (machine_after setup events).sessions) }
{}

/// A law of events; it does nothing. After any events no request of a session is due to be frozen: what is due is frozen at the event that makes
/// it so (TS 32.290, 5.3.2).
pub fn nothing_is_left()
    ensures { (setup : SmfSetup) (events : List SmfEvent) (number : ℕ) → NothingIsLeft setup (session_of number (machine_after setup events).sessions) }
{}

/// A law of events; it does nothing. An event leaves each session that it touches at rest: no request is due to be frozen and no more wait
/// than may. A tick leaves a session at rest as it is until the moment of one of its rating groups comes: a deadline, or an unsafe hour of its
/// open container (TS 32.255, 5.2.1).
pub fn sessions_rest()
    ensures after { (setup : SmfSetup) (now : ℕ) (s : Session) → IsAtRest setup (finished setup now s) }
    ensures until { (setup : SmfSetup) (s : Session) → IsAtRest setup s → RestsUntilEnd setup s }
{
    rests_until_deadline();
}

/// A law of events; it does nothing. To settle a session changes nothing where no trigger is due in it, and none of its containers is given up
/// where no more wait than may (TS 32.255, 5.2.1).
pub fn ends_are_still()
    ensures settled { (setup : SmfSetup) (now : ℕ) (s : Session) → is_due setup now s ≡ false → settled setup now s ≡ s }
    ensures dropped { (setup : SmfSetup) (s : Session) → waiting_count s.holdings ≤ setup.held_max → dropped setup s ≡ s }
{}

/// A law of events; it does nothing. As events go on a session that is ending or has ended does not come to life again, and the gate of each of its
/// rating groups is closed (TS 32.290, quota management).
pub fn gates_stay_closed()
    ensures { (setup : SmfSetup) (more events : List SmfEvent) (number : ℕ) → StaysClosed (session_of number (machine_after setup events).sessions) (session_of number (machine_after setup (more ++ events)).sessions) }
{}

/// A law of events; it does nothing. After any events each request of a session is of the session's subscriber (TS 32.291, 6.1.6.2.1.1).
pub fn requests_are_of_subscriber()
    ensures { (setup : SmfSetup) (events : List SmfEvent) (number : ℕ) → AreOfSubscriber (trace setup events number) (session_of number (machine_after setup events).sessions) }
{}

/// A law of events; it does nothing. After any events the reports of a rating group that were counted are numbered 1, 2, 3 without a gap,
/// and the next number is expected; the containers of the group, in order of their numbers, are a plain cut of these reports, and a cut
/// under each set of whole hours as switches that none of the group's horizons has strictly within it (TS 32.255, 5.2.1).
pub fn containers_are_cuts()
    ensures { (setup : SmfSetup) (events : List SmfEvent) (number : ℕ)
        → StandsByReports (trace setup events number) (reports setup events number) (session_of number (machine_after setup events).sessions) }
{
    reports_keep_cuts();
}

/// A law of events; it does nothing. After any events the quota of a rating group is that of the whole list of what came to it: asking,
/// freezings, answers, reports and triggers. So what is due and the gate are those of the terms of the latest answer with an entry of it
/// and of the sum over the reports since the freezing of that answer's request (TS 32.290, quota management).
pub fn quotas_by_steps()
    ensures { (setup : SmfSetup) (events : List SmfEvent) (number group : ℕ) → StandsBySteps group (steps setup events number group) (session_of number (machine_after setup events).sessions) }
{
    by_whole_list();
}

/// A law of events; it does nothing. Once a session is settled at a moment, no trigger of its rating groups is due at that moment, so
/// settling it again changes nothing (this product's own).
pub fn settles_once()
    ensures { (setup : SmfSetup) (events : List SmfEvent) (number now : ℕ) → NoneIsDue setup now (session_of number (machine_after setup events).sessions) }
{
    fires_once();
}

/// A law of events; it does nothing. After any events each request of a session holds exactly the containers that waited as it was frozen
/// and were among the 500 oldest, each in the entry of its rating group, with its amounts, trigger and moment as it was closed
/// (TS 32.291, 6.1.6.2.1.4; the 500 are this product's own).
pub fn requests_hold()
    ensures { (setup : SmfSetup) (events : List SmfEvent) (number : ℕ) → AreContents (trace setup events number) }
{}

/// A law of events; it does nothing. After any events each request of a session is of this SMF and of that session; the first is a Create,
/// and each later one is an Update or a Release of the reference that the first success gave (TS 32.291, 6.1.3).
pub fn requests_are_named()
    ensures { (setup : SmfSetup) (events : List SmfEvent) (number : ℕ) → AreNamed setup number (trace setup events number) }
{}

/// A law of events; it does nothing. An event makes a reply an answer of a session only where it brings that reply to the session, with the
/// number of its unanswered request, which is the newest (TS 32.290, 5.3.2).
pub fn replies_are_caused()
    ensures { (setup : SmfSetup) (event : SmfEvent) (events : List SmfEvent) (number : ℕ)
        → AreCaused event number (trace setup events number) (moves_if (machine_after setup events) number event (answer_of (machine_after setup events) event)) }
{}

/// A law of events; it does nothing. After any events the category of each type, for the session and for each of its rating groups, is that of
/// the latest rule that an answer to it gave; and each limit is the latest that such a rule gave. Of several rules of one type in one list the
/// first counts, and rules for a group that the session does not have are passed over (TS 32.291, 6.1.6.2.1.7).
pub fn rules_are_latest()
    ensures { (setup : SmfSetup) (events : List SmfEvent) (number : ℕ) → RulesAreLatest (λ group. history (rules_in group) setup events number) (session_of number (machine_after setup events).sessions) }
{}

/// A law of events; it does nothing. After any events each reply that is an answer of a session was final for its unanswered request: the
/// success of its operation, or a refusal that ends the session (TS 32.290, 5.3.2; TS 32.291, 6.1.7).
pub fn answers_are_final()
    ensures { (setup : SmfSetup) (events : List SmfEvent) (number : ℕ) → AreFinal (trace setup events number) }
{}

/// A law of events; it does nothing. After any events the counted reports of a rating group are in the order of their moments (TS 32.255, 5.2.1).
pub fn reports_are_in_order()
    ensures { (setup : SmfSetup) (events : List SmfEvent) (number group : ℕ) → IsNonDecreasingBy (λ (r : Report). r.moment) (reports_of group (reports setup events number)) }
{}

/// A law of events; it does nothing. What an event does to a session ends with what it gives up as too much: by the moves up to its
/// freezing, exactly each closed container that waits and from whose number on more than the setup's greatest number wait (this product's
/// own).
pub fn oldest_are_given_up()
    ensures { (setup : SmfSetup) (event : SmfEvent) (events : List SmfEvent) (number : ℕ) → EndsEvent setup.held_max (trace setup events number) (trace setup (event ∷ events) number) }
{}

/// A law of events; it does nothing. After any events no container of a session is in two requests; what is given up is in no request with
/// a final success, and in no request at all unless the session was refused or given up unsent; and only the newest request may be a Release.
/// No two sessions have one number (TS 32.290, 5.3.2).
pub fn requests_are_apart()
    ensures requests { (setup : SmfSetup) (events : List SmfEvent) (number : ℕ) → RequestsAreApart (trace setup events number) }
    ensures sessions { (setup : SmfSetup) (events : List SmfEvent) → SessionsAreApart (machine_after setup events).sessions }
{}

/// A law of events; it does nothing. After any events a session whose Release was answered, or that was refused or given up unsent, holds
/// nothing: each of its containers was answered with a final success or is given up (this product's own).
pub fn ended_sessions_hold_nothing()
    ensures { (setup : SmfSetup) (events : List SmfEvent) (number : ℕ) → HoldsNothing (trace setup events number) (session_of number (machine_after setup events).sessions) }
{}
