//! What events mean to an SMF's charging trigger function, and what holds of every list of them.
//!
//! What it promises: `machine_after setup events` (`specs/Machine`, newest event first) is the machine after these
//! events, one `step` an event; `trace` (`specs/Trace`) is what they did to one session, as a list of the moves of
//! `sessions`, which later events only make longer. The laws (`laws`) join the machine to whole lists: requests,
//! places of containers, cuts, quotas. Nothing here runs; `smf_core` is the machine in code, and stands on these
//! definitions, so that a change of its code proves no law again.
//!
//! Where a rule goes: a check into `answer_in` (`specs/Machine`); an effect into `effect` and a file beside
//! `specs/Traffic`; a trigger's category or limit into `Rules`; what a request holds into `Freeze`; its moves into
//! `effect_moves`. Each is one more case in the proofs `Agreement`, `Later` and `Effects`.
#![tactic(auto)]

mod event;
mod laws;
mod refusal;
mod session;
mod setup;

pub use event::SmfEvent;
pub use laws::{
    answers_are_final, attempts_begin, attempts_end, closes_are_its_own, containers_are_cuts,
    containers_stand_once, ended_sessions_hold_nothing, ends_are_still, entries_are_counted,
    few_wait, gates_stay_closed, given_up_unsent, giving_up_is_told, moves_may_follow,
    nothing_is_left, oldest_are_given_up, places_by_moves, places_go_on, quotas_by_steps,
    replies_are_caused, reports_are_in_order, requests_are_apart, requests_are_named,
    requests_are_of_subscriber, requests_hold, requests_in_order, requests_stand, rules_are_latest,
    sending_by_moves, sessions_rest, settles_once,
};
pub use refusal::{Seen, SmfRefusal};
pub use session::{
    Entry, GivenUp, Holding, Life, Loss, Machine, Peer, Place, Rule, Sending, Session, Why,
};
pub use setup::{SmfSetup, copy_setup};
