//! The charging function's machine: commands, what is decided on each, and the state that they leave.
//!
//! What it promises: the value of `Chf` is a state (`specs/State`), what later decisions and replies depend on and
//! nothing else. `decide` answers the order of checks in it (`specs/Deciding`) and gives a plan with the outcome, and
//! `commit` leaves the state after that command (`specs/After`) without memory. A caller hands `IsReady` on from
//! `decide` to `commit` and needs nothing of what is in it.
//!
//! What a state means is told over whole lists of commands, newest first: `Operator` (setup, subscribers, accounts,
//! top-ups), `Sessions` and `Keys`, `Effect` (charges, give-backs, grants), `Money`, `Watched` (subscriptions to spending
//! limits and their notices), `Decisions`, `Outcomes`. The
//! laws of `histories` join each part of the state to the list, those of `laws` and `session_laws` speak of every
//! list: first replies, the ledger, the money, use within grants, each session.
//!
//! How it is built: `chf` has the public calls; `finding` looks up; `answering` is the order of checks; `planning`
//! makes all the memory that a commit needs, with the moves of money (`draft`, `operator_moves`) and the first
//! `reply`, and with the notices that it makes (`watching`), each worked out once; `entering` has one commit for each command, and `filing` files a request in the book
//! of records. `text_table` and `found_requests` keep what is seen as lists in an order; what is kept beside the state is
//! in `specs/Caches`.
//!
//! Where a rule goes: a command is a case of `decision`, `moves_of` and `written`, with one function in `answering`,
//! `planning` and `entering`; a check goes into `Deciding` and `answering`; a step of a request's effect into
//! `CommandMoves` and `draft`, what it files into `Filings` and `filing`; what is to be kept into `State`, its list
//! definition and `Joined`.
#![tactic(auto)]

mod answering;
mod asks;
mod barred;
mod chf;
mod command;
mod decision;
mod draft;
mod entering;
mod filing;
mod finding;
mod found_requests;
mod give_back;
mod grants;
mod histories;
mod kept_request;
mod key;
mod key_table;
mod laws;
mod lookups;
mod names;
mod numbered;
mod operator_moves;
mod planning;
mod problems;
mod refusal;
mod reply;
mod session;
mod session_laws;
mod setup;
mod spending;
mod subscription;
mod target;
mod text_table;
mod watching;

pub use chf::Chf;
pub use command::{Command, Outcome};
pub use decision::{Decision, Plan, Verdict};
pub use histories::{
    histories_grow, references_stand, requests_are_answered, sessions_are_by_kept,
    states_are_joined,
};
pub use key::{Key, Name};
pub use laws::{
    ledger_is_whole, money_balances, numbers_are_used_once, repeats_get_first_replies,
    replies_stand, sums_are_bounded, use_within_grants_owes_nothing, verdicts_suit_commands,
};
pub use notices::Notice;
pub use problems::{problem, refusal_reply};
pub use refusal::ChfRefusal;
pub use session_laws::{
    first_replies_fit, kept_requests_grow, keys_stand, ledger_is_by_sessions,
    records_hold_accepted, sessions_decide,
};
pub use setup::ChfSetup;
