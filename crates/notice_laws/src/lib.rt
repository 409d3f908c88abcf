//! Laws of notices of spending limits, over every list of commands that came to be (TS 29.594, 4.2.4).
//!
//! What it promises: all notices of a subscription that a list of commands made are numbered from 1 in order and leave
//! in that order, each once (`notices_stand`); and after each command they are exactly those that the changes of what
//! was spent ask for: one notice with the counters that have another status than before, where the subscription is
//! live, watches them and there are any (`notices_tell_changes`).
//!
//! How it is kept: the functions do nothing. What was made and what left stands in `specs/Made`, the notice that is to
//! come of a command in `specs/Told`, and the laws in `specs/Laws`. In the proofs the steps of a list of commands are a
//! list of steps of `notices` (`StepList`), each live subscription watches the account that the latest row of its
//! subscriber names (`OnAccounts`), and what was spent on an account is the sum of its lines in the ledger (`Spent`).
//!
//! Where a rule goes: what a command does to subscriptions and notices into `chf_core` and `notices`; a case for it into
//! `OnAccounts` and `Telling`.
#![tactic(auto)]

mod laws;

pub use laws::{notices_stand, notices_tell_changes};
