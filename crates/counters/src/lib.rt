//! Policy counters: which status a counter has after an amount was spent, who watches which counters, and which of
//! their statuses are others than before (TS 29.594, Nchf_SpendingLimitControl).
//!
//! What it promises: a `Counters` is seen as the rows that it was read from, and every definition speaks of these:
//! `Row` and `Grammar` (which rows are a table of counters), `Names` (their names, ascending), `Status` (the name at the
//! greatest limit not above what was spent), `Watching` (which counters are watched, and which changed). A
//! `Subscriptions` is seen as the contexts of all subscriptions that were ever made, in the order of their numbers.
//!
//! How it is kept: names ascend, with the limits of each at its place, so that a counter and its status are found by
//! halves, and what a subscription watches costs a look-up for each name that it has. Reading goes row by row:
//! `counter_row` makes a row of fields, `take` asks whether it may follow.
//!
//! Where a rule goes: a field of a row into `Limit`, `specs/Row` and `row`; a condition among rows into `may_follow` and
//! `take`; another refusal of a subscription into its answer in `specs/Subscriptions`.
#![tactic(auto)]

mod counters;
mod laws;
mod refusal;
mod row;
mod search;
mod subscriptions;
mod table;
mod watching;

pub use counters::Counters;
pub use laws::statuses_ascend;
pub use refusal::CounterRefusal;
pub use subscriptions::Subscriptions;
