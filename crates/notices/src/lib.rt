//! Notices of spending limits: which subscriptions watch the counters of which account, which notices come of a change
//! of what was spent on it, and which of them were not sent yet (TS 29.594, 4.2.4).
//!
//! What it promises: `Watchers` are seen as the contexts of all subscriptions that were ever made, the account that
//! each live one watches, how many notices were made of each, and the notices that were not sent (`specs/Watched`). The
//! notices that are due are those of the live subscriptions of the account that watch a counter whose status is another
//! than before (`specs/Due`): each with the changed ones, the next number and the address that the subscription has
//! then. What waits is sent in order, each once.
//!
//! How it is kept: the numbers of the live subscriptions of each account stand in a list of its own, ascending
//! (`by_account`), so that no subscription of another account is looked at. Notices wait in one list, by the numbers of
//! their subscriptions, found by halves (`unsent`); those of a step are put among them in one go (`merging`). What is
//! due is worked out before anything changes, and takes the memory; `post`, `move_to` and `sent` take none.
//!
//! Where a rule goes: who watches what into `specs/Watching` and `by_account`; when a notice is due and what it says
//! into `specs/Due` and `due`; what happens to subscriptions and notices into `specs/Watched` and `watchers`.
#![tactic(auto)]

mod by_account;
mod due;
mod ids;
mod laws;
mod merging;
mod notice;
mod unsent;
mod watchers;

pub use laws::notices_in_order;
pub use notice::Notice;
pub use watchers::Watchers;
