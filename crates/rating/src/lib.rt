//! Tariffs: what usage of a rating group costs, when its prices change, and what a quota of it sets aside.
//!
//! What it promises: a `Tariffs` is seen as the rows that it was read from, and every definition speaks of these:
//! `Tariff` (what the rows say of a group), `Grammar` (which rows are a tariff), `Price`, `Switch`, `Grant`. The
//! laws hold for all rows: a container costs what its reports cost, prices change at switches only, what a grant
//! sets aside suffices.
//!
//! How it is kept: a map from a group to its terms and periods, with a table of the 24 hours, so that each call
//! looks up a group and a period at once; nothing but `read` and `clone` takes memory. Reading goes row by row:
//! `tariff_row` makes a row of fields, `Reading::take` asks whether it may follow.
//!
//! Where a rule goes: a field of a group row into `Terms`, `specs/Row` and `group_row`; a kind into `Kind` and the
//! functions that match on it; a price of a period into `Period`, `price_row` and `cost`; a condition among rows
//! into `may_follow` and `Reading::take`; a way to switch into `switches`.
#![tactic(auto)]

mod fields;
mod grant;
mod laws;
mod period;
mod reading;
mod refusal;
mod row;
mod search;
mod tariff;
mod tariffs;
mod terms;

pub use grant::Grant;
pub use laws::{
    prices_are_bounded, prices_change_at_switches, reserves_suffice, runs_are_priced_right,
    terms_are_in_range,
};
pub use refusal::RatingRefusal;
pub use tariffs::Tariffs;
pub use terms::{Kind, Terms};
