//! Accounts by numbers: what is set aside from them, what is owed on them, and the ledger.
//!
//! What it promises: each call leaves exactly the state that one move makes (`specs/Ledger`, `specs/Moves`), so
//! that a caller rewrites its own state by one `after`; the laws speak of every list of moves, and need no lemma of
//! this crate. A move is a value too: a caller works out a list of `Moves` and makes it later by `make_all`
//! (`specs/Making`). Names of accounts and ids of sessions belong to the machine above.
//!
//! How it is kept: each account has the sum of its reservations; deadlines stand in a heap, from which what is no
//! deadline any more is taken when it comes to the top; a session's rating groups are a chain, so that
//! `release_all` walks that session alone.
//!
//! The caller sees to it that an account that is topped up or charged exists, that a charge's own reservation is of
//! that account, that a pair of session and rating group that is given a reservation has none, that sums stay below
//! 2^128, and that there is a spare place, by `make_room`.
//!
//! Where a rule goes: what a move does is `after` and the one call; a further move is a variant of `Move` with its
//! equation in `after`, its conditions in `IsAllowed` and `Fits`, its arm in `make`, and one case in each law.
#![tactic(auto)]

mod account;
mod accounts;
mod charge;
mod due;
mod groups;
mod laws;
mod line;
mod making;
mod move_list;
mod moves;
mod refusal;
mod reservation;
mod reservations;

pub use accounts::Accounts;
pub use charge::Charge;
pub use laws::{
    accounts_balance, lines_are_charges, moves_change_free, reservations_hold, reservations_stay,
};
pub use line::Line;
pub use move_list::Moves;
pub use moves::Move;
pub use refusal::AccountRefusal;
