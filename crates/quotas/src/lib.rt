//! The quota of one rating group, as the charging trigger function of an SMF keeps it.
//!
//! What it promises: a group is a small value without memory, and each call is one record update of `specs/Quota`,
//! so that a law about another field is by computation. `take` does the same for a `Step`, what came to the group
//! as one value; the laws `by_whole_list` and `fires_once` speak of every list of steps, the newest first
//! (`specs/Steps`, `specs/Laws`). Which container is open, whether an hour is unsafe and which limits hold are the
//! caller's to tell `due`.
//!
//! Where a rule goes: a state of a group into `Standing`; a trigger's effect into `specs/Effect` and `Group::fire`;
//! a line of the trigger table into `specs/Due` and `due`, in its order; a further thing that may come to a group
//! is a call of `Group`, a transition in `specs/Quota` and a `Step`.
#![tactic(auto)]

mod due;
mod group;
mod laws;
mod standing;
mod state;
mod step;

pub use due::earlier;
pub use group::Group;
pub use laws::{by_whole_list, fires_once, rests_until_deadline};
pub use state::{Gate, Limits, State};
pub use step::Step;
