//! The machine of an SMF's charging trigger function: triggers, quotas, requests.
//!
//! What it promises: a `Smf` is a machine of `smf_model`; `plan` and `commit` together are its `step`, and a plan can
//! be committed only where it is that of some event at the machine as it stands.
//!
//! How it is kept: each container of a session stands once, beside what closed it and where it is (`containers`).
//! What is held stands in the session too, with its places among all, and an event works on this alone, through a
//! `Draft`, which makes a `Change`: what is held then, and what else is new. `Kept::take` writes it without memory.
//! `merged` (`specs/Caches`) says how the held ones stand for the whole session; each function of an event goes
//! through it. What is given up stands in a list of its own, which a change makes anew from the first container on
//! that it gives up (`giving`). What sends next is read from an agenda of the sessions' marks (`specs/Marking`),
//! which `commit` sets anew where a session changes or waits no more. A restart looks at those in flight alone, a
//! tick at those whose rest ends (`resting`).
//!
//! Where a rule goes: its meaning into `smf_model`; a check into `answer_at` (`specs/Lookup`) and `checks`; an effect
//! into a file beside `counting`, `changes` and `ending`; a trigger's limit into `rules`; what a request holds into
//! `freeze`. Each is one more case in the proofs `Wide` and `Lengths`.
#![tactic(auto)]

mod adding;
mod answers;
mod asking;
mod categories;
mod change;
mod changes;
mod checks;
mod containers;
mod counting;
mod draft;
mod ending;
mod freeze;
mod giving;
mod index;
mod kept;
mod marks;
mod next;
mod plan;
mod resting;
mod rounds;
mod rules;
mod sending;
mod settle;
mod smf;
mod step;

pub use plan::SmfPlan;
pub use smf::Smf;
pub use smf_model::{GivenUp, Peer, Seen, SmfEvent, SmfRefusal, SmfSetup, Why};
