//! What an answer sets, what is left of it, and what ends it.
ghost use Rattle.std.specs.Prelude.{◌≡◌};
ghost use Rattle.quotas.specs.Standing.{granted_by, left_of, set_by, spent, state_of, terms_of, without};
ghost use Rattle.quotas.specs.Gate.{gate_at};

use crate::state::{Gate, State};
use units::{Action, Amount, Code, Moment, UnitInfo};

/// What an answer granted, and when its request was frozen; 0 is no threshold, validity or holding time.
#[derive(Clone, Copy, PartialEq, Eq, Debug)]
pub struct Terms {
    pub amount: Amount,
    pub stamp: Moment,
    pub threshold: u64,
    pub validity: u32,
    pub holding: u32,
    pub last_units: Option<Action>,
}

/// A state of a group with what belongs to it.
#[derive(Clone, Copy, PartialEq, Eq, Debug)]
pub enum Standing {
    Nothing,
    Granted(Terms),
    Unlimited,
    Denied,
    Spent(Action),
    Free,
}

// What is left of an amount after this use.
pub fn left_from(amount: Amount, octets: u64, seconds: u64) -> u64
    ensures { result ≡ left_of amount octets seconds }
{
    match amount {
        Amount::Volume(volume) => volume.saturating_sub(octets),
        Amount::Seconds(time) => u64::from(time).saturating_sub(seconds),
    }
}

fn terms_from(stamp: Moment, info: &UnitInfo, amount: Amount) -> Terms
    ensures { result ≡ terms_of stamp info.now amount }
{
    let threshold = match amount {
        Amount::Volume(_) => info.volume_threshold.unwrap_or(0),
        Amount::Seconds(_) => u64::from(info.time_threshold.unwrap_or(0)),
    };
    Terms {
        amount,
        stamp,
        threshold,
        validity: info.validity.unwrap_or(0),
        holding: info.holding.unwrap_or(0),
        last_units: info.last_units,
    }
}

fn granted_from(stamp: Moment, info: &UnitInfo) -> Standing
    ensures { result ≡ granted_by stamp info.now info.now.grant }
{
    match info.grant {
        None => Standing::Unlimited,
        Some(amount) => Standing::Granted(terms_from(stamp, info, amount)),
    }
}

// The standing that an entry sets.
pub fn standing_from(stamp: Moment, info: &UnitInfo) -> Standing
    ensures { result ≡ set_by info.now.code stamp info.now }
{
    match info.code {
        Code::Success => granted_from(stamp, info),
        Code::NotApplicable => Standing::Unlimited,
        Code::Denied | Code::LimitReached | Code::RatingFailed => Standing::Denied,
    }
}

// The standing once the last units are used up.
pub fn spent_from(standing: Standing) -> Standing
    ensures { result ≡ spent standing }
{
    match standing {
        Standing::Granted(terms) => match terms.last_units {
            Some(action) => Standing::Spent(action),
            None => Standing::Granted(terms),
        },
        _ => standing,
    }
}

// The standing once the session goes on without a CHF.
pub fn without_quota(standing: Standing, octets: u64, seconds: u64) -> Standing
    ensures { result ≡ without standing octets seconds }
{
    match standing {
        Standing::Unlimited => Standing::Unlimited,
        Standing::Granted(terms) => {
            if left_from(terms.amount, octets, seconds) == 0 {
                Standing::Free
            } else {
                Standing::Granted(terms)
            }
        }
        _ => Standing::Free,
    }
}

// The gate while the session lives.
pub fn live_gate(standing: Standing, octets: u64, seconds: u64) -> Gate
    ensures { result ≡ gate_at standing octets seconds }
{
    match standing {
        Standing::Nothing => Gate::Waiting,
        Standing::Granted(terms) => {
            if left_from(terms.amount, octets, seconds) == 0 {
                Gate::Waiting
            } else {
                Gate::Passing
            }
        }
        Standing::Unlimited | Standing::Free => Gate::Passing,
        Standing::Denied | Standing::Spent(Action::Terminate) => Gate::Closed,
        Standing::Spent(Action::Redirect) => Gate::Redirect,
        Standing::Spent(Action::RestrictAccess) => Gate::Restrict,
    }
}

// The state without what belongs to it.
pub fn bare_state(standing: Standing) -> State
    ensures { result ≡ state_of standing }
{
    match standing {
        Standing::Nothing => State::Nothing,
        Standing::Granted(_) => State::Granted,
        Standing::Unlimited => State::Unlimited,
        Standing::Denied => State::Denied,
        Standing::Spent(_) => State::Spent,
        Standing::Free => State::Free,
    }
}
