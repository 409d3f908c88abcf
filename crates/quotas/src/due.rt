//! Which trigger is due: by the terms of a grant, and by the open container; and when the terms' times are over.
ghost use Rattle.std.specs.Prelude.{◌≡◌, max};
ghost use Rattle.std.specs.Option.{option_copied};
ghost use Rattle.quotas.specs.Due.{first_by_terms, first_by_container};
ghost use Rattle.quotas.specs.Deadline.{earlier, end_of, terms_deadline};

use crate::standing::Terms;
use crate::state::Limits;
use units::{Container, Moment, TriggerType};

// The first quota trigger that is due by these terms, with this much left.
pub fn due_by_terms(terms: Terms, left: u64, last_use: Moment, now: Moment) -> Option<TriggerType>
    ensures { result ≡ first_by_terms terms left last_use now }
{
    let is_last = terms.last_units.is_some();
    if is_last && left == 0 {
        return Some(TriggerType::Final);
    }
    if !is_last && left == 0 {
        return Some(TriggerType::QuotaExhausted);
    }
    if !is_last && terms.threshold > 0 && left <= terms.threshold {
        return Some(TriggerType::QuotaThreshold);
    }
    if terms.validity > 0 && terms.stamp.seconds() + u64::from(terms.validity) <= now.seconds() {
        return Some(TriggerType::ValidityTime);
    }
    let since = terms.stamp.max(last_use);
    if terms.holding > 0 && since.seconds() + u64::from(terms.holding) <= now.seconds() {
        return Some(TriggerType::QuotaHoldingTime);
    }
    None
}

// The first trigger that is due by the group's open container, if there is one.
pub fn due_by_container(
    open_container: Option<&Container>,
    unsafe_hour: bool,
    limits: &Limits,
) -> Option<TriggerType>
    ensures { result ≡ first_by_container (option_copied open_container.entry) unsafe_hour limits.now }
{
    let container = open_container?;
    if unsafe_hour {
        return Some(TriggerType::TariffTimeChange);
    }
    let octets = u128::from(container.up) + u128::from(container.down);
    if limits.volume > 0 && octets >= u128::from(limits.volume) {
        return Some(TriggerType::VolumeLimit);
    }
    if limits.seconds > 0 && container.seconds >= limits.seconds {
        return Some(TriggerType::TimeLimit);
    }
    None
}

/// The earlier of two moments, where each may be none (this product's own).
pub fn earlier(a: Option<Moment>, b: Option<Moment>) -> Option<Moment>
    ensures { result ≡ earlier a b }
{
    match (a, b) {
        (None, b) => b,
        (a, None) => a,
        (Some(x), Some(y)) => Some(x.min(y)),
    }
}

// The end of a time that begins at a moment.
fn end(from: Moment, time: u32) -> Option<Moment>
    ensures { result ≡ end_of from time }
{
    if time == 0 {
        return None;
    }
    Moment::new(from.seconds() + u64::from(time))
}

// The moment from which the validity or the holding time is over.
fn end_of_times(terms: &Terms, last_use: Moment) -> Option<Moment>
    ensures { result ≡ earlier (end_of terms.now.stamp terms.now.validity) (end_of (max terms.now.stamp last_use) terms.now.holding) }
{
    let since = terms.stamp.max(last_use);
    earlier(end(terms.stamp, terms.validity), end(since, terms.holding))
}

// That moment, where the amount alone makes no trigger due.
pub fn deadline_by_terms(terms: Terms, left: u64, last_use: Moment) -> Option<Moment>
    ensures { result ≡ terms_deadline terms left last_use }
{
    let times = end_of_times(&terms, last_use);
    match due_by_terms(terms, left, last_use, Moment::first()) {
        None => times,
        Some(_) => None,
    }
}
