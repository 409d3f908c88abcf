//! Changes of charging conditions, which close what is open.
ghost use Rattle.std.specs.Prelude.{◌≡◌, ◌<◌, IfOk, OnOk, map, if◌then◌else◌, false};
ghost use Rattle.std.specs.List.{list_any};
ghost use Rattle.smf_core.specs.Draft.{whole};
ghost use Rattle.smf_model.specs.Rules.{is_immediate_for};
ghost use Rattle.smf_model.specs.Settle.{is_open, fire};
ghost use Rattle.smf_model.specs.Traffic.{close_any, has_open, is_change_at_once, changed};

use crate::draft::Draft;
use crate::rules::{immediate, immediate_for};
use crate::settle::{close_holding, fire_entry, is_open_place};
use smf_model::{Entry, Holding, Session};
use std::alloc::Global;
use units::{List, Moment, OutOfMemory, TriggerType};

fn close_open(moment: Moment, trigger: TriggerType, holding: &Holding) -> Holding
    ensures { result ≡ close_any moment trigger holding.now }
{
    if is_open_place(holding.place) {
        close_holding(moment, Some(trigger), holding)
    } else {
        *holding
    }
}

pub fn all_closed(
    alloc: Global,
    moment: Moment,
    trigger: TriggerType,
    holdings: &[Holding],
) -> Result<Vec<Holding>, OutOfMemory>
    ensures { IfOk result (λ v. v.items ≡ map (close_any moment trigger) holdings.now) }
{
    let next = holdings
        .iter()
        .map(|h| close_open(moment, trigger, h))
        .collect(alloc)?;
    Ok(next)
}

fn all_fired(
    alloc: Global,
    trigger: Option<TriggerType>,
    groups: &[Entry],
) -> Result<Vec<Entry>, OutOfMemory>
    ensures { IfOk result (λ v. v.items ≡ map (fire trigger) groups.now) }
{
    let next = groups
        .iter()
        .map(|e| fire_entry(trigger, e))
        .collect(alloc)?;
    Ok(next)
}

fn any_is_open(before: &Session, draft: &Draft) -> bool
    ensures { result ≡ has_open (whole before.now draft.now) }
{
    draft
        .holdings
        .as_slice()
        .iter()
        .any(|h| is_open_place(h.place))
}

fn is_open_and_at_once(
    before: &Session,
    draft: &Draft,
    trigger: TriggerType,
    holding: &Holding,
) -> bool
    ensures { result ≡ (if is_open holding.now.place then is_immediate_for (whole before.now draft.now) holding.now.container.group trigger else false) }
{
    if is_open_place(holding.place) {
        immediate_for(before, draft, holding.container.group, trigger)
    } else {
        false
    }
}

fn any_open_at_once(before: &Session, draft: &Draft, trigger: TriggerType) -> bool
    ensures { result ≡ list_any (λ h. if is_open h.place then is_immediate_for (whole before.now draft.now) h.container.group trigger else false) (whole before.now draft.now).holdings }
{
    draft
        .holdings
        .as_slice()
        .iter()
        .any(|h| is_open_and_at_once(before, draft, trigger, h))
}

fn change_at_once(before: &Session, draft: &Draft, trigger: TriggerType) -> bool
    ensures { result ≡ is_change_at_once (whole before.now draft.now) trigger }
{
    if any_is_open(before, draft) {
        any_open_at_once(before, draft, trigger)
    } else {
        immediate(before, draft, trigger)
    }
}

/// Charging conditions change (TS 32.255, 5.2.1).
pub fn change(
    alloc: Global,
    trigger: TriggerType,
    moment: Moment,
    before: &Session,
    draft: &mut Draft,
) -> Result<(), OutOfMemory>
    ensures { OnOk result (whole before.now draft.new ≡ changed trigger moment (whole before.now draft.old)) }
{
    let holdings = all_closed(alloc, moment, trigger, draft.holdings.as_slice())?;
    let groups = all_fired(alloc, Some(trigger), draft.groups.as_slice())?;
    let came = change_at_once(before, draft, trigger);
    draft.course.last = moment;
    draft.holdings = List::from_vec(holdings);
    draft.groups = List::from_vec(groups);
    draft.course.at_once = draft.course.at_once || came;
    Ok(())
}
