//! Requests that are due, what they hold, and what is given up as too much.
ghost use Rattle.std.specs.Prelude.{◌≡◌, ◌==◌, ◌&&◌, IfOk, OnOk, map, length};
ghost use Rattle.std.specs.List.{list_any};
ghost use Rattle.sessions.specs.Kept.{is_release};
ghost use Rattle.units.specs.Limits.{most_containers};
ghost use Rattle.smf_model.specs.declared.session.Place.TheVariants.{Frozen};
ghost use Rattle.smf_core.specs.Draft.{whole};
ghost use Rattle.smf_model.specs.Settle.{is_waiting, is_frozen};
ghost use Rattle.smf_model.specs.Freeze.{waiting_count, move_oldest, dropped, is_wanting, live_operation, ending_operation, operation_in, next_operation, names_of, used_as, is_frozen_of, used_of, ask_of, usage_of, says_something, usages, is_aborting, triggers_of, request_of as request_made, freeze_entry, with_request, freeze_by, freeze_due};

use crate::draft::{Draft, Pending, request_of};
use crate::rules::changes_for;
use crate::sending::at_rest;
use smf_model::{Entry, Holding, Life, Place, Session, SmfSetup, Why, ends_are_still};
use std::alloc::Global;
use units::{
    Ask, List, MOST_CONTAINERS, Moment, Operation, OutOfMemory, Request, Text, TriggerType,
    UnitUsage, Used, copy, name_of_type,
};

pub fn is_waiting_place(place: Place) -> bool
    ensures { result ≡ is_waiting place }
{
    matches!(place, Place::Waiting)
}

pub fn is_frozen_place(place: Place) -> bool
    ensures { result ≡ is_frozen place }
{
    matches!(place, Place::Frozen)
}

fn count_waiting(holdings: &[Holding]) -> usize
    ensures { result ≡ waiting_count holdings.now }
{
    holdings
        .iter()
        .filter(|h| is_waiting_place(h.place))
        .count()
}

// The oldest waiting containers, at most so many, go to a place.
fn moved_oldest(
    alloc: Global,
    most: usize,
    place: Place,
    holdings: &[Holding],
) -> Result<Vec<Holding>, OutOfMemory>
    ensures { IfOk result (λ v. v.items ≡ move_oldest most place holdings.now) }
{
    let mut left = most;
    let mut moved = Vec::with_capacity(alloc, holdings.len())?;
    for each in holdings {
        if is_waiting_place(each.place) && left > 0 {
            moved.push(Holding { place, ..*each })?;
            left -= 1;
        } else {
            moved.push(*each)?;
        }
    }
    Ok(moved)
}

/// Gives up the oldest waiting containers where too many wait (this product's own).
pub fn drop_oldest(
    alloc: Global,
    setup: &SmfSetup,
    before: &Session,
    draft: &mut Draft,
) -> Result<(), OutOfMemory>
    ensures { OnOk result (whole before.now draft.new ≡ dropped setup.now (whole before.now draft.old)) }
{
    let holdings = draft.holdings.as_slice();
    let waiting = count_waiting(holdings);
    let most = setup.held_max as usize;
    if waiting <= most {
        ends_are_still();
        return Ok(());
    }
    let over = waiting - most;
    let kept = moved_oldest(alloc, over, Place::GivenUp(Why::HeldFull), holdings)?;
    draft.holdings = List::from_vec(kept);
    Ok(())
}

fn is_wanting_entry(entry: &Entry) -> bool
    ensures { result ≡ is_wanting entry.now }
{
    entry.quota.wish() || entry.quota.gives_back()
}

fn any_wanting(groups: &[Entry]) -> bool
    ensures { result ≡ list_any is_wanting groups.now }
{
    groups.iter().any(|e| is_wanting_entry(e))
}

fn live_next(
    setup: &SmfSetup,
    before: &Session,
    draft: &Draft,
    reference: Option<u32>,
) -> Option<Operation>
    ensures { result ≡ live_operation setup.now (whole before.now draft.now) reference }
{
    let reference = reference?;
    let waiting = count_waiting(draft.holdings.as_slice());
    let wanting = any_wanting(draft.groups.as_slice());
    if draft.course.at_once || wanting || waiting >= changes_for(setup, before, draft) as usize {
        Some(Operation::Update(reference))
    } else {
        None
    }
}

fn ending_next(before: &Session, draft: &Draft, reference: Option<u32>) -> Option<Operation>
    ensures { result ≡ ending_operation (whole before.now draft.now) reference }
{
    let reference = reference?;
    if count_waiting(draft.holdings.as_slice()) > MOST_CONTAINERS {
        Some(Operation::Update(reference))
    } else {
        Some(Operation::Release(reference))
    }
}

fn next_of(setup: &SmfSetup, before: &Session, draft: &Draft) -> Option<Operation>
    ensures { result ≡ next_operation setup.now (whole before.now draft.now) }
{
    if request_of(before, draft).is_some() {
        return None;
    }
    match draft.course.life {
        Life::Live => live_next(setup, before, draft, draft.course.reference),
        Life::Ending | Life::Aborting => ending_next(before, draft, draft.course.reference),
        Life::Ended => None,
    }
}

fn names(alloc: Global, trigger: Option<TriggerType>) -> Result<List<Text>, OutOfMemory>
    ensures { IfOk result (λ r. r ≡ names_of trigger) }
{
    let mut list = List::new(alloc);
    if let Some(trigger) = trigger {
        list.push(Text::from_text(alloc, name_of_type(trigger))?)?;
    }
    Ok(list)
}

fn used_from(alloc: Global, holding: &Holding) -> Result<Used, OutOfMemory>
    ensures { IfOk result (λ r. r ≡ used_as holding.now) }
{
    let triggers = names(alloc, holding.trigger)?;
    let container = holding.container;
    Ok(Used {
        lsn: container.lsn,
        group: container.group,
        up: container.up,
        down: container.down,
        seconds: container.seconds,
        first: container.first,
        last: container.last,
        triggers,
        moment: holding.moment,
    })
}

fn is_frozen_in(group: u32, holding: &Holding) -> bool
    ensures { result ≡ is_frozen_of group holding.now }
{
    is_frozen_place(holding.place) && holding.container.group == group
}

fn used_in(alloc: Global, group: u32, holdings: &[Holding]) -> Result<Vec<Used>, OutOfMemory>
    ensures { IfOk result (λ v. v.items ≡ used_of group holdings.now) }
{
    let mut used = Vec::new(alloc);
    for holding in holdings {
        if !is_frozen_in(group, holding) {
            continue;
        }
        used.push(used_from(alloc, holding)?)?;
    }
    Ok(used)
}

fn ask_for(wish: bool) -> Option<Ask>
    ensures { result ≡ ask_of wish }
{
    if wish {
        Some(Ask {
            volume: None,
            seconds: None,
        })
    } else {
        None
    }
}

fn usages_in(
    alloc: Global,
    holdings: &[Holding],
    groups: &[Entry],
) -> Result<Vec<UnitUsage>, OutOfMemory>
    ensures { IfOk result (λ v. v.items ≡ usages holdings.now groups.now) }
{
    let mut out = Vec::new(alloc);
    for entry in groups {
        let used = used_in(alloc, entry.number, holdings)?;
        if is_wanting_entry(entry) || !used.is_empty() {
            out.push(UnitUsage {
                group: entry.number,
                ask: ask_for(entry.quota.wish()),
                used: List::from_vec(used),
            })?;
        }
    }
    Ok(out)
}

fn triggers_for(alloc: Global, operation: Operation, life: Life) -> Result<List<Text>, OutOfMemory>
    ensures { IfOk result (λ r. r ≡ triggers_of operation life) }
{
    let mut list = List::new(alloc);
    if matches!(operation, Operation::Release(_)) && matches!(life, Life::Aborting) {
        list.push(Text::from_text(alloc, name_of_type(TriggerType::AbnormalRelease))?)?;
    }
    Ok(list)
}

// The next request of a session, of whose containers these are frozen in it.
fn next_request(
    alloc: Global,
    setup: &SmfSetup,
    now: Moment,
    operation: Operation,
    frozen: &[Holding],
    before: &Session,
    draft: &Draft,
) -> Result<Request, OutOfMemory>
    requires { frozen.now ≡ move_oldest most_containers Frozen draft.now.holdings }
    ensures { IfOk result (λ r. r ≡ request_made setup.now now (whole before.now draft.now) operation) }
{
    let Some(number) = draft.course.count.checked_add(1) else {
        return Err(OutOfMemory);
    };
    let usage = usages_in(alloc, frozen, draft.groups.as_slice())?;
    let consumer = copy(&setup.name)?;
    let subscriber = copy(&before.subscriber)?;
    let triggers = triggers_for(alloc, operation, draft.course.life)?;
    Ok(Request {
        operation,
        consumer,
        subscriber: Some(subscriber),
        charging_id: Some(before.number),
        number,
        stamp: now,
        again: false,
        notify: None,
        usage: List::from_vec(usage),
        triggers,
    })
}

fn frozen_entry(entry: &Entry) -> Entry
    ensures { result ≡ freeze_entry entry.now }
{
    let mut next = *entry;
    next.quota.freeze();
    next
}

fn frozen_entries(alloc: Global, groups: &[Entry]) -> Result<Vec<Entry>, OutOfMemory>
    ensures { IfOk result (λ v. v.items ≡ map freeze_entry groups.now) }
{
    let frozen = groups.iter().map(|e| frozen_entry(e)).collect(alloc)?;
    Ok(frozen)
}

/// Freezes a request (TS 32.290, 5.3.2).
pub fn freeze_request(
    alloc: Global,
    setup: &SmfSetup,
    now: Moment,
    operation: Operation,
    before: &Session,
    draft: &mut Draft,
) -> Result<(), OutOfMemory>
    ensures { OnOk result (whole before.now draft.new ≡ with_request setup.now now operation (whole before.now draft.old)) }
{
    let holdings = moved_oldest(
        alloc,
        MOST_CONTAINERS,
        Place::Frozen,
        draft.holdings.as_slice(),
    )?;
    let request = next_request(alloc, setup, now, operation, &holdings, before, draft)?;
    let groups = frozen_entries(alloc, draft.groups.as_slice())?;
    draft.course.count = request.number;
    draft.course.at_once = false;
    draft.groups = List::from_vec(groups);
    draft.holdings = List::from_vec(holdings);
    draft.pending = Pending::New(request);
    draft.course.sending = at_rest();
    Ok(())
}

/// Freezes the next request, where one is due.
pub fn freeze(
    alloc: Global,
    setup: &SmfSetup,
    now: Moment,
    before: &Session,
    draft: &mut Draft,
) -> Result<(), OutOfMemory>
    ensures { OnOk result (whole before.now draft.new ≡ freeze_due setup.now now (whole before.now draft.old)) }
{
    match next_of(setup, before, draft) {
        None => Ok(()),
        Some(operation) => freeze_request(alloc, setup, now, operation, before, draft),
    }
}
