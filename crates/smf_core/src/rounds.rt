//! The end of an attempt without an answer, and of a round of attempts.
ghost use Rattle.std.specs.Prelude.{◌≡◌, IfOk, OnOk, map};
ghost use Rattle.smf_core.specs.Draft.{whole};
ghost use Rattle.smf_model.specs.Rounds.{is_unsent, is_continue, with_loss, is_last, next_turn, next_round, continue_entry, broken_off, after_round, moved_on, lost};

use crate::draft::Draft;
use crate::ending::{end_for, end_traffic};
use smf_model::{Entry, Life, Loss, Session, SmfSetup, Why};
use std::alloc::Global;
use units::{Handling, List, Moment, OutOfMemory, TriggerType};

fn is_unsent_loss(loss: Loss) -> bool
    ensures { result ≡ is_unsent loss }
{
    matches!(loss, Loss::Unsent)
}

fn goes_on(handling: Handling) -> bool
    ensures { result ≡ is_continue handling }
{
    matches!(handling, Handling::Continue)
}

fn end_attempt(loss: Loss, before: &Session, draft: &mut Draft)
    ensures { whole before.now draft.new ≡ with_loss loss (whole before.now draft.old) }
{
    let unsent = draft.course.sending.unsent && is_unsent_loss(loss);
    draft.course.sending.in_flight = false;
    draft.course.sending.unsent = unsent;
}

// Whether the attempt was the last of its round.
fn is_last_turn(before: &Session, draft: &Draft) -> bool
    ensures { result ≡ is_last (whole before.now draft.now) }
{
    match draft.course.handling {
        Handling::Terminate => true,
        Handling::Continue | Handling::RetryAndTerminate => draft.course.sending.turn >= 1,
    }
}

fn take_turn(before: &Session, draft: &mut Draft) -> Result<(), OutOfMemory>
    ensures { OnOk result (whole before.now draft.new ≡ next_turn (whole before.now draft.old)) }
{
    let Some(turn) = draft.course.sending.turn.checked_add(1) else {
        return Err(OutOfMemory);
    };
    draft.course.sending.turn = turn;
    Ok(())
}

// The next round waits.
fn begin_round(setup: &SmfSetup, now: Moment, before: &Session, draft: &mut Draft)
    ensures { whole before.now draft.new ≡ next_round setup.now now (whole before.now draft.old) }
{
    draft.course.sending.turn = 0;
    draft.course.sending.wait = Some(now.plus(setup.retry));
}

fn continued(entry: &Entry) -> Entry
    ensures { result ≡ continue_entry entry.now }
{
    let mut next = *entry;
    next.quota.continue_without();
    next
}

fn all_continued(alloc: Global, groups: &[Entry]) -> Result<Vec<Entry>, OutOfMemory>
    ensures { IfOk result (λ v. v.items ≡ map continue_entry groups.now) }
{
    let next = groups.iter().map(|e| continued(e)).collect(alloc)?;
    Ok(next)
}

// A live session is ending, abnormally.
fn break_off(
    alloc: Global,
    now: Moment,
    before: &Session,
    draft: &mut Draft,
) -> Result<(), OutOfMemory>
    ensures { OnOk result (whole before.now draft.new ≡ broken_off now draft.old.course.life (whole before.now draft.old)) }
{
    match draft.course.life {
        Life::Live => {
            let trigger = TriggerType::AbnormalRelease;
            end_traffic(alloc, Life::Aborting, now, trigger, before, draft)
        }
        Life::Ending | Life::Aborting | Life::Ended => Ok(()),
    }
}

fn go_on(
    alloc: Global,
    setup: &SmfSetup,
    now: Moment,
    before: &Session,
    draft: &mut Draft,
) -> Result<(), OutOfMemory>
    ensures { OnOk result (whole before.now draft.new ≡ record (next_round setup.now now (whole before.now draft.old)) { groups = map continue_entry draft.old.groups }) }
{
    let groups = all_continued(alloc, draft.groups.as_slice())?;
    draft.groups = List::from_vec(groups);
    begin_round(setup, now, before, draft);
    Ok(())
}

fn stop(
    alloc: Global,
    setup: &SmfSetup,
    now: Moment,
    before: &Session,
    draft: &mut Draft,
) -> Result<(), OutOfMemory>
    ensures { OnOk result (whole before.now draft.new ≡ next_round setup.now now (broken_off now draft.old.course.life (whole before.now draft.old))) }
{
    break_off(alloc, now, before, draft)?;
    begin_round(setup, now, before, draft);
    Ok(())
}

fn end_round(
    alloc: Global,
    setup: &SmfSetup,
    now: Moment,
    before: &Session,
    draft: &mut Draft,
) -> Result<(), OutOfMemory>
    ensures { OnOk result (whole before.now draft.new ≡ after_round setup.now now (whole before.now draft.old)) }
{
    if goes_on(draft.course.handling) {
        return go_on(alloc, setup, now, before, draft);
    }
    if draft.course.sending.unsent {
        return end_for(alloc, Why::NotSent, now, before, draft);
    }
    stop(alloc, setup, now, before, draft)
}

fn move_on(
    alloc: Global,
    setup: &SmfSetup,
    now: Moment,
    before: &Session,
    draft: &mut Draft,
) -> Result<(), OutOfMemory>
    ensures { OnOk result (whole before.now draft.new ≡ moved_on setup.now now (whole before.now draft.old)) }
{
    if is_last_turn(before, draft) {
        end_round(alloc, setup, now, before, draft)
    } else {
        take_turn(before, draft)
    }
}

/// The attempt in flight ended without an answer (TS 32.290, failure handling).
pub fn lose(
    alloc: Global,
    setup: &SmfSetup,
    now: Moment,
    loss: Loss,
    before: &Session,
    draft: &mut Draft,
) -> Result<(), OutOfMemory>
    ensures { OnOk result (whole before.now draft.new ≡ lost setup.now now loss (whole before.now draft.old)) }
{
    end_attempt(loss, before, draft);
    move_on(alloc, setup, now, before, draft)
}
