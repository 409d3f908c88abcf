//! Ends: of traffic, of the PDU session, of the charging session.
ghost use Rattle.std.specs.Prelude.{◌≡◌, ◌<◌, IfOk, OnOk, map};
ghost use Rattle.smf_core.specs.Draft.{whole};
ghost use Rattle.smf_model.specs.Traffic.{without_traffic, detached, ended, give_up, ended_for};

use crate::changes::all_closed;
use crate::draft::{Draft, Pending};
use crate::freeze::{is_frozen_place, is_waiting_place};
use crate::sending::at_rest;
use smf_model::{Holding, Life, Place, Session, Why};
use std::alloc::Global;
use units::{List, Moment, OutOfMemory, TriggerType};

/// Traffic ends, and closes what is open.
pub fn end_traffic(
    alloc: Global,
    life: Life,
    moment: Moment,
    trigger: TriggerType,
    before: &Session,
    draft: &mut Draft,
) -> Result<(), OutOfMemory>
    ensures { OnOk result (whole before.now draft.new ≡ without_traffic life moment trigger (whole before.now draft.old)) }
{
    let holdings = all_closed(alloc, moment, trigger, draft.holdings.as_slice())?;
    draft.course.life = life;
    draft.holdings = List::from_vec(holdings);
    Ok(())
}

/// The PDU session ended.
pub fn detach(
    alloc: Global,
    abnormal: bool,
    moment: Moment,
    before: &Session,
    draft: &mut Draft,
) -> Result<(), OutOfMemory>
    ensures { OnOk result (whole before.now draft.new ≡ detached abnormal moment (whole before.now draft.old)) }
{
    if abnormal {
        let trigger = TriggerType::AbnormalRelease;
        end_traffic(alloc, Life::Aborting, moment, trigger, before, draft)?;
    } else {
        end_traffic(
            alloc,
            Life::Ending,
            moment,
            TriggerType::Final,
            before,
            draft,
        )?;
    }
    draft.course.last = moment;
    Ok(())
}

/// The charging session is over.
pub fn end(
    alloc: Global,
    now: Moment,
    before: &Session,
    draft: &mut Draft,
) -> Result<(), OutOfMemory>
    ensures { OnOk result (whole before.now draft.new ≡ ended now (whole before.now draft.old)) }
{
    let trigger = TriggerType::AbnormalRelease;
    end_traffic(alloc, Life::Ended, now, trigger, before, draft)?;
    draft.pending = Pending::Nothing;
    draft.course.sending = at_rest();
    Ok(())
}

fn given_up(why: Why, holding: &Holding) -> Holding
    ensures { result ≡ give_up why holding.now }
{
    if is_waiting_place(holding.place) || is_frozen_place(holding.place) {
        Holding {
            place: Place::GivenUp(why),
            ..*holding
        }
    } else {
        *holding
    }
}

fn all_given_up(alloc: Global, why: Why, holdings: &[Holding]) -> Result<Vec<Holding>, OutOfMemory>
    ensures { IfOk result (λ v. v.items ≡ map (give_up why) holdings.now) }
{
    let next = holdings.iter().map(|h| given_up(why, h)).collect(alloc)?;
    Ok(next)
}

/// And what it holds is given up.
pub fn end_for(
    alloc: Global,
    why: Why,
    now: Moment,
    before: &Session,
    draft: &mut Draft,
) -> Result<(), OutOfMemory>
    ensures { OnOk result (whole before.now draft.new ≡ ended_for why now (whole before.now draft.old)) }
{
    end(alloc, now, before, draft)?;
    let holdings = all_given_up(alloc, why, draft.holdings.as_slice())?;
    draft.holdings = List::from_vec(holdings);
    Ok(())
}
