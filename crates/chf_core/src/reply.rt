//! The first reply to a request.
ghost use Rattle.std.specs.Prelude.{◌≡◌, ◌<◌, ◌-◌, ◌^◌, IfOk, Some};
ghost use Rattle.chf_core.specs.Money.{user_unknown};
ghost use Rattle.chf_core.specs.State.{account_for};
ghost use Rattle.chf_core.specs.CommandMoves.{target_of, rating_of, infos_for};
ghost use Rattle.chf_core.specs.Deciding.{answer_of, created, first_reply};

use crate::chf::Chf;
use crate::setup::ChfSetup;
use std::alloc::Global;
use units::{
    Answer, Cause, List, Operation, OutOfMemory, Problem, Reply, Request, Text, UnitInfo,
    name_of_cause,
};

fn user_unknown(alloc: Global) -> Result<Reply, OutOfMemory>
    ensures { IfOk result (λ r. r ≡ user_unknown) }
{
    Ok(Reply::Refused {
        problem: Problem {
            status: 404,
            cause: Text::from_text(alloc, name_of_cause(Cause::UserUnknown))?,
            detail: None,
        },
    })
}

impl Chf {
    fn answer_of(
        &self,
        alloc: Global,
        setup: &ChfSetup,
        request: &Request,
        units: List<UnitInfo>,
    ) -> Answer
        requires setup { self.now.state.setup ≡ Some setup.now }
        requires units { units ≡ infos_for (rating_of self.now.state request.now) request.now self.now.state.money (target_of self.now.state request.now) }
        ensures { result ≡ answer_of self.now.state request.now }
    {
        Answer {
            number: request.number,
            stamp: request.stamp,
            failover: Some(setup.failover),
            handling: None,
            triggers: List::new(alloc),
            units,
        }
    }

    fn created(
        &self,
        alloc: Global,
        request: &Request,
        answer: Answer,
    ) -> Result<Reply, OutOfMemory>
        requires few { self.now.state.count < 2 ^ 32 - 1 }
        requires answer { answer ≡ answer_of self.now.state request.now }
        ensures { IfOk result (λ r. r ≡ created self.now.state request.now (account_for self.now.state request.now.subscriber)) }
    {
        match self.account_for(&request.subscriber) {
            Some(_) => Ok(Reply::Created {
                reference: self.next_reference(),
                answer,
            }),
            None => user_unknown(alloc),
        }
    }

    /// The first reply to a request, with what is said of its groups.
    pub(crate) fn first_reply(
        &self,
        alloc: Global,
        setup: &ChfSetup,
        request: &Request,
        units: List<UnitInfo>,
    ) -> Result<Reply, OutOfMemory>
        requires setup { self.now.state.setup ≡ Some setup.now }
        requires few { self.now.state.count < 2 ^ 32 - 1 }
        requires units { units ≡ infos_for (rating_of self.now.state request.now) request.now self.now.state.money (target_of self.now.state request.now) }
        ensures { IfOk result (λ r. r ≡ first_reply self.now.state request.now) }
    {
        let answer = self.answer_of(alloc, setup, request, units);
        match request.operation {
            Operation::Create => self.created(alloc, request, answer),
            Operation::Update(_) => Ok(Reply::Updated { answer }),
            Operation::Release(_) => Ok(Reply::Released),
        }
    }
}
