//! What a message does to the charging function, and its response.
ghost use Rattle.std.specs.Prelude.{◌≡◌, ◌==◌, false, Some, None, IfOk, OnOk, option_copied, option_map};
ghost use Rattle.std.specs.Option.{option_and_then};
ghost use Rattle.chf_core.specs.Deciding.{decision};
ghost use Rattle.chf_core.specs.After.{is_setup};
ghost use Rattle.chf_core.specs.Standing.{reply_of};
ghost use Rattle.units.specs.declared.reply.Reply.TheVariants as reply;
ghost use Rattle.chf_messages.specs.Answering.{after_message, decided, message_response, outcome_response, refused_reply, verdict_response};
ghost use Rattle.chf_messages.specs.Ascending.{AscendsIn};
ghost use Rattle.chf_messages.specs.Responses.{response_of};
ghost use Rattle.chf_messages.specs.Routing.{command_at};

use crate::method::Method;
use crate::response::{Response, given, made, removed};
use crate::routing::command_at;
use chf_core::{Chf, ChfRefusal, Command, Decision, Outcome, problem, refusal_reply};
use counters::statuses_ascend;
use routes::Routes;
use std::alloc::{AllocError, Global};
use units::{Cause, OutOfMemory, Problem, Reply, Text, name_of_cause};

// A problem that says this cause.
fn caused(alloc: Global, status: u16, cause: &str, field: Option<&str>) -> Result<Reply, AllocError>
    ensures { IfOk result (λ r. r ≡ reply.Refused (record { status = status; cause = cause.now; detail = option_map (λ t. t.now) field.entry })) }
{
    let detail = match field {
        Some(field) => Some(Text::from_text(alloc, field)?),
        None => None,
    };
    Ok(Reply::Refused {
        problem: Problem {
            status,
            cause: Text::from_text(alloc, cause)?,
            detail,
        },
    })
}

// The problem that refuses a message.
fn refused_reply(alloc: Global, refusal: ChfRefusal) -> Result<Option<Reply>, AllocError>
    ensures { IfOk result (λ r. r ≡ refused_reply refusal) }
{
    match refusal {
        ChfRefusal::UserUnknown => Ok(Some(problem(alloc, 404, Cause::UserUnknown)?)),
        ChfRefusal::WrongSupi => Ok(Some(caused(
            alloc,
            400,
            name_of_cause(Cause::MandatoryIncorrect),
            Some("supi"),
        )?)),
        ChfRefusal::UnknownCounter => {
            Ok(Some(caused(alloc, 400, "UNKNOWN_POLICY_COUNTERS", None)?))
        }
        ChfRefusal::UnknownSubscription => {
            Ok(Some(caused(alloc, 404, "SUBSCRIPTION_NOT_FOUND", None)?))
        }
        _ => refusal_reply(alloc, refusal),
    }
}

fn refused(alloc: Global, refusal: ChfRefusal) -> Result<Option<Response>, OutOfMemory>
    ensures { IfOk result (λ r. r ≡ option_map response_of (refused_reply refusal)) }
{
    match refused_reply(alloc, refusal)? {
        Some(reply) => Ok(Some(Response::of(alloc, &reply)?)),
        None => Ok(None),
    }
}

// The response with the reply that a kept request came to.
fn kept(alloc: Global, outcome: Option<&Outcome>) -> Result<Option<Response>, OutOfMemory>
    ensures { IfOk result (λ r. r ≡ option_map response_of (option_and_then reply_of (option_copied outcome.entry))) }
{
    match outcome {
        Some(Outcome::Charged(reply)) => Ok(Some(Response::of(alloc, reply)?)),
        _ => Ok(None),
    }
}

// The response to what the command of a message comes to.
fn outcome_response(
    alloc: Global,
    command: &Command,
    outcome: &Outcome,
) -> Result<Option<Response>, OutOfMemory>
    requires { AscendsIn outcome.now }
    ensures { IfOk result (λ r. r ≡ outcome_response command.now outcome.now) }
{
    match outcome {
        Outcome::Charged(reply) => Ok(Some(Response::of(alloc, reply)?)),
        Outcome::Spending { id, status } => match command {
            Command::Subscribe { .. } => Ok(Some(made(alloc, *id, status)?)),
            _ => Ok(Some(given(alloc, status)?)),
        },
        Outcome::Removed => Ok(Some(removed(alloc))),
        Outcome::Done => Ok(None),
        Outcome::Known => Ok(None),
    }
}

// Gives the command of a message to the machine.
fn answer_command(
    alloc: Global,
    chf: &mut Chf,
    command: &Command,
) -> Result<Option<Response>, OutOfMemory>
    requires begun { (chf.old.state.count == 0) ≡ false }
    requires later { is_setup command.now ≡ false }
    ensures response { IfOk result (λ r. r ≡ verdict_response chf.old.state command.now (decision chf.old.state command.now)) }
    ensures state { OnOk result (chf.new.state ≡ decided chf.old.state command.now (decision chf.old.state command.now)) }
{
    statuses_ascend();
    match chf.decide(alloc, command)? {
        Decision::Kept(place) => kept(alloc, chf.outcome_at(place)),
        Decision::Known => Ok(None),
        Decision::Refused(refusal) => refused(alloc, refusal),
        Decision::Fresh(plan) => {
            let response = outcome_response(alloc, command, Chf::outcome(&plan))?;
            chf.commit(plan);
            Ok(response)
        }
    }
}

/// Answers a message: its path, its method and its body are looked at, then the machine decides on its command.
///
/// # Errors
///
/// Memory runs out; the message is then not accepted.
pub fn answer_message(
    alloc: Global,
    routes: &Routes,
    chf: &mut Chf,
    method: Method,
    path: &Text,
    body: &[u8],
) -> Result<Option<Response>, OutOfMemory>
    requires { (chf.old.state.count == 0) ≡ false }
    ensures response { IfOk result (λ r. r ≡ message_response chf.old.state (command_at method path.now body.now)) }
    ensures state { OnOk result (chf.new.state ≡ after_message chf.old.state (command_at method path.now body.now)) }
{
    match command_at(alloc, routes, method, path, body)? {
        Ok(command) => answer_command(alloc, chf, &command),
        Err(reply) => Ok(Some(Response::of(alloc, &reply)?)),
    }
}
