//! What a message asks of the charging function: its path, its method and its body are looked at, in this order.
ghost use Rattle.std.specs.Prelude.{◌≡◌, false, IfOk};
ghost use Rattle.charging_json.specs.Request.{request_in};
ghost use Rattle.spend_json.specs.Context.{context_in};
ghost use Rattle.chf_core.specs.After.{is_setup};
ghost use Rattle.chf_messages.specs.Routing.{body_problem, charge_in, command_at, command_in, field_of, method_text, modify_in, no_call, subscribe_in};

use crate::method::Method;
use charging_json::read_request;
use chf_core::{Command, problem};
use routes::{Call, NoCall, Routes, status_of};
use spend_json::read_context;
use std::alloc::{AllocError, Global};
use units::{
    Cause, JsonRefusal, Operation, OutOfMemory, Problem, Reply, Text, copy, name_of_cause,
};

fn method_text(method: Method) -> &'static [u8]
    ensures { result.now ≡ method_text method }
{
    match method {
        Method::Post => b"POST",
        Method::Put => b"PUT",
        Method::Delete => b"DELETE",
    }
}

fn no_call(alloc: Global, refusal: NoCall) -> Result<Reply, AllocError>
    ensures { IfOk result (λ r. r ≡ no_call refusal) }
{
    problem(alloc, status_of(refusal), Cause::NotFound)
}

/// The problem that refuses a body for a cause.
fn body_problem(alloc: Global, why: Cause, refusal: &JsonRefusal) -> Result<Reply, AllocError>
    ensures { IfOk result (λ r. r ≡ body_problem why refusal.now) }
{
    let detail = match refusal {
        JsonRefusal::Missing { field } | JsonRefusal::Wrong { field } => Some(copy(field)?),
        JsonRefusal::NotJson | JsonRefusal::OutOfMemory => None,
    };
    Ok(Reply::Refused {
        problem: Problem {
            status: 400,
            cause: Text::from_text(alloc, name_of_cause(why))?,
            detail,
        },
    })
}

fn charge_in(
    alloc: Global,
    operation: Operation,
    body: &[u8],
) -> Result<Result<Command, Reply>, OutOfMemory>
    ensures command { IfOk result (λ r. r ≡ charge_in operation (request_in operation body.now)) }
    ensures later { IfOk result (λ r. IfOk r (λ c. is_setup c ≡ false)) }
{
    match read_request(alloc, operation, body) {
        Ok(request) => Ok(Ok(Command::Charge { request })),
        Err(JsonRefusal::OutOfMemory) => Err(OutOfMemory),
        Err(refusal) => {
            let why = charging_json::cause_of(operation, &refusal);
            Ok(Err(body_problem(alloc, why, &refusal)?))
        }
    }
}

fn subscribe_in(alloc: Global, body: &[u8]) -> Result<Result<Command, Reply>, OutOfMemory>
    ensures command { IfOk result (λ r. r ≡ subscribe_in (context_in body.now)) }
    ensures later { IfOk result (λ r. IfOk r (λ c. is_setup c ≡ false)) }
{
    match read_context(alloc, body) {
        Ok(context) => Ok(Ok(Command::Subscribe { context })),
        Err(JsonRefusal::OutOfMemory) => Err(OutOfMemory),
        Err(refusal) => {
            let why = spend_json::cause_of(&refusal);
            Ok(Err(body_problem(alloc, why, &refusal)?))
        }
    }
}

fn modify_in(alloc: Global, id: u32, body: &[u8]) -> Result<Result<Command, Reply>, OutOfMemory>
    ensures command { IfOk result (λ r. r ≡ modify_in id (context_in body.now)) }
    ensures later { IfOk result (λ r. IfOk r (λ c. is_setup c ≡ false)) }
{
    match read_context(alloc, body) {
        Ok(context) => Ok(Ok(Command::Modify { id, context })),
        Err(JsonRefusal::OutOfMemory) => Err(OutOfMemory),
        Err(refusal) => {
            let why = spend_json::cause_of(&refusal);
            Ok(Err(body_problem(alloc, why, &refusal)?))
        }
    }
}

fn command_in(alloc: Global, call: Call, body: &[u8]) -> Result<Result<Command, Reply>, OutOfMemory>
    ensures command { IfOk result (λ r. r ≡ command_in call body.now) }
    ensures later { IfOk result (λ r. IfOk r (λ c. is_setup c ≡ false)) }
{
    match call {
        Call::Charge(operation) => charge_in(alloc, operation, body),
        Call::Subscribe => subscribe_in(alloc, body),
        Call::Modify(id) => modify_in(alloc, id, body),
        Call::Unsubscribe(id) => Ok(Ok(Command::Unsubscribe { id })),
    }
}

/// The command that a message gives, or the reply that refuses it.
pub fn command_at(
    alloc: Global,
    routes: &Routes,
    method: Method,
    path: &Text,
    body: &[u8],
) -> Result<Result<Command, Reply>, OutOfMemory>
    ensures command { IfOk result (λ r. r ≡ command_at method path.now body.now) }
    ensures later { IfOk result (λ r. IfOk r (λ c. is_setup c ≡ false)) }
{
    match routes.call_of(method_text(method), path.as_str()) {
        Ok(call) => command_in(alloc, call, body),
        Err(refusal) => Ok(Err(no_call(alloc, refusal)?)),
    }
}
