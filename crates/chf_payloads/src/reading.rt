//! The commands that payloads give, however they are spelled.
ghost use Rattle.std.specs.Prelude.{◌≡◌, IfOk};
ghost use Rattle.chf_payloads.specs.Read.{charge_in, command_by, command_in, context_of, ending_in, modify_in, operator_in, release_in, remove_in, request_of, sent_in, session_request, setup_by, setup_in, small_before, spending_in, subscribe_in};

use charging_json::read_request;
use chf_core::Command;
use chf_rows::{SetupRefusal, read_operator_row, read_setup};
use row_texts::{after_space, after_word, number_before, row_in, rows_in};
use rows::number;
use spend_json::read_context;
use std::alloc::Global;
use units::{JsonRefusal, List, Operation, OutOfMemory, SpendContext, Text};

// A reference or an id, before a space.
fn small_before(text: &[u8]) -> Option<u32>
    ensures { result ≡ small_before text.now }
{
    number_before(u32::MAX, text)
}

// The setup of rows.
fn setup_by(alloc: Global, rows: &[List<Text>]) -> Result<Option<Command>, OutOfMemory>
    ensures { IfOk result (λ o. o ≡ setup_by rows.now) }
{
    match read_setup(alloc, rows) {
        Ok(setup) => Ok(Some(Command::Setup { setup })),
        Err(SetupRefusal::BadRow { .. }) => Ok(None),
        Err(SetupRefusal::OutOfMemory) => Err(OutOfMemory),
    }
}

fn setup_in(alloc: Global, text: &[u8]) -> Result<Option<Command>, OutOfMemory>
    ensures { IfOk result (λ o. o ≡ setup_in text.now) }
{
    match rows_in(alloc, text)? {
        Some(rows) => setup_by(alloc, rows.as_slice()),
        None => Ok(None),
    }
}

fn operator_in(alloc: Global, text: &[u8]) -> Result<Option<Command>, OutOfMemory>
    ensures { IfOk result (λ o. o ≡ operator_in text.now) }
{
    match row_in(alloc, text)? {
        Some(row) => read_operator_row(alloc, row.as_slice()),
        None => Ok(None),
    }
}

// The request of an operation.
fn request_of(
    alloc: Global,
    operation: Operation,
    body: &[u8],
) -> Result<Option<Command>, OutOfMemory>
    ensures { IfOk result (λ o. o ≡ request_of operation body.now) }
{
    match read_request(alloc, operation, body) {
        Ok(request) => Ok(Some(Command::Charge { request })),
        Err(JsonRefusal::OutOfMemory) => Err(OutOfMemory),
        Err(JsonRefusal::NotJson) => Ok(None),
        Err(JsonRefusal::Missing { .. }) => Ok(None),
        Err(JsonRefusal::Wrong { .. }) => Ok(None),
    }
}

fn update_in(alloc: Global, text: &[u8]) -> Result<Option<Command>, OutOfMemory>
    ensures { IfOk result (λ o. o ≡ session_request Operation.Update text.now) }
{
    match small_before(text) {
        Some(reference) => request_of(alloc, Operation::Update(reference), after_space(text)),
        None => Ok(None),
    }
}

fn session_release(alloc: Global, text: &[u8]) -> Result<Option<Command>, OutOfMemory>
    ensures { IfOk result (λ o. o ≡ session_request Operation.Release text.now) }
{
    match small_before(text) {
        Some(reference) => request_of(alloc, Operation::Release(reference), after_space(text)),
        None => Ok(None),
    }
}

fn release_in(alloc: Global, text: &[u8]) -> Result<Option<Command>, OutOfMemory>
    ensures { IfOk result (λ o. o ≡ release_in text.now) }
{
    match after_word(text, b"release ") {
        Some(rest) => session_release(alloc, rest),
        None => Ok(None),
    }
}

// A request behind its operation.
fn charge_in(alloc: Global, text: &[u8]) -> Result<Option<Command>, OutOfMemory>
    ensures { IfOk result (λ o. o ≡ charge_in text.now) }
{
    if let Some(body) = after_word(text, b"create ") {
        return request_of(alloc, Operation::Create, body);
    }
    if let Some(rest) = after_word(text, b"update ") {
        return update_in(alloc, rest);
    }
    release_in(alloc, text)
}

// The context of a body, where it is one.
fn context_of(alloc: Global, body: &[u8]) -> Result<Option<SpendContext>, OutOfMemory>
    ensures { IfOk result (λ o. o ≡ context_of body.now) }
{
    match read_context(alloc, body) {
        Ok(context) => Ok(Some(context)),
        Err(JsonRefusal::OutOfMemory) => Err(OutOfMemory),
        Err(JsonRefusal::NotJson) => Ok(None),
        Err(JsonRefusal::Missing { .. }) => Ok(None),
        Err(JsonRefusal::Wrong { .. }) => Ok(None),
    }
}

fn subscribe_in(alloc: Global, body: &[u8]) -> Result<Option<Command>, OutOfMemory>
    ensures { IfOk result (λ o. o ≡ subscribe_in body.now) }
{
    match context_of(alloc, body)? {
        Some(context) => Ok(Some(Command::Subscribe { context })),
        None => Ok(None),
    }
}

fn modify_in(alloc: Global, text: &[u8]) -> Result<Option<Command>, OutOfMemory>
    ensures { IfOk result (λ o. o ≡ modify_in text.now) }
{
    let Some(id) = small_before(text) else {
        return Ok(None);
    };
    match context_of(alloc, after_space(text))? {
        Some(context) => Ok(Some(Command::Modify { id, context })),
        None => Ok(None),
    }
}

fn remove_in(text: &[u8]) -> Option<Command>
    ensures { result ≡ remove_in text.now }
{
    let id = number(u64::from(u32::MAX), text)? as u32;
    Some(Command::Unsubscribe { id })
}

fn ending_in(text: &[u8]) -> Option<Command>
    ensures { result ≡ ending_in text.now }
{
    remove_in(after_word(text, b"remove ")?)
}

// A change of subscriptions.
fn spending_in(alloc: Global, text: &[u8]) -> Result<Option<Command>, OutOfMemory>
    ensures { IfOk result (λ o. o ≡ spending_in text.now) }
{
    if let Some(body) = after_word(text, b"subscribe ") {
        return subscribe_in(alloc, body);
    }
    if let Some(rest) = after_word(text, b"modify ") {
        return modify_in(alloc, rest);
    }
    Ok(ending_in(text))
}

// A notice that was sent.
fn sent_in(text: &[u8]) -> Option<Command>
    ensures { result ≡ sent_in text.now }
{
    let id = small_before(text)?;
    let sent = number(u64::from(u32::MAX), after_space(text))? as u32;
    Some(Command::NoticeSent { id, number: sent })
}

// The command of a kind.
fn command_by(alloc: Global, kind: u8, text: &[u8]) -> Result<Option<Command>, OutOfMemory>
    ensures { IfOk result (λ o. o ≡ command_by kind text.now) }
{
    match kind {
        b'c' => setup_in(alloc, text),
        b'r' => operator_in(alloc, text),
        b'q' => charge_in(alloc, text),
        b's' => spending_in(alloc, text),
        b'n' => Ok(sent_in(text)),
        _ => Ok(None),
    }
}

/// The command that a payload gives, however it is spelled.
pub fn command_in(alloc: Global, bytes: &[u8]) -> Result<Option<Command>, OutOfMemory>
    ensures { IfOk result (λ o. o ≡ command_in bytes.now) }
{
    match bytes {
        [kind, text @ ..] => command_by(alloc, *kind, text),
        [] => Ok(None),
    }
}
