//! Payloads, written.
ghost use Rattle.std.specs.Prelude.{◌≡◌, ◌++◌, ◌<◌, ◌≤◌, IfOk, OnOk, Ok, codes, decimal, length};
ghost use Rattle.serde_json.specs.Written.{compact_text};
ghost use Rattle.units.specs.Ranges.{FitsRequest};
ghost use Rattle.row_texts.specs.RowTexts.{groups_text, row_line, row_text, rows_text};
ghost use Rattle.charging_json.specs.Request.{request_in};
ghost use Rattle.charging_json.specs.RequestWritten.{container_count, request_data};
ghost use Rattle.spend_json.specs.Context.{context_in};
ghost use Rattle.spend_json.specs.ContextWritten.{context_data};
ghost use Rattle.spend_json.specs.Ranges.{FitsContext};
ghost use Rattle.chf_payloads.specs.Laws.{IsOfMessage};
ghost use Rattle.chf_payloads.specs.Payloads.{ReadsBack};
ghost use Rattle.chf_payloads.specs.Written.{containers_of, limits_row, operation_text, payload_of, setup_rows};

use charging_json::append_request;
use chf_core::{ChfSetup, Command};
use row_texts::{
    numbers_read_back, push_amount, push_decimal, push_field, push_groups, push_number,
    push_numbers, push_rows,
};
use spend_json::write_context;
use std::alloc::Global;
use std::mem;
use units::{List, Moment, Operation, OutOfMemory, Request, SpendContext, Text, name_of_failover};

// The limits row and its line feed.
fn push_limits(setup: &ChfSetup, out: &mut Vec<u8>) -> Result<(), OutOfMemory>
    ensures { OnOk result (out.new.items ≡ out.old.items ++ row_line (limits_row setup.now)) }
{
    out.extend_from_slice(b"limits")?;
    let limits = &setup.limits;
    push_numbers(
        &[
            limits.volume,
            u64::from(limits.seconds),
            u64::from(limits.changes),
            u64::from(limits.containers),
            u64::from(setup.grace),
        ],
        out,
    )?;
    push_field(setup.limits.function.as_str(), out)?;
    push_field(name_of_failover(setup.failover), out)?;
    out.extend_from_slice(b"\n")?;
    Ok(())
}

fn push_setup(setup: &ChfSetup, out: &mut Vec<u8>) -> Result<(), OutOfMemory>
    ensures { OnOk result (out.new.items ≡ out.old.items ++ (codes "c" ++ rows_text (setup_rows setup.now))) }
{
    out.extend_from_slice(b"c")?;
    push_rows(setup.tariffs.rows().as_slice(), out)?;
    push_rows(setup.counters.rows().as_slice(), out)?;
    push_limits(setup, out)
}

fn push_subscriber(
    supi: &Text,
    account: &Text,
    barred: &[u32],
    out: &mut Vec<u8>,
) -> Result<(), OutOfMemory>
    ensures { OnOk result (out.new.items ≡ out.old.items ++ payload_of (Command.Subscriber supi.now account.now barred.now)) }
{
    out.extend_from_slice(b"rsubscriber")?;
    push_field(supi.as_str(), out)?;
    push_field(account.as_str(), out)?;
    push_groups(barred, out)
}

fn push_top_up(
    id: &Text,
    account: &Text,
    amount: u128,
    out: &mut Vec<u8>,
) -> Result<(), OutOfMemory>
    ensures { OnOk result (out.new.items ≡ out.old.items ++ payload_of (Command.TopUp id.now account.now amount)) }
{
    out.extend_from_slice(b"rtopup")?;
    push_field(id.as_str(), out)?;
    push_field(account.as_str(), out)?;
    push_amount(amount, out)
}

fn push_expiry(moment: Moment, out: &mut Vec<u8>) -> Result<(), OutOfMemory>
    ensures { OnOk result (out.new.items ≡ out.old.items ++ payload_of (Command.Expire moment)) }
{
    out.extend_from_slice(b"rexpire")?;
    push_number(moment.seconds(), out)
}

fn push_close(moment: Moment, out: &mut Vec<u8>) -> Result<(), OutOfMemory>
    ensures { OnOk result (out.new.items ≡ out.old.items ++ payload_of (Command.CloseRecords moment)) }
{
    out.extend_from_slice(b"rclose")?;
    push_number(moment.seconds(), out)
}

// The word of an operation, and the reference of its charging session.
fn push_operation(operation: Operation, out: &mut Vec<u8>) -> Result<(), OutOfMemory>
    ensures { OnOk result (out.new.items ≡ out.old.items ++ operation_text operation) }
{
    match operation {
        Operation::Create => {
            out.extend_from_slice(b"create ")?;
            Ok(())
        }
        Operation::Update(reference) => push_numbered(b"update ", reference, out),
        Operation::Release(reference) => push_numbered(b"release ", reference, out),
    }
}

// A word, a number and a space.
fn push_numbered(word: &[u8], number: u32, out: &mut Vec<u8>) -> Result<(), OutOfMemory>
    ensures { OnOk result (out.new.items ≡ out.old.items ++ (word.now ++ (decimal number ++ codes " "))) }
{
    out.extend_from_slice(word)?;
    push_decimal(number, out)?;
    out.extend_from_slice(b" ")?;
    Ok(())
}

fn push_request(alloc: Global, request: &Request, out: &mut Vec<u8>) -> Result<(), OutOfMemory>
    ensures text { OnOk result (out.new.items ≡ out.old.items ++ compact_text (request_data request.now)) }
    ensures bytes { container_count request.now ≤ length (compact_text (request_data request.now)) }
    ensures reads_back { FitsRequest request.now → OnOk result (request_in request.now.operation (compact_text (request_data request.now)) ≡ Ok request.now) }
{
    let mut text = List::from_vec(mem::replace(out, Vec::new(alloc)));
    let written = append_request(alloc, &mut text, request);
    *out = text.into_vec();
    written
}

fn push_charge(alloc: Global, request: &Request, out: &mut Vec<u8>) -> Result<(), OutOfMemory>
    ensures text { OnOk result (out.new.items ≡ out.old.items ++ payload_of (Command.Charge request.now)) }
    ensures bytes { OnOk result (container_count request.now < length (payload_of (Command.Charge request.now))) }
    ensures reads_back { IsOfMessage (Command.Charge request.now) → OnOk result (ReadsBack (Command.Charge request.now)) }
{
    numbers_read_back();
    out.extend_from_slice(b"q")?;
    push_operation(request.operation, out)?;
    push_request(alloc, request, out)
}

fn push_context(alloc: Global, context: &SpendContext, out: &mut Vec<u8>) -> Result<(), OutOfMemory>
    ensures text { OnOk result (out.new.items ≡ out.old.items ++ compact_text (context_data context.now)) }
    ensures reads_back { FitsContext context.now → OnOk result (context_in (compact_text (context_data context.now)) ≡ Ok context.now) }
{
    let text = write_context(alloc, context)?;
    out.extend_from_slice(text.as_slice())?;
    Ok(())
}

fn push_subscribe(
    alloc: Global,
    context: &SpendContext,
    out: &mut Vec<u8>,
) -> Result<(), OutOfMemory>
    ensures text { OnOk result (out.new.items ≡ out.old.items ++ payload_of (Command.Subscribe context.now)) }
    ensures reads_back { IsOfMessage (Command.Subscribe context.now) → OnOk result (ReadsBack (Command.Subscribe context.now)) }
{
    out.extend_from_slice(b"ssubscribe ")?;
    push_context(alloc, context, out)
}

fn push_modify(
    alloc: Global,
    id: u32,
    context: &SpendContext,
    out: &mut Vec<u8>,
) -> Result<(), OutOfMemory>
    ensures text { OnOk result (out.new.items ≡ out.old.items ++ payload_of (Command.Modify id context.now)) }
    ensures reads_back { IsOfMessage (Command.Modify id context.now) → OnOk result (ReadsBack (Command.Modify id context.now)) }
{
    numbers_read_back();
    push_numbered(b"smodify ", id, out)?;
    push_context(alloc, context, out)
}

fn push_remove(id: u32, out: &mut Vec<u8>) -> Result<(), OutOfMemory>
    ensures text { OnOk result (out.new.items ≡ out.old.items ++ payload_of (Command.Unsubscribe id)) }
    ensures reads_back { IsOfMessage (Command.Unsubscribe id) → OnOk result (ReadsBack (Command.Unsubscribe id)) }
{
    numbers_read_back();
    out.extend_from_slice(b"sremove ")?;
    push_decimal(id, out)
}

fn push_sent(id: u32, number: u32, out: &mut Vec<u8>) -> Result<(), OutOfMemory>
    ensures text { OnOk result (out.new.items ≡ out.old.items ++ payload_of (Command.NoticeSent id number)) }
    ensures reads_back { IsOfMessage (Command.NoticeSent id number) → OnOk result (ReadsBack (Command.NoticeSent id number)) }
{
    numbers_read_back();
    push_numbered(b"n", id, out)?;
    push_decimal(number, out)
}

fn push_payload(alloc: Global, command: &Command, out: &mut Vec<u8>) -> Result<(), OutOfMemory>
    ensures text { OnOk result (out.new.items ≡ out.old.items ++ payload_of command.now) }
    ensures bytes { OnOk result (containers_of command.now < length (payload_of command.now)) }
    ensures reads_back { IsOfMessage command.now → OnOk result (ReadsBack command.now) }
{
    match command {
        Command::Setup { setup } => push_setup(setup, out),
        Command::Charge { request } => push_charge(alloc, request, out),
        Command::Subscriber {
            supi,
            account,
            barred,
        } => push_subscriber(supi, account, barred.as_slice(), out),
        Command::TopUp {
            id,
            account,
            amount,
        } => push_top_up(id, account, *amount, out),
        Command::Expire { moment } => push_expiry(*moment, out),
        Command::CloseRecords { moment } => push_close(*moment, out),
        Command::Subscribe { context } => push_subscribe(alloc, context, out),
        Command::Modify { id, context } => push_modify(alloc, *id, context, out),
        Command::Unsubscribe { id } => push_remove(*id, out),
        Command::NoticeSent { id, number } => push_sent(*id, *number, out),
    }
}

/// The payload of a command. It has more bytes than the command has containers, and so one at least. A command of a message
/// in the ranges of its format reads back; that of a row does so by a law.
pub fn write_payload(alloc: Global, command: &Command) -> Result<List<u8>, OutOfMemory>
    ensures text { IfOk result (λ b. b ≡ payload_of command.now) }
    ensures bytes { IfOk result (λ b. containers_of command.now < length b) }
    ensures reads_back { IsOfMessage command.now → OnOk result (ReadsBack command.now) }
{
    let mut out = Vec::with_capacity(alloc, 256)?;
    push_payload(alloc, command, &mut out)?;
    Ok(List::from_vec(out))
}
