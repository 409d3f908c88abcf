//! What the charging function answers on each item of an input.
ghost use Rattle.std.specs.Prelude.{◌≡◌, ◌++◌, ◌==◌, false, IfOk, OnOk, codes};
ghost use Rattle.std.specs.Fmt.{decimal};
ghost use Rattle.chf_core.specs.State.{nothing_yet};
ghost use Rattle.chf_core.specs.Deciding.{decision};
ghost use Rattle.chf_core.specs.After.{after, is_setup};
ghost use Rattle.chf_core.specs.declared.command.Command.TheVariants.{Setup};
ghost use Rattle.charging.specs.AccountLines.{account_lines};
ghost use Rattle.charging.specs.NoticeLines.{notice_lines};
ghost use Rattle.charging.specs.Answering.{after_command, after_item, command_line, line_of, message_line, printed, refusal_number, verdict_line};
ghost use Rattle.chf_messages.specs.Answering.{after_message, decided, message_response};
ghost use Rattle.chf_messages.specs.Routing.{command_at};
ghost use Rattle.chf_rows.specs.OperatorRow.{command_of};

use crate::account_lines::push_accounts;
use crate::item::Item;
use crate::items::Items;
use crate::notice_lines::push_notices;
use crate::responses::{push_number, push_response};
use chf_core::{Chf, ChfRefusal, ChfSetup, Command, Decision};
use chf_messages::{Method, answer_message};
use chf_rows::read_operator_row;
use routes::Routes;
use std::alloc::Global;
use units::{OutOfMemory, Text};

/// The number of a refusal.
fn refusal_number(refusal: ChfRefusal) -> u16
    ensures { result ≡ refusal_number refusal }
{
    match refusal {
        ChfRefusal::WrongSupi => 7,
        ChfRefusal::UnknownAccount => 15,
        ChfRefusal::UnknownCounter => 22,
        ChfRefusal::UnknownSubscription => 23,
        ChfRefusal::UserUnknown => 27,
        ChfRefusal::SessionExists => 28,
        ChfRefusal::SessionClosed { .. } => 29,
        ChfRefusal::SequencePassed { .. } => 30,
        ChfRefusal::UnknownReference => 31,
        ChfRefusal::TopUpDiffers => 36,
    }
}

fn push_refused(alloc: Global, number: u16, out: &mut Vec<u8>) -> Result<(), OutOfMemory>
    ensures { OnOk result (out.new.items ≡ out.old.items ++ (codes "refused,E" ++ (decimal number ++ codes "\n"))) }
{
    out.extend_from_slice(b"refused,E")?;
    push_number(alloc, number, out)?;
    out.extend_from_slice(b"\n")?;
    Ok(())
}

// Gives the command of an operator's row to the machine.
fn push_command(
    alloc: Global,
    chf: &mut Chf,
    command: &Command,
    out: &mut Vec<u8>,
) -> Result<(), OutOfMemory>
    requires begun { (chf.old.state.count == 0) ≡ false }
    requires later { is_setup command.now ≡ false }
    ensures line { OnOk result (out.new.items ≡ out.old.items ++ verdict_line (decision chf.old.state command.now)) }
    ensures state { OnOk result (chf.new.state ≡ decided chf.old.state command.now (decision chf.old.state command.now)) }
{
    match chf.decide(alloc, command)? {
        Decision::Kept(_) => out.extend_from_slice(b"known\n")?,
        Decision::Known => out.extend_from_slice(b"known\n")?,
        Decision::Refused(refusal) => push_refused(alloc, refusal_number(refusal), out)?,
        Decision::Fresh(plan) => {
            out.extend_from_slice(b"ok\n")?;
            chf.commit(plan);
        }
    }
    Ok(())
}

fn push_message(
    alloc: Global,
    routes: &Routes,
    chf: &mut Chf,
    method: Method,
    path: &Text,
    body: &[u8],
    out: &mut Vec<u8>,
) -> Result<(), OutOfMemory>
    requires { (chf.old.state.count == 0) ≡ false }
    ensures line { OnOk result (out.new.items ≡ out.old.items ++ message_line (message_response chf.old.state (command_at method path.now body.now))) }
    ensures state { OnOk result (chf.new.state ≡ after_message chf.old.state (command_at method path.now body.now)) }
{
    match answer_message(alloc, routes, chf, method, path, body)? {
        Some(response) => push_response(alloc, &response, out),
        None => Ok(()),
    }
}

fn push_row(
    alloc: Global,
    chf: &mut Chf,
    fields: &[Text],
    out: &mut Vec<u8>,
) -> Result<(), OutOfMemory>
    requires { (chf.old.state.count == 0) ≡ false }
    ensures line { OnOk result (out.new.items ≡ out.old.items ++ command_line chf.old.state (command_of fields.now)) }
    ensures state { OnOk result (chf.new.state ≡ after_command chf.old.state (command_of fields.now)) }
{
    match read_operator_row(alloc, fields)? {
        Some(command) => push_command(alloc, chf, &command, out),
        None => Ok(()),
    }
}

// Answers an item.
fn push_item(
    alloc: Global,
    routes: &Routes,
    chf: &mut Chf,
    item: &Item,
    out: &mut Vec<u8>,
) -> Result<(), OutOfMemory>
    requires { (chf.old.state.count == 0) ≡ false }
    ensures line { OnOk result (out.new.items ≡ out.old.items ++ line_of chf.old.state item.now) }
    ensures state { OnOk result (chf.new.state ≡ after_item chf.old.state item.now) }
{
    match item {
        Item::Blank => Ok(()),
        Item::Row { fields } => push_row(alloc, chf, fields.as_slice(), out),
        Item::Message { method, path, body } => {
            push_message(alloc, routes, chf, *method, path, body.as_slice(), out)
        }
        Item::Bad => Ok(()),
    }
}

// A machine that is set up.
fn set_up(alloc: Global, setup: ChfSetup) -> Result<Chf, OutOfMemory>
    ensures { IfOk result (λ chf. chf.state ≡ after nothing_yet (Setup setup)) }
{
    let mut chf = Chf::new(alloc);
    match chf.decide(alloc, &Command::Setup { setup })? {
        Decision::Fresh(plan) => {
            chf.commit(plan);
            Ok(chf)
        }
        _ => unreachable!(),
    }
}

/// What a run over these items prints that begins with a setup.
pub fn printed<I: Items>(alloc: Global, setup: ChfSetup, items: &I) -> Result<Vec<u8>, OutOfMemory>
    ensures { IfOk result (λ out. out.items ≡ printed (after nothing_yet (Setup setup)) (I.all items.now)) }
{
    let mut out = Vec::new(alloc);
    let routes = Routes::new(alloc)?;
    let mut chf = set_up(alloc, setup)?;
    push_items(alloc, &routes, &mut chf, &mut items.again(alloc), &mut out)?;
    Ok(out)
}

// Prints the accounts, then the notices that were not sent.
fn push_end(alloc: Global, chf: &Chf, out: &mut Vec<u8>) -> Result<(), OutOfMemory>
    ensures { OnOk result (out.new.items ≡ out.old.items ++ (account_lines chf.now.state ++ notice_lines chf.now.state)) }
{
    push_accounts(alloc, chf, out)?;
    push_notices(alloc, chf, out)
}

// Answers the items that are left, then prints the accounts and the notices.
fn push_items<I: Items>(
    alloc: Global,
    routes: &Routes,
    chf: &mut Chf,
    items: &mut I,
    out: &mut Vec<u8>,
) -> Result<(), OutOfMemory>
    requires begun { (chf.old.state.count == 0) ≡ false }
    requires sound { I.is_sound items.old }
    ensures { OnOk result (out.new.items ≡ out.old.items ++ printed chf.old.state (I.left items.old)) }
{
    loop {
        match items.take(alloc)? {
            None => return push_end(alloc, chf, out),
            Some(item) => push_item(alloc, routes, chf, &item, out)?,
        }
    }
}
