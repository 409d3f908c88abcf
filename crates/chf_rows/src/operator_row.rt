//! The commands that an operator's rows give.
ghost use Rattle.std.specs.Prelude.{◌≡◌, false, IfOk, IfSome, option_map};
ghost use Rattle.chf_core.specs.After.{is_setup};
ghost use Rattle.chf_rows.specs.OperatorRow.{amount_of, close_of, command_in, command_of, expire_of, subscriber_of, topup_of};

use chf_core::Command;
use row_fields::{groups, moment, name, row_size};
use rows::wide_number;
use std::alloc::Global;
use units::{OutOfMemory, Text, copy};

fn subscriber(alloc: Global, fields: &[Text]) -> Result<Option<Command>, OutOfMemory>
    ensures value { IfOk result (λ o. o ≡ subscriber_of fields.now) }
    ensures later { IfOk result (λ o. IfSome o (λ c. is_setup c ≡ false)) }
{
    let [supi, account, barred] = fields else {
        return Ok(None);
    };
    let (Some(supi), Some(account)) = (name(supi), name(account)) else {
        return Ok(None);
    };
    match groups(alloc, barred.as_str().as_bytes())? {
        Some(barred) => Ok(Some(Command::Subscriber {
            supi: copy(supi)?,
            account: copy(account)?,
            barred,
        })),
        None => Ok(None),
    }
}

fn amount(field: &Text) -> Option<u128>
    ensures { result ≡ amount_of field.now }
{
    let amount = wide_number(1 << 80, field.as_str().as_bytes())?;
    if amount > 0 { Some(amount) } else { None }
}

fn topup(fields: &[Text]) -> Result<Option<Command>, OutOfMemory>
    ensures value { IfOk result (λ o. o ≡ topup_of fields.now) }
    ensures later { IfOk result (λ o. IfSome o (λ c. is_setup c ≡ false)) }
{
    let [id, account, sum] = fields else {
        return Ok(None);
    };
    match (name(id), name(account), amount(sum)) {
        (Some(id), Some(account), Some(amount)) => Ok(Some(Command::TopUp {
            id: copy(id)?,
            account: copy(account)?,
            amount,
        })),
        _ => Ok(None),
    }
}

fn expire(fields: &[Text]) -> Option<Command>
    ensures value { result ≡ expire_of fields.now }
    ensures later { IfSome result (λ c. is_setup c ≡ false) }
{
    match fields {
        [when] => Some(Command::Expire {
            moment: moment(when)?,
        }),
        _ => None,
    }
}

fn close(fields: &[Text]) -> Option<Command>
    ensures value { result ≡ close_of fields.now }
    ensures later { IfSome result (λ c. is_setup c ≡ false) }
{
    match fields {
        [when] => Some(Command::CloseRecords {
            moment: moment(when)?,
        }),
        _ => None,
    }
}

fn command_in(alloc: Global, fields: &[Text]) -> Result<Option<Command>, OutOfMemory>
    ensures value { IfOk result (λ o. o ≡ command_in fields.now) }
    ensures later { IfOk result (λ o. IfSome o (λ c. is_setup c ≡ false)) }
{
    match fields {
        [word, rest @ ..] if word.as_str() == "subscriber" => subscriber(alloc, rest),
        [word, rest @ ..] if word.as_str() == "topup" => topup(rest),
        [word, rest @ ..] if word.as_str() == "expire" => Ok(expire(rest)),
        [word, rest @ ..] if word.as_str() == "close" => Ok(close(rest)),
        _ => Ok(None),
    }
}

/// The most bytes of an operator's row, with a line feed.
const MOST_BYTES: usize = 1_048_577;

/// The command that an operator's row gives, `None` exactly where it is none. No row gives a setup.
pub fn read_operator_row(alloc: Global, fields: &[Text]) -> Result<Option<Command>, OutOfMemory>
    ensures value { IfOk result (λ o. o ≡ command_of fields.now) }
    ensures later { IfOk result (λ o. IfSome o (λ c. is_setup c ≡ false)) }
{
    if row_size(fields) <= MOST_BYTES {
        command_in(alloc, fields)
    } else {
        Ok(None)
    }
}
