//! The payload of a setup, both ways.
ghost use Rattle.std.specs.Prelude.{◌≡◌, ◌++◌, ◌<◌, IfOk, IfSome, OnOk, Some, length};
ghost use Rattle.smf_payloads.specs.Written.{setup_payload};
ghost use Rattle.smf_payloads.specs.Read.{row_setup, setup_in};
ghost use Rattle.smf_payloads.specs.Payloads.{IsOnlySetup, IsSetupPayload};

use row_texts::{push_field, push_numbers, row_in};
use smf_model::SmfSetup;
use smf_rows::read_smf_row;
use std::alloc::Global;
use units::{List, OutOfMemory, name_of_failover, name_of_handling};

fn push_setup(setup: &SmfSetup, out: &mut Vec<u8>) -> Result<(), OutOfMemory>
    ensures { OnOk result (out.new.items ≡ out.old.items ++ setup_payload setup.now) }
{
    out.extend_from_slice(b"csmf")?;
    push_field(setup.name.as_str(), out)?;
    push_field(name_of_failover(setup.failover), out)?;
    push_field(name_of_handling(setup.handling), out)?;
    push_numbers(
        &[
            u64::from(setup.retry),
            u64::from(setup.held_max),
            u64::from(setup.changes_max),
            setup.volume_limit,
            u64::from(setup.time_limit),
        ],
        out,
    )
}

/// The payload of a setup; it has a byte at least.
pub fn write_setup_payload(alloc: Global, setup: &SmfSetup) -> Result<List<u8>, OutOfMemory>
    ensures text { IfOk result (λ b. b ≡ setup_payload setup.now) }
    ensures bytes { IfOk result (λ b. 0 < length b) }
{
    let mut out = Vec::with_capacity(alloc, 128)?;
    push_setup(setup, &mut out)?;
    Ok(List::from_vec(out))
}

// The setup of a row.
fn row_setup(alloc: Global, text: &[u8]) -> Result<Option<SmfSetup>, OutOfMemory>
    ensures { IfOk result (λ o. o ≡ row_setup text.now) }
{
    match row_in(alloc, text)? {
        Some(row) => read_smf_row(row.as_slice()),
        None => Ok(None),
    }
}

// The setup that a payload gives, however it is spelled.
fn setup_in(alloc: Global, bytes: &[u8]) -> Result<Option<SmfSetup>, OutOfMemory>
    ensures { IfOk result (λ o. o ≡ setup_in bytes.now) }
{
    match bytes {
        [b'c', text @ ..] => row_setup(alloc, text),
        _ => Ok(None),
    }
}

// The setup that bytes give, where they are its payload.
fn strictly(alloc: Global, setup: SmfSetup, bytes: &[u8]) -> Result<Option<SmfSetup>, OutOfMemory>
    requires { setup_in bytes.now ≡ Some setup }
    ensures found { IfOk result (λ o. IfSome o (λ s. IsSetupPayload s bytes.now)) }
    ensures only { IfOk result (λ o. IsOnlySetup o bytes.now) }
{
    let written = write_setup_payload(alloc, &setup)?;
    if written.as_slice() == bytes {
        Ok(Some(setup))
    } else {
        Ok(None)
    }
}

/// The setup whose payload the bytes are, byte for byte; `None` exactly where no setup that reads back has them.
pub fn read_setup_payload(alloc: Global, bytes: &[u8]) -> Result<Option<SmfSetup>, OutOfMemory>
    ensures found { IfOk result (λ o. IfSome o (λ s. IsSetupPayload s bytes.now)) }
    ensures only { IfOk result (λ o. IsOnlySetup o bytes.now) }
{
    match setup_in(alloc, bytes)? {
        Some(setup) => strictly(alloc, setup, bytes),
        None => Ok(None),
    }
}
