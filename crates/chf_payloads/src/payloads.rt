//! Payloads, read strictly.
ghost use Rattle.std.specs.Prelude.{◌≡◌, IfOk, IfSome, Some};
ghost use Rattle.chf_payloads.specs.Read.{command_in};
ghost use Rattle.chf_payloads.specs.Payloads.{IsOnly, IsPayload, PayloadsDiffer};

use crate::reading::command_in;
use crate::writing::write_payload;
use chf_core::Command;
use std::alloc::Global;
use units::OutOfMemory;

// The command that bytes give, where they are its payload.
fn strictly(alloc: Global, command: Command, bytes: &[u8]) -> Result<Option<Command>, OutOfMemory>
    requires { command_in bytes.now ≡ Some command }
    ensures found { IfOk result (λ o. IfSome o (λ c. IsPayload c bytes.now)) }
    ensures only { IfOk result (λ o. IsOnly o bytes.now) }
{
    let written = write_payload(alloc, &command)?;
    if written.as_slice() == bytes {
        Ok(Some(command))
    } else {
        Ok(None)
    }
}

/// The command whose payload the bytes are, byte for byte; `None` exactly where no command that reads back has them.
pub fn read_payload(alloc: Global, bytes: &[u8]) -> Result<Option<Command>, OutOfMemory>
    ensures found { IfOk result (λ o. IfSome o (λ c. IsPayload c bytes.now)) }
    ensures only { IfOk result (λ o. IsOnly o bytes.now) }
{
    match command_in(alloc, bytes)? {
        Some(command) => strictly(alloc, command, bytes),
        None => Ok(None),
    }
}

/// Two commands that read back have different payloads.
pub fn payloads_differ()
    ensures { PayloadsDiffer }
{}
