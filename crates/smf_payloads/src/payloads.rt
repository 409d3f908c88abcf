//! The payloads of events, read strictly.
ghost use Rattle.std.specs.Prelude.{◌≡◌, IfOk, IfSome, Some};
ghost use Rattle.smf_payloads.specs.Read.{event_in};
ghost use Rattle.smf_payloads.specs.Payloads.{IsOnly, IsPayload, PayloadsDiffer};

use crate::reading::event_in;
use crate::writing::write_payload;
use smf_model::SmfEvent;
use std::alloc::Global;
use units::OutOfMemory;

// The event that bytes give, where they are its payload.
fn strictly(alloc: Global, event: SmfEvent, bytes: &[u8]) -> Result<Option<SmfEvent>, OutOfMemory>
    requires { event_in bytes.now ≡ Some event }
    ensures found { IfOk result (λ o. IfSome o (λ e. IsPayload e bytes.now)) }
    ensures only { IfOk result (λ o. IsOnly o bytes.now) }
{
    let written = write_payload(alloc, &event)?;
    if written.as_slice() == bytes {
        Ok(Some(event))
    } else {
        Ok(None)
    }
}

/// The event whose payload the bytes are, byte for byte; `None` exactly where no event that reads back has them.
pub fn read_payload(alloc: Global, bytes: &[u8]) -> Result<Option<SmfEvent>, OutOfMemory>
    ensures found { IfOk result (λ o. IfSome o (λ e. IsPayload e bytes.now)) }
    ensures only { IfOk result (λ o. IsOnly o bytes.now) }
{
    match event_in(alloc, bytes)? {
        Some(event) => strictly(alloc, event, bytes),
        None => Ok(None),
    }
}

/// Two setups that read back have different payloads, and so have two events.
pub fn payloads_differ()
    ensures { PayloadsDiffer }
{}
