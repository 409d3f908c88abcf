//! The problem details that refuse a request.
ghost use Rattle.std.specs.Prelude.{◌≡◌, IfOk};
ghost use Rattle.chf_core.specs.Standing.{problem, refusal_reply};

use crate::refusal::ChfRefusal;
use std::alloc::{AllocError, Global};
use units::{Cause, Problem, Reply, Text, name_of_cause};

/// Problem details that say a cause alone (TS 29.571, 5.2.4.1). It fails only for want of memory.
pub fn problem(alloc: Global, status: u16, cause: Cause) -> Result<Reply, AllocError>
    ensures { IfOk result (λ r. r ≡ problem status cause) }
{
    Ok(Reply::Refused {
        problem: Problem {
            status,
            cause: Text::from_text(alloc, name_of_cause(cause))?,
            detail: None,
        },
    })
}

/// The problem that refuses a charging data request (TS 32.291, 6.1.7; the causes are this product's own); `None` where
/// what is refused is an operator's command. It fails only for want of memory.
pub fn refusal_reply(alloc: Global, refusal: ChfRefusal) -> Result<Option<Reply>, AllocError>
    ensures { IfOk result (λ r. r ≡ refusal_reply refusal) }
{
    match refusal {
        ChfRefusal::WrongSupi => Ok(None),
        ChfRefusal::UnknownAccount => Ok(None),
        ChfRefusal::UnknownCounter => Ok(None),
        ChfRefusal::UnknownSubscription => Ok(None),
        ChfRefusal::UserUnknown => Ok(None),
        ChfRefusal::SessionExists => Ok(Some(problem(alloc, 403, Cause::SessionExists)?)),
        ChfRefusal::SessionClosed { .. } => Ok(Some(problem(alloc, 403, Cause::SessionClosed)?)),
        ChfRefusal::SequencePassed { .. } => Ok(Some(problem(alloc, 400, Cause::SequencePassed)?)),
        ChfRefusal::UnknownReference => Ok(Some(problem(alloc, 404, Cause::UnknownReference)?)),
        ChfRefusal::TopUpDiffers => Ok(None),
    }
}
