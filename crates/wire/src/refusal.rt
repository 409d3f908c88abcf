//! Why no message was read.
ghost use Rattle.std.specs.Prelude.{◌≡◌};
ghost use Rattle.wire.specs.declared.refusal.WireRefusal.TheVariants as refusal;

use std::alloc::AllocError;

/// Why no message was read (RFC 9112; the bounds are this product's own).
#[derive(Clone, Copy, PartialEq, Eq, Debug)]
pub enum WireRefusal {
    /// No more bytes make what was read a head, a Content-Length is wrong, or the connection was refused before (E8).
    BadHead,
    /// The head passes 16,384 bytes or 66 line feeds (`head`), or the body passes 1,048,576 bytes (E9).
    TooLong { head: bool },
    /// The head has a Transfer-Encoding (E10).
    Chunked,
    /// A read failed (E11).
    ReadFault,
    /// The input ended within a message, so many bytes into it (E13).
    CutShort { had: u64 },
    /// Memory was wanting.
    OutOfMemory,
}

impl From<AllocError> for WireRefusal {
    ghost from_gives = { λ _ e. e ≡ refusal.OutOfMemory };

    fn from(_error: AllocError) -> WireRefusal {
        WireRefusal::OutOfMemory
    }
}
