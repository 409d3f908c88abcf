//! How a run ends: its exit status and the last line that it prints.
ghost use Rattle.std.specs.Prelude.{◌≡◌, ◌⊎◌, IfOk, string_bytes};
ghost use Rattle.charging.specs.Status.{WritesText, code_of, error_line};

use edge::{Sink, write_all};
use std::alloc::{AllocError, Global};

/// How a run ends (this product's own).
#[derive(Clone, Copy, PartialEq, Eq, Debug)]
pub enum Status {
    /// 0: all was done.
    Ok,
    /// 1: the words are no command's.
    Usage,
    /// 2: this row, counted from 1, is the first that is not accepted.
    BadInput { row: u32 },
    /// 3: the input could not be read.
    ReadFault,
    /// 4: the output could not be written.
    WriteFault,
    /// 9: memory was wanting.
    OutOfMemory,
    /// 12: the input has more than 2^28 bytes.
    InputTooLong,
}

impl Status {
    /// The number that the program exits with.
    pub fn code(self) -> u8
        ensures { result ≡ code_of self }
    {
        match self {
            Status::Ok => 0,
            Status::Usage => 1,
            Status::BadInput { .. } => 2,
            Status::ReadFault => 3,
            Status::WriteFault => 4,
            Status::OutOfMemory => 9,
            Status::InputTooLong => 12,
        }
    }
}

fn bad_input(alloc: Global, row: u32) -> Result<String, AllocError>
    ensures { IfOk result (λ text. string_bytes text ≡ error_line (Status.BadInput row)) }
{
    format!(in alloc; "error: bad input at row {row}\n")
}

// The last line of a status.
fn last_line(alloc: Global, status: Status) -> Result<String, AllocError>
    ensures { IfOk result (λ text. string_bytes text ≡ error_line status) }
{
    match status {
        Status::Ok | Status::WriteFault => Ok(String::new(alloc)),
        Status::Usage => String::from_str(alloc, "error: usage\n"),
        Status::BadInput { row } => bad_input(alloc, row),
        Status::ReadFault => String::from_str(alloc, "error: read fault\n"),
        Status::OutOfMemory => String::from_str(alloc, "error: out of memory\n"),
        Status::InputTooLong => String::from_str(alloc, "error: input too long\n"),
    }
}

// Writes a text, whether or not the sink takes all of it.
#[tactic(auto, using(crate::proofs::Texts::texts))]
fn put<K: Sink>(output: &mut K, text: &[u8])
    ensures { WritesText text.now (K.written output.old) (K.written output.new) (K.faults output.old) (K.faults output.new) }
{
    let _ = write_all(output, text);
}

/// Prints the last line of a status, which stays unless memory is wanting.
pub fn ended<K: Sink>(alloc: Global, output: &mut K, status: Status) -> Status
    ensures status { (result ≡ status) ⊎ (result ≡ Status.OutOfMemory) }
    ensures line { WritesText (error_line result) (K.written output.old) (K.written output.new) (K.faults output.old) (K.faults output.new) }
{
    match last_line(alloc, status) {
        Ok(text) => {
            put(output, text.as_bytes());
            status
        }
        Err(_) => {
            put(output, b"error: out of memory\n");
            Status::OutOfMemory
        }
    }
}
