//! The top call: from the words of the command line, an input and an output to a status.
ghost use Rattle.std.specs.Prelude.{◌≡◌, ◌≢◌, ◌≤◌, ◌<◌, ◌^◌, ◌⊎◌, List, ℕ, None, Some, Ok, Err, take, IfOk, IfErr, OnOk, IfSome, string_bytes, length};
ghost use Rattle.std.specs.Io.KnownBytes.{Appends, IsAtEnd};
ghost use Rattle.edge.specs.Faults.{CountRose};
ghost use Rattle.charging.specs.declared.words.Task.{Task};
ghost use Rattle.charging.specs.Words.{AreInRange, IsInRange, task_of};
ghost use Rattle.charging.specs.Accepted.{outcome};
ghost use Rattle.charging.specs.Tasks.{Accepts, IsPrinted, IsTable, Prints, Reads, Refuses};
ghost use Rattle.charging.specs.Status.{EndedBy, ReadsToEnd, WritesText, error_line};

use crate::accepted::read_items;
use crate::answering::printed;
use crate::items::Items;
use crate::line_items::LineItems;
use crate::lines::table;
use crate::meter_rows::{RowsEnd, meter_rows};
use crate::row_items::RowItems;
use crate::status::{Status, ended};
use crate::words::{Prices, Task, read_task};
use edge::{Counted, ReadEnd, Sink, Source, Stream, read_all, write_all};
use meter::Meter;
use std::alloc::Global;
use units::{List, Text};

/// The most bytes that an input has.
const INPUT_LIMIT: usize = 1 << 28;

// The table of an input that was read.
#[tactic(auto, using(crate::proofs::Tables::tables))]
fn table_of_bytes(alloc: Global, prices: &Prices, bytes: &[u8]) -> Result<String, Status>
    requires range { AreInRange prices.now }
    requires within { length bytes.now ≤ 2 ^ 28 }
    ensures ok { IfOk result (λ text. IsTable prices.now bytes.now (string_bytes text)) }
    ensures err { IfErr result (λ status. (status ≡ Status.OutOfMemory) ⊎ ((row : ℕ) × (status ≡ Status.BadInput row) × Reads bytes.now (Err row))) }
{
    let mut meter = Meter::new(alloc);
    match meter_rows(alloc, &mut meter, bytes) {
        Ok(()) => {}
        Err(RowsEnd::Bad { row }) => return Err(Status::BadInput { row }),
        Err(RowsEnd::OutOfMemory) => return Err(Status::OutOfMemory),
    }
    match table(alloc, prices, meter.containers()) {
        Ok(text) => Ok(text),
        Err(_) => Err(Status::OutOfMemory),
    }
}

// What a run over items prints.
fn run_of_items<I: Items>(alloc: Global, items: &I) -> Result<Vec<u8>, Status>
    ensures ok { IfOk result (λ out. IsPrinted (I.all items.now) out.items) }
    ensures err { IfErr result (λ status. (status ≡ Status.OutOfMemory) ⊎ ((row : ℕ) × (status ≡ Status.BadInput row) × (outcome (I.all items.now) ≡ Err row))) }
{
    match read_items(alloc, items) {
        Ok(setup) => match printed(alloc, setup, items) {
            Ok(out) => Ok(out),
            Err(_) => Err(Status::OutOfMemory),
        },
        Err(RowsEnd::Bad { row }) => Err(Status::BadInput { row }),
        Err(RowsEnd::OutOfMemory) => Err(Status::OutOfMemory),
    }
}

// What a command prints on an input that was read.
fn output_of_bytes(alloc: Global, task: &Task, bytes: &[u8]) -> Result<Vec<u8>, Status>
    requires range { IsInRange task.now }
    requires within { length bytes.now ≤ 2 ^ 28 }
    ensures ok { IfOk result (λ out. Prints task.now bytes.now out.items) }
    ensures err { IfErr result (λ status. (status ≡ Status.OutOfMemory) ⊎ ((row : ℕ) × (status ≡ Status.BadInput row) × Refuses task.now bytes.now row)) }
{
    match task {
        Task::Meter { prices } => Ok(table_of_bytes(alloc, prices, bytes)?.into_bytes()),
        Task::Operator => run_of_items(alloc, &RowItems::of(alloc, bytes)),
        Task::Answer => run_of_items(alloc, &LineItems::of(bytes)),
    }
}

// What a command prints on an input.
fn output_of_input<S: Source>(alloc: Global, task: &Task, input: &mut S) -> Result<Vec<u8>, Status>
    requires { IsInRange task.now }
    ensures ok { IfOk result (λ out. IfSome (S.left input.old) (λ bytes. Prints task.now bytes out.items)) }
    ensures end { OnOk result (IsAtEnd (S.left input.new)) }
    ensures bad_end { IfErr result (λ status. ReadsToEnd status → IsAtEnd (S.left input.new)) }
    ensures err { IfErr result (λ status. EndedBy task.now status (S.left input.old) (S.faults input.old) (S.faults input.new)) }
{
    match read_all(alloc, input, INPUT_LIMIT) {
        Ok(bytes) => output_of_bytes(alloc, task, bytes.as_slice()),
        Err(ReadEnd::Failed) => Err(Status::ReadFault),
        Err(ReadEnd::TooLong) => Err(Status::InputTooLong),
        Err(ReadEnd::OutOfMemory) => Err(Status::OutOfMemory),
    }
}

/// Does all that the program does: takes the words of the command line, the input and the output, and answers the status.
pub fn charging<S: Source, K: Sink>(
    alloc: Global,
    words: &List<Text>,
    input: &mut S,
    output: &mut K,
) -> Status
    // Usage comes exactly by the words, and then nothing is read.
    ensures usage { (result ≡ Status.Usage) → (task_of words.now ≡ None) }
    ensures no_command { (task_of words.now ≡ None) → (result ≡ Status.Usage) ⊎ (result ≡ Status.OutOfMemory) }
    ensures unread { (task_of words.now ≡ None) → input.new ≡ input.old }

    // At Ok, BadInput and WriteFault the input was read to its end; at Ok what the command prints is written.
    ensures end { ReadsToEnd result → IsAtEnd (S.left input.new) }
    ensures ok { (result ≡ Status.Ok) → IfSome (task_of words.now) (λ task. IfSome (S.left input.old) (λ bytes.
        (text : List ℕ) × Prints task bytes text × Appends (K.written output.old) (K.written output.new) text)) }

    // Each other status has its cause. At WriteFault a part of what the command prints is written, and not the whole.
    ensures bad_input { (row : ℕ) → (result ≡ Status.BadInput row) → IfSome (task_of words.now) (λ task. IfSome (S.left input.old) (λ bytes. Refuses task bytes row)) }
    ensures read_fault { (result ≡ Status.ReadFault) → CountRose (S.faults input.old) (S.faults input.new) }
    ensures too_long { (result ≡ Status.InputTooLong) → IfSome (S.left input.old) (λ bytes. 2 ^ 28 < length bytes) }
    ensures write_fault { (result ≡ Status.WriteFault) → CountRose (K.faults output.old) (K.faults output.new) }
    ensures part { (result ≡ Status.WriteFault) → IfSome (task_of words.now) (λ task. IfSome (S.left input.old) (λ bytes.
        (text : List ℕ) × Prints task bytes text × (n : ℕ) × (n < length text) × Appends (K.written output.old) (K.written output.new) (take n text))) }

    // Every status but Ok and WriteFault prints its line alone.
    ensures line { (result ≢ Status.Ok) → (result ≢ Status.WriteFault) →
        WritesText (error_line result) (K.written output.old) (K.written output.new) (K.faults output.old) (K.faults output.new) }

    // Where the words are accepted and no read failed, the input decides, but for want of memory and faults of the output.
    ensures accepted { (task : Task) (bytes : List ℕ) → task_of words.now ≡ Some task → S.left input.old ≡ Some bytes → Accepts task bytes
        → ¬ CountRose (S.faults input.old) (S.faults input.new) → ¬ CountRose (K.faults output.old) (K.faults output.new)
        → (result ≡ Status.Ok) ⊎ (result ≡ Status.OutOfMemory) }
    ensures refused { (task : Task) (bytes : List ℕ) (row : ℕ) → task_of words.now ≡ Some task → S.left input.old ≡ Some bytes → Refuses task bytes row
        → ¬ CountRose (S.faults input.old) (S.faults input.new)
        → (result ≡ Status.BadInput row) ⊎ (result ≡ Status.OutOfMemory) }
    ensures overlong { (bytes : List ℕ) → (task_of words.now ≢ None) → S.left input.old ≡ Some bytes → 2 ^ 28 < length bytes
        → ¬ CountRose (S.faults input.old) (S.faults input.new)
        → (result ≡ Status.InputTooLong) ⊎ (result ≡ Status.OutOfMemory) }
{
    match read_task(alloc, words.as_slice()) {
        Ok(Some(task)) => match output_of_input(alloc, &task, input) {
            Ok(out) => match write_all(output, &out) {
                Ok(()) => Status::Ok,
                Err(_) => Status::WriteFault,
            },
            Err(status) => ended(alloc, output, status),
        },
        Ok(None) => ended(alloc, output, Status::Usage),
        Err(_) => ended(alloc, output, Status::OutOfMemory),
    }
}
