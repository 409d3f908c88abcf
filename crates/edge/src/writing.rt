//! All bytes written to a sink.
ghost use Rattle.std.specs.Prelude.{◌≡◌, ◌<◌, length, take, ℕ, true, false, OnOk, OnErr, option_map};
ghost use Rattle.std.specs.Io.KnownBytes.{Appends};
ghost use Rattle.edge.specs.Faults.{FailsOnlyWithFault};
ghost use Rattle.edge.specs.Connections.{after_write};

use crate::traits::{Counted, Failed, Sink, Stream};

/// Writes all the bytes. `Failed` comes only with a fault of the sink in this call, and then a part from the front was
/// written, shorter than the bytes.
#[tactic(auto, using(crate::proofs::Known::known))]
pub fn write_all<K: Sink>(sink: &mut K, bytes: &[u8]) -> Result<(), Failed>
    ensures ok { OnOk result (Appends (K.written sink.old) (K.written sink.new) bytes.now) }
    ensures part { OnErr result ((n : ℕ) × (n < length bytes.now) × Appends (K.written sink.old) (K.written sink.new) (take n bytes.now)
        × (K.connections sink.new ≡ option_map (after_write (take n bytes.now) true) (K.connections sink.old))) }
    ensures cause { FailsOnlyWithFault (K.faults sink.old) (K.faults sink.new) result }
    ensures left { K.left sink.new ≡ K.left sink.old }
    ensures connections { OnOk result (K.connections sink.new ≡ option_map (after_write bytes.now false) (K.connections sink.old)) }
    ensures openings { K.openings sink.new ≡ K.openings sink.old }
    ensures failed_openings { K.failed_openings sink.new ≡ K.failed_openings sink.old }
{
    let mut done = 0;
    while done < bytes.len() {
        done += sink.write(&bytes[done..])?;
    }
    Ok(())
}
