//! Spending limit statuses, written.
ghost use Rattle.std.specs.Prelude.{◌≡◌, ◌++◌, ◌∷◌, [], IfOk, IsTrue, OnOk, Ok, Some, codes};
ghost use Rattle.serde_json.specs.Written.{compact_text};
ghost use Rattle.json_objects.specs.Objects.{object_of};
ghost use Rattle.json_objects.specs.Tokens.{do_ascend, field_after, fields_after, tokens_of};
ghost use Rattle.spend_json.specs.Status.{status_in};
ghost use Rattle.spend_json.specs.StatusWritten.{info_field, infos_data, infos_fields, status_data};
ghost use Rattle.spend_json.specs.Ranges.{FitsStatus};

use json_objects::{ObjectWriter, written_values_read_back};
use std::alloc::{AllocError, Global};
use units::{CounterStatus, List, OutOfMemory, SpendStatus};

// The status of a counter under the counter's name.
fn put_info(out: &mut ObjectWriter, info: &CounterStatus) -> Result<(), AllocError>
    ensures ok { OnOk result (out.new.tokens ≡ fields_after out.old.tokens (info_field info.now ∷ [])) }
    ensures before { out.new.before ≡ out.old.before }
{
    out.name(info.counter.as_str())?;
    out.begin_object()?;
    out.text("currentStatus", info.status.as_str())?;
    out.text("policyCounterId", info.counter.as_str())?;
    out.end_object()
}

// The statuses of all, of which the names ascend.
fn put_infos(out: &mut ObjectWriter, infos: &[CounterStatus]) -> Result<(), AllocError>
    ensures ok { IsTrue (do_ascend (infos_fields infos.now)) → OnOk result (out.new.tokens ≡ field_after out.old.tokens (codes "statusInfos") (Some (infos_data infos.now))) }
    ensures before { out.new.before ≡ out.old.before }
{
    out.name("statusInfos")?;
    out.begin_object()?;
    for info in infos {
        put_info(out, info)?;
    }
    out.end_object()
}

fn put_status(out: &mut ObjectWriter, status: &SpendStatus) -> Result<(), AllocError>
    ensures ok { IsTrue (do_ascend (infos_fields status.now.infos)) → OnOk result (out.new.tokens ≡ out.old.tokens ++ tokens_of (status_data status.now)) }
    ensures before { out.new.before ≡ out.old.before }
{
    out.begin_object()?;
    put_infos(out, status.infos.as_slice())?;
    out.text("supi", status.supi.as_str())?;
    out.end_object()
}

/// A spending limit status as a body: compact, the keys ascending where its counters ascend by the bytes of their names, each
/// once; the members stand in the order of the counters. A status in the ranges of its format reads back as the same status.
pub fn write_status(alloc: Global, status: &SpendStatus) -> Result<List<u8>, OutOfMemory>
    ensures text { IsTrue (do_ascend (infos_fields status.now.infos)) → IfOk result (λ b. b ≡ compact_text (status_data status.now)) }
    ensures reads_back { FitsStatus status.now → IfOk result (λ b. status_in b ≡ Ok status.now) }
{
    written_values_read_back();
    let mut writer = ObjectWriter::new(List::from_vec(Vec::with_capacity(alloc, 256)?));
    put_status(&mut writer, status)?;
    Ok(writer.into_bytes())
}
