//! Spending limit contexts, written.
ghost use Rattle.std.specs.Prelude.{◌≡◌, ◌++◌, IfOk, OnOk, Ok};
ghost use Rattle.serde_json.specs.Written.{compact_text};
ghost use Rattle.json_objects.specs.Tokens.{tokens_of};
ghost use Rattle.spend_json.specs.Context.{context_in};
ghost use Rattle.spend_json.specs.ContextWritten.{context_data};
ghost use Rattle.spend_json.specs.Ranges.{FitsContext};

use json_objects::{ObjectWriter, put_texts, written_values_read_back};
use std::alloc::{AllocError, Global};
use units::{List, OutOfMemory, SpendContext};

fn put_context(out: &mut ObjectWriter, context: &SpendContext) -> Result<(), AllocError>
    ensures ok { OnOk result (out.new.tokens ≡ out.old.tokens ++ tokens_of (context_data context.now)) }
    ensures before { out.new.before ≡ out.old.before }
{
    out.begin_object()?;
    out.text("notifUri", context.notify.as_str())?;
    put_texts(out, "policyCounterIds", context.counters.as_slice())?;
    out.text("supi", context.supi.as_str())?;
    out.end_object()
}

/// A spending limit context as a body: compact, the keys ascending, no counter named left out. A context in the ranges of
/// its format reads back as the same context.
pub fn write_context(alloc: Global, context: &SpendContext) -> Result<List<u8>, OutOfMemory>
    ensures text { IfOk result (λ b. b ≡ compact_text (context_data context.now)) }
    ensures reads_back { FitsContext context.now → IfOk result (λ b. context_in b ≡ Ok context.now) }
{
    written_values_read_back();
    let mut writer = ObjectWriter::new(List::from_vec(Vec::with_capacity(alloc, 256)?));
    put_context(&mut writer, context)?;
    Ok(writer.into_bytes())
}
