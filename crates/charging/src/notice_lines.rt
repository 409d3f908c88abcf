//! The lines of the notices that were not sent, in the order of their subscriptions.
ghost use Rattle.std.specs.Prelude.{◌≡◌, ◌++◌, IfOk, OnOk, string_bytes};
ghost use Rattle.charging.specs.NoticeLines.{id_text, lines_of, notice_lines, status_line};

use chf_core::{Chf, Notice};
use std::alloc::{AllocError, Global};
use units::{CounterStatus, OutOfMemory};

fn id_text(alloc: Global, id: u32) -> Result<String, AllocError>
    ensures { IfOk result (λ t. string_bytes t ≡ id_text id) }
{
    format!(in alloc; "notice,{id},")
}

fn push_status(
    alloc: Global,
    id: u32,
    info: &CounterStatus,
    out: &mut Vec<u8>,
) -> Result<(), OutOfMemory>
    ensures { OnOk result (out.new.items ≡ out.old.items ++ status_line id info.now) }
{
    out.extend_from_slice(id_text(alloc, id)?.as_bytes())?;
    out.extend_from_slice(info.counter.as_str().as_bytes())?;
    out.extend_from_slice(b",")?;
    out.extend_from_slice(info.status.as_str().as_bytes())?;
    out.extend_from_slice(b"\n")?;
    Ok(())
}

fn push_notice(alloc: Global, notice: &Notice, out: &mut Vec<u8>) -> Result<(), OutOfMemory>
    ensures { OnOk result (out.new.items ≡ out.old.items ++ lines_of notice.now) }
{
    for info in notice.status.infos.as_slice() {
        push_status(alloc, notice.id, info, out)?;
    }
    Ok(())
}

/// Writes the notice lines.
pub fn push_notices(alloc: Global, chf: &Chf, out: &mut Vec<u8>) -> Result<(), OutOfMemory>
    ensures { OnOk result (out.new.items ≡ out.old.items ++ notice_lines chf.now.state) }
{
    for notice in chf.notices() {
        push_notice(alloc, notice, out)?;
    }
    Ok(())
}
