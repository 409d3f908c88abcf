//! The containers of a request, by rating group.
ghost use Rattle.std.specs.Prelude.{◌≡◌, ◌++◌, [], OnOk, IfOk};
ghost use Rattle.records.specs.Usage.{unit_usage, entry_place, with_group, with_entry, with_usage};
ghost use Rattle.records.specs.Groups.{AreApart};

use std::alloc::Global;
use units::{List, OutOfMemory, UnitUsage, Used, copy};

// Copies of containers go behind others.
fn append(list: &mut List<Used>, more: &[Used]) -> Result<(), OutOfMemory>
    ensures { OnOk result (list.new ≡ list.old ++ more.now) }
{
    for container in more {
        list.push(copy(container)?)?;
    }
    Ok(())
}

// The place of the first entry of a rating group.
fn place(entries: &[UnitUsage], group: u32) -> Option<usize>
    ensures { result ≡ entry_place entries.now group }
{
    for (at, entry) in entries.iter().enumerate() {
        if entry.group == group {
            return Some(at);
        }
    }
    None
}

// Copies of containers go into an entry, which asks for nothing.
fn grow(entry: &mut UnitUsage, more: &[Used]) -> Result<(), OutOfMemory>
    ensures { OnOk result (entry.new ≡ unit_usage entry.old.group (entry.old.used ++ more.now)) }
{
    entry.ask = None;
    append(&mut entry.used, more)
}

// Copies of containers go into the entry of their rating group, or into a new one.
fn join(entries: &mut Vec<UnitUsage>, entry: &UnitUsage) -> Result<(), OutOfMemory>
    ensures { OnOk result (entries.new.items ≡ with_group entries.old.items entry.now.group entry.now.used) }
{
    match place(entries, entry.group) {
        Some(at) => grow(&mut entries[at], entry.used.as_slice()),
        None => {
            entries.push(UnitUsage {
                group: entry.group,
                ask: None,
                used: copy(&entry.used)?,
            })?;
            Ok(())
        }
    }
}

// An entry without containers adds nothing.
fn put(entries: &mut Vec<UnitUsage>, entry: &UnitUsage) -> Result<(), OutOfMemory>
    ensures { OnOk result (entries.new.items ≡ with_entry entries.old.items entry.now) }
{
    if entry.used.len() == 0 {
        Ok(())
    } else {
        join(entries, entry)
    }
}

// The containers of all entries.
fn grouped(alloc: Global, usage: &[UnitUsage]) -> Result<List<UnitUsage>, OutOfMemory>
    ensures { IfOk result (λ l. l ≡ with_usage [] usage.now) }
{
    let mut entries = Vec::new(alloc);
    for entry in usage {
        put(&mut entries, entry)?;
    }
    Ok(List::from_vec(entries))
}

/// The containers of some entries as a record has them: an entry for each rating group that has one, in order of first
/// appearance. No group stands twice.
pub fn by_group(alloc: Global, usage: &[UnitUsage]) -> Result<List<UnitUsage>, OutOfMemory>
    ensures usage { IfOk result (λ l. l ≡ with_usage [] usage.now) }
    ensures apart { IfOk result AreApart }
{
    grouped(alloc, usage)
}
