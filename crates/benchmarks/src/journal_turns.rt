//! Turns of a journal: on a real file for the bench and the crash test, and in memory for the table of stops.
ghost use Rattle.std.specs.Prelude.{◌≡◌, ◌≤◌, ℕ, List as Listed, length, IfOk, IsTrue};
ghost use Rattle.journal.specs.Lists.{IsTied};

use edge::{Disk, FileDisk, MemDisk};
use journal::{Journal, view};
use std::alloc::Global;
use std::io;
use units::{List, OutOfMemory};

const PATH: &str = "turns.chj";

const LIMIT: u32 = 1 << 30;

// Puts the number of an entry into its first eight bytes.
fn name(entry: &mut [u8], number: u64) {
    for (byte, digit) in entry.iter_mut().zip(number.to_be_bytes()) {
        *byte = digit;
    }
}

// The number of an entry, where it has one.
fn number_of(entry: &[u8]) -> Option<u64> {
    match entry {
        [a, b, c, d, e, f, g, h, ..] => Some(u64::from_be_bytes([*a, *b, *c, *d, *e, *f, *g, *h])),
        _ => None,
    }
}

// So many zeros.
fn zeros(alloc: Global, count: usize) -> Result<Vec<u8>, OutOfMemory>
    ensures { IfOk result (λ v. length v.items ≡ count) }
{
    Ok(vec![in alloc; 0; count]?)
}

// Appends numbered entries until one fails; answers how many are durable, and prints the number of each once it is.
fn append_all<D: Disk>(
    rt: &HostRuntime,
    journal: &mut Journal,
    disk: &mut D,
    entry: &mut [u8],
    first: u64,
    count: u64,
    prints: bool,
) -> io::Result<u64>
    requires some { 1 ≤ length entry.old }
    requires most { length entry.old ≤ 1000000 }
    requires sound { IsTrue journal.old.is_sound }
    requires tied { (list : Listed (Listed ℕ)) × IsTied journal.old (D.content disk.old) (D.told_epoch disk.old) (D.is_image disk.old) list }
{
    for turn in 0..count {
        let number = first.wrapping_add(turn);
        name(entry, number);
        match journal.append(disk, entry) {
            Ok(()) => {}
            Err(_) => return Ok(turn),
        }
        if prints {
            println!(rt; "{number}")?;
        }
    }
    Ok(count)
}

/// Starts the journal of a disk and appends that many entries of that size; answers how many are durable.
fn append_to<D: Disk>(
    rt: &HostRuntime,
    disk: &mut D,
    count: u64,
    size: u64,
    prints: bool,
) -> io::Result<Option<u64>> {
    let alloc = rt.alloc();
    let Ok(mut entry) = zeros(alloc, size.clamp(8, 1_000_000) as usize) else {
        return Ok(None);
    };
    match Journal::start(alloc, disk, true, LIMIT) {
        Ok((mut journal, list)) => {
            let first = (list.len() as u64).wrapping_add(1);
            append_all(rt, &mut journal, disk, &mut entry, first, count, prints).map(Some)
        }
        Err(_) => Ok(None),
    }
}

/// Appends to the journal in this folder.
pub fn append_to_file(
    rt: &HostRuntime,
    count: u64,
    size: u64,
    prints: bool,
) -> io::Result<Option<u64>> {
    match FileDisk::new(rt.alloc(), rt, PATH) {
        Ok(mut disk) => append_to(rt, &mut disk, count, size, prints),
        Err(OutOfMemory) => Ok(None),
    }
}

/// How many bytes the payloads of the journal in this folder have; prints the number of each where it is to.
pub fn list_of_file(rt: &HostRuntime, prints: bool) -> io::Result<Option<u64>> {
    match FileDisk::new(rt.alloc(), rt, PATH) {
        Ok(mut disk) => match view(rt.alloc(), &mut disk) {
            Ok(list) => print_list(rt, &list, prints).map(Some),
            Err(_) => Ok(None),
        },
        Err(OutOfMemory) => Ok(None),
    }
}

// Prints the numbers of these entries, and answers how many bytes they have.
fn print_list(rt: &HostRuntime, list: &List<List<u8>>, prints: bool) -> io::Result<u64> {
    let mut sum = 0u64;
    for entry in list.iter() {
        sum = sum.wrapping_add(entry.len() as u64);
        if prints {
            let number = number_of(entry.as_slice()).unwrap_or(0);
            println!(rt; "{number}")?;
        }
    }
    Ok(sum)
}

// What a stop leaves, by its number in the table.
fn fill_at(place: u64) -> &'static [u8]
    ensures { length result.now ≤ 16 }
{
    match place {
        0 => &[],
        1 => &[0],
        2 => &[1],
        3 => &[255],
        4 => &[1, 0],
        _ => b"CHARGING-JRNL-1\n",
    }
}

/// A start, three appends and a start again on a disk that stops at that call and leaves that fill: how many entries were
/// durable, and the number of each that is read afterwards.
pub fn print_stop(rt: &HostRuntime, call: u32, place: u64) -> io::Result<Option<u64>> {
    match MemDisk::new(rt.alloc(), 256) {
        Ok(mut disk) => {
            disk.stop_at(call, fill_at(place));
            let done = append_to(rt, &mut disk, 3, 8, false)?.unwrap_or(0);
            append_to(rt, &mut disk, 0, 8, false)?;
            disk.resume();
            println!(rt; "durable {done}")?;
            match view(rt.alloc(), &mut disk) {
                Ok(list) => print_list(rt, &list, true).map(Some),
                Err(_) => Ok(None),
            }
        }
        Err(OutOfMemory) => Ok(None),
    }
}
