//! A list on a disk in memory by steps: entries, a fault, claims of another, and the list opened again.
ghost use Rattle.std.specs.Prelude.{◌≡◌, ◌<◌, ◌^◌, ℕ, List, IfOk, IfSome, true};
ghost use Rattle.durable.specs.Held.{IsHeld};

use crate::values::{long, small};
use durable::{DurableList, others_may_claim};
use edge::{Disk, MemDisk};
use journal::JournalRefusal;
use std::alloc::{AllocError, Global};
use units::{List as Entries, OutOfMemory};

// A refusal in a word.
fn refused(alloc: Global, refusal: JournalRefusal) -> Result<String, AllocError> {
    match refusal {
        JournalRefusal::Fault => String::from_str(alloc, "fault"),
        JournalRefusal::Fenced(epoch) => format!(in alloc; "fenced-{epoch}"),
        JournalRefusal::Full { len, need } => format!(in alloc; "full-{len}-{need}"),
        JournalRefusal::NotAJournal { at } => format!(in alloc; "no-journal-{at}"),
        JournalRefusal::EpochsSpent => String::from_str(alloc, "spent"),
        JournalRefusal::OutOfMemory => String::from_str(alloc, "memory"),
    }
}

// Entries with strokes between them, behind a word.
fn listed(alloc: Global, entries: &Entries<Entries<u8>>) -> Result<String, AllocError> {
    let mut text = String::from_str(alloc, "list")?;
    for entry in entries.iter() {
        text.push_str("/")?;
        text.push_str(std::str::from_utf8(entry.as_slice()).unwrap_or("?"))?;
    }
    Ok(text)
}

// Adds an entry, where the list is open and it is one.
fn append<D: Disk>(
    alloc: Global,
    held: &mut DurableList,
    disk: &mut D,
    entry: &[u8],
) -> Result<String, AllocError>
    requires held { (list : List (List ℕ)) × IsHeld held.old (D.content disk.old) (D.told_epoch disk.old) (D.is_image disk.old) list }
    ensures held { (list : List (List ℕ)) × IsHeld held.new (D.content disk.new) (D.told_epoch disk.new) (D.is_image disk.new) list }
{
    if !held.is_open() || entry.is_empty() || entry.len() > 1 << 24 {
        return String::from_str(alloc, "closed");
    }
    match held.append(disk, entry) {
        Ok(()) => String::from_str(alloc, "ok"),
        Err(refusal) => refused(alloc, refusal),
    }
}

// Opens the list again, where it is closed.
fn settle<D: Disk>(
    alloc: Global,
    held: &mut DurableList,
    disk: &mut D,
) -> Result<String, AllocError>
    requires held { (list : List (List ℕ)) × IsHeld held.old (D.content disk.old) (D.told_epoch disk.old) (D.is_image disk.old) list }
    ensures held { (list : List (List ℕ)) × IsHeld held.new (D.content disk.new) (D.told_epoch disk.new) (D.is_image disk.new) list }
{
    match held.settle(alloc, disk) {
        Ok(None) => String::from_str(alloc, "open"),
        Ok(Some(list)) => listed(alloc, &list),
        Err(refusal) => refused(alloc, refusal),
    }
}

// Whether the list owns its disk still.
fn show<D: Disk>(alloc: Global, held: &mut DurableList, disk: &mut D) -> Result<String, AllocError>
    requires held { (list : List (List ℕ)) × IsHeld held.old (D.content disk.old) (D.told_epoch disk.old) (D.is_image disk.old) list }
    ensures held { (list : List (List ℕ)) × IsHeld held.new (D.content disk.new) (D.told_epoch disk.new) (D.is_image disk.new) list }
{
    match held.show_own(disk) {
        Ok(()) => {
            let own = held.own();
            format!(in alloc; "own-{own}")
        }
        Err(refusal) => refused(alloc, refusal),
    }
}

// Another claims an epoch of the disk; whether it could.
fn claim<D: Disk>(held: &DurableList, disk: &mut D, epoch: u64) -> bool
    requires small { epoch < 2 ^ 63 }
    requires held { (list : List (List ℕ)) × IsHeld held.now (D.content disk.old) (D.told_epoch disk.old) (D.is_image disk.old) list }
    ensures held { result ≡ true → (list : List (List ℕ)) × IsHeld held.now (D.content disk.new) (D.told_epoch disk.new) (D.is_image disk.new) list }
{
    others_may_claim::<D>();
    match disk.claim(epoch) {
        Ok(()) => true,
        Err(_) => false,
    }
}

// The same in a word; nothing where it could not.
fn claimed<D: Disk>(
    alloc: Global,
    held: &DurableList,
    disk: &mut D,
    epoch: u64,
) -> Result<Option<String>, AllocError>
    requires small { epoch < 2 ^ 63 }
    requires held { (list : List (List ℕ)) × IsHeld held.now (D.content disk.old) (D.told_epoch disk.old) (D.is_image disk.old) list }
    ensures held { IfOk result (λ o. IfSome o (λ _. (list : List (List ℕ)) × IsHeld held.now (D.content disk.new) (D.told_epoch disk.new) (D.is_image disk.new) list)) }
{
    if claim(held, disk, epoch) {
        String::from_str(alloc, "claimed").map(Some)
    } else {
        Ok(None)
    }
}

// What a step comes to; nothing where another could not claim.
fn step<D: Disk>(
    alloc: Global,
    held: &mut DurableList,
    disk: &mut D,
    word: &str,
) -> Result<Option<String>, AllocError>
    requires held { (list : List (List ℕ)) × IsHeld held.old (D.content disk.old) (D.told_epoch disk.old) (D.is_image disk.old) list }
    ensures held { IfOk result (λ o. IfSome o (λ _. (list : List (List ℕ)) × IsHeld held.new (D.content disk.new) (D.told_epoch disk.new) (D.is_image disk.new) list)) }
{
    match word.split_once(':') {
        Some(("append", entry)) => append(alloc, held, disk, entry.as_bytes()).map(Some),
        Some((_, epoch)) => claimed(alloc, held, disk, long(epoch).min((1 << 63) - 1)),
        None if word == "settle" => settle(alloc, held, disk).map(Some),
        None => show(alloc, held, disk).map(Some),
    }
}

// What the steps come to, one word each.
fn steps<D: Disk>(
    alloc: Global,
    held: &mut DurableList,
    disk: &mut D,
    steps: &str,
) -> Result<String, AllocError>
    requires held { (list : List (List ℕ)) × IsHeld held.old (D.content disk.old) (D.told_epoch disk.old) (D.is_image disk.old) list }
{
    let mut told = String::new(alloc);
    for word in steps.split(' ') {
        let Some(word) = step(alloc, held, disk, word)? else {
            return Ok(told);
        };
        told.push_str(" ")?;
        told.push_str(word.as_str())?;
    }
    Ok(told)
}

/// What a list on a new disk answers to steps, where the disk's call of this number fails (0: none): the list that is opened
/// with a claim or without, and then a word for each step.
pub fn lists(
    alloc: Global,
    claims: &str,
    limit: &str,
    fails: &str,
    words: &str,
) -> Result<String, OutOfMemory> {
    let mut disk = MemDisk::new(alloc, 256)?;
    disk.fail_at(small(fails));
    let limit = small(limit).clamp(17, 1 << 30);
    match DurableList::open(alloc, &mut disk, claims == "claim", limit) {
        Ok((mut held, list)) => {
            let told = listed(alloc, &list)?;
            let rest = steps(alloc, &mut held, &mut disk, words)?;
            Ok(format!(in alloc; "{told}{rest}")?)
        }
        Err(refusal) => Ok(refused(alloc, refusal)?),
    }
}
