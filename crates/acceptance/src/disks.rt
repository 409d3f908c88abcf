//! Disks: the bytes of a journal on one in memory, and one over real files that is opened again and fenced.
ghost use Rattle.std.specs.Prelude.{◌<◌, ◌≤◌, ◌^◌};

use crate::values::{hexadecimal, small};
use edge::{Disk, DiskRefusal, FileDisk, MemDisk};
use journal::{Journal, JournalRefusal};
use std::alloc::{AllocError, Global};
use std::rt::Files;
use units::OutOfMemory;

/// How many folders are tried until one is new.
const TRIES: u32 = 16;

// What a new journal of this limit answers to a payload.
fn append<D: Disk>(
    alloc: Global,
    disk: &mut D,
    limit: u32,
    payload: &[u8],
) -> Result<String, AllocError>
    requires least { 17 ≤ limit }
    requires most { limit ≤ 2 ^ 30 }
{
    if payload.is_empty() || payload.len() > 1 << 24 {
        return String::from_str(alloc, "no payload");
    }
    match Journal::start(alloc, disk, false, limit) {
        Ok((mut journal, _)) => match journal.append(disk, payload) {
            Ok(()) => String::from_str(alloc, "appended"),
            Err(JournalRefusal::Full { len, need }) => format!(in alloc; "full {len} {need}"),
            Err(_) => String::from_str(alloc, "refused"),
        },
        Err(_) => String::from_str(alloc, "refused"),
    }
}

/// What a new journal of this limit answers to a payload, and the bytes on its disk.
pub fn journal(alloc: Global, limit: &str, payload: &str) -> Result<String, OutOfMemory> {
    let mut disk = MemDisk::new(alloc, 64)?;
    let limit = small(limit).clamp(17, 1 << 30);
    let told = append(alloc, &mut disk, limit, payload.as_bytes())?;
    let bytes = hexadecimal(alloc, disk.bytes())?;
    Ok(format!(in alloc; "{told} {bytes}")?)
}

// The word of a call's answer.
fn word(alloc: Global, answer: Result<(), DiskRefusal>) -> Result<String, AllocError> {
    match answer {
        Ok(()) => String::from_str(alloc, "done"),
        Err(DiskRefusal::Failed) => String::from_str(alloc, "failed"),
        Err(DiskRefusal::Fenced(seen)) => format!(in alloc; "fenced {seen}"),
    }
}

// What a claim, a write at the beginning and a sync under an epoch answer.
fn under<D: Disk>(alloc: Global, disk: &mut D, epoch: u64, text: &str) -> Result<String, AllocError>
    requires { epoch < 2 ^ 63 }
{
    let claimed = word(alloc, disk.claim(epoch))?;
    let written = word(alloc, disk.write(epoch, 0, text.as_bytes()))?;
    let synced = word(alloc, disk.sync(epoch))?;
    format!(in alloc; "{claimed} {written} {synced}; ")
}

// The epoch of a disk, its length, and the text that it begins with.
fn held<D: Disk>(alloc: Global, disk: &mut D) -> Result<String, AllocError> {
    let mut bytes = [0; 16];
    let epoch = disk.epoch().unwrap_or(0);
    let length = disk.length().unwrap_or(0);
    let count = disk.read(0, &mut bytes).unwrap_or(0).min(16);
    let text = std::str::from_utf8(&bytes[..count]).unwrap_or("?");
    format!(in alloc; "{epoch} {length} {text}; ")
}

// A disk that is claimed, written, synced and let go, opened again, and fenced by a second opening of a greater epoch.
fn use_file<R: Files + Drop + Copy>(
    files: R,
    alloc: Global,
    path: &str,
) -> Result<String, OutOfMemory> {
    let mut told = first_use(files, alloc, path)?;
    let mut disk = FileDisk::new(alloc, files, path)?;
    let mut other = FileDisk::new(alloc, files, path)?;
    told.push_str(held(alloc, &mut disk)?.as_str())?;
    told.push_str(under(alloc, &mut other, 8, "LATER")?.as_str())?;
    told.push_str(under(alloc, &mut disk, 7, "EARLIER")?.as_str())?;
    told.push_str(held(alloc, &mut disk)?.as_str())?;
    Ok(told)
}

// The first use of a file, at whose end the disk is let go.
fn first_use<R: Files + Drop + Copy>(
    files: R,
    alloc: Global,
    path: &str,
) -> Result<String, OutOfMemory> {
    let mut disk = FileDisk::new(alloc, files, path)?;
    Ok(under(alloc, &mut disk, 7, "CHARGING")?)
}

// A new folder in one that has this name with a slash; none where it can't be made.
fn new_folder<R: Files>(
    files: &R,
    alloc: Global,
    within: &str,
) -> Result<Option<String>, OutOfMemory> {
    for number in 0..TRIES {
        let folder = format!(in alloc; "{within}charging-disk-{number}")?;
        if files.create_dir(folder.as_str()).is_ok() {
            return Ok(Some(folder));
        }
    }
    Ok(None)
}

/// What a disk over a file of this name answers, in a new folder where the program runs, or where none can be made there among
/// the system's temporary files. The folder is taken away again.
pub fn file_disk<R: Files + Drop + Copy>(
    files: R,
    alloc: Global,
    name: &str,
) -> Result<String, OutOfMemory> {
    for within in ["", "/tmp/"] {
        if let Some(folder) = new_folder(&files, alloc, within)? {
            let folder_path = folder.as_str();
            let path = format!(in alloc; "{folder_path}/{name}")?;
            let told = use_file(files, alloc, path.as_str());
            let removed = files.remove_dir_all(alloc, folder_path).is_ok();
            let told = told?;
            return Ok(format!(in alloc; "{told}{removed}")?);
        }
    }
    Ok(String::from_str(alloc, "no folder")?)
}
