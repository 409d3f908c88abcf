//! A disk over a file, with its epoch in a file beside it. It tells nothing of content: what a real file holds, and that
//! its sync reaches the medium, is believed.
ghost use Rattle.std.specs.Prelude.{◌≡◌, ◌<◌, ◌≤◌, length, IfOk, IfSome, OnErr, Some, None};
ghost use Rattle.edge.specs.Faults.{CountRose};
ghost use Rattle.edge.specs.StoredImages.{none_told};

use crate::disk::{Disk, DiskRefusal};
use crate::epoch_file::{EpochFile, sync_folder};
use crate::traits::{Counted, Failed};
use std::alloc::{AllocError, Global};
use std::fs::{OpenFile, OpenOptions};
use std::io::{Read, Seek, SeekFrom, Write};
use std::rt::Files;
use units::OutOfMemory;

/// A file of the system whose name ends in `.chj`, and the count of faults (this product's own).
///
/// Its epoch stands in a file beside it with `.epoch` added, as decimal digits and a line feed; no such file is epoch 0.
/// Two processes at one path are kept apart by that epoch alone.
#[derive(Drop)]
pub struct FileDisk<R: Files + Drop> {
    files: R,
    bytes: Option<R::File>,
    epoch: EpochFile<R>,
    count: u64,
}

impl<R: Files + Drop> FileDisk<R> {
    ghost use Rattle.edge.specs.FileDisks.{disk_faults};

    /// Opens the file, which is made where there is none; each call is a fault where that failed.
    pub fn new(alloc: Global, files: R, path: &str) -> Result<FileDisk<R>, OutOfMemory>
        ensures { IfOk result (λ d. disk_faults d ≡ 0) }
    {
        let folder = folder_of(alloc, path)?;
        let bytes = opened(&files, path, folder.as_str());
        let epoch = EpochFile::new(alloc, path, folder)?;
        Ok(FileDisk {
            files,
            bytes,
            epoch,
            count: 0,
        })
    }
}

// The folder of a path.
fn folder_of(alloc: Global, path: &str) -> Result<String, AllocError> {
    match path.rsplit_once('/') {
        Some((folder, _)) => format!(in alloc; "{folder}/"),
        None => format!(in alloc; "./"),
    }
}

// The file, with its folder on the disk too where it was made.
fn opened<R: Files>(files: &R, path: &str, folder: &str) -> Option<R::File> {
    if !path.ends_with(".chj") {
        return None;
    }
    let mut how = OpenOptions::new();
    how.read(true).write(true);
    if let Ok(file) = how.open(files, path) {
        return Some(file);
    }
    how.create(true);
    let file = how.open(files, path).ok()?;
    file.sync_all().ok()?;
    sync_folder(files, folder)?;
    Some(file)
}

// Reads from a place until the buffer is full or the file ends.
fn read_at<F: Read + Seek>(file: &mut F, at: u64, into: &mut [u8]) -> Option<usize>
    ensures { IfSome result (λ n. n ≤ length into.old) }
{
    file.seek(SeekFrom::Start(at)).ok()?;
    let mut done = 0;
    for _ in 0..u64::MAX {
        if done >= into.len() {
            break;
        }
        let n = file.read(&mut into[done..]).ok()?;
        if n == 0 {
            break;
        }
        done += n;
    }
    Some(done)
}

// Writes all the bytes at a place.
fn write_at<F: Write + Seek>(file: &mut F, at: u64, bytes: &[u8]) -> Option<()> {
    file.seek(SeekFrom::Start(at)).ok()?;
    file.write_all(bytes).ok()
}

// How many bytes there are.
fn length_of<F: Seek>(file: &mut F) -> Option<u64> {
    file.seek(SeekFrom::End(0)).ok()
}

// What a file answered: nothing is a fault.
fn counted<T: Drop>(count: &mut u64, answer: Option<T>) -> Result<T, Failed>
    ensures later { count.old ≤ count.new }
    ensures ok { IfOk result (λ x. answer ≡ Some x) }
    ensures rose { OnErr result (CountRose count.old count.new) }
{
    match answer {
        Some(value) => Ok(value),
        None => {
            *count = count.saturating_add(1);
            Err(Failed)
        }
    }
}

impl<R: Files + Drop> FileDisk<R> {
    // The epoch of the disk.
    fn seen(&mut self) -> Result<u64, Failed>
        ensures later { self.old.count ≤ self.new.count }
        ensures rose { OnErr result (CountRose self.old.count self.new.count) }
    {
        let answer = self.epoch.stored(&self.files);
        counted(&mut self.count, answer)
    }
}

impl<R: Files + Drop> Counted for FileDisk<R> {
    ghost faults = { λ d. d.count };

    ghost failed_openings = { λ _. 0 };
}

impl<R: Files + Drop> Disk for FileDisk<R> {
    ghost content = { λ _. None };

    ghost told_epoch = { λ _. None };

    ghost is_image = { λ _ _. ⊥ };

    ghost room = { λ _. None };

    ghost reads_as_image = { λ d b is. none_told b is };

    ghost tells_with_epoch = { λ d c im. absurd im };

    fn length(&mut self) -> Result<u64, Failed> {
        let answer = match &mut self.bytes {
            Some(file) => length_of(file),
            None => None,
        };
        counted(&mut self.count, answer)
    }

    fn read(&mut self, at: u64, into: &mut [u8]) -> Result<usize, Failed> {
        let answer = match &mut self.bytes {
            Some(file) => read_at(file, at, into),
            None => None,
        };
        counted(&mut self.count, answer)
    }

    fn epoch(&mut self) -> Result<u64, Failed> {
        self.seen()
    }

    fn write(&mut self, epoch: u64, at: u64, bytes: &[u8]) -> Result<(), DiskRefusal> {
        let seen = self.seen()?;
        if epoch < seen {
            return Err(DiskRefusal::Fenced(seen));
        }
        let answer = match &mut self.bytes {
            Some(file) => write_at(file, at, bytes),
            None => None,
        };
        Ok(counted(&mut self.count, answer)?)
    }

    fn sync(&mut self, epoch: u64) -> Result<(), DiskRefusal> {
        let seen = self.seen()?;
        if epoch < seen {
            return Err(DiskRefusal::Fenced(seen));
        }
        let answer = match &mut self.bytes {
            Some(file) => file.sync_all().ok(),
            None => None,
        };
        Ok(counted(&mut self.count, answer)?)
    }

    fn claim(&mut self, epoch: u64) -> Result<(), DiskRefusal> {
        let seen = self.seen()?;
        if epoch <= seen {
            return Err(DiskRefusal::Fenced(seen));
        }
        let answer = self.epoch.store(&self.files, epoch);
        Ok(counted(&mut self.count, answer)?)
    }
}
