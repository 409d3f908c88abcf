//! The epoch of a disk in a file of its own, which is replaced as a whole by each claim.

use crate::epoch_text::{EpochText, epoch_in};
use std::alloc::{AllocError, Global};
use std::fs::{Metadata, OpenFile, OpenOptions};
use std::io::{ErrorKind, Read, Write};
use std::os::unix::fs::MetadataExt;
use std::rt::Files;

// Which file one is: its device and its number there, which no other file gets while it is open.
#[derive(Clone, Copy, PartialEq, Eq)]
struct Place {
    device: u64,
    number: u64,
}

// An epoch file as it was read. It stays open, so its epoch holds as long as its name leads to its place.
#[derive(Drop)]
struct ReadEpoch<F: Drop> {
    file: F,
    place: Place,
    epoch: u64,
}

/// Where the epoch of a disk stands: decimal digits and a line feed; no such file is epoch 0.
#[derive(Drop)]
pub struct EpochFile<R: Files + Drop> {
    path: String,
    next_path: String,
    folder: String,
    latest: Option<ReadEpoch<R::File>>,
}

fn place_of(file: &Metadata) -> Place {
    Place {
        device: file.dev(),
        number: file.ino(),
    }
}

// The epoch in a file. It is read at once: what is cut short is no epoch.
fn read_epoch<F: Read + OpenFile + Drop>(mut file: F) -> Option<ReadEpoch<F>> {
    let mut text = [0; 24];
    let count = file.read(&mut text).ok()?;
    let epoch = epoch_in(&text[..count])?;
    let place = place_of(&file.metadata().ok()?);
    Some(ReadEpoch { file, place, epoch })
}

// Makes what was made or renamed in a folder durable.
pub fn sync_folder<R: Files>(files: &R, folder: &str) -> Option<()> {
    let mut how = OpenOptions::new();
    how.read(true);
    how.open(files, folder).ok()?.sync_all().ok()
}

impl<R: Files + Drop> EpochFile<R> {
    /// The epoch file of the file at a path, in this folder.
    pub fn new(alloc: Global, path: &str, folder: String) -> Result<EpochFile<R>, AllocError> {
        Ok(EpochFile {
            path: format!(in alloc; "{path}.epoch")?,
            next_path: format!(in alloc; "{path}.epoch.next")?,
            folder,
            latest: None,
        })
    }

    // The epoch that was read last, where its name leads to its file still.
    fn known(&self, place: Place) -> Option<u64> {
        match &self.latest {
            Some(latest) if latest.place == place => Some(latest.epoch),
            _ => None,
        }
    }

    // Reads the epoch.
    fn read(&mut self, files: &R) -> Option<u64> {
        let mut how = OpenOptions::new();
        how.read(true);
        let latest = read_epoch(how.open(files, self.path.as_str()).ok()?)?;
        let epoch = latest.epoch;
        self.latest = Some(latest);
        Some(epoch)
    }

    /// The epoch that stands there, `None` where that can't be told.
    pub fn stored(&mut self, files: &R) -> Option<u64> {
        match files.metadata(self.path.as_str()) {
            Ok(now) => match self.known(place_of(&now)) {
                Some(epoch) => Some(epoch),
                None => self.read(files),
            },
            Err(error) if error.kind() == ErrorKind::NotFound => Some(0),
            Err(_) => None,
        }
    }

    /// Puts an epoch in the place of the old one, in one step: written beside it, synced, renamed, and the folder synced.
    pub fn store(&mut self, files: &R, epoch: u64) -> Option<()> {
        let text = EpochText::new(epoch);
        let mut how = OpenOptions::new();
        how.write(true).create(true).truncate(true);
        let mut file = how.open(files, self.next_path.as_str()).ok()?;
        file.write_all(text.bytes()).ok()?;
        file.sync_all().ok()?;
        files
            .rename(self.next_path.as_str(), self.path.as_str())
            .ok()?;
        sync_folder(files, self.folder.as_str())
    }
}
