//! Turns of reading and writing charging records, beside plain copying of their octets, and of adding containers to a book.
ghost use Rattle.std.specs.Prelude.{◌≡◌, IfOk};
ghost use Rattle.records.specs.Groups.{AreApart};

use records::{Book, RecordLimits, read_record, write_record};
use std::alloc::{AllocError, Global};
use units::{List, Moment, OutOfMemory, Text, UnitUsage, Used};

// A charging record of three containers: 258 octets.
const RECORD: [u8; 258] = [
    0xBF, 0x81, 0x48, 0x81, 0xFD, 0x80, 0x02, 0x00, 0xC8, 0x81, 0x04, 0x63, 0x68, 0x66, 0x31, 0x82,
    0x14, 0x69, 0x6D, 0x73, 0x69, 0x2D, 0x30, 0x30, 0x31, 0x30, 0x31, 0x30, 0x30, 0x30, 0x30, 0x30,
    0x30, 0x30, 0x30, 0x30, 0x31, 0x83, 0x04, 0x73, 0x6D, 0x66, 0x31, 0xA5, 0x81, 0xB7, 0x30, 0x81,
    0xB4, 0x80, 0x01, 0x0A, 0xA1, 0x81, 0xAE, 0x30, 0x38, 0x80, 0x01, 0x01, 0x81, 0x01, 0x3C, 0x82,
    0x02, 0x03, 0xE8, 0x83, 0x02, 0x07, 0xD0, 0x84, 0x09, 0x26, 0x01, 0x02, 0x03, 0x05, 0x00, 0x2B,
    0x00, 0x00, 0x85, 0x09, 0x26, 0x01, 0x02, 0x03, 0x06, 0x00, 0x2B, 0x00, 0x00, 0xA6, 0x07, 0x0C,
    0x05, 0x46, 0x49, 0x4E, 0x41, 0x4C, 0x87, 0x09, 0x26, 0x01, 0x02, 0x03, 0x07, 0x00, 0x2B, 0x00,
    0x00, 0x30, 0x38, 0x80, 0x01, 0x02, 0x81, 0x01, 0x3C, 0x82, 0x02, 0x03, 0xE8, 0x83, 0x02, 0x07,
    0xD0, 0x84, 0x09, 0x26, 0x01, 0x02, 0x03, 0x05, 0x00, 0x2B, 0x00, 0x00, 0x85, 0x09, 0x26, 0x01,
    0x02, 0x03, 0x06, 0x00, 0x2B, 0x00, 0x00, 0xA6, 0x07, 0x0C, 0x05, 0x46, 0x49, 0x4E, 0x41, 0x4C,
    0x87, 0x09, 0x26, 0x01, 0x02, 0x03, 0x07, 0x00, 0x2B, 0x00, 0x00, 0x30, 0x38, 0x80, 0x01, 0x03,
    0x81, 0x01, 0x3C, 0x82, 0x02, 0x03, 0xE8, 0x83, 0x02, 0x07, 0xD0, 0x84, 0x09, 0x26, 0x01, 0x02,
    0x03, 0x05, 0x00, 0x2B, 0x00, 0x00, 0x85, 0x09, 0x26, 0x01, 0x02, 0x03, 0x06, 0x00, 0x2B, 0x00,
    0x00, 0xA6, 0x07, 0x0C, 0x05, 0x46, 0x49, 0x4E, 0x41, 0x4C, 0x87, 0x09, 0x26, 0x01, 0x02, 0x03,
    0x07, 0x00, 0x2B, 0x00, 0x00, 0x86, 0x09, 0x26, 0x01, 0x02, 0x03, 0x04, 0x05, 0x2B, 0x00, 0x00,
    0x87, 0x02, 0x00, 0xB4, 0x88, 0x01, 0x01, 0x89, 0x01, 0x00, 0x8B, 0x01, 0x01, 0xAD, 0x03, 0x80,
    0x01, 0x07,
];

// Copies the octets of a record that many times, each time into octets of their own, one octet after another.
fn copied_octets(alloc: Global, count: u64) -> Result<u64, AllocError> {
    let mut octets = 0u64;
    for _ in 0..count {
        let mut bytes = Vec::with_capacity(alloc, RECORD.len())?;
        for octet in &RECORD {
            bytes.push(*octet)?;
        }
        octets = octets.saturating_add(bytes.len() as u64);
    }
    Ok(octets)
}

// The same, many octets at a time.
fn copied_blocks(alloc: Global, count: u64) -> Result<u64, AllocError> {
    let mut octets = 0u64;
    for _ in 0..count {
        let bytes = Vec::from_slice(alloc, &RECORD)?;
        octets = octets.saturating_add(bytes.len() as u64);
    }
    Ok(octets)
}

// Reads a record that many times, and counts the octets.
fn read_records(alloc: Global, count: u64) -> Result<u64, OutOfMemory> {
    let mut octets = 0u64;
    for _ in 0..count {
        match read_record(alloc, &RECORD) {
            Ok((_, length, _)) => octets = octets.saturating_add(length as u64),
            Err(_) => return Ok(0),
        }
    }
    Ok(octets)
}

// Writes a record that many times, each time into octets of its own, and counts the octets.
fn written_records(alloc: Global, count: u64) -> Result<u64, OutOfMemory> {
    let Ok((record, _, _)) = read_record(alloc, &RECORD) else {
        return Ok(0);
    };
    let mut octets = 0u64;
    for _ in 0..count {
        let bytes = write_record(alloc, &record)?;
        octets = octets.saturating_add(bytes.len() as u64);
    }
    Ok(octets)
}

/// A container in an entry of its rating group.
pub fn entries(alloc: Global, number: u64) -> Result<List<UnitUsage>, OutOfMemory>
    ensures { IfOk result AreApart }
{
    let group = (number % 4) as u32;
    let container = Used {
        lsn: (number % 1_000_000) as u32,
        group,
        up: 1000,
        down: 2000,
        seconds: 60,
        first: Moment::first(),
        last: Moment::first(),
        triggers: List::new(alloc),
        moment: Moment::first(),
    };
    let used = List::from_vec(Vec::from_array(alloc, [container])?);
    let entry = UnitUsage {
        group,
        ask: None,
        used,
    };
    Ok(List::from_vec(Vec::from_array(alloc, [entry])?))
}

// A book in which two sessions of one account have begun; a record is closed with so many containers, 0 being never.
fn two_sessions(alloc: Global, limit: u64) -> Result<Book, OutOfMemory> {
    let limits = RecordLimits {
        volume: 0,
        seconds: 0,
        changes: 0,
        containers: (limit % 1_000_000) as u32,
        function: Text::from_text(alloc, "chf1")?,
    };
    let mut book = Book::new(alloc, &limits)?;
    let subscriber = Text::from_text(alloc, "imsi-001010000000001")?;
    let consumer = Text::from_text(alloc, "smf1")?;
    book.make_room(1, &[])?;
    book.begin(1, subscriber, consumer, 1, Moment::first());
    let subscriber = Text::from_text(alloc, "imsi-001010000000001")?;
    let consumer = Text::from_text(alloc, "smf1")?;
    book.make_room(2, &[])?;
    book.begin(2, subscriber, consumer, 2, Moment::first());
    Ok(book)
}

// A new book, to whose sessions that many containers were added.
fn filled_book(alloc: Global, count: u64, limit: u64) -> Result<Book, OutOfMemory> {
    let mut book = two_sessions(alloc, limit)?;
    for number in 0..count {
        let session = (number % 2) as u32 + 1;
        let used = entries(alloc, number)?;
        book.make_room(session, used.as_slice())?;
        if book.closed().len() >= 4_000_000_000 {
            return Ok(book);
        }
        book.add(session, used, Moment::first(), false);
    }
    Ok(book)
}

// So many new books, which all stay, each with that many containers: how many records of theirs were closed.
fn filled_books(alloc: Global, count: u64, limit: u64, books: u64) -> Result<u64, OutOfMemory> {
    let mut filled = Vec::new(alloc);
    let mut closed = 0u64;
    for _ in 0..books {
        let book = filled_book(alloc, count, limit)?;
        closed = closed.saturating_add(book.closed().len() as u64);
        filled.push(book)?;
    }
    Ok(closed)
}

/// The checksum of that many turns of a call over charging records, where there is such a call.
pub fn record_turns(
    alloc: Global,
    call: &str,
    numbers: &[u64],
) -> Result<Option<u64>, OutOfMemory> {
    match (call, numbers) {
        ("records-copy", [count]) => Ok(Some(copied_octets(alloc, *count)?)),
        ("records-blocks", [count]) => Ok(Some(copied_blocks(alloc, *count)?)),
        ("records-read", [count]) => read_records(alloc, *count).map(Some),
        ("records-write", [count]) => written_records(alloc, *count).map(Some),
        ("records-add", [count, limit, books]) => {
            filled_books(alloc, *count, *limit, *books).map(Some)
        }
        _ => Ok(None),
    }
}
