//! Closing all records that have a container: those of some sessions among many or among few.
use crate::record_turns::entries;
use records::Book;
use std::alloc::Global;
use std::io;
use std::time::Instant;
use units::{Moment, OutOfMemory, Text};

/// More closed records or sessions than the turns come to.
const MANY: usize = 1_000_000_000;

// That many sessions in a book.
fn begun(alloc: Global, sessions: u32) -> Result<Book, OutOfMemory> {
    let mut book = Book::empty(alloc);
    for session in 0..sessions {
        let subscriber = Text::from_text(alloc, "imsi-001010000000001")?;
        let consumer = Text::from_text(alloc, "smf1")?;
        book.make_room(session, &[])?;
        book.begin(session, subscriber, consumer, session, Moment::first());
    }
    Ok(book)
}

// A container comes to each of that many sessions, which are as far from one another as they can be.
fn fill(alloc: Global, book: &mut Book, sessions: u32, filled: u32) -> Result<(), OutOfMemory> {
    let apart = sessions / filled.max(1);
    for place in 0..filled {
        let session = place.saturating_mul(apart);
        let used = entries(alloc, u64::from(place))?;
        book.make_room(session, used.as_slice())?;
        if book.closed().len() >= MANY {
            return Err(OutOfMemory);
        }
        book.add(session, used, Moment::first(), false);
    }
    Ok(())
}

// The nanoseconds of closing all records once.
fn close(rt: &HostRuntime, book: &mut Book) -> io::Result<u128> {
    if book.make_room(0, &[]).is_err() || book.closed().len() >= MANY || book.begun() >= MANY {
        return Ok(0);
    }
    let begun = Instant::now(rt)?;
    let _ = book.close_all(Moment::first());
    Ok(begun.elapsed(rt)?.as_nanos())
}

/// The nanoseconds of closing all records that many times, where before each time a container came to some of the sessions.
pub fn close_time(
    rt: &HostRuntime,
    sessions: u64,
    filled: u64,
    turns: u64,
) -> io::Result<Option<u128>> {
    let alloc = rt.alloc();
    let sessions = sessions.min(1_000_000_000) as u32;
    let filled = filled.min(1_000_000_000) as u32;
    let Ok(mut book) = begun(alloc, sessions) else {
        return Ok(None);
    };
    let mut all = 0u128;
    for _ in 0..turns {
        if fill(alloc, &mut book, sessions, filled).is_err() {
            return Ok(None);
        }
        all = all.saturating_add(close(rt, &mut book)?);
    }
    Ok(Some(all))
}
