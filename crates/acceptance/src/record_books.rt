//! A book of charging records by steps: sessions begin, containers come, sessions end, all records are closed.
ghost use Rattle.std.specs.Prelude.{OnOk, IfOk};
ghost use Rattle.records.specs.Groups.{AreApart};
ghost use Rattle.acceptance.specs.Numbered.{AreNumbered};

use crate::values::{hexadecimal, long, moment, small};
use records::{Book, Kept, RecordLimits, by_group, write_record};
use std::alloc::Global;
use units::{List, Moment, OutOfMemory, Text, UnitUsage, Used};

/// More sessions or closed records than a case has.
const MANY: usize = 1_000_000;

// VOLUME SECONDS CHANGES CONTAINERS: the limits of a function chf1.
fn limits(alloc: Global, words: &str) -> Result<RecordLimits, OutOfMemory> {
    let words: Vec<&str> = words.split(' ').collect(alloc)?;
    let [volume, seconds, changes, containers] = words.as_slice() else {
        return Ok(RecordLimits::none(alloc));
    };
    Ok(RecordLimits {
        volume: long(volume),
        seconds: small(seconds),
        changes: small(changes),
        containers: small(containers),
        function: Text::from_text(alloc, "chf1")?,
    })
}

// GROUP:LSN:UP:DOWN:SECONDS:TRIGGER, used at a moment alone: the entry of its rating group.
fn entry(alloc: Global, word: &str, at: Moment) -> Result<UnitUsage, OutOfMemory> {
    let fields: Vec<&str> = word.split(':').collect(alloc)?;
    let mut entry = UnitUsage {
        group: 0,
        ask: None,
        used: List::new(alloc),
    };
    if let [group, lsn, up, down, seconds, trigger] = fields.as_slice() {
        let mut triggers = List::new(alloc);
        triggers.push(Text::from_text(alloc, trigger)?)?;
        entry.group = small(group);
        entry.used.push(Used {
            lsn: small(lsn),
            group: small(group),
            up: long(up),
            down: long(down),
            seconds: small(seconds),
            first: at,
            last: at,
            triggers,
            moment: at,
        })?;
    }
    Ok(entry)
}

// Containers with commas between them, by rating group.
fn containers(alloc: Global, words: &str, at: Moment) -> Result<List<UnitUsage>, OutOfMemory>
    ensures { IfOk result AreApart }
{
    let mut entries = Vec::new(alloc);
    for word in words.split(',') {
        entries.push(entry(alloc, word, at)?)?;
    }
    by_group(alloc, entries.as_slice())
}

// A session begins, with the next number. Closes no record.
fn begin(alloc: Global, book: &mut Book, at: Moment, charging_id: u32) -> Result<usize, OutOfMemory>
    requires numbered { AreNumbered 1 book.old.records.sessions }
    ensures numbered { OnOk result (AreNumbered 1 book.new.records.sessions) }
{
    let begun = book.begun();
    if begun >= MANY {
        return Ok(0);
    }
    let session = begun as u32 + 1;
    let subscriber = Text::from_text(alloc, "imsi-001010000000001")?;
    let consumer = Text::from_text(alloc, "smf1")?;
    book.make_room(session, &[])?;
    book.begin(session, subscriber, consumer, charging_id, at);
    Ok(0)
}

// Containers come to a session; how many records that closes.
fn add(
    book: &mut Book,
    session: u32,
    used: List<UnitUsage>,
    at: Moment,
    last: bool,
) -> Result<usize, OutOfMemory>
    requires apart { AreApart used }
    requires numbered { AreNumbered 1 book.old.records.sessions }
    ensures numbered { OnOk result (AreNumbered 1 book.new.records.sessions) }
{
    let before = book.closed().len();
    if before >= MANY {
        return Ok(0);
    }
    book.make_room(session, used.as_slice())?;
    book.add(session, used, at, last);
    Ok(book.closed().len().saturating_sub(before))
}

// A session ends; how many records that closes.
fn close(book: &mut Book, session: u32, cause: u8, at: Moment) -> Result<usize, OutOfMemory>
    requires numbered { AreNumbered 1 book.old.records.sessions }
    ensures numbered { OnOk result (AreNumbered 1 book.new.records.sessions) }
{
    let before = book.closed().len();
    if before >= MANY {
        return Ok(0);
    }
    book.make_room(session, &[])?;
    book.close(session, cause, at);
    Ok(book.closed().len().saturating_sub(before))
}

// Every record that has a container is closed; how many those were.
fn close_all(book: &mut Book, at: Moment) -> Result<usize, OutOfMemory>
    requires numbered { AreNumbered 1 book.old.records.sessions }
    ensures numbered { OnOk result (AreNumbered 1 book.new.records.sessions) }
{
    if book.closed().len() >= MANY || book.begun() >= MANY {
        return Ok(0);
    }
    book.make_room(1, &[])?;
    Ok(book.close_all(at) as usize)
}

// begin MOMENT CHARGING-ID, add or last SESSION MOMENT CONTAINERS, close SESSION MOMENT CAUSE, or close-all MOMENT; how many
// records that closes.
fn step(alloc: Global, book: &mut Book, words: &[&str]) -> Result<usize, OutOfMemory>
    requires numbered { AreNumbered 1 book.old.records.sessions }
    ensures numbered { OnOk result (AreNumbered 1 book.new.records.sessions) }
{
    match words {
        ["begin", at, charging_id] => begin(alloc, book, moment(at), small(charging_id)),
        ["close", session, at, cause] => {
            let cause = u8::try_from(small(cause)).unwrap_or(0);
            close(book, small(session), cause, moment(at))
        }
        ["close-all", at] => close_all(book, moment(at)),
        [word, session, at, used] => {
            let at = moment(at);
            let used = containers(alloc, used, at)?;
            add(book, small(session), used, at, *word == "last")
        }
        _ => Ok(0),
    }
}

// A book under limits after steps, and how many records each step closed.
fn filled(alloc: Global, limit_words: &str, steps: &str) -> Result<(Book, String), OutOfMemory>
    ensures numbered { IfOk result (λ x. AreNumbered 1 x.0.records.sessions) }
{
    let mut book = Book::new(alloc, &limits(alloc, limit_words)?)?;
    let mut text = String::new(alloc);
    for line in steps.split(';') {
        let words: Vec<&str> = line.split(' ').collect(alloc)?;
        let count = step(alloc, &mut book, words.as_slice())?;
        if !text.is_empty() {
            text.push_str(" ")?;
        }
        text.push_str(format!(in alloc; "{count}")?.as_str())?;
    }
    Ok((book, text))
}

// SESSION SEQUENCE LOCAL CAUSE OPENING DURATION, and GROUP:LSN for each container.
fn push_record(alloc: Global, record: &Kept, text: &mut String) -> Result<(), OutOfMemory> {
    let (session, sequence, local) = (record.session, record.sequence, record.local);
    text.push_str(format!(in alloc; ";{session} {sequence} {local}")?.as_str())?;
    let (cause, opening, duration) = (record.cause, record.opening.seconds(), record.duration);
    text.push_str(format!(in alloc; " {cause} {opening} {duration}")?.as_str())?;
    for entry in record.usage.iter() {
        for container in entry.used.iter() {
            let (group, lsn) = (container.group, container.lsn);
            text.push_str(format!(in alloc; " {group}:{lsn}")?.as_str())?;
        }
    }
    Ok(())
}

/// How many records each step closed under limits, and then the closed records.
pub fn closed_records(alloc: Global, limits: &str, steps: &str) -> Result<String, OutOfMemory> {
    let (book, mut text) = filled(alloc, limits, steps)?;
    for record in book.closed() {
        push_record(alloc, record, &mut text)?;
    }
    Ok(text)
}

// The octets of a closed record.
fn octets(alloc: Global, book: &Book, record: &Kept) -> Result<String, OutOfMemory>
    requires numbered { AreNumbered 1 book.now.records.sessions }
{
    if record.session < 1 || record.session as usize > book.begun() {
        return Ok(String::new(alloc));
    }
    let named = book.named(record)?;
    hexadecimal(alloc, write_record(alloc, &named)?.as_slice())
}

/// The octets of the closed records after steps under limits, one after another.
pub fn closed_octets(alloc: Global, limits: &str, steps: &str) -> Result<String, OutOfMemory> {
    let (book, _) = filled(alloc, limits, steps)?;
    let mut text = String::new(alloc);
    for record in book.closed() {
        text.push_str(octets(alloc, &book, record)?.as_str())?;
    }
    Ok(text)
}
