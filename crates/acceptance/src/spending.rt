//! Spending limits: messages that are read and written again, and what a table of policy counters answers.
use crate::messages::{refused, word_of};
use crate::values::small;
use counters::{CounterRefusal, Counters, Subscriptions};
use rows::wide_number;
use spend_json::{cause_of, read_context, read_status, write_context, write_status};
use std::alloc::Global;
use units::{CounterStatus, List, OutOfMemory, SpendContext, Text, name_of_cause};

fn text_of(alloc: Global, bytes: &List<u8>, is_same: bool) -> Result<String, OutOfMemory> {
    let mut text = String::from_str(alloc, std::str::from_utf8(bytes.as_slice()).unwrap_or("?"))?;
    if !is_same {
        text.push_str(" is read as another")?;
    }
    Ok(text)
}

/// The context that a body is, as it is written, or the cause of the refusal with its field.
pub fn context(alloc: Global, body: &str) -> Result<String, OutOfMemory> {
    let context = match read_context(alloc, body.as_bytes()) {
        Ok(context) => context,
        Err(refusal) => return refused(alloc, name_of_cause(cause_of(&refusal)), &refusal),
    };
    let written = write_context(alloc, &context)?;
    let is_same = match read_context(alloc, written.as_slice()) {
        Ok(again) => again == context,
        Err(_) => false,
    };
    text_of(alloc, &written, is_same)
}

/// The status that a body is, as it is written, or the refusal with its field.
pub fn status(alloc: Global, body: &str) -> Result<String, OutOfMemory> {
    let status = match read_status(alloc, body.as_bytes()) {
        Ok(status) => status,
        Err(refusal) => return refused(alloc, word_of(&refusal), &refusal),
    };
    let written = write_status(alloc, &status)?;
    let is_same = match read_status(alloc, written.as_slice()) {
        Ok(again) => again == status,
        Err(_) => false,
    };
    text_of(alloc, &written, is_same)
}

// The texts between separators; none of an empty text.
fn texts(alloc: Global, separator: char, text: &str) -> Result<List<Text>, OutOfMemory> {
    let mut texts = List::new(alloc);
    if !text.is_empty() {
        for piece in text.split(separator) {
            texts.push(Text::from_text(alloc, piece)?)?;
        }
    }
    Ok(texts)
}

// Rows with semicolons between, and commas between their fields.
fn rows_of(alloc: Global, text: &str) -> Result<List<List<Text>>, OutOfMemory> {
    let mut rows = List::new(alloc);
    if !text.is_empty() {
        for row in text.split(';') {
            rows.push(texts(alloc, ',', row)?)?;
        }
    }
    Ok(rows)
}

// An amount of 128 bits.
fn amount(word: &str) -> u128 {
    wide_number(u128::MAX, word.as_bytes()).unwrap_or(0)
}

// A context that names these counters.
fn naming(alloc: Global, names: &str) -> Result<SpendContext, OutOfMemory> {
    Ok(SpendContext {
        supi: Text::from_text(alloc, "imsi-1")?,
        counters: texts(alloc, '+', names)?,
        notify: Text::from_text(alloc, "http://pcf")?,
    })
}

fn push_infos(text: &mut String, infos: &[CounterStatus]) -> Result<(), OutOfMemory> {
    text.push_str("[")?;
    for (at, info) in infos.iter().enumerate() {
        if at > 0 {
            text.push_str(",")?;
        }
        text.push_str(info.counter.as_str())?;
        text.push_str("=")?;
        text.push_str(info.status.as_str())?;
    }
    text.push_str("]")?;
    Ok(())
}

// The names of counters, or of those that a live subscription has.
fn push_names(text: &mut String, names: &[Text]) -> Result<(), OutOfMemory> {
    text.push_str("(")?;
    for (at, name) in names.iter().enumerate() {
        if at > 0 {
            text.push_str("+")?;
        }
        text.push_str(name.as_str())?;
    }
    text.push_str(")")?;
    Ok(())
}

fn word_of_refusal(refusal: CounterRefusal) -> &'static str {
    match refusal {
        CounterRefusal::BadRow { .. } => "BadRow",
        CounterRefusal::UnknownCounter => "UnknownCounter",
        CounterRefusal::UnknownSubscription => "UnknownSubscription",
        CounterRefusal::OutOfMemory => "OutOfMemory",
    }
}

fn subscribe(
    alloc: Global,
    counters: &Counters,
    subscriptions: &mut Subscriptions,
    names: &str,
    text: &mut String,
) -> Result<(), OutOfMemory> {
    let context = naming(alloc, names)?;
    if subscriptions.made() == u32::MAX {
        return Ok(());
    }
    subscriptions.make_room(alloc)?;
    match subscriptions.subscribe(counters, context) {
        Ok(id) => text.push_str(format!(in alloc; "{id}")?.as_str())?,
        Err(refusal) => text.push_str(word_of_refusal(refusal))?,
    }
    Ok(())
}

fn push_done(text: &mut String, done: Result<(), CounterRefusal>) -> Result<(), OutOfMemory> {
    match done {
        Ok(()) => text.push_str("ok")?,
        Err(refusal) => text.push_str(word_of_refusal(refusal))?,
    }
    Ok(())
}

// What a step on the table alone answers; false where it is no such step.
fn ask(
    alloc: Global,
    counters: &Counters,
    words: &[&str],
    text: &mut String,
) -> Result<bool, OutOfMemory> {
    match words {
        ["names"] => push_names(text, counters.names().as_slice())?,
        ["status", name, spent] => {
            text.push_str(counters.status(name, amount(spent)).unwrap_or("-"))?
        }
        ["statuses", names, spent] => {
            let infos = counters.statuses(alloc, &texts(alloc, '+', names)?, amount(spent))?;
            push_infos(text, infos.as_slice())?;
        }
        _ => return Ok(false),
    }
    Ok(true)
}

// Makes a step on subscriptions, and adds what it answers.
fn step(
    alloc: Global,
    counters: &Counters,
    subscriptions: &mut Subscriptions,
    words: &[&str],
    text: &mut String,
) -> Result<(), OutOfMemory> {
    match words {
        ["subscribe", names] => subscribe(alloc, counters, subscriptions, names, text)?,
        ["modify", id, names] => {
            let context = naming(alloc, names)?;
            push_done(text, subscriptions.modify(small(id), counters, context))?
        }
        ["remove", id] => push_done(text, subscriptions.remove(small(id)))?,
        ["changes", id, before, after] => {
            let infos = subscriptions.changes(
                alloc,
                small(id),
                counters,
                amount(before),
                amount(after),
            )?;
            push_infos(text, infos.as_slice())?;
        }
        ["context", id] => match subscriptions.context(small(id)) {
            Some(context) => push_names(text, context.counters.as_slice())?,
            None => text.push_str("-")?,
        },
        ["made"] => {
            let made = subscriptions.made();
            text.push_str(format!(in alloc; "{made}")?.as_str())?
        }
        _ => text.push_str("?")?,
    }
    Ok(())
}

/// What steps on the counters of rows answer, one after another, or the first bad row.
pub fn counters(alloc: Global, rows: &str, steps: &str) -> Result<String, OutOfMemory> {
    let counters = match Counters::read(alloc, &rows_of(alloc, rows)?) {
        Ok(counters) => counters,
        Err(CounterRefusal::BadRow { row }) => return Ok(format!(in alloc; "BadRow {row}")?),
        Err(_) => return Err(OutOfMemory),
    };
    let mut subscriptions = Subscriptions::new(alloc);
    let mut text = String::new(alloc);
    for line in steps.split(';') {
        if !text.is_empty() {
            text.push_str(" ")?;
        }
        let words: Vec<&str> = line.split(' ').collect(alloc)?;
        if !ask(alloc, &counters, words.as_slice(), &mut text)? {
            step(
                alloc,
                &counters,
                &mut subscriptions,
                words.as_slice(),
                &mut text,
            )?;
        }
    }
    Ok(text)
}
