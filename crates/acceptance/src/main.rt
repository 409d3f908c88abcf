//! What the libraries answer on the lines of the input, beside what was worked out elsewhere. A line is the word of a table, the
//! fields of a case and at last the answer that is wanted, with tabs between them. Each line with another answer is printed with
//! it, and at the end how many lines each table has.
#![tactic(auto)]

mod charging_answers;
mod charging_records;
mod connections;
mod cuts;
mod devices;
mod disks;
mod elements;
mod events;
mod hosting;
mod http;
mod lists;
mod messages;
mod payloads;
mod quota_steps;
mod record_books;
mod reports;
mod sending;
mod spending;
mod times;
mod trigger_rows;
mod values;

use edge::{StreamSource, read_all};
use std::alloc::Global;
use std::io;
use std::process::ExitCode;
use units::OutOfMemory;

/// The most octets of an input.
const INPUT_LIMIT: usize = 1 << 24;

/// The tables, by the words that begin their lines.
const TABLES: [&str; 34] = [
    "time",
    "stamp",
    "request",
    "reply",
    "spend-context",
    "spend-status",
    "counters",
    "element",
    "length",
    "once",
    "record",
    "book",
    "book-octets",
    "meter",
    "quota",
    "events",
    "many-events",
    "sending",
    "smf-row",
    "event-row",
    "chf-payload",
    "smf-payload",
    "devices",
    "door",
    "link",
    "clock",
    "loopback",
    "journal",
    "file-disk",
    "durable",
    "http-request",
    "http-response",
    "http-cuts",
    "serving",
];

// What is answered on a case about times and messages.
fn answer_of_texts(
    alloc: Global,
    table: &str,
    fields: &[&str],
) -> Result<Option<String>, OutOfMemory> {
    match (table, fields) {
        ("time", [text]) => times::time(alloc, text).map(Some),
        ("stamp", [octets]) => times::stamp(alloc, octets).map(Some),
        ("request", [operation, body]) => messages::request(alloc, operation, body).map(Some),
        ("reply", [status, location, body]) => {
            messages::reply(alloc, status, location, body).map(Some)
        }
        _ => Ok(None),
    }
}

// What is answered on a case about spending limits.
fn answer_of_spending(
    alloc: Global,
    table: &str,
    fields: &[&str],
) -> Result<Option<String>, OutOfMemory> {
    match (table, fields) {
        ("spend-context", [body]) => spending::context(alloc, body).map(Some),
        ("spend-status", [body]) => spending::status(alloc, body).map(Some),
        ("counters", [rows, steps]) => spending::counters(alloc, rows, steps).map(Some),
        _ => Ok(None),
    }
}

// What is answered on a case about charging records and the elements that they are written in.
fn answer_of_records(
    alloc: Global,
    table: &str,
    fields: &[&str],
) -> Result<Option<String>, OutOfMemory> {
    match (table, fields) {
        ("element", [octets]) => elements::element(alloc, octets).map(Some),
        ("length", [count]) => elements::length(alloc, count).map(Some),
        ("once", [octets]) => elements::once(alloc, octets).map(Some),
        ("record", [octets]) => charging_records::record(alloc, octets).map(Some),
        ("book", [limits, steps]) => record_books::closed_records(alloc, limits, steps).map(Some),
        ("book-octets", [limits, steps]) => {
            record_books::closed_octets(alloc, limits, steps).map(Some)
        }
        _ => Ok(None),
    }
}

// What is answered on a case about the machines.
fn answer_of_machines(
    alloc: Global,
    table: &str,
    fields: &[&str],
) -> Result<Option<String>, OutOfMemory> {
    match (table, fields) {
        ("meter", [horizon, reports]) => reports::meter(alloc, horizon, reports).map(Some),
        ("quota", [steps]) => quota_steps::quota(alloc, steps).map(Some),
        ("events", [events]) => events::events(alloc, false, events).map(Some),
        ("many-events", [events]) => events::events(alloc, true, events).map(Some),
        ("sending", [setup, events]) => sending::sending(alloc, setup, events).map(Some),
        _ => Ok(None),
    }
}

// What is answered on a case about rows and payloads.
fn answer_of_rows(
    alloc: Global,
    table: &str,
    fields: &[&str],
) -> Result<Option<String>, OutOfMemory> {
    match (table, fields) {
        ("smf-row", [row]) => trigger_rows::smf_row(alloc, row).map(Some),
        ("event-row", [row]) => trigger_rows::event_row(alloc, row).map(Some),
        ("chf-payload", [text]) => payloads::command(alloc, text).map(Some),
        ("smf-payload", [text]) => payloads::event(alloc, text).map(Some),
        _ => Ok(None),
    }
}

// What is answered on a case about devices.
fn answer_of_devices(
    rt: &HostRuntime,
    table: &str,
    fields: &[&str],
) -> Result<Option<String>, OutOfMemory> {
    let alloc = rt.alloc();
    match (table, fields) {
        ("devices", [words, input, reads, writes, room]) => {
            devices::devices(alloc, words, input, reads, writes, room).map(Some)
        }
        ("door", [bytes, room, fails, steps]) => {
            connections::door(alloc, bytes, room, fails, steps).map(Some)
        }
        ("link", [bytes, room, fails, steps]) => {
            connections::link(alloc, bytes, room, fails, steps).map(Some)
        }
        ("clock", [first, step, count]) => connections::clock(alloc, first, step, count).map(Some),
        ("loopback", [case]) => connections::loopback(rt, alloc, case).map(Some),
        _ => Ok(None),
    }
}

// What is answered on a case about disks.
fn answer_of_disks(
    rt: &HostRuntime,
    table: &str,
    fields: &[&str],
) -> Result<Option<String>, OutOfMemory> {
    let alloc = rt.alloc();
    match (table, fields) {
        ("journal", [limit, payload]) => disks::journal(alloc, limit, payload).map(Some),
        ("file-disk", [name]) => disks::file_disk(rt, alloc, name).map(Some),
        ("durable", [claims, limit, fails, steps]) => {
            lists::lists(alloc, claims, limit, fails, steps).map(Some)
        }
        _ => Ok(None),
    }
}

// What is answered on a case about streams of HTTP messages.
fn answer_of_streams(
    alloc: Global,
    table: &str,
    fields: &[&str],
) -> Result<Option<String>, OutOfMemory> {
    match (table, fields) {
        ("http-request", [octets]) => http::requests(alloc, octets).map(Some),
        ("http-response", [octets]) => http::responses(alloc, octets).map(Some),
        ("http-cuts", [kind, octets]) => cuts::cuts(alloc, kind, octets).map(Some),
        ("serving", [connections, fails, replies, link_fails, most]) => {
            hosting::hosting(alloc, connections, fails, replies, link_fails, most).map(Some)
        }
        _ => Ok(None),
    }
}

// What is answered on a case.
fn answer(rt: &HostRuntime, table: &str, fields: &[&str]) -> Result<String, OutOfMemory> {
    let alloc = rt.alloc();
    if let Some(answer) = answer_of_texts(alloc, table, fields)? {
        return Ok(answer);
    }
    if let Some(answer) = answer_of_spending(alloc, table, fields)? {
        return Ok(answer);
    }
    if let Some(answer) = answer_of_records(alloc, table, fields)? {
        return Ok(answer);
    }
    if let Some(answer) = answer_of_machines(alloc, table, fields)? {
        return Ok(answer);
    }
    if let Some(answer) = answer_of_rows(alloc, table, fields)? {
        return Ok(answer);
    }
    if let Some(answer) = answer_of_devices(rt, table, fields)? {
        return Ok(answer);
    }
    if let Some(answer) = answer_of_disks(rt, table, fields)? {
        return Ok(answer);
    }
    if let Some(answer) = answer_of_streams(alloc, table, fields)? {
        return Ok(answer);
    }
    Ok(String::from_str(alloc, "no such table")?)
}

// Looks at a line: what is answered, where that is not what is wanted.
fn difference(rt: &HostRuntime, line: &str) -> Result<Option<String>, OutOfMemory> {
    let alloc = rt.alloc();
    let fields: Vec<&str> = line.split('\t').collect(alloc)?;
    match fields.as_slice() {
        [table, given @ .., wanted] => {
            let got = answer(rt, table, given)?;
            if got.as_str() == *wanted {
                Ok(None)
            } else {
                Ok(Some(got))
            }
        }
        _ => Ok(Some(String::from_str(alloc, "no table")?)),
    }
}

// How many lines begin with the word of a table.
fn count(lines: &str, table: &str) -> u32 {
    let mut count = 0u32;
    for line in lines.lines() {
        if line.split('\t').next() == Some(table) {
            count = count.saturating_add(1);
        }
    }
    count
}

fn run(rt: &HostRuntime) -> io::Result<ExitCode> {
    let alloc = rt.alloc();
    let Ok(mut input) = StreamSource::new(alloc, rt.reader()) else {
        return Ok(ExitCode::from(9));
    };
    let Ok(bytes) = read_all(alloc, &mut input, INPUT_LIMIT) else {
        return Ok(ExitCode::from(3));
    };
    let lines = std::str::from_utf8(bytes.as_slice()).unwrap_or("");
    for line in lines.lines() {
        match difference(rt, line) {
            Ok(None) => {}
            Ok(Some(got)) => println!(rt; "{line}\nanswers {got}")?,
            Err(OutOfMemory) => return Ok(ExitCode::from(9)),
        }
    }
    for table in TABLES {
        let count = count(lines, table);
        println!(rt; "{table} {count}")?;
    }
    Ok(ExitCode::SUCCESS)
}

fn main(rt: HostRuntime) -> io::Result<ExitCode> {
    run(&rt)
}
