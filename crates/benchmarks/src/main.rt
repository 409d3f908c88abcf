//! Turns of library calls for the scripts under bench/: `benchmarks CALL NUMBER..` makes them and prints a checksum.
#![tactic(auto)]

mod account_turns;
mod chf_turns;
mod close_turns;
mod draws;
mod element_turns;
mod journal_turns;
mod line_turns;
mod message_turns;
mod moment_turns;
mod quota_turns;
mod rating_turns;
mod record_turns;
mod smf_turns;
mod table_turns;
mod wire_turns;

use crate::account_turns::charges;
use crate::chf_turns::{chf_times, chf_turns};
use crate::close_turns::close_time;
use crate::element_turns::{hashed_records, read_records, summed_records, written_records};
use crate::journal_turns::{append_to_file, list_of_file, print_stop};
use crate::line_turns::parsed_lines;
use crate::message_turns::{
    parsed_values, printed_values, read_requests, request_size, written_replies,
};
use crate::moment_turns::{copied_texts, read_texts, written_texts};
use crate::quota_turns::turns_of_use;
use crate::rating_turns::prices;
use crate::record_turns::record_turns;
use crate::smf_turns::{meter_turns, smf_times, smf_turns, tick_time};
use crate::table_turns::table_turns;
use crate::wire_turns::{parsed_fronts, parsed_heads, read_messages};
use edge::StreamSource;
use rows::number;
use std::alloc::Global;
use std::process::ExitCode;
use std::{env, io};
use units::{List, OutOfMemory};

// The words after the program's name: a call, and numbers.
fn words(rt: &HostRuntime) -> Result<(String, List<u64>), OutOfMemory> {
    let alloc = rt.alloc();
    let mut call = String::new(alloc);
    let mut numbers = List::new(alloc);
    if let Ok(args) = env::args(rt) {
        for (place, word) in args.skip(1).enumerate() {
            if place == 0 {
                call = word;
            } else {
                numbers.push(number(u64::MAX, word.as_bytes()).unwrap_or(0))?;
            }
        }
    }
    Ok((call, numbers))
}

// The checksum of that many turns of a call over messages, where there is such a call.
fn messages(alloc: Global, call: &str, numbers: &[u64]) -> Result<Option<u64>, OutOfMemory> {
    let [entries, turns] = numbers else {
        return Ok(None);
    };
    match call {
        "json-read" => read_requests(alloc, *entries, 0, *turns).map(Some),
        "json-read-used" => read_requests(alloc, *entries, 4, *turns).map(Some),
        "json-size-used" => request_size(alloc, *entries, 4).map(Some),
        "json-parse" => parsed_values(alloc, *entries, *turns).map(Some),
        "json-write" => written_replies(alloc, *entries, *turns).map(Some),
        "json-print" => printed_values(alloc, *entries, *turns).map(Some),
        _ => Ok(None),
    }
}

// The same of elements of records.
fn elements(alloc: Global, call: &str, numbers: &[u64]) -> Result<Option<u64>, OutOfMemory> {
    let [count] = numbers else {
        return Ok(None);
    };
    match call {
        "ber-read" => Ok(Some(read_records(alloc, *count)?)),
        "ber-write" => Ok(Some(written_records(alloc, *count)?)),
        "ber-hash" => Ok(Some(hashed_records(alloc, *count)?)),
        "ber-sum" => Ok(Some(summed_records(alloc, *count)?)),
        _ => Ok(None),
    }
}

// The same of streams of messages.
fn streams(alloc: Global, call: &str, numbers: &[u64]) -> Result<Option<u64>, OutOfMemory> {
    match (call, numbers) {
        ("wire-read", [piece, turns]) => Ok(Some(read_messages(alloc, *piece, *turns)?)),
        ("wire-parse", [turns]) => Ok(Some(parsed_heads(alloc, *turns)?)),
        ("wire-fronts", [turns]) => Ok(Some(parsed_fronts(*turns))),
        _ => Ok(None),
    }
}

// The same of moments.
fn moments(call: &str, numbers: &[u64]) -> Option<u64> {
    let [turns] = numbers else {
        return None;
    };
    match call {
        "moments-read" => Some(read_texts(*turns)),
        "moments-write" => Some(written_texts(*turns)),
        "moments-copy" => Some(copied_texts(*turns)),
        _ => None,
    }
}

// The same of the machines of both ends.
fn machines(alloc: Global, call: &str, numbers: &[u64]) -> Result<Option<u64>, OutOfMemory> {
    let [sessions, turns] = numbers else {
        return Ok(None);
    };
    match call {
        "chf" => chf_turns(alloc, *sessions, *turns).map(Some),
        "smf" => smf_turns(alloc, *sessions, *turns).map(Some),
        "smf-meter" => meter_turns(alloc, *sessions, *turns).map(Some),
        _ => Ok(None),
    }
}

// The same of prices, quotas and accounts.
fn money(alloc: Global, call: &str, numbers: &[u64]) -> Result<Option<u64>, OutOfMemory> {
    match (call, numbers) {
        ("rating", [groups, periods, turns]) => prices(alloc, *groups, *periods, *turns).map(Some),
        ("accounts", [sessions, groups, active, turns]) => {
            charges(alloc, *sessions, *groups, *active, *turns).map(Some)
        }
        ("table", [keys, turns]) => table_turns(alloc, *keys, *turns).map(Some),
        ("quotas", [turns]) => Ok(Some(turns_of_use(alloc, *turns))),
        _ => Ok(None),
    }
}

// The checksum of that many turns of a call, where there is such a call.
fn checksum(alloc: Global, call: &str, numbers: &[u64]) -> Result<Option<u64>, OutOfMemory> {
    if call.starts_with("json-") {
        return messages(alloc, call, numbers);
    }
    if call.starts_with("ber-") {
        return elements(alloc, call, numbers);
    }
    if call.starts_with("records-") {
        return record_turns(alloc, call, numbers);
    }
    if call.starts_with("wire-") {
        return streams(alloc, call, numbers);
    }
    if call.starts_with("moments-") {
        return Ok(moments(call, numbers));
    }
    match machines(alloc, call, numbers)? {
        Some(sum) => Ok(Some(sum)),
        None => money(alloc, call, numbers),
    }
}

// Prints three times.
fn print_three(rt: &HostRuntime, times: [u128; 3]) -> io::Result<ExitCode> {
    let [first, all, last] = times;
    println!(rt; "{first} {all} {last}")?;
    Ok(ExitCode::SUCCESS)
}

// The times of turns of a machine, by the clock: of the first ones, of all, and of the last ones.
fn print_times(rt: &HostRuntime, times: Option<[u128; 3]>) -> io::Result<ExitCode> {
    match times {
        Some(times) => print_three(rt, times),
        None => Ok(ExitCode::from(9)),
    }
}

// The time of turns, by the clock.
fn print_time(rt: &HostRuntime, time: Option<u128>) -> io::Result<ExitCode> {
    match time {
        Some(time) => {
            println!(rt; "{time}")?;
            Ok(ExitCode::SUCCESS)
        }
        None => Ok(ExitCode::from(9)),
    }
}

// What a turn of a journal answered, where there is such a turn and the disk did not refuse it.
fn journal(rt: &HostRuntime, call: &str, numbers: &[u64]) -> io::Result<Option<u64>> {
    match (call, numbers) {
        ("journal-append", [count, size]) => append_to_file(rt, *count, *size, false),
        ("journal-numbers", [count, size]) => append_to_file(rt, *count, *size, true),
        ("journal-read", []) => list_of_file(rt, false),
        ("journal-list", []) => list_of_file(rt, true),
        ("journal-stop", [call, fill]) => print_stop(rt, (*call).min(1000) as u32, *fill),
        _ => Ok(None),
    }
}

// The message lines of the input, whose bodies are read as JSON alone.
fn lines(rt: &HostRuntime) -> Result<Option<u64>, OutOfMemory> {
    let mut input = StreamSource::new(rt.alloc(), rt.reader())?;
    parsed_lines(rt.alloc(), &mut input).map(Some)
}

fn run(rt: &HostRuntime) -> io::Result<ExitCode> {
    let Ok((call, numbers)) = words(rt) else {
        return Ok(ExitCode::from(9));
    };
    match (call.as_str(), numbers.as_slice()) {
        ("chf-times", [sessions, updates]) => {
            return print_times(rt, chf_times(rt, *sessions, *updates)?);
        }
        ("smf-times", [sessions, turns]) => {
            return print_times(rt, smf_times(rt, *sessions, *turns)?);
        }
        ("smf-ticks", [sessions, count]) => {
            return print_time(rt, tick_time(rt, *sessions, *count)?);
        }
        ("close-all", [sessions, filled, turns]) => {
            return print_time(rt, close_time(rt, *sessions, *filled, *turns)?);
        }
        _ => {}
    }
    let found = if call.as_str() == "json-lines" {
        lines(rt)
    } else if call.as_str().starts_with("journal-") {
        Ok(journal(rt, call.as_str(), numbers.as_slice())?)
    } else {
        checksum(rt.alloc(), call.as_str(), numbers.as_slice())
    };
    match found {
        Ok(Some(sum)) => {
            println!(rt; "{sum}")?;
            Ok(ExitCode::SUCCESS)
        }
        Ok(None) => {
            println!(rt; "error: usage")?;
            Ok(ExitCode::from(1))
        }
        Err(OutOfMemory) => Ok(ExitCode::from(9)),
    }
}

fn main(rt: HostRuntime) -> io::Result<ExitCode> {
    run(&rt)
}
