//! The program: makes the devices of the system, calls `charging` and exits with its status.
#![tactic(auto)]

use charging::{Status, charging};
use edge::{StreamSink, StreamSource};
use std::process::ExitCode;
use std::{env, io};
use units::{List, OutOfMemory, Text};

// The words after the program's name. Words that are no text count as none.
fn words(rt: &HostRuntime) -> Result<List<Text>, OutOfMemory> {
    let mut words = List::new(rt.alloc());
    if let Ok(args) = env::args(rt) {
        for word in args.skip(1) {
            words.push(Text::from_string(word))?;
        }
    }
    Ok(words)
}

fn run(rt: &HostRuntime) -> Result<Status, OutOfMemory> {
    let words = words(rt)?;
    let mut input = StreamSource::new(rt.alloc(), rt.reader())?;
    let mut output = StreamSink::new(rt.alloc(), io::writer(rt))?;
    Ok(charging(rt.alloc(), &words, &mut input, &mut output))
}

fn main(rt: HostRuntime) -> ExitCode {
    match run(&rt) {
        Ok(status) => ExitCode::from(status.code()),
        Err(OutOfMemory) => ExitCode::from(Status::OutOfMemory.code()),
    }
}
