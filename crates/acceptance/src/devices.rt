//! The top call over devices in memory, some calls of which fail.
use crate::values::small;
use charging::charging;
use edge::{MemSink, MemSource};
use std::alloc::Global;
use units::{List, OutOfMemory, Text};

/// The calls that fail, as numbers between commas.
pub fn failing(alloc: Global, word: &str) -> Result<List<u32>, OutOfMemory> {
    let mut calls = List::new(alloc);
    for number in word.split(',') {
        if !number.is_empty() {
            calls.push(small(number))?;
        }
    }
    Ok(calls)
}

fn words_of(alloc: Global, text: &str) -> Result<List<Text>, OutOfMemory> {
    let mut words = List::new(alloc);
    for word in text.split(' ') {
        words.push(Text::from_text(alloc, word)?)?;
    }
    Ok(words)
}

/// The exit status and the output of the words of a command, over an input and an output of so many bytes, the calls of which fail
/// that are named. A semicolon stands for each line feed.
pub fn devices(
    alloc: Global,
    words: &str,
    input: &str,
    reads: &str,
    writes: &str,
    room: &str,
) -> Result<String, OutOfMemory> {
    let words = words_of(alloc, words)?;
    let lines = input.replace(alloc, ";", "\n")?;
    let mut input = MemSource::new(alloc, lines.as_bytes(), failing(alloc, reads)?.as_slice())?;
    let room = small(room) as usize;
    let mut output = MemSink::new(alloc, room, failing(alloc, writes)?.as_slice())?;
    let status = charging(alloc, &words, &mut input, &mut output).code();
    let printed = std::str::from_utf8(output.bytes()).unwrap_or("?");
    let shown = printed.replace(alloc, "\n", ";")?;
    Ok(format!(in alloc; "{status} {shown}")?)
}
