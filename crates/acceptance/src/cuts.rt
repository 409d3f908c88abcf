//! HTTP/1.1 messages of a stream that comes in pieces: cut in two at each place, and byte by byte.
ghost use Rattle.std.specs.Prelude.{◌<◌};

use crate::http::{all_requests, all_responses, spread};
use edge::{Counted, Failed, MemSource, Source, Stream};
use std::alloc::Global;
use units::OutOfMemory;

/// A source that gives at most so many bytes at its first read, and at most so many at each later one.
#[derive(Drop)]
struct Pieces {
    source: MemSource,
    most: usize,
    later: usize,
    ghost some: { 0 < most },
    ghost more: { 0 < later },
}

impl Counted for Pieces {
    ghost faults = { λ p. p.source.script.faults };

    ghost failed_openings = { λ _. 0 };
}

impl Stream for Pieces {
    ghost use Rattle.std.specs.Prelude.{None, Some};
    ghost use Rattle.edge.specs.Connections.{untold};

    ghost left = { λ p. Some p.source.left };

    ghost written = { λ _. None };

    ghost connections = { λ _. None };

    ghost openings = { λ _. untold };

    ghost present = { λ _. tt };
}

impl Source for Pieces {
    fn read(&mut self, into: &mut [u8]) -> Result<usize, Failed> {
        let end = into.len().min(self.most);
        self.most = self.later;
        self.source.read(&mut into[..end])
    }
}

// The messages of a stream that comes in these pieces.
fn messages(
    alloc: Global,
    kind: &str,
    bytes: &[u8],
    first: usize,
    later: usize,
) -> Result<String, OutOfMemory> {
    let mut source = Pieces {
        source: MemSource::new(alloc, bytes, &[])?,
        most: first.max(1),
        later: later.max(1),
    };
    match kind {
        "request" => all_requests(alloc, &mut source),
        "response" => all_responses(alloc, &mut source),
        _ => Ok(String::from_str(alloc, "no such kind")?),
    }
}

/// The messages of a stream, where they are the same byte by byte and for each cut in two, and how many cuts there are; else
/// those of the first cut with others.
pub fn cuts(alloc: Global, kind: &str, words: &str) -> Result<String, OutOfMemory> {
    let bytes = spread(alloc, words)?;
    let whole = messages(alloc, kind, bytes.as_slice(), 1, 1)?;
    for first in 1..=bytes.len() {
        let told = messages(alloc, kind, bytes.as_slice(), first, usize::MAX)?;
        if told != whole {
            return Ok(format!(in alloc; "{first} first: {told}")?);
        }
    }
    let count = bytes.len();
    let whole = whole.as_str();
    Ok(format!(in alloc; "{count} cuts: {whole}")?)
}
