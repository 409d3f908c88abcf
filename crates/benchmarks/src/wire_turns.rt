//! Turns of reading HTTP requests, beside `httparse` alone on the same bytes.
ghost use Rattle.std.specs.Prelude.{◌<◌};

use edge::{Counted, Failed, MemSource, Source, Stream};
use httparse::Status;
use httparse::spans::{EMPTY_HEADER_SPAN, parse_request};
use std::alloc::Global;
use units::OutOfMemory;
use wire::Conn;

/// A small request as `curl` sends it, 212 bytes.
const REQUEST: &[u8] =
    b"POST /nchf-convergedcharging/v3/chargingdata/17/update HTTP/1.1\r\nHost: 127.0.0.1:8080\r\nUser-Agent: curl/7.88.1\r\nAccept: */*\r\nContent-Type: application/json\r\nContent-Length: 30\r\n\r\n{\"invocationSequenceNumber\":1}";

/// How many requests stand one after another in a stream.
const REQUESTS: u64 = 1000;

/// A source that gives at most so many bytes a read.
#[derive(Drop)]
struct Pieces {
    source: MemSource,
    size: usize,
    ghost some: { 0 < size },
}

impl Counted for Pieces {
    ghost faults = { λ p. p.source.script.faults };

    ghost failed_openings = { λ _. 0 };
}

impl Stream for Pieces {
    ghost use Rattle.std.specs.Prelude.{None, Some};
    ghost use Rattle.edge.specs.Connections.{untold};

    ghost left = { λ p. Some p.source.left };

    ghost written = { λ _. None };

    ghost connections = { λ _. None };

    ghost openings = { λ _. untold };

    ghost present = { λ _. tt };
}

impl Source for Pieces {
    fn read(&mut self, into: &mut [u8]) -> Result<usize, Failed> {
        let end = into.len().min(self.size);
        self.source.read(&mut into[..end])
    }
}

fn stream(alloc: Global) -> Result<Vec<u8>, OutOfMemory> {
    let mut bytes = Vec::new(alloc);
    for _ in 0..REQUESTS {
        bytes.extend_from_slice(REQUEST)?;
    }
    Ok(bytes)
}

/// Reads streams of a thousand requests so many times, which come in pieces of this size, and counts their bodies' bytes.
pub fn read_messages(alloc: Global, piece: u64, turns: u64) -> Result<u64, OutOfMemory> {
    let bytes = stream(alloc)?;
    let size = usize::try_from(piece).unwrap_or(usize::MAX).max(1);
    let mut conn = Conn::new(alloc)?;
    let mut count = 0u64;
    for _ in 0..turns {
        let mut source = Pieces {
            source: MemSource::new(alloc, bytes.as_slice(), &[])?,
            size,
        };
        for _ in 0..REQUESTS {
            if let Ok(Some(request)) = conn.read_request(alloc, &mut source) {
                count = count.wrapping_add(request.body.len() as u64);
            }
        }
    }
    Ok(count)
}

/// Reads the heads of as many requests by `httparse` alone, and counts their bytes.
pub fn parsed_heads(alloc: Global, turns: u64) -> Result<u64, OutOfMemory> {
    let bytes = stream(alloc)?;
    let mut count = 0u64;
    for _ in 0..turns {
        for request in bytes.chunks(REQUEST.len()) {
            let mut fields = [EMPTY_HEADER_SPAN; 66];
            if let Ok(Status::Complete(head)) = parse_request(request, &mut fields) {
                count = count.wrapping_add(head.len as u64);
            }
        }
    }
    Ok(count)
}

/// Reads each front of a request by `httparse` alone, as its parser makes a reader do to whom the request comes byte by byte, as
/// often as `read_messages` reads one, and counts the whole heads.
pub fn parsed_fronts(turns: u64) -> u64 {
    let mut fields = [EMPTY_HEADER_SPAN; 66];
    let mut count = 0u64;
    for _ in 0..turns {
        for _ in 0..REQUESTS {
            for end in 1..REQUEST.len() {
                if let Ok(Status::Complete(_)) = parse_request(&REQUEST[..end], &mut fields) {
                    count = count.wrapping_add(1);
                }
            }
        }
    }
    count
}
