//! HTTP/1.1 messages: what is read of a stream of bytes, to its end or its first refusal, and what is written.
use crate::values::{octets, small};
use edge::{MemSource, Source};
use std::alloc::Global;
use units::OutOfMemory;
use wire::{Conn, HttpRequest, HttpResponse, WireRefusal};

/// The most messages of a stream.
const MOST_MESSAGES: u32 = 1000;

/// Bytes written as hexadecimal words with blanks between them, each of which may be repeated.
pub fn spread(alloc: Global, words: &str) -> Result<Vec<u8>, OutOfMemory> {
    let mut bytes = Vec::new(alloc);
    for word in words.split_whitespace() {
        let (digits, times) = word.split_once('*').unwrap_or((word, "1"));
        let piece = octets(alloc, digits)?;
        for _ in 0..small(times) {
            bytes.extend_from_slice(piece.as_slice())?;
        }
    }
    Ok(bytes)
}

// The word of a refusal, which ends a stream.
fn refusal(alloc: Global, refusal: WireRefusal) -> Result<String, OutOfMemory> {
    match refusal {
        WireRefusal::BadHead => Ok(String::from_str(alloc, "bad")?),
        WireRefusal::TooLong { head: true } => Ok(String::from_str(alloc, "long head")?),
        WireRefusal::TooLong { head: false } => Ok(String::from_str(alloc, "long body")?),
        WireRefusal::Chunked => Ok(String::from_str(alloc, "chunked")?),
        WireRefusal::ReadFault => Ok(String::from_str(alloc, "fault")?),
        WireRefusal::CutShort { had } => Ok(format!(in alloc; "cut {had}")?),
        WireRefusal::OutOfMemory => Err(OutOfMemory),
    }
}

/// What a request is.
pub fn asked(alloc: Global, request: &HttpRequest) -> Result<String, OutOfMemory> {
    let method = request.method.as_str();
    let path = request.path.as_str();
    let close = if request.close { "close" } else { "keep" };
    let count = request.body.len();
    Ok(format!(in alloc; "{method} {path} {close} {count}; ")?)
}

/// What a response is.
pub fn answered(alloc: Global, response: &HttpResponse) -> Result<String, OutOfMemory> {
    let status = response.status;
    let location = match &response.location {
        Some(location) => location.as_str(),
        None => "-",
    };
    let count = response.body.len();
    Ok(format!(in alloc; "{status} {location} {count}; ")?)
}

/// The requests of a source.
pub fn all_requests<S: Source>(alloc: Global, source: &mut S) -> Result<String, OutOfMemory> {
    let mut conn = Conn::new(alloc)?;
    let mut told = String::new(alloc);
    for _ in 0..MOST_MESSAGES {
        match conn.read_request(alloc, source) {
            Ok(Some(request)) => told.push_str(asked(alloc, &request)?.as_str())?,
            Ok(None) => {
                told.push_str("end")?;
                return Ok(told);
            }
            Err(why) => {
                told.push_str(refusal(alloc, why)?.as_str())?;
                return Ok(told);
            }
        }
    }
    Ok(told)
}

/// The responses of a source.
pub fn all_responses<S: Source>(alloc: Global, source: &mut S) -> Result<String, OutOfMemory> {
    let mut conn = Conn::new(alloc)?;
    let mut told = String::new(alloc);
    for _ in 0..MOST_MESSAGES {
        match conn.read_response(alloc, source) {
            Ok(response) => told.push_str(answered(alloc, &response)?.as_str())?,
            Err(why) => {
                told.push_str(refusal(alloc, why)?.as_str())?;
                return Ok(told);
            }
        }
    }
    Ok(told)
}

/// The requests of a stream.
pub fn requests(alloc: Global, words: &str) -> Result<String, OutOfMemory> {
    let mut source = MemSource::new(alloc, spread(alloc, words)?.as_slice(), &[])?;
    all_requests(alloc, &mut source)
}

/// The responses of a stream.
pub fn responses(alloc: Global, words: &str) -> Result<String, OutOfMemory> {
    let mut source = MemSource::new(alloc, spread(alloc, words)?.as_slice(), &[])?;
    all_responses(alloc, &mut source)
}
