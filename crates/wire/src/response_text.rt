//! The text of a response.
ghost use Rattle.std.specs.Prelude.{◌≡◌, ◌≤◌, ◌<◌, ◌++◌, [], IfOk, unwrap_or, option_map};
ghost use Rattle.http.specs.StatusCode.{code_digits, reason_phrase};
ghost use Rattle.wire.specs.ReadBack.{ResponseReadsBack};
ghost use Rattle.wire.specs.Texts.{body_lines, body_of, close_line, content_type, location_line, response_text, status_line};

use crate::line::{put_line, put_number};
use http::StatusCode;
use std::alloc::{AllocError, Global};
use units::{List, OutOfMemory};

const NO_CONTENT: u16 = 204;

fn phrase_of(status: StatusCode) -> &'static str
    ensures { result.now ≡ unwrap_or (reason_phrase status) [] }
{
    match status.canonical_reason() {
        Some(phrase) => phrase,
        None => "",
    }
}

fn put_status_line(out: &mut Vec<u8>, status: StatusCode) -> Result<(), AllocError>
    ensures { IfOk result (λ _. out.new.items ≡ out.old.items ++ status_line status) }
{
    out.extend_from_slice(b"HTTP/1.1 ")?;
    out.extend_from_slice(status.as_str().as_bytes())?;
    out.extend_from_slice(b" ")?;
    out.extend_from_slice(phrase_of(status).as_bytes())?;
    out.extend_from_slice(b"\r\n")?;
    Ok(())
}

fn put_close_line(out: &mut Vec<u8>, close: bool) -> Result<(), AllocError>
    ensures { IfOk result (λ _. out.new.items ≡ out.old.items ++ close_line close) }
{
    if close {
        put_line(out, b"Connection", b"close")?;
    }
    Ok(())
}

fn type_of(status: u16) -> &'static [u8]
    ensures { result.now ≡ content_type status }
{
    if status < 300 {
        b"application/json"
    } else {
        b"application/problem+json"
    }
}

fn put_body_lines(out: &mut Vec<u8>, status: u16, body: &[u8]) -> Result<(), AllocError>
    ensures { IfOk result (λ _. out.new.items ≡ out.old.items ++ body_lines status body.now) }
{
    if status != NO_CONTENT {
        put_number(out, b"Content-Length", body.len())?;
        put_line(out, b"Content-Type", type_of(status))?;
    }
    Ok(())
}

fn put_location_line(out: &mut Vec<u8>, location: Option<&str>) -> Result<(), AllocError>
    ensures { IfOk result (λ _. out.new.items ≡ out.old.items ++ location_line (option_map (λ text. text.now) location.entry)) }
{
    if let Some(location) = location {
        put_line(out, b"Location", location.as_bytes())?;
    }
    Ok(())
}

fn put_body(out: &mut Vec<u8>, status: u16, body: &[u8]) -> Result<(), AllocError>
    ensures { IfOk result (λ _. out.new.items ≡ out.old.items ++ body_of status body.now) }
{
    if status != NO_CONTENT {
        out.extend_from_slice(body)?;
    }
    Ok(())
}

/// A response with a JSON body, or with none at 204; a status of 300 and above is a problem (RFC 9112 section 4). It is read
/// as the same, whatever follows, where the Location may stand in a head and the body is at most 1,048,576 bytes.
pub fn response_bytes(
    alloc: Global,
    status: u16,
    location: Option<&str>,
    body: &[u8],
    close: bool,
) -> Result<List<u8>, OutOfMemory>
    requires code { 100 ≤ status }
    requires within { status < 1000 }
    ensures text { IfOk result (λ bytes. bytes ≡ response_text status (option_map (λ text. text.now) location.entry) body.now close) }
    ensures reads_back { IfOk result (ResponseReadsBack status (option_map (λ text. text.now) location.entry) body.now) }
{
    let Ok(code) = StatusCode::from_u16(status) else {
        unreachable!();
    };
    let mut out = Vec::new(alloc);
    put_status_line(&mut out, code)?;
    put_close_line(&mut out, close)?;
    put_body_lines(&mut out, status, body)?;
    put_location_line(&mut out, location)?;
    out.extend_from_slice(b"\r\n")?;
    put_body(&mut out, status, body)?;
    Ok(List::from_vec(out))
}
