//! Heads of requests.
ghost use Rattle.std.specs.Prelude.{◌≡◌, ◌==◌, ◌||◌, All, codes, length, map};
ghost use Rattle.httparse.specs.Spans.{IsHeaderWithin, IsRequestOf, IsRequestWithin, header_bytes};
ghost use Rattle.wire.specs.Fields.{has_value};
ghost use Rattle.wire.specs.RequestParts.{AreRequestParts};
ghost use Rattle.wire.specs.Requests.{IsHopelessRequest, IsRequestHeadAt};
ghost use Rattle.wire.specs.Starts.{IsFound};

use crate::field_line::{Line, is_known};
use crate::framed::{FoundHead, Framed, Start};
use crate::length::{read_body_length, says};
use crate::message::HttpRequest;
use crate::target::ends_in_target;
use crate::text::text_of;
use httparse::Status;
use httparse::spans::{HeaderSpan, RequestSpans, Span, parse_request};
use std::alloc::{AllocError, Global};
use units::List;

/// Where the parts of a request's head lie in it, and whether the connection ends with it.
#[derive(Clone, Copy, Debug)]
pub struct RequestParts {
    pub method: Span,
    pub path: Span,
    pub close: bool,
}

// Whether the connection ends after a head of this version with these fields.
fn closes(bytes: &[u8], fields: &[HeaderSpan], version: u8) -> bool
    requires { All (IsHeaderWithin (length bytes.now)) fields.now }
    ensures { result ≡ ((version == 0) || has_value (codes "connection") (codes "close") (map (header_bytes bytes.now) fields.now)) }
{
    version == 0 || says(bytes, fields, b"connection", b"close")
}

// What the parser found, as the reader wants it.
fn found_head(bytes: &[u8], fields: &[HeaderSpan], head: &RequestSpans) -> FoundHead<RequestParts>
    requires within { IsRequestWithin bytes.now fields.now head.now }
    requires read { IsRequestOf bytes.now fields.now head.now }
    ensures { IsFound IsRequestHeadAt AreRequestParts bytes.now result }
{
    let fields = &fields[..head.headers];
    FoundHead {
        size: head.len,
        body: read_body_length(bytes, fields),
        parts: RequestParts {
            method: head.method,
            path: head.path,
            close: closes(bytes, fields, head.version),
        },
    }
}

impl Framed for HttpRequest {
    type Parts = RequestParts;

    ghost is_at = { IsRequestHeadAt };

    ghost is_hopeless = { IsHopelessRequest };

    ghost are_parts = { AreRequestParts };

    fn parse(near: &[u8], fields: &mut [HeaderSpan]) -> Start<RequestParts> {
        match parse_request(near, fields) {
            Ok(Status::Complete(head)) => Start::Found(found_head(near, fields, &head)),
            Ok(Status::Partial) => Start::Open,
            Err(_) => if ends_in_target(near) {
                Start::Open
            } else {
                Start::Hopeless
            },
        }
    }

    fn goes_on(_near: &[u8], _had: usize, line: Line) -> bool {
        is_known(line)
    }

    fn message(
        alloc: Global,
        head: &[u8],
        parts: RequestParts,
        body: &[u8],
    ) -> Result<HttpRequest, AllocError> {
        Ok(HttpRequest {
            method: text_of(alloc, parts.method.of(head))?,
            path: text_of(alloc, parts.path.of(head))?,
            body: List::from_vec(Vec::from_slice(alloc, body)?),
            close: parts.close,
        })
    }
}
