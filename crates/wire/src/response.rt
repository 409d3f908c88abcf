//! Heads of responses.
ghost use Rattle.std.specs.Prelude.{◌≡◌, length, IfOk};
ghost use Rattle.httparse.specs.Spans.{IsResponseOf, IsResponseWithin};
ghost use Rattle.wire.specs.ResponseParts.{AreResponseParts, IsText, text_at};
ghost use Rattle.wire.specs.Responses.{IsHopelessResponse, IsResponseHeadAt};
ghost use Rattle.wire.specs.Starts.{IsFound};

use crate::field_line::{Line, is_known};
use crate::framed::{FoundHead, Framed, Start};
use crate::length::read_body_length;
use crate::location::find_location;
use crate::message::HttpResponse;
use crate::text::text_of;
use httparse::Status;
use httparse::spans::{HeaderSpan, ResponseSpans, Span, parse_response};
use std::alloc::{AllocError, Global};
use units::{List, Text};

/// The status of a response, and where its Location lies in its head.
#[derive(Clone, Copy, Debug)]
pub struct ResponseParts {
    pub status: u16,
    pub location: Option<Span>,
}

// What the parser found, as the reader wants it.
fn found_head(bytes: &[u8], fields: &[HeaderSpan], head: &ResponseSpans) -> FoundHead<ResponseParts>
    requires within { IsResponseWithin bytes.now fields.now head.now }
    requires read { IsResponseOf bytes.now fields.now head.now }
    ensures { IsFound IsResponseHeadAt AreResponseParts bytes.now result }
{
    let fields = &fields[..head.headers];
    FoundHead {
        size: head.len,
        body: read_body_length(bytes, fields),
        parts: ResponseParts {
            status: head.code,
            location: find_location(bytes, head.len, fields),
        },
    }
}

// The text at a place, where there is one.
fn copy_text(alloc: Global, head: &[u8], place: Option<Span>) -> Result<Option<Text>, AllocError>
    requires { IsText (length head.now) head.now place }
    ensures { IfOk result (λ text. text ≡ text_at head.now place) }
{
    match place {
        Some(span) => Ok(Some(text_of(alloc, span.of(head))?)),
        None => Ok(None),
    }
}

impl Framed for HttpResponse {
    type Parts = ResponseParts;

    ghost is_at = { IsResponseHeadAt };

    ghost is_hopeless = { IsHopelessResponse };

    ghost are_parts = { AreResponseParts };

    fn parse(near: &[u8], fields: &mut [HeaderSpan]) -> Start<ResponseParts> {
        match parse_response(near, fields) {
            Ok(Status::Complete(head)) => Start::Found(found_head(near, fields, &head)),
            Ok(Status::Partial) => Start::Open,
            Err(_) => Start::Hopeless,
        }
    }

    fn goes_on(_near: &[u8], _had: usize, line: Line) -> bool {
        is_known(line)
    }

    fn message(
        alloc: Global,
        head: &[u8],
        parts: ResponseParts,
        body: &[u8],
    ) -> Result<HttpResponse, AllocError> {
        Ok(HttpResponse {
            status: parts.status,
            location: copy_text(alloc, head, parts.location)?,
            body: List::from_vec(Vec::from_slice(alloc, body)?),
        })
    }
}
