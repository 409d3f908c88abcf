//! The text of a request.
ghost use Rattle.std.specs.Prelude.{◌≡◌, ◌++◌, IfOk};
ghost use Rattle.wire.specs.ReadBack.{RequestReadsBack};
ghost use Rattle.wire.specs.Texts.{request_line, request_text};

use crate::line::{put_line, put_number};
use std::alloc::{AllocError, Global};
use units::{List, OutOfMemory};

// Adds the first line.
#[tactic(auto, unfolding(crate::specs::Texts::request_line))]
fn put_request_line(out: &mut Vec<u8>, path: &str) -> Result<(), AllocError>
    ensures { IfOk result (λ _. out.new.items ≡ out.old.items ++ request_line path.now) }
{
    out.extend_from_slice(b"POST ")?;
    out.extend_from_slice(path.as_bytes())?;
    out.extend_from_slice(b" HTTP/1.1\r\n")?;
    Ok(())
}

/// A POST with a JSON body (RFC 9112 section 3). It is read as the same, whatever follows, where host and path may stand in
/// a head and the body is at most 1,048,576 bytes.
pub fn request_bytes(
    alloc: Global,
    host: &str,
    path: &str,
    body: &[u8],
) -> Result<List<u8>, OutOfMemory>
    ensures text { IfOk result (λ bytes. bytes ≡ request_text host.now path.now body.now) }
    ensures reads_back { IfOk result (RequestReadsBack host.now path.now body.now) }
{
    let mut out = Vec::new(alloc);
    put_request_line(&mut out, path)?;
    put_number(&mut out, b"Content-Length", body.len())?;
    put_line(&mut out, b"Content-Type", b"application/json")?;
    put_line(&mut out, b"Host", host.as_bytes())?;
    out.extend_from_slice(b"\r\n")?;
    out.extend_from_slice(body)?;
    Ok(List::from_vec(out))
}
