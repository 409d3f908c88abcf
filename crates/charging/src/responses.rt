//! The line of a response: `STATUS LOCATION BODY`.
ghost use Rattle.std.specs.Prelude.{◌≡◌, ◌++◌, OnOk};
ghost use Rattle.std.specs.Fmt.{decimal};
ghost use Rattle.charging.specs.Answering.{part, part_of, response_line};

use chf_messages::Response;
use std::alloc::Global;
use units::{OutOfMemory, Text};

/// Writes a number in decimal.
pub fn push_number(alloc: Global, number: u16, out: &mut Vec<u8>) -> Result<(), OutOfMemory>
    ensures { OnOk result (out.new.items ≡ out.old.items ++ decimal number) }
{
    let text = format!(in alloc; "{number}")?;
    out.extend_from_slice(text.as_bytes())?;
    Ok(())
}

fn push_location(location: &Option<Text>, out: &mut Vec<u8>) -> Result<(), OutOfMemory>
    ensures { OnOk result (out.new.items ≡ out.old.items ++ part_of location.now) }
{
    match location {
        Some(location) => out.extend_from_slice(location.as_str().as_bytes())?,
        None => out.extend_from_slice(b"-")?,
    }
    Ok(())
}

// Writes a text, a hyphen where it is empty.
fn push_part(text: &[u8], out: &mut Vec<u8>) -> Result<(), OutOfMemory>
    ensures { OnOk result (out.new.items ≡ out.old.items ++ part text.now) }
{
    match text {
        [] => out.extend_from_slice(b"-")?,
        _ => out.extend_from_slice(text)?,
    }
    Ok(())
}

/// Writes the line of a response.
pub fn push_response(
    alloc: Global,
    response: &Response,
    out: &mut Vec<u8>,
) -> Result<(), OutOfMemory>
    ensures { OnOk result (out.new.items ≡ out.old.items ++ response_line response.now) }
{
    push_number(alloc, response.status, out)?;
    out.extend_from_slice(b" ")?;
    push_location(&response.location, out)?;
    out.extend_from_slice(b" ")?;
    push_part(response.body.as_slice(), out)?;
    out.extend_from_slice(b"\n")?;
    Ok(())
}
