//! The Location of a charging session, read and written.
ghost use Rattle.std.specs.Prelude.{◌≡◌, IfOk, Ok, Some, option_map, option_and_then, string_bytes};
ghost use Rattle.charging_json.specs.Location.{base, path_of, below_collection, reference_in, reference_of, location_text};

use rows::number;
use std::alloc::{AllocError, Global};
use units::{OutOfMemory, Text};
use url::{ParseError, Url};

// What a Location is read against.
fn peer(alloc: Global) -> Result<Url, AllocError>
    ensures { IfOk result (λ u. u ≡ base) }
{
    match Url::parse(alloc, "http://peer/") {
        Ok(url) => Ok(url),
        Err(_) => Err(AllocError),
    }
}

// The path of a Location; none where it is no URL reference.
fn location_path(alloc: Global, location: &str) -> Result<Option<String>, AllocError>
    ensures { IfOk result (λ o. option_map string_bytes o ≡ path_of location.now) }
{
    let base = peer(alloc)?;
    match base.join(location) {
        Ok(url) => Ok(Some(String::from_str(alloc, url.path())?)),
        Err(ParseError::OutOfMemory) => Err(AllocError),
        Err(ParseError::Overflow) => Err(AllocError),
        Err(_) => Ok(None),
    }
}

// What follows the collection in a path.
fn below_collection(path: &[u8]) -> Option<&[u8]>
    ensures { option_map (λ t. t.now) result ≡ below_collection path.now }
{
    path.strip_prefix(b"/nchf-convergedcharging/v3/chargingdata/")
}

// A reference, from its digits.
fn reference_in(text: &[u8]) -> Option<u32>
    ensures { result ≡ reference_in text.now }
{
    match number(4294967295, text) {
        Some(n) => if 1 <= n { Some(n as u32) } else { None },
        None => None,
    }
}

/// The reference of the charging session that a Location names; `None` where it names none.
pub fn reference(alloc: Global, location: &str) -> Result<Option<u32>, AllocError>
    ensures { IfOk result (λ o. o ≡ reference_of location.now) }
{
    match location_path(alloc, location)? {
        Some(path) => match below_collection(path.as_bytes()) {
            Some(text) => Ok(reference_in(text)),
            None => Ok(None),
        },
        None => Ok(None),
    }
}

/// The Location of the charging session with a reference, which `read_reply` reads as that reference (TS 32.291, 6.1.3.3).
pub fn session_location(alloc: Global, reference: u32) -> Result<Text, OutOfMemory>
    ensures { IfOk result (λ t. t ≡ location_text reference) }
{
    let text = format!(in alloc; "/nchf-convergedcharging/v3/chargingdata/{reference}")?;
    Ok(Text::from_string(text))
}
