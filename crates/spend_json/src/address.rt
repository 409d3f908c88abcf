//! The address for notifications.
ghost use Rattle.std.specs.Prelude.{◌≡◌, IfOk};
ghost use Rattle.spend_json.specs.Address.{is_address};

use std::alloc::{AllocError, Global};
use url::{ParseError, Url};

/// Whether a text may be an address for notifications.
pub fn is_address(alloc: Global, text: &str) -> Result<bool, AllocError>
    ensures { IfOk result (λ b. b ≡ is_address text.now) }
{
    if text.len() > 255 {
        return Ok(false);
    }
    match Url::parse(alloc, text) {
        Ok(url) => Ok(url.scheme() == "http"),
        Err(ParseError::OutOfMemory) => Err(AllocError),
        Err(ParseError::Overflow) => Err(AllocError),
        Err(_) => Ok(false),
    }
}
