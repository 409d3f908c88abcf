//! The response to a message.
use units::List;

/// A response as it is written on the connection (RFC 9112 section 4).
#[derive(Debug, Drop)]
pub struct Response {
    /// The HTTP status.
    pub status: u16,
    /// The whole text.
    pub bytes: List<u8>,
}
