//! The messages of both ends.
use units::{List, Text};

/// A request (RFC 9112 section 3).
#[derive(Debug, Drop)]
pub struct HttpRequest {
    pub method: Text,
    /// The request target as it was sent, with its query.
    pub path: Text,
    /// At most 1,048,576 bytes.
    pub body: List<u8>,
    /// Whether the connection ends with this message: its version is 1.0, or it says so.
    pub close: bool,
}

/// A response (RFC 9112 section 4).
#[derive(Debug, Drop)]
pub struct HttpResponse {
    /// 0 to 999, as it was sent.
    pub status: u16,
    /// The value of the first Location that is text.
    pub location: Option<Text>,
    /// At most 1,048,576 bytes.
    pub body: List<u8>,
}
