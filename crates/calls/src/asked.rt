//! How a call to a peer ended.
use wire::HttpResponse;

/// How a call to a peer ended (this product's own).
#[derive(Debug, Drop)]
pub enum Asked {
    /// No connection came about.
    NotSent,
    /// A later call on the link failed.
    NoReply,
    /// What the peer gave begins with this response.
    Response(HttpResponse),
    /// What the peer gave begins with no whole response.
    NoResponse,
    /// Memory was wanting for the response.
    OutOfMemory,
}
