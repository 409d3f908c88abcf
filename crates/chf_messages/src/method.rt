//! The method of a message.

/// The methods that a charging function's calls have (RFC 9110, 9.3).
#[derive(Clone, Copy, PartialEq, Eq, Debug)]
pub enum Method {
    /// `POST`.
    Post,
    /// `PUT`.
    Put,
    /// `DELETE`.
    Delete,
}
