//! The keys of sessions and requests.
use units::Text;

/// What tells sessions apart: the consumer and the charging id.
#[derive(Clone, Debug, Drop)]
pub struct Name {
    pub consumer: Text,
    pub charging_id: u32,
}

/// The key of a request: its session and its number.
#[derive(Clone, Debug, Drop)]
pub struct Key {
    pub session: Name,
    pub number: u32,
}
