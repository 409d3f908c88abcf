//! What is kept of a session.
use units::Text;

/// A charging session: its consumer and charging id, the subscriber and account of its Create, its last accepted number, and whether no
/// Release came.
#[derive(Clone, Debug, Drop)]
pub(crate) struct Session {
    pub(crate) consumer: Text,
    pub(crate) charging_id: u32,
    pub(crate) supi: Text,
    pub(crate) account: u32,
    pub(crate) last: u32,
    pub(crate) is_open: bool,
}
