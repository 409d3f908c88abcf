//! How a container was closed.
use units::{Moment, TriggerType};

/// How a container was closed (TS 32.255, 5.2.1).
#[derive(Clone, Copy, Debug)]
pub struct Close {
    /// What closed it.
    pub trigger: TriggerType,
    /// When it was closed.
    pub moment: Moment,
}
