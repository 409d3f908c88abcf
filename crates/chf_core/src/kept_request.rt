//! What is kept of a charging data request.
use crate::command::Outcome;
use units::Request;

/// A charging data request that is kept: its place among the commands, the charging id of its session, its content and
/// what it came to (keeping first replies: this product's own).
#[derive(Clone, Debug, Drop)]
pub(crate) struct KeptRequest {
    pub(crate) place: u32,
    pub(crate) charging_id: u32,
    pub(crate) request: Request,
    pub(crate) outcome: Outcome,
}
