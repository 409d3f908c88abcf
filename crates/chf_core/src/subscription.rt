//! What is kept of a subscriber row and of a top-up.
use crate::barred::Barred;
use units::Text;

/// A subscriber: the name of its account and the rating groups that are barred.
#[derive(Debug, Drop)]
pub(crate) struct Subscription {
    pub(crate) account: Text,
    pub(crate) barred: Barred,
}

/// A top-up: the name of its account and the amount.
#[derive(Clone, Debug, Drop)]
pub(crate) struct Sum {
    pub(crate) account: Text,
    pub(crate) amount: u128,
}
