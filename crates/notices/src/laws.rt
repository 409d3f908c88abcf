//! What holds of all notices of a subscription.
ghost use Rattle.notices.specs.Steps.{NoticesAreNumbered, NoticesLeaveInOrder};

/// A law of every list of what happens to subscriptions and their notices; it does nothing. The notices of a
/// subscription have the numbers 1, 2, 3 and so on in the order in which they were made, and leave in that order, each
/// once (this product's own).
pub fn notices_in_order()
    ensures numbered { NoticesAreNumbered }
    ensures leave { NoticesLeaveInOrder }
{}
