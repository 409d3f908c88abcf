//! What holds of the notices of each subscription.
ghost use Rattle.notice_laws.specs.Laws.{AllAreNumbered, AllLeaveInOrder, ChangesAreTold};

/// A law of every list of commands that came to be; it does nothing. The notices of a subscription have the numbers 1,
/// 2, 3 and so on in the order in which the commands made them, and leave in that order, each once (this product's
/// own).
pub fn notices_stand()
    ensures numbered { AllAreNumbered }
    ensures leave { AllLeaveInOrder }
{
    notices::notices_in_order();
}

/// A law of every list of commands that came to be; it does nothing. The notices of a subscription that a command makes
/// are exactly the one that says which of the counters that it watches have another status, by what was spent on the
/// account of its subscriber before the command and after it; and none where there is no such counter, or where the
/// subscription is not live (TS 29.594, 4.2.4).
pub fn notices_tell_changes()
    ensures { ChangesAreTold }
{
    chf_core::states_are_joined();
    chf_core::money_balances();
    chf_core::ledger_is_whole();
    notices_stand();
}
