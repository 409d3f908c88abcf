//! What holds of all lists of commands.
ghost use Rattle.chf_core.specs.KeptRequests.{KeptAreKeyed, RepeatsGetFirstReplies};
ghost use Rattle.chf_core.specs.Laws.{FirstOutcomes, FreshAreKept, KeptForGood};
ghost use Rattle.chf_core.specs.MoneyLaws.{AccountsAreMoved, AccountsAreNamed, AccountsBalance, TopupsAreAdded, LedgerIsWhole};
ghost use Rattle.chf_core.specs.WithinGrant.{UseWithinGrantsOwesNothing};
ghost use Rattle.chf_core.specs.Bounds.{SumsAreBounded};
ghost use Rattle.chf_core.specs.Verdicts.{VerdictsSuitCommands};

/// A law of all lists of commands; it does nothing. The outcome at a place is the one that its command has from the commands before it; a
/// request that is kept stays kept at its place, whatever command comes (TS 32.290, 5.3.2; this product's own).
pub fn replies_stand()
    ensures first { FirstOutcomes }
    ensures fresh { FreshAreKept }
    ensures kept { KeptForGood }
{}

/// A law of all lists of commands; it does nothing. A request that is kept gets the first reply that its session has under its number, to a
/// request of its content (TS 32.290, 5.3.2; keeping first replies is this product's own).
pub fn repeats_get_first_replies()
    ensures { RepeatsGetFirstReplies }
{}

/// A law of all lists of commands; it does nothing. Each request is answered by a reply that was kept, a refusal of requests or a new reply, and
/// each operator's command is known, refused as a top-up, or done (TS 32.290, 5.3.2; this product's own).
pub fn verdicts_suit_commands()
    ensures { VerdictsSuitCommands }
{}

/// A law of all lists of commands, each of which was fresh at its place; it does nothing. No two kept requests of a session have one number,
/// so that the first reply under a number is one (TS 32.290, 5.3.2; this product's own).
pub fn numbers_are_used_once()
    ensures { KeptAreKeyed }
{}

/// A law of all lists of commands; it does nothing. Of each account the balance and the ledger's lines are together its top-ups and what it
/// owes, what is set aside is within the balance, and the top-ups are the sum of the amounts topped up; the accounts are those that the
/// moves of the commands make, each of which was allowed where it was made, and as many as the names of accounts (TS 32.290, 5.2.2; this
/// product's own).
pub fn money_balances()
    ensures balance { AccountsBalance }
    ensures topups { TopupsAreAdded }
    ensures moved { AccountsAreMoved }
    ensures named { AccountsAreNamed }
{
    accounts::accounts_balance();
    rating::reserves_suffice();
}

/// A law of all lists of commands; it does nothing. The ledger has one line for each container of each accepted request, in their order, on the
/// account of the session's Create and with the price of the container's amounts at its first moment (TS 32.290, 5.2.2; this product's own).
pub fn ledger_is_whole()
    ensures { LedgerIsWhole }
{}

/// A law of all lists of commands; it does nothing. While the latest grant of a session's rating group stands, which neither asked anew nor
/// gave back since, and the units charged since are together within those granted, no part of what is charged for them is owed
/// (TS 32.290, 5.2.2; this product's own).
pub fn use_within_grants_owes_nothing()
    ensures { UseWithinGrantsOwesNothing }
{
    accounts::reservations_hold();
    rating::reserves_suffice();
}

/// A law of all lists of commands; it does nothing. Within this product's limits (octets of a container at most 2^61, a top-up at most 2^80
/// grains) what an account was charged is at most 2^94 grains for each container of the list, and what was topped up at most 2^80 for each
/// top-up: no sum passes its type in a list of at most 2^31 of both (this product's own).
pub fn sums_are_bounded()
    ensures { SumsAreBounded }
{
    rating::prices_are_bounded();
    money_balances();
}
