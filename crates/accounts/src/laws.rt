//! What holds of every list of moves, and of one.
ghost use Rattle.accounts.specs.Balanced.{BooksBalance, TopupsAreSummed};
ghost use Rattle.accounts.specs.Lines.{LinesAreCharges};
ghost use Rattle.accounts.specs.Since.{HasLeft, OwesNothing, HasNone};
ghost use Rattle.accounts.specs.Steps.{ChargesTake, ReservesTake, ReleasesGive, BalanceStays, OwnersStay, SomeIsLeft};

/// After every list of moves, each account's balance and its lines are together its top-ups and what it owes, what is
/// set aside is within the balance, and its top-ups are the sum of the amounts topped up (this product's own).
pub fn accounts_balance()
    ensures books { BooksBalance }
    ensures topups { TopupsAreSummed }
{}

/// After every list of moves, a reservation that was neither released nor expired has left what was set aside less what
/// was charged to it since, and a charge within it owes nothing; where none was made since, none is there (this
/// product's own).
pub fn reservations_hold()
    ensures left { HasLeft }
    ensures owed { OwesNothing }
    ensures none { HasNone }
{}

/// What a charge, a reservation and a release each do to what is free on an account and left of a reservation, and that
/// an account stays in balance, so that a caller can work out an answer before it makes the moves (this product's own).
pub fn moves_change_free()
    ensures charge { ChargesTake }
    ensures reserve { ReservesTake }
    ensures release { ReleasesGive }
    ensures balance { BalanceStays }
{}

/// Each reservation stays with the account that it was made on, and something is left of it (this product's own).
pub fn reservations_stay()
    ensures owners { OwnersStay }
    ensures some { SomeIsLeft }
{}

/// After every list of moves the ledger has a line for each charge, the oldest first, and no other (this product's own).
pub fn lines_are_charges()
    ensures { LinesAreCharges }
{}
