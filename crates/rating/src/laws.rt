//! What holds of all tariffs.
ghost use Rattle.std.specs.Prelude.{List, ℕ};
ghost use Rattle.rating.specs.Laws.{GrantsAreSmall, TermsAreSmall, GrantsAreCovered, GrantsArePaid, NextSwitchesAreFirst, PricesAreBounded, PricesChangeAtSwitches, ReservesSuffice, SwitchesAreWholeHours};
ghost use Rattle.rating.specs.Runs.{CutsArePricedRight, RunsArePricedRight};

/// A law of all tariffs; it does nothing. A run of reports of a rating group with no switch of the group between their moments costs, as
/// one container of their sums at the first moment, what the reports cost, each at its own moment; and so does each container of a cut
/// under the group's switches, and the cut as a whole (this product's own).
pub fn runs_are_priced_right()
    ensures runs { (rows : List (List (List ℕ))) → RunsArePricedRight rows }
    ensures cuts { (rows : List (List (List ℕ))) → CutsArePricedRight rows }
{}

/// A law of all tariffs; it does nothing. Prices change at switches only, these are whole hours, and the next switch is the first one strictly
/// after a moment (this product's own).
pub fn prices_change_at_switches()
    ensures steady { (rows : List (List (List ℕ))) → PricesChangeAtSwitches rows }
    ensures hours { (rows : List (List (List ℕ))) → SwitchesAreWholeHours rows }
    ensures next { (rows : List (List (List ℕ))) → NextSwitchesAreFirst rows }
{}

/// A law of all tariffs; it does nothing. Usage of a group with quotas costs at no moment more than its units at the top price, so usage
/// within the units of a grant costs at no moment more than what the grant sets aside, and that is within the free money (this product's
/// own).
pub fn reserves_suffice()
    ensures pay { (rows : List (List (List ℕ))) → ReservesSuffice rows }
    ensures grants { (rows : List (List (List ℕ))) → GrantsArePaid rows }
    ensures covered { (rows : List (List (List ℕ))) → GrantsAreCovered rows }
{}

/// A law of all tariffs; it does nothing. Usage costs at most 2^32 grains for each octet and second, so that sums of prices stay within
/// their types (this product's own).
pub fn prices_are_bounded()
    ensures { (rows : List (List (List ℕ))) → PricesAreBounded rows }
{}

/// A law of all tariffs; it does nothing. The terms of a rating group are in the ranges of their fields, and a grant has at
/// most the units of its group's chunk, so that what is said of it is in the ranges of a reply (TS 32.291, 6.1.6.2.1.8; the
/// ranges are this product's own).
pub fn terms_are_in_range()
    ensures terms { (rows : List (List (List ℕ))) → TermsAreSmall rows }
    ensures grants { (rows : List (List (List ℕ))) → GrantsAreSmall rows }
{}
