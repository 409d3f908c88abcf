//! Searches among ascending names, and among the ascending limits of a counter.
ghost use Rattle.std.specs.Prelude.{◌≡◌, ℕ, None, nat_lt, MatchOption, MatchResult, option_map};
ghost use Rattle.std.specs.Option.{option_copied};
ghost use Rattle.std.specs.List.{list_all};
ghost use Rattle.std.specs.List.Sorted.{IsNonDecreasingBy};
ghost use Rattle.counters.specs.declared.row.Limit.{Limit as Bound};
ghost use Rattle.counters.specs.Names.{AreAscending, IsThere, IsGap};
ghost use Rattle.counters.specs.Status.{reached};

use crate::row::Limit;
use units::Text;

/// Where a name is among ascending ones, or where it would go.
pub fn search(names: &[Text], name: &str) -> Result<usize, usize>
    requires { AreAscending names.now }
    ensures { MatchResult result (IsThere names.now name.now) (IsGap names.now name.now) }
{
    names.binary_search_by(|one| one.as_str().cmp(name))
}

/// Whether an amount is above all of some ascending limits.
pub fn is_above(limits: &[Limit], amount: u128) -> bool
    requires { IsNonDecreasingBy (λ (l : Bound). l.amount) limits.now }
    ensures { result ≡ list_all (λ l. nat_lt l.amount amount) limits.now }
{
    match limits.last() {
        Some(last) => last.amount < amount,
        None => true,
    }
}

/// The greatest of some ascending limits that is not above an amount.
pub fn reached(limits: &[Limit], spent: u128) -> Option<&Limit>
    requires { IsNonDecreasingBy (λ (l : Bound). l.amount) limits.now }
    ensures { option_copied result ≡ reached limits.now spent }
{
    let count = limits.partition_point(|limit| limit.amount <= spent);
    if count > 0 {
        Some(&limits[count - 1])
    } else {
        None
    }
}
