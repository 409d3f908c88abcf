//! The tariff of one rating group.
ghost use Rattle.std.specs.Prelude.{◌≡◌, ◌<◌, ◌≤◌, ◌*◌, ◌^◌, ◌∷◌, ◌++◌, [], Some, IfSome, OnOk, length, max, option_copied, nat_lt, true};
ghost use Rattle.std.specs.List.{list_all};
ghost use Rattle.std.specs.List.Sorted.{IsNonDecreasingBy};
ghost use Rattle.rating.specs.declared.period.Period.{Period};
ghost use Rattle.rating.specs.Row.{IsSmall};
ghost use Rattle.rating.specs.Grammar.{suits, may_extend};
ghost use Rattle.rating.specs.Grant.{unit_price, granted_by};
ghost use Rattle.rating.specs.Price.{period_at, hour_of, in_time, cost};
ghost use Rattle.rating.specs.Switch.{switch_after, switches, IsFirstSwitch};

use crate::grant::{Grant, no_quota, quota, wish_of};
use crate::period::Period;
use crate::search::{begin, hour_of, period_at, switch_after};
use crate::terms::{Kind, Terms};
use std::alloc::{AllocError, Global};
use std::marker::Model;
use units::{Ask, Code, List, Moment};

/// The tariff of a rating group.
#[derive(Debug, Drop)]
pub struct Tariff {
    terms: Terms,
    periods: List<Period>,
    top: u64,
    begun: [usize; 24],
}

impl Model for Tariff {
    ghost use Rattle.rating.specs.Tariff.{GroupTariff};

    ghost Value = { GroupTariff };

    ghost use Rattle.rating.specs.Caches.{kept_tariff, IsKept};

    ghost view = { kept_tariff };

    ghost invariant = { IsKept };
}

impl Clone for Tariff {
    ghost use Rattle.std.specs.Prelude.{◌≡◌};

    ghost is_clone = { λ a b. b ≡ a };

    fn clone(&self) -> Result<Tariff, AllocError> {
        Ok(Tariff {
            terms: self.terms,
            periods: self.periods.clone()?,
            top: self.top,
            begun: self.begun,
        })
    }
}

/// The price of a unit of a kind.
fn unit_price(kind: Kind, period: &Period) -> u64
    ensures { result ≡ unit_price kind period.now }
{
    match kind {
        Kind::Volume => period.up.max(period.down),
        Kind::Time => period.seconds,
        Kind::Offline => 0,
    }
}

/// The top price with one period more.
fn higher_top(top: u64, kind: Kind, period: &Period) -> u64
    ensures { result ≡ max top (unit_price kind period.now) }
{
    top.max(unit_price(kind, period))
}

/// Whether a kind may have these prices.
fn suits(kind: Kind, period: &Period) -> bool
    ensures { result ≡ suits kind period.now }
{
    match kind {
        Kind::Volume => period.seconds == 0,
        Kind::Time => period.up == 0 && period.down == 0,
        Kind::Offline => true,
    }
}

/// Whether an hour is above those of all periods.
fn is_later(periods: &[Period], hour: u32) -> bool
    requires { IsNonDecreasingBy (λ (p : Period). p.hour) periods.now }
    ensures { result ≡ list_all (λ p. nat_lt p.hour hour) periods.now }
{
    match periods.last() {
        Some(last) => last.hour < hour,
        None => true,
    }
}

/// What an amount costs at a price.
fn amount(amount: u64, price: u64) -> u128
    requires { price ≤ 2 ^ 32 }
    ensures value { result ≡ amount * price }
    ensures range { result < 2 ^ 97 }
{
    u128::from(amount) * u128::from(price)
}

/// What octets and seconds cost by the prices of a period.
pub fn cost(period: Option<Period>, up: u64, down: u64, seconds: u32) -> u128
    requires { IfSome period IsSmall }
    ensures { result ≡ cost period up down seconds }
{
    match period {
        Some(p) => amount(up, p.up) + amount(down, p.down) + amount(u64::from(seconds), p.seconds),
        None => 0,
    }
}

impl Tariff {
    pub fn new(alloc: Global, terms: Terms) -> Tariff
        ensures { result ≡ record { terms = terms; periods = [] } }
    {
        Tariff {
            terms,
            periods: List::new(alloc),
            top: 0,
            begun: [0; 24],
        }
    }

    /// Whether a period may be added.
    pub fn admits(&self, period: &Period) -> bool
        ensures { result ≡ may_extend self.now period.now }
    {
        suits(self.terms.kind, period) && is_later(self.periods.as_slice(), period.hour)
    }

    /// Adds a period.
    pub fn add(&mut self, period: Period) -> Result<(), AllocError>
        requires small { IsSmall period }
        requires later { list_all (λ p. nat_lt p.hour period.hour) self.old.periods ≡ true }
        ensures { OnOk result (self.new ≡ record { terms = self.old.terms; periods = self.old.periods ++ period ∷ [] }) }
    {
        self.periods.push(period)?;
        self.top = higher_top(self.top, self.terms.kind, &period);
        begin(&mut self.begun, period.hour, self.periods.len());
        Ok(())
    }

    /// The terms.
    pub fn terms(&self) -> Terms
        ensures { result ≡ self.now.terms }
    {
        self.terms
    }

    /// Whether there is any period.
    pub fn has_price(&self) -> bool
        ensures { result ≡ nat_lt 0 (length self.now.periods) }
    {
        !self.periods.is_empty()
    }

    /// The price of usage by the period that holds a moment.
    pub fn price(&self, up: u64, down: u64, seconds: u32, first: Moment) -> u128
        ensures { result ≡ cost (period_at (hour_of (in_time first)) self.now.periods) up down seconds }
    {
        let period = period_at(self.periods.as_slice(), &self.begun, hour_of(first));
        cost(period, up, down, seconds)
    }

    /// The first switch strictly after a moment.
    pub fn next_switch(&self, after: Moment) -> Option<Moment>
        ensures value { result ≡ switch_after self.now.periods after }
        ensures first { IsFirstSwitch (switches self.now.periods) after result }
    {
        switch_after(self.periods.as_slice(), &self.begun, after)
    }

    /// The grant out of free money.
    pub fn grant(&self, free: u128, ask: &Ask) -> Grant
        ensures { result ≡ granted_by self.now free ask.now }
    {
        let asked = match self.terms.kind {
            Kind::Volume => ask.volume,
            Kind::Time => ask.seconds.map(u64::from),
            Kind::Offline => return no_quota(Code::NotApplicable),
        };
        quota(wish_of(self.terms.chunk, asked), self.top, free)
    }
}
