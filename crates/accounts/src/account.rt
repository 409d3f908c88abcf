//! The running numbers of one account.
ghost use Rattle.std.specs.Prelude.{◌≡◌, ◌≤◌, ◌<◌, ◌+◌, ◌-◌, ◌^◌, min};
ghost use Rattle.accounts.specs.Moves.{topped_up, debited};
ghost use Rattle.accounts.specs.Numbers.{numbers_of};

use crate::charge::Charge;

/// The running numbers of an account.
#[derive(Clone, Copy, Debug)]
pub struct Account {
    pub topups: u128,
    pub taken: u128,
    pub owed: u128,
    pub reserved: u128,
}

impl Account {
    /// A new account.
    pub fn empty() -> Account
        ensures numbers { numbers_of result ≡ record { topups = 0; taken = 0; owed = 0 } }
        ensures reserved { result.reserved ≡ 0 }
    {
        Account {
            topups: 0,
            taken: 0,
            owed: 0,
            reserved: 0,
        }
    }

    /// Its balance.
    pub fn balance(self) -> u128
        requires { self.taken ≤ self.topups }
        ensures { result ≡ self.topups - self.taken }
    {
        self.topups - self.taken
    }

    /// What is free.
    pub fn free(self) -> u128
        requires { self.reserved + self.taken ≤ self.topups }
        ensures { result ≡ self.topups - self.taken - self.reserved }
    {
        self.topups - self.taken - self.reserved
    }

    /// After a top-up, which pays what is owed first.
    pub fn topped_up(self, amount: u128) -> Account
        requires topups { self.topups + amount < 2 ^ 128 }
        requires taken { self.taken ≤ self.topups }
        ensures numbers { numbers_of result ≡ topped_up (numbers_of self) amount }
        ensures reserved { result.reserved ≡ self.reserved }
    {
        let paid = amount.min(self.owed);
        Account {
            topups: self.topups + amount,
            taken: self.taken + paid,
            owed: self.owed - paid,
            reserved: self.reserved,
        }
    }

    /// Where the amount of a charge comes from, with this much left of its own reservation.
    pub fn parts(self, left: u128, amount: u128) -> Charge
        requires { self.reserved + self.taken ≤ self.topups }
        ensures own { result.from_own ≡ min amount left }
        ensures free { result.from_free ≡ min (amount - left) (self.topups - self.taken - self.reserved) }
        ensures owed { result.owed ≡ amount - left - (self.topups - self.taken - self.reserved) }
        ensures all { result.from_own + result.from_free + result.owed ≡ amount }
    {
        let from_own = amount.min(left);
        let from_free = (amount - from_own).min(self.free());
        Charge {
            from_own,
            from_free,
            owed: amount - from_own - from_free,
        }
    }

    /// After a charge of these parts.
    pub fn debited(self, parts: Charge) -> Account
        requires reserved { parts.from_own ≤ self.reserved }
        requires sums { self.taken + self.owed + (parts.from_own + parts.from_free + parts.owed) < 2 ^ 128 }
        ensures numbers { numbers_of result ≡ debited (numbers_of self) (parts.from_own + parts.from_free) parts.owed }
        ensures reserved { result.reserved + parts.from_own ≡ self.reserved }
    {
        Account {
            topups: self.topups,
            taken: self.taken + (parts.from_own + parts.from_free),
            owed: self.owed + parts.owed,
            reserved: self.reserved - parts.from_own,
        }
    }

    /// With this much set aside.
    pub fn with_reserved(self, reserved: u128) -> Account
        ensures numbers { numbers_of result ≡ numbers_of self }
        ensures reserved { result.reserved ≡ reserved }
    {
        Account { reserved, ..self }
    }
}
