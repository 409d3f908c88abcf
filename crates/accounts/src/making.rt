//! Moves that a caller worked out, made one after the other.
ghost use Rattle.std.specs.Prelude.{◌≡◌, ◌<◌, ◌≤◌, ◌+◌, length};
ghost use Rattle.accounts.specs.Moves.{after, IsAllowed};
ghost use Rattle.accounts.specs.Making.{Fits, made, AreMakeable};

use crate::accounts::Accounts;
use crate::moves::Move;

impl Accounts {
    /// Makes a move, which takes at most one spare place.
    pub fn make(&mut self, one: &Move)
        requires allowed { IsAllowed self.old.state one.now }
        requires fits { Fits self.old.state one.now }
        requires spare { 0 < self.old.spare }
        ensures state { self.new.state ≡ after one.now self.old.state }
        ensures spare { self.old.spare ≤ self.new.spare + 1 }
    {
        match *one {
            Move::Added => {
                let _ = self.add();
            }
            Move::ToppedUp { account, amount } => self.topup(account, amount),
            Move::Charged {
                account,
                session,
                group,
                lsn,
                amount,
            } => {
                let _ = self.charge(account, session, group, lsn, amount);
            }
            Move::Reserved {
                account,
                session,
                group,
                amount,
                deadline,
            } => {
                let _ = self.reserve(account, session, group, amount, deadline);
            }
            Move::Released { session, group } => self.release(session, group),
            Move::ReleasedAll { session } => self.release_all(session),
            Move::Expired { moment } => self.release_until(moment),
        }
    }

    /// Makes moves, the first one first. It takes no memory, and at most one spare place a move.
    pub fn make_all(&mut self, moves: &[Move])
        requires makeable { AreMakeable moves.now self.old.state }
        requires spare { length moves.now ≤ self.old.spare }
        ensures state { self.new.state ≡ made moves.now self.old.state }
        ensures spare { self.old.spare ≤ self.new.spare + length moves.now }
    {
        for one in moves {
            self.make(one);
        }
    }
}
