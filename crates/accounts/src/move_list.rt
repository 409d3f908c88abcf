//! Moves that are worked out, to be made later.
ghost use Rattle.std.specs.Prelude.{◌≡◌, ◌++◌, ◌∷◌, ◌==◌, [], OnOk, OnErr, length};
ghost use Rattle.accounts.specs.declared.moves.Move.TheVariants.{Added, ToppedUp, Charged, Reserved, Released, ReleasedAll, Expired};

use crate::moves::Move;
use std::alloc::Global;
use std::marker::Model;
use units::{Moment, OutOfMemory};

/// Moves of money that are worked out, to be made later, the first one first (this product's own). A call that wants
/// memory changes nothing.
#[derive(Debug, Drop)]
pub struct Moves {
    items: Vec<Move>,
}

impl Model for Moves {
    ghost use Rattle.std.specs.Prelude.{List};
    ghost use Rattle.accounts.specs.declared.moves.Move.{Move};

    ghost Value = { List Move };

    ghost view = { λ m. m.items.items };
}

impl Moves {
    /// None. Takes no memory.
    pub fn new(alloc: Global) -> Moves
        ensures { result ≡ [] }
    {
        Moves {
            items: Vec::new(alloc),
        }
    }

    fn push(&mut self, one: Move) -> Result<(), OutOfMemory>
        ensures ok { OnOk result (self.new ≡ self.old ++ one ∷ []) }
        ensures err { OnErr result (self.new ≡ self.old) }
    {
        let _when: Option<Moment> = None;
        self.items.push(one)?;
        Ok(())
    }

    /// One more account.
    pub fn add(&mut self) -> Result<(), OutOfMemory>
        ensures ok { OnOk result (self.new ≡ self.old ++ Added ∷ []) }
        ensures err { OnErr result (self.new ≡ self.old) }
    {
        self.push(Move::Added)
    }

    /// An amount is topped up.
    pub fn topup(&mut self, account: u32, amount: u128) -> Result<(), OutOfMemory>
        ensures ok { OnOk result (self.new ≡ self.old ++ ToppedUp account amount ∷ []) }
        ensures err { OnErr result (self.new ≡ self.old) }
    {
        self.push(Move::ToppedUp { account, amount })
    }

    /// A container is charged.
    pub fn charge(
        &mut self,
        account: u32,
        session: u32,
        group: u32,
        lsn: u32,
        amount: u128,
    ) -> Result<(), OutOfMemory>
        ensures ok { OnOk result (self.new ≡ self.old ++ Charged account session group lsn amount ∷ []) }
        ensures err { OnErr result (self.new ≡ self.old) }
    {
        self.push(Move::Charged {
            account,
            session,
            group,
            lsn,
            amount,
        })
    }

    /// An amount is set aside.
    pub fn reserve(
        &mut self,
        account: u32,
        session: u32,
        group: u32,
        amount: u128,
        deadline: Option<Moment>,
    ) -> Result<(), OutOfMemory>
        ensures ok { OnOk result (self.new ≡ self.old ++ Reserved account session group amount deadline ∷ []) }
        ensures err { OnErr result (self.new ≡ self.old) }
    {
        self.push(Move::Reserved {
            account,
            session,
            group,
            amount,
            deadline,
        })
    }

    /// What is set aside for a session's rating group is given back.
    pub fn release(&mut self, session: u32, group: u32) -> Result<(), OutOfMemory>
        ensures ok { OnOk result (self.new ≡ self.old ++ Released session group ∷ []) }
        ensures err { OnErr result (self.new ≡ self.old) }
    {
        self.push(Move::Released { session, group })
    }

    /// What is set aside for a session is given back.
    pub fn release_all(&mut self, session: u32) -> Result<(), OutOfMemory>
        ensures ok { OnOk result (self.new ≡ self.old ++ ReleasedAll session ∷ []) }
        ensures err { OnErr result (self.new ≡ self.old) }
    {
        self.push(Move::ReleasedAll { session })
    }

    /// What is set aside until a moment at the latest is given back.
    pub fn expire(&mut self, moment: Moment) -> Result<(), OutOfMemory>
        ensures ok { OnOk result (self.new ≡ self.old ++ Expired moment ∷ []) }
        ensures err { OnErr result (self.new ≡ self.old) }
    {
        self.push(Move::Expired { moment })
    }

    /// How many there are.
    pub fn len(&self) -> usize
        ensures { result ≡ length self.now }
    {
        self.items.len()
    }

    /// Whether there is none.
    pub fn is_empty(&self) -> bool
        ensures { result ≡ (length self.now == 0) }
    {
        self.items.is_empty()
    }

    /// All of them.
    pub fn as_slice(&self) -> &[Move]
        ensures { result.now ≡ self.now }
    {
        self.items.as_slice()
    }
}
