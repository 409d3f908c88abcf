//! A journal that is open for appends: where it ends, under which epoch, and how it takes an entry.
ghost use Rattle.std.specs.Prelude.{◌≡◌, ◌<◌, ◌≤◌, ◌+◌, ◌-◌, ◌^◌, ◌++◌, ◌∷◌, [], ⊤, List, ℕ, length, take, drop, IfErr, OnOk, OnErr, IsErr, IsErrOf, IsTrue, true, false, Some, is_some, Err};
ghost use Rattle.std.specs.Int.{w32, to_be_bytes};
ghost use Rattle.edge.specs.Faults.{CountRose};
ghost use Rattle.edge.specs.Disk.{KeepsImages, Room, KeepsRoom};
ghost use Rattle.journal.specs.Bytes.{sized, StandsFor};
ghost use Rattle.journal.specs.Lists.{EachStandsFor, Extends, IsTied};
ghost use Rattle.journal.specs.State.{State, grown};

use crate::refusal::JournalRefusal;
use edge::Disk;
use std::marker::Model;

/// A journal: its epoch, where it ends, how long it may get, whether it is sound, and the buffer of the next entry (this
/// product's own).
#[derive(Drop)]
pub struct Journal {
    under: u64,
    end: u64,
    most: u64,
    sound: bool,
    buffer: Vec<u8>,
}

impl Model for Journal {
    ghost Value = { State };

    ghost view = { λ j. record { epoch = j.under; length = j.end; limit = j.most; is_sound = j.sound } };

    ghost invariant = { λ j. (length j.buffer.items ≡ 2 ^ 24 + 5) × (17 ≤ j.end) × (j.end ≤ 2 ^ 30) × (j.most ≤ 2 ^ 30) };
}

// Puts length, payload and a closed gate at the front of the buffer.
fn stage(buffer: &mut [u8], payload: &[u8])
    requires room { length payload.now + 5 ≤ length buffer.old }
    requires small { length payload.now ≤ 2 ^ 24 }
    ensures { take (length payload.now + 5) buffer.new ≡ sized payload.now ++ 0 ∷ [] }
{
    let n = payload.len();
    let size = (n as u32).to_be_bytes();
    buffer[..4].copy_from_slice(&size);
    buffer[4..n + 4].copy_from_slice(payload);
    buffer[n + 4] = 0;
}

impl Journal {
    ghost use Rattle.journal.specs.Refusals.{RefusesEntry};

    // A sound journal of this epoch, which ends here.
    pub(crate) fn at(under: u64, end: u64, limit: u32, buffer: Vec<u8>) -> Self
        requires buffer { length buffer.items ≡ 2 ^ 24 + 5 }
        requires least { 17 ≤ end }
        requires most { end ≤ 2 ^ 30 }
        requires limit { limit ≤ 2 ^ 30 }
        ensures { result ≡ record { epoch = under; length = end; limit = limit; is_sound = true } }
    {
        Journal {
            under,
            end,
            most: limit as u64,
            sound: true,
            buffer,
        }
    }

    /// Whether nothing failed since it was started: only then it takes an entry.
    pub fn is_sound(&self) -> bool
        ensures { result ≡ self.now.is_sound }
    {
        self.sound
    }

    /// The epoch under which it writes.
    pub fn epoch(&self) -> u64
        ensures { result ≡ self.now.epoch }
    {
        self.under
    }

    /// How many bytes there are up to and with the closed gate.
    pub fn length(&self) -> u64
        ensures { result ≡ self.now.length }
    {
        self.end
    }

    /// Adds an entry, by four calls of the disk: length, payload and the next closed gate; a sync; the gate; a sync.
    pub fn append<D: Disk>(&mut self, disk: &mut D, payload: &[u8]) -> Result<(), JournalRefusal>
        requires not_empty { 1 ≤ length payload.now }
        requires small { length payload.now ≤ 2 ^ 24 }
        requires sound { IsTrue self.old.is_sound }
        requires tied { (list : List (List ℕ)) × IsTied self.old (D.content disk.old) (D.told_epoch disk.old) (D.is_image disk.old) list }

        // At every exit each image stands for a list that an image stood for, or for such a list with the payload.
        ensures every_exit { EachStandsFor (D.told_epoch disk.old) (D.is_image disk.old) (λ _. ⊤)
            → Extends (D.told_epoch disk.old) (D.is_image disk.old) (D.told_epoch disk.new) (D.is_image disk.new) (payload.now ∷ []) 0 }

        // After Ok each image has the payload.
        ensures acknowledged { OnOk result (Extends (D.told_epoch disk.old) (D.is_image disk.old) (D.told_epoch disk.new) (D.is_image disk.new) (payload.now ∷ []) 1) }

        // After Ok the disk and each image stand for the list with the payload.
        ensures appended { (list : List (List ℕ)) → IsTied self.old (D.content disk.old) (D.told_epoch disk.old) (D.is_image disk.old) list
            → OnOk result (IsTied self.new (D.content disk.new) (D.told_epoch disk.new) (D.is_image disk.new) (list ++ payload.now ∷ [])) }
        ensures firm { (list : List (List ℕ)) → IsTied self.old (D.content disk.old) (D.told_epoch disk.old) (D.is_image disk.old) list
            → OnOk result ((c : List ℕ) → D.is_image disk.new c → StandsFor (D.told_epoch disk.new) c (list ++ payload.now ∷ [])) }
        ensures grown { OnOk result (self.new ≡ grown self.old (length payload.now + 5)) }

        ensures refused { IfErr result (RefusesEntry (D.told_epoch disk.old) (D.faults disk.old) (D.faults disk.new) self.old self.new disk.old disk.new (length payload.now + 5)) }
        ensures full { self.old.limit < self.old.length + (length payload.now + 5) → result ≡ Err (JournalRefusal.Full self.old.length (length payload.now + 5)) }
        ensures fenced { (e : ℕ) → D.told_epoch disk.old ≡ Some e → self.old.epoch < e → IsErr result }

        // Under an epoch that the disk refuses nothing comes to any image.
        ensures kept { (e : ℕ) → D.told_epoch disk.old ≡ Some e → self.old.epoch < e → KeepsImages (D.is_image disk.old) (D.is_image disk.new) }

        ensures epoch { D.told_epoch disk.new ≡ D.told_epoch disk.old }
        ensures tells { is_some (D.content disk.new) ≡ is_some (D.content disk.old) }
        ensures count { D.faults disk.old ≤ D.faults disk.new }
        ensures openings { D.failed_openings disk.new ≡ D.failed_openings disk.old }

        // Where the disk has the room and nothing is to come, no fault is counted.
        ensures room { KeepsRoom (D.faults disk.old) (D.faults disk.new) (D.room disk.old) (D.room disk.new) (λ r. (self.old.limit ≤ r.size) × (r.ranges < 16)) 1 }
        ensures clean { OnOk result ((s : Room) → D.room disk.new ≡ Some s → s.ranges ≡ 0) }
    {
        let need = payload.len() as u64 + 5;
        if self.end + need > self.most {
            return Err(JournalRefusal::Full {
                len: self.end,
                need,
            });
        }
        self.sound = false;
        stage(&mut self.buffer, payload);
        disk.write(self.under, self.end, &self.buffer[..payload.len() + 5])?;
        disk.sync(self.under)?;
        disk.write(self.under, self.end - 1, &[1])?;
        disk.sync(self.under)?;
        self.end += need;
        self.sound = true;
        Ok(())
    }
}
