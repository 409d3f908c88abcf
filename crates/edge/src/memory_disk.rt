//! A disk in memory, which can be told to stop or to fail.
ghost use Rattle.std.specs.Prelude.{◌≡◌, ◌<◌, ◌≤◌, ◌+◌, ◌-◌, ◌++◌, ◌^◌, ◌⊎◌, [], ⊤, List, ℕ, length, take, drop, min, IfOk, OnOk, OnErr, IsErr, Option, Some, IsTrue, true, false, refl};
ghost use Rattle.edge.specs.Faults.{FailsWithCause};
ghost use Rattle.edge.specs.Disk.{EachFollows, IfFenced, IsFailed, IsOnlyImage, KeepsImages, KeepsRoom, Room, Torn};
ghost use Rattle.edge.specs.DiskScript.{Leaves, after_turn, is_going, is_ready, turn_of};
ghost use Rattle.edge.specs.MemDisks.{HasRoomFor, Makes, Overruns, TurnsAway};
ghost use Rattle.edge.specs.Stored.{IsImageOf, synced, written};
ghost use Rattle.edge.specs.StoredImages.{reads_as};

use crate::disk::{Disk, DiskRefusal};
use crate::disk_script::{DiskScript, Turn};
use crate::disk_store::Store;
use crate::traits::{Counted, Failed};
use std::alloc::Global;
use units::OutOfMemory;

/// Bytes in memory under an epoch, with what is told of the calls to come (this product's own).
#[derive(Drop)]
pub struct MemDisk {
    store: Store,
    script: DiskScript,
    own: u64,
}

impl MemDisk {
    ghost use Rattle.edge.specs.MemDisks.{calls_of, epoch_of, store_of};

    /// A disk of epoch 0 without a byte, and with room for so many.
    pub fn new(alloc: Global, capacity: usize) -> Result<MemDisk, OutOfMemory>
        ensures store { IfOk result (λ d. store_of d ≡ record { bytes = []; synced = 0; spans = []; size = capacity }) }
        ensures calls { IfOk result (λ d. calls_of d ≡ record { stop_in = 0; fail_in = 0; is_stopped = false; fill = []; faults = 0 }) }
        ensures epoch { IfOk result (λ d. epoch_of d ≡ 0) }
    {
        Ok(MemDisk {
            store: Store::new(alloc, capacity)?,
            script: DiskScript::new(),
            own: 0,
        })
    }

    /// The bytes as they are now, after a stop too.
    pub fn bytes(&self) -> &[u8]
        ensures { result.now ≡ (store_of self.now).bytes }
    {
        self.store.bytes()
    }

    /// The n-th call from now is not made, all later ones fail until `resume`, and the ranges written since the last sync
    /// hold the fill.
    pub fn stop_at(&mut self, n: u32, fill: &[u8])
        requires { length fill.now ≤ 16 }
        ensures { self.new ≡ record self.old { script = record (calls_of self.old) { stop_in = n; fill = fill.now } } }
    {
        self.script.stop_at(n, fill);
    }

    /// The n-th call from now fails.
    pub fn fail_at(&mut self, n: u32)
        ensures { self.new ≡ record self.old { script = record (calls_of self.old) { fail_in = n } } }
    {
        self.script.fail_at(n);
    }

    /// The calls are made again.
    pub fn resume(&mut self)
        ensures { self.new ≡ record self.old { script = record (calls_of self.old) { is_stopped = false } } }
    {
        self.script.resume();
    }
}

impl MemDisk {
    ghost use Rattle.edge.specs.Faults.{CountRose};
    ghost use Rattle.edge.specs.MemDisks.{HasPassed, refusal_at, room_of};

    // A call under an epoch below the disk's is counted, and changes nothing else.
    fn turn_away(&mut self) -> DiskRefusal
        ensures refusal { result ≡ refusal_at (turn_of self.old.script) self.old.own }
        ensures calls { self.new.script ≡ after_turn self.old.script }
        ensures store { self.new.store ≡ self.old.store }
        ensures epoch { self.new.own ≡ self.old.own }
        ensures later { self.old.script.faults ≤ self.new.script.faults }
        ensures rose { result ≡ DiskRefusal.Failed → CountRose self.old.script.faults self.new.script.faults }
        ensures fenced { (e : ℕ) → result ≡ DiskRefusal.Fenced e → e ≡ self.old.own }
        ensures ready { IsTrue (is_ready self.old.script) → (self.new.script.faults ≡ self.old.script.faults) × IsTrue (is_ready self.new.script) }
    {
        match self.script.turn() {
            Turn::Goes => DiskRefusal::Fenced(self.own),
            Turn::Fails => DiskRefusal::Failed,
            Turn::Stops => DiskRefusal::Failed,
        }
    }

    // A call that makes nothing of the bytes: whether it goes on. A stop settles them.
    fn passes(&mut self) -> bool
        ensures goes { result ≡ is_going (turn_of self.old.script) }
        ensures calls { self.new.script ≡ after_turn self.old.script }
        ensures store { Leaves (turn_of self.old.script) self.old.script.fill self.old.store self.old.store self.old.store self.new.store }
        ensures epoch { self.new.own ≡ self.old.own }
        ensures passed { HasPassed self.old.store self.new.store self.old.script.faults self.new.script.faults result (is_ready self.old.script) (is_ready self.new.script) }
        ensures room { KeepsRoom self.old.script.faults self.new.script.faults (Some (room_of self.old)) (Some (room_of self.new)) (λ _. ⊤) 0 }
    {
        match self.script.turn() {
            Turn::Goes => true,
            Turn::Fails => false,
            Turn::Stops => {
                self.store.settle(self.script.fill());
                false
            }
        }
    }
}

impl MemDisk {
    ghost use Rattle.std.specs.Prelude.{if◌then◌else◌};
    ghost use Rattle.edge.specs.DiskScript.{with_fault};
    ghost use Rattle.edge.specs.Faults.{CountRose};

    // A write past the room, or of a range more than there is a place for.
    fn overrun(&mut self) -> DiskRefusal
        ensures failed { result ≡ DiskRefusal.Failed }
        ensures calls { self.new.script ≡ (if is_going (turn_of self.old.script) then with_fault (after_turn self.old.script) else after_turn self.old.script) }
        ensures store { Leaves (turn_of self.old.script) self.old.script.fill self.old.store self.old.store self.old.store self.new.store }
        ensures epoch { self.new.own ≡ self.old.own }
        ensures later { self.old.script.faults ≤ self.new.script.faults }
        ensures rose { CountRose self.old.script.faults self.new.script.faults }
        ensures images { KeepsImages (IsImageOf self.old.store) (IsImageOf self.new.store) }
        ensures size { self.new.store.size ≡ self.old.store.size }
        ensures ranges { length self.new.store.spans ≤ length self.old.store.spans }
        ensures ready { IsTrue (is_ready self.old.script) → IsTrue (is_ready self.new.script) }
    {
        if self.passes() {
            self.script.fault();
        }
        DiskRefusal::Failed
    }
}

impl Counted for MemDisk {
    ghost faults = { λ d. d.script.faults };

    ghost failed_openings = { λ _. 0 };
}

impl Disk for MemDisk {
    ghost use Rattle.std.specs.Prelude.{is_some};
    ghost use Rattle.edge.specs.Disk.{ChangesNothing, overwritten};
    ghost use Rattle.edge.specs.MemDisks.{IsQuiet, calls_of, epoch_of, room_of, store_of};

    ghost content = { λ d. Some d.store.bytes };

    ghost told_epoch = { λ d. Some d.own };

    ghost is_image = { λ d c. IsImageOf d.store c };

    ghost room = { λ d. Some (record { size = d.store.size; ranges = length d.store.spans; ready = is_ready d.script }) };

    ghost reads_as_image = { λ d b is. reads_as d.store b is };

    ghost tells_with_epoch = { λ d c im. (d.own, refl) };

    fn length(&mut self) -> Result<u64, Failed>
        ensures length { IfOk result (λ n. n ≡ length (store_of self.old).bytes) }
        ensures made { Makes self.old self.new (store_of self.old) (store_of self.old) (epoch_of self.old) result }
        ensures quiet { IsQuiet self.old self.new result (IsErr result) }
    {
        if !self.passes() {
            return Err(Failed);
        }
        Ok(self.store.bytes().len() as u64)
    }

    fn read(&mut self, at: u64, into: &mut [u8]) -> Result<usize, Failed>
        ensures count { IfOk result (λ n. n ≡ min (length into.old) (length (store_of self.old).bytes - at)) }
        ensures bytes { IfOk result (λ n. into.new ≡ take n (drop at (store_of self.old).bytes) ++ drop n into.old) }
        ensures made { Makes self.old self.new (store_of self.old) (store_of self.old) (epoch_of self.old) result }
        ensures quiet { IsQuiet self.old self.new result (IsErr result) }
    {
        if !self.passes() {
            return Err(Failed);
        }
        Ok(copy_from(self.store.bytes(), at, into))
    }

    fn epoch(&mut self) -> Result<u64, Failed>
        ensures value { IfOk result (λ n. n ≡ epoch_of self.old) }
        ensures made { Makes self.old self.new (store_of self.old) (store_of self.old) (epoch_of self.old) result }
        ensures quiet { IsQuiet self.old self.new result (IsErr result) }
    {
        if !self.passes() {
            return Err(Failed);
        }
        Ok(self.own)
    }

    fn sync(&mut self, epoch: u64) -> Result<(), DiskRefusal>
        ensures turned_away { epoch < epoch_of self.old → TurnsAway self.old self.new result }
        ensures made { epoch_of self.old ≤ epoch → Makes self.old self.new (store_of self.old) (synced (store_of self.old)) (epoch_of self.old) result }
        ensures durable { OnOk result (IsOnlyImage (Some (store_of self.old).bytes) (IsImageOf (store_of self.new))) }
        ensures clean { OnOk result ((s : Room) → Some (room_of self.new) ≡ Some s → s.ranges ≡ 0) }
        ensures fenced { IfFenced result (λ s. (epoch < s) × ((e : ℕ) → Some (epoch_of self.old) ≡ Some e → s ≡ e)) }
        ensures refuses { (e : ℕ) → Some (epoch_of self.old) ≡ Some e → epoch < e
            → IsErr result × ChangesNothing (Some (store_of self.old).bytes) (Some (store_of self.new).bytes) (Some (epoch_of self.old)) (Some (epoch_of self.new)) (IsImageOf (store_of self.old)) (IsImageOf (store_of self.new)) }
        ensures quiet { IsQuiet self.old self.new result (IsFailed result) }
    {
        if epoch < self.own {
            return Err(self.turn_away());
        }
        if !self.passes() {
            return Err(DiskRefusal::Failed);
        }
        self.store.sync();
        Ok(())
    }

    fn claim(&mut self, epoch: u64) -> Result<(), DiskRefusal>
        requires { epoch < 2 ^ 63 }
        ensures turned_away { epoch ≤ epoch_of self.old → TurnsAway self.old self.new result }
        ensures made { epoch_of self.old < epoch → Makes self.old self.new (store_of self.old) (store_of self.old) epoch result }
        ensures claimed { (e : ℕ) → Some (epoch_of self.old) ≡ Some e → OnOk result ((e < epoch) × (Some (epoch_of self.new) ≡ Some epoch)) }
        ensures made_or_not { OnErr result ((Some (epoch_of self.new) ≡ Some (epoch_of self.old))
            ⊎ ((e : ℕ) × (Some (epoch_of self.old) ≡ Some e) × (e < epoch) × (Some (epoch_of self.new) ≡ Some epoch))) }
        ensures same { OnOk result (Some (store_of self.new).bytes ≡ Some (store_of self.old).bytes) }
        ensures crash { KeepsImages (IsImageOf (store_of self.old)) (IsImageOf (store_of self.new)) }
        ensures refuses { (e : ℕ) → Some (epoch_of self.old) ≡ Some e → epoch ≤ e
            → IsErr result × ChangesNothing (Some (store_of self.old).bytes) (Some (store_of self.new).bytes) (Some (epoch_of self.old)) (Some (epoch_of self.new)) (IsImageOf (store_of self.old)) (IsImageOf (store_of self.new)) }
        ensures fenced { IfFenced result (λ s. (epoch ≤ s) × ((e : ℕ) → Some (epoch_of self.old) ≡ Some e → s ≡ e)) }
        ensures cause { FailsWithCause (calls_of self.old).faults (calls_of self.new).faults (IsFailed result) }
        ensures room { KeepsRoom (calls_of self.old).faults (calls_of self.new).faults (Some (room_of self.old)) (Some (room_of self.new)) (λ r. ⊤) 0 }
    {
        if epoch <= self.own {
            return Err(self.turn_away());
        }
        if !self.passes() {
            return Err(DiskRefusal::Failed);
        }
        self.own = epoch;
        Ok(())
    }

    fn write(&mut self, epoch: u64, at: u64, bytes: &[u8]) -> Result<(), DiskRefusal>
        ensures turned_away { epoch < epoch_of self.old → TurnsAway self.old self.new result }
        ensures made { epoch_of self.old ≤ epoch → HasRoomFor at (length bytes.now) (store_of self.old)
            → Makes self.old self.new (written at bytes.now (store_of self.old)) (written at bytes.now (store_of self.old)) (epoch_of self.old) result }
        ensures overrun { epoch_of self.old ≤ epoch → (HasRoomFor at (length bytes.now) (store_of self.old) → ⊥) → Overruns self.old self.new result }
        ensures written { (b : List ℕ) → Some (store_of self.old).bytes ≡ Some b → OnOk result (Some (store_of self.new).bytes ≡ Some (overwritten at bytes.now b)) }
        ensures epoch { Some (epoch_of self.new) ≡ Some (epoch_of self.old) }
        ensures crash { EachFollows (Torn at (length bytes.now)) (IsImageOf (store_of self.old)) (IsImageOf (store_of self.new)) }
        ensures refuses { (e : ℕ) → Some (epoch_of self.old) ≡ Some e → epoch < e
            → IsErr result × ChangesNothing (Some (store_of self.old).bytes) (Some (store_of self.new).bytes) (Some (epoch_of self.old)) (Some (epoch_of self.new)) (IsImageOf (store_of self.old)) (IsImageOf (store_of self.new)) }
        ensures fenced { IfFenced result (λ s. (epoch < s) × ((e : ℕ) → Some (epoch_of self.old) ≡ Some e → s ≡ e)) }
        ensures cause { FailsWithCause (calls_of self.old).faults (calls_of self.new).faults (IsFailed result) }
        ensures room { KeepsRoom (calls_of self.old).faults (calls_of self.new).faults (Some (room_of self.old)) (Some (room_of self.new))
            (λ r. (at + length bytes.now ≤ r.size) × (r.ranges < 16)) 1 }
    {
        if epoch < self.own {
            return Err(self.turn_away());
        }
        if !self.store.fits(at, bytes.len()) {
            return Err(self.overrun());
        }
        match self.script.turn() {
            Turn::Goes => {
                self.store.write(at as usize, bytes);
                Ok(())
            }
            Turn::Fails => Err(DiskRefusal::Failed),
            Turn::Stops => {
                self.store.write(at as usize, bytes);
                self.store.settle(self.script.fill());
                Err(DiskRefusal::Failed)
            }
        }
    }
}

// Copies the bytes from a place on, as far as there are and room is.
fn copy_from(bytes: &[u8], at: u64, into: &mut [u8]) -> usize
    ensures count { result ≡ min (length into.old) (length bytes.now - at) }
    ensures copied { into.new ≡ take result (drop at bytes.now) ++ drop result into.old }
{
    if at >= bytes.len() as u64 {
        return 0;
    }
    let rest = &bytes[at as usize..];
    let count = rest.len().min(into.len());
    into[..count].copy_from_slice(&rest[..count]);
    count
}
