//! A store: opened, opened again after a fault, added to.
ghost use Rattle.std.specs.Prelude.{◌≡◌, ◌==◌, ◌<◌, ◌≤◌, ◌+◌, ◌-◌, ◌^◌, ◌++◌, ◌∷◌, [], ⊤, ℕ, List as Listed, length, not, IfOk, IfErr, OnOk, OnErr, IsErr, Ok, Err, Some, None, is_some, true, false};
ghost use Rattle.edge.specs.Disk.{Room, KeepsRoom};
ghost use Rattle.journal.specs.Bytes.{StandsFor};
ghost use Rattle.journal.specs.Lists.{AddsNothing, EachBeginsWith, EachStandsFor, Grows};
ghost use Rattle.journal.specs.Reads.{IsNoJournal};
ghost use Rattle.journal.specs.State.{State as Journaled, epoch_after, grown};
ghost use Rattle.durable.specs.State.{closed};
ghost use Rattle.chf_core.specs.declared.command.Command.{Command as Commanded};
ghost use Rattle.chf_core.specs.declared.command.Outcome.{Outcome};
ghost use Rattle.chf_core.specs.declared.decision.Verdict.TheVariants as verdict;
ghost use Rattle.chf_core.specs.Decisions.{is_fresh};
ghost use Rattle.chf_core.specs.Deciding.{decision};
ghost use Rattle.chf_core.specs.After.{after, is_setup};
ghost use Rattle.chf_core.specs.Machine.{MayWantMemory};
ghost use Rattle.chf_payloads.specs.Written.{payload_of};
ghost use Rattle.chf_replay.specs.Entries.{IsAfter, IsBadAt, payloads_of};
ghost use Rattle.chf_store.specs.Entering.{Answers, commands_after, Decides, IsReadable, MayAddFresh, MayBeKept};
ghost use Rattle.chf_store.specs.Refusals.{RefusesEntering, RefusesKeeping, RefusesOpening, RefusesSettling, RefusesShowing, RefusesTaking};
ghost use Rattle.chf_store.specs.Stored.{IsStored};

use crate::adding::add;
use crate::entry::{Decided, Entered, Entry};
use crate::refusal::{StoreRefusal, handed_on};
use chf_core::{Chf, Command, Decision, histories_grow};
use chf_payloads::write_payload;
use chf_replay::{ReplayRefusal, entries_are_of_one_list, replay};
use durable::DurableList;
use edge::Disk;
use journal::bytes_stand_for_one_list;
use std::alloc::Global;
use std::marker::Model;
use units::{List, OutOfMemory};

/// A charging function's machine and the journal of its commands (this product's own).
#[derive(Drop)]
pub struct ChfStore {
    chf: Chf,
    list: DurableList,
}

impl Model for ChfStore {
    ghost use Rattle.chf_store.specs.Stored.{Store};

    ghost Value = { Store };

    ghost use Rattle.std.specs.Coded.{codes};
    ghost use Rattle.accounts.specs.Ledger.{coded_state};

    ghost coded = { Prim.hlevel (codes, coded_state) };

    ghost view = { λ s. record { machine = s.chf; durable = s.list } };
}

impl ChfStore {
    /// Opens the store of a disk, as `durable::DurableList::open` opens its list, and enters the commands of its entries.
    ///
    /// `limit`: the bytes that the journal may have, 17 to 2^30.
    pub fn open<D: Disk>(
        alloc: Global,
        disk: &mut D,
        claim: bool,
        limit: u32,
    ) -> Result<ChfStore, StoreRefusal>
        requires least { 17 ≤ limit }
        requires most { limit ≤ 2 ^ 30 }

        // At every exit each image stands for a list that an image stood for.
        ensures grows { EachStandsFor (D.told_epoch disk.old) (D.is_image disk.old) (λ _. ⊤) → Grows (D.told_epoch disk.old) (D.is_image disk.old) (D.told_epoch disk.new) (D.is_image disk.new) AddsNothing }

        // Store and disk belong together, by the commands whose payloads the entries on the disk were.
        ensures stored { IfOk result (λ r. (commands : Listed Commanded) × IsStored r (D.content disk.new) (D.told_epoch disk.new) (D.is_image disk.new) commands
            × ((b : Listed ℕ) → D.content disk.old ≡ Some b → StandsFor (D.told_epoch disk.old) b (payloads_of commands))) }
        ensures open { IfOk result (λ r. (journal : Journaled) × (r.durable ≡ record { journal = Some journal; own = journal.epoch; follows = not claim; limit = limit })) }
        ensures epoch { (e : ℕ) → D.told_epoch disk.old ≡ Some e → IfOk result (λ r. r.durable.own ≡ epoch_after claim e) }

        ensures bad_entry { (list : Listed (Listed ℕ)) (b : Listed ℕ) (place : ℕ) → D.content disk.old ≡ Some b → StandsFor (D.told_epoch disk.old) b list → IsBadAt list place → IsErr result }
        ensures no_journal { (e at : ℕ) (b : Listed ℕ) → D.told_epoch disk.old ≡ Some e → D.content disk.old ≡ Some b → 1 ≤ e → IsNoJournal b at → IsErr result }
        ensures refused { IfErr result (RefusesOpening (D.content disk.old) (D.told_epoch disk.old) claim (D.faults disk.old) (D.faults disk.new)) }
        ensures spent { (e : ℕ) → D.told_epoch disk.old ≡ Some e → 2 ^ 63 - 1 ≤ e → claim ≡ true → IsErr result }
        ensures tells_epoch { is_some (D.told_epoch disk.new) ≡ is_some (D.told_epoch disk.old) }
        ensures tells { is_some (D.content disk.new) ≡ is_some (D.content disk.old) }
        ensures count { D.faults disk.old ≤ D.faults disk.new }
        ensures openings { D.failed_openings disk.new ≡ D.failed_openings disk.old }
        ensures room { KeepsRoom (D.faults disk.old) (D.faults disk.new) (D.room disk.old) (D.room disk.new) (λ r. (17 ≤ r.size) × (r.ranges < 16)) 1 }
    {
        bytes_stand_for_one_list();
        match DurableList::open(alloc, disk, claim, limit) {
            Ok((list, entries)) => match replay(alloc, entries.as_slice()) {
                Ok(chf) => Ok(ChfStore { chf, list }),
                Err(ReplayRefusal::BadEntry { place }) => Err(StoreRefusal::BadEntry { place }),
                Err(ReplayRefusal::OutOfMemory) => Err(StoreRefusal::OutOfMemory),
            },
            Err(refusal) => Err(handed_on(refusal)),
        }
    }

    /// The machine, as the commands left it.
    pub fn chf(&self) -> &Chf
        ensures { result.now ≡ self.now.machine }
    {
        &self.chf
    }

    /// Whether its journal is open: only then it takes an entry.
    pub fn is_open(&self) -> bool
        ensures { result ≡ is_some self.now.durable.journal }
    {
        self.list.is_open()
    }

    /// The epoch that it owns, or, where it follows, under which it was opened last.
    pub fn own(&self) -> u64
        ensures { result ≡ self.now.durable.own }
    {
        self.list.own()
    }

    // Takes the machine of the entries of a journal that was opened again; where they give none the journal is closed.
    fn take(&mut self, alloc: Global, entries: &[List<u8>]) -> Result<(), StoreRefusal>
        ensures ok { OnOk result (IsAfter self.new.machine.state entries.now × (self.new.durable ≡ self.old.durable)) }
        ensures err { OnErr result (self.new ≡ record self.old { durable = closed self.old.durable }) }
        ensures none { (place : ℕ) → IsBadAt entries.now place → IsErr result }
        ensures refused { IfErr result (RefusesTaking entries.now) }
    {
        match replay(alloc, entries) {
            Ok(chf) => {
                self.chf = chf;
                Ok(())
            }
            Err(ReplayRefusal::BadEntry { place }) => {
                self.list.close();
                Err(StoreRefusal::BadEntry { place })
            }
            Err(ReplayRefusal::OutOfMemory) => {
                self.list.close();
                Err(StoreRefusal::OutOfMemory)
            }
        }
    }

    /// Opens the journal again where it was closed, and makes the machine of the entries that are there; nothing where
    /// it is open, and then the disk is not asked. After a refusal the machine is as before.
    pub fn settle<D: Disk>(&mut self, alloc: Global, disk: &mut D) -> Result<(), StoreRefusal>
        requires stored { (commands : Listed Commanded) × IsStored self.old (D.content disk.old) (D.told_epoch disk.old) (D.is_image disk.old) commands }

        // At every exit each image stands for a list that an image stood for, and that list begins with the one in memory.
        ensures grows { Grows (D.told_epoch disk.old) (D.is_image disk.old) (D.told_epoch disk.new) (D.is_image disk.new) AddsNothing }
        ensures begins { (commands : Listed Commanded) → IsStored self.old (D.content disk.old) (D.told_epoch disk.old) (D.is_image disk.old) commands → EachBeginsWith (D.told_epoch disk.new) (D.is_image disk.new) (payloads_of commands) }

        // The store goes on, or store and disk belong together by the commands whose payloads the entries on the disk were: the commands go on.
        ensures open { is_some self.old.durable.journal ≡ true → (result ≡ Ok tt) × (self.new ≡ self.old) × (disk.new ≡ disk.old) }
        ensures stored { OnOk result ((commands : Listed Commanded) × IsStored self.new (D.content disk.new) (D.told_epoch disk.new) (D.is_image disk.new) commands
            × ((b : Listed ℕ) → self.old.durable.journal ≡ None → D.content disk.old ≡ Some b → StandsFor (D.told_epoch disk.old) b (payloads_of commands))) }
        ensures goes_on { (commands : Listed Commanded) (b : Listed ℕ) → IsStored self.old (D.content disk.old) (D.told_epoch disk.old) (D.is_image disk.old) commands → D.content disk.old ≡ Some b
            → OnOk result ((later : Listed Commanded) × IsStored self.new (D.content disk.new) (D.told_epoch disk.new) (D.is_image disk.new) (later ++ commands)) }
        ensures opened { OnOk result (is_some self.new.durable.journal ≡ true) }
        ensures kept { (commands : Listed Commanded) → IsStored self.old (D.content disk.old) (D.told_epoch disk.old) (D.is_image disk.old) commands → OnErr result (IsStored self.new (D.content disk.new) (D.told_epoch disk.new) (D.is_image disk.new) commands) }
        ensures machine { OnErr result (self.new.machine ≡ self.old.machine) }
        ensures shut { OnErr result (self.new.durable.journal ≡ None) }
        ensures owns { self.old.durable.follows ≡ false → self.new.durable.own ≡ self.old.durable.own }
        ensures rest { (self.new.durable.follows ≡ self.old.durable.follows) × (self.new.durable.limit ≡ self.old.durable.limit) }

        ensures bad_entry { (list : Listed (Listed ℕ)) (b : Listed ℕ) (place : ℕ) → self.old.durable.journal ≡ None → D.content disk.old ≡ Some b → StandsFor (D.told_epoch disk.old) b list → IsBadAt list place → IsErr result }
        ensures no_journal { (e at : ℕ) (b : Listed ℕ) → self.old.durable.journal ≡ None → D.told_epoch disk.old ≡ Some e → D.content disk.old ≡ Some b → IsNoJournal b at → IsErr result }
        ensures refused { IfErr result (RefusesSettling (D.content disk.old) (D.told_epoch disk.old) (D.faults disk.old) (D.faults disk.new) self.old.durable) }
        ensures fenced { (e : ℕ) → self.old.durable.journal ≡ None → self.old.durable.follows ≡ false → D.told_epoch disk.old ≡ Some e → self.old.durable.own < e → IsErr result }
        ensures epoch { D.told_epoch disk.new ≡ D.told_epoch disk.old }
        ensures tells { is_some (D.content disk.new) ≡ is_some (D.content disk.old) }
        ensures count { D.faults disk.old ≤ D.faults disk.new }
        ensures openings { D.failed_openings disk.new ≡ D.failed_openings disk.old }
        ensures room { KeepsRoom (D.faults disk.old) (D.faults disk.new) (D.room disk.old) (D.room disk.new) (λ r. (17 ≤ r.size) × (r.ranges < 16)) 1 }
    {
        bytes_stand_for_one_list();
        entries_are_of_one_list();
        match self.list.settle(alloc, disk) {
            Ok(Some(entries)) => self.take(alloc, entries.as_slice()),
            Ok(None) => Ok(()),
            Err(refusal) => Err(handed_on(refusal)),
        }
    }

    /// Asks the disk whether the own epoch is still its greatest one: what rests on something missing is answered only
    /// then. Under a greater epoch the journal is closed; the machine is as before.
    pub fn show_own<D: Disk>(&mut self, disk: &mut D) -> Result<(), StoreRefusal>
        requires stored { (commands : Listed Commanded) × IsStored self.old (D.content disk.old) (D.told_epoch disk.old) (D.is_image disk.old) commands }
        ensures grows { Grows (D.told_epoch disk.old) (D.is_image disk.old) (D.told_epoch disk.new) (D.is_image disk.new) AddsNothing }
        ensures kept { (commands : Listed Commanded) → IsStored self.old (D.content disk.old) (D.told_epoch disk.old) (D.is_image disk.old) commands → IsStored self.new (D.content disk.new) (D.told_epoch disk.new) (D.is_image disk.new) commands }
        ensures machine { self.new.machine ≡ self.old.machine }
        ensures own { OnOk result ((self.new ≡ self.old) × ((e : ℕ) → D.told_epoch disk.old ≡ Some e → e ≡ self.old.durable.own)) }
        ensures refused { IfErr result (RefusesShowing (D.told_epoch disk.old) (D.faults disk.old) (D.faults disk.new) self.old.durable self.new.durable) }
        ensures fenced { (e : ℕ) → D.told_epoch disk.old ≡ Some e → self.old.durable.own < e → IsErr result }
        ensures epoch { D.told_epoch disk.new ≡ D.told_epoch disk.old }
        ensures tells { is_some (D.content disk.new) ≡ is_some (D.content disk.old) }
        ensures count { D.faults disk.old ≤ D.faults disk.new }
        ensures openings { D.failed_openings disk.new ≡ D.failed_openings disk.old }
        ensures room { KeepsRoom (D.faults disk.old) (D.faults disk.new) (D.room disk.old) (D.room disk.new) (λ r. ⊤) 0 }
    {
        match self.list.show_own(disk) {
            Ok(()) => Ok(()),
            Err(refusal) => Err(handed_on(refusal)),
        }
    }

    /// What is decided on a command, from memory alone; where it is fresh, with an entry that owns all that keeping it
    /// needs. The setup is the first command and no other. Nothing that is seen changes.
    pub fn decide(&mut self, alloc: Global, command: &Command) -> Result<Decided, OutOfMemory>
        requires order { is_setup command.now ≡ (self.old.machine.state.count == 0) }
        requires readable { IsReadable command.now }
        ensures same { (self.new.machine.state ≡ self.old.machine.state) × (self.new.durable ≡ self.old.durable) }
        ensures answer { IfOk result (Decides self.new.machine command.now) }
        ensures memory { OnErr result (MayWantMemory self.old.machine.state command.now) }
    {
        match self.chf.decide(alloc, command)? {
            Decision::Kept(place) => Ok(Decided::Kept(place)),
            Decision::Known => Ok(Decided::Known),
            Decision::Refused(refusal) => Ok(Decided::Refused(refusal)),
            Decision::Fresh(plan) => {
                let payload = write_payload(alloc, command)?;
                Ok(Decided::Fresh(Entry { plan, payload }))
            }
        }
    }

    /// Keeps the command of an entry, the last one that was decided: appends its payload, and then commits it. It takes
    /// no memory. After a refusal the machine is as before.
    pub fn keep<D: Disk>(&mut self, disk: &mut D, entry: Entry) -> Result<(), StoreRefusal>
        requires entry { MayBeKept self.old.machine entry }
        requires stored { (commands : Listed Commanded) × IsStored self.old (D.content disk.old) (D.told_epoch disk.old) (D.is_image disk.old) commands }

        // At every exit each image stands for a list that an image stood for, or for the list in memory and the payload.
        ensures grows { (commands : Listed Commanded) → IsStored self.old (D.content disk.old) (D.told_epoch disk.old) (D.is_image disk.old) commands → Grows (D.told_epoch disk.old) (D.is_image disk.old) (D.told_epoch disk.new) (D.is_image disk.new) (MayAddFresh commands entry.plan.command) }

        // At Ok the machine and the disk have the command.
        ensures state { OnOk result (self.new.machine.state ≡ after self.old.machine.state entry.plan.command) }
        ensures entered { (commands : Listed Commanded) → IsStored self.old (D.content disk.old) (D.told_epoch disk.old) (D.is_image disk.old) commands → OnOk result (IsStored self.new (D.content disk.new) (D.told_epoch disk.new) (D.is_image disk.new) (entry.plan.command ∷ commands)) }
        ensures kept { (commands : Listed Commanded) → IsStored self.old (D.content disk.old) (D.told_epoch disk.old) (D.is_image disk.old) commands → OnErr result (IsStored self.new (D.content disk.new) (D.told_epoch disk.new) (D.is_image disk.new) commands) }
        ensures machine { OnErr result (self.new.machine ≡ self.old.machine) }
        ensures grown { (journal : Journaled) → self.old.durable.journal ≡ Some journal
            → OnOk result (self.new.durable ≡ record self.old.durable { journal = Some (grown journal (length entry.payload + 5)) }) }

        ensures closed { self.old.durable.journal ≡ None → result ≡ Err StoreRefusal.Closed }
        ensures long { (journal : Journaled) → self.old.durable.journal ≡ Some journal → 2 ^ 24 < length entry.payload → result ≡ Err (StoreRefusal.TooLong (length entry.payload)) }
        ensures full { (journal : Journaled) → self.old.durable.journal ≡ Some journal → length entry.payload ≤ 2 ^ 24 → journal.limit < journal.length + (length entry.payload + 5)
            → result ≡ Err (StoreRefusal.Full journal.length (length entry.payload + 5)) }
        ensures fenced { (journal : Journaled) (e : ℕ) → self.old.durable.journal ≡ Some journal → D.told_epoch disk.old ≡ Some e → journal.epoch < e → IsErr result }
        ensures refused { IfErr result (RefusesKeeping (D.told_epoch disk.old) (D.faults disk.old) (D.faults disk.new) self.old.durable self.new.durable disk.old disk.new entry.payload) }
        ensures epoch { D.told_epoch disk.new ≡ D.told_epoch disk.old }
        ensures tells { is_some (D.content disk.new) ≡ is_some (D.content disk.old) }
        ensures count { D.faults disk.old ≤ D.faults disk.new }
        ensures openings { D.failed_openings disk.new ≡ D.failed_openings disk.old }
        ensures room { KeepsRoom (D.faults disk.old) (D.faults disk.new) (D.room disk.old) (D.room disk.new) (λ r. (self.old.durable.limit ≤ r.size) × (r.ranges < 16)) 1 }
    {
        histories_grow();
        match add(&mut self.list, disk, entry.payload.as_slice()) {
            Ok(()) => {
                self.chf.commit(entry.plan);
                Ok(())
            }
            Err(refusal) => Err(refusal),
        }
    }

    /// Enters a command: what is not fresh is answered from memory, and the disk is not asked; what is fresh is kept, and
    /// answered once its entry stands on the disk. The setup is the first command and no other.
    pub fn enter<D: Disk>(
        &mut self,
        alloc: Global,
        disk: &mut D,
        command: &Command,
    ) -> Result<Entered, StoreRefusal>
        requires order { is_setup command.now ≡ (self.old.machine.state.count == 0) }
        requires readable { IsReadable command.now }
        requires stored { (commands : Listed Commanded) × IsStored self.old (D.content disk.old) (D.told_epoch disk.old) (D.is_image disk.old) commands }

        // At every exit each image stands for a list that an image stood for, or for the list in memory and the payload of
        // this command, where it is fresh.
        ensures grows { (commands : Listed Commanded) → IsStored self.old (D.content disk.old) (D.told_epoch disk.old) (D.is_image disk.old) commands → Grows (D.told_epoch disk.old) (D.is_image disk.old) (D.told_epoch disk.new) (D.is_image disk.new) (MayAddFresh commands command.now) }

        // The answer is by what is decided in the machine's state; machine and disk have the command where it was fresh.
        ensures answer { IfOk result (Answers self.old.machine.state command.now) }
        ensures entered { (commands : Listed Commanded) → IsStored self.old (D.content disk.old) (D.told_epoch disk.old) (D.is_image disk.old) commands → IfOk result (λ r. IsStored self.new (D.content disk.new) (D.told_epoch disk.new) (D.is_image disk.new) (commands_after r command.now commands)) }
        ensures told { is_fresh (decision self.old.machine.state command.now) ≡ false → (disk.new ≡ disk.old) × (self.new.durable ≡ self.old.durable) }
        ensures kept { (commands : Listed Commanded) → IsStored self.old (D.content disk.old) (D.told_epoch disk.old) (D.is_image disk.old) commands → OnErr result (IsStored self.new (D.content disk.new) (D.told_epoch disk.new) (D.is_image disk.new) commands) }
        ensures refused { IfErr result (RefusesEntering (D.told_epoch disk.old) (D.faults disk.old) (D.faults disk.new) self.old self.new disk.old disk.new command.now) }

        ensures closed { self.old.durable.journal ≡ None → is_fresh (decision self.old.machine.state command.now) ≡ true → IsErr result }
        ensures fenced { (journal : Journaled) (e : ℕ) → self.old.durable.journal ≡ Some journal → D.told_epoch disk.old ≡ Some e → journal.epoch < e
            → is_fresh (decision self.old.machine.state command.now) ≡ true → IsErr result }
        ensures epoch { D.told_epoch disk.new ≡ D.told_epoch disk.old }
        ensures tells { is_some (D.content disk.new) ≡ is_some (D.content disk.old) }
        ensures count { D.faults disk.old ≤ D.faults disk.new }
        ensures openings { D.failed_openings disk.new ≡ D.failed_openings disk.old }
        ensures room { KeepsRoom (D.faults disk.old) (D.faults disk.new) (D.room disk.old) (D.room disk.new) (λ r. (self.old.durable.limit ≤ r.size) × (r.ranges < 16)) 1 }
    {
        let here = self.chf.count();
        match self.decide(alloc, command) {
            Ok(Decided::Kept(place)) => Ok(Entered::Kept(place)),
            Ok(Decided::Known) => Ok(Entered::Known),
            Ok(Decided::Refused(refusal)) => Ok(Entered::Refused(refusal)),
            Ok(Decided::Fresh(entry)) => match self.keep(disk, entry) {
                Ok(()) => Ok(Entered::Fresh(here)),
                Err(refusal) => Err(refusal),
            },
            Err(OutOfMemory) => Err(StoreRefusal::OutOfMemory),
        }
    }
}
