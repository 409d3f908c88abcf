//! A list of entries with its journal: opened, opened again after a fault, added to.
ghost use Rattle.std.specs.Prelude.{◌≡◌, ◌<◌, ◌≤◌, ◌+◌, ◌-◌, ◌^◌, ◌++◌, ◌∷◌, [], ⊤, ℕ, List as Listed, length, not, IfOk, IfErr, IfSome, OnOk, OnErr, IsErr, IsTrue, Ok, Err, Some, None, is_some, true, false};
ghost use Rattle.edge.specs.Disk.{Room, KeepsRoom};
ghost use Rattle.journal.specs.Bytes.{StandsFor};
ghost use Rattle.journal.specs.Lists.{AddsNothing, EachBeginsWith, EachStandsFor, Grows, IsTied, MayAdd};
ghost use Rattle.journal.specs.Reads.{IsNoJournal};
ghost use Rattle.journal.specs.Refusals.{RefusesEntry as Refused, RefusesStart};
ghost use Rattle.journal.specs.State.{State as Journaled, epoch_after, grown};
ghost use Rattle.durable.specs.Held.{IsHeld};
ghost use Rattle.durable.specs.Refusals.{RefusesAgain, RefusesEntry, RefusesOwning};
ghost use Rattle.durable.specs.State.{State, closed, reopened};

use edge::Disk;
use journal::{
    Journal, JournalRefusal, bytes_stand_for_one_list, entries_go_behind, extensions_compose,
};
use std::alloc::Global;
use std::marker::Model;
use units::List;

/// A list of entries on a disk: its journal, while that is open, and the epoch that it owns (this product's own).
#[derive(Drop)]
pub struct DurableList {
    journal: Option<Journal>,
    own: u64,
    follows: bool,
    limit: u32,
}

impl Model for DurableList {
    ghost use Rattle.std.specs.Prelude.{◌≡◌, ◌≤◌, ◌^◌, Some, true};
    ghost use Rattle.journal.specs.State.{State as Journaled};
    ghost use Rattle.durable.specs.State.{State};

    ghost Value = { State };

    ghost view = { λ d. record { journal = d.journal; own = d.own; follows = d.follows; limit = d.limit } };

    ghost invariant = { λ d. ((journal : Journaled) → d.journal ≡ Some journal → (journal.is_sound ≡ true) × (journal.limit ≡ d.limit)) × (17 ≤ d.limit) × (d.limit ≤ 2 ^ 30) };
}

// Starts the journal of a disk again, of which some epoch was claimed.
fn start_again<D: Disk>(
    alloc: Global,
    disk: &mut D,
    limit: u32,
) -> Result<(Journal, List<List<u8>>), JournalRefusal>
    requires least { 17 ≤ limit }
    requires most { limit ≤ 2 ^ 30 }
    requires begun { (e : ℕ) → D.told_epoch disk.old ≡ Some e → 1 ≤ e }
    requires stands { EachStandsFor (D.told_epoch disk.old) (D.is_image disk.old) (λ _. ⊤) }
    ensures grows { Grows (D.told_epoch disk.old) (D.is_image disk.old) (D.told_epoch disk.new) (D.is_image disk.new) AddsNothing }
    ensures begins { (list : Listed (Listed ℕ)) → EachBeginsWith (D.told_epoch disk.old) (D.is_image disk.old) list → EachBeginsWith (D.told_epoch disk.new) (D.is_image disk.new) list }
    ensures list { (b : Listed ℕ) → D.content disk.old ≡ Some b → IfOk result (λ r. StandsFor (D.told_epoch disk.old) b r.1) }
    ensures given { IfOk result (λ r. EachBeginsWith (D.told_epoch disk.new) (D.is_image disk.new) r.1) }
    ensures tied { IfOk result (λ r. IsTied r.0 (D.content disk.new) (D.told_epoch disk.new) (D.is_image disk.new) r.1) }
    ensures found { (e : ℕ) → D.told_epoch disk.old ≡ Some e → IfOk result (λ r. r.0.epoch ≡ e) }
    ensures sound { IfOk result (λ r. (r.0.is_sound ≡ true) × (r.0.limit ≡ limit)) }
    ensures no_journal { (e at : ℕ) (b : Listed ℕ) → D.told_epoch disk.old ≡ Some e → D.content disk.old ≡ Some b → IsNoJournal b at → IsErr result }
    ensures refused { (held : State) → IfErr result (RefusesAgain (D.content disk.old) (D.told_epoch disk.old) (D.faults disk.old) (D.faults disk.new) held) }
    ensures epoch { D.told_epoch disk.new ≡ D.told_epoch disk.old }
    ensures tells { is_some (D.content disk.new) ≡ is_some (D.content disk.old) }
    ensures count { D.faults disk.old ≤ D.faults disk.new }
    ensures openings { D.failed_openings disk.new ≡ D.failed_openings disk.old }
    ensures room { KeepsRoom (D.faults disk.old) (D.faults disk.new) (D.room disk.old) (D.room disk.new) (λ r. (17 ≤ r.size) × (r.ranges < 16)) 1 }
{
    entries_go_behind::<D>();
    extensions_compose::<D>();
    Journal::start(alloc, disk, false, limit)
}

// Adds an entry to a journal that is tied to its disk.
fn enter<D: Disk>(journal: &mut Journal, disk: &mut D, entry: &[u8]) -> Result<(), JournalRefusal>
    requires not_empty { 1 ≤ length entry.now }
    requires small { length entry.now ≤ 2 ^ 24 }
    requires sound { IsTrue journal.old.is_sound }
    requires tied { (list : Listed (Listed ℕ)) × IsTied journal.old (D.content disk.old) (D.told_epoch disk.old) (D.is_image disk.old) list × EachBeginsWith (D.told_epoch disk.old) (D.is_image disk.old) list }
    ensures grows { (list : Listed (Listed ℕ)) → IsTied journal.old (D.content disk.old) (D.told_epoch disk.old) (D.is_image disk.old) list → Grows (D.told_epoch disk.old) (D.is_image disk.old) (D.told_epoch disk.new) (D.is_image disk.new) (MayAdd list entry.now) }
    ensures begins { (list : Listed (Listed ℕ)) → EachBeginsWith (D.told_epoch disk.old) (D.is_image disk.old) list → EachBeginsWith (D.told_epoch disk.new) (D.is_image disk.new) list }
    ensures tied { (list : Listed (Listed ℕ)) → IsTied journal.old (D.content disk.old) (D.told_epoch disk.old) (D.is_image disk.old) list → OnOk result (IsTied journal.new (D.content disk.new) (D.told_epoch disk.new) (D.is_image disk.new) (list ++ entry.now ∷ [])) }
    ensures added { (list : Listed (Listed ℕ)) → IsTied journal.old (D.content disk.old) (D.told_epoch disk.old) (D.is_image disk.old) list → OnOk result (EachBeginsWith (D.told_epoch disk.new) (D.is_image disk.new) (list ++ entry.now ∷ [])) }
    ensures grown { OnOk result (journal.new ≡ grown journal.old (length entry.now + 5)) }
    ensures refused { IfErr result (Refused (D.told_epoch disk.old) (D.faults disk.old) (D.faults disk.new) journal.old journal.new disk.old disk.new (length entry.now + 5)) }
    ensures full { journal.old.limit < journal.old.length + (length entry.now + 5) → result ≡ Err (JournalRefusal.Full journal.old.length (length entry.now + 5)) }
    ensures fenced { (e : ℕ) → D.told_epoch disk.old ≡ Some e → journal.old.epoch < e → IsErr result }
    ensures epoch { D.told_epoch disk.new ≡ D.told_epoch disk.old }
    ensures tells { is_some (D.content disk.new) ≡ is_some (D.content disk.old) }
    ensures count { D.faults disk.old ≤ D.faults disk.new }
    ensures openings { D.failed_openings disk.new ≡ D.failed_openings disk.old }
    ensures room { KeepsRoom (D.faults disk.old) (D.faults disk.new) (D.room disk.old) (D.room disk.new) (λ r. (journal.old.limit ≤ r.size) × (r.ranges < 16)) 1 }
    ensures clean { OnOk result ((s : Room) → D.room disk.new ≡ Some s → s.ranges ≡ 0) }
{
    entries_go_behind::<D>();
    extensions_compose::<D>();
    journal.append(disk, entry)
}

impl DurableList {
    /// Opens the list of a disk; on one of epoch 0 an empty list is made, whatever bytes are there. With a claim the next
    /// epoch is claimed, and the list owns the disk; without one it follows: it goes on under a greater epoch.
    ///
    /// `limit`: the bytes that the journal may have, 17 to 2^30.
    pub fn open<D: Disk>(
        alloc: Global,
        disk: &mut D,
        claim: bool,
        limit: u32,
    ) -> Result<(DurableList, List<List<u8>>), JournalRefusal>
        requires least { 17 ≤ limit }
        requires most { limit ≤ 2 ^ 30 }

        // At every exit each image stands for a list that an image stood for.
        ensures grows { EachStandsFor (D.told_epoch disk.old) (D.is_image disk.old) (λ _. ⊤) → Grows (D.told_epoch disk.old) (D.is_image disk.old) (D.told_epoch disk.new) (D.is_image disk.new) AddsNothing }

        // The list is that of the disk, and both belong together.
        ensures list { (b : Listed ℕ) → D.content disk.old ≡ Some b → IfOk result (λ r. StandsFor (D.told_epoch disk.old) b r.1) }
        ensures held { IfOk result (λ r. IsHeld r.0 (D.content disk.new) (D.told_epoch disk.new) (D.is_image disk.new) r.1) }
        ensures open { IfOk result (λ r. (journal : Journaled) × (r.0 ≡ record { journal = Some journal; own = journal.epoch; follows = not claim; limit = limit })) }
        ensures epoch { (e : ℕ) → D.told_epoch disk.old ≡ Some e → IfOk result (λ r. r.0.own ≡ epoch_after claim e) }

        ensures no_journal { (e at : ℕ) (b : Listed ℕ) → D.told_epoch disk.old ≡ Some e → D.content disk.old ≡ Some b → 1 ≤ e → IsNoJournal b at → IsErr result }
        ensures refused { IfErr result (RefusesStart (D.content disk.old) (D.told_epoch disk.old) claim (D.faults disk.old) (D.faults disk.new)) }
        ensures spent { (e : ℕ) → D.told_epoch disk.old ≡ Some e → 2 ^ 63 - 1 ≤ e → claim ≡ true → IsErr result }
        ensures tells_epoch { is_some (D.told_epoch disk.new) ≡ is_some (D.told_epoch disk.old) }
        ensures tells { is_some (D.content disk.new) ≡ is_some (D.content disk.old) }
        ensures count { D.faults disk.old ≤ D.faults disk.new }
        ensures openings { D.failed_openings disk.new ≡ D.failed_openings disk.old }
        ensures room { KeepsRoom (D.faults disk.old) (D.faults disk.new) (D.room disk.old) (D.room disk.new) (λ r. (17 ≤ r.size) × (r.ranges < 16)) 1 }
    {
        entries_go_behind::<D>();
        let (journal, list) = Journal::start(alloc, disk, claim, limit)?;
        let own = journal.epoch();
        let held = DurableList {
            journal: Some(journal),
            own,
            follows: !claim,
            limit,
        };
        Ok((held, list))
    }

    /// Whether its journal is open: only then it takes an entry.
    pub fn is_open(&self) -> bool
        ensures { result ≡ is_some self.now.journal }
    {
        self.journal.is_some()
    }

    /// The epoch that it owns, or, where it follows, under which it was opened last.
    pub fn own(&self) -> u64
        ensures { result ≡ self.now.own }
    {
        self.own
    }

    /// Closes the journal, so that `settle` opens it again.
    pub fn close(&mut self)
        ensures { self.new ≡ closed self.old }
    {
        self.journal = None;
    }

    /// Opens the journal again where it was closed, and gives the list that is there; nothing where it is open, and then
    /// the disk is not asked.
    pub fn settle<D: Disk>(
        &mut self,
        alloc: Global,
        disk: &mut D,
    ) -> Result<Option<List<List<u8>>>, JournalRefusal>
        requires held { (list : Listed (Listed ℕ)) × IsHeld self.old (D.content disk.old) (D.told_epoch disk.old) (D.is_image disk.old) list }

        // At every exit each image stands for a list that an image stood for.
        ensures grows { Grows (D.told_epoch disk.old) (D.is_image disk.old) (D.told_epoch disk.new) (D.is_image disk.new) AddsNothing }

        // The list in memory goes on, or the one that is given belongs to the disk, and begins with it.
        ensures open { is_some self.old.journal ≡ true → (result ≡ Ok None) × (self.new ≡ self.old) × (disk.new ≡ disk.old) }
        ensures opened { IfOk result (λ r. is_some self.new.journal ≡ true) }
        ensures same { result ≡ Ok None → (self.new ≡ self.old) × (disk.new ≡ disk.old) }
        ensures list { (b : Listed ℕ) → D.content disk.old ≡ Some b → IfOk result (λ r. IfSome r (λ now. StandsFor (D.told_epoch disk.old) b now)) }
        ensures again { IfOk result (λ r. IfSome r (λ now. IsHeld self.new (D.content disk.new) (D.told_epoch disk.new) (D.is_image disk.new) now)) }
        ensures begins { (list : Listed (Listed ℕ)) → IsHeld self.old (D.content disk.old) (D.told_epoch disk.old) (D.is_image disk.old) list → EachBeginsWith (D.told_epoch disk.new) (D.is_image disk.new) list }
        ensures kept { (list : Listed (Listed ℕ)) → IsHeld self.old (D.content disk.old) (D.told_epoch disk.old) (D.is_image disk.old) list → OnErr result (IsHeld self.new (D.content disk.new) (D.told_epoch disk.new) (D.is_image disk.new) list) }
        ensures owns { self.old.follows ≡ false → self.new.own ≡ self.old.own }
        ensures rest { (self.new.follows ≡ self.old.follows) × (self.new.limit ≡ self.old.limit) }

        ensures no_journal { (e at : ℕ) (b : Listed ℕ) → self.old.journal ≡ None → D.told_epoch disk.old ≡ Some e → D.content disk.old ≡ Some b → IsNoJournal b at → IsErr result }
        ensures refused { IfErr result (RefusesAgain (D.content disk.old) (D.told_epoch disk.old) (D.faults disk.old) (D.faults disk.new) self.old) }
        ensures fenced { (e : ℕ) → self.old.journal ≡ None → self.old.follows ≡ false → D.told_epoch disk.old ≡ Some e → self.old.own < e → IsErr result }
        ensures closed { OnErr result (self.new ≡ closed self.old) }
        ensures epoch { D.told_epoch disk.new ≡ D.told_epoch disk.old }
        ensures tells { is_some (D.content disk.new) ≡ is_some (D.content disk.old) }
        ensures count { D.faults disk.old ≤ D.faults disk.new }
        ensures openings { D.failed_openings disk.new ≡ D.failed_openings disk.old }
        ensures room { KeepsRoom (D.faults disk.old) (D.faults disk.new) (D.room disk.old) (D.room disk.new) (λ r. (17 ≤ r.size) × (r.ranges < 16)) 1 }
    {
        if self.journal.is_some() {
            return Ok(None);
        }
        match self.open_again(alloc, disk) {
            Ok(list) => Ok(Some(list)),
            Err(refusal) => Err(refusal),
        }
    }
    // Takes a journal that was opened again; where the list owns its disk, not one of a greater epoch.
    fn take(&mut self, journal: Journal) -> Result<(), JournalRefusal>
        requires sound { IsTrue journal.is_sound }
        requires limit { journal.limit ≡ self.old.limit }
        ensures ok { OnOk result (self.new ≡ reopened self.old journal) }
        ensures within { OnOk result (self.old.follows ≡ false → journal.epoch ≤ self.old.own) }
        ensures err { IfErr result (λ r. (r ≡ JournalRefusal.Fenced journal.epoch) × (self.old.follows ≡ false) × (self.old.own < journal.epoch)) }
        ensures as_before { OnErr result (self.new ≡ self.old) }
    {
        let found = journal.epoch();
        if self.follows {
            self.own = found;
        } else if found > self.own {
            return Err(JournalRefusal::Fenced(found));
        }
        self.journal = Some(journal);
        Ok(())
    }

    // Opens the journal again.
    fn open_again<D: Disk>(
        &mut self,
        alloc: Global,
        disk: &mut D,
    ) -> Result<List<List<u8>>, JournalRefusal>
        requires closed { self.old.journal ≡ None }
        requires held { (list : Listed (Listed ℕ)) × IsHeld self.old (D.content disk.old) (D.told_epoch disk.old) (D.is_image disk.old) list }
        ensures grows { Grows (D.told_epoch disk.old) (D.is_image disk.old) (D.told_epoch disk.new) (D.is_image disk.new) AddsNothing }
        ensures opened { OnOk result (is_some self.new.journal ≡ true) }
        ensures list { (b : Listed ℕ) → D.content disk.old ≡ Some b → IfOk result (λ now. StandsFor (D.told_epoch disk.old) b now) }
        ensures again { IfOk result (λ now. IsHeld self.new (D.content disk.new) (D.told_epoch disk.new) (D.is_image disk.new) now) }
        ensures begins { (list : Listed (Listed ℕ)) → IsHeld self.old (D.content disk.old) (D.told_epoch disk.old) (D.is_image disk.old) list → EachBeginsWith (D.told_epoch disk.new) (D.is_image disk.new) list }
        ensures kept { (list : Listed (Listed ℕ)) → IsHeld self.old (D.content disk.old) (D.told_epoch disk.old) (D.is_image disk.old) list → OnErr result (IsHeld self.new (D.content disk.new) (D.told_epoch disk.new) (D.is_image disk.new) list) }
        ensures owns { self.old.follows ≡ false → self.new.own ≡ self.old.own }
        ensures rest { (self.new.follows ≡ self.old.follows) × (self.new.limit ≡ self.old.limit) }
        ensures no_journal { (e at : ℕ) (b : Listed ℕ) → D.told_epoch disk.old ≡ Some e → D.content disk.old ≡ Some b → IsNoJournal b at → IsErr result }
        ensures refused { IfErr result (RefusesAgain (D.content disk.old) (D.told_epoch disk.old) (D.faults disk.old) (D.faults disk.new) self.old) }
        ensures fenced { (e : ℕ) → self.old.follows ≡ false → D.told_epoch disk.old ≡ Some e → self.old.own < e → IsErr result }
        ensures as_before { OnErr result (self.new ≡ self.old) }
        ensures epoch { D.told_epoch disk.new ≡ D.told_epoch disk.old }
        ensures tells { is_some (D.content disk.new) ≡ is_some (D.content disk.old) }
        ensures count { D.faults disk.old ≤ D.faults disk.new }
        ensures openings { D.failed_openings disk.new ≡ D.failed_openings disk.old }
        ensures room { KeepsRoom (D.faults disk.old) (D.faults disk.new) (D.room disk.old) (D.room disk.new) (λ r. (17 ≤ r.size) × (r.ranges < 16)) 1 }
    {
        match start_again(alloc, disk, self.limit) {
            Ok((journal, list)) => match self.take(journal) {
                Ok(()) => Ok(list),
                Err(refusal) => Err(refusal),
            },
            Err(refusal) => Err(refusal),
        }
    }

    /// Adds an entry of 1 to 2^24 bytes, which is durable at Ok. After a fault, or a greater epoch, the journal is closed;
    /// where the limit leaves no room nothing changes.
    pub fn append<D: Disk>(&mut self, disk: &mut D, entry: &[u8]) -> Result<(), JournalRefusal>
        requires not_empty { 1 ≤ length entry.now }
        requires small { length entry.now ≤ 2 ^ 24 }
        requires open { is_some self.old.journal ≡ true }
        requires held { (list : Listed (Listed ℕ)) × IsHeld self.old (D.content disk.old) (D.told_epoch disk.old) (D.is_image disk.old) list }

        // At every exit each image stands for a list that an image stood for, or for the list in memory and the entry.
        ensures grows { (list : Listed (Listed ℕ)) → IsHeld self.old (D.content disk.old) (D.told_epoch disk.old) (D.is_image disk.old) list → Grows (D.told_epoch disk.old) (D.is_image disk.old) (D.told_epoch disk.new) (D.is_image disk.new) (MayAdd list entry.now) }

        // At Ok list and disk have the entry.
        ensures added { (list : Listed (Listed ℕ)) → IsHeld self.old (D.content disk.old) (D.told_epoch disk.old) (D.is_image disk.old) list → OnOk result (IsHeld self.new (D.content disk.new) (D.told_epoch disk.new) (D.is_image disk.new) (list ++ entry.now ∷ [])) }
        ensures kept { (list : Listed (Listed ℕ)) → IsHeld self.old (D.content disk.old) (D.told_epoch disk.old) (D.is_image disk.old) list → OnErr result (IsHeld self.new (D.content disk.new) (D.told_epoch disk.new) (D.is_image disk.new) list) }
        ensures grown { (journal : Journaled) → self.old.journal ≡ Some journal → OnOk result (self.new ≡ record self.old { journal = Some (grown journal (length entry.now + 5)) }) }

        ensures refused { (journal : Journaled) → self.old.journal ≡ Some journal
            → IfErr result (RefusesEntry (D.told_epoch disk.old) (D.faults disk.old) (D.faults disk.new) journal self.old self.new disk.old disk.new (length entry.now + 5)) }
        ensures full { (journal : Journaled) → self.old.journal ≡ Some journal → journal.limit < journal.length + (length entry.now + 5)
            → result ≡ Err (JournalRefusal.Full journal.length (length entry.now + 5)) }
        ensures fenced { (journal : Journaled) (e : ℕ) → self.old.journal ≡ Some journal → D.told_epoch disk.old ≡ Some e → journal.epoch < e → IsErr result }
        ensures epoch { D.told_epoch disk.new ≡ D.told_epoch disk.old }
        ensures tells { is_some (D.content disk.new) ≡ is_some (D.content disk.old) }
        ensures count { D.faults disk.old ≤ D.faults disk.new }
        ensures openings { D.failed_openings disk.new ≡ D.failed_openings disk.old }
        ensures room { KeepsRoom (D.faults disk.old) (D.faults disk.new) (D.room disk.old) (D.room disk.new) (λ r. (self.old.limit ≤ r.size) × (r.ranges < 16)) 1 }
        ensures clean { OnOk result ((s : Room) → D.room disk.new ≡ Some s → s.ranges ≡ 0) }
    {
        let Some(mut journal) = self.journal.take() else {
            unreachable!();
        };
        match enter(&mut journal, disk, entry) {
            Ok(()) => {
                self.journal = Some(journal);
                Ok(())
            }
            Err(JournalRefusal::Full { len, need }) => {
                self.journal = Some(journal);
                Err(JournalRefusal::Full { len, need })
            }
            Err(JournalRefusal::Fenced(seen)) => Err(JournalRefusal::Fenced(seen)),
            Err(JournalRefusal::Fault) => Err(JournalRefusal::Fault),
            Err(_) => unreachable!(),
        }
    }

    /// Asks the disk whether the own epoch is still its greatest one: what rests on something missing is answered only then.
    pub fn show_own<D: Disk>(&mut self, disk: &mut D) -> Result<(), JournalRefusal>
        requires held { (list : Listed (Listed ℕ)) × IsHeld self.old (D.content disk.old) (D.told_epoch disk.old) (D.is_image disk.old) list }
        ensures grows { Grows (D.told_epoch disk.old) (D.is_image disk.old) (D.told_epoch disk.new) (D.is_image disk.new) AddsNothing }
        ensures kept { (list : Listed (Listed ℕ)) → IsHeld self.old (D.content disk.old) (D.told_epoch disk.old) (D.is_image disk.old) list → IsHeld self.new (D.content disk.new) (D.told_epoch disk.new) (D.is_image disk.new) list }
        ensures own { OnOk result ((self.new ≡ self.old) × ((e : ℕ) → D.told_epoch disk.old ≡ Some e → e ≡ self.old.own)) }
        ensures refused { IfErr result (RefusesOwning (D.told_epoch disk.old) (D.faults disk.old) (D.faults disk.new) self.old self.new) }
        ensures fenced { (e : ℕ) → D.told_epoch disk.old ≡ Some e → self.old.own < e → IsErr result }
        ensures epoch { D.told_epoch disk.new ≡ D.told_epoch disk.old }
        ensures tells { is_some (D.content disk.new) ≡ is_some (D.content disk.old) }
        ensures count { D.faults disk.old ≤ D.faults disk.new }
        ensures openings { D.failed_openings disk.new ≡ D.failed_openings disk.old }
        ensures room { KeepsRoom (D.faults disk.old) (D.faults disk.new) (D.room disk.old) (D.room disk.new) (λ r. ⊤) 0 }
    {
        let seen = disk.epoch()?;
        if seen > self.own {
            self.journal = None;
            return Err(JournalRefusal::Fenced(seen));
        }
        Ok(())
    }
}
