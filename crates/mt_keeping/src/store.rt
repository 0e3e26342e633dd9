//! Recovering a state, and committing a change of it.

ghost use Rattle.std.specs.Prelude.{◌≡◌, ◌⊎◌, ℕ, List, None, Ok, Err, Some, false, is_err, option_map, IfErr, IfOk, OnErr, OnOk, IsErr, IsTrue};
ghost use Rattle.std.specs.Borrow.{Lends, sem};
ghost use Rattle.mt_durable.specs.Keeping.{Committed, HasRoom, IsAdmitted, IsChange, LeadsTo, WasOrCommitted};
ghost use Rattle.mt_durable.specs.Reading.{said};
ghost use Rattle.mt_durable.specs.Setting.{with_all};
ghost use Rattle.mt_durable.specs.declared.durable.Entry.{Entry};
ghost use Rattle.mt_grammar.specs.Grammar.{is_in_grammar};
ghost use Rattle.mt_journal.specs.Recovering.{FaultHasCause, HasPlace, HasReadCause, IfNotAJournal, OnlyRead};
ghost use Rattle.mt_journal.specs.Standing.{fits_at, switch_calls};
ghost use Rattle.mt_journal.specs.Stopping.{Outlasts};
ghost use Rattle.mt_model.specs.texts.Contents.{Contents, contents_of};
ghost use Rattle.mt_outside.specs.Disk.{LeavesOnly};
ghost use Rattle.mt_outside.specs.Logs.{fewer};
ghost use Rattle.mt_outside.specs.Stream.{HasCause};
ghost use Rattle.mt_regained.specs.Reopened.{reopened_map};
ghost use Rattle.mt_keeping.specs.Recovered.{KeepsMap, RecoversEither, RecoversFrom, StopHoldsMap, recovered};
ghost use Rattle.mt_keeping.specs.States.{told_map};

use crate::rolled::{Rolled, rolled_of};
use mt_durable::{Durable, Keeper};
use mt_grammar::States;
use mt_journal::JournalFault;
use mt_model::Config;
use mt_outside::{Disk, Failed};
use mt_store::{Image, MapsOf};
use std::alloc::Global;
use std::marker::Model;

/// A node's durable state on a disk. Contracts see the store of the map that the journal has, and the map behind the rollback,
/// where nothing was committed since it was recovered.
pub struct Store<D: Disk> {
    store: mt_store::Store<D, MapsOf<States>>,
    rolled: Option<Rolled>,
}

impl<D: Disk> Model for Store<D> {
    ghost use Rattle.std.specs.Coded.{codes};
    ghost use Rattle.std.specs.Prelude.{option_map};
    ghost use Rattle.mt_tlv.specs.contracts.value.Value as values;
    ghost use Rattle.mt_keeping.specs.States.{KeepingState};
    ghost use Rattle.mt_keeping.specs.declared.rolled.Rolled.{Rolled};

    ghost Value = { KeepingState D };

    ghost coded = { Prim.hlevel (codes, values.the_row.coded, D.code) };

    ghost view = { λ store. record {
      store = store.store;
      rolled = option_map (λ (rolled : Rolled). rolled.image) store.rolled;
    } };
}

impl<D: Disk + Drop> Drop for Store<D> {
    fn drop(self) {
        let Store {
            store: _,
            rolled: _,
        } = self;
    }
}

impl<D: Disk> Store<D> {
    ghost use Rattle.mt_keeping.specs.contracts.store.Store.{the_row};

    /// Recovers the map with which a node goes on: that to which the journal's changes lead, without what was done under a
    /// fail-safe that was armed. An empty journal stands for a node that has never started, with the fabrics and entries of
    /// its configuration. It writes nothing, and begins with a sync. With a fault the disk is handed back. All memory that
    /// commits need is taken here.
    pub fn recover(
        alloc: Global,
        disk: D,
        config: &Config,
    ) -> Result<(Self, Durable), (D, JournalFault)>
        ensures recovered { (file : List ℕ) → D.contents disk ≡ Some file → IfOk result (λ found. recovered (contents_of config.now) file ≡ Ok (Some found.1)) }
        ensures kept { (file : List ℕ) → D.contents disk ≡ Some file → IfOk result (λ found. KeepsMap D.contents D.images found.0.store.journal.disk found.0.store.journal.place found.0.store.image) }
        ensures rolled { IfOk result (λ found. reopened_map (contents_of config.now) found.0.store.image ≡ Some found.1) }
        ensures told { IfOk result (λ found. found.0.rolled ≡ Some found.1) }
        ensures ready { IfOk result (λ found. found.0.store.journal.failed ≡ false) }
        // It names the place from which on the file is no journal of states.
        ensures refused { (file : List ℕ) → D.contents disk ≡ Some file → IfErr result (λ e. HasPlace e.1 (λ at. recovered (contents_of config.now) file ≡ Err at)) }
        ensures only_read { IfOk result (λ found. OnlyRead D.contents D.images D.moment D.images_since disk found.0.store.journal.disk) }
        ensures only_read_err { IfErr result (λ e. OnlyRead D.contents D.images D.moment D.images_since disk e.0) }
        // The disk has failed where that is the fault, and not otherwise.
        ensures calm { IfOk result (λ found. D.faults found.0.store.journal.disk ≡ D.faults disk) }
        ensures cause { IfErr result (λ e. FaultHasCause (D.faults disk) (D.faults e.0) e.1) }
    {
        let (store, map) = mt_store::Store::recover(alloc, disk)?;
        match rolled_of(alloc, config, &map) {
            Ok((reopened, rolled)) => {
                let store = Store {
                    store,
                    rolled: Some(rolled),
                };
                Ok((store, reopened))
            }
            Err(_) => Err((store.into_disk(), JournalFault::Memory)),
        }
    }

    /// Recovers the map again with which a node goes on, over the disk that the store has, as `recover` does: that map is told
    /// from then on, and the first commit carries the rollback. Where that fails the store has failed, and has to be reopened:
    /// what the disk has is still to be recovered.
    pub fn reopen(&mut self, alloc: Global, config: &Config) -> Result<Durable, JournalFault>
        ensures recovered { (file : List ℕ) → D.contents self.old.store.journal.disk ≡ Some file → IfOk result (λ map. recovered (contents_of config.now) file ≡ Ok (Some map)) }
        ensures kept { (file : List ℕ) → D.contents self.old.store.journal.disk ≡ Some file → OnOk result (KeepsMap D.contents D.images self.new.store.journal.disk self.new.store.journal.place self.new.store.image) }
        ensures rolled { IfOk result (λ map. reopened_map (contents_of config.now) self.new.store.image ≡ Some map) }
        ensures told { IfOk result (λ map. self.new.rolled ≡ Some map) }
        ensures ready { self.new.store.journal.failed ≡ is_err result }
        // It names the place from which on the file is no journal of states.
        ensures refused { (file : List ℕ) → D.contents self.old.store.journal.disk ≡ Some file → IfNotAJournal result (λ at. recovered (contents_of config.now) file ≡ Err at) }
        // Whatever it answers, the disk has what it had.
        ensures only_read { OnlyRead D.contents D.images D.moment D.images_since self.old.store.journal.disk self.new.store.journal.disk }
        // The disk has failed where that is the fault, and not otherwise.
        ensures cause { HasReadCause (D.faults self.old.store.journal.disk) (D.faults self.new.store.journal.disk) result }
    {
        let map = self.store.reopen(alloc)?;
        match rolled_of(alloc, config, &map) {
            Ok((reopened, rolled)) => {
                self.rolled = Some(rolled);
                Ok(reopened)
            }
            Err(_) => {
                self.store.give_up();
                Err(JournalFault::Memory)
            }
        }
    }

    /// Puts the image of the map in the place of the journal's list, in the calls of a commit, so that a recovery has it alone to read. It
    /// takes no memory, and is for a store to which was committed since it was recovered.
    pub fn compact(&mut self) -> Result<(), Failed>
        requires in_use { self.old.rolled ≡ None }
        requires admitted { IsTrue (is_in_grammar self.old.store.image) }
        ensures image { self.new.store.image ≡ self.old.store.image }
        ensures told { self.new.rolled ≡ None }
        ensures failed { self.new.store.journal.failed ≡ is_err result }
        ensures cause { self.old.store.journal.failed ≡ false → HasCause (D.faults self.old.store.journal.disk) (D.faults self.new.store.journal.disk) result }
        // Where a call has failed, none is made.
        ensures still { IsTrue self.old.store.journal.failed → IsErr result × (self.new ≡ self.old) }
        ensures kept { KeepsMap D.contents D.images self.old.store.journal.disk self.old.store.journal.place self.old.store.image
            → OnOk result (KeepsMap D.contents D.images self.new.store.journal.disk self.new.store.journal.place self.new.store.image) }
        // Of what a crash at any moment leaves the same is recovered as before.
        ensures moments { (contents : Contents) → KeepsMap D.contents D.images self.old.store.journal.disk self.old.store.journal.place self.old.store.image
            → LeavesOnly D.moment D.images_since self.old.store.journal.disk self.new.store.journal.disk (RecoversFrom contents self.old.store.image) }
        // Ok leaves so many calls fewer until the disk is to stop.
        ensures lasts { OnOk result ((D.allowed self.new.store.journal.disk ≡ fewer (switch_calls self.old.store.journal.place) (D.allowed self.old.store.journal.disk))
            × Outlasts (switch_calls self.old.store.journal.place) (D.allowed self.old.store.journal.disk)) }
    {
        self.store.compact()
    }

    /// Whether a change of this length fits into the current slot of the journal; where it does not, a commit puts the image into the other.
    pub fn fits(&self, length: usize) -> bool
        ensures { result ≡ fits_at self.now.store.journal.place length }
    {
        self.store.journal().fits(length)
    }

    /// The map that the journal has: before the first commit that from before the rollback.
    pub fn image(&self) -> &Image
        ensures { result.now ≡ self.now.store.image }
    {
        self.store.image()
    }

    /// The map that is told, with which the node goes on: behind a recovery that behind the rollback. A commit's needs are asked of
    /// it.
    pub fn told(&self) -> &Image
        ensures { result.now ≡ told_map self.now }
    {
        match &self.rolled {
            Some(rolled) => &rolled.image,
            None => self.store.image(),
        }
    }

    /// The disk, lent to be changed: where it stops, and what it forgets. Where its contents become others, the
    /// store knows nothing of them.
    pub fn disk_mut(&mut self) -> &mut D
        ensures value { result.now ≡ self.old.store.journal.disk }
        ensures* writes_back { sem 𝓛 (Lends (the_row D.row D.Disk) D.row self.entry result (λ disk. record self.old { store = record self.old.store { journal = record self.old.store.journal { disk = disk } } })) }
    {
        self.store.disk_mut()
    }

    /// The disk, as it is.
    pub fn into_disk(self) -> D
        ensures { result ≡ self.store.journal.disk }
    {
        let Store { store, rolled: _ } = self;
        store.into_disk()
    }
}

impl<D: Disk> Keeper for Store<D> {
    ghost map = { λ store. Some (told_map store) };

    ghost admits = { is_in_grammar };

    ghost failed = { λ store. store.store.journal.failed };

    ghost faults = { λ store. D.faults store.store.journal.disk };

    ghost stands_between = { λ store before after. (told_map store ≡ before) ⊎ (told_map store ≡ after) };

    /// It takes no memory. The first commit carries the rollback: what goes to the disk is the change from the map that the
    /// journal has to the one to which the commit leads.
    fn commit(&mut self, change: &[u8]) -> Result<(), Failed>
        requires form { IsChange change.now }
        requires room { HasRoom change.now (Some (told_map self.old)) }
        requires admitted { IsAdmitted is_in_grammar change.now (Some (told_map self.old)) }
        ensures committed { OnOk result (Committed change.now (Some (told_map self.old)) (Some (told_map self.new))) }
        ensures part { OnErr result (WasOrCommitted change.now (Some (told_map self.old)) (Some (told_map self.new))) }
        ensures failed { self.new.store.journal.failed ≡ is_err result }
        ensures stays { IsTrue self.old.store.journal.failed → IsErr result × (Some (told_map self.new) ≡ Some (told_map self.old)) × (D.faults self.new.store.journal.disk ≡ D.faults self.old.store.journal.disk) }
        ensures cause { self.old.store.journal.failed ≡ false → HasCause (D.faults self.old.store.journal.disk) (D.faults self.new.store.journal.disk) result }
        ensures between { (before : List Entry) (after : List Entry) → self.old.store.journal.failed ≡ false → Some (told_map self.old) ≡ Some before → LeadsTo change.now before after
            → OnErr result ((told_map self.new ≡ before) ⊎ (told_map self.new ≡ after)) }

        // Where a call has failed, none is made.
        ensures still { IsTrue self.old.store.journal.failed → self.new ≡ self.old }
        // After Ok the journal has the map that is told, and it is in use.
        ensures in_use { OnOk result (self.new.rolled ≡ None) }
        ensures kept { KeepsMap D.contents D.images self.old.store.journal.disk self.old.store.journal.place self.old.store.image
            → OnOk result (KeepsMap D.contents D.images self.new.store.journal.disk self.new.store.journal.place self.new.store.image) }
        // Of what a crash at any moment leaves the same is recovered as before the commit, or what the map with the change gives.
        ensures moments { (contents : Contents) → KeepsMap D.contents D.images self.old.store.journal.disk self.old.store.journal.place self.old.store.image
            → LeavesOnly D.moment D.images_since self.old.store.journal.disk self.new.store.journal.disk
            (RecoversEither contents self.old.store.image (with_all (said change.now) (told_map self.old))) }
        // After Ok, of all that a crash leaves what a node goes on with behind the map that is told now is.
        ensures acknowledged { (contents : Contents) (file : List ℕ) → KeepsMap D.contents D.images self.old.store.journal.disk self.old.store.journal.place self.old.store.image
            → OnOk result (D.images self.new.store.journal.disk file → RecoversFrom contents (told_map self.new) file) }
        // What a disk leaves that stops in it leads to the map with the change exactly where it stops at one of the last two
        // calls and all is kept, and otherwise to the one from before.
        ensures left { KeepsMap D.contents D.images self.old.store.journal.disk self.old.store.journal.place self.old.store.image → self.old.store.journal.failed ≡ false
            → OnErr result (StopHoldsMap (switch_calls self.old.store.journal.place) self.old.store.image (with_all (said change.now) (told_map self.old))
            (D.allowed self.old.store.journal.disk) (D.allowed self.new.store.journal.disk) (D.log self.new.store.journal.disk)) }
        // Ok leaves so many calls fewer until the disk is to stop.
        ensures lasts { OnOk result ((D.allowed self.new.store.journal.disk ≡ fewer (switch_calls self.old.store.journal.place) (D.allowed self.old.store.journal.disk))
            × Outlasts (switch_calls self.old.store.journal.place) (D.allowed self.old.store.journal.disk)) }
    {
        let Some(rolled) = &mut self.rolled else {
            return self.store.commit(change);
        };
        rolled.next.follow::<MapsOf<States>>(&rolled.image, change);
        self.store
            .lead_to(&mut rolled.next, rolled.room.as_mut_slice())?;
        self.rolled = None;
        Ok(())
    }

    fn faults(&self) -> u64 {
        self.store.faults()
    }
}
