//! A store of states that keeps what a crash leaves of its disk.

ghost use Rattle.std.specs.Prelude.{◌≡◌, ℕ, List, None, Some, false, true, is_err, OnErr, OnOk, IsErr, IsTrue};
ghost use Rattle.mt_durable.specs.Keeping.{Committed, HasRoom, IsAdmitted, IsChange, LeadsTo, WasOrCommitted};
ghost use Rattle.mt_durable.specs.Reading.{said};
ghost use Rattle.mt_durable.specs.Setting.{with_all};
ghost use Rattle.mt_durable.specs.declared.durable.Entry.{Entry};
ghost use Rattle.mt_grammar.specs.Grammar.{is_in_grammar};
ghost use Rattle.mt_journal.specs.Standing.{switch_calls};
ghost use Rattle.mt_journal.specs.Stopping.{Outlasts};
ghost use Rattle.mt_model.specs.texts.Contents.{Contents};
ghost use Rattle.mt_outside.specs.Disk.{LeavesOnly};
ghost use Rattle.mt_outside.specs.Logs.{fewer};
ghost use Rattle.mt_outside.specs.Stream.{HasCause};
ghost use Rattle.mt_shared.specs.mt_keeping.Recovered.{KeepsMap, RecoversEither, RecoversFrom, StopHoldsMap};
ghost use Rattle.mt_shared.specs.mt_keeping.States.{told_map};
ghost use Rattle.mt_starting.specs.Crashes.{AlwaysTells, IsBetween, IsSafe};

use mt_durable::{Keeper, bytes_of_a_change_are_read};
use mt_outside::{Disk, Failed};
use mt_shared::{Store, states_may_be_committed};
use std::marker::Model;

/// A store to which was committed since it was recovered. What a crash leaves of its disk it keeps by its type: of that is recovered what a
/// node goes on with behind the map that is told. Once a commit has failed it stands between two maps, and a crash leaves one of them.
/// Contracts see the store.
pub struct SafeStore<D: Disk> {
    store: Store<D>,
}

impl<D: Disk> Model for SafeStore<D> {
    ghost use Rattle.std.specs.Coded.{codes};
    ghost use Rattle.mt_tlv.specs.contracts.value.Value as values;
    ghost use Rattle.mt_shared.specs.mt_keeping.States.{KeepingState};
    ghost use Rattle.mt_starting.specs.Crashes.{KeepsSafe};

    ghost Value = { KeepingState D };

    ghost coded = { Prim.hlevel (codes, values.the_row.coded, D.code) };

    ghost view = { λ safe. safe.store };

    ghost invariant = { λ safe. KeepsSafe D.contents D.images safe.store };
}

impl<D: Disk + Drop> Drop for SafeStore<D> {
    fn drop(self) {
        let SafeStore { store: _ } = self;
    }
}

impl<D: Disk> SafeStore<D> {
    /// Keeps a store whose last commit is acknowledged, and over a disk that can always tell its contents safe.
    pub fn new(store: Store<D>) -> SafeStore<D>
        requires in_use { store.rolled ≡ None }
        requires runs { store.store.journal.failed ≡ false }
        requires safe { AlwaysTells D.contents → IsSafe D.contents D.images store.store.journal.disk store.store.journal.place (told_map store) }
        ensures { result ≡ store }
    {
        SafeStore { store }
    }

    /// The disk, as it is.
    pub fn into_disk(self) -> D
        ensures disk { result ≡ self.store.journal.disk }
        // While no commit has failed, a crash now leaves what the store tells.
        ensures safe { AlwaysTells D.contents → self.store.journal.failed ≡ false → IsSafe D.contents D.images result self.store.journal.place (told_map self) }
    {
        let SafeStore { store } = self;
        store.into_disk()
    }
}

impl<D: Disk> Keeper for SafeStore<D> {
    ghost map = { λ store. Some (told_map store) };

    ghost admits = { is_in_grammar };

    ghost failed = { λ store. store.store.journal.failed };

    ghost faults = { λ store. D.faults store.store.journal.disk };

    // Over a disk that can always tell its contents: of what a crash leaves one of both is recovered.
    ghost stands_between = { λ store before after. AlwaysTells D.contents → IsBetween D.images store.store.journal.disk before after };

    /// It commits as a store does.
    fn commit(&mut self, change: &[u8]) -> Result<(), Failed>
        requires form { IsChange change.now }
        requires room { HasRoom change.now (Some (told_map self.old)) }
        requires admitted { IsAdmitted is_in_grammar change.now (Some (told_map self.old)) }
        ensures committed { OnOk result (Committed change.now (Some (told_map self.old)) (Some (told_map self.new))) }
        ensures part { OnErr result (WasOrCommitted change.now (Some (told_map self.old)) (Some (told_map self.new))) }
        ensures failed { self.new.store.journal.failed ≡ is_err result }
        ensures stays { IsTrue self.old.store.journal.failed → IsErr result × (Some (told_map self.new) ≡ Some (told_map self.old)) × (D.faults self.new.store.journal.disk ≡ D.faults self.old.store.journal.disk) }
        ensures cause { self.old.store.journal.failed ≡ false → HasCause (D.faults self.old.store.journal.disk) (D.faults self.new.store.journal.disk) result }
        ensures between { (before : List Entry) (after : List Entry) → self.old.store.journal.failed ≡ false → Some (told_map self.old) ≡ Some before → LeadsTo change.now before after
            → OnErr result (AlwaysTells D.contents → IsBetween D.images self.new.store.journal.disk before after) }
        // Beyond what a keeper says: as of a store.
        ensures still { IsTrue self.old.store.journal.failed → self.new ≡ self.old }
        ensures in_use { OnOk result (self.new.rolled ≡ None) }
        ensures kept { KeepsMap D.contents D.images self.old.store.journal.disk self.old.store.journal.place self.old.store.image
            → OnOk result (KeepsMap D.contents D.images self.new.store.journal.disk self.new.store.journal.place self.new.store.image) }
        ensures moments { (contents : Contents) → KeepsMap D.contents D.images self.old.store.journal.disk self.old.store.journal.place self.old.store.image
            → LeavesOnly D.moment D.images_since self.old.store.journal.disk self.new.store.journal.disk
            (RecoversEither contents self.old.store.image (with_all (said change.now) (told_map self.old))) }
        ensures acknowledged { (contents : Contents) (file : List ℕ) → KeepsMap D.contents D.images self.old.store.journal.disk self.old.store.journal.place self.old.store.image
            → OnOk result (D.images self.new.store.journal.disk file → RecoversFrom contents (told_map self.new) file) }
        ensures left { KeepsMap D.contents D.images self.old.store.journal.disk self.old.store.journal.place self.old.store.image → self.old.store.journal.failed ≡ false
            → OnErr result (StopHoldsMap (switch_calls self.old.store.journal.place) self.old.store.image (with_all (said change.now) (told_map self.old))
            (D.allowed self.old.store.journal.disk) (D.allowed self.new.store.journal.disk) (D.log self.new.store.journal.disk)) }
        ensures lasts { OnOk result ((D.allowed self.new.store.journal.disk ≡ fewer (switch_calls self.old.store.journal.place) (D.allowed self.old.store.journal.disk))
            × Outlasts (switch_calls self.old.store.journal.place) (D.allowed self.old.store.journal.disk)) }
    {
        bytes_of_a_change_are_read();
        states_may_be_committed();
        // Its image shows that the keys of the map ascend, each with a value.
        let _told = self.store.told().as_slice();
        self.store.commit(change)
    }

    fn faults(&self) -> u64 {
        self.store.faults()
    }
}
