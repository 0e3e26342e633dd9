//! Recovering a map, and committing a change of it.

ghost use Rattle.std.specs.Prelude.{◌≡◌, ◌<◌, ◌≤◌, ◌⊎◌, ℕ, List, Some, Err, false, true, is_err, length, IfErr, IfOk, OnErr, OnOk, IsErr, IsTrue};
ghost use Rattle.std.specs.Borrow.{Lends, sem};
ghost use Rattle.mt_durable.specs.Changes.{change_bytes, entry_trees};
ghost use Rattle.mt_durable.specs.Images.{IsImage};
ghost use Rattle.mt_durable.specs.Keeping.{Committed, HasRoom, IsAdmitted, IsChange, LeadsTo, WasOrCommitted};
ghost use Rattle.mt_durable.specs.Reading.{said};
ghost use Rattle.mt_durable.specs.Readings.{Gives};
ghost use Rattle.mt_durable.specs.Setting.{with_all};
ghost use Rattle.mt_durable.specs.declared.durable.Entry.{Entry};
ghost use Rattle.mt_journal.specs.Layout.{journal_at};
ghost use Rattle.mt_journal.specs.Recovering.{FaultHasCause, HasPlace, OnlyRead};
ghost use Rattle.mt_journal.specs.Recovering.{HasReadCause, IfNotAJournal};
ghost use Rattle.mt_journal.specs.Standing.{switch_calls};
ghost use Rattle.mt_journal.specs.Stopping.{Outlasts};
ghost use Rattle.mt_outside.specs.Disk.{LeavesOnly};
ghost use Rattle.mt_outside.specs.Logs.{fewer};
ghost use Rattle.mt_outside.specs.Stream.{HasCause};
ghost use Rattle.mt_store.specs.Leading.{Holds, HoldsEither, IfNotAChange, Keeps, RestartsHold, StopHolds, map_of};
ghost use Rattle.mt_tlv.specs.Limits.{IsAllowed, deepest};
ghost use Rattle.mt_tlv.specs.Tree.{array};

use crate::image::Image;
use crate::map_form::MapForm;
use mt_durable::{
    ChangeFault, Durable, Keeper, bytes_of_a_change_are_read, changes_lead_on,
    differences_lead_there, maps_have_images, read_change, write_difference,
};
use mt_journal::{Journal, JournalFault};
use mt_outside::{Disk, Failed};
use mt_tlv::Bytes;
use std::alloc::Global;
use std::marker::Model;
use std::mem;

/// Durable state on a disk. Contracts see the journal, and the map as its image stands for it.
pub struct Store<D: Disk, F: MapForm> {
    journal: Journal<D, F>,
    image: Image,
    next: Image,
}

impl<D: Disk, F: MapForm> Model for Store<D, F> {
    ghost use Rattle.std.specs.Coded.{codes};
    ghost use Rattle.mt_tlv.specs.contracts.value.Value as values;
    ghost use Rattle.mt_store.specs.States.{StoreState};

    ghost Value = { StoreState D };

    ghost coded = { Prim.hlevel (codes, values.the_row.coded, D.code) };

    ghost view = { λ store. record {
      journal = store.journal;
      image = store.image;
    } };
}

impl<D: Disk + Drop, F: MapForm> Drop for Store<D, F> {
    fn drop(self) {
        let Store {
            journal: _,
            image: _,
            next: _,
        } = self;
    }
}

impl<D: Disk, F: MapForm> Store<D, F> {
    ghost use Rattle.mt_journal.specs.Layout.{journal_at};
    ghost use Rattle.mt_journal.specs.Recovering.{FaultHasCause, HasPlace, OnlyRead};
    ghost use Rattle.mt_store.specs.Leading.{Holds, Keeps};
    ghost use Rattle.mt_store.specs.contracts.store.Store.{the_row};

    /// Recovers the map of a disk: that to which the journal's changes lead from the empty map. It writes
    /// nothing, and begins with a sync. With a fault the disk is handed back. All memory that commits need
    /// is taken here; a map whose image is longer than that finds none.
    pub fn recover(alloc: Global, disk: D) -> Result<(Self, Durable), (D, JournalFault)>
        ensures recovered { (file : List ℕ) → D.contents disk ≡ Some file → IfOk result (λ store. Holds F.image F.change store.1 file
            × Keeps D.contents D.images F.image F.change store.0.journal.disk store.0.journal.place store.1) }
        ensures image { IfOk result (λ store. store.0.image ≡ store.1) }
        ensures ready { IfOk result (λ store. store.0.journal.failed ≡ false) }
        // It names the place from which on the file is no journal.
        ensures refused { (file : List ℕ) → D.contents disk ≡ Some file → IfErr result (λ e. HasPlace e.1 (λ at. journal_at F.image F.change file ≡ Err at)) }
        ensures only_read { IfOk result (λ store. OnlyRead D.contents D.images D.moment D.images_since disk store.0.journal.disk) }
        ensures only_read_err { IfErr result (λ e. OnlyRead D.contents D.images D.moment D.images_since disk e.0) }
        // The disk has failed where that is the fault, and not otherwise.
        ensures calm { IfOk result (λ store. D.faults store.0.journal.disk ≡ D.faults disk) }
        ensures cause { IfErr result (λ e. FaultHasCause (D.faults disk) (D.faults e.0) e.1) }
    {
        let (journal, list) = Journal::recover(alloc, disk)?;
        match images_of(alloc, list) {
            Ok((map, image, next)) => {
                let store = Store {
                    journal,
                    image,
                    next,
                };
                Ok((store, map))
            }
            Err(_) => Err((journal.into_disk(), JournalFault::Memory)),
        }
    }

    /// Recovers the map again, over the disk that the store has, as `recover` does. Where that fails the store
    /// has failed, and has to be reopened.
    pub fn reopen(&mut self, alloc: Global) -> Result<Durable, JournalFault>
        ensures recovered { (file : List ℕ) → D.contents self.old.journal.disk ≡ Some file → IfOk result (λ map. Holds F.image F.change map file
            × Keeps D.contents D.images F.image F.change self.new.journal.disk self.new.journal.place map) }
        ensures image { IfOk result (λ map. self.new.image ≡ map) }
        ensures ready { self.new.journal.failed ≡ is_err result }
        // It names the place from which on the file is no journal.
        ensures refused { (file : List ℕ) → D.contents self.old.journal.disk ≡ Some file → IfNotAJournal result (λ at. journal_at F.image F.change file ≡ Err at) }
        ensures only_read { OnlyRead D.contents D.images D.moment D.images_since self.old.journal.disk self.new.journal.disk }
        // The disk has failed where that is the fault, and not otherwise.
        ensures cause { HasReadCause (D.faults self.old.journal.disk) (D.faults self.new.journal.disk) result }
    {
        let list = self.journal.reopen(alloc)?;
        match images_of(alloc, list) {
            Ok((map, image, next)) => {
                self.image = image;
                self.next = next;
                Ok(map)
            }
            Err(_) => {
                self.journal.give_up();
                Err(JournalFault::Memory)
            }
        }
    }

    /// The store makes no more calls, until it is reopened.
    pub fn give_up(&mut self)
        ensures { self.new ≡ record self.old { journal = record self.old.journal { failed = true } } }
    {
        self.journal.give_up();
    }

    /// Commits the map of another image in the place of this one: the change that leads there goes behind the others, or where
    /// that does not fit, the image goes into the other slot of the journal. `to` becomes the image of before. `room` is memory in
    /// which the change is put together; it takes no other.
    pub fn lead_to(&mut self, to: &mut Image, room: &mut [u8]) -> Result<(), Failed>
        requires admitted { IsTrue (F.admits to.old) }
        requires room { length room.old ≤ 65535 }
        ensures image { OnOk result (self.new.image ≡ to.old) }
        ensures back { OnOk result (to.new ≡ self.old.image) }
        ensures part { OnErr result ((self.new.image ≡ self.old.image) × (to.new ≡ to.old)) }
        ensures failed { self.new.journal.failed ≡ is_err result }
        ensures cause { self.old.journal.failed ≡ false → HasCause (D.faults self.old.journal.disk) (D.faults self.new.journal.disk) result }

        // Where a call has failed, none is made.
        ensures still { IsTrue self.old.journal.failed → IsErr result × (self.new ≡ self.old) }
        // After Ok a crash leaves a file that leads to the new map, and nothing else.
        ensures kept { Keeps D.contents D.images F.image F.change self.old.journal.disk self.old.journal.place self.old.image
            → OnOk result (Keeps D.contents D.images F.image F.change self.new.journal.disk self.new.journal.place self.new.image) }
        // A crash at any moment leaves one that leads to the new map or to the one from before.
        ensures moments { Keeps D.contents D.images F.image F.change self.old.journal.disk self.old.journal.place self.old.image
            → LeavesOnly D.moment D.images_since self.old.journal.disk self.new.journal.disk (HoldsEither F.image F.change self.old.image to.old) }
        // What a disk leaves that stops in it leads to the new map exactly where it stops at one of the last two calls and all is
        // kept, and otherwise to the one from before.
        ensures left { Keeps D.contents D.images F.image F.change self.old.journal.disk self.old.journal.place self.old.image → self.old.journal.failed ≡ false
            → OnErr result (StopHolds F.image F.change (switch_calls self.old.journal.place) self.old.image to.old (D.allowed self.old.journal.disk) (D.allowed self.new.journal.disk) (D.log self.new.journal.disk)) }
        // Ok leaves so many calls fewer until the disk is to stop.
        ensures lasts { OnOk result ((D.allowed self.new.journal.disk ≡ fewer (switch_calls self.old.journal.place) (D.allowed self.old.journal.disk))
            × Outlasts (switch_calls self.old.journal.place) (D.allowed self.old.journal.disk)) }
    {
        if self.journal.has_failed() {
            return Err(Failed);
        }
        put_map(&mut self.journal, &self.image, to, room)?;
        mem::swap(&mut self.image, to);
        Ok(())
    }

    /// Puts the image of the map in the place of the journal's list, in the calls of a commit, so that a recovery has it alone to read. The
    /// map stays. It takes no memory.
    pub fn compact(&mut self) -> Result<(), Failed>
        requires admitted { IsTrue (F.admits self.old.image) }
        ensures image { self.new.image ≡ self.old.image }
        ensures failed { self.new.journal.failed ≡ is_err result }
        ensures cause { self.old.journal.failed ≡ false → HasCause (D.faults self.old.journal.disk) (D.faults self.new.journal.disk) result }

        // Where a call has failed, none is made.
        ensures still { IsTrue self.old.journal.failed → IsErr result × (self.new ≡ self.old) }
        // After Ok a crash leaves a file that leads to the map, and nothing else.
        ensures kept { Keeps D.contents D.images F.image F.change self.old.journal.disk self.old.journal.place self.old.image
            → OnOk result (Keeps D.contents D.images F.image F.change self.new.journal.disk self.new.journal.place self.new.image) }
        // So does one at any moment.
        ensures moments { Keeps D.contents D.images F.image F.change self.old.journal.disk self.old.journal.place self.old.image
            → LeavesOnly D.moment D.images_since self.old.journal.disk self.new.journal.disk (Holds F.image F.change self.old.image) }
        // Ok leaves so many calls fewer until the disk is to stop.
        ensures lasts { OnOk result ((D.allowed self.new.journal.disk ≡ fewer (switch_calls self.old.journal.place) (D.allowed self.old.journal.disk))
            × Outlasts (switch_calls self.old.journal.place) (D.allowed self.old.journal.disk)) }
    {
        bytes_of_a_change_are_read();
        if self.journal.has_failed() {
            return Err(Failed);
        }
        switch_to(&mut self.journal, self.image.as_slice())
    }

    /// The image of the map.
    pub fn image(&self) -> &Image
        ensures { result.now ≡ self.now.image }
    {
        &self.image
    }

    /// The journal.
    pub fn journal(&self) -> &Journal<D, F>
        ensures { result.now ≡ self.now.journal }
    {
        &self.journal
    }

    /// The disk, lent to be changed: where it stops, and what it forgets. Where its contents become others, the
    /// store knows nothing of them.
    pub fn disk_mut(&mut self) -> &mut D
        ensures value { result.now ≡ self.old.journal.disk }
        ensures* writes_back { sem 𝓛 (Lends (the_row D.row F.row D.Disk F.Form F.Rule) D.row self.entry result (λ disk. record self.old { journal = record self.old.journal { disk = disk } })) }
    {
        self.journal.disk_mut()
    }

    /// The disk, as it is.
    pub fn into_disk(self) -> D
        ensures { result ≡ self.journal.disk }
    {
        let Store {
            journal,
            image: _,
            next: _,
        } = self;
        journal.into_disk()
    }
}

impl<D: Disk, F: MapForm> Keeper for Store<D, F> {
    ghost map = { λ store. Some store.image };

    ghost admits = { F.admits };

    ghost failed = { λ store. store.journal.failed };

    ghost faults = { λ store. D.faults store.journal.disk };

    ghost stands_between = { λ store before after. (store.image ≡ before) ⊎ (store.image ≡ after) };

    /// It takes no memory. A change that does not fit into the current slot of the journal goes into the
    /// other, as the image of the map after it.
    fn commit(&mut self, change: &[u8]) -> Result<(), Failed>
        requires form { IsChange change.now }
        requires room { HasRoom change.now (Some self.old.image) }
        requires admitted { IsAdmitted F.admits change.now (Some self.old.image) }
        ensures committed { OnOk result (Committed change.now (Some self.old.image) (Some self.new.image)) }
        ensures part { OnErr result (WasOrCommitted change.now (Some self.old.image) (Some self.new.image)) }
        ensures failed { self.new.journal.failed ≡ is_err result }
        ensures stays { IsTrue self.old.journal.failed → IsErr result × (Some self.new.image ≡ Some self.old.image) × (D.faults self.new.journal.disk ≡ D.faults self.old.journal.disk) }
        ensures cause { self.old.journal.failed ≡ false → HasCause (D.faults self.old.journal.disk) (D.faults self.new.journal.disk) result }
        ensures between { (before : List Entry) (after : List Entry) → self.old.journal.failed ≡ false → Some self.old.image ≡ Some before → LeadsTo change.now before after
            → OnErr result ((self.new.image ≡ before) ⊎ (self.new.image ≡ after)) }

        // Where a call has failed, none is made.
        ensures still { IsTrue self.old.journal.failed → self.new ≡ self.old }
        // After Ok a crash leaves a file that leads to the new map, and nothing else.
        ensures kept { Keeps D.contents D.images F.image F.change self.old.journal.disk self.old.journal.place self.old.image
            → OnOk result (Keeps D.contents D.images F.image F.change self.new.journal.disk self.new.journal.place self.new.image) }
        // A crash at any moment leaves one that leads to the map with the change or without it.
        ensures moments { Keeps D.contents D.images F.image F.change self.old.journal.disk self.old.journal.place self.old.image
            → LeavesOnly D.moment D.images_since self.old.journal.disk self.new.journal.disk
            (HoldsEither F.image F.change self.old.image (with_all (said change.now) self.old.image)) }
        // What a disk leaves that stops in it leads to the map with the change exactly where it stops at one of the
        // last two calls and all is kept, and otherwise to the one from before.
        ensures left { Keeps D.contents D.images F.image F.change self.old.journal.disk self.old.journal.place self.old.image → self.old.journal.failed ≡ false
            → OnErr result (StopHolds F.image F.change (switch_calls self.old.journal.place) self.old.image (with_all (said change.now) self.old.image)
            (D.allowed self.old.journal.disk) (D.allowed self.new.journal.disk) (D.log self.new.journal.disk)) }
        // Ok leaves so many calls fewer until the disk is to stop.
        ensures lasts { OnOk result ((D.allowed self.new.journal.disk ≡ fewer (switch_calls self.old.journal.place) (D.allowed self.old.journal.disk))
            × Outlasts (switch_calls self.old.journal.place) (D.allowed self.old.journal.disk)) }
    {
        bytes_of_a_change_are_read();
        changes_lead_on();
        if self.journal.has_failed() {
            return Err(Failed);
        }
        self.next.follow::<F>(&self.image, change);
        put(&mut self.journal, change, self.next.as_slice())?;
        mem::swap(&mut self.image, &mut self.next);
        Ok(())
    }

    fn faults(&self) -> u64 {
        self.journal.disk().faults()
    }
}

// Adds a change to the list, or puts the image after it in the place of all where it does not fit.
fn put<D: Disk, F: MapForm>(
    journal: &mut Journal<D, F>,
    change: &[u8],
    image: &[u8],
) -> Result<(), Failed>
    requires form { IsChange change.now }
    requires image_form { IsImage image.now }
    requires admitted { IsTrue (F.admits (said image.now)) }
    ensures kept { (map : List Entry) → said image.now ≡ with_all (said change.now) map
        → Keeps D.contents D.images F.image F.change journal.old.disk journal.old.place map
        → OnOk result (Keeps D.contents D.images F.image F.change journal.new.disk journal.new.place (with_all (said change.now) map)) }
    ensures moments { (map : List Entry) → said image.now ≡ with_all (said change.now) map
        → Keeps D.contents D.images F.image F.change journal.old.disk journal.old.place map
        → LeavesOnly D.moment D.images_since journal.old.disk journal.new.disk (HoldsEither F.image F.change map (with_all (said change.now) map)) }
    ensures left { (map : List Entry) → said image.now ≡ with_all (said change.now) map
        → Keeps D.contents D.images F.image F.change journal.old.disk journal.old.place map → journal.old.failed ≡ false
        → OnErr result (StopHolds F.image F.change (switch_calls journal.old.place) map (with_all (said change.now) map) (D.allowed journal.old.disk) (D.allowed journal.new.disk) (D.log journal.new.disk)) }
    ensures lasts { OnOk result ((D.allowed journal.new.disk ≡ fewer (switch_calls journal.old.place) (D.allowed journal.old.disk)) × Outlasts (switch_calls journal.old.place) (D.allowed journal.old.disk)) }
    ensures failed { journal.new.failed ≡ is_err result }
    ensures cause { journal.old.failed ≡ false → HasCause (D.faults journal.old.disk) (D.faults journal.new.disk) result }
{
    bytes_of_a_change_are_read();
    changes_lead_on();
    if journal.fits(change.len()) {
        journal.append(change)
    } else {
        switch_to(journal, image)
    }
}

// Puts an image in the place of all.
fn switch_to<D: Disk, F: MapForm>(journal: &mut Journal<D, F>, image: &[u8]) -> Result<(), Failed>
    requires image_form { IsImage image.now }
    requires admitted { IsTrue (F.admits (said image.now)) }
    ensures kept { (map : List Entry) → Keeps D.contents D.images F.image F.change journal.old.disk journal.old.place map
        → OnOk result (Keeps D.contents D.images F.image F.change journal.new.disk journal.new.place (said image.now)) }
    ensures moments { (map : List Entry) → Keeps D.contents D.images F.image F.change journal.old.disk journal.old.place map
        → LeavesOnly D.moment D.images_since journal.old.disk journal.new.disk (HoldsEither F.image F.change map (said image.now)) }
    ensures left { (map : List Entry) → Keeps D.contents D.images F.image F.change journal.old.disk journal.old.place map → journal.old.failed ≡ false
        → OnErr result (StopHolds F.image F.change (switch_calls journal.old.place) map (said image.now) (D.allowed journal.old.disk) (D.allowed journal.new.disk) (D.log journal.new.disk)) }
    ensures lasts { OnOk result ((D.allowed journal.new.disk ≡ fewer (switch_calls journal.old.place) (D.allowed journal.old.disk)) × Outlasts (switch_calls journal.old.place) (D.allowed journal.old.disk)) }
    ensures failed { journal.new.failed ≡ is_err result }
    ensures cause { journal.old.failed ≡ false → HasCause (D.faults journal.old.disk) (D.faults journal.new.disk) result }
{
    bytes_of_a_change_are_read();
    changes_lead_on();
    journal.switch(image)
}

// Leads on to the map of another image: by the change that leads there, or by the image where that is too long.
fn put_map<D: Disk, F: MapForm>(
    journal: &mut Journal<D, F>,
    from: &Image,
    to: &Image,
    room: &mut [u8],
) -> Result<(), Failed>
    requires admitted { IsTrue (F.admits to.now) }
    requires room { length room.old ≤ 65535 }
    ensures kept { Keeps D.contents D.images F.image F.change journal.old.disk journal.old.place from.now
        → OnOk result (Keeps D.contents D.images F.image F.change journal.new.disk journal.new.place to.now) }
    ensures moments { Keeps D.contents D.images F.image F.change journal.old.disk journal.old.place from.now
        → LeavesOnly D.moment D.images_since journal.old.disk journal.new.disk (HoldsEither F.image F.change from.now to.now) }
    ensures left { Keeps D.contents D.images F.image F.change journal.old.disk journal.old.place from.now → journal.old.failed ≡ false
        → OnErr result (StopHolds F.image F.change (switch_calls journal.old.place) from.now to.now (D.allowed journal.old.disk) (D.allowed journal.new.disk) (D.log journal.new.disk)) }
    ensures lasts { OnOk result ((D.allowed journal.new.disk ≡ fewer (switch_calls journal.old.place) (D.allowed journal.old.disk)) × Outlasts (switch_calls journal.old.place) (D.allowed journal.old.disk)) }
    ensures failed { journal.new.failed ≡ is_err result }
    ensures cause { journal.old.failed ≡ false → HasCause (D.faults journal.old.disk) (D.faults journal.new.disk) result }
{
    bytes_of_a_change_are_read();
    differences_lead_there();
    let image = to.as_slice();
    match write_difference(from.as_slice(), image, room) {
        Some(count) => put(journal, &room[..count], image),
        None => switch_to(journal, image),
    }
}

// The map of a list, its image, and room for the next.
fn images_of(alloc: Global, list: Vec<Bytes>) -> Result<(Durable, Image, Image), ChangeFault>
    ensures map { IfOk result (λ x. map_of list.items ≡ Some x.0) }
    ensures image { IfOk result (λ x. x.1 ≡ x.0) }
    ensures refused { IfNotAChange result ((map : List Entry) → map_of list.items ≡ Some map → 65535 < length (change_bytes map)) }
{
    let map = map_of(alloc, list)?;
    let image = Image::of_map(alloc, &map)?;
    let next = Image::of_map(alloc, &map)?;
    Ok((map, image, next))
}

// The map to which a list leads.
fn map_of(alloc: Global, list: Vec<Bytes>) -> Result<Durable, ChangeFault>
    ensures exact { Gives (λ map. map) result (map_of list.items) }
    ensures allowed { IfOk result (λ map. IsAllowed (array (entry_trees map)) deepest) }
{
    maps_have_images();
    let mut map = Durable::new(alloc);
    for change in list {
        map.merge(read_change(alloc, change.as_slice())?)?;
    }
    Ok(map)
}

/// What a disk in memory holds once it was restarted after a stop in a commit leads to the map that `left` of
/// that commit names: that with the change exactly where it stopped at one of the commit's last two calls and
/// all was kept.
pub fn restarts_hold()
    ensures { RestartsHold }
{}
