//! A journal that is in use.

ghost use Rattle.std.specs.Prelude.{◌≡◌, ◌≤◌, ◌<◌, ◌+◌, ◌⊎◌, ◌++◌, [], ◌∷◌, ℕ, List, Err, Ok, Some, Bool, false, true, length, is_err, vec_capacity, IfErr, IfOk, OnErr, OnOk, IsErr, IsTrue};
ghost use Rattle.std.specs.Borrow.{Lends, sem};
ghost use Rattle.mt_journal.specs.Committing.{CutIn, calls_of, has_begun, has_form, has_room, list_with, written_by};
ghost use Rattle.mt_journal.specs.Layout.{journal_at};
ghost use Rattle.mt_journal.specs.Standing.{HasEither, IsWithin, StandsFor, after_calls, fits_at, switch_calls};
ghost use Rattle.mt_journal.specs.Stopping.{Outlasts, StopKeeps, StopLeaves, head_calls};
ghost use Rattle.mt_outside.specs.Disk.{LeavesContents, LeavesOnly};
ghost use Rattle.mt_outside.specs.Logs.{Logs, fewer};
ghost use Rattle.mt_outside.specs.Stream.{HasCause, RoseByOne, one_more};

use crate::form::Form;
use crate::planning::{Kind, Step, front_bytes, step_for};
use crate::position::{Position, slot_end};
use crate::reading::JournalFault;
use crate::recovering::read_journal;
use crate::writing::{lay_out, put, put_both};
use mt_outside::{Disk, Failed, stops_are_crashes};
use mt_tlv::Bytes;
use std::alloc::Global;
use std::marker::{Model, PhantomData};

// As much as is written at once: the mark of a move, selectors, a length, an image and a gate.
const BUFFER_LENGTH: usize = 65_547;

// How a file begins: the mark, and a closed begin gate.
const HEAD: [u8; 9] = [0x4d, 0x54, 0x4a, 0x52, 0x4e, 0x4c, 0x32, 0x0a, 0];

// What a record takes beside its change, and the next gate: two gates and a length.
const RECORD_ROOM: u64 = 6;

/// A journal on a disk. Contracts see the disk, where the next record goes, and whether it has failed: from the first
/// call on that failed, until it is reopened, no call of the disk is made.
#[derive(Drop)]
pub struct Journal<D: Disk, F: Form> {
    disk: D,
    place: Position,
    failed: bool,
    buffer: Vec<u8>,
    form: PhantomData<F>,
}

impl<D: Disk, F: Form> Model for Journal<D, F> {
    ghost use Rattle.std.specs.Prelude.{◌≤◌, vec_capacity};
    ghost use Rattle.mt_journal.specs.States.{JournalState};

    ghost Value = { JournalState D };

    ghost use Rattle.mt_journal.specs.Standing.{IsWithin};

    ghost view = { λ journal. record {
      disk = journal.disk;
      place = journal.place;
      failed = journal.failed;
    } };

    ghost invariant = { λ journal. (65547 ≤ vec_capacity journal.buffer) × IsWithin journal.place };
}

impl<D: Disk, F: Form> Journal<D, F> {
    ghost use Rattle.mt_journal.specs.Layout.{journal_at};
    ghost use Rattle.mt_journal.specs.contracts.journal.Journal.{the_row};
    ghost use Rattle.mt_journal.specs.Recovering.{FaultHasCause, HasPlace, HasReadCause, IfNotAJournal, OnlyRead};
    ghost use Rattle.mt_journal.specs.Standing.{HasEither, StandsFor, after_calls, fits_at, switch_calls};

    /// Recovers a journal: its list is that of the file, in order, an image first if there is one. It
    /// writes nothing, and begins with a sync. With a fault the disk is handed back.
    pub fn recover(alloc: Global, disk: D) -> Result<(Self, Vec<Bytes>), (D, JournalFault)>
        ensures recovered { (file : List ℕ) → D.contents disk ≡ Some file → IfOk result (λ journal. (journal_at F.image F.change file ≡ Ok journal.1.items)
            × StandsFor D.contents D.images F.image F.change journal.0.disk journal.0.place journal.1.items) }
        ensures ready { IfOk result (λ journal. journal.0.failed ≡ false) }
        // It names the place from which on the file is no journal.
        ensures refused { (file : List ℕ) → D.contents disk ≡ Some file → IfErr result (λ e. HasPlace e.1 (λ at. journal_at F.image F.change file ≡ Err at)) }
        ensures only_read { IfOk result (λ journal. OnlyRead D.contents D.images D.moment D.images_since disk journal.0.disk) }
        ensures only_read_err { IfErr result (λ e. OnlyRead D.contents D.images D.moment D.images_since disk e.0) }
        // The disk has failed where that is the fault, and not otherwise.
        ensures calm { IfOk result (λ journal. D.faults journal.0.disk ≡ D.faults disk) }
        ensures cause { IfErr result (λ e. FaultHasCause (D.faults disk) (D.faults e.0) e.1) }
    {
        let mut disk = disk;
        let mut buffer = Vec::new(alloc);
        if buffer.reserve(BUFFER_LENGTH).is_err() {
            return Err((disk, JournalFault::Memory));
        }
        let (place, changes) = match read_journal::<D, F>(alloc, &mut disk) {
            Ok(read) => read,
            Err(fault) => return Err((disk, fault)),
        };
        let journal = Journal {
            disk,
            place,
            failed: false,
            buffer,
            form: PhantomData,
        };
        Ok((journal, changes))
    }

    /// Recovers the journal again, over the disk that it has, as `recover` does. Where that fails the journal
    /// has failed, and has to be reopened.
    pub fn reopen(&mut self, alloc: Global) -> Result<Vec<Bytes>, JournalFault>
        ensures recovered { (file : List ℕ) → D.contents self.old.disk ≡ Some file → IfOk result (λ list. (journal_at F.image F.change file ≡ Ok list.items)
            × StandsFor D.contents D.images F.image F.change self.new.disk self.new.place list.items) }
        ensures ready { self.new.failed ≡ is_err result }
        // It names the place from which on the file is no journal.
        ensures refused { (file : List ℕ) → D.contents self.old.disk ≡ Some file → IfNotAJournal result (λ at. journal_at F.image F.change file ≡ Err at) }
        ensures only_read { OnlyRead D.contents D.images D.moment D.images_since self.old.disk self.new.disk }
        // The disk has failed where that is the fault, and not otherwise.
        ensures cause { HasReadCause (D.faults self.old.disk) (D.faults self.new.disk) result }
    {
        self.failed = true;
        let (place, changes) = read_journal::<D, F>(alloc, &mut self.disk)?;
        self.place = place;
        self.failed = false;
        Ok(changes)
    }

    /// The journal makes no more calls, until it is reopened.
    pub fn give_up(&mut self)
        ensures failed { self.new.failed ≡ true }
        ensures disk { self.new.disk ≡ self.old.disk }
        ensures place { self.new.place ≡ self.old.place }
    {
        self.failed = true;
    }

    /// The disk.
    pub fn disk(&self) -> &D
        ensures { result.now ≡ self.now.disk }
    {
        &self.disk
    }

    /// The disk, lent to be changed: where it stops, and what it forgets. Where its contents become others, the
    /// journal knows nothing of them.
    pub fn disk_mut(&mut self) -> &mut D
        ensures value { result.now ≡ self.old.disk }
        ensures* writes_back { sem 𝓛 (Lends (the_row D.row F.row D.Disk F.Form) D.row self.entry result (λ disk. record self.old { disk = disk })) }
    {
        &mut self.disk
    }

    /// The disk, as it is.
    pub fn into_disk(self) -> D
        ensures { result ≡ self.disk }
    {
        self.disk
    }

    /// Whether the journal has failed.
    pub fn has_failed(&self) -> bool
        ensures { result ≡ self.now.failed }
    {
        self.failed
    }

    /// Adds a change that may follow the list at its end, in four calls of the disk. After a failure the
    /// journal makes no more calls, and has to be recovered: the change is in the list then or it is not.
    /// Behind bytes that may not follow the list, the file is no journal any more.
    pub fn append(&mut self, change: &[u8]) -> Result<(), Failed>
        requires short { length change.now ≤ 65536 }
        requires fits { IsTrue (fits_at self.old.place (length change.now)) }
        ensures added { (list : List (List ℕ)) → StandsFor D.contents D.images F.image F.change self.old.disk self.old.place list → IsTrue (F.change list change.now)
            → OnOk result (StandsFor D.contents D.images F.image F.change self.new.disk self.new.place (list ++ change.now ∷ [])) }
        // A crash at any moment leaves the list with the change or without it.
        ensures moments { (list : List (List ℕ)) → StandsFor D.contents D.images F.image F.change self.old.disk self.old.place list → IsTrue (F.change list change.now)
            → LeavesOnly D.moment D.images_since self.old.disk self.new.disk (HasEither F.image F.change list (list ++ change.now ∷ [])) }
        // What a disk leaves that stops in it has the list with the change exactly where it stops at one of the
        // last two calls and all is kept, and otherwise the list from before.
        ensures left { (list : List (List ℕ)) → StandsFor D.contents D.images F.image F.change self.old.disk self.old.place list → IsTrue (F.change list change.now) → self.old.failed ≡ false
            → OnErr result (StopLeaves F.image F.change 4 list (list ++ change.now ∷ []) (D.allowed self.old.disk) (D.allowed self.new.disk) (D.log self.new.disk)) }
        // Ok leaves so many calls fewer until the disk is to stop.
        ensures lasts { OnOk result ((D.allowed self.new.disk ≡ fewer 4 (D.allowed self.old.disk)) × Outlasts 4 (D.allowed self.old.disk)) }
        ensures calls { OnOk result (D.calls self.new.disk ≡ after_calls 4 (D.calls self.old.disk)) }
        // It fails only where the disk has failed in it, or an earlier call has.
        ensures failed { self.new.failed ≡ is_err result }
        ensures cause { self.old.failed ≡ false → HasCause (D.faults self.old.disk) (D.faults self.new.disk) result }
        ensures stays { IsTrue self.old.failed → IsErr result × (self.new ≡ self.old) }
    {
        self.commit(Kind::Change, change)
    }

    /// Puts an image in the place of the list, in four calls of the disk, and six on a file of at most nine
    /// bytes. The first on a log of the earlier layout moves it. After a failure the journal makes no more
    /// calls, and has to be recovered: its list is the one from before then, or the image alone.
    pub fn switch(&mut self, image: &[u8]) -> Result<(), Failed>
        requires form { IsTrue (F.image image.now) }
        requires short { length image.now ≤ 65536 }
        ensures replaced { (list : List (List ℕ)) → StandsFor D.contents D.images F.image F.change self.old.disk self.old.place list
            → OnOk result (StandsFor D.contents D.images F.image F.change self.new.disk self.new.place (image.now ∷ [])) }
        // A crash at any moment leaves the list or the image alone.
        ensures moments { (list : List (List ℕ)) → StandsFor D.contents D.images F.image F.change self.old.disk self.old.place list
            → LeavesOnly D.moment D.images_since self.old.disk self.new.disk (HasEither F.image F.change list (image.now ∷ [])) }
        // What a disk leaves that stops in it has the image exactly where it stops at one of the last two calls
        // and all is kept, and otherwise the list from before.
        ensures left { (list : List (List ℕ)) → StandsFor D.contents D.images F.image F.change self.old.disk self.old.place list → self.old.failed ≡ false
            → OnErr result (StopLeaves F.image F.change (switch_calls self.old.place) list (image.now ∷ []) (D.allowed self.old.disk) (D.allowed self.new.disk) (D.log self.new.disk)) }
        // Ok leaves so many calls fewer until the disk is to stop.
        ensures lasts { OnOk result ((D.allowed self.new.disk ≡ fewer (switch_calls self.old.place) (D.allowed self.old.disk)) × Outlasts (switch_calls self.old.place) (D.allowed self.old.disk)) }
        ensures calls { OnOk result (D.calls self.new.disk ≡ after_calls (switch_calls self.old.place) (D.calls self.old.disk)) }
        // It fails only where the disk has failed in it, or an earlier call has.
        ensures failed { self.new.failed ≡ is_err result }
        ensures cause { self.old.failed ≡ false → HasCause (D.faults self.old.disk) (D.faults self.new.disk) result }
        ensures stays { IsTrue self.old.failed → IsErr result × (self.new ≡ self.old) }
    {
        self.commit(Kind::Image, image)
    }

    /// Whether a record of a change of this length fits into the current slot. Where it does not, a
    /// `switch` goes on in the other.
    pub fn fits(&self, length: usize) -> bool
        ensures { result ≡ fits_at self.now.place length }
    {
        match self.place {
            Position::InUse { base, p0, p1, gate } => {
                let last = slot_end(base, p0, p1) - RECORD_ROOM;
                gate <= last && length as u64 <= last - gate
            }
            _ => false,
        }
    }

    // Commits a piece, unless an earlier call has failed. While it is under way the journal has failed, so
    // that each way out by a failure leaves it so.
    fn commit(&mut self, kind: Kind, piece: &[u8]) -> Result<(), Failed>
        requires short { length piece.now ≤ 65536 }
        requires room { IsTrue (has_room kind self.old.place (length piece.now)) }
        ensures committed { (list : List (List ℕ)) → StandsFor D.contents D.images F.image F.change self.old.disk self.old.place list → IsTrue (has_form F.image F.change kind list piece.now)
            → OnOk result (StandsFor D.contents D.images F.image F.change self.new.disk self.new.place (list_with kind piece.now list)) }
        ensures moments { (list : List (List ℕ)) → StandsFor D.contents D.images F.image F.change self.old.disk self.old.place list → IsTrue (has_form F.image F.change kind list piece.now)
            → LeavesOnly D.moment D.images_since self.old.disk self.new.disk (HasEither F.image F.change list (list_with kind piece.now list)) }
        ensures left { (list : List (List ℕ)) → StandsFor D.contents D.images F.image F.change self.old.disk self.old.place list → IsTrue (has_form F.image F.change kind list piece.now) → self.old.failed ≡ false
            → OnErr result (StopLeaves F.image F.change (switch_calls self.old.place) list (list_with kind piece.now list) (D.allowed self.old.disk) (D.allowed self.new.disk) (D.log self.new.disk)) }
        ensures lasts { OnOk result ((D.allowed self.new.disk ≡ fewer (switch_calls self.old.place) (D.allowed self.old.disk)) × Outlasts (switch_calls self.old.place) (D.allowed self.old.disk)) }
        ensures calls { OnOk result (D.calls self.new.disk ≡ after_calls (switch_calls self.old.place) (D.calls self.old.disk)) }
        ensures failed { self.new.failed ≡ is_err result }
        ensures cause { self.old.failed ≡ false → HasCause (D.faults self.old.disk) (D.faults self.new.disk) result }
        ensures stays { IsTrue self.old.failed → IsErr result × (self.new ≡ self.old) }
    {
        if self.failed {
            return Err(Failed);
        }
        self.failed = true;
        self.place = commit_at::<D, F>(&mut self.disk, &mut self.buffer, self.place, kind, piece)?;
        self.failed = false;
        Ok(())
    }
}

// Commits a piece, and gives where the next record goes.
fn commit_at<D: Disk, F: Form>(
    disk: &mut D,
    buffer: &mut Vec<u8>,
    place: Position,
    kind: Kind,
    piece: &[u8],
) -> Result<Position, Failed>
    requires capacity { 65547 ≤ vec_capacity buffer.old }
    requires within { IsWithin place }
    requires short { length piece.now ≤ 65536 }
    requires room { IsTrue (has_room kind place (length piece.now)) }
    ensures committed { (list : List (List ℕ)) → StandsFor D.contents D.images F.image F.change disk.old place list → IsTrue (has_form F.image F.change kind list piece.now)
        → IfOk result (λ next. StandsFor D.contents D.images F.image F.change disk.new next (list_with kind piece.now list)) }
    ensures moments { (list : List (List ℕ)) → StandsFor D.contents D.images F.image F.change disk.old place list → IsTrue (has_form F.image F.change kind list piece.now)
        → LeavesOnly D.moment D.images_since disk.old disk.new (HasEither F.image F.change list (list_with kind piece.now list)) }
    ensures left { (list : List (List ℕ)) → StandsFor D.contents D.images F.image F.change disk.old place list → IsTrue (has_form F.image F.change kind list piece.now)
        → OnErr result (StopLeaves F.image F.change (switch_calls place) list (list_with kind piece.now list) (D.allowed disk.old) (D.allowed disk.new) (D.log disk.new)) }
    ensures lasts { OnOk result ((D.allowed disk.new ≡ fewer (switch_calls place) (D.allowed disk.old)) × Outlasts (switch_calls place) (D.allowed disk.old)) }
    ensures calls { OnOk result (D.calls disk.new ≡ after_calls (switch_calls place) (D.calls disk.old)) }
    ensures cause { HasCause (D.faults disk.old) (D.faults disk.new) result }
    ensures next_within { IfOk result (λ next. IsWithin next) }
    ensures buffer { vec_capacity buffer.old ≤ vec_capacity buffer.new }
{
    stops_are_crashes();
    let begun = begin::<D, F>(disk, place)?;
    let step = step_for(kind, begun, piece.len() as u64);
    carry_out(disk, buffer, step, piece)?;
    Ok(step.next)
}

// Writes a piece as its step says.
fn carry_out<D: Disk>(
    disk: &mut D,
    buffer: &mut Vec<u8>,
    step: Step,
    piece: &[u8],
) -> Result<(), Failed>
    requires capacity { 65547 ≤ vec_capacity buffer.old }
    requires short { length piece.now ≤ 65536 }
    ensures safe { (file : List ℕ) → D.contents disk.old ≡ Some file → LeavesContents (Some file) (D.images disk.old)
        → OnOk result ((D.contents disk.new ≡ Some (written_by step piece.now file)) × LeavesContents (Some (written_by step piece.now file)) (D.images disk.new)) }
    ensures moments { (file : List ℕ) → D.contents disk.old ≡ Some file → LeavesContents (Some file) (D.images disk.old)
        → LeavesOnly D.moment D.images_since disk.old disk.new (CutIn step piece.now file) }
    ensures logged { Logs (calls_of step piece.now) (D.log disk.old) (D.log disk.new) (D.allowed disk.old) (D.allowed disk.new) result }
    ensures calls { OnOk result (D.calls disk.new ≡ after_calls 4 (D.calls disk.old)) }
    ensures cause { HasCause (D.faults disk.old) (D.faults disk.new) result }
    ensures buffer { vec_capacity buffer.old ≤ vec_capacity buffer.new }
{
    lay_out(buffer, front_bytes(step.front), piece);
    put_both(disk, step.at, buffer, step.last_at, step.last)
}

// Writes the head of a file that has none, and gives where its first record goes.
fn begin<D: Disk, F: Form>(disk: &mut D, place: Position) -> Result<Position, Failed>
    requires within { IsWithin place }
    ensures begun { (list : List (List ℕ)) → StandsFor D.contents D.images F.image F.change disk.old place list
        → IfOk result (λ next. StandsFor D.contents D.images F.image F.change disk.new next list) }
    ensures has_begun { IfOk result (λ next. IsTrue (has_begun next)) }
    ensures moments { (list : List (List ℕ)) → StandsFor D.contents D.images F.image F.change disk.old place list
        → LeavesOnly D.moment D.images_since disk.old disk.new (λ image. journal_at F.image F.change image ≡ Ok list) }
    ensures left { (list : List (List ℕ)) → StandsFor D.contents D.images F.image F.change disk.old place list
        → OnErr result (StopKeeps F.image F.change 2 list (D.allowed disk.old) (D.allowed disk.new) (D.log disk.new)) }
    ensures logged { Logs (head_calls place) (D.log disk.old) (D.log disk.new) (D.allowed disk.old) (D.allowed disk.new) result }
    ensures room { (kind : Kind) (count : ℕ) → IsTrue (has_room kind place count) → IfOk result (λ next. IsTrue (has_room kind next count)) }
    ensures calls { OnOk result (after_calls 4 (D.calls disk.new) ≡ after_calls (switch_calls place) (D.calls disk.old)) }
    ensures cause { HasCause (D.faults disk.old) (D.faults disk.new) result }
    ensures next_within { IfOk result (λ next. IsWithin next) }
{
    stops_are_crashes();
    if let Position::Fresh = place {
        put(disk, 0, &HEAD)?;
        return Ok(Position::Begun);
    }
    Ok(place)
}
