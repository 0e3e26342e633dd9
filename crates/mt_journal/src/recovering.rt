//! What the file of a journal holds.

ghost use Rattle.std.specs.Prelude.{◌≡◌, ◌≤◌, ◌<◌, ◌+◌, ◌^◌, Bool, List, ℕ, Option, Some, None, Ok, Err, length, take, drop, get_or, false, IfOk, IfSome, OnOk};
ghost use Rattle.mt_journal.specs.Layout.{Reads, Records, is_past, journal_at, log_mark, same_front, slot_at, slot_length, slots_at};
ghost use Rattle.mt_journal.specs.Recovering.{HasReadCause, IfNotAJournal, OnlyRead, RecordsRead, EndsAt};
ghost use Rattle.mt_journal.specs.Standing.{HasHead, HasUpTo, IsWithin, Stands};
ghost use Rattle.mt_outside.specs.Disk.{LeavesContents};

use crate::form::Form;
use crate::position::{Position, SLOT_LENGTH, names_slot_one, slot_start};
use crate::reading::{AtGate, JournalFault, read_at_gate, read_bytes, read_piece};
use mt_outside::Disk;
use mt_tlv::Bytes;
use std::alloc::Global;

/// What ends records.
#[derive(Clone, Copy)]
pub enum RecordsEnd {
    /// The closed gate at this place.
    Closed(u64),
    /// The mark of a move behind the gate at this place.
    Moved(u64),
}

// A gate that is open.
const OPEN: u8 = 0x5a;

// How a file begins, and one of the earlier layout.
const MARK: [u8; 8] = [0x4d, 0x54, 0x4a, 0x52, 0x4e, 0x4c, 0x32, 0x0a];

const LOG_MARK: [u8; 8] = [0x4d, 0x54, 0x4a, 0x52, 0x4e, 0x4c, 0x31, 0x0a];

// What the byte at 6 is in the earlier layout.
const LOG: u8 = 0x31;

/// Reads what a journal's file holds, after a sync: where the next record goes, and the list.
pub fn read_journal<D: Disk, F: Form>(
    alloc: Global,
    disk: &mut D,
) -> Result<(Position, Vec<Bytes>), JournalFault>
    ensures found { (file : List ℕ) → D.contents disk.old ≡ Some file
        → IfOk result (λ journal. (journal_at F.image F.change file ≡ Ok journal.1.items) × Stands F.image F.change journal.0 journal.1.items file) }
    ensures refused { (file : List ℕ) → D.contents disk.old ≡ Some file → IfNotAJournal result (λ at. journal_at F.image F.change file ≡ Err at) }
    ensures safe { (file : List ℕ) → D.contents disk.old ≡ Some file → OnOk result (LeavesContents (Some file) (D.images disk.new)) }
    ensures within { IfOk result (λ journal. IsWithin journal.0) }
    ensures only { OnlyRead D.contents D.images D.moment D.images_since disk.old disk.new }
    ensures cause { HasReadCause (D.faults disk.old) (D.faults disk.new) result }
{
    if disk.sync().is_err() {
        return Err(JournalFault::Disk);
    }
    let Ok(whole) = disk.length() else {
        return Err(JournalFault::Disk);
    };
    if whole < 10 {
        return Ok((Position::Fresh, Vec::new(alloc)));
    }
    let head = read_bytes(alloc, disk, 0, 9)?;
    read_marked::<D, F>(alloc, disk, whole, &head)
}

// Reads a file of at least ten bytes, of which these are the first nine.
fn read_marked<D: Disk, F: Form>(
    alloc: Global,
    disk: &mut D,
    whole: u64,
    head: &[u8],
) -> Result<(Position, Vec<Bytes>), JournalFault>
    requires { whole ≤ 2 ^ 62 }
    ensures found { (file : List ℕ) → D.contents disk.old ≡ Some file → whole ≡ length file → 10 ≤ length file → head.now ≡ take 9 file
        → IfOk result (λ journal. (journal_at F.image F.change file ≡ Ok journal.1.items) × Stands F.image F.change journal.0 journal.1.items file) }
    ensures refused { (file : List ℕ) → D.contents disk.old ≡ Some file → whole ≡ length file → 10 ≤ length file → head.now ≡ take 9 file
        → IfNotAJournal result (λ at. journal_at F.image F.change file ≡ Err at) }
    ensures within { IfOk result (λ journal. IsWithin journal.0) }
    ensures only { OnlyRead D.contents D.images D.moment D.images_since disk.old disk.new }
    ensures cause { HasReadCause (D.faults disk.old) (D.faults disk.new) result }
{
    let (Some(version), Some(begin)) = (head.get(6), head.get(8)) else {
        return Err(JournalFault::NotAJournal(whole));
    };
    if *version == LOG {
        let same = same_front(&LOG_MARK, head);
        if same < 8 {
            return Err(JournalFault::NotAJournal(same));
        }
        return read_log::<D, F>(alloc, disk, whole);
    }
    let same = same_front(&MARK, head);
    if same < 8 {
        return Err(JournalFault::NotAJournal(same));
    }
    if *begin != OPEN {
        return Ok((Position::Begun, Vec::new(alloc)));
    }
    read_slots::<D, F>(alloc, disk, whole, 9)
}

// Reads a log of the earlier layout, and the slots behind it if it was moved.
fn read_log<D: Disk, F: Form>(
    alloc: Global,
    disk: &mut D,
    whole: u64,
) -> Result<(Position, Vec<Bytes>), JournalFault>
    requires { whole ≤ 2 ^ 62 }
    ensures found { (file : List ℕ) → D.contents disk.old ≡ Some file → whole ≡ length file → 10 ≤ length file → take 8 file ≡ log_mark
        → IfOk result (λ journal. (journal_at F.image F.change file ≡ Ok journal.1.items) × Stands F.image F.change journal.0 journal.1.items file) }
    ensures refused { (file : List ℕ) → D.contents disk.old ≡ Some file → whole ≡ length file → 10 ≤ length file → take 8 file ≡ log_mark
        → IfNotAJournal result (λ at. journal_at F.image F.change file ≡ Err at) }
    ensures within { IfOk result (λ journal. IsWithin journal.0) }
    ensures only { OnlyRead D.contents D.images D.moment D.images_since disk.old disk.new }
    ensures cause { HasReadCause (D.faults disk.old) (D.faults disk.new) result }
{
    let mut form = F::start(alloc);
    let none = Vec::new(alloc);
    let (end, changes) = read_records(alloc, disk, &mut form, whole, None, 8, none)?;
    drop(form);
    match end {
        RecordsEnd::Closed(gate) => Ok((Position::Log { gate }, changes)),
        RecordsEnd::Moved(gate) => read_slots::<D, F>(alloc, disk, whole, gate + 5),
    }
}

// Reads the selectors at the base, and the slot that they name.
fn read_slots<D: Disk, F: Form>(
    alloc: Global,
    disk: &mut D,
    whole: u64,
    base: u64,
) -> Result<(Position, Vec<Bytes>), JournalFault>
    requires base { base ≤ 2 ^ 62 + 5 }
    requires whole { whole ≤ 2 ^ 62 }
    ensures found { (file : List ℕ) → D.contents disk.old ≡ Some file → whole ≡ length file → 10 ≤ length file → 9 ≤ base → HasHead F.image F.change base file
        → IfOk result (λ journal. (journal_at F.image F.change file ≡ Ok journal.1.items) × Stands F.image F.change journal.0 journal.1.items file) }
    ensures refused { (file : List ℕ) → D.contents disk.old ≡ Some file → whole ≡ length file
        → IfNotAJournal result (λ at. slots_at F.image F.change base file ≡ Err at) }
    ensures within { IfOk result (λ journal. IsWithin journal.0) }
    ensures only { OnlyRead D.contents D.images D.moment D.images_since disk.old disk.new }
    ensures cause { HasReadCause (D.faults disk.old) (D.faults disk.new) result }
{
    let (p0, p1) = read_selectors(alloc, disk, whole, base)?;
    let start = slot_start(base, names_slot_one(p0, p1));
    let (gate, changes) = read_slot::<D, F>(alloc, disk, whole, start)?;
    Ok((Position::InUse { base, p0, p1, gate }, changes))
}

// Reads the selectors at the base.
fn read_selectors<D: Disk>(
    alloc: Global,
    disk: &mut D,
    whole: u64,
    base: u64,
) -> Result<(u8, u8), JournalFault>
    ensures found { (file : List ℕ) → D.contents disk.old ≡ Some file
        → IfOk result (λ selectors. (base + 2 ≤ length file) × (get_or file base 0 ≡ selectors.0) × (get_or file (base + 1) 0 ≡ selectors.1)) }
    ensures refused { (file : List ℕ) → D.contents disk.old ≡ Some file → IfNotAJournal result (λ at. (at ≡ whole) × (length file < base + 2)) }
    ensures only { OnlyRead D.contents D.images D.moment D.images_since disk.old disk.new }
    ensures cause { HasReadCause (D.faults disk.old) (D.faults disk.new) result }
{
    let bytes = read_bytes(alloc, disk, base, 2)?;
    let [p0, p1, ..] = bytes.as_slice() else {
        return Err(JournalFault::NotAJournal(whole));
    };
    Ok((*p0, *p1))
}

// Reads the slot that begins here: its image and its changes, and where the closed gate behind them is.
fn read_slot<D: Disk, F: Form>(
    alloc: Global,
    disk: &mut D,
    whole: u64,
    start: u64,
) -> Result<(u64, Vec<Bytes>), JournalFault>
    requires start { start ≤ 2 ^ 62 + 2000000 }
    requires whole { whole ≤ 2 ^ 62 }
    ensures found { (file : List ℕ) → D.contents disk.old ≡ Some file → whole ≡ length file
        → IfOk result (λ slot. RecordsRead (slot_at F.image F.change start) F.change (Some (start + slot_length)) start (RecordsEnd.Closed slot.0) slot.1.items file) }
    ensures refused { (file : List ℕ) → D.contents disk.old ≡ Some file → whole ≡ length file
        → IfNotAJournal result (λ at. slot_at F.image F.change start file ≡ Err at) }
    ensures behind { IfOk result (λ slot. start + 4 ≤ slot.0) }
    ensures before { IfOk result (λ slot. slot.0 < start + slot_length) }
    ensures only { OnlyRead D.contents D.images D.moment D.images_since disk.old disk.new }
    ensures cause { HasReadCause (D.faults disk.old) (D.faults disk.new) result }
{
    let limit = Some(start + SLOT_LENGTH);
    let mut form = F::start(alloc);
    let (first, image) = read_image(alloc, disk, &mut form, whole, start)?;
    let (end, list) = read_records(alloc, disk, &mut form, whole, limit, first, image)?;
    drop(form);
    match end {
        RecordsEnd::Closed(gate) => Ok((gate, list)),
        // In a slot there is no mark of a move.
        RecordsEnd::Moved(gate) => Err(JournalFault::NotAJournal(gate + 1)),
    }
}

// Reads the image of the slot that begins here: where its gate is, and the list of the image, which the
// form is told.
fn read_image<D: Disk, F: Form>(
    alloc: Global,
    disk: &mut D,
    form: &mut F,
    whole: u64,
    start: u64,
) -> Result<(u64, Vec<Bytes>), JournalFault>
    requires { start ≤ 2 ^ 62 + 2000000 }
    ensures found { (file : List ℕ) → D.contents disk.old ≡ Some file
        → IfOk result (λ image. HasUpTo (slot_at F.image F.change start) F.change (Some (start + slot_length)) start image.0 image.1.items file) }
    ensures refused { (file : List ℕ) → D.contents disk.old ≡ Some file → whole ≡ length file
        → IfNotAJournal result (λ at. slot_at F.image F.change start file ≡ Err at) }
    ensures told { IfOk result (λ image. F.was_told form.new image.1.items) }
    ensures behind { IfOk result (λ image. start + 4 ≤ image.0) }
    ensures before { IfOk result (λ image. image.0 < start + slot_length) }
    ensures only { OnlyRead D.contents D.images D.moment D.images_since disk.old disk.new }
    ensures cause { HasReadCause (D.faults disk.old) (D.faults disk.new) result }
{
    let image = read_piece(alloc, disk, whole, Some(start + SLOT_LENGTH), start)?;
    let Ok(is_image) = form.is_image(alloc, &image) else {
        return Err(JournalFault::Memory);
    };
    if !is_image {
        return Err(JournalFault::NotAJournal(start + 4));
    }
    let gate = start + 4 + image.len() as u64;
    let mut list = Vec::new(alloc);
    if list.push(Bytes::from_vec(image)).is_err() {
        return Err(JournalFault::Memory);
    }
    Ok((gate, list))
}

// Reads records from a gate on, behind a list that the form was told: what ends them, and the list with
// their changes.
fn read_records<D: Disk, F: Form>(
    alloc: Global,
    disk: &mut D,
    form: &mut F,
    whole: u64,
    limit: Option<u64>,
    first: u64,
    list: Vec<Bytes>,
) -> Result<(RecordsEnd, Vec<Bytes>), JournalFault>
    requires whole { whole ≤ 2 ^ 62 }
    requires before { is_past limit (first + 1) ≡ false }
    requires told { F.was_told form.old list.items }
    ensures found { (file : List ℕ) (reads : List ℕ → Reads Records) (start : ℕ) → D.contents disk.old ≡ Some file → whole ≡ length file → start ≤ first
        → HasUpTo reads F.change limit start first list.items file → IfOk result (λ records. RecordsRead reads F.change limit start records.0 records.1.items file) }
    ensures refused { (file : List ℕ) (reads : List ℕ → Reads Records) (start : ℕ) → D.contents disk.old ≡ Some file → whole ≡ length file → start ≤ first
        → HasUpTo reads F.change limit start first list.items file → IfNotAJournal result (λ at. reads file ≡ Err at) }
    ensures ends { IfOk result (λ records. EndsAt records.0 (λ gate. (first ≤ gate) × (gate < whole) × (is_past limit (gate + 1) ≡ false))) }
    ensures only { OnlyRead D.contents D.images D.moment D.images_since disk.old disk.new }
    ensures cause { HasReadCause (D.faults disk.old) (D.faults disk.new) result }
{
    let mut gate = first;
    let mut list = list;
    'records: loop {
        match read_at_gate(alloc, disk, form, whole, limit, gate)? {
            AtGate::Closed => return Ok((RecordsEnd::Closed(gate), list)),
            AtGate::Moved => return Ok((RecordsEnd::Moved(gate), list)),
            AtGate::Change(change) => {
                gate += 5 + change.as_slice().len() as u64;
                if list.push(change).is_err() {
                    return Err(JournalFault::Memory);
                }
            }
        }
    }
}

// How many bytes of the mark stand in front.
fn same_front(mark: &[u8], bytes: &[u8]) -> u64
    ensures same { result ≡ same_front mark.now bytes.now }
    ensures at_most { result ≤ length mark.now }
{
    let [first, mark @ ..] = mark else {
        return 0;
    };
    let [byte, bytes @ ..] = bytes else {
        return 0;
    };
    if first == byte {
        1 + same_front(mark, bytes)
    } else {
        0
    }
}
