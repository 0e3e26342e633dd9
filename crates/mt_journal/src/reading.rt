//! The pieces of a journal's file: gates, lengths, images and changes.

ghost use Rattle.std.specs.Prelude.{◌≡◌, ◌≤◌, ◌<◌, ◌+◌, ◌++◌, ◌^◌, [], ◌∷◌, Bool, List, ℕ, Option, Some, Ok, Err, length, take, drop, get_or, false, IfOk, IfSome, OnOk};
ghost use Rattle.mt_journal.specs.Layout.{is_open, is_past, length_of, marks_move, piece_at, records_at};
ghost use Rattle.mt_journal.specs.Recovering.{GateRead, HasReadCause, IfNotAJournal, IsChange, LaysOut, OnlyRead};
ghost use Rattle.mt_journal.specs.Standing.{Stands};
ghost use Rattle.mt_outside.specs.Disk.{LeavesContents};
ghost use Rattle.mt_outside.specs.Stream.{RoseByOne};

use crate::form::Form;
use mt_outside::Disk;
use mt_tlv::Bytes;
use std::alloc::Global;

/// Why a journal was not recovered.
#[derive(Clone, Copy, Debug, PartialEq, Eq)]
pub enum JournalFault {
    /// The disk failed.
    Disk,
    /// The file is no journal, from the byte at this place on.
    NotAJournal(u64),
    /// No memory was left for what it holds.
    Memory,
}

/// What stands at a gate.
#[derive(Drop)]
pub enum AtGate {
    /// It is closed.
    Closed,
    /// Behind it stands the mark of a move.
    Moved,
    /// Behind it stands a change.
    Change(Bytes),
}

// A gate that is open.
const OPEN: u8 = 0x5a;

// The length that is the mark of a move.
const MOVED: u64 = 0xffff_ffff;

// How long an image or a change is at most.
const LONGEST: u64 = 65_536;

/// Reads so many bytes from an offset on, or those that there are.
pub fn read_bytes<D: Disk>(
    alloc: Global,
    disk: &mut D,
    at: u64,
    count: usize,
) -> Result<Vec<u8>, JournalFault>
    ensures read { (file : List ℕ) → D.contents disk.old ≡ Some file → IfOk result (λ bytes. bytes.items ≡ take count (drop at file)) }
    ensures told { IfNotAJournal result (λ _. ⊥) }
    ensures only { OnlyRead D.contents D.images D.moment D.images_since disk.old disk.new }
    ensures cause { HasReadCause (D.faults disk.old) (D.faults disk.new) result }
{
    let mut bytes = Vec::new(alloc);
    if bytes.resize(count, 0).is_err() {
        return Err(JournalFault::Memory);
    }
    let Ok(got) = disk.read_at(at, &mut bytes) else {
        return Err(JournalFault::Disk);
    };
    bytes.truncate(got);
    Ok(bytes)
}

// Whether a place lies past the limit.
fn is_past(limit: Option<u64>, place: u64) -> bool
    ensures { result ≡ is_past limit place }
{
    match limit {
        Some(end) => end < place,
        None => false,
    }
}

// Whether this length is the mark of a move.
fn marks_move(limit: Option<u64>, count: u64) -> bool
    ensures { result ≡ marks_move limit count }
{
    match limit {
        Some(_) => false,
        None => count == MOVED,
    }
}

// Reads the length at this place, in a file of this length.
fn read_length<D: Disk>(
    alloc: Global,
    disk: &mut D,
    whole: u64,
    place: u64,
) -> Result<u64, JournalFault>
    ensures found { (file : List ℕ) → D.contents disk.old ≡ Some file → IfOk result (λ count. (4 ≤ length (drop place file)) × (count ≡ length_of (take 4 (drop place file)))) }
    ensures refused { (file : List ℕ) → D.contents disk.old ≡ Some file → IfNotAJournal result (λ at. (at ≡ whole) × (length (drop place file) < 4)) }
    ensures only { OnlyRead D.contents D.images D.moment D.images_since disk.old disk.new }
    ensures cause { HasReadCause (D.faults disk.old) (D.faults disk.new) result }
{
    let field = read_bytes(alloc, disk, place, 4)?;
    let [first, second, third, fourth] = field.as_slice() else {
        return Err(JournalFault::NotAJournal(whole));
    };
    Ok(*first as u64 + 256 * *second as u64 + 65_536 * *third as u64 + 16_777_216 * *fourth as u64)
}

// Reads the image or the change behind this length, which stands at this place.
fn read_content<D: Disk>(
    alloc: Global,
    disk: &mut D,
    whole: u64,
    limit: Option<u64>,
    place: u64,
    count: u64,
) -> Result<Vec<u8>, JournalFault>
    requires { place ≤ 2 ^ 62 + 3000000 }
    ensures found { (file : List ℕ) → D.contents disk.old ≡ Some file → 4 ≤ length (drop place file) → count ≡ length_of (take 4 (drop place file))
        → IfOk result (λ bytes. LaysOut limit place (drop place file) bytes.items) }
    ensures refused { (file : List ℕ) (is_piece : List ℕ → Bool) → D.contents disk.old ≡ Some file → whole ≡ length file → 4 ≤ length (drop place file) → count ≡ length_of (take 4 (drop place file))
        → IfNotAJournal result (λ at. piece_at is_piece whole limit place (drop place file) ≡ Err at) }
    ensures short { IfOk result (λ bytes. length bytes.items ≤ 65536) }
    ensures within { IfOk result (λ bytes. is_past limit (place + 5 + length bytes.items) ≡ false) }
    ensures only { OnlyRead D.contents D.images D.moment D.images_since disk.old disk.new }
    ensures cause { HasReadCause (D.faults disk.old) (D.faults disk.new) result }
{
    if count > LONGEST || is_past(limit, place + 5 + count) {
        return Err(JournalFault::NotAJournal(place));
    }
    let bytes = read_bytes(alloc, disk, place + 4, count as usize)?;
    if bytes.len() as u64 != count {
        return Err(JournalFault::NotAJournal(whole));
    }
    Ok(bytes)
}

/// Reads an image or a change that stands behind its length at this place, in a file of this length.
pub fn read_piece<D: Disk>(
    alloc: Global,
    disk: &mut D,
    whole: u64,
    limit: Option<u64>,
    place: u64,
) -> Result<Vec<u8>, JournalFault>
    requires { place ≤ 2 ^ 62 + 3000000 }
    ensures found { (file : List ℕ) → D.contents disk.old ≡ Some file
        → IfOk result (λ bytes. LaysOut limit place (drop place file) bytes.items) }
    ensures refused { (file : List ℕ) (is_piece : List ℕ → Bool) → D.contents disk.old ≡ Some file → whole ≡ length file
        → IfNotAJournal result (λ at. piece_at is_piece whole limit place (drop place file) ≡ Err at) }
    ensures short { IfOk result (λ bytes. length bytes.items ≤ 65536) }
    ensures within { IfOk result (λ bytes. is_past limit (place + 5 + length bytes.items) ≡ false) }
    ensures only { OnlyRead D.contents D.images D.moment D.images_since disk.old disk.new }
    ensures cause { HasReadCause (D.faults disk.old) (D.faults disk.new) result }
{
    let count = read_length(alloc, disk, whole, place)?;
    read_content(alloc, disk, whole, limit, place, count)
}

// Whether the gate at this place is open.
fn read_gate<D: Disk>(
    alloc: Global,
    disk: &mut D,
    whole: u64,
    gate: u64,
) -> Result<bool, JournalFault>
    ensures read { (file : List ℕ) → D.contents disk.old ≡ Some file → whole ≡ length file
        → IfOk result (λ opens. opens ≡ is_open (get_or file gate 0)) }
    ensures refused { (file : List ℕ) → D.contents disk.old ≡ Some file → whole ≡ length file
        → IfNotAJournal result (λ at. (at ≡ length file) × (length file ≤ gate)) }
    ensures there { IfOk result (λ _. gate < whole) }
    ensures only { OnlyRead D.contents D.images D.moment D.images_since disk.old disk.new }
    ensures cause { HasReadCause (D.faults disk.old) (D.faults disk.new) result }
{
    if gate >= whole {
        return Err(JournalFault::NotAJournal(whole));
    }
    let bytes = read_bytes(alloc, disk, gate, 1)?;
    match bytes.as_slice() {
        [byte, ..] => Ok(*byte == OPEN),
        [] => Err(JournalFault::NotAJournal(whole)),
    }
}

/// Reads what stands at a gate, behind what the form was told. It is told the change.
pub fn read_at_gate<D: Disk, F: Form>(
    alloc: Global,
    disk: &mut D,
    form: &mut F,
    whole: u64,
    limit: Option<u64>,
    gate: u64,
) -> Result<AtGate, JournalFault>
    requires { whole ≤ 2 ^ 62 }
    ensures found { (file : List ℕ) (list : List (List ℕ)) → D.contents disk.old ≡ Some file → whole ≡ length file → F.was_told form.old list
        → IfOk result (λ at. GateRead F.change list limit gate at file) }
    ensures refused { (file : List ℕ) (list : List (List ℕ)) → D.contents disk.old ≡ Some file → whole ≡ length file → F.was_told form.old list
        → IfNotAJournal result (λ at. records_at F.change whole limit list 0 gate (drop gate file) ≡ Err at) }
    ensures told { (list : List (List ℕ)) → F.was_told form.old list → IfOk result (λ at. IsChange at (λ bytes. F.was_told form.new (list ++ bytes ∷ []))) }
    ensures there { IfOk result (λ _. gate < whole) }
    ensures short { IfOk result (λ at. IsChange at (λ bytes. length bytes ≤ 65536)) }
    ensures within { IfOk result (λ at. IsChange at (λ bytes. is_past limit (gate + 6 + length bytes) ≡ false)) }
    ensures only { OnlyRead D.contents D.images D.moment D.images_since disk.old disk.new }
    ensures cause { HasReadCause (D.faults disk.old) (D.faults disk.new) result }
{
    if !read_gate(alloc, disk, whole, gate)? {
        return Ok(AtGate::Closed);
    }
    let count = read_length(alloc, disk, whole, gate + 1)?;
    if marks_move(limit, count) {
        return Ok(AtGate::Moved);
    }
    let change = read_content(alloc, disk, whole, limit, gate + 1, count)?;
    let Ok(is_change) = form.is_change(alloc, &change) else {
        return Err(JournalFault::Memory);
    };
    if !is_change {
        return Err(JournalFault::NotAJournal(gate + 5));
    }
    Ok(AtGate::Change(Bytes::from_vec(change)))
}
