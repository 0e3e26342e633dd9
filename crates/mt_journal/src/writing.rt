//! Writes that are safe when they are done.

ghost use Rattle.std.specs.Prelude.{◌≡◌, ◌≤◌, ◌+◌, ◌++◌, [], ◌∷◌, ◌⊎◌, List, ℕ, Some, length, vec_capacity, OnOk};
ghost use Rattle.mt_journal.specs.Standing.{after_calls, length_field};
ghost use Rattle.mt_outside.specs.Disk.{CutShort, LeavesContents, LeavesOnly, overwritten};
ghost use Rattle.mt_outside.specs.Logs.{Logs};
ghost use Rattle.mt_outside.specs.MemoryDisk.DiskEvent.{wrote, synced};
ghost use Rattle.mt_outside.specs.Stream.{HasCause, one_more};

use mt_outside::{Disk, Failed};

// A gate that is not open.
const CLOSED: u8 = 0;

/// Writes bytes at an offset and makes them safe, in two calls of the disk.
pub fn put<D: Disk>(disk: &mut D, at: u64, bytes: &[u8]) -> Result<(), Failed>
    ensures safe { (file : List ℕ) → D.contents disk.old ≡ Some file → LeavesContents (Some file) (D.images disk.old)
        → OnOk result ((D.contents disk.new ≡ Some (overwritten at bytes.now file)) × LeavesContents (Some (overwritten at bytes.now file)) (D.images disk.new)) }
    // A crash at any moment leaves the file after a write that is cut short.
    ensures moments { (file : List ℕ) → D.contents disk.old ≡ Some file → LeavesContents (Some file) (D.images disk.old)
        → LeavesOnly D.moment D.images_since disk.old disk.new (CutShort at (length bytes.now) file) }
    ensures logged { Logs (wrote at bytes.now ∷ synced ∷ []) (D.log disk.old) (D.log disk.new) (D.allowed disk.old) (D.allowed disk.new) result }
    ensures calls { OnOk result (D.calls disk.new ≡ one_more (one_more (D.calls disk.old))) }
    ensures cause { HasCause (D.faults disk.old) (D.faults disk.new) result }
{
    disk.write_at(at, bytes)?;
    disk.sync()
}

/// Writes bytes, and once they are safe one byte more, in four calls of the disk.
pub fn put_both<D: Disk>(
    disk: &mut D,
    at: u64,
    bytes: &[u8],
    last_at: u64,
    last: u8,
) -> Result<(), Failed>
    ensures safe { (file : List ℕ) → D.contents disk.old ≡ Some file → LeavesContents (Some file) (D.images disk.old)
        → OnOk result ((D.contents disk.new ≡ Some (overwritten last_at (last ∷ []) (overwritten at bytes.now file)))
        × LeavesContents (Some (overwritten last_at (last ∷ []) (overwritten at bytes.now file))) (D.images disk.new)) }
    // A crash at any moment leaves the file after the first write is cut short, or the second.
    ensures moments { (file : List ℕ) → D.contents disk.old ≡ Some file → LeavesContents (Some file) (D.images disk.old)
        → LeavesOnly D.moment D.images_since disk.old disk.new (λ image. CutShort at (length bytes.now) file image ⊎ CutShort last_at 1 (overwritten at bytes.now file) image) }
    ensures logged { Logs (wrote at bytes.now ∷ synced ∷ wrote last_at (last ∷ []) ∷ synced ∷ []) (D.log disk.old) (D.log disk.new) (D.allowed disk.old) (D.allowed disk.new) result }
    ensures calls { OnOk result (D.calls disk.new ≡ after_calls 4 (D.calls disk.old)) }
    ensures cause { HasCause (D.faults disk.old) (D.faults disk.new) result }
{
    put(disk, at, bytes)?;
    put(disk, last_at, &[last])
}

/// Lays out what is written of an image or a change: what stands in front of its length, the length, the
/// bytes, and a closed gate.
pub fn lay_out(buffer: &mut Vec<u8>, front: &[u8], bytes: &[u8])
    requires room { length front.now + length bytes.now + 5 ≤ vec_capacity buffer.old }
    requires short { length bytes.now ≤ 65536 }
    ensures laid { buffer.new.items ≡ front.now ++ length_field (length bytes.now) ++ bytes.now ++ 0 ∷ [] }
    ensures capacity { vec_capacity buffer.old ≤ vec_capacity buffer.new }
{
    let count = bytes.len();
    let field = [
        (count % 256) as u8,
        (count / 256 % 256) as u8,
        (count / 65536 % 256) as u8,
        (count / 16777216 % 256) as u8,
    ];
    // There is room for all of it.
    buffer.clear();
    let _ = buffer.extend_from_slice(front);
    let _ = buffer.extend_from_slice(&field);
    let _ = buffer.extend_from_slice(bytes);
    let _ = buffer.push(CLOSED);
}
