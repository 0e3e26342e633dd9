//! Disks: what the program asks of a file that outlives it.

ghost use Rattle.std.specs.Prelude.{◌≡◌, ◌≤◌, ◌+◌, ◌^◌, ℕ, List, [], ◌∷◌, Option, Some, length, IfOk, IfSome, OnErr, OnOk};
ghost use Rattle.mt_outside.specs.Disk.{CutShort, Elapses, Follows, LeavesContents, NoneNew, ReadAt, WroteAt, WrotePart};
ghost use Rattle.mt_outside.specs.Logs.{DiskLog, Logs, LogsNothing, held_of};
ghost use Rattle.mt_outside.specs.MemoryDisk.{Leaves};
ghost use Rattle.mt_outside.specs.MemoryDisk.DiskEvent.{wrote, synced};
ghost use Rattle.mt_outside.specs.Stream.{HasCause, one_more};
ghost use Rattle.mt_outside.specs.declared.stop.Stop.{Stop};

use crate::stream::Failed;

/// A file of at most 2^62 bytes that may be read and written anywhere, and that the loss of power may
/// catch at any moment. What was written is safe once a `sync` after it has succeeded.
pub trait Disk {
    /// The bytes that a read gives, where the disk can tell.
    ghost contents: { Self → Option (List ℕ) };

    /// What a crash at this moment may leave. A disk that cannot tell says so of every list.
    ghost images: { Self → List ℕ → Type 0 };

    /// The moment, as a number that never falls while the disk is used.
    ghost moment: { Self → ℕ };

    /// What a crash at that moment or a later one, during a call or between two, might have left.
    ghost images_since: { Self → ℕ → List ℕ → Type 0 };

    /// How many calls have failed. Each that fails raises the count by one, up to 2^64 - 1, where it
    /// stays; no other call changes it.
    ghost faults: { Self → ℕ };

    /// How many calls were made, of the four kinds together, up to 2^64 - 1, where the count stays.
    ghost calls: { Self → ℕ };

    /// What was written and synced, in order, and what the disk held before that, where it can tell. A
    /// write at which it stops is among them.
    ghost log: { Self → Option DiskLog };

    /// After how many writes and syncs it stops, and what becomes of it then, where it can tell.
    ghost allowed: { Self → Option Stop };

    /// How many bytes there are.
    fn length(&mut self) -> Result<u64, Failed>
        ensures within { IfOk result (λ count. count ≤ 2 ^ 62) }
        ensures told { IfOk result (λ count. IfSome (contents self.old) (λ bytes. count ≡ length bytes)) }
        ensures kept { contents self.new ≡ contents self.old }
        ensures crash { NoneNew (images self.old) (images self.new) }
        ensures time { Elapses (moment self.old) (moment self.new) (images_since self.old) (images_since self.new) (images self.new) }
        ensures counted { calls self.new ≡ one_more (calls self.old) }
        ensures logged { LogsNothing (log self.old) (log self.new) (allowed self.old) (allowed self.new) }
        ensures cause { HasCause (faults self.old) (faults self.new) result };

    /// Reads what stands at an offset to the front of `into`, as much as fits and is there, and answers
    /// how many bytes that is.
    fn read_at(&mut self, at: u64, into: &mut [u8]) -> Result<usize, Failed>
        ensures within { IfOk result (λ count. count ≤ length into.old) }
        ensures gave { IfOk result (λ count. ReadAt (contents self.old) at into.old into.new count) }
        ensures kept { contents self.new ≡ contents self.old }
        ensures crash { NoneNew (images self.old) (images self.new) }
        ensures time { Elapses (moment self.old) (moment self.new) (images_since self.old) (images_since self.new) (images self.new) }
        ensures counted { calls self.new ≡ one_more (calls self.old) }
        ensures logged { LogsNothing (log self.old) (log self.new) (allowed self.old) (allowed self.new) }
        ensures cause { HasCause (faults self.old) (faults self.new) result };

    /// Writes over what stands at an offset, and past the end. A gap behind the old end is filled with 0.
    /// Until a sync succeeds, a crash may leave any bytes in the range and past the old end.
    fn write_at(&mut self, at: u64, from: &[u8]) -> Result<(), Failed>
        ensures within { OnOk result (at + length from.now ≤ 2 ^ 62) }
        ensures wrote { OnOk result (WroteAt (contents self.old) at from.now (contents self.new)) }
        ensures part { OnErr result (WrotePart (contents self.old) at (length from.now) (contents self.new)) }
        ensures crash { Follows (CutShort at (length from.now)) (images self.old) (images self.new) }
        ensures time { Elapses (moment self.old) (moment self.new) (images_since self.old) (images_since self.new) (images self.new) }
        ensures counted { calls self.new ≡ one_more (calls self.old) }
        ensures logged { Logs (wrote at from.now ∷ []) (log self.old) (log self.new) (allowed self.old) (allowed self.new) result }
        ensures cause { HasCause (faults self.old) (faults self.new) result };

    /// Makes what was written safe: after it a crash leaves what a read gives.
    fn sync(&mut self) -> Result<(), Failed>
        ensures safe { OnOk result (LeavesContents (contents self.new) (images self.new)) }
        ensures kept { contents self.new ≡ contents self.old }
        ensures crash { NoneNew (images self.old) (images self.new) }
        ensures time { Elapses (moment self.old) (moment self.new) (images_since self.old) (images_since self.new) (images self.new) }
        ensures counted { calls self.new ≡ one_more (calls self.old) }
        ensures logged { Logs (synced ∷ []) (log self.old) (log self.new) (allowed self.old) (allowed self.new) result }
        ensures cause { HasCause (faults self.old) (faults self.new) result };

    /// How many calls have failed, up to 2^64 - 1.
    fn faults(&self) -> u64
        ensures { result ≡ faults self.now };

    /// This moment is one of those since an earlier one.
    ghost counts_now: { (disk : Self) (from : ℕ) (image : List ℕ) → from ≤ moment disk → images disk image → images_since disk from image };

    /// Since this moment there was no other.
    ghost only_now: { (disk : Self) (image : List ℕ) → images_since disk (moment disk) image → images disk image };

    /// What a crash may leave by its log, a crash may leave.
    ghost leaves: { (disk : Self) (was : DiskLog) (image : List ℕ) → log disk ≡ Some was → Leaves (held_of was) image → images disk image };
}

/// A disk may be lent: what is done to the loan is done to the disk.
impl<D: Disk> Disk for &mut D {
    ghost contents = { λ disk. D.contents disk.now };

    ghost images = { λ disk. D.images disk.now };

    ghost moment = { λ disk. D.moment disk.now };

    ghost images_since = { λ disk. D.images_since disk.now };

    ghost faults = { λ disk. D.faults disk.now };

    ghost calls = { λ disk. D.calls disk.now };

    ghost log = { λ disk. D.log disk.now };

    ghost allowed = { λ disk. D.allowed disk.now };

    ghost counts_now = { λ disk. D.counts_now disk.now };

    ghost only_now = { λ disk. D.only_now disk.now };

    ghost leaves = { λ disk. D.leaves disk.now };

    fn length(&mut self) -> Result<u64, Failed> {
        (**self).length()
    }

    fn read_at(&mut self, at: u64, into: &mut [u8]) -> Result<usize, Failed> {
        (**self).read_at(at, into)
    }

    fn write_at(&mut self, at: u64, from: &[u8]) -> Result<(), Failed> {
        (**self).write_at(at, from)
    }

    fn sync(&mut self) -> Result<(), Failed> {
        (**self).sync()
    }

    fn faults(&self) -> u64 {
        (**self).faults()
    }
}
