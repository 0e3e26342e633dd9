//! Recovering a journal, and writing what it keeps.

ghost use Rattle.std.specs.Prelude.{◌≡◌, ℕ, List, None, Some, IfErr, IfOk};
ghost use Rattle.mt_endings.specs.Endings.{of_none};
ghost use Rattle.mt_endings.specs.Moments.{Input, in_hand, input, moment};
ghost use Rattle.mt_endings.specs.OnDisk.{EndsInHand};
ghost use Rattle.mt_files.specs.Lines.{text_of};
ghost use Rattle.mt_journal.specs.Recovering.{OnlyRead};
ghost use Rattle.mt_model.specs.texts.Contents.{contents_of};
ghost use Rattle.mt_settle.specs.Settled.{StopsSettling, fault_of, settled};

use crate::recovering::recovered_map;
use crate::text::text_of;
use mt_endings::{Fault, endings_on_disk_add_up, finish};
use mt_journal::JournalFault;
use mt_model::Config;
use mt_outside::{Disk, Sink, write_all, writings_add_up};
use std::alloc::Global;

/// Recovers the journal on a disk, and writes a line for each key of the map with which a node goes on that is started with this
/// configuration. The answer is the exit status: 0, 6, 7, or 8 where a call of the disk failed, 9 where the journal is none.
/// The disk is read, and its journal stays as it is.
pub fn settle_with<D: Disk, W: Sink>(
    alloc: Global,
    config: &Config,
    disk: &mut D,
    out: &mut W,
) -> u8
    ensures ends { (first second : Input) → EndsInHand result (λ journal. of_none (settled (contents_of config.now) journal))
        (input (D.contents disk.old) (D.faults disk.old)) (input (D.contents disk.new) (D.faults disk.new))
        (moment in_hand first second (W.written out.old) (W.faults out.old))
        (moment in_hand first second (W.written out.new) (W.faults out.new)) }
    ensures only_read { OnlyRead D.contents D.images D.moment D.images_since disk.old disk.new }
{
    endings_on_disk_add_up();
    writings_add_up();
    let text = match text_on(alloc, config, disk) {
        Ok(text) => text,
        Err(fault) => return finish(alloc, fault, out),
    };
    match write_all(out, &text) {
        Ok(()) => 0,
        Err(_) => finish(alloc, Fault::WriteFault, out),
    }
}

// The lines of what a journal keeps.
fn text_on<D: Disk>(alloc: Global, config: &Config, disk: &mut D) -> Result<Vec<u8>, Fault>
    ensures text { (journal : List ℕ) → D.contents disk.old ≡ Some journal → IfOk result (λ text. text.items ≡ text_of (settled (contents_of config.now) journal).lines) }
    ensures whole { (journal : List ℕ) → D.contents disk.old ≡ Some journal → IfOk result (λ text. (settled (contents_of config.now) journal).fault ≡ None) }
    ensures err { IfErr result (λ fault. StopsSettling fault (contents_of config.now) (D.contents disk.old) (D.faults disk.old) (D.faults disk.new)) }
    ensures calm { IfOk result (λ text. D.faults disk.new ≡ D.faults disk.old) }
    ensures only_read { OnlyRead D.contents D.images D.moment D.images_since disk.old disk.new }
{
    match recovered_map(alloc, config, disk) {
        Ok(map) => match text_of(alloc, &map) {
            Ok(text) => Ok(text),
            Err(_) => Err(Fault::Memory),
        },
        Err(fault) => Err(fault_of(fault)),
    }
}

// What keeps a journal from being recovered, as the fault of a run.
fn fault_of(fault: JournalFault) -> Fault
    ensures { result ≡ fault_of fault }
{
    match fault {
        JournalFault::Disk => Fault::DiskFault,
        JournalFault::NotAJournal(place) => Fault::NotAJournal(place),
        JournalFault::Memory => Fault::Memory,
    }
}
