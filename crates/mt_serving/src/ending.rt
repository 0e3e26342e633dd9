//! Why serving ends, with the status and the last line of each cause.

ghost use Rattle.std.specs.Prelude.{◌≡◌};
ghost use Rattle.mt_serving.specs.Ending.{Finishes, IsTold, fault_of, fault_of_start};

use mt_endings::{Fault, finish, tell_memory};
use mt_outside::{Sink, write_all};
use mt_starting::StartFault;
use std::alloc::Global;

/// Why serving ends before its end. Each has an exit status and a last line.
#[derive(Clone, Copy, Debug, PartialEq, Eq)]
pub(crate) enum ServeFault {
    /// Memory is wanting.
    Memory,
    /// A call of the disk failed.
    Disk,
    /// The journal is none from this place of its file on.
    NotAJournal(u64),
    /// The intake or an outlet failed.
    Link,
    /// The record has no room for a line more.
    Full,
    /// No boot more can be counted, or there is no room for event numbers.
    Worn,
}

impl ServeFault {
    /// Why no node starts.
    pub(crate) fn of_start(fault: StartFault) -> ServeFault
        ensures { result ≡ fault_of_start fault }
    {
        match fault {
            StartFault::Disk => ServeFault::Disk,
            StartFault::NotAJournal(place) => ServeFault::NotAJournal(place),
            StartFault::Worn => ServeFault::Worn,
            StartFault::Memory => ServeFault::Memory,
        }
    }

    /// Why the threads of a node stopped, by the status with which they did; None where that is 0.
    pub(crate) fn of_status(status: u8) -> Option<ServeFault>
        ensures { result ≡ fault_of status }
    {
        match status {
            0 => None,
            8 => Some(ServeFault::Disk),
            12 => Some(ServeFault::Link),
            13 => Some(ServeFault::Full),
            _ => Some(ServeFault::Memory),
        }
    }
}

/// Writes the last line of serving that a fault ended, and gives its exit status; or 6 where the line can't be written, but for want of
/// memory, whose status is the same then.
pub(crate) fn finish_serving<W: Sink>(alloc: Global, fault: ServeFault, out: &mut W) -> u8
    ensures { Finishes fault result (W.written out.old) (W.written out.new) (W.faults out.old) (W.faults out.new) }
{
    match fault {
        ServeFault::Memory => tell_memory(out),
        ServeFault::Disk => finish(alloc, Fault::DiskFault, out),
        ServeFault::NotAJournal(place) => finish(alloc, Fault::NotAJournal(place), out),
        ServeFault::Link => tell(12, b"fault 12 link\n", out),
        ServeFault::Full => tell(13, b"fault 13 full\n", out),
        ServeFault::Worn => tell(17, b"fault 17 worn\n", out),
    }
}

// Writes a last line, and gives its status, or 6 where it can't be written.
fn tell<W: Sink>(status: u8, line: &[u8], out: &mut W) -> u8
    ensures { IsTold status line.now result (W.written out.old) (W.written out.new) (W.faults out.old) (W.faults out.new) }
{
    match write_all(out, line) {
        Ok(()) => status,
        Err(_) => 6,
    }
}
