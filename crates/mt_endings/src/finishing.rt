//! The last line of a run that a fault ended.

ghost use Rattle.std.specs.Prelude.{◌≡◌, false};
ghost use Rattle.mt_endings.specs.Faults.{fault_line};
ghost use Rattle.mt_endings.specs.Parts.{Finishes, IsTold, TellsThere, is_memory, is_write_fault};
ghost use Rattle.mt_endings.specs.declared.fault.Fault.TheVariants.{BadWords};

use crate::fault::Fault;
use mt_outside::{Sink, write_all};
use std::alloc::Global;

/// Writes the last line of a run that a fault ended, and gives its exit status. That a source or the disk failed, or that there
/// was no memory, is told without memory; where the output could not be written nothing more is, and where two recordings differ
/// nothing is left to write.
pub fn finish<W: Sink>(alloc: Global, fault: Fault, out: &mut W) -> u8
    ensures { Finishes fault result (W.written out.old) (W.written out.new) (W.faults out.old) (W.faults out.new) }
{
    match fault {
        Fault::WriteFault => 6,
        Fault::Differ => 11,
        Fault::ReadFault => tell(fault, b"fault 5 read\n", out),
        Fault::DiskFault => tell(fault, b"fault 8 disk\n", out),
        Fault::Memory => tell_memory(out),
        _ => match fault.line(alloc) {
            Ok(line) => tell(fault, line.as_bytes(), out),
            Err(_) => tell_memory(out),
        },
    }
}

/// Writes that the words have no form, without memory, and gives the exit status.
pub fn tell_bad_words<W: Sink>(out: &mut W) -> u8
    ensures { IsTold BadWords result (W.written out.old) (W.written out.new) (W.faults out.old) (W.faults out.new) }
{
    tell(Fault::BadWords, b"fault 2 words\n", out)
}

/// Writes that there was no memory, as far as that goes. The exit status is the same where it can't be written.
pub fn tell_memory<W: Sink>(out: &mut W) -> u8
    ensures status { result ≡ 7 }
    ensures tells { TellsThere (W.written out.old) (W.written out.new) (W.faults out.old) (W.faults out.new) }
{
    match write_all(out, b"fault 7 memory\n") {
        Ok(()) => 7,
        Err(_) => 7,
    }
}

// Writes a last line, and gives its status, or 6 where it can't be written.
fn tell<W: Sink>(fault: Fault, line: &[u8], out: &mut W) -> u8
    requires line { line.now ≡ fault_line fault }
    requires other { is_memory fault ≡ false }
    ensures told { IsTold fault result (W.written out.old) (W.written out.new) (W.faults out.old) (W.faults out.new) }
{
    match write_all(out, line) {
        Ok(()) => fault.status(),
        Err(_) => 6,
    }
}
