//! Why a run ended before its end, with the exit status and the last line of each cause.

ghost use Rattle.std.specs.Prelude.{◌≡◌, IfOk, Some, string_bytes};
ghost use Rattle.mt_endings.specs.Faults.{fault_line, fault_of, fault_text, status_of};

use mt_files::ConfigField;
use mt_model::{LineFault, LineKind};
use std::alloc::{AllocError, Global};
use std::fmt;

/// Each has an exit status and a last line.
#[derive(Clone, Copy, Debug, PartialEq, Eq)]
pub enum Fault {
    /// The words have no form.
    BadWords,
    /// The configuration is none, and this is the first that is not as it should be.
    BadConfig(ConfigField),
    /// The recording, the script or the output is none, and this is its first bad line.
    BadRecord { line: u64, kind: LineKind },
    /// The configuration, or a text that is read behind it, could not be read.
    ReadFault,
    /// The output could not be written.
    WriteFault,
    /// There was no memory.
    Memory,
    /// A call of the disk failed.
    DiskFault,
    /// The journal is none from this place of its file on.
    NotAJournal(u64),
    /// The recording, the script or the output is too long.
    TooLong,
    /// Two recordings differ by what a fabric sees of them. Its lines are written before, and it has no last line.
    Differ,
    /// No session of boot 1 has the id that is asked for.
    NoSession,
    /// No message counter is left for what this line of a script says.
    Exhausted { line: u64 },
}

impl Fault {
    /// What a text comes to that is no recording, no script or no output, or was not read.
    pub fn of_recording(fault: LineFault) -> Fault
        ensures { result ≡ fault_of fault }
    {
        match fault {
            LineFault::Line { line, kind } => Fault::BadRecord { line, kind },
            LineFault::TooLong => Fault::TooLong,
            LineFault::Memory => Fault::Memory,
        }
    }

    /// The exit status.
    pub fn status(self) -> u8
        ensures { result ≡ status_of self }
    {
        match self {
            Fault::BadWords => 2,
            Fault::BadConfig(_) => 3,
            Fault::BadRecord { .. } => 4,
            Fault::ReadFault => 5,
            Fault::WriteFault => 6,
            Fault::Memory => 7,
            Fault::DiskFault => 8,
            Fault::NotAJournal(_) => 9,
            Fault::TooLong => 10,
            Fault::Differ => 11,
            Fault::NoSession => 15,
            Fault::Exhausted { .. } => 16,
        }
    }

    /// The last line that tells it, with its end; that two recordings differ has none.
    #[tactic(auto, unfolding(crate::specs::Faults::fault_line))]
    pub fn line(self, alloc: Global) -> Result<String, AllocError>
        ensures { IfOk result (λ line. string_bytes line ≡ fault_line self) }
    {
        match self {
            Fault::Differ => Ok(String::new(alloc)),
            _ => format!(in alloc; "{self}\n"),
        }
    }
}

impl fmt::Display for Fault {
    ghost output = { λ fault. Some (fault_text fault) };

    #[tactic(auto, unfolding(crate::specs::Faults::fault_text))]
    fn fmt<W: fmt::Write>(&self, f: &mut fmt::Formatter<W>) -> fmt::Result {
        match self {
            Fault::BadWords => f.write_str("fault 2 words"),
            Fault::BadConfig(field) => write!(f, "fault 3 config {field}"),
            Fault::BadRecord { line, kind } => write!(f, "fault 4 line {line} {kind}"),
            Fault::ReadFault => f.write_str("fault 5 read"),
            Fault::WriteFault => f.write_str("fault 6 write"),
            Fault::Memory => f.write_str("fault 7 memory"),
            Fault::DiskFault => f.write_str("fault 8 disk"),
            Fault::NotAJournal(place) => write!(f, "fault 9 journal {place}"),
            Fault::TooLong => f.write_str("fault 10 long"),
            // its lines stand before
            Fault::Differ => Ok(()),
            Fault::NoSession => f.write_str("fault 15 session"),
            Fault::Exhausted { line } => write!(f, "fault 16 line {line}"),
        }
    }
}
