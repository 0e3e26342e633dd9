//! What keeps a text from being a recording.

ghost use Rattle.std.specs.Prelude.{◌≡◌, Some};
ghost use Rattle.mt_model.specs.texts.LineKinds.{kind_name};

use std::alloc::{AllocError, AllocFailed};
use std::fmt;
use thiserror::Error;

/// What is wrong with a line. Of several faults of one line the first of these is told.
#[derive(Clone, Copy, Debug, PartialEq, Eq)]
pub enum LineKind {
    /// The first line is not the head.
    Head,
    /// There is no line of this letter with this number of fields, or a stop has no such fate.
    Form,
    /// A decimal field is no number, or out of its range.
    Number,
    /// A field in hex is no such field, has too many bytes, or names an actor that there cannot be.
    Hex,
    /// The time is below that of an earlier line.
    Time,
}

impl LineKind {
    /// Its word, as it is told.
    pub fn name(self) -> &'static str
        ensures { result.now ≡ kind_name self }
    {
        match self {
            LineKind::Head => "head",
            LineKind::Form => "form",
            LineKind::Number => "number",
            LineKind::Hex => "hex",
            LineKind::Time => "time",
        }
    }
}

impl fmt::Display for LineKind {
    ghost output = { λ kind. Some (kind_name kind) };

    fn fmt<W: fmt::Write>(&self, f: &mut fmt::Formatter<W>) -> fmt::Result {
        f.write_str(self.name())
    }
}

/// Why a text is no recording, or was not read.
#[derive(Clone, Copy, Debug, PartialEq, Eq, Error)]
pub enum LineFault {
    /// The first bad line, counted from 1, and what is wrong with it.
    #[error("line {line} {kind}")]
    Line { line: u64, kind: LineKind },
    /// There are too many bytes in all or in a line, or too many lines.
    #[error("long")]
    TooLong,
    /// There was no memory for the events.
    #[error("memory")]
    Memory,
}

impl From<AllocError> for LineFault {
    ghost use Rattle.mt_model.specs.declared.texts.line_fault.LineFault.TheVariants.{Memory};

    ghost from_gives = { λ _ fault. fault ≡ Memory };

    fn from(_fault: AllocError) -> LineFault {
        LineFault::Memory
    }
}

impl<T: Drop> From<AllocFailed<T>> for LineFault {
    ghost use Rattle.mt_model.specs.declared.texts.line_fault.LineFault.TheVariants.{Memory};

    ghost from_gives = { λ _ fault. fault ≡ Memory };

    fn from(_fault: AllocFailed<T>) -> LineFault {
        LineFault::Memory
    }
}
