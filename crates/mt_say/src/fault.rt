//! Why words say nothing, with the place, and what would fit there.

ghost use Rattle.std.specs.Prelude.{◌≡◌};
ghost use Rattle.mt_say.specs.Places.{IsAt};
ghost use Rattle.mt_say.specs.declared.fault.SayFault.TheVariants.{Memory};
ghost use Rattle.mt_say.specs.declared.fault.Misfit.TheVariants as misfits;

use crate::shapes::Shape;
use std::alloc::{AllocError, AllocFailed};

/// What would fit where a word does not.
#[derive(Clone, Copy)]
pub enum Wanted {
    /// One of these words.
    Words(&'static [&'static str]),
    /// The name or the number of a cluster.
    Cluster,
    /// The name or the number of an attribute of this cluster.
    Attribute(u32),
    /// The name or the number of an event of this cluster.
    Event(u32),
    /// The name or the number of a command of this cluster.
    Command(u32),
    /// The name or the number of a field of such a structure.
    Field(Shape),
    /// The name or the number of a privilege.
    Privilege,
    /// The name or the number of a mode.
    Mode,
    /// A subject, or null for no subjects.
    Subject,
    /// What these words tell of.
    Kind(&'static str),
}

/// Why a text says no recording.
#[derive(Clone, Copy)]
pub enum SayFault {
    /// The first place that does not fit: the line and the byte in it, both from 1.
    Wrong {
        line: u64,
        column: u64,
        wanted: Wanted,
    },
    /// The text has too many bytes or lines, or what it says has.
    TooLong,
    /// There was no memory.
    Memory,
}

impl From<AllocError> for SayFault {
    ghost from_gives = { λ _ fault. fault ≡ Memory };

    fn from(_fault: AllocError) -> SayFault {
        SayFault::Memory
    }
}

impl<T: Drop> From<AllocFailed<T>> for SayFault {
    ghost from_gives = { λ _ fault. fault ≡ Memory };

    fn from(_fault: AllocFailed<T>) -> SayFault {
        SayFault::Memory
    }
}

// Why a line says nothing.
#[derive(Clone, Copy)]
pub(crate) enum Misfit {
    /// What stands at this byte of the line, from 1, does not fit.
    At { column: u64, wanted: Wanted },
    /// There was no memory.
    Memory,
}

impl From<AllocError> for Misfit {
    ghost from_gives = { λ _ fault. fault ≡ misfits.Memory };

    fn from(_fault: AllocError) -> Misfit {
        Misfit::Memory
    }
}

impl<T: Drop> From<AllocFailed<T>> for Misfit {
    ghost from_gives = { λ _ fault. fault ≡ misfits.Memory };

    fn from(_fault: AllocFailed<T>) -> Misfit {
        Misfit::Memory
    }
}

impl Misfit {
    /// The fault of the line of this number.
    pub(crate) fn of_line(self, line: u64) -> SayFault
        ensures { IsAt line result }
    {
        match self {
            Misfit::At { column, wanted } => SayFault::Wrong {
                line,
                column,
                wanted,
            },
            Misfit::Memory => SayFault::Memory,
        }
    }
}
