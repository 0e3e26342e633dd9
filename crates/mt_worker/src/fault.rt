//! Why a worker or the reporter stopped working.

ghost use Rattle.std.specs.Prelude.{◌≡◌};
ghost use Rattle.mt_worker.specs.Faults.{fault_of, status_in};
ghost use Rattle.mt_worker.specs.declared.fault.WorkFault.TheVariants.{Memory};

use mt_layer::ActFault;
use std::alloc::AllocError;

/// Why a worker or the reporter stopped working. From then on it takes jobs and does nothing, until the end message.
#[derive(Clone, Copy, Debug, PartialEq, Eq)]
pub enum WorkFault {
    /// Memory is wanting.
    Memory,
    /// A commit of the shared node has failed.
    Stopped,
    /// The outlet failed.
    Link,
    /// The record is full.
    Full,
}

impl WorkFault {
    /// The status that says so: 7, 8, 12 and 13, in this order. A worker that met no fault ends with 0.
    pub fn status(self) -> u8
        ensures { result ≡ status_in self }
    {
        match self {
            WorkFault::Memory => 7,
            WorkFault::Stopped => 8,
            WorkFault::Link => 12,
            WorkFault::Full => 13,
        }
    }
}

impl From<AllocError> for WorkFault {
    ghost use Rattle.std.specs.Prelude.{◌≡◌};
    ghost use Rattle.mt_worker.specs.declared.fault.WorkFault.TheVariants.{Memory};

    ghost from_gives = { λ _ fault. fault ≡ Memory };

    fn from(_error: AllocError) -> WorkFault {
        WorkFault::Memory
    }
}

impl From<ActFault> for WorkFault {
    ghost use Rattle.std.specs.Prelude.{◌≡◌};
    ghost use Rattle.mt_worker.specs.Faults.{fault_of};

    ghost from_gives = { λ refused fault. fault ≡ fault_of refused };

    fn from(refused: ActFault) -> WorkFault {
        match refused {
            ActFault::Stopped(_) => WorkFault::Stopped,
            ActFault::RecordFull { .. } => WorkFault::Full,
            ActFault::Memory => WorkFault::Memory,
        }
    }
}
