//! Why a call on the table is refused.

/// Why a call is refused: the first in this order that applies to it.
#[derive(Clone, Copy, Debug, PartialEq, Eq)]
pub enum FabricFault {
    /// No fabric has the index.
    NoIndex = 1,
    /// Another fabric has that identity, which is the public key of its root with its id.
    Conflict = 2,
    /// Another fabric has that label, which is not empty.
    LabelConflict = 3,
    /// There are as many fabrics as the table takes.
    TableFull = 4,
    /// Memory is refused.
    Memory = 5,
}
