//! What is known of an attribute, a command or an event.

use mt_model::Privilege;

/// The form of an attribute's value.
#[derive(Clone, Copy, Debug, PartialEq, Eq)]
pub enum Kind {
    Bool,
    /// A number of at most 64 bits.
    Uint,
    /// A number of at most 32 bits.
    Uint32,
    NullableUint,
    NullableOctets,
    /// Always null.
    Null,
    Text,
    /// A list of numbers.
    Numbers,
    /// A structure of numbers.
    Structure,
    DeviceTypes,
    Binding,
    Acl,
    Networks,
    Nocs,
    Fabrics,
    Roots,
    Labels,
    Bench,
    GroupKeyMap,
    GroupTable,
    /// Group key sets, which are no attribute.
    KeySets,
}

/// What is known of an attribute.
#[derive(Clone, Copy, Debug, PartialEq, Eq)]
pub struct Meta {
    pub kind: Kind,
    /// The privilege to read it.
    pub read: Privilege,
    /// The privilege to write it; None where it is not writable.
    pub write: Option<Privilege>,
    /// Whether it is a list each of whose items belongs to a fabric.
    pub scoped: bool,
    /// Whether it is written in timed interactions alone.
    pub timed: bool,
    /// Whether its value is kept over a restart.
    pub kept: bool,
    /// The least bytes of a text that can be written. 0 for every other attribute.
    pub least: u16,
    /// The most bytes of a text, or items of a list, that can be written; of a scoped list, the most
    /// items of one fabric. 0 for every other attribute.
    pub limit: u16,
}

/// What is known of a command.
#[derive(Clone, Copy, Debug, PartialEq, Eq)]
pub struct CommandMeta {
    /// The privilege to invoke it.
    pub invoke: Privilege,
    /// Whether it acts on the fabric of whoever invokes it.
    pub scoped: bool,
    /// Whether it is invoked in timed interactions alone.
    pub timed: bool,
}

/// What is known of an event.
#[derive(Clone, Copy, Debug, PartialEq, Eq)]
pub struct EventMeta {
    /// The privilege to read it.
    pub read: Privilege,
    /// 1 for information, 2 for what is critical.
    pub priority: u8,
}
