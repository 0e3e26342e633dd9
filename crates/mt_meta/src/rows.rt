//! The rows of the table, and where the rows of an attribute's data stand.

use crate::meta::{CommandMeta, EventMeta, Kind, Meta};
use mt_model::Privilege;

/// The value with which a stored attribute begins on a new node.
#[derive(Clone, Copy, Debug, PartialEq, Eq)]
pub enum FirstValue {
    Bool(bool),
    Uint(u64),
    Null,
    EmptyText,
    /// The two letters of a country's code.
    Country(u8, u8),
    EmptyArray,
}

/// Where the data of an attribute stands.
#[derive(Clone, Copy, Debug, PartialEq, Eq)]
pub enum Origin {
    /// It is computed: it follows from other parts of the node's state, or never changes.
    Computed,
    /// It is stored, one row, with this value on a new node.
    Stored(FirstValue),
    /// It is stored, a row for each item of a fabric-scoped list. A new node has none.
    StoredItems,
}

/// Which fields of an item are not shown to other fabrics than its own.
#[derive(Clone, Copy, Debug, PartialEq, Eq)]
pub enum Sensitive {
    Nothing,
    OneField(u8),
    TwoFields(u8, u8),
    /// All but the field that names the fabric.
    AllButFabric,
}

/// The form of a value that is written, or of a field of an item or of a command.
#[derive(Clone, Copy, Debug, PartialEq, Eq)]
pub enum Form {
    Bool,
    /// A number of at most this size.
    Uint { greatest: u64 },
    /// A text of so many bytes.
    Text { least: u16, most: u16 },
    /// So many octets.
    Octets { least: u16, most: u16 },
    /// Null, or an array of numbers of 64 bits: whom an entry names.
    Subjects,
    /// Null, or an array of targets: what an entry reaches.
    Targets,
    /// A number, in whose place the writer's fabric is kept.
    FabricIndex,
    /// Null, or a number of at most this size.
    NullableUint { greatest: u64 },
    /// Null, or so many octets.
    NullableOctets { least: u16, most: u16 },
    /// A structure, of whose fields its command asks itself.
    Structure,
}

/// A field of an item of a list that is written, or of a command.
#[derive(Clone, Copy, Debug, PartialEq, Eq)]
pub struct Field {
    pub number: u8,
    /// Whether it must be there.
    pub needed: bool,
    pub form: Form,
}

/// What an attribute takes when it is written.
#[derive(Clone, Copy, Debug, PartialEq, Eq)]
pub enum Takes {
    /// Nobody may write it.
    Nothing,
    /// A value of this form.
    Value(Form),
    /// Items of a list, structures with the fields of its kind (`fields_of`).
    Items,
}

/// An attribute of a cluster.
#[derive(Clone, Copy, Debug, PartialEq, Eq)]
pub struct AttributeRow {
    pub number: u32,
    pub meta: Meta,
    pub takes: Takes,
    pub origin: Origin,
    pub sensitive: Sensitive,
}

/// A command that a cluster accepts.
#[derive(Clone, Copy, Debug, PartialEq, Eq)]
pub struct CommandRow {
    pub number: u32,
    pub meta: CommandMeta,
}

/// An event of a cluster.
#[derive(Clone, Copy, Debug, PartialEq, Eq)]
pub struct EventRow {
    pub number: u32,
    pub meta: EventMeta,
}

/// The field of an item that names its fabric.
pub(crate) const FABRIC_FIELD: Field = Field {
    number: 254,
    needed: false,
    form: Form::FabricIndex,
};

// Forms of fields of commands whose sizes are their command's own matter.

pub(crate) const ANY_NUMBER: Form = Form::Uint { greatest: u64::MAX };

pub(crate) const ANY_TEXT: Form = Form::Text {
    least: 0,
    most: u16::MAX,
};

pub(crate) const ANY_OCTETS: Form = Form::Octets {
    least: 0,
    most: u16::MAX,
};

/// What most attributes are: everyone may read them and nobody may write them, and they are not kept.
pub(crate) const PLAIN: Meta = Meta {
    kind: Kind::Uint,
    read: Privilege::View,
    write: None,
    scoped: false,
    timed: false,
    kept: false,
    least: 0,
    limit: 0,
};

// A row of an attribute that is computed and that nobody may write: number, kind, and who may read,
// which is View where it is not said.
macro_rules! computed {
    ($number:expr, $kind:ident) => {
        computed!($number, $kind, View)
    };
    ($number:expr, $kind:ident, $read:ident) => {
        $crate::rows::AttributeRow {
            number: $number,
            meta: $crate::meta::Meta {
                kind: $crate::meta::Kind::$kind,
                read: mt_model::Privilege::$read,
                ..$crate::rows::PLAIN
            },
            takes: $crate::rows::Takes::Nothing,
            origin: $crate::rows::Origin::Computed,
            sensitive: $crate::rows::Sensitive::Nothing,
        }
    };
}

// A field: number, whether it must be there, and its form.
macro_rules! field {
    ($number:expr, $needed:literal, $form:expr) => {
        $crate::rows::Field {
            number: $number,
            needed: $needed,
            form: $form,
        }
    };
}

// A row of a command: number, who may invoke it, and whether it is scoped, and timed.
macro_rules! command {
    ($number:expr, $invoke:ident, $scoped:literal, $timed:literal) => {
        $crate::rows::CommandRow {
            number: $number,
            meta: $crate::meta::CommandMeta {
                invoke: mt_model::Privilege::$invoke,
                scoped: $scoped,
                timed: $timed,
            },
        }
    };
}

// A row of an event: number, who may read it, and its priority.
macro_rules! event {
    ($number:expr, $read:ident, $priority:literal) => {
        $crate::rows::EventRow {
            number: $number,
            meta: $crate::meta::EventMeta {
                read: mt_model::Privilege::$read,
                priority: $priority,
            },
        }
    };
}

pub(crate) use command;
pub(crate) use computed;
pub(crate) use event;
pub(crate) use field;
