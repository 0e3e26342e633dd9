//! On/Off.

use crate::meta::{Kind, Meta};
use crate::rows::{AttributeRow, CommandRow, FirstValue, Origin, PLAIN, Sensitive, Takes, command};

/// The number of the cluster.
pub const CLUSTER: u32 = 0x06;

// Attributes.

/// Whether it is on.
pub const ON_OFF: u32 = 0;

// Commands that it accepts.

pub const OFF: u32 = 0;

pub const ON: u32 = 1;

pub const TOGGLE: u32 = 2;

// The rows, ascending.

pub(crate) static ATTRIBUTES: [AttributeRow; 1] = [AttributeRow {
    number: ON_OFF,
    meta: Meta {
        kind: Kind::Bool,
        kept: true,
        ..PLAIN
    },
    takes: Takes::Nothing,
    origin: Origin::Stored(FirstValue::Bool(false)),
    sensitive: Sensitive::Nothing,
}];

pub(crate) static COMMANDS: [CommandRow; 3] = [
    command!(OFF, Operate, false, false),
    command!(ON, Operate, false, false),
    command!(TOGGLE, Operate, false, false),
];
