//! Bench, a cluster of this project.

use crate::meta::{Kind, Meta};
use crate::rows::{
    AttributeRow, CommandRow, EventRow, FABRIC_FIELD, Field, FirstValue, Form, Origin, PLAIN,
    Sensitive, Takes, command, event, field,
};
use mt_model::Privilege;
use mt_model::limits::{BENCH_NAME_BYTES, BENCH_SECRET_BYTES, LIST_ITEMS};

/// The number of the cluster.
pub const CLUSTER: u32 = 0xfff1_fc00;

// Attributes.

/// A list in which each fabric has items of its own.
pub const ITEMS: u32 = 0;

/// A number.
pub const NUMBER: u32 = 1;

// Fields of an item.

pub const NAME: u8 = 1;

/// Octets.
pub const SECRET: u8 = 2;

// Commands that it accepts.

pub const RING: u32 = 0;

// Events.

pub const RUNG: u32 = 0;

// The rows, ascending.

pub(crate) static ATTRIBUTES: [AttributeRow; 2] = [
    AttributeRow {
        number: ITEMS,
        meta: Meta {
            kind: Kind::Bench,
            write: Some(Privilege::Operate),
            scoped: true,
            kept: true,
            limit: LIST_ITEMS as u16,
            ..PLAIN
        },
        takes: Takes::Items,
        origin: Origin::StoredItems,
        sensitive: Sensitive::OneField(2),
    },
    AttributeRow {
        number: NUMBER,
        meta: Meta {
            kind: Kind::Uint32,
            write: Some(Privilege::Operate),
            timed: true,
            kept: true,
            ..PLAIN
        },
        takes: Takes::Value(Form::Uint {
            greatest: u32::MAX as u64,
        }),
        origin: Origin::Stored(FirstValue::Uint(0)),
        sensitive: Sensitive::Nothing,
    },
];

pub(crate) static FIELDS: [Field; 3] = [
    field!(
        NAME,
        true,
        Form::Text {
            least: 0,
            most: BENCH_NAME_BYTES
        }
    ),
    field!(
        SECRET,
        true,
        Form::Octets {
            least: 0,
            most: BENCH_SECRET_BYTES
        }
    ),
    FABRIC_FIELD,
];

pub(crate) static COMMANDS: [CommandRow; 1] = [command!(RING, Operate, true, true)];

pub(crate) static EVENTS: [EventRow; 1] = [event!(RUNG, View, 1)];
