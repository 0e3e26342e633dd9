//! Basic Information: the node's own data.

use crate::meta::{Kind, Meta};
use crate::rows::{
    AttributeRow, EventRow, FirstValue, Form, Origin, PLAIN, Sensitive, Takes, computed, event,
};
use mt_model::Privilege;
use mt_model::limits::{LOCATION_BYTES, NODE_LABEL_BYTES};

/// The number of the cluster.
pub const CLUSTER: u32 = 0x28;

// Attributes.

pub const DATA_MODEL_REVISION: u32 = 0;

pub const VENDOR_NAME: u32 = 1;

pub const VENDOR_ID: u32 = 2;

pub const PRODUCT_NAME: u32 = 3;

pub const PRODUCT_ID: u32 = 4;

pub const NODE_LABEL: u32 = 5;

/// A country's code.
pub const LOCATION: u32 = 6;

pub const HARDWARE_VERSION: u32 = 7;

pub const HARDWARE_VERSION_STRING: u32 = 8;

pub const SOFTWARE_VERSION: u32 = 9;

pub const SOFTWARE_VERSION_STRING: u32 = 10;

/// How many CASE sessions and subscriptions each fabric has at least.
pub const CAPABILITY_MINIMA: u32 = 19;

// Events.

pub const START_UP: u32 = 0;

pub const LEAVE: u32 = 2;

// The rows, ascending.

pub(crate) static ATTRIBUTES: [AttributeRow; 12] = [
    computed!(DATA_MODEL_REVISION, Uint),
    computed!(VENDOR_NAME, Text),
    computed!(VENDOR_ID, Uint),
    computed!(PRODUCT_NAME, Text),
    computed!(PRODUCT_ID, Uint),
    AttributeRow {
        number: NODE_LABEL,
        meta: Meta {
            kind: Kind::Text,
            write: Some(Privilege::Manage),
            kept: true,
            limit: NODE_LABEL_BYTES as u16,
            ..PLAIN
        },
        takes: Takes::Value(Form::Text {
            least: 0,
            most: NODE_LABEL_BYTES as u16,
        }),
        origin: Origin::Stored(FirstValue::EmptyText),
        sensitive: Sensitive::Nothing,
    },
    AttributeRow {
        number: LOCATION,
        meta: Meta {
            kind: Kind::Text,
            write: Some(Privilege::Administer),
            kept: true,
            least: LOCATION_BYTES as u16,
            limit: LOCATION_BYTES as u16,
            ..PLAIN
        },
        takes: Takes::Value(Form::Text {
            least: LOCATION_BYTES as u16,
            most: LOCATION_BYTES as u16,
        }),
        origin: Origin::Stored(FirstValue::Country(b'X', b'X')),
        sensitive: Sensitive::Nothing,
    },
    computed!(HARDWARE_VERSION, Uint),
    computed!(HARDWARE_VERSION_STRING, Text),
    computed!(SOFTWARE_VERSION, Uint),
    computed!(SOFTWARE_VERSION_STRING, Text),
    computed!(CAPABILITY_MINIMA, Structure),
];

pub(crate) static EVENTS: [EventRow; 2] = [event!(START_UP, View, 2), event!(LEAVE, View, 1)];
