//! User Label.

use crate::meta::{Kind, Meta};
use crate::rows::{AttributeRow, Field, FirstValue, Form, Origin, PLAIN, Sensitive, Takes, field};
use mt_model::Privilege;
use mt_model::limits::{LABEL_TEXT_BYTES, LIST_ITEMS};

/// The number of the cluster.
pub const CLUSTER: u32 = 0x41;

// Attributes.

/// The list.
pub const LABEL_LIST: u32 = 0;

// Fields of an item.

pub const LABEL: u8 = 0;

pub const VALUE: u8 = 1;

// The rows, ascending.

pub(crate) static ATTRIBUTES: [AttributeRow; 1] = [AttributeRow {
    number: LABEL_LIST,
    meta: Meta {
        kind: Kind::Labels,
        write: Some(Privilege::Manage),
        kept: true,
        limit: LIST_ITEMS as u16,
        ..PLAIN
    },
    takes: Takes::Items,
    origin: Origin::Stored(FirstValue::EmptyArray),
    sensitive: Sensitive::Nothing,
}];

pub(crate) static FIELDS: [Field; 2] = [
    field!(
        LABEL,
        true,
        Form::Text {
            least: 0,
            most: LABEL_TEXT_BYTES
        }
    ),
    field!(
        VALUE,
        true,
        Form::Text {
            least: 0,
            most: LABEL_TEXT_BYTES
        }
    ),
];
