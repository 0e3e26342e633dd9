//! Binding.

use crate::meta::{Kind, Meta};
use crate::rows::{
    AttributeRow, FABRIC_FIELD, Field, Form, Origin, PLAIN, Sensitive, Takes, field,
};
use mt_model::Privilege;
use mt_model::limits::LIST_ITEMS;

/// The number of the cluster.
pub const CLUSTER: u32 = 0x1e;

// Attributes.

/// The list.
pub const BINDING: u32 = 0;

// Fields of an item.

/// A node.
pub const NODE: u8 = 1;

/// An endpoint.
pub const ENDPOINT: u8 = 3;

/// A cluster.
pub const TARGET_CLUSTER: u8 = 4;

// The rows, ascending.

pub(crate) static ATTRIBUTES: [AttributeRow; 1] = [AttributeRow {
    number: BINDING,
    meta: Meta {
        kind: Kind::Binding,
        write: Some(Privilege::Manage),
        scoped: true,
        kept: true,
        limit: LIST_ITEMS as u16,
        ..PLAIN
    },
    takes: Takes::Items,
    origin: Origin::StoredItems,
    sensitive: Sensitive::Nothing,
}];

pub(crate) static FIELDS: [Field; 4] = [
    field!(NODE, false, Form::Uint { greatest: u64::MAX }),
    field!(
        ENDPOINT,
        false,
        Form::Uint {
            greatest: u16::MAX as u64
        }
    ),
    field!(
        TARGET_CLUSTER,
        false,
        Form::Uint {
            greatest: u32::MAX as u64
        }
    ),
    FABRIC_FIELD,
];
