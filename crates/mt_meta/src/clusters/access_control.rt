//! Access Control. The entries of the list are a part of the state of their own, from which the
//! list is computed.

use crate::meta::{Kind, Meta};
use crate::rows::{
    AttributeRow, EventRow, FABRIC_FIELD, Field, Form, Origin, PLAIN, Sensitive, Takes, computed,
    event, field,
};
use mt_model::Privilege;
use mt_model::limits::ENTRIES;

/// The number of the cluster.
pub const CLUSTER: u32 = 0x1f;

// Attributes.

/// The list.
pub const ACL: u32 = 0;

/// The most subjects of an entry.
pub const SUBJECTS_PER_ACCESS_CONTROL_ENTRY: u32 = 2;

/// The most targets of an entry.
pub const TARGETS_PER_ACCESS_CONTROL_ENTRY: u32 = 3;

/// The most entries of a fabric.
pub const ACCESS_CONTROL_ENTRIES_PER_FABRIC: u32 = 4;

// Fields of an entry.

/// The number of a privilege.
pub const PRIVILEGE: u8 = 1;

/// The number of a mode.
pub const AUTH_MODE: u8 = 2;

pub const SUBJECTS: u8 = 3;

pub const TARGETS: u8 = 4;

// Events.

pub const ACCESS_CONTROL_ENTRY_CHANGED: u32 = 0;

// The rows, ascending.

pub(crate) static ATTRIBUTES: [AttributeRow; 4] = [
    AttributeRow {
        number: ACL,
        meta: Meta {
            kind: Kind::Acl,
            read: Privilege::Administer,
            write: Some(Privilege::Administer),
            scoped: true,
            kept: true,
            limit: ENTRIES as u16,
            ..PLAIN
        },
        takes: Takes::Items,
        origin: Origin::Computed,
        sensitive: Sensitive::AllButFabric,
    },
    computed!(SUBJECTS_PER_ACCESS_CONTROL_ENTRY, Uint),
    computed!(TARGETS_PER_ACCESS_CONTROL_ENTRY, Uint),
    computed!(ACCESS_CONTROL_ENTRIES_PER_FABRIC, Uint),
];

pub(crate) static FIELDS: [Field; 5] = [
    field!(PRIVILEGE, true, Form::Uint { greatest: u64::MAX }),
    field!(AUTH_MODE, true, Form::Uint { greatest: u64::MAX }),
    field!(SUBJECTS, true, Form::Subjects),
    field!(TARGETS, true, Form::Targets),
    FABRIC_FIELD,
];

pub(crate) static EVENTS: [EventRow; 1] = [event!(ACCESS_CONTROL_ENTRY_CHANGED, Administer, 1)];
