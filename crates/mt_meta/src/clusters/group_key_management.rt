//! Group Key Management.

ghost use Rattle.std.specs.Prelude.{◌≡◌};
ghost use Rattle.mt_meta.specs.clusters.GroupKeyManagement.{command_fields};

use crate::meta::{Kind, Meta};
use crate::rows::{
    ANY_NUMBER, AttributeRow, CommandRow, FABRIC_FIELD, Field, Form, Origin, PLAIN, Sensitive,
    Takes, command, computed, field,
};
use mt_model::Privilege;
use mt_model::limits::{EPOCH_KEY_BYTES, KEY_MAP_ITEMS, KEY_SETS as MOST_KEY_SETS};

/// The number of the cluster.
pub const CLUSTER: u32 = 0x3f;

// Attributes.

/// Which key set each group has.
pub const GROUP_KEY_MAP: u32 = 0;

/// The groups of each endpoint.
pub const GROUP_TABLE: u32 = 1;

pub const MAX_GROUPS_PER_FABRIC: u32 = 2;

pub const MAX_GROUP_KEYS_PER_FABRIC: u32 = 3;

// What is no attribute.

/// The key sets, which no path names.
pub const KEY_SETS: u32 = 0xfff1_0000;

// Fields of an item of the map.

/// A group.
pub const GROUP_ID: u8 = 1;

/// Its key set.
pub const GROUP_KEY_SET_ID: u8 = 2;

// Fields of a key set. Each of its keys is followed by the time from which it is used.

pub const KEY_SET_ID: u8 = 0;

pub const SECURITY_POLICY: u8 = 1;

pub const EPOCH_KEYS: [u8; 3] = [2, 4, 6];

pub const EPOCH_START_TIMES: [u8; 3] = [3, 5, 7];

// Commands that it accepts.

pub const KEY_SET_WRITE: u32 = 0;

pub const KEY_SET_READ: u32 = 1;

pub const KEY_SET_REMOVE: u32 = 3;

pub const KEY_SET_READ_ALL_INDICES: u32 = 4;

// Commands with which it answers.

pub const KEY_SET_READ_RESPONSE: u32 = 2;

pub const KEY_SET_READ_ALL_INDICES_RESPONSE: u32 = 5;

// The rows, ascending.

pub(crate) static ATTRIBUTES: [AttributeRow; 4] = [
    AttributeRow {
        number: GROUP_KEY_MAP,
        meta: Meta {
            kind: Kind::GroupKeyMap,
            write: Some(Privilege::Manage),
            scoped: true,
            kept: true,
            limit: KEY_MAP_ITEMS as u16,
            ..PLAIN
        },
        takes: Takes::Items,
        origin: Origin::StoredItems,
        sensitive: Sensitive::Nothing,
    },
    AttributeRow {
        number: GROUP_TABLE,
        meta: Meta {
            kind: Kind::GroupTable,
            scoped: true,
            ..PLAIN
        },
        takes: Takes::Nothing,
        origin: Origin::Computed,
        sensitive: Sensitive::Nothing,
    },
    computed!(MAX_GROUPS_PER_FABRIC, Uint),
    computed!(MAX_GROUP_KEYS_PER_FABRIC, Uint),
];

/// What is no attribute: the key sets.
pub(crate) static HIDDEN: [AttributeRow; 1] = [AttributeRow {
    number: KEY_SETS,
    meta: Meta {
        kind: Kind::KeySets,
        scoped: true,
        kept: true,
        limit: MOST_KEY_SETS as u16,
        ..PLAIN
    },
    takes: Takes::Nothing,
    origin: Origin::StoredItems,
    sensitive: Sensitive::AllButFabric,
}];

pub(crate) static MAP_FIELDS: [Field; 3] = [
    field!(
        GROUP_ID,
        true,
        Form::Uint {
            greatest: u16::MAX as u64
        }
    ),
    field!(
        GROUP_KEY_SET_ID,
        true,
        Form::Uint {
            greatest: u16::MAX as u64
        }
    ),
    FABRIC_FIELD,
];

const KEY: Form = Form::NullableOctets {
    least: EPOCH_KEY_BYTES as u16,
    most: EPOCH_KEY_BYTES as u16,
};

const START: Form = Form::NullableUint { greatest: u64::MAX };

pub(crate) static SET_FIELDS: [Field; 9] = [
    field!(
        KEY_SET_ID,
        true,
        Form::Uint {
            greatest: u16::MAX as u64
        }
    ),
    field!(SECURITY_POLICY, true, ANY_NUMBER),
    field!(2, true, KEY),
    field!(3, true, START),
    field!(4, true, KEY),
    field!(5, true, START),
    field!(6, true, KEY),
    field!(7, true, START),
    FABRIC_FIELD,
];

pub(crate) static COMMANDS: [CommandRow; 4] = [
    command!(KEY_SET_WRITE, Administer, true, false),
    command!(KEY_SET_READ, Administer, true, false),
    command!(KEY_SET_REMOVE, Administer, true, false),
    command!(KEY_SET_READ_ALL_INDICES, Administer, true, false),
];

pub(crate) static RESPONSES: [u32; 2] = [KEY_SET_READ_RESPONSE, KEY_SET_READ_ALL_INDICES_RESPONSE];

// The fields of commands, ascending.

// a key set
static KEY_SET_WRITE_FIELDS: [Field; 1] = [field!(0, true, Form::Structure)];

// its id
static KEY_SET_ID_FIELDS: [Field; 1] = [field!(
    0,
    true,
    Form::Uint {
        greatest: u16::MAX as u64
    }
)];

/// The fields of a command that the cluster accepts; none where it has none.
pub(crate) fn command_fields(command: u32) -> &'static [Field]
    ensures { result.now ≡ command_fields command }
{
    match command {
        KEY_SET_WRITE => &KEY_SET_WRITE_FIELDS,
        KEY_SET_READ => &KEY_SET_ID_FIELDS,
        KEY_SET_REMOVE => &KEY_SET_ID_FIELDS,
        _ => &[],
    }
}
