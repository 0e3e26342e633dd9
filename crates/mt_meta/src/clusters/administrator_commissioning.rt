//! Administrator Commissioning.

ghost use Rattle.std.specs.Prelude.{◌≡◌};
ghost use Rattle.mt_meta.specs.clusters.AdministratorCommissioning.{command_fields};

use crate::meta::{Kind, Meta};
use crate::rows::{
    ANY_OCTETS, AttributeRow, CommandRow, Field, FirstValue, Form, Origin, PLAIN, Sensitive, Takes,
    command, field,
};
use mt_model::Privilege;

/// The number of the cluster.
pub const CLUSTER: u32 = 0x3c;

// Attributes.

/// Whether a commissioning window is open: 0 it is closed, 1 it is an enhanced one, 2 a basic one.
pub const WINDOW_STATUS: u32 = 0;

/// Whose administrator opened it.
pub const ADMIN_FABRIC_INDEX: u32 = 1;

/// That administrator's vendor.
pub const ADMIN_VENDOR_ID: u32 = 2;

/// Until when it is open, in ms: an attribute of this project.
pub const WINDOW_END: u32 = 0xfff1_0000;

// Commands.

pub const OPEN_COMMISSIONING_WINDOW: u32 = 0;

pub const OPEN_BASIC_COMMISSIONING_WINDOW: u32 = 1;

pub const REVOKE_COMMISSIONING: u32 = 2;

// The rows, ascending.

// An attribute that is stored, and not kept over a restart.
macro_rules! passing {
    ($number:expr, $kind:ident, $first:expr) => {
        AttributeRow {
            number: $number,
            meta: Meta {
                kind: Kind::$kind,
                ..PLAIN
            },
            takes: Takes::Nothing,
            origin: Origin::Stored($first),
            sensitive: Sensitive::Nothing,
        }
    };
}

pub(crate) static ATTRIBUTES: [AttributeRow; 3] = [
    passing!(WINDOW_STATUS, Uint, FirstValue::Uint(0)),
    passing!(ADMIN_FABRIC_INDEX, NullableUint, FirstValue::Null),
    passing!(ADMIN_VENDOR_ID, NullableUint, FirstValue::Null),
];

/// Those above the global ones.
pub(crate) static EXTENSIONS: [AttributeRow; 1] = [passing!(
    WINDOW_END,
    NullableUint,
    FirstValue::Null
)];

pub(crate) static COMMANDS: [CommandRow; 3] = [
    command!(OPEN_COMMISSIONING_WINDOW, Administer, false, true),
    command!(OPEN_BASIC_COMMISSIONING_WINDOW, Administer, false, true),
    command!(REVOKE_COMMISSIONING, Administer, false, true),
];

// The fields of commands, ascending.

const TIMEOUT: Field = field!(
    0,
    true,
    Form::Uint {
        greatest: u16::MAX as u64
    }
);

static OPEN_COMMISSIONING_WINDOW_FIELDS: [Field; 5] = [
    // for how many seconds
    TIMEOUT,
    // the verifier of the passcode
    field!(1, true, ANY_OCTETS),
    // the discriminator
    field!(
        2,
        true,
        Form::Uint {
            greatest: u16::MAX as u64
        }
    ),
    // the iterations by which the verifier is made, and the salt
    field!(
        3,
        true,
        Form::Uint {
            greatest: u32::MAX as u64
        }
    ),
    field!(4, true, ANY_OCTETS),
];

static OPEN_BASIC_COMMISSIONING_WINDOW_FIELDS: [Field; 1] = [TIMEOUT];

/// The fields of a command that the cluster accepts; none where it has none.
pub(crate) fn command_fields(command: u32) -> &'static [Field]
    ensures { result.now ≡ command_fields command }
{
    match command {
        OPEN_COMMISSIONING_WINDOW => &OPEN_COMMISSIONING_WINDOW_FIELDS,
        OPEN_BASIC_COMMISSIONING_WINDOW => &OPEN_BASIC_COMMISSIONING_WINDOW_FIELDS,
        _ => &[],
    }
}
