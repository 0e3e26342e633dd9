//! General Commissioning.

ghost use Rattle.std.specs.Prelude.{◌≡◌};
ghost use Rattle.mt_meta.specs.clusters.GeneralCommissioning.{command_fields};

use crate::meta::Meta;
use crate::rows::{
    ANY_NUMBER, AttributeRow, CommandRow, Field, FirstValue, Form, Origin, PLAIN, Sensitive, Takes,
    command, computed, field,
};
use mt_model::Privilege;

/// The number of the cluster.
pub const CLUSTER: u32 = 0x30;

// Attributes.

/// How far a commissioner has come.
pub const BREADCRUMB: u32 = 0;

/// How long the fail-safe is armed.
pub const BASIC_COMMISSIONING_INFO: u32 = 1;

/// Where the node stands, indoors or outdoors.
pub const REGULATORY_CONFIG: u32 = 2;

/// Where it may stand.
pub const LOCATION_CAPABILITY: u32 = 3;

pub const SUPPORTS_CONCURRENT_CONNECTION: u32 = 4;

// Commands that it accepts.

pub const ARM_FAIL_SAFE: u32 = 0;

pub const SET_REGULATORY_CONFIG: u32 = 2;

pub const COMMISSIONING_COMPLETE: u32 = 4;

// Commands with which it answers.

pub const ARM_FAIL_SAFE_RESPONSE: u32 = 1;

pub const SET_REGULATORY_CONFIG_RESPONSE: u32 = 3;

pub const COMMISSIONING_COMPLETE_RESPONSE: u32 = 5;

// The rows, ascending.

pub(crate) static ATTRIBUTES: [AttributeRow; 5] = [
    AttributeRow {
        number: BREADCRUMB,
        meta: Meta {
            write: Some(Privilege::Administer),
            ..PLAIN
        },
        takes: Takes::Value(Form::Uint { greatest: u64::MAX }),
        origin: Origin::Stored(FirstValue::Uint(0)),
        sensitive: Sensitive::Nothing,
    },
    computed!(BASIC_COMMISSIONING_INFO, Structure),
    AttributeRow {
        number: REGULATORY_CONFIG,
        meta: Meta {
            kept: true,
            ..PLAIN
        },
        takes: Takes::Nothing,
        origin: Origin::Stored(FirstValue::Uint(2)),
        sensitive: Sensitive::Nothing,
    },
    computed!(LOCATION_CAPABILITY, Uint),
    computed!(SUPPORTS_CONCURRENT_CONNECTION, Bool),
];

pub(crate) static COMMANDS: [CommandRow; 3] = [
    command!(ARM_FAIL_SAFE, Administer, false, false),
    command!(SET_REGULATORY_CONFIG, Administer, false, false),
    command!(COMMISSIONING_COMPLETE, Administer, true, false),
];

pub(crate) static RESPONSES: [u32; 3] = [
    ARM_FAIL_SAFE_RESPONSE,
    SET_REGULATORY_CONFIG_RESPONSE,
    COMMISSIONING_COMPLETE_RESPONSE,
];

// The fields of commands, ascending.

static ARM_FAIL_SAFE_FIELDS: [Field; 2] = [
    // for how many seconds
    field!(
        0,
        true,
        Form::Uint {
            greatest: u16::MAX as u64
        }
    ),
    // Breadcrumb
    field!(1, true, ANY_NUMBER),
];

static SET_REGULATORY_CONFIG_FIELDS: [Field; 3] = [
    // where the node stands
    field!(0, true, ANY_NUMBER),
    // the two letters of a country's code
    field!(1, true, Form::Text { least: 2, most: 2 }),
    // Breadcrumb
    field!(2, true, ANY_NUMBER),
];

/// The fields of a command that the cluster accepts; none where it has none.
pub(crate) fn command_fields(command: u32) -> &'static [Field]
    ensures { result.now ≡ command_fields command }
{
    match command {
        ARM_FAIL_SAFE => &ARM_FAIL_SAFE_FIELDS,
        SET_REGULATORY_CONFIG => &SET_REGULATORY_CONFIG_FIELDS,
        _ => &[],
    }
}
