//! Network Commissioning.

ghost use Rattle.std.specs.Prelude.{◌≡◌};
ghost use Rattle.mt_meta.specs.clusters.NetworkCommissioning.{command_fields};

use crate::meta::{Kind, Meta};
use crate::rows::{
    ANY_NUMBER, ANY_OCTETS, AttributeRow, CommandRow, Field, FirstValue, Form, Origin, PLAIN,
    Sensitive, Takes, command, computed, field,
};
use mt_model::Privilege;

/// The number of the cluster.
pub const CLUSTER: u32 = 0x31;

// Attributes.

pub const MAX_NETWORKS: u32 = 0;

/// The networks.
pub const NETWORKS: u32 = 1;

pub const SCAN_MAX_TIME_SECONDS: u32 = 2;

pub const CONNECT_MAX_TIME_SECONDS: u32 = 3;

pub const INTERFACE_ENABLED: u32 = 4;

pub const LAST_NETWORKING_STATUS: u32 = 5;

pub const LAST_NETWORK_ID: u32 = 6;

pub const LAST_CONNECT_ERROR_VALUE: u32 = 7;

// Commands that it accepts.

pub const ADD_OR_UPDATE_WIFI_NETWORK: u32 = 2;

pub const REMOVE_NETWORK: u32 = 4;

pub const CONNECT_NETWORK: u32 = 6;

pub const REORDER_NETWORK: u32 = 8;

// Commands with which it answers.

pub const NETWORK_CONFIG_RESPONSE: u32 = 5;

pub const CONNECT_NETWORK_RESPONSE: u32 = 7;

// The rows, ascending.

pub(crate) static ATTRIBUTES: [AttributeRow; 8] = [
    computed!(MAX_NETWORKS, Uint, Administer),
    computed!(NETWORKS, Networks, Administer),
    computed!(SCAN_MAX_TIME_SECONDS, Uint),
    computed!(CONNECT_MAX_TIME_SECONDS, Uint),
    AttributeRow {
        number: INTERFACE_ENABLED,
        meta: Meta {
            kind: Kind::Bool,
            write: Some(Privilege::Administer),
            kept: true,
            ..PLAIN
        },
        takes: Takes::Value(Form::Bool),
        origin: Origin::Stored(FirstValue::Bool(true)),
        sensitive: Sensitive::Nothing,
    },
    AttributeRow {
        number: LAST_NETWORKING_STATUS,
        meta: Meta {
            kind: Kind::NullableUint,
            read: Privilege::Administer,
            ..PLAIN
        },
        takes: Takes::Nothing,
        origin: Origin::Stored(FirstValue::Null),
        sensitive: Sensitive::Nothing,
    },
    AttributeRow {
        number: LAST_NETWORK_ID,
        meta: Meta {
            kind: Kind::NullableOctets,
            read: Privilege::Administer,
            ..PLAIN
        },
        takes: Takes::Nothing,
        origin: Origin::Stored(FirstValue::Null),
        sensitive: Sensitive::Nothing,
    },
    computed!(LAST_CONNECT_ERROR_VALUE, Null, Administer),
];

pub(crate) static COMMANDS: [CommandRow; 4] = [
    command!(ADD_OR_UPDATE_WIFI_NETWORK, Administer, false, false),
    command!(REMOVE_NETWORK, Administer, false, false),
    command!(CONNECT_NETWORK, Administer, false, false),
    command!(REORDER_NETWORK, Administer, false, false),
];

pub(crate) static RESPONSES: [u32; 2] = [NETWORK_CONFIG_RESPONSE, CONNECT_NETWORK_RESPONSE];

// The fields of commands, ascending.

static ADD_OR_UPDATE_WIFI_NETWORK_FIELDS: [Field; 3] = [
    // the name of the network
    field!(0, true, ANY_OCTETS),
    // its secret
    field!(1, true, ANY_OCTETS),
    // Breadcrumb
    field!(2, false, ANY_NUMBER),
];

static NETWORK_FIELDS: [Field; 2] = [
    // the name of the network
    field!(0, true, ANY_OCTETS),
    // Breadcrumb
    field!(1, false, ANY_NUMBER),
];

static REORDER_NETWORK_FIELDS: [Field; 3] = [
    // the name of the network
    field!(0, true, ANY_OCTETS),
    // its place
    field!(1, true, ANY_NUMBER),
    // Breadcrumb
    field!(2, false, ANY_NUMBER),
];

/// The fields of a command that the cluster accepts.
pub(crate) fn command_fields(command: u32) -> &'static [Field]
    ensures { result.now ≡ command_fields command }
{
    match command {
        ADD_OR_UPDATE_WIFI_NETWORK => &ADD_OR_UPDATE_WIFI_NETWORK_FIELDS,
        REMOVE_NETWORK => &NETWORK_FIELDS,
        CONNECT_NETWORK => &NETWORK_FIELDS,
        REORDER_NETWORK => &REORDER_NETWORK_FIELDS,
        _ => &[],
    }
}
