//! Operational Credentials.

ghost use Rattle.std.specs.Prelude.{◌≡◌};
ghost use Rattle.mt_meta.specs.clusters.OperationalCredentials.{command_fields};

use crate::meta::{Kind, Meta};
use crate::rows::{
    ANY_NUMBER, ANY_OCTETS, ANY_TEXT, AttributeRow, CommandRow, Field, Form, Origin, PLAIN,
    Sensitive, Takes, command, computed, field,
};
use mt_model::Privilege;

/// The number of the cluster.
pub const CLUSTER: u32 = 0x3e;

// Attributes.

/// The operational certificates.
pub const NOCS: u32 = 0;

/// The fabrics.
pub const FABRICS: u32 = 1;

pub const SUPPORTED_FABRICS: u32 = 2;

pub const COMMISSIONED_FABRICS: u32 = 3;

pub const TRUSTED_ROOT_CERTIFICATES: u32 = 4;

/// The reader's own fabric, of which there is no row.
pub const CURRENT_FABRIC_INDEX: u32 = 5;

// Commands that it accepts.

pub const CSR_REQUEST: u32 = 4;

pub const ADD_NOC: u32 = 6;

pub const UPDATE_NOC: u32 = 7;

pub const UPDATE_FABRIC_LABEL: u32 = 9;

pub const REMOVE_FABRIC: u32 = 10;

pub const ADD_TRUSTED_ROOT_CERTIFICATE: u32 = 11;

// Commands with which it answers.

pub const CSR_RESPONSE: u32 = 5;

pub const NOC_RESPONSE: u32 = 8;

// The rows, ascending.

pub(crate) static ATTRIBUTES: [AttributeRow; 6] = [
    AttributeRow {
        number: NOCS,
        meta: Meta {
            kind: Kind::Nocs,
            read: Privilege::Administer,
            scoped: true,
            ..PLAIN
        },
        takes: Takes::Nothing,
        origin: Origin::Computed,
        sensitive: Sensitive::TwoFields(1, 2),
    },
    AttributeRow {
        number: FABRICS,
        meta: Meta {
            kind: Kind::Fabrics,
            scoped: true,
            ..PLAIN
        },
        takes: Takes::Nothing,
        origin: Origin::Computed,
        sensitive: Sensitive::Nothing,
    },
    computed!(SUPPORTED_FABRICS, Uint),
    computed!(COMMISSIONED_FABRICS, Uint),
    computed!(TRUSTED_ROOT_CERTIFICATES, Roots),
    computed!(CURRENT_FABRIC_INDEX, Uint),
];

pub(crate) static COMMANDS: [CommandRow; 6] = [
    command!(CSR_REQUEST, Administer, false, false),
    command!(ADD_NOC, Administer, false, false),
    command!(UPDATE_NOC, Administer, true, false),
    command!(UPDATE_FABRIC_LABEL, Administer, true, false),
    command!(REMOVE_FABRIC, Administer, false, false),
    command!(ADD_TRUSTED_ROOT_CERTIFICATE, Administer, false, false),
];

pub(crate) static RESPONSES: [u32; 2] = [CSR_RESPONSE, NOC_RESPONSE];

// The fields of commands, ascending.

static CSR_REQUEST_FIELDS: [Field; 2] = [
    // the nonce
    field!(
        0,
        true,
        Form::Octets {
            least: 32,
            most: 32
        }
    ),
    // whether it is for UpdateNOC
    field!(1, false, Form::Bool),
];

static ADD_NOC_FIELDS: [Field; 5] = [
    // the certificates
    field!(0, true, ANY_OCTETS),
    field!(1, false, ANY_OCTETS),
    // the identity protection key
    field!(
        2,
        true,
        Form::Octets {
            least: 16,
            most: 16
        }
    ),
    // whom the first entry names
    field!(3, true, ANY_NUMBER),
    // the administrator's vendor
    field!(
        4,
        true,
        Form::Uint {
            greatest: u16::MAX as u64
        }
    ),
];

static UPDATE_NOC_FIELDS: [Field; 2] = [
    // the certificates
    field!(0, true, ANY_OCTETS),
    field!(1, false, ANY_OCTETS),
];

static UPDATE_FABRIC_LABEL_FIELDS: [Field; 1] = [field!(0, true, ANY_TEXT)];

static REMOVE_FABRIC_FIELDS: [Field; 1] = [field!(0, true, ANY_NUMBER)];

static ADD_TRUSTED_ROOT_CERTIFICATE_FIELDS: [Field; 1] = [field!(0, true, ANY_OCTETS)];

/// The fields of a command that the cluster accepts.
pub(crate) fn command_fields(command: u32) -> &'static [Field]
    ensures { result.now ≡ command_fields command }
{
    match command {
        CSR_REQUEST => &CSR_REQUEST_FIELDS,
        ADD_NOC => &ADD_NOC_FIELDS,
        UPDATE_NOC => &UPDATE_NOC_FIELDS,
        UPDATE_FABRIC_LABEL => &UPDATE_FABRIC_LABEL_FIELDS,
        REMOVE_FABRIC => &REMOVE_FABRIC_FIELDS,
        ADD_TRUSTED_ROOT_CERTIFICATE => &ADD_TRUSTED_ROOT_CERTIFICATE_FIELDS,
        _ => &[],
    }
}
