//! General Commissioning.

ghost use Rattle.std.specs.Prelude.{◌≡◌, map};
ghost use Rattle.mt_meta.specs.clusters.GeneralCommissioning as rows;
ghost use Rattle.mt_meta.specs.declared.rows.Field.{Field};
ghost use Rattle.mt_names.specs.Columns.{entry, number_of};
ghost use Rattle.mt_names.specs.clusters.GeneralCommissioning.{command_fields, response_fields, value_fields};

use crate::columns::Named;
use mt_meta::clusters::general_commissioning as table;

/// The attributes.
pub(crate) static ATTRIBUTES: [Named; 5] = [
    Named {
        number: table::BREADCRUMB,
        name: "Breadcrumb",
    },
    Named {
        number: table::BASIC_COMMISSIONING_INFO,
        name: "BasicCommissioningInfo",
    },
    Named {
        number: table::REGULATORY_CONFIG,
        name: "RegulatoryConfig",
    },
    Named {
        number: table::LOCATION_CAPABILITY,
        name: "LocationCapability",
    },
    Named {
        number: table::SUPPORTS_CONCURRENT_CONNECTION,
        name: "SupportsConcurrentConnection",
    },
];

/// The commands that it accepts.
pub(crate) static COMMANDS: [Named; 3] = [
    Named {
        number: table::ARM_FAIL_SAFE,
        name: "ArmFailSafe",
    },
    Named {
        number: table::SET_REGULATORY_CONFIG,
        name: "SetRegulatoryConfig",
    },
    Named {
        number: table::COMMISSIONING_COMPLETE,
        name: "CommissioningComplete",
    },
];

/// The commands with which it answers.
pub(crate) static RESPONSES: [Named; 3] = [
    Named {
        number: table::ARM_FAIL_SAFE_RESPONSE,
        name: "ArmFailSafeResponse",
    },
    Named {
        number: table::SET_REGULATORY_CONFIG_RESPONSE,
        name: "SetRegulatoryConfigResponse",
    },
    Named {
        number: table::COMMISSIONING_COMPLETE_RESPONSE,
        name: "CommissioningCompleteResponse",
    },
];

static ARM_FAIL_SAFE_FIELDS: [Named; 2] = [
    Named {
        number: 0,
        name: "expiryLengthSeconds",
    },
    Named {
        number: 1,
        name: "breadcrumb",
    },
];

static SET_REGULATORY_CONFIG_FIELDS: [Named; 3] = [
    Named {
        number: 0,
        name: "newRegulatoryConfig",
    },
    Named {
        number: 1,
        name: "countryCode",
    },
    Named {
        number: 2,
        name: "breadcrumb",
    },
];

/// The fields of a command that it accepts.
pub(crate) fn command_fields(command: u32) -> &'static [Named]
    ensures names { map entry result.now ≡ command_fields command }
    ensures numbers { map number_of result.now ≡ map (λ (field : Field). field.number) (rows.command_fields command) }
{
    match command {
        table::ARM_FAIL_SAFE => &ARM_FAIL_SAFE_FIELDS,
        table::SET_REGULATORY_CONFIG => &SET_REGULATORY_CONFIG_FIELDS,
        _ => &[],
    }
}

static ARM_FAIL_SAFE_RESPONSE_FIELDS: [Named; 2] = [
    Named {
        number: 0,
        name: "errorCode",
    },
    Named {
        number: 1,
        name: "debugText",
    },
];

static SET_REGULATORY_CONFIG_RESPONSE_FIELDS: [Named; 2] = [
    Named {
        number: 0,
        name: "errorCode",
    },
    Named {
        number: 1,
        name: "debugText",
    },
];

static COMMISSIONING_COMPLETE_RESPONSE_FIELDS: [Named; 2] = [
    Named {
        number: 0,
        name: "errorCode",
    },
    Named {
        number: 1,
        name: "debugText",
    },
];

/// The fields of a command with which it answers.
pub(crate) fn response_fields(command: u32) -> &'static [Named]
    ensures { map entry result.now ≡ response_fields command }
{
    match command {
        table::ARM_FAIL_SAFE_RESPONSE => &ARM_FAIL_SAFE_RESPONSE_FIELDS,
        table::SET_REGULATORY_CONFIG_RESPONSE => &SET_REGULATORY_CONFIG_RESPONSE_FIELDS,
        table::COMMISSIONING_COMPLETE_RESPONSE => &COMMISSIONING_COMPLETE_RESPONSE_FIELDS,
        _ => &[],
    }
}

static BASIC_COMMISSIONING_INFO_FIELDS: [Named; 2] = [
    Named {
        number: 0,
        name: "failSafeExpiryLengthSeconds",
    },
    Named {
        number: 1,
        name: "maxCumulativeFailsafeSeconds",
    },
];

/// The fields of a structure in the value of an attribute that nobody writes.
pub(crate) fn value_fields(attribute: u32) -> &'static [Named]
    ensures { map entry result.now ≡ value_fields attribute }
{
    match attribute {
        table::BASIC_COMMISSIONING_INFO => &BASIC_COMMISSIONING_INFO_FIELDS,
        _ => &[],
    }
}
