//! Network Commissioning.

ghost use Rattle.std.specs.Prelude.{◌≡◌, map};
ghost use Rattle.mt_meta.specs.clusters.NetworkCommissioning as rows;
ghost use Rattle.mt_meta.specs.declared.rows.Field.{Field};
ghost use Rattle.mt_names.specs.Columns.{entry, number_of};
ghost use Rattle.mt_names.specs.clusters.NetworkCommissioning.{command_fields, response_fields, value_fields};

use crate::columns::Named;
use mt_meta::clusters::network_commissioning as table;

/// The attributes.
pub(crate) static ATTRIBUTES: [Named; 8] = [
    Named {
        number: table::MAX_NETWORKS,
        name: "MaxNetworks",
    },
    Named {
        number: table::NETWORKS,
        name: "Networks",
    },
    Named {
        number: table::SCAN_MAX_TIME_SECONDS,
        name: "ScanMaxTimeSeconds",
    },
    Named {
        number: table::CONNECT_MAX_TIME_SECONDS,
        name: "ConnectMaxTimeSeconds",
    },
    Named {
        number: table::INTERFACE_ENABLED,
        name: "InterfaceEnabled",
    },
    Named {
        number: table::LAST_NETWORKING_STATUS,
        name: "LastNetworkingStatus",
    },
    Named {
        number: table::LAST_NETWORK_ID,
        name: "LastNetworkID",
    },
    Named {
        number: table::LAST_CONNECT_ERROR_VALUE,
        name: "LastConnectErrorValue",
    },
];

/// The commands that it accepts.
pub(crate) static COMMANDS: [Named; 4] = [
    Named {
        number: table::ADD_OR_UPDATE_WIFI_NETWORK,
        name: "AddOrUpdateWiFiNetwork",
    },
    Named {
        number: table::REMOVE_NETWORK,
        name: "RemoveNetwork",
    },
    Named {
        number: table::CONNECT_NETWORK,
        name: "ConnectNetwork",
    },
    Named {
        number: table::REORDER_NETWORK,
        name: "ReorderNetwork",
    },
];

/// The commands with which it answers.
pub(crate) static RESPONSES: [Named; 2] = [
    Named {
        number: table::NETWORK_CONFIG_RESPONSE,
        name: "NetworkConfigResponse",
    },
    Named {
        number: table::CONNECT_NETWORK_RESPONSE,
        name: "ConnectNetworkResponse",
    },
];

static ADD_OR_UPDATE_WIFI_NETWORK_FIELDS: [Named; 3] = [
    Named {
        number: 0,
        name: "ssid",
    },
    Named {
        number: 1,
        name: "credentials",
    },
    Named {
        number: 2,
        name: "breadcrumb",
    },
];

static REMOVE_NETWORK_FIELDS: [Named; 2] = [
    Named {
        number: 0,
        name: "networkID",
    },
    Named {
        number: 1,
        name: "breadcrumb",
    },
];

static CONNECT_NETWORK_FIELDS: [Named; 2] = [
    Named {
        number: 0,
        name: "networkID",
    },
    Named {
        number: 1,
        name: "breadcrumb",
    },
];

static REORDER_NETWORK_FIELDS: [Named; 3] = [
    Named {
        number: 0,
        name: "networkID",
    },
    Named {
        number: 1,
        name: "networkIndex",
    },
    Named {
        number: 2,
        name: "breadcrumb",
    },
];

/// The fields of a command that it accepts.
pub(crate) fn command_fields(command: u32) -> &'static [Named]
    ensures names { map entry result.now ≡ command_fields command }
    ensures numbers { map number_of result.now ≡ map (λ (field : Field). field.number) (rows.command_fields command) }
{
    match command {
        table::ADD_OR_UPDATE_WIFI_NETWORK => &ADD_OR_UPDATE_WIFI_NETWORK_FIELDS,
        table::REMOVE_NETWORK => &REMOVE_NETWORK_FIELDS,
        table::CONNECT_NETWORK => &CONNECT_NETWORK_FIELDS,
        table::REORDER_NETWORK => &REORDER_NETWORK_FIELDS,
        _ => &[],
    }
}

static NETWORK_CONFIG_RESPONSE_FIELDS: [Named; 3] = [
    Named {
        number: 0,
        name: "networkingStatus",
    },
    Named {
        number: 1,
        name: "debugText",
    },
    Named {
        number: 2,
        name: "networkIndex",
    },
];

static CONNECT_NETWORK_RESPONSE_FIELDS: [Named; 3] = [
    Named {
        number: 0,
        name: "networkingStatus",
    },
    Named {
        number: 1,
        name: "debugText",
    },
    Named {
        number: 2,
        name: "errorValue",
    },
];

/// The fields of a command with which it answers.
pub(crate) fn response_fields(command: u32) -> &'static [Named]
    ensures { map entry result.now ≡ response_fields command }
{
    match command {
        table::NETWORK_CONFIG_RESPONSE => &NETWORK_CONFIG_RESPONSE_FIELDS,
        table::CONNECT_NETWORK_RESPONSE => &CONNECT_NETWORK_RESPONSE_FIELDS,
        _ => &[],
    }
}

static NETWORKS_FIELDS: [Named; 2] = [
    Named {
        number: 0,
        name: "networkID",
    },
    Named {
        number: 1,
        name: "connected",
    },
];

/// The fields of a structure in the value of an attribute that nobody writes.
pub(crate) fn value_fields(attribute: u32) -> &'static [Named]
    ensures { map entry result.now ≡ value_fields attribute }
{
    match attribute {
        table::NETWORKS => &NETWORKS_FIELDS,
        _ => &[],
    }
}
