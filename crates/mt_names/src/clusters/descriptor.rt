//! Descriptor.

ghost use Rattle.std.specs.Prelude.{◌≡◌, map};
ghost use Rattle.mt_names.specs.Columns.{entry};
ghost use Rattle.mt_names.specs.clusters.Descriptor.{value_fields};

use crate::columns::Named;
use mt_meta::clusters::descriptor as table;

/// The attributes.
pub(crate) static ATTRIBUTES: [Named; 4] = [
    Named {
        number: table::DEVICE_TYPE_LIST,
        name: "DeviceTypeList",
    },
    Named {
        number: table::SERVER_LIST,
        name: "ServerList",
    },
    Named {
        number: table::CLIENT_LIST,
        name: "ClientList",
    },
    Named {
        number: table::PARTS_LIST,
        name: "PartsList",
    },
];

static DEVICE_TYPE_LIST_FIELDS: [Named; 2] = [
    Named {
        number: 0,
        name: "deviceType",
    },
    Named {
        number: 1,
        name: "revision",
    },
];

/// The fields of a structure in the value of an attribute that nobody writes.
pub(crate) fn value_fields(attribute: u32) -> &'static [Named]
    ensures { map entry result.now ≡ value_fields attribute }
{
    match attribute {
        table::DEVICE_TYPE_LIST => &DEVICE_TYPE_LIST_FIELDS,
        _ => &[],
    }
}
