//! Basic Information.

ghost use Rattle.std.specs.Prelude.{◌≡◌, map};
ghost use Rattle.mt_names.specs.Columns.{entry};
ghost use Rattle.mt_names.specs.clusters.BasicInformation.{event_fields, value_fields};

use crate::columns::Named;
use mt_meta::clusters::basic_information as table;

/// The attributes.
pub(crate) static ATTRIBUTES: [Named; 12] = [
    Named {
        number: table::DATA_MODEL_REVISION,
        name: "DataModelRevision",
    },
    Named {
        number: table::VENDOR_NAME,
        name: "VendorName",
    },
    Named {
        number: table::VENDOR_ID,
        name: "VendorID",
    },
    Named {
        number: table::PRODUCT_NAME,
        name: "ProductName",
    },
    Named {
        number: table::PRODUCT_ID,
        name: "ProductID",
    },
    Named {
        number: table::NODE_LABEL,
        name: "NodeLabel",
    },
    Named {
        number: table::LOCATION,
        name: "Location",
    },
    Named {
        number: table::HARDWARE_VERSION,
        name: "HardwareVersion",
    },
    Named {
        number: table::HARDWARE_VERSION_STRING,
        name: "HardwareVersionString",
    },
    Named {
        number: table::SOFTWARE_VERSION,
        name: "SoftwareVersion",
    },
    Named {
        number: table::SOFTWARE_VERSION_STRING,
        name: "SoftwareVersionString",
    },
    Named {
        number: table::CAPABILITY_MINIMA,
        name: "CapabilityMinima",
    },
];

/// The events.
pub(crate) static EVENTS: [Named; 2] = [
    Named {
        number: table::START_UP,
        name: "StartUp",
    },
    Named {
        number: table::LEAVE,
        name: "Leave",
    },
];

static START_UP_FIELDS: [Named; 1] = [Named {
    number: 0,
    name: "softwareVersion",
}];

static LEAVE_FIELDS: [Named; 1] = [Named {
    number: 0,
    name: "fabric",
}];

/// The fields of an event.
pub(crate) fn event_fields(event: u32) -> &'static [Named]
    ensures { map entry result.now ≡ event_fields event }
{
    match event {
        table::START_UP => &START_UP_FIELDS,
        table::LEAVE => &LEAVE_FIELDS,
        _ => &[],
    }
}

static CAPABILITY_MINIMA_FIELDS: [Named; 2] = [
    Named {
        number: 0,
        name: "caseSessionsPerFabric",
    },
    Named {
        number: 1,
        name: "subscriptionsPerFabric",
    },
];

/// The fields of a structure in the value of an attribute that nobody writes.
pub(crate) fn value_fields(attribute: u32) -> &'static [Named]
    ensures { map entry result.now ≡ value_fields attribute }
{
    match attribute {
        table::CAPABILITY_MINIMA => &CAPABILITY_MINIMA_FIELDS,
        _ => &[],
    }
}
