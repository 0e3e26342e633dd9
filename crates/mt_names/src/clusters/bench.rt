//! Bench, a cluster of this project.

ghost use Rattle.std.specs.Prelude.{◌≡◌, map};
ghost use Rattle.mt_names.specs.Columns.{entry};
ghost use Rattle.mt_names.specs.clusters.Bench.{event_fields};

use crate::columns::Named;
use mt_meta::clusters::bench as table;

/// The attributes.
pub(crate) static ATTRIBUTES: [Named; 2] = [
    Named {
        number: table::ITEMS,
        name: "Items",
    },
    Named {
        number: table::NUMBER,
        name: "Number",
    },
];

/// The commands that it accepts.
pub(crate) static COMMANDS: [Named; 1] = [Named {
    number: table::RING,
    name: "Ring",
}];

/// The events.
pub(crate) static EVENTS: [Named; 1] = [Named {
    number: table::RUNG,
    name: "Rung",
}];

/// The fields of an item of the list.
pub(crate) static ITEM_FIELDS: [Named; 3] = [
    Named {
        number: 1,
        name: "name",
    },
    Named {
        number: 2,
        name: "secret",
    },
    Named {
        number: 254,
        name: "fabric",
    },
];

static RUNG_FIELDS: [Named; 2] = [
    Named {
        number: 0,
        name: "number",
    },
    Named {
        number: 254,
        name: "fabric",
    },
];

/// The fields of an event.
pub(crate) fn event_fields(event: u32) -> &'static [Named]
    ensures { map entry result.now ≡ event_fields event }
{
    match event {
        table::RUNG => &RUNG_FIELDS,
        _ => &[],
    }
}
