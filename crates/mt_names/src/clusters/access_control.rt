//! Access Control.

ghost use Rattle.std.specs.Prelude.{◌≡◌, map};
ghost use Rattle.mt_names.specs.Columns.{entry};
ghost use Rattle.mt_names.specs.clusters.AccessControl.{event_fields};

use crate::columns::Named;
use mt_meta::clusters::access_control as table;

/// The attributes.
pub(crate) static ATTRIBUTES: [Named; 4] = [
    Named {
        number: table::ACL,
        name: "ACL",
    },
    Named {
        number: table::SUBJECTS_PER_ACCESS_CONTROL_ENTRY,
        name: "SubjectsPerAccessControlEntry",
    },
    Named {
        number: table::TARGETS_PER_ACCESS_CONTROL_ENTRY,
        name: "TargetsPerAccessControlEntry",
    },
    Named {
        number: table::ACCESS_CONTROL_ENTRIES_PER_FABRIC,
        name: "AccessControlEntriesPerFabric",
    },
];

/// The events.
pub(crate) static EVENTS: [Named; 1] = [Named {
    number: table::ACCESS_CONTROL_ENTRY_CHANGED,
    name: "AccessControlEntryChanged",
}];

/// The fields of an item of the list.
pub(crate) static ITEM_FIELDS: [Named; 5] = [
    Named {
        number: 1,
        name: "privilege",
    },
    Named {
        number: 2,
        name: "mode",
    },
    Named {
        number: 3,
        name: "subjects",
    },
    Named {
        number: 4,
        name: "targets",
    },
    Named {
        number: 254,
        name: "fabric",
    },
];

static ACCESS_CONTROL_ENTRY_CHANGED_FIELDS: [Named; 5] = [
    Named {
        number: 1,
        name: "adminNode",
    },
    Named {
        number: 2,
        name: "adminPasscode",
    },
    Named {
        number: 3,
        name: "change",
    },
    Named {
        number: 4,
        name: "entry",
    },
    Named {
        number: 254,
        name: "fabric",
    },
];

/// The fields of an event.
pub(crate) fn event_fields(event: u32) -> &'static [Named]
    ensures { map entry result.now ≡ event_fields event }
{
    match event {
        table::ACCESS_CONTROL_ENTRY_CHANGED => &ACCESS_CONTROL_ENTRY_CHANGED_FIELDS,
        _ => &[],
    }
}
