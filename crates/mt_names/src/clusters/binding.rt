//! Binding.

use crate::columns::Named;
use mt_meta::clusters::binding as table;

/// The attributes.
pub(crate) static ATTRIBUTES: [Named; 1] = [Named {
    number: table::BINDING,
    name: "Binding",
}];

/// The fields of an item of the list.
pub(crate) static ITEM_FIELDS: [Named; 4] = [
    Named {
        number: 1,
        name: "node",
    },
    Named {
        number: 3,
        name: "endpoint",
    },
    Named {
        number: 4,
        name: "cluster",
    },
    Named {
        number: 254,
        name: "fabric",
    },
];
