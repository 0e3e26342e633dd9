//! User Label.

use crate::columns::Named;
use mt_meta::clusters::user_label as table;

/// The attributes.
pub(crate) static ATTRIBUTES: [Named; 1] = [Named {
    number: table::LABEL_LIST,
    name: "LabelList",
}];

/// The fields of an item of the list.
pub(crate) static ITEM_FIELDS: [Named; 2] = [
    Named {
        number: 0,
        name: "label",
    },
    Named {
        number: 1,
        name: "value",
    },
];
