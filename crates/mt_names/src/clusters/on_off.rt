//! On/Off.

use crate::columns::Named;
use mt_meta::clusters::on_off as table;

/// The attributes.
pub(crate) static ATTRIBUTES: [Named; 1] = [Named {
    number: table::ON_OFF,
    name: "OnOff",
}];

/// The commands that it accepts.
pub(crate) static COMMANDS: [Named; 3] = [
    Named {
        number: table::OFF,
        name: "Off",
    },
    Named {
        number: table::ON,
        name: "On",
    },
    Named {
        number: table::TOGGLE,
        name: "Toggle",
    },
];
