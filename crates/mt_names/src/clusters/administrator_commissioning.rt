//! Administrator Commissioning.

ghost use Rattle.std.specs.Prelude.{◌≡◌, map};
ghost use Rattle.mt_meta.specs.clusters.AdministratorCommissioning as rows;
ghost use Rattle.mt_meta.specs.declared.rows.Field.{Field};
ghost use Rattle.mt_names.specs.Columns.{entry, number_of};
ghost use Rattle.mt_names.specs.clusters.AdministratorCommissioning.{command_fields};

use crate::columns::Named;
use mt_meta::clusters::administrator_commissioning as table;

/// The attributes, without those that stand above the global ones.
pub(crate) static ATTRIBUTES: [Named; 3] = [
    Named {
        number: table::WINDOW_STATUS,
        name: "WindowStatus",
    },
    Named {
        number: table::ADMIN_FABRIC_INDEX,
        name: "AdminFabricIndex",
    },
    Named {
        number: table::ADMIN_VENDOR_ID,
        name: "AdminVendorId",
    },
];

/// Those that stand above the global ones.
pub(crate) static EXTENSIONS: [Named; 1] = [Named {
    number: table::WINDOW_END,
    name: "WindowEnd",
}];

/// The commands that it accepts.
pub(crate) static COMMANDS: [Named; 3] = [
    Named {
        number: table::OPEN_COMMISSIONING_WINDOW,
        name: "OpenCommissioningWindow",
    },
    Named {
        number: table::OPEN_BASIC_COMMISSIONING_WINDOW,
        name: "OpenBasicCommissioningWindow",
    },
    Named {
        number: table::REVOKE_COMMISSIONING,
        name: "RevokeCommissioning",
    },
];

static OPEN_COMMISSIONING_WINDOW_FIELDS: [Named; 5] = [
    Named {
        number: 0,
        name: "commissioningTimeout",
    },
    Named {
        number: 1,
        name: "pakePasscodeVerifier",
    },
    Named {
        number: 2,
        name: "discriminator",
    },
    Named {
        number: 3,
        name: "iterations",
    },
    Named {
        number: 4,
        name: "salt",
    },
];

static OPEN_BASIC_COMMISSIONING_WINDOW_FIELDS: [Named; 1] = [Named {
    number: 0,
    name: "commissioningTimeout",
}];

/// The fields of a command that it accepts.
pub(crate) fn command_fields(command: u32) -> &'static [Named]
    ensures names { map entry result.now ≡ command_fields command }
    ensures numbers { map number_of result.now ≡ map (λ (field : Field). field.number) (rows.command_fields command) }
{
    match command {
        table::OPEN_COMMISSIONING_WINDOW => &OPEN_COMMISSIONING_WINDOW_FIELDS,
        table::OPEN_BASIC_COMMISSIONING_WINDOW => &OPEN_BASIC_COMMISSIONING_WINDOW_FIELDS,
        _ => &[],
    }
}
