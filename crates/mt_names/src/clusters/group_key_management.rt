//! Group Key Management.

ghost use Rattle.std.specs.Prelude.{◌≡◌, map};
ghost use Rattle.mt_meta.specs.clusters.GroupKeyManagement as rows;
ghost use Rattle.mt_meta.specs.declared.rows.Field.{Field};
ghost use Rattle.mt_names.specs.Columns.{entry, number_of};
ghost use Rattle.mt_names.specs.clusters.GroupKeyManagement.{command_fields, response_fields, value_fields};

use crate::columns::Named;
use mt_meta::clusters::group_key_management as table;

/// The attributes.
pub(crate) static ATTRIBUTES: [Named; 4] = [
    Named {
        number: table::GROUP_KEY_MAP,
        name: "GroupKeyMap",
    },
    Named {
        number: table::GROUP_TABLE,
        name: "GroupTable",
    },
    Named {
        number: table::MAX_GROUPS_PER_FABRIC,
        name: "MaxGroupsPerFabric",
    },
    Named {
        number: table::MAX_GROUP_KEYS_PER_FABRIC,
        name: "MaxGroupKeysPerFabric",
    },
];

/// The commands that it accepts.
pub(crate) static COMMANDS: [Named; 4] = [
    Named {
        number: table::KEY_SET_WRITE,
        name: "KeySetWrite",
    },
    Named {
        number: table::KEY_SET_READ,
        name: "KeySetRead",
    },
    Named {
        number: table::KEY_SET_REMOVE,
        name: "KeySetRemove",
    },
    Named {
        number: table::KEY_SET_READ_ALL_INDICES,
        name: "KeySetReadAllIndices",
    },
];

/// The commands with which it answers.
pub(crate) static RESPONSES: [Named; 2] = [
    Named {
        number: table::KEY_SET_READ_RESPONSE,
        name: "KeySetReadResponse",
    },
    Named {
        number: table::KEY_SET_READ_ALL_INDICES_RESPONSE,
        name: "KeySetReadAllIndicesResponse",
    },
];

/// The fields of an item of the map.
pub(crate) static MAP_ITEM_FIELDS: [Named; 3] = [
    Named {
        number: 1,
        name: "groupId",
    },
    Named {
        number: 2,
        name: "groupKeySetID",
    },
    Named {
        number: 254,
        name: "fabric",
    },
];

/// The fields of a key set.
pub(crate) static SET_FIELDS: [Named; 9] = [
    Named {
        number: 0,
        name: "groupKeySetID",
    },
    Named {
        number: 1,
        name: "groupKeySecurityPolicy",
    },
    Named {
        number: 2,
        name: "epochKey0",
    },
    Named {
        number: 3,
        name: "epochStartTime0",
    },
    Named {
        number: 4,
        name: "epochKey1",
    },
    Named {
        number: 5,
        name: "epochStartTime1",
    },
    Named {
        number: 6,
        name: "epochKey2",
    },
    Named {
        number: 7,
        name: "epochStartTime2",
    },
    Named {
        number: 254,
        name: "fabric",
    },
];

static KEY_SET_WRITE_FIELDS: [Named; 1] = [Named {
    number: 0,
    name: "groupKeySet",
}];

static KEY_SET_ID_FIELDS: [Named; 1] = [Named {
    number: 0,
    name: "groupKeySetID",
}];

/// The fields of a command that it accepts.
pub(crate) fn command_fields(command: u32) -> &'static [Named]
    ensures names { map entry result.now ≡ command_fields command }
    ensures numbers { map number_of result.now ≡ map (λ (field : Field). field.number) (rows.command_fields command) }
{
    match command {
        table::KEY_SET_WRITE => &KEY_SET_WRITE_FIELDS,
        table::KEY_SET_READ => &KEY_SET_ID_FIELDS,
        table::KEY_SET_REMOVE => &KEY_SET_ID_FIELDS,
        _ => &[],
    }
}

static KEY_SET_READ_RESPONSE_FIELDS: [Named; 1] = [Named {
    number: 0,
    name: "groupKeySet",
}];

static KEY_SET_READ_ALL_INDICES_RESPONSE_FIELDS: [Named; 1] = [Named {
    number: 0,
    name: "groupKeySetIDs",
}];

/// The fields of a command with which it answers.
pub(crate) fn response_fields(command: u32) -> &'static [Named]
    ensures { map entry result.now ≡ response_fields command }
{
    match command {
        table::KEY_SET_READ_RESPONSE => &KEY_SET_READ_RESPONSE_FIELDS,
        table::KEY_SET_READ_ALL_INDICES_RESPONSE => &KEY_SET_READ_ALL_INDICES_RESPONSE_FIELDS,
        _ => &[],
    }
}

static GROUP_TABLE_FIELDS: [Named; 4] = [
    Named {
        number: 1,
        name: "groupId",
    },
    Named {
        number: 2,
        name: "endpoints",
    },
    Named {
        number: 3,
        name: "groupName",
    },
    Named {
        number: 254,
        name: "fabric",
    },
];

/// The fields of a structure in the value of an attribute that nobody writes.
pub(crate) fn value_fields(attribute: u32) -> &'static [Named]
    ensures { map entry result.now ≡ value_fields attribute }
{
    match attribute {
        table::GROUP_TABLE => &GROUP_TABLE_FIELDS,
        _ => &[],
    }
}
