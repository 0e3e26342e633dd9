//! What the fields of a value are called, and which numbers words stand for in them, by the columns of mt_names.

ghost use Rattle.std.specs.Prelude.{◌≡◌, map};
ghost use Rattle.mt_names.specs.Columns.{entry};
ghost use Rattle.mt_say.specs.Shapes.{names_of};

use crate::names::number_among;
use mt_meta::clusters::{GROUP_KEY_MANAGEMENT, access_control, group_key_management};
use mt_meta::{Kind, attributes_of};
use mt_model::{Auth, Path, Place, Privilege};
use mt_names::{
    Named, auth_name, command_field_names, item_field_names, privilege_name, target_field_names,
    value_field_names,
};

/// What the structures in a value are.
#[derive(Clone, Copy)]
pub enum Shape {
    /// Their fields have these names.
    Fields(&'static [Named]),
    /// Entries of the access control list.
    Entry,
    /// Their fields have these names, and field 0 is a group key set.
    KeySet(&'static [Named]),
}

/// What the structures in the value of an attribute are: what its cluster says, whichever the endpoint.
pub(crate) fn shape_of_attribute(path: &Path) -> Shape {
    let Some(place) = path.place() else {
        return Shape::Fields(&[]);
    };
    let kind = kind_of(&place);
    match item_field_names(kind) {
        _ if kind == Kind::Acl => Shape::Entry,
        [] => Shape::Fields(value_field_names(place.cluster, place.leaf)),
        names => Shape::Fields(names),
    }
}

// The form of an attribute of a cluster; Null where the cluster has none of that number.
fn kind_of(place: &Place) -> Kind {
    match attributes_of(place.cluster)
        .iter()
        .find(|row| row.number == place.leaf)
    {
        Some(row) => row.meta.kind,
        None => Kind::Null,
    }
}

/// What the fields of a command are.
pub(crate) fn shape_of_command(command: &Place) -> Shape {
    let names = command_field_names(command.cluster, command.leaf);
    if command.cluster == GROUP_KEY_MANAGEMENT
        && command.leaf == group_key_management::KEY_SET_WRITE
    {
        Shape::KeySet(names)
    } else {
        Shape::Fields(names)
    }
}

impl Shape {
    /// The names of the fields.
    pub fn names(self) -> &'static [Named]
        ensures { map entry result.now ≡ names_of self }
    {
        match self {
            Shape::Fields(names) | Shape::KeySet(names) => names,
            Shape::Entry => item_field_names(Kind::Acl),
        }
    }

    /// The field of a name; None where no field has it.
    pub(crate) fn field(self, word: &[u8]) -> Option<u8> {
        u8::try_from(number_among(self.names(), word)?).ok()
    }

    /// What stands in a field.
    pub(crate) fn inner(self, field: u8) -> Shape {
        match (self, field) {
            (Shape::Entry, access_control::TARGETS) => Shape::Fields(target_field_names()),
            (Shape::KeySet(_), 0) => Shape::Fields(item_field_names(Kind::KeySets)),
            _ => Shape::Fields(&[]),
        }
    }

    /// The number that a word stands for in a field; None where it stands for none.
    pub(crate) fn meant(self, field: u8, word: &[u8]) -> Option<u64> {
        match (self, field) {
            (Shape::Entry, access_control::PRIVILEGE) => privilege(word),
            (Shape::Entry, access_control::AUTH_MODE) => mode(word),
            _ => None,
        }
    }

    /// Whether a field names whom an entry is for.
    pub(crate) fn has_subjects(self, field: u8) -> bool {
        match self {
            Shape::Entry => field == access_control::SUBJECTS,
            _ => false,
        }
    }
}

/// The privileges.
pub const PRIVILEGES: [Privilege; 5] = [
    Privilege::View,
    Privilege::ProxyView,
    Privilege::Operate,
    Privilege::Manage,
    Privilege::Administer,
];

/// The modes.
pub const MODES: [Auth; 3] = [Auth::Pase, Auth::Case, Auth::Group];

// The number of the privilege of a name.
fn privilege(word: &[u8]) -> Option<u64> {
    for privilege in PRIVILEGES {
        if privilege_name(privilege).as_bytes() == word {
            return Some(privilege as u64);
        }
    }
    None
}

// The number of the mode of a name.
fn mode(word: &[u8]) -> Option<u64> {
    for auth in MODES {
        if auth_name(auth).as_bytes() == word {
            return Some(auth as u64);
        }
    }
    None
}
