//! What the fields of a value are called, and what their numbers stand for.

use mt_meta::clusters::{
    ACCESS_CONTROL, ADMINISTRATOR_COMMISSIONING, GROUP_KEY_MANAGEMENT, access_control,
    group_key_management,
};
use mt_meta::{Kind, find};
use mt_model::{Auth, Path, Place, Privilege};
use mt_names::{
    Named, auth_name, command_field_names, event_field_names, item_field_names, name_among,
    privilege_name, response_field_names, target_field_names, value_field_names,
};

/// What the structures in a value are.
#[derive(Clone, Copy)]
pub(crate) enum Shape {
    /// Their fields have these names.
    Fields(&'static [Named]),
    /// Entries of the access control list.
    Entry,
    /// The event that tells of one of these.
    Changed,
    /// Their fields have these names, and field 0 is a group key set.
    KeySet(&'static [Named]),
}

/// No names are known.
pub(crate) fn unknown() -> Shape {
    Shape::Fields(&[])
}

/// What the structures in a value of an attribute are.
pub(crate) fn shape_of_attribute(path: &Path) -> Shape {
    match path.place() {
        Some(place) => shape_at(place),
        None => unknown(),
    }
}

// What the structures in the attribute of a place are.
fn shape_at(place: Place) -> Shape {
    let kind = match find(&place) {
        Ok(meta) => meta.kind,
        Err(_) => Kind::Null,
    };
    if kind == Kind::Acl {
        return Shape::Entry;
    }
    let fields = item_field_names(kind);
    if fields.is_empty() {
        Shape::Fields(value_field_names(place.cluster, place.leaf))
    } else {
        Shape::Fields(fields)
    }
}

/// What the fields of a command are.
pub(crate) fn shape_of_command(command: &Place) -> Shape {
    let names = command_field_names(command.cluster, command.leaf);
    if is_key_set_write(command) {
        Shape::KeySet(names)
    } else {
        Shape::Fields(names)
    }
}

fn is_key_set_write(command: &Place) -> bool {
    command.cluster == GROUP_KEY_MANAGEMENT && command.leaf == group_key_management::KEY_SET_WRITE
}

/// What the fields of a response are.
pub(crate) fn shape_of_response(path: &Path) -> Shape {
    match path.place() {
        Some(response) => shape_from(&response),
        None => unknown(),
    }
}

fn shape_from(response: &Place) -> Shape {
    let names = response_field_names(response.cluster, response.leaf);
    if is_key_set_read(response) {
        Shape::KeySet(names)
    } else {
        Shape::Fields(names)
    }
}

fn is_key_set_read(response: &Place) -> bool {
    response.cluster == GROUP_KEY_MANAGEMENT
        && response.leaf == group_key_management::KEY_SET_READ_RESPONSE
}

/// What the value of an event is.
pub(crate) fn shape_of_event(path: &Path) -> Shape {
    match path.place() {
        Some(event) if is_entry_changed(&event) => Shape::Changed,
        Some(event) => Shape::Fields(event_field_names(event.cluster, event.leaf)),
        None => unknown(),
    }
}

fn is_entry_changed(event: &Place) -> bool {
    event.cluster == ACCESS_CONTROL && event.leaf == access_control::ACCESS_CONTROL_ENTRY_CHANGED
}

impl Shape {
    /// The name of a field; None where none is known.
    pub(crate) fn name(self, field: u8) -> Option<&'static str> {
        let names = match self {
            Shape::Fields(names) | Shape::KeySet(names) => names,
            Shape::Entry => item_field_names(Kind::Acl),
            Shape::Changed => {
                event_field_names(ACCESS_CONTROL, access_control::ACCESS_CONTROL_ENTRY_CHANGED)
            }
        };
        name_among(names, field as u32)
    }

    /// What stands in a field.
    pub(crate) fn inner(self, field: u8) -> Shape {
        match (self, field) {
            (Shape::Entry, access_control::TARGETS) => Shape::Fields(target_field_names()),
            (Shape::Changed, 4) => Shape::Entry,
            (Shape::KeySet(_), 0) => Shape::Fields(item_field_names(Kind::KeySets)),
            _ => unknown(),
        }
    }

    /// What a number in a field stands for; None where it is a number alone.
    pub(crate) fn meaning(self, field: u8, number: u64) -> Option<&'static str> {
        match (self, field) {
            (Shape::Entry, access_control::PRIVILEGE) => privilege(number),
            (Shape::Entry, access_control::AUTH_MODE) => auth(number),
            (Shape::Changed, 3) => change(number),
            _ => None,
        }
    }

    /// Whether a field names whom an entry is for.
    pub(crate) fn has_subjects(self, field: u8) -> bool {
        match self {
            Shape::Entry => field == access_control::SUBJECTS,
            _ => false,
        }
    }

    /// Whether null in a field means that there are none.
    pub(crate) fn has_none(self, field: u8) -> bool {
        match (self, field) {
            (Shape::Entry, access_control::SUBJECTS | access_control::TARGETS) => true,
            _ => false,
        }
    }
}

// The name of the privilege of a number.
fn privilege(number: u64) -> Option<&'static str> {
    for privilege in [
        Privilege::View,
        Privilege::ProxyView,
        Privilege::Operate,
        Privilege::Manage,
        Privilege::Administer,
    ] {
        if privilege as u64 == number {
            return Some(privilege_name(privilege));
        }
    }
    None
}

// The name of the mode of a number.
fn auth(number: u64) -> Option<&'static str> {
    for auth in [Auth::Pase, Auth::Case, Auth::Group] {
        if auth as u64 == number {
            return Some(auth_name(auth));
        }
    }
    None
}

// What happened to an entry.
fn change(number: u64) -> Option<&'static str> {
    match number {
        0 => Some("changed"),
        1 => Some("added"),
        2 => Some("removed"),
        _ => None,
    }
}

/// What a code of a cluster's own means; None where it is a number alone.
pub(crate) fn reason(cluster: Option<u32>, code: u8) -> Option<&'static str> {
    if cluster != Some(ADMINISTRATOR_COMMISSIONING) {
        return None;
    }
    match code {
        2 => Some("busy"),
        3 => Some("PAKE parameter error"),
        4 => Some("window not open"),
        _ => None,
    }
}
