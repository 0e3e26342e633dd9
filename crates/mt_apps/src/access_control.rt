//! Access Control: the entries as rows, and how many there can be.

ghost use Rattle.std.specs.Prelude.{◌≡◌, IfOk};
ghost use Rattle.mt_apps.specs.AccessControl.{access_control_value};
ghost use Rattle.mt_model.specs.tables.Entries.{entry_value, mode_number, privilege_number, subjects_tree, targets_tree};
ghost use Rattle.mt_model.specs.rows.Sight.{is_acl};
ghost use Rattle.mt_tlv.specs.View.{tree};

use crate::arrays::array_of;
use crate::lists::{FABRIC_INDEX, FabricItem, FabricList, fabric_alone};
use mt_meta::clusters::access_control::{
    ACCESS_CONTROL_ENTRIES_PER_FABRIC, ACL, CLUSTER, SUBJECTS_PER_ACCESS_CONTROL_ENTRY,
    TARGETS_PER_ACCESS_CONTROL_ENTRY,
};
use mt_model::limits::{ENTRIES, SUBJECTS, TARGETS};
use mt_model::{AclEntry, Auth, Place, Privilege, Target, View, entries_are_in_order};
use mt_tlv::{Members, Tag, Value};
use std::alloc::{AllocError, Global};

/// How many subjects, targets and entries there can be.
pub(crate) fn access_control_value(leaf: u32) -> Option<Value>
    ensures { result ≡ access_control_value leaf }
{
    match leaf {
        SUBJECTS_PER_ACCESS_CONTROL_ENTRY => Some(Value::Uint(SUBJECTS as u64)),
        TARGETS_PER_ACCESS_CONTROL_ENTRY => Some(Value::Uint(TARGETS as u64)),
        ACCESS_CONTROL_ENTRIES_PER_FABRIC => Some(Value::Uint(ENTRIES as u64)),
        _ => None,
    }
}

impl FabricItem for AclEntry {
    ghost all = { λ view. view.entries.now };

    ghost fabric = { λ entry. entry.fabric };

    fn all<'a>(view: &'a View<'a>) -> &'a [Self] {
        entries_are_in_order();
        view.entries.as_slice()
    }

    fn fabric(&self) -> u8 {
        self.fabric
    }
}

/// The access control list.
pub(crate) struct Acl;

impl FabricList for Acl {
    type Item = AclEntry;

    ghost is_at = { is_acl };

    ghost value = { entry_value };

    fn is_at(place: &Place) -> bool {
        place.cluster == CLUSTER && place.leaf == ACL
    }

    fn value(alloc: Global, entry: &AclEntry) -> Result<Value, AllocError> {
        entry_value(alloc, entry)
    }

    #[tactic(auto, using(crate::proofs::Bare::bare_entry))]
    fn bare(alloc: Global, entry: &AclEntry) -> Result<Value, AllocError> {
        fabric_alone(alloc, entry.fabric)
    }
}

/// An entry as a value, with its fabric (Matter Core Specification, section 9.10, AccessControlEntryStruct).
pub fn entry_value(alloc: Global, entry: &AclEntry) -> Result<Value, AllocError>
    ensures { IfOk result (λ value. value ≡ entry_value entry.now) }
{
    let subjects = subjects(alloc, entry.subjects.as_slice())?;
    let targets = targets(alloc, entry.targets.as_slice())?;
    let fields = vec![in alloc;
        (
            Tag::Context(1),
            Value::Uint(privilege_number(entry.privilege))
        ),
        (Tag::Context(2), Value::Uint(mode_number(entry.auth))),
        (Tag::Context(3), subjects),
        (Tag::Context(4), targets),
        (Tag::Context(FABRIC_INDEX), Value::Uint(entry.fabric as u64)),
    ]?;
    Ok(Value::Struct(Members::from_vec(fields)))
}

fn privilege_number(privilege: Privilege) -> u64
    ensures { result ≡ privilege_number privilege }
{
    match privilege {
        Privilege::View => 1,
        Privilege::ProxyView => 2,
        Privilege::Operate => 3,
        Privilege::Manage => 4,
        Privilege::Administer => 5,
    }
}

fn mode_number(auth: Auth) -> u64
    ensures { result ≡ mode_number auth }
{
    match auth {
        Auth::Pase => 1,
        Auth::Case => 2,
        Auth::Group => 3,
    }
}

// The array of the subjects, null where there are none.
fn subjects(alloc: Global, subjects: &[u64]) -> Result<Value, AllocError>
    ensures { IfOk result (λ value. tree value ≡ subjects_tree subjects.now) }
{
    match subjects {
        [] => Ok(Value::Null),
        [_, ..] => array_of(alloc, subjects),
    }
}

// The array of the targets, null where there are none.
fn targets(alloc: Global, targets: &[Target]) -> Result<Value, AllocError>
    ensures { IfOk result (λ value. tree value ≡ targets_tree targets.now) }
{
    match targets {
        [] => Ok(Value::Null),
        [_, ..] => array_of(alloc, targets),
    }
}
