//! What steps make of stored attributes and of the access control list.

ghost use Rattle.std.specs.Prelude.{◌≡◌, true, IsTrue, OnErr, OnOk};
ghost use Rattle.mt_model.specs.rows.Setting.{with_entries, with_rows};
ghost use Rattle.mt_model.specs.rows.Stored.{is_stored_place};
ghost use Rattle.mt_model.specs.texts.Config.{ascend_from};

use mt_model::{AclEntries, Place, StoredRows, Values, set_entries};
use std::alloc::{AllocError, Global};
use std::mem::replace;

/// At this place, the rows of this fabric are these.
pub(crate) fn set_row(
    alloc: Global,
    place: &Place,
    fabric: u8,
    values: Values,
    rows: &mut StoredRows,
) -> Result<(), AllocError>
    requires { is_stored_place place.now ≡ true }
    ensures set { OnOk result (rows.new ≡ with_rows place.now fabric values rows.old) }
    ensures kept { OnErr result (rows.new ≡ rows.old) }
{
    let Some(needed) = rows.others_at(place, fabric).checked_add(values.len()) else {
        return Err(AllocError);
    };
    let room = Vec::with_capacity(alloc, needed)?;
    rows.set(place, fabric, values, room);
    Ok(())
}

/// The access control entries of this fabric are these.
pub(crate) fn put_entries(
    alloc: Global,
    fabric: u8,
    new: AclEntries,
    entries: &mut AclEntries,
) -> Result<(), AllocError>
    requires { IsTrue (ascend_from 0 entries.old) }
    ensures set { OnOk result (entries.new ≡ with_entries fabric new entries.old) }
    ensures kept { OnErr result (entries.new ≡ entries.old) }
{
    let Some(needed) = entries.len().checked_add(new.len()) else {
        return Err(AllocError);
    };
    let mut room = Vec::with_capacity(alloc, needed)?;
    let mut there = replace(entries, AclEntries::new(alloc)).into_vec();
    // There is room for them.
    let Ok(()) = room.append(&mut there) else {
        unreachable!()
    };
    set_entries(&mut room, fabric, new);
    *entries = AclEntries::from_vec(room);
    Ok(())
}
