//! What of the computed rows is shown to a fabric: what is not shown is not built.

ghost use Rattle.std.specs.Prelude.{◌≡◌, IfOk};
ghost use Rattle.mt_apps.specs.Computed.{computed_rows};
ghost use Rattle.mt_apps.specs.Seen.{parts_in};
ghost use Rattle.mt_model.specs.rows.Shown.{shown_items, shown_value};

use crate::access_control::Acl;
use crate::lists::{FabricList, list_items};
use crate::operational_credentials::{Fabrics, Nocs};
use crate::rows::{computed_value, rows_at};
use mt_model::{Place, View, shown_items, shown_value};
use mt_tlv::{Members, Value};
use std::alloc::{AllocError, Global};

/// The items of a list that is computed, as a fabric sees them; where `own` is set, the fabric's own alone.
#[tactic(auto, unfolding(crate::specs::Computed::computed_rows))]
pub fn items_shown(
    alloc: Global,
    view: &View,
    place: &Place,
    fabric: u8,
    own: bool,
) -> Result<Members, AllocError>
    ensures { IfOk result (λ items. items ≡ shown_items fabric own (computed_rows (parts_in view.now) place.now)) }
{
    if Acl::is_at(place) {
        return list_items::<Acl>(alloc, view, fabric, own);
    }
    if Nocs::is_at(place) {
        return list_items::<Nocs>(alloc, view, fabric, own);
    }
    if Fabrics::is_at(place) {
        return list_items::<Fabrics>(alloc, view, fabric, own);
    }
    let rows = rows_at(alloc, view, place)?;
    shown_items(alloc, fabric, own, rows.as_slice())
}

/// The value that is computed at a place, as a fabric sees it: that of the first row, null where there is
/// none.
#[tactic(auto, using(crate::proofs::Bare::of_nobody), unfolding(crate::specs::Computed::computed_rows))]
pub fn value_shown(
    alloc: Global,
    view: &View,
    place: &Place,
    fabric: u8,
) -> Result<Value, AllocError>
    ensures { IfOk result (λ value. value ≡ shown_value fabric (computed_rows (parts_in view.now) place.now)) }
{
    if Acl::is_at(place) || Nocs::is_at(place) || Fabrics::is_at(place) {
        let rows = rows_at(alloc, view, place)?;
        return shown_value(alloc, fabric, rows.as_slice());
    }
    match computed_value(alloc, view, place)? {
        Some(value) => Ok(value),
        None => Ok(Value::Null),
    }
}
