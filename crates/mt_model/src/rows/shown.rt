//! What of a place's rows is shown to a fabric.

ghost use Rattle.std.specs.Prelude.{◌≡◌, ◌++◌, IfOk, OnOk};
ghost use Rattle.mt_model.specs.rows.Shown.{shown_item, shown_items, shown_value};

use crate::rows::place::Row;
use crate::rows::sight::sees;
use mt_tlv::{Members, Tag, Value};
use std::alloc::{AllocError, Global};

/// The items of a list, one for each row, as the fabric sees them; where `own` is set, the fabric's own
/// alone. What is not shown is not copied.
pub fn shown_items(
    alloc: Global,
    fabric: u8,
    own: bool,
    rows: &[Row],
) -> Result<Members, AllocError>
    ensures { IfOk result (λ items. items ≡ shown_items fabric own rows.now) }
{
    let mut items = Vec::with_capacity(alloc, rows.len())?;
    for row in rows {
        push_shown(alloc, fabric, own, row, &mut items)?;
    }
    Ok(Members::from_vec(items))
}

fn push_shown(
    alloc: Global,
    fabric: u8,
    own: bool,
    row: &Row,
    items: &mut Vec<(Tag, Value)>,
) -> Result<(), AllocError>
    ensures { OnOk result (items.new.items ≡ items.old.items ++ shown_item fabric own row.now) }
{
    if own && row.fabric != fabric {
        return Ok(());
    }
    let seen = sees(alloc, fabric, row)?;
    items.push((Tag::Anonymous, seen.into_value()))?;
    Ok(())
}

/// The value of the first row, as the fabric sees it; null where there is none.
pub fn shown_value(alloc: Global, fabric: u8, rows: &[Row]) -> Result<Value, AllocError>
    ensures { IfOk result (λ value. value ≡ shown_value fabric rows.now) }
{
    match rows {
        [row, ..] => {
            let seen = sees(alloc, fabric, row)?;
            Ok(seen.into_value())
        }
        [] => Ok(Value::Null),
    }
}
