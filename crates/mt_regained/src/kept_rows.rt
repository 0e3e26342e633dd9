//! The rows of a state of which some were kept.

ghost use Rattle.std.specs.Prelude.{◌≡◌, ◌++◌, true, IfOk, IsTrue, OnOk, filter};
ghost use Rattle.std.specs.List.{flat_map, list_all};
ghost use Rattle.mt_meta.specs.Stored.{first_rows};
ghost use Rattle.mt_model.specs.rows.Order.{are_ascending};
ghost use Rattle.mt_model.specs.rows.Sight.{stands_at};
ghost use Rattle.mt_model.specs.rows.Stored.{is_stored_place};
ghost use Rattle.mt_model.specs.declared.rows.place.Row.{Row as AnyRow};
ghost use Rattle.mt_regained.specs.Regained.{rows_at, rows_with};

use mt_meta::first_rows;
use mt_model::{ExactCopy, Place, Row, StoredRows, stored_places};
use std::alloc::{AllocError, Global};

/// The rows of each stored place: those that are kept, and where there are none, that with which the place begins.
pub(crate) fn rows_with(alloc: Global, kept: &[Row]) -> Result<StoredRows, AllocError>
    requires ascending { IsTrue (are_ascending (rows_with kept.now)) }
    requires stored { IsTrue (list_all (λ (row : AnyRow). is_stored_place row.place) (rows_with kept.now)) }
    ensures { IfOk result (λ rows. rows ≡ rows_with kept.now) }
{
    let first = first_rows(alloc)?;
    let places = stored_places();
    let mut rows = Vec::new(alloc);
    for place in places {
        push_rows_at(place, kept, &first, &mut rows)?;
    }
    StoredRows::from_vec(alloc, rows)
}

fn push_rows_at(
    place: &Place,
    kept: &[Row],
    first: &StoredRows,
    rows: &mut Vec<Row>,
) -> Result<(), AllocError>
    requires { first.now ≡ first_rows }
    ensures { OnOk result (rows.new.items ≡ rows.old.items ++ rows_at kept.now place.now) }
{
    let before = rows.len();
    push_kept_at(place, kept, rows)?;
    if rows.len() == before {
        push_all(first.at(place), rows)?;
    }
    Ok(())
}

fn push_kept_at(place: &Place, kept: &[Row], rows: &mut Vec<Row>) -> Result<(), AllocError>
    ensures { OnOk result (rows.new.items ≡ rows.old.items ++ filter (stands_at place.now) kept.now) }
{
    for row in kept {
        if row.place == *place {
            rows.push(row.copy()?)?;
        }
    }
    Ok(())
}

fn push_all(more: &[Row], rows: &mut Vec<Row>) -> Result<(), AllocError>
    ensures { OnOk result (rows.new.items ≡ rows.old.items ++ more.now) }
{
    for row in more {
        rows.push(row.copy()?)?;
    }
    Ok(())
}
