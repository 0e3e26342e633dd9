//! Room for the rows that the steps of an answer set.

ghost use Rattle.std.specs.Prelude.{◌≡◌, ◌+◌, IfOk, IfSome, filter, length};
ghost use Rattle.std.specs.List.{sum_by};
ghost use Rattle.mt_model.specs.rows.Setting.{is_other_at};
ghost use Rattle.mt_node.specs.Plan.{HaveRoom, IsAmple, others_in};

use mt_model::{NodeStep, Place, Row, StoredRows, Values};
use std::alloc::{AllocError, Global};

/// For each step room for the rows of others at its place, and for those that it sets.
pub(crate) fn rooms(
    alloc: Global,
    rows: &StoredRows,
    steps: &[NodeStep],
) -> Result<Vec<Vec<Row>>, AllocError>
    ensures { IfOk result (λ rooms. HaveRoom rows.now steps.now rooms.items) }
{
    let mut rooms = Vec::with_capacity(alloc, steps.len())?;
    for step in steps {
        rooms.push(room(alloc, rows, steps, step)?)?;
    }
    Ok(rooms)
}

// Room for one of these steps, whatever the others do before it.
fn room(
    alloc: Global,
    rows: &StoredRows,
    steps: &[NodeStep],
    step: &NodeStep,
) -> Result<Vec<Row>, AllocError>
    ensures { IfOk result (IsAmple rows.now steps.now step.now) }
{
    match step {
        NodeStep::SetRow {
            place,
            fabric,
            values,
        } => {
            let Some(needed) = needed(rows, steps, place, *fabric, values) else {
                return Err(AllocError);
            };
            Vec::with_capacity(alloc, needed)
        },
        _ => Ok(Vec::new(alloc)),
    }
}

// For how many rows there is to be room, None where they are past counting.
fn needed(
    rows: &StoredRows,
    steps: &[NodeStep],
    place: &Place,
    fabric: u8,
    values: &Values,
) -> Option<usize>
    ensures { IfSome result (λ room. room ≡ (length (filter (is_other_at place.now fabric) rows.now) + length values.now) + sum_by (others_in place.now fabric) steps.now) }
{
    let mut needed = rows.others_at(place, fabric).checked_add(values.len())?;
    for step in steps {
        needed = needed.checked_add(others_in(place, fabric, step))?;
    }
    Some(needed)
}

fn others_in(place: &Place, fabric: u8, step: &NodeStep) -> usize
    ensures { result ≡ others_in place.now fabric step.now }
{
    match step {
        NodeStep::SetRow {
            place: at,
            fabric: whose,
            values,
        } if at == place && *whose != fabric => values.len(),
        _ => 0,
    }
}
