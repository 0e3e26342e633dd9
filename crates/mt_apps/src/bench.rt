//! Bench: its command.

ghost use Rattle.std.specs.Prelude.{◌≡◌, IfOk, ◌∷◌, []};
ghost use Rattle.mt_model.specs.rows.Shown.{first_value};
ghost use Rattle.mt_apps.specs.Bench.{bench_effect, number_at, rung, rung_at, rung_value};
ghost use Rattle.mt_apps.specs.Seen.{nobodys_rows};

use crate::lists::FABRIC_INDEX;
use mt_meta::clusters::BENCH;
use mt_meta::clusters::bench::{NUMBER, RING, RUNG};
use mt_model::{Effect, NodeStep, Place, Row, Status, Steps, View};
use mt_tlv::{Members, Tag, Value};
use std::alloc::{AllocError, Global};

/// What a command of a fabric comes to: it rings, which the fabric is told.
pub(crate) fn bench_effect(
    alloc: Global,
    view: &View,
    fabric: u8,
    command: &Place,
) -> Result<Effect, AllocError>
    ensures { IfOk result (λ effect. effect ≡ bench_effect (nobodys_rows view.now) fabric command.now) }
{
    if command.leaf != RING {
        return Ok(Effect::refused_at(alloc, command, Status::UnsupportedCommand));
    }
    let number = first_value(view.rows.of(&number_at(command.endpoint), 0))?;
    let mut steps = Steps::new(alloc);
    steps.push(rung(alloc, command.endpoint, number, fabric)?)?;
    Ok(Effect::answered_with(command, Status::Success, steps))
}

// The number of an endpoint, an attribute.
fn number_at(endpoint: u16) -> Place
    ensures { result ≡ number_at endpoint }
{
    Place {
        endpoint,
        cluster: BENCH,
        leaf: NUMBER,
    }
}

fn first_value(rows: &[Row]) -> Result<Value, AllocError>
    ensures { IfOk result (λ number. number ≡ first_value rows.now) }
{
    match rows.first() {
        Some(row) => row.value.copy(),
        None => Ok(Value::Null),
    }
}

// The event of an endpoint, with the number.
fn rung(alloc: Global, endpoint: u16, number: Value, fabric: u8) -> Result<NodeStep, AllocError>
    ensures { IfOk result (λ step. step ≡ rung endpoint number fabric) }
{
    Ok(NodeStep::Emit {
        place: rung_at(endpoint),
        priority: 1,
        fabric,
        value: rung_value(alloc, number, fabric)?,
    })
}

fn rung_at(endpoint: u16) -> Place
    ensures { result ≡ rung_at endpoint }
{
    Place {
        endpoint,
        cluster: BENCH,
        leaf: RUNG,
    }
}

fn rung_value(alloc: Global, number: Value, fabric: u8) -> Result<Value, AllocError>
    ensures { IfOk result (λ value. value ≡ rung_value number fabric) }
{
    let fields = vec![in alloc;
        (Tag::Context(0), number),
        (Tag::Context(FABRIC_INDEX), Value::Uint(fabric as u64)),
    ]?;
    Ok(Value::Struct(Members::from_vec(fields)))
}
