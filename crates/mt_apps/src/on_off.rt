//! On/Off: its commands.

ghost use Rattle.std.specs.Prelude.{◌≡◌, IfOk, Some, ◌∷◌, []};
ghost use Rattle.mt_tlv.specs.declared.value.Value.TheVariants.{Bool};
ghost use Rattle.mt_apps.specs.OnOff.{is_on, is_true, on_behind, on_off_at, on_off_effect, set_on};
ghost use Rattle.mt_apps.specs.Seen.{nobodys_rows};

use mt_meta::clusters::ON_OFF;
use mt_meta::clusters::on_off::{OFF, ON, ON_OFF as STATE, TOGGLE};
use mt_model::{Effect, NodeStep, Place, Row, Status, Steps, Values, View};
use mt_tlv::Value;
use std::alloc::{AllocError, Global};

/// What a command comes to: it is off, on, or what it was not.
pub(crate) fn on_off_effect(
    alloc: Global,
    view: &View,
    command: &Place,
) -> Result<Effect, AllocError>
    ensures { IfOk result (λ effect. effect ≡ on_off_effect (nobodys_rows view.now) command.now) }
{
    let place = on_off_at(command.endpoint);
    let on = is_on(view.rows.of(&place, 0));
    match on_behind(command.leaf, on) {
        Some(on) => set_on(alloc, command, place, on),
        None => Ok(Effect::refused_at(alloc, command, Status::UnsupportedCommand)),
    }
}

// The attribute of an endpoint.
fn on_off_at(endpoint: u16) -> Place
    ensures { result ≡ on_off_at endpoint }
{
    Place {
        endpoint,
        cluster: ON_OFF,
        leaf: STATE,
    }
}

// Whether it is on, as its row says.
fn is_on(rows: &[Row]) -> bool
    ensures { result ≡ is_on rows.now }
{
    match rows.first() {
        Some(row) => is_true(&row.value),
        None => false,
    }
}

fn is_true(value: &Value) -> bool
    ensures { result ≡ is_true value.now }
{
    match value {
        Value::Bool(on) => *on,
        _ => false,
    }
}

// Whether it is on behind a command, None where there is no such command.
fn on_behind(command: u32, on: bool) -> Option<bool>
    ensures { result ≡ on_behind command on }
{
    match command {
        OFF => Some(false),
        ON => Some(true),
        TOGGLE => Some(!on),
        _ => None,
    }
}

fn set_on(alloc: Global, command: &Place, place: Place, on: bool) -> Result<Effect, AllocError>
    requires { place ≡ on_off_at command.now.endpoint }
    ensures { IfOk result (λ effect. effect ≡ set_on command.now (Some on)) }
{
    let values = one_value(alloc, Value::Bool(on))?;
    let mut steps = Steps::new(alloc);
    steps.push(NodeStep::SetRow {
        place,
        fabric: 0,
        values,
    })?;
    Ok(Effect::answered_with(command, Status::Success, steps))
}

fn one_value(alloc: Global, value: Value) -> Result<Values, AllocError>
    ensures { IfOk result (λ values. values ≡ value ∷ []) }
{
    let mut values = Values::new(alloc);
    values.push(value)?;
    Ok(values)
}
