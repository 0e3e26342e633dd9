//! What commands come to.

ghost use Rattle.std.specs.Prelude.{◌≡◌, ◌∷◌, IfOk};
ghost use Rattle.mt_model.specs.tables.Known.{known_in};
ghost use Rattle.mt_apps.specs.Seen.{nobodys_rows};
ghost use Rattle.mt_admin.specs.Commands.{failed, invoked, is_busy, is_timeout, is_verified, open_basic_window, open_window, revoke};

use crate::windows::{Window, WindowFault, closed, is_open, opened};
use mt_meta::clusters::administrator_commissioning::{
    OPEN_BASIC_COMMISSIONING_WINDOW, OPEN_COMMISSIONING_WINDOW, REVOKE_COMMISSIONING,
};
use mt_meta::{number_of, octets_of};
use mt_model::limits::{
    LAST_DISCRIMINATOR, LEAST_ITERATIONS, LEAST_SALT_BYTES, LONGEST_WINDOW, MOST_ITERATIONS,
    MOST_SALT_BYTES, SHORTEST_WINDOW, VERIFIER_BYTES,
};
use mt_model::{Actor, Effect, Place, Status, View};
use mt_tlv::Value;
use std::alloc::{AllocError, Global};

/// What a command of Administrator Commissioning comes to at a time in ms: the reply, and the steps that it makes
/// of the node (Matter Core Specification, chapter 11, Administrator Commissioning Cluster). Any other command is
/// answered with UNSUPPORTED_COMMAND.
///
/// Whether the actor may invoke it, and what its fields must be, is asked before.
pub fn invoke(
    alloc: Global,
    view: &View,
    actor: &Actor,
    command: &Place,
    fields: &Value,
    now: u64,
) -> Result<Effect, AllocError>
    ensures { IfOk result (λ effect. effect ≡ invoked (nobodys_rows view.now) (known_in actor.now.fabric view.now) actor.now command.now fields.now now) }
{
    match command.leaf {
        OPEN_COMMISSIONING_WINDOW => open_window(alloc, view, actor, command, fields, now),
        OPEN_BASIC_COMMISSIONING_WINDOW => {
            open_basic_window(alloc, view, actor, command, fields, now)
        },
        REVOKE_COMMISSIONING => revoke(alloc, view, command),
        _ => Ok(Effect::refused_at(alloc, command, Status::UnsupportedCommand)),
    }
}

// The field that both commands that open a window have: for how many seconds.
const TIMEOUT: u8 = 0;

// OpenCommissioningWindow.
fn open_window(
    alloc: Global,
    view: &View,
    actor: &Actor,
    command: &Place,
    fields: &Value,
    now: u64,
) -> Result<Effect, AllocError>
    ensures { IfOk result (λ effect. effect ≡ open_window (nobodys_rows view.now) (known_in actor.now.fabric view.now) actor.now command.now fields.now now) }
{
    let seconds = number_of(fields, TIMEOUT);
    if !is_timeout(seconds) || LAST_DISCRIMINATOR < number_of(fields, 2) {
        return Ok(Effect::refused_at(alloc, command, Status::InvalidCommand));
    }
    if is_busy(view) {
        return Ok(failed(alloc, command, WindowFault::Busy));
    }
    if !is_verified(fields) {
        return Ok(failed(alloc, command, WindowFault::PakeParameterError));
    }
    let fabrics = view.fabrics.as_slice();
    let steps = opened(alloc, Window::Enhanced, fabrics, actor.fabric, seconds, now)?;
    Ok(Effect::answered_with(command, Status::Success, steps))
}

// OpenBasicCommissioningWindow.
fn open_basic_window(
    alloc: Global,
    view: &View,
    actor: &Actor,
    command: &Place,
    fields: &Value,
    now: u64,
) -> Result<Effect, AllocError>
    ensures { IfOk result (λ effect. effect ≡ open_basic_window (nobodys_rows view.now) (known_in actor.now.fabric view.now) actor.now command.now fields.now now) }
{
    let seconds = number_of(fields, TIMEOUT);
    if !is_timeout(seconds) {
        return Ok(Effect::refused_at(alloc, command, Status::InvalidCommand));
    }
    if is_busy(view) {
        return Ok(failed(alloc, command, WindowFault::Busy));
    }
    let fabrics = view.fabrics.as_slice();
    let steps = opened(alloc, Window::Basic, fabrics, actor.fabric, seconds, now)?;
    Ok(Effect::answered_with(command, Status::Success, steps))
}

// RevokeCommissioning.
fn revoke(alloc: Global, view: &View, command: &Place) -> Result<Effect, AllocError>
    ensures { IfOk result (λ effect. effect ≡ revoke (nobodys_rows view.now) command.now) }
{
    if !is_open(view) {
        return Ok(failed(alloc, command, WindowFault::WindowNotOpen));
    }
    Ok(Effect::answered_with(command, Status::Success, closed(alloc)?))
}

fn failed(alloc: Global, command: &Place, fault: WindowFault) -> Effect
    ensures { result ≡ failed command.now fault }
{
    Effect::failed_with(alloc, command, fault.number())
}

// Whether a window may be open for so many seconds.
fn is_timeout(seconds: u64) -> bool
    ensures { result ≡ is_timeout seconds }
{
    SHORTEST_WINDOW <= seconds && seconds <= LONGEST_WINDOW
}

// Whether nobody may open a window now, which all know: also who commissions over PASE, whose fabric is 0.
fn is_busy(view: &View) -> bool
    ensures { result ≡ is_busy (nobodys_rows view.now) (known_in 0 view.now) }
{
    is_open(view) || view.armed.is_some()
}

// Whether what makes the verifier of the passcode has its range.
fn is_verified(fields: &Value) -> bool
    ensures { result ≡ is_verified fields.now }
{
    let iterations = number_of(fields, 3);
    let salt = octets_of(fields, 4).len();
    octets_of(fields, 1).len() == VERIFIER_BYTES
        && (LEAST_ITERATIONS <= iterations && iterations <= MOST_ITERATIONS)
        && (LEAST_SALT_BYTES <= salt && salt <= MOST_SALT_BYTES)
}
