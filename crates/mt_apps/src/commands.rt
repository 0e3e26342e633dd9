//! What commands come to.

ghost use Rattle.std.specs.Prelude.{◌≡◌, IfOk};
ghost use Rattle.mt_apps.specs.Commands.{invoked};
ghost use Rattle.mt_apps.specs.Seen.{nobodys_rows};

use crate::bench::bench_effect;
use crate::on_off::on_off_effect;
use mt_meta::clusters::{BENCH, ON_OFF};
use mt_model::{Actor, Effect, Place, Status, View};
use std::alloc::{AllocError, Global};

/// What a command of On/Off or of Bench comes to: the reply, and the steps that it makes of the node. Off, On
/// and Toggle set whether it is on; Ring tells the actor's fabric the number. Each is answered with the status
/// SUCCESS, and any other command with UNSUPPORTED_COMMAND.
///
/// Whether the actor may invoke it, and what its fields must be, is asked before.
pub fn invoke(
    alloc: Global,
    view: &View,
    actor: &Actor,
    command: &Place,
) -> Result<Effect, AllocError>
    ensures { IfOk result (λ effect. effect ≡ invoked (nobodys_rows view.now) actor.now command.now) }
{
    match command.cluster {
        ON_OFF => on_off_effect(alloc, view, command),
        BENCH => bench_effect(alloc, view, actor.fabric, command),
        _ => Ok(Effect::refused_at(alloc, command, Status::UnsupportedCommand)),
    }
}
