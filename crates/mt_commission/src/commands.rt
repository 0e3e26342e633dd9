//! What commands come to.

ghost use Rattle.std.specs.Prelude.{◌≡◌, IfOk};
ghost use Rattle.mt_model.specs.tables.Known.{known_in};
ghost use Rattle.mt_commission.specs.Commands.{invoked};

use crate::general_commissioning::general_commissioning_effect;
use crate::network_commissioning::network_commissioning_effect;
use mt_meta::clusters::{GENERAL_COMMISSIONING, NETWORK_COMMISSIONING};
use mt_model::{Actor, Effect, Place, Roots, Status, View};
use mt_tlv::Value;
use std::alloc::{AllocError, Global};

/// What a command of General Commissioning or of Network Commissioning comes to: the reply, and the steps that
/// it makes of the node (Matter Core Specification, chapter 11, General Commissioning Cluster and Network
/// Commissioning Cluster). `reachable` has the ids of the networks that are within reach. Any other command is
/// answered with UNSUPPORTED_COMMAND.
///
/// Whether the actor may invoke it, and what its fields must be, is asked before. It needs no time: the fail-safe
/// is armed and renewed at the time at which the steps are made.
pub fn invoke(
    alloc: Global,
    view: &View,
    actor: &Actor,
    command: &Place,
    fields: &Value,
    reachable: &Roots,
) -> Result<Effect, AllocError>
    ensures { IfOk result (λ effect. effect ≡ invoked (known_in actor.now.fabric view.now) reachable.now actor.now command.now fields.now) }
{
    match command.cluster {
        GENERAL_COMMISSIONING => {
            general_commissioning_effect(alloc, view, actor, command, fields)
        },
        NETWORK_COMMISSIONING => {
            network_commissioning_effect(alloc, view, reachable, actor, command, fields)
        },
        _ => Ok(Effect::refused_at(alloc, command, Status::UnsupportedCommand)),
    }
}
