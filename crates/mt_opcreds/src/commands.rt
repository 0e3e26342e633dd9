//! What commands come to.

ghost use Rattle.std.specs.Prelude.{◌≡◌, IfOk};
ghost use Rattle.mt_model.specs.tables.Known.{known_in};
ghost use Rattle.mt_opcreds.specs.Commands.{invoked};
ghost use Rattle.mt_opcreds.specs.Judged.{judged_by};

use crate::add_noc::add_noc_effect;
use crate::add_trusted_root::add_root_effect;
use crate::csr_request::csr_request_effect;
use crate::remove_fabric::remove_effect;
use crate::update_fabric_label::update_label_effect;
use crate::update_noc::update_noc_effect;
use mt_meta::clusters::operational_credentials::{
    ADD_NOC, ADD_TRUSTED_ROOT_CERTIFICATE, CSR_REQUEST, REMOVE_FABRIC, UPDATE_FABRIC_LABEL,
    UPDATE_NOC,
};
use mt_model::{Actor, Effect, Place, Status, Verdicts, View};
use mt_tlv::Value;
use std::alloc::{AllocError, Global};

/// What a command of Operational Credentials comes to: the reply, and the steps that it makes of the node. The
/// event of the first access control entry of a new fabric is told by whoever carries out the steps.
///
/// Whether the actor may invoke it, and what its fields must be, is asked before.
pub fn invoke<V: Verdicts>(
    alloc: Global,
    view: &View,
    actor: &Actor,
    command: &Place,
    fields: &Value,
    verdicts: &V,
) -> Result<Effect, AllocError>
    ensures { let judged = judged_by (V.roots verdicts.now) (V.csrs verdicts.now) (V.joins verdicts.now) in
        IfOk result (λ effect. effect ≡ invoked judged (known_in actor.now.fabric view.now) actor.now command.now fields.now) }
{
    match command.leaf {
        CSR_REQUEST => csr_request_effect(alloc, view, actor, command, fields, verdicts),
        ADD_NOC => add_noc_effect(alloc, view, actor, command, fields, verdicts),
        UPDATE_NOC => update_noc_effect(alloc, view, actor, command, fields, verdicts),
        UPDATE_FABRIC_LABEL => update_label_effect(alloc, view, actor.fabric, command, fields),
        REMOVE_FABRIC => remove_effect(alloc, view, actor.fabric, command, fields),
        ADD_TRUSTED_ROOT_CERTIFICATE => {
            add_root_effect(alloc, view, actor, command, fields, verdicts)
        },
        _ => Ok(Effect::refused_at(alloc, command, Status::UnsupportedCommand)),
    }
}
