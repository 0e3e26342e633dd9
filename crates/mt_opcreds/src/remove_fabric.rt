//! RemoveFabric.

ghost use Rattle.std.specs.Prelude.{◌≡◌, ◌++◌, IfOk, OnOk, option_copied};
ghost use Rattle.mt_model.specs.tables.Known.{known_in};
ghost use Rattle.mt_opcreds.specs.RemoveFabric.{leave_event, leaving, removal_steps, remove_effect};

use crate::fault::CertificateFault;
use crate::finding::used_index;
use crate::responses::{noc_done, noc_refused};
use mt_failsafe::{is_context, was_added};
use mt_meta::clusters::BASIC_INFORMATION;
use mt_meta::clusters::basic_information::LEAVE;
use mt_meta::number_of;
use mt_model::{Effect, NodeStep, Place, Steps, View};
use mt_tlv::{Members, Tag, Value};
use std::alloc::{AllocError, Global};

/// A fabric leaves, which all are told.
#[tactic(auto, using(crate::proofs::Others::used_indexes, crate::proofs::Others::bare_removal))]
pub(crate) fn remove_effect(
    alloc: Global,
    view: &View,
    fabric: u8,
    command: &Place,
    fields: &Value,
) -> Result<Effect, AllocError>
    ensures { IfOk result (λ effect. effect ≡ remove_effect (known_in fabric view.now) command.now fields.now) }
{
    let Some(index) = used_index(view.fabrics.as_slice(), number_of(fields, 0)) else {
        return noc_refused(alloc, command, CertificateFault::InvalidFabricIndex);
    };
    let steps = removal_steps(alloc, view, index)?;
    noc_done(alloc, command, index, steps)
}

// Where commissioning goes on for the fabric, the fail-safe expires first; what was added under it goes by that.
fn removal_steps(alloc: Global, view: &View, index: u8) -> Result<Steps, AllocError>
    ensures { IfOk result (λ steps. steps ≡ removal_steps index (option_copied view.now.armed)) }
{
    let mut steps = Steps::new(alloc);
    if is_context(index, view.armed) {
        steps.push(NodeStep::Expire)?;
        if was_added(index, view.armed) {
            return Ok(steps);
        }
    }
    push_leaving(alloc, index, &mut steps)?;
    Ok(steps)
}

// The fabric goes, and all are told.
fn push_leaving(alloc: Global, index: u8, steps: &mut Steps) -> Result<(), AllocError>
    ensures { OnOk result (steps.new ≡ steps.old ++ leaving index) }
{
    let told = leave_event(alloc, index)?;
    steps.push(NodeStep::RemoveFabric { index })?;
    steps.push(told)
}

/// All are told the index of a fabric that leaves (Matter Core Specification, section 11.1, event Leave).
pub fn leave_event(alloc: Global, index: u8) -> Result<NodeStep, AllocError>
    ensures { IfOk result (λ event. event ≡ leave_event index) }
{
    let fields = vec![in alloc; (Tag::Context(0), Value::Uint(index as u64))]?;
    Ok(NodeStep::Emit {
        place: Place {
            endpoint: 0,
            cluster: BASIC_INFORMATION,
            leaf: LEAVE,
        },
        priority: 1,
        fabric: 0,
        value: Value::Struct(Members::from_vec(fields)),
    })
}
