//! What steps make of a state: the code of the definitions of `Effects` in mt_machine. They take memory as they go. A
//! step for which there is none changes nothing, and of several the first are made then.
//!
//! - `values`: stored attributes and the access control list;
//! - `networks`: the networks;
//! - `failsafe`: the fail-safe, root certificates and signing requests;
//! - `fabrics`: the table of fabrics, and what follows from it;
//! - `sessions`: what becomes of sessions;
//! - `expiry`: what an expiry takes back.
#![tactic(auto)]

ghost use Rattle.std.specs.Prelude.{◌≡◌, true, OnErr, OnOk};
ghost use Rattle.mt_machine.specs.Effects.{after, after_all};
ghost use Rattle.mt_machine.specs.State.{IsValid};
ghost use Rattle.mt_machine.specs.Taking.{may_take, may_take_all};
ghost use Rattle.mt_steps.specs.Partly.{IsMadeInPart};

mod expiry;
mod fabrics;
mod failsafe;
mod networks;
mod sessions;
mod values;

use expiry::expire;
pub use expiry::rolled_back;
use fabrics::{add_fabric, label_fabric, remove_fabric, update_fabric};
use failsafe::{arm, complete, renew, request, trust};
use mt_machine::steps_leave_states_valid;
use mt_meta::stored_places_are_those_of_the_model;
use mt_model::{Actor, NodeState, NodeStep, Steps};
use networks::{connect_network, move_network, put_network, remove_network};
use std::alloc::{AllocError, Global};
use values::{put_entries, set_row};

/// Makes steps of a state, one after the other, where this actor is taken as asking. Where there is no memory for
/// one, the state is that behind those before it: whoever wants all or none makes them on a copy.
pub fn make_all(
    alloc: Global,
    asking: Option<Actor>,
    steps: Steps,
    state: &mut NodeState,
) -> Result<(), AllocError>
    requires valid { IsValid state.old }
    requires taken { may_take_all asking steps state.old ≡ true }
    ensures made { OnOk result (state.new ≡ after_all asking steps state.old) }
    ensures part { OnErr result (IsMadeInPart asking steps state.old state.new) }
{
    steps_leave_states_valid();
    for step in steps.into_vec() {
        make(alloc, asking, step, state)?;
    }
    Ok(())
}

/// Makes a step of a state, where this actor is taken as asking. A step that the fail-safe, the table of fabrics or
/// the limit on networks refuses changes nothing, nor does one for which there is no memory.
pub fn make(
    alloc: Global,
    asking: Option<Actor>,
    step: NodeStep,
    state: &mut NodeState,
) -> Result<(), AllocError>
    requires valid { IsValid state.old }
    requires taken { may_take state.old step ≡ true }
    ensures made { OnOk result (state.new ≡ after asking step state.old) }
    ensures kept { OnErr result (state.new ≡ state.old) }
{
    stored_places_are_those_of_the_model();
    match step {
        NodeStep::SetRow {
            place,
            fabric,
            values,
        } => set_row(alloc, &place, fabric, values, &mut state.rows),
        NodeStep::SetEntries { fabric, entries } => {
            put_entries(alloc, fabric, entries, &mut state.entries)
        },
        NodeStep::PutNetwork { id, secret } => put_network(alloc, id, secret, &mut state.networks),
        NodeStep::RemoveNetwork { id } => remove_network(alloc, &id, &mut state.networks),
        NodeStep::ConnectNetwork { id } => connect_network(alloc, &id, &mut state.networks),
        NodeStep::MoveNetwork { id, index } => move_network(alloc, &id, index, &mut state.networks),
        NodeStep::Arm { owner, seconds } => arm(alloc, owner, seconds, state),
        NodeStep::Renew { seconds } => {
            renew(state.clock, seconds, &mut state.armed);
            Ok(())
        },
        NodeStep::Expire => expire(alloc, state),
        NodeStep::Complete => complete(alloc, state),
        NodeStep::AddRoot { cert } => trust(cert, state),
        NodeStep::Csr { nonce, update } => {
            request(nonce, update, state);
            Ok(())
        },
        NodeStep::AddFabric { fabric } => add_fabric(alloc, asking, fabric, state),
        NodeStep::UpdateFabric { index, credentials } => {
            update_fabric(alloc, index, credentials, state);
            Ok(())
        },
        NodeStep::RemoveFabric { index } => remove_fabric(alloc, index, state),
        NodeStep::Label { index, label } => {
            label_fabric(alloc, index, label, state);
            Ok(())
        },
        NodeStep::Emit { .. } => Ok(()),
    }
}
