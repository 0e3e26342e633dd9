//! Commands.

ghost use Rattle.std.specs.Prelude.{◌≡◌, ◌⊎◌, IfOk, Result};
ghost use Rattle.mt_apps.specs.Seen.{parts_in};
ghost use Rattle.mt_invoke.specs.Checking.{checked};
ghost use Rattle.mt_apps.specs.Commands.{invoked};
ghost use Rattle.mt_admin.specs.Commands as admin;
ghost use Rattle.mt_commission.specs.Commands as commission;
ghost use Rattle.mt_groupkeys.specs.Commands as group_keys;
ghost use Rattle.mt_machine.specs.Commands.{carried_out, command_effect, is_commissioning, nobodys_rows, of_others, own_rows, unless_refused};
ghost use Rattle.mt_machine.specs.Observation.{observation};
ghost use Rattle.mt_machine.specs.Step.{at_time, invoke_reply, invoke_steps};
ghost use Rattle.mt_node.specs.Configured.{given_to};

use crate::node::Node;
use crate::requests::{is_untimely, refused, unless_suppressed};
use crate::sight::view;
use mt_apps::invoke;
use mt_invoke::{check, has_form};
use mt_machine::rows_stand_in_order;
use mt_meta::CommandMeta;
use mt_meta::clusters::{
    ADMINISTRATOR_COMMISSIONING, GENERAL_COMMISSIONING, GROUP_KEY_MANAGEMENT,
    NETWORK_COMMISSIONING, OPERATIONAL_CREDENTIALS,
};
use mt_model::{Actor, Effect, Place, Status, Verdicts};
use mt_opcreds::invoke as credentials;
use mt_tlv::Value;
use std::alloc::AllocError;

/// What a command is answered at this time, in ms, where a deadline stood for it or none did, and the steps that it
/// makes. One that asks for no answer is carried out all the same.
pub(crate) fn answered<V: Verdicts>(
    node: &Node,
    asking: &Actor,
    stood: bool,
    suppress: bool,
    timed: bool,
    command: &Place,
    fields: &Value,
    now: u64,
    verdicts: &V,
) -> Result<Effect, AllocError>
    ensures { let given = given_to node.now (V.roots verdicts.now) (V.csrs verdicts.now) (V.joins verdicts.now) in
        let seen_by = observation asking.now.fabric (at_time now node.now.state) in
        IfOk result (λ answered. answered ≡ record { reply = invoke_reply given seen_by asking.now stood suppress timed command.now fields.now; steps = invoke_steps given seen_by asking.now stood timed command.now fields.now }) }
{
    if is_untimely(stood, timed) {
        return Ok(refused(node.alloc, Status::TimedRequestMismatch));
    }
    let Effect { reply, steps } = effect(node, asking, timed, command, fields, now, verdicts)?;
    Ok(Effect {
        reply: unless_suppressed(suppress, reply),
        steps,
    })
}

// What a command comes to, of what the fabric of whoever asks observes.
fn effect<V: Verdicts>(
    node: &Node,
    asking: &Actor,
    timed: bool,
    command: &Place,
    fields: &Value,
    now: u64,
    verdicts: &V,
) -> Result<Effect, AllocError>
    ensures { let given = given_to node.now (V.roots verdicts.now) (V.csrs verdicts.now) (V.joins verdicts.now) in
        IfOk result (λ effect. effect ≡ command_effect given (observation asking.now.fabric (at_time now node.now.state)) asking.now timed command.now fields.now) }
{
    match checked(node, asking, timed, command) {
        Ok(_) => well_formed(node, asking, command, fields, now, verdicts),
        Err(status) => Ok(Effect::refused_at(node.alloc, command, status)),
    }
}

fn checked(node: &Node, asking: &Actor, timed: bool, command: &Place) -> Result<CommandMeta, Status>
    ensures { result ≡ checked (observation asking.now.fabric node.now.state).seen asking.now command.now timed }
{
    rows_stand_in_order();
    check(node, asking, command, timed)
}

// What a command comes to against which nothing else stands than the form of its fields.
fn well_formed<V: Verdicts>(
    node: &Node,
    asking: &Actor,
    command: &Place,
    fields: &Value,
    now: u64,
    verdicts: &V,
) -> Result<Effect, AllocError>
    ensures { let given = given_to node.now (V.roots verdicts.now) (V.csrs verdicts.now) (V.joins verdicts.now) in
        (meta : CommandMeta) → IfOk result (λ effect. effect ≡ unless_refused given (observation asking.now.fabric (at_time now node.now.state)) asking.now command.now fields.now (Result.Ok meta)) }
{
    if !has_form(command, fields) {
        return Ok(Effect::refused_at(node.alloc, command, Status::InvalidCommand));
    }
    carried_out(node, asking, command, fields, now, verdicts)
}

// The table of clusters: which carries out a command.
fn carried_out<V: Verdicts>(
    node: &Node,
    asking: &Actor,
    command: &Place,
    fields: &Value,
    now: u64,
    verdicts: &V,
) -> Result<Effect, AllocError>
    ensures { let given = given_to node.now (V.roots verdicts.now) (V.csrs verdicts.now) (V.joins verdicts.now) in
        IfOk result (λ effect. effect ≡ carried_out given (observation asking.now.fabric (at_time now node.now.state)) asking.now command.now fields.now) }
{
    if command.cluster == OPERATIONAL_CREDENTIALS {
        return credentials(node.alloc, &view(node), asking, command, fields, verdicts);
    }
    if is_commissioning(command.cluster) {
        return commission(node, asking, command, fields);
    }
    others(node, asking, command, fields, now)
}

// The clusters by which fabrics join.
fn is_commissioning(cluster: u32) -> bool
    ensures { result ≡ is_commissioning cluster }
{
    cluster == GENERAL_COMMISSIONING
        || cluster == NETWORK_COMMISSIONING
        || cluster == OPERATIONAL_CREDENTIALS
}

// A command of General Commissioning or of Network Commissioning.
fn commission(
    node: &Node,
    asking: &Actor,
    command: &Place,
    fields: &Value,
) -> Result<Effect, AllocError>
    ensures { IfOk result (λ effect. effect ≡ commission.invoked (observation asking.now.fabric node.now.state).known node.now.config.reachable asking.now command.now fields.now) }
{
    mt_commission::invoke(
        node.alloc,
        &view(node),
        asking,
        command,
        fields,
        node.reachable(),
    )
}

// A command that sets rows and tells of events alone.
fn others(
    node: &Node,
    asking: &Actor,
    command: &Place,
    fields: &Value,
    now: u64,
) -> Result<Effect, AllocError>
    ensures { IfOk result (λ effect. effect ≡ of_others (observation asking.now.fabric (at_time now node.now.state)) asking.now command.now fields.now) }
{
    match command.cluster {
        ADMINISTRATOR_COMMISSIONING => administration(node, asking, command, fields, now),
        GROUP_KEY_MANAGEMENT => group_keys(node, asking, command, fields),
        _ => particular(node, asking, command),
    }
}

// A command of Administrator Commissioning.
fn administration(
    node: &Node,
    asking: &Actor,
    command: &Place,
    fields: &Value,
    now: u64,
) -> Result<Effect, AllocError>
    ensures { let seen_by = observation asking.now.fabric node.now.state in
        IfOk result (λ effect. effect ≡ admin.invoked (nobodys_rows seen_by) seen_by.known asking.now command.now fields.now now) }
{
    rows_stand_in_order();
    mt_admin::invoke(node.alloc, &view(node), asking, command, fields, now)
}

// A command of Group Key Management.
fn group_keys(
    node: &Node,
    asking: &Actor,
    command: &Place,
    fields: &Value,
) -> Result<Effect, AllocError>
    ensures { IfOk result (λ effect. effect ≡ group_keys.invoked (own_rows (observation asking.now.fabric node.now.state)) asking.now command.now fields.now) }
{
    rows_stand_in_order();
    mt_groupkeys::invoke(node.alloc, &view(node), asking, command, fields)
}

// A command of On/Off or of Bench.
fn particular(node: &Node, asking: &Actor, command: &Place) -> Result<Effect, AllocError>
    ensures { IfOk result (λ effect. effect ≡ invoked (nobodys_rows (observation asking.now.fabric node.now.state)) asking.now command.now) }
{
    rows_stand_in_order();
    invoke(node.alloc, &view(node), asking, command)
}
