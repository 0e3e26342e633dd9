//! General Commissioning: its commands.

ghost use Rattle.std.specs.Prelude.{◌≡◌, IfOk, ◌∷◌, [], option_copied, option_map};
ghost use Rattle.mt_tlv.specs.View.{elements};
ghost use Rattle.mt_model.specs.tables.Known.{bare_armed, known_in};
ghost use Rattle.mt_commission.specs.GeneralCommissioning.{arm_fail_safe, arming, armed_effect, commissioning_complete, completed_effect, completing, error_effect, error_fields, failsafe_steps, general_commissioning_effect, regulatory_steps, renewing, seconds_of, set_regulatory_config};

use crate::answers::{responded_with, set_breadcrumb, set_value};
use crate::codes::CommissioningError;
use mt_failsafe::is_of_context;
use mt_meta::clusters::basic_information::LOCATION;
use mt_meta::clusters::general_commissioning::{
    ARM_FAIL_SAFE, ARM_FAIL_SAFE_RESPONSE, COMMISSIONING_COMPLETE, COMMISSIONING_COMPLETE_RESPONSE,
    REGULATORY_CONFIG, SET_REGULATORY_CONFIG, SET_REGULATORY_CONFIG_RESPONSE,
};
use mt_meta::clusters::{BASIC_INFORMATION, GENERAL_COMMISSIONING};
use mt_meta::{number_of, text_of};
use mt_model::{Actor, Armed, Effect, NodeStep, Place, Status, Steps, View};
use mt_tlv::{Bytes, Tag, Value};
use std::alloc::{AllocError, Global};

/// What a command comes to.
pub(crate) fn general_commissioning_effect(
    alloc: Global,
    view: &View,
    actor: &Actor,
    command: &Place,
    fields: &Value,
) -> Result<Effect, AllocError>
    ensures { IfOk result (λ effect. effect ≡ general_commissioning_effect (known_in actor.now.fabric view.now) actor.now command.now fields.now) }
{
    match command.leaf {
        ARM_FAIL_SAFE => arm_fail_safe(alloc, view, actor, command, fields),
        SET_REGULATORY_CONFIG => set_regulatory_config(alloc, command, fields),
        COMMISSIONING_COMPLETE => commissioning_complete(alloc, view, actor, command),
        _ => Ok(Effect::refused_at(alloc, command, Status::UnsupportedCommand)),
    }
}

// A response of this number and error, whose text is empty.
fn error_effect(
    alloc: Global,
    command: &Place,
    response: u32,
    error: CommissioningError,
    steps: Steps,
) -> Result<Effect, AllocError>
    ensures { IfOk result (λ effect. effect ≡ error_effect command.now response error steps) }
{
    let fields = vec![in alloc;
        (Tag::Context(0), Value::Uint(error.number() as u64)),
        (Tag::Context(1), Value::Text(Bytes::new(alloc))),
    ]?;
    Ok(responded_with(command, response, fields, steps))
}

fn arm_fail_safe(
    alloc: Global,
    view: &View,
    actor: &Actor,
    command: &Place,
    fields: &Value,
) -> Result<Effect, AllocError>
    ensures { IfOk result (λ effect. effect ≡ arm_fail_safe (known_in actor.now.fabric view.now) actor.now command.now fields.now) }
{
    match failsafe_steps(alloc, actor.fabric, seconds_of(fields), view.armed)? {
        Some(mut steps) => {
            steps.push(set_breadcrumb(alloc, number_of(fields, 1))?)?;
            error_effect(
                alloc,
                command,
                ARM_FAIL_SAFE_RESPONSE,
                CommissioningError::Ok,
                steps,
            )
        },
        None => error_effect(
            alloc,
            command,
            ARM_FAIL_SAFE_RESPONSE,
            CommissioningError::BusyWithOtherAdmin,
            Steps::new(alloc),
        ),
    }
}

// For how many seconds; more than fit into 16 bits is no form of the field.
fn seconds_of(fields: &Value) -> u16
    ensures { result ≡ seconds_of fields.now }
{
    number_of(fields, 0).min(u16::MAX as u64) as u16
}

// What becomes of the fail-safe, None where another has armed it.
fn failsafe_steps(
    alloc: Global,
    fabric: u8,
    seconds: u16,
    armed: Option<&Armed>,
) -> Result<Option<Steps>, AllocError>
    ensures { IfOk result (λ steps. steps ≡ failsafe_steps fabric seconds (option_map bare_armed (option_copied armed.entry))) }
{
    let Some(armed) = armed else {
        return Ok(Some(arming(alloc, fabric, seconds)?));
    };
    if armed.owner != fabric {
        return Ok(None);
    }
    let mut steps = Steps::new(alloc);
    steps.push(renewing(seconds))?;
    Ok(Some(steps))
}

fn arming(alloc: Global, fabric: u8, seconds: u16) -> Result<Steps, AllocError>
    ensures { IfOk result (λ steps. steps ≡ arming fabric seconds) }
{
    let mut steps = Steps::new(alloc);
    if seconds != 0 {
        steps.push(NodeStep::Arm {
            owner: fabric,
            seconds,
        })?;
    }
    Ok(steps)
}

fn renewing(seconds: u16) -> NodeStep
    ensures { result ≡ renewing seconds }
{
    if seconds == 0 {
        NodeStep::Expire
    } else {
        NodeStep::Renew { seconds }
    }
}

// The greatest regulatory config: indoor and outdoor.
const INDOOR_OUTDOOR: u64 = 2;

fn set_regulatory_config(
    alloc: Global,
    command: &Place,
    fields: &Value,
) -> Result<Effect, AllocError>
    ensures { IfOk result (λ effect. effect ≡ set_regulatory_config command.now fields.now) }
{
    if INDOOR_OUTDOOR < number_of(fields, 0) {
        return error_effect(
            alloc,
            command,
            SET_REGULATORY_CONFIG_RESPONSE,
            CommissioningError::ValueOutsideRange,
            Steps::new(alloc),
        );
    }
    error_effect(
        alloc,
        command,
        SET_REGULATORY_CONFIG_RESPONSE,
        CommissioningError::Ok,
        regulatory_steps(alloc, fields)?,
    )
}

fn regulatory_steps(alloc: Global, fields: &Value) -> Result<Steps, AllocError>
    ensures { IfOk result (λ steps. steps ≡ regulatory_steps fields.now) }
{
    let config = Value::Uint(number_of(fields, 0));
    let country = Value::Text(Bytes::from_slice(alloc, text_of(fields, 1))?);
    let steps = vec![in alloc;
        set_value(alloc, GENERAL_COMMISSIONING, REGULATORY_CONFIG, config)?,
        set_value(alloc, BASIC_INFORMATION, LOCATION, country)?,
        set_breadcrumb(alloc, number_of(fields, 2))?,
    ]?;
    Ok(Steps::from_vec(steps))
}

fn commissioning_complete(
    alloc: Global,
    view: &View,
    actor: &Actor,
    command: &Place,
) -> Result<Effect, AllocError>
    ensures { IfOk result (λ effect. effect ≡ commissioning_complete (known_in actor.now.fabric view.now) actor.now command.now) }
{
    let error = completing(actor, view.armed);
    let mut steps = Steps::new(alloc);
    if error == CommissioningError::Ok {
        steps.push(NodeStep::Complete)?;
        steps.push(set_breadcrumb(alloc, 0)?)?;
    }
    error_effect(
        alloc,
        command,
        COMMISSIONING_COMPLETE_RESPONSE,
        error,
        steps,
    )
}

// Whether commissioning may complete, or what stands in its way.
fn completing(actor: &Actor, armed: Option<&Armed>) -> CommissioningError
    ensures { result ≡ completing actor.now (option_map bare_armed (option_copied armed.entry)) }
{
    match armed {
        None => CommissioningError::NoFailSafe,
        Some(armed) if is_of_context(actor, armed) => CommissioningError::Ok,
        Some(_) => CommissioningError::InvalidAuthentication,
    }
}
