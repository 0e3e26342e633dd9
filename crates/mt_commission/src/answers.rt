//! What answers are made of: responses in the place of their commands, and rows of attributes on endpoint 0.

ghost use Rattle.std.specs.Prelude.{◌≡◌, IfOk, ◌∷◌, []};
ghost use Rattle.mt_tlv.specs.View.{elements};
ghost use Rattle.mt_commission.specs.Answers.{responded_with, set_breadcrumb, set_value};

use mt_meta::clusters::GENERAL_COMMISSIONING;
use mt_meta::clusters::general_commissioning::BREADCRUMB;
use mt_model::{Effect, NodeStep, Place, Reply, Steps, Values};
use mt_tlv::{Members, Tag, Value};
use std::alloc::{AllocError, Global};

/// The response of this number and of these fields, from the endpoint and the cluster of the command.
pub(crate) fn responded_with(
    command: &Place,
    response: u32,
    fields: Vec<(Tag, Value)>,
    steps: Steps,
) -> Effect
    ensures { result ≡ responded_with command.now response (elements fields.items) steps }
{
    Effect {
        reply: Reply::Invoked {
            command: Place {
                leaf: response,
                ..*command
            },
            fields: Value::Struct(Members::from_vec(fields)),
        },
        steps,
    }
}

/// An attribute on endpoint 0 has this value. Its row is nobody's.
pub(crate) fn set_value(
    alloc: Global,
    cluster: u32,
    attribute: u32,
    value: Value,
) -> Result<NodeStep, AllocError>
    ensures { IfOk result (λ step. step ≡ set_value cluster attribute value) }
{
    let mut values = Values::new(alloc);
    values.push(value)?;
    Ok(NodeStep::SetRow {
        place: Place {
            endpoint: 0,
            cluster,
            leaf: attribute,
        },
        fabric: 0,
        values,
    })
}

/// Breadcrumb has this value.
pub(crate) fn set_breadcrumb(alloc: Global, breadcrumb: u64) -> Result<NodeStep, AllocError>
    ensures { IfOk result (λ step. step ≡ set_breadcrumb breadcrumb) }
{
    set_value(
        alloc,
        GENERAL_COMMISSIONING,
        BREADCRUMB,
        Value::Uint(breadcrumb),
    )
}
