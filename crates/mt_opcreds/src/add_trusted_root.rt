//! AddTrustedRootCertificate.

ghost use Rattle.std.specs.Prelude.{◌≡◌, IfOk, option_copied};
ghost use Rattle.mt_model.specs.tables.Known.{known_in};
ghost use Rattle.mt_opcreds.specs.AddTrustedRoot.{add_root_effect, root_answered};
ghost use Rattle.mt_opcreds.specs.Judged.{judged_by};

use crate::finding::owned;
use mt_meta::octets_of;
use mt_model::{Actor, Effect, NodeStep, Place, RootRow, Status, Steps, Verdicts, View};
use mt_tlv::{Bytes, Value};
use std::alloc::{AllocError, Global};

/// The root of the commissioning that goes on.
pub(crate) fn add_root_effect<V: Verdicts>(
    alloc: Global,
    view: &View,
    actor: &Actor,
    command: &Place,
    fields: &Value,
    verdicts: &V,
) -> Result<Effect, AllocError>
    ensures { let judged = judged_by (V.roots verdicts.now) (V.csrs verdicts.now) (V.joins verdicts.now) in
        IfOk result (λ effect. effect ≡ add_root_effect judged (known_in actor.now.fabric view.now) actor.now command.now fields.now) }
{
    let armed = match owned(view, actor.fabric) {
        Ok(armed) => armed,
        Err(status) => return Ok(Effect::refused_at(alloc, command, status)),
    };
    if armed.root.is_some() {
        return Ok(Effect::refused_at(alloc, command, Status::ConstraintError));
    }
    let cert = octets_of(fields, 0);
    root_answered(alloc, command, cert, verdicts.root(cert))
}

// By the verdict on the certificate.
fn root_answered(
    alloc: Global,
    command: &Place,
    cert: &[u8],
    verdict: Option<&RootRow>,
) -> Result<Effect, AllocError>
    ensures { IfOk result (λ effect. effect ≡ root_answered command.now cert.now (option_copied verdict.entry)) }
{
    if verdict.is_none() {
        return Ok(Effect::refused_at(alloc, command, Status::InvalidCommand));
    }
    let mut steps = Steps::new(alloc);
    steps.push(NodeStep::AddRoot {
        cert: Bytes::from_slice(alloc, cert)?,
    })?;
    Ok(Effect::answered_with(command, Status::Success, steps))
}
