//! CSRRequest.

ghost use Rattle.std.specs.Prelude.{◌≡◌, ◌∷◌, [], IfOk, option_copied};
ghost use Rattle.mt_model.specs.tables.Known.{known_in};
ghost use Rattle.mt_model.specs.texts.Config.{is_pase};
ghost use Rattle.mt_model.specs.declared.node.action.NodeStep.TheVariants.{Csr};
ghost use Rattle.mt_opcreds.specs.CsrRequest.{csr_answered, csr_request_effect, is_update_in, nonce_in};
ghost use Rattle.mt_opcreds.specs.Judged.{judged_by};

use crate::finding::owned;
use crate::responses::csr_done;
use mt_meta::{flag_of, octets_of};
use mt_model::{Actor, Auth, CsrRow, Effect, NodeStep, Place, Status, Steps, Verdicts, View};
use mt_tlv::{Bytes, Value};
use std::alloc::{AllocError, Global};

/// A signing request of the node, for a new fabric or for new credentials of the fabric that asks.
pub(crate) fn csr_request_effect<V: Verdicts>(
    alloc: Global,
    view: &View,
    actor: &Actor,
    command: &Place,
    fields: &Value,
    verdicts: &V,
) -> Result<Effect, AllocError>
    ensures { let judged = judged_by (V.roots verdicts.now) (V.csrs verdicts.now) (V.joins verdicts.now) in
        IfOk result (λ effect. effect ≡ csr_request_effect judged (known_in actor.now.fabric view.now) actor.now command.now fields.now) }
{
    if let Err(status) = owned(view, actor.fabric) {
        return Ok(Effect::refused_at(alloc, command, status));
    }
    if is_update(fields) && is_pase(actor.auth) {
        return Ok(Effect::refused_at(alloc, command, Status::InvalidCommand));
    }
    csr_answered(alloc, command, fields, verdicts.csr(nonce(fields)))
}

fn nonce(fields: &Value) -> &[u8]
    ensures { result.now ≡ nonce_in fields.now }
{
    octets_of(fields, 0)
}

fn is_update(fields: &Value) -> bool
    ensures { result ≡ is_update_in fields.now }
{
    flag_of(fields, 1)
}

fn is_pase(auth: Auth) -> bool
    ensures { result ≡ is_pase auth }
{
    match auth {
        Auth::Pase => true,
        _ => false,
    }
}

// By the verdict on the nonce.
fn csr_answered(
    alloc: Global,
    command: &Place,
    fields: &Value,
    verdict: Option<&CsrRow>,
) -> Result<Effect, AllocError>
    ensures { IfOk result (λ effect. effect ≡ csr_answered command.now fields.now (option_copied verdict.entry)) }
{
    let Some(row) = verdict else {
        return Ok(Effect::refused_at(alloc, command, Status::Failure));
    };
    let steps = csr_steps(alloc, fields)?;
    csr_done(alloc, command, &row.elements, &row.signature, steps)
}

fn csr_steps(alloc: Global, fields: &Value) -> Result<Steps, AllocError>
    ensures { IfOk result (λ steps. steps ≡ Csr (nonce_in fields.now) (is_update_in fields.now) ∷ []) }
{
    let mut steps = Steps::new(alloc);
    steps.push(NodeStep::Csr {
        nonce: Bytes::from_slice(alloc, nonce(fields))?,
        update: is_update(fields),
    })?;
    Ok(steps)
}
