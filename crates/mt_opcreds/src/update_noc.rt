//! UpdateNOC.

ghost use Rattle.std.specs.Prelude.{◌≡◌, ◌∷◌, [], IfOk, option_copied};
ghost use Rattle.mt_model.specs.tables.Known.{known_in};
ghost use Rattle.mt_model.specs.declared.node.action.NodeStep.TheVariants.{UpdateFabric};
ghost use Rattle.mt_opcreds.specs.Judged.{judged_by};
ghost use Rattle.mt_opcreds.specs.Responses.{noc_done};
ghost use Rattle.mt_opcreds.specs.UpdateNoc.{renewed, update_judged, update_noc_effect, update_refusal};

use crate::fault::CertificateFault;
use crate::fields::{icac, noc};
use crate::finding::{credentials_at, owned};
use crate::responses::{noc_done, noc_refused};
use mt_model::{
    Actor, Credentials, Effect, JoinRow, NodeStep, Place, Status, Steps, Verdicts, View,
    is_operational,
};
use mt_tlv::{Bytes, Value};
use std::alloc::{AllocError, Global};

/// New credentials of the fabric that asks, under its own root.
#[tactic(auto, using(crate::proofs::Others::own_credentials))]
pub(crate) fn update_noc_effect<V: Verdicts>(
    alloc: Global,
    view: &View,
    actor: &Actor,
    command: &Place,
    fields: &Value,
    verdicts: &V,
) -> Result<Effect, AllocError>
    ensures { let judged = judged_by (V.roots verdicts.now) (V.csrs verdicts.now) (V.joins verdicts.now) in
        IfOk result (λ effect. effect ≡ update_noc_effect judged (known_in actor.now.fabric view.now) actor.now command.now fields.now) }
{
    let armed = match owned(view, actor.fabric) {
        Ok(armed) => armed,
        Err(status) => return Ok(Effect::refused_at(alloc, command, status)),
    };
    if armed.root.is_some() {
        return Ok(Effect::refused_at(alloc, command, Status::ConstraintError));
    }
    let Some((nonce, update)) = &armed.csr else {
        return noc_refused(alloc, command, CertificateFault::MissingCsr);
    };
    if !*update {
        return Ok(Effect::refused_at(alloc, command, Status::ConstraintError));
    }
    let Some(own) = credentials_at(view.fabrics.as_slice(), actor.fabric) else {
        return noc_refused(alloc, command, CertificateFault::InvalidNoc);
    };
    let verdict = verdicts.join(own.root.as_slice(), noc(fields), icac(fields));
    update_judged(alloc, actor.fabric, command, fields, nonce, own, verdict)
}

// By the verdict on the chain.
fn update_judged(
    alloc: Global,
    index: u8,
    command: &Place,
    fields: &Value,
    nonce: &Bytes,
    own: &Credentials,
    verdict: Option<&JoinRow>,
) -> Result<Effect, AllocError>
    ensures { IfOk result (λ effect. effect ≡ update_judged index command.now fields.now nonce.now own.now (option_copied verdict.entry)) }
{
    let Some(chain) = verdict else {
        return noc_refused(alloc, command, CertificateFault::InvalidNoc);
    };
    match update_refusal(nonce.as_slice(), own, chain) {
        Some(fault) => noc_refused(alloc, command, fault),
        None => {
            let credentials = renewed(alloc, fields, own, chain)?;
            updated(alloc, index, command, credentials)
        },
    }
}

// Why the new credentials are refused, by the verdict.
fn update_refusal(nonce: &[u8], own: &Credentials, chain: &JoinRow) -> Option<CertificateFault>
    ensures { result ≡ update_refusal nonce.now own.now chain.now }
{
    if chain.fabric_id != own.fabric_id {
        return Some(CertificateFault::InvalidNoc);
    }
    if chain.nonce.as_slice() != nonce {
        return Some(CertificateFault::InvalidPublicKey);
    }
    if !is_operational(chain.node_id) {
        return Some(CertificateFault::InvalidNodeOpId);
    }
    None
}

// The fabric's credentials with the node id of the verdict and the new certificates.
fn renewed(
    alloc: Global,
    fields: &Value,
    own: &Credentials,
    chain: &JoinRow,
) -> Result<Credentials, AllocError>
    ensures { IfOk result (λ credentials. credentials ≡ renewed fields.now own.now chain.now) }
{
    Ok(Credentials {
        root: own.root.copy()?,
        root_key: own.root_key.copy()?,
        fabric_id: own.fabric_id,
        node_id: chain.node_id,
        noc: Bytes::from_slice(alloc, noc(fields))?,
        icac: Bytes::from_slice(alloc, icac(fields))?,
        ipk: own.ipk.copy()?,
    })
}

fn updated(
    alloc: Global,
    index: u8,
    command: &Place,
    credentials: Credentials,
) -> Result<Effect, AllocError>
    ensures { IfOk result (λ effect. effect ≡ noc_done command.now index (UpdateFabric index credentials ∷ [])) }
{
    let mut steps = Steps::new(alloc);
    steps.push(NodeStep::UpdateFabric { index, credentials })?;
    noc_done(alloc, command, index, steps)
}
