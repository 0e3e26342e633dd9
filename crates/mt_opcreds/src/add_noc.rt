//! AddNOC.

ghost use Rattle.std.specs.Prelude.{◌≡◌, ◌<◌, ◌∷◌, [], IfOk, None, length, option_copied};
ghost use Rattle.mt_fabrics.specs.Table.{least_unused};
ghost use Rattle.mt_model.specs.tables.Known.{known_in};
ghost use Rattle.mt_opcreds.specs.AddNoc.{add_judged, add_noc_effect, add_refusal, added_steps, first_entry, new_credentials, new_fabric, subject_in};
ghost use Rattle.mt_opcreds.specs.Judged.{judged_by};
ghost use Rattle.mt_opcreds.specs.Responses.{noc_done};

use crate::fault::CertificateFault;
use crate::fields::{icac, noc, short};
use crate::finding::owned;
use crate::responses::{noc_done, noc_refused};
use mt_acl::may_be_subject;
use mt_fabrics::{is_identity_used, least_unused};
use mt_failsafe::is_for_update;
use mt_meta::{number_of, octets_of};
use mt_model::limits::FABRICS;
use mt_model::{
    AclEntries, AclEntry, Actor, Auth, Credentials, Effect, Fabric, JoinRow, NodeStep, Place,
    Privilege, RootRow, Status, Steps, Subjects, Targets, Verdicts, View, is_operational,
};
use mt_tlv::{Bytes, Value};
use std::alloc::{AllocError, Global};

/// A new fabric, with its first access control entry.
#[tactic(auto, using(crate::proofs::Others::others_judged))]
pub(crate) fn add_noc_effect<V: Verdicts>(
    alloc: Global,
    view: &View,
    actor: &Actor,
    command: &Place,
    fields: &Value,
    verdicts: &V,
) -> Result<Effect, AllocError>
    ensures { let judged = judged_by (V.roots verdicts.now) (V.csrs verdicts.now) (V.joins verdicts.now) in
        IfOk result (λ effect. effect ≡ add_noc_effect judged (known_in actor.now.fabric view.now) actor.now command.now fields.now) }
{
    let armed = match owned(view, actor.fabric) {
        Ok(armed) => armed,
        Err(status) => return Ok(Effect::refused_at(alloc, command, status)),
    };
    if is_for_update(armed) {
        return Ok(Effect::refused_at(alloc, command, Status::ConstraintError));
    }
    let Some((nonce, _)) = &armed.csr else {
        return noc_refused(alloc, command, CertificateFault::MissingCsr);
    };
    let Some(root) = &armed.root else {
        return noc_refused(alloc, command, CertificateFault::InvalidNoc);
    };
    let judged_root = verdicts.root(root.as_slice());
    let chain = verdicts.join(root.as_slice(), noc(fields), icac(fields));
    add_judged(
        alloc,
        view.fabrics.as_slice(),
        command,
        fields,
        nonce,
        root,
        judged_root,
        chain,
    )
}

// By the verdicts on the root certificate and on the chain.
fn add_judged(
    alloc: Global,
    fabrics: &[Fabric],
    command: &Place,
    fields: &Value,
    nonce: &Bytes,
    root: &Bytes,
    judged_root: Option<&RootRow>,
    chain: Option<&JoinRow>,
) -> Result<Effect, AllocError>
    ensures { IfOk result (λ effect. effect ≡ add_judged fabrics.now command.now fields.now nonce.now root.now (option_copied judged_root.entry) (option_copied chain.entry)) }
{
    let (Some(judged_root), Some(chain)) = (judged_root, chain) else {
        return noc_refused(alloc, command, CertificateFault::InvalidNoc);
    };
    match add_refusal(fabrics, fields, nonce.as_slice(), judged_root, chain) {
        Some(fault) => noc_refused(alloc, command, fault),
        None => {
            let credentials = new_credentials(alloc, fields, root, judged_root, chain)?;
            added(alloc, fabrics, command, fields, credentials)
        },
    }
}

// Why the new fabric is refused, by the verdicts.
fn add_refusal(
    fabrics: &[Fabric],
    fields: &Value,
    nonce: &[u8],
    judged_root: &RootRow,
    chain: &JoinRow,
) -> Option<CertificateFault>
    ensures first { result ≡ add_refusal fabrics.now fields.now nonce.now judged_root.now chain.now }
    ensures room { result ≡ None → length fabrics.now < 16 }
{
    if chain.nonce.as_slice() != nonce {
        return Some(CertificateFault::InvalidPublicKey);
    }
    if !is_operational(chain.node_id) {
        return Some(CertificateFault::InvalidNodeOpId);
    }
    if !may_be_subject(Auth::Case, subject(fields)) {
        return Some(CertificateFault::InvalidAdminSubject);
    }
    if is_identity_used(fabrics, judged_root.key.as_slice(), chain.fabric_id) {
        return Some(CertificateFault::FabricConflict);
    }
    if fabrics.len() >= FABRICS {
        return Some(CertificateFault::TableFull);
    }
    None
}

fn subject(fields: &Value) -> u64
    ensures { result ≡ subject_in fields.now }
{
    number_of(fields, 3)
}

// The credentials under the root certificate, by the verdicts on it and on the chain.
fn new_credentials(
    alloc: Global,
    fields: &Value,
    root: &Bytes,
    judged_root: &RootRow,
    chain: &JoinRow,
) -> Result<Credentials, AllocError>
    ensures { IfOk result (λ credentials. credentials ≡ new_credentials fields.now root.now judged_root.now chain.now) }
{
    Ok(Credentials {
        root: root.copy()?,
        root_key: judged_root.key.copy()?,
        fabric_id: chain.fabric_id,
        node_id: chain.node_id,
        noc: Bytes::from_slice(alloc, noc(fields))?,
        icac: Bytes::from_slice(alloc, icac(fields))?,
        ipk: Bytes::from_slice(alloc, octets_of(fields, 2))?,
    })
}

// The fabric joins under the least index that no other has.
fn added(
    alloc: Global,
    fabrics: &[Fabric],
    command: &Place,
    fields: &Value,
    credentials: Credentials,
) -> Result<Effect, AllocError>
    requires { length fabrics.now < 16 }
    ensures { IfOk result (λ effect. effect ≡ noc_done command.now (least_unused fabrics.now) (added_steps (least_unused fabrics.now) fields.now credentials)) }
{
    let index = least_unused(fabrics);
    let steps = added_steps(alloc, index, fields, credentials)?;
    noc_done(alloc, command, index, steps)
}

fn added_steps(
    alloc: Global,
    index: u8,
    fields: &Value,
    credentials: Credentials,
) -> Result<Steps, AllocError>
    ensures { IfOk result (λ steps. steps ≡ added_steps index fields.now credentials) }
{
    let entries = first_entries(alloc, index, subject(fields))?;
    let mut steps = Steps::new(alloc);
    steps.push(NodeStep::AddFabric {
        fabric: new_fabric(alloc, index, fields, credentials),
    })?;
    steps.push(NodeStep::SetEntries {
        fabric: index,
        entries,
    })?;
    Ok(steps)
}

fn new_fabric(alloc: Global, index: u8, fields: &Value, credentials: Credentials) -> Fabric
    ensures { result ≡ new_fabric index fields.now credentials }
{
    Fabric {
        index,
        credentials,
        vendor: short(fields, 4),
        label: Bytes::new(alloc),
    }
}

// The subject administers all of the node over CASE.
fn first_entries(alloc: Global, index: u8, subject: u64) -> Result<AclEntries, AllocError>
    ensures { IfOk result (λ entries. entries ≡ first_entry index subject ∷ []) }
{
    let mut subjects = Subjects::new(alloc);
    subjects.push(subject)?;
    let mut entries = AclEntries::new(alloc);
    entries.push(AclEntry {
        privilege: Privilege::Administer,
        auth: Auth::Case,
        subjects,
        targets: Targets::new(alloc),
        fabric: index,
    })?;
    Ok(entries)
}
