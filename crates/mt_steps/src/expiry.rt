//! What an expiry of the fail-safe makes of a state: the state behind it is made whole, beside the one that stands.

ghost use Rattle.std.specs.Prelude.{◌≡◌, ◌∷◌, [], IfOk, OnErr, OnOk, filter, map};
ghost use Rattle.std.specs.List.{list_any};
ghost use Rattle.mt_tlv.specs.declared.value.Value.TheVariants.{Uint};
ghost use Rattle.mt_failsafe.specs.Calls.{undo_of};
ghost use Rattle.mt_model.specs.rows.Setting.{with_rows};
ghost use Rattle.mt_model.specs.tables.Leaving.{stays};
ghost use Rattle.mt_model.specs.declared.rows.place.Row.{Row};
ghost use Rattle.mt_model.specs.declared.tables.access.AclEntry.{AclEntry};
ghost use Rattle.mt_model.specs.declared.tables.fabric.Fabric.{Fabric};
ghost use Rattle.mt_machine.specs.Rollback.{breadcrumb, ends, rollback, roots_behind, session_behind, undone, without_breadcrumb};
ghost use Rattle.mt_machine.specs.State.{IsValid};
ghost use Rattle.mt_model.specs.tables.Holding.{is_root_of};
ghost use Rattle.mt_steps.specs.Expired.{given_by};

use crate::values::set_row;
use mt_failsafe::{Failsafe, Undo};
use mt_meta::clusters::GENERAL_COMMISSIONING;
use mt_model::{
    AclEntries, AclEntry, Armed, Auth, Credentials, ExactCopy, Fabric, Fabrics, NodeSession,
    NodeSessions, NodeState, Place, Roots, Standing, StoredRows, Values, stays,
};
use mt_tlv::{Bytes, Value};
use std::alloc::{AllocError, Global};

// Breadcrumb of General Commissioning.
const BREADCRUMB: Place = Place {
    endpoint: 0,
    cluster: GENERAL_COMMISSIONING,
    leaf: 0,
};

/// The state without what was done under the fail-safe, as it is where that is not armed. It takes memory for the
/// whole state, which is made beside the one that stands (Matter Core Specification, chapter 11, General
/// Commissioning Cluster).
pub fn rolled_back(alloc: Global, state: &NodeState) -> Result<NodeState, AllocError>
    requires { IsValid state.now }
    ensures { IfOk result (λ behind. behind ≡ rollback state.now) }
{
    let Some(armed) = &state.armed else {
        return state.copy();
    };
    let mut failsafe = Failsafe::from_armed(Some(armed.copy()?));
    // It is armed.
    let Some(undo) = failsafe.expire() else {
        return state.copy();
    };
    taken_back(alloc, state, armed, undo)
}

/// The fail-safe expires: what was done under it is taken back.
pub(crate) fn expire(alloc: Global, state: &mut NodeState) -> Result<(), AllocError>
    requires { IsValid state.old }
    ensures made { OnOk result (state.new ≡ rollback state.old) }
    ensures kept { OnErr result (state.new ≡ state.old) }
{
    *state = rolled_back(alloc, state)?;
    Ok(())
}

fn taken_back(
    alloc: Global,
    state: &NodeState,
    armed: &Armed,
    undo: Undo,
) -> Result<NodeState, AllocError>
    requires { undo ≡ undo_of armed.now }
    ensures { IfOk result (λ behind. behind ≡ without_breadcrumb (undone armed.now state.now)) }
{
    let Undo {
        added,
        updated,
        networks,
    } = undo;
    let rows = rows_behind(alloc, &state.rows, added)?;
    let entries = entries_behind(alloc, state.entries.as_slice(), added)?;
    let fabrics = fabrics_behind(alloc, state.fabrics.as_slice(), added, &updated)?;
    let roots = roots_behind(alloc, fabrics.as_slice(), state.roots.as_slice())?;
    let sessions = sessions_behind(alloc, armed, state.sessions.as_slice())?;
    let versions = state.versions.copy()?;
    let changes = state.changes.copy()?;
    Ok(NodeState {
        rows,
        entries,
        fabrics,
        roots,
        networks,
        armed: None,
        versions,
        changes,
        changed: state.changed,
        sessions,
        plain: None,
        boot: state.boot,
        clock: state.clock,
    })
}

// The rows that stay, with Breadcrumb at 0.
fn rows_behind(
    alloc: Global,
    rows: &StoredRows,
    added: Option<u8>,
) -> Result<StoredRows, AllocError>
    ensures { IfOk result (λ behind. behind ≡ with_rows breadcrumb 0 (Uint 0 ∷ []) (filter (λ (row : Row). stays added row.fabric) rows.now)) }
{
    let mut behind = rows.copy_without(added)?;
    let mut values = Values::new(alloc);
    values.push(Value::Uint(0))?;
    set_row(alloc, &BREADCRUMB, 0, values, &mut behind)?;
    Ok(behind)
}

pub(crate) fn entries_behind(
    alloc: Global,
    entries: &[AclEntry],
    added: Option<u8>,
) -> Result<AclEntries, AllocError>
    ensures { IfOk result (λ behind. behind ≡ filter (λ (entry : AclEntry). stays added entry.fabric) entries.now) }
{
    let mut behind = AclEntries::new(alloc);
    for entry in entries {
        if stays(added, entry.fabric) {
            behind.push(entry.copy()?)?;
        }
    }
    Ok(behind)
}

// The fabrics that stay; the one that was updated has the credentials that it had.
fn fabrics_behind(
    alloc: Global,
    fabrics: &[Fabric],
    added: Option<u8>,
    updated: &Option<(u8, Credentials)>,
) -> Result<Fabrics, AllocError>
    ensures { IfOk result (λ behind. behind ≡ map (given_by updated.now) (filter (λ (fabric : Fabric). stays added fabric.index) fabrics.now)) }
{
    let mut behind = Fabrics::new(alloc);
    for fabric in fabrics {
        if stays(added, fabric.index) {
            behind.push(fabric_behind(fabric, updated)?)?;
        }
    }
    Ok(behind)
}

fn fabric_behind(fabric: &Fabric, updated: &Option<(u8, Credentials)>) -> Result<Fabric, AllocError>
    ensures { IfOk result (λ behind. behind ≡ given_by updated.now fabric.now) }
{
    match updated {
        Some((index, credentials)) if fabric.index == *index => with_credentials(
            fabric,
            credentials,
        ),
        _ => fabric.copy(),
    }
}

fn with_credentials(fabric: &Fabric, credentials: &Credentials) -> Result<Fabric, AllocError>
    ensures { IfOk result (λ behind. behind ≡ record fabric.now { credentials = credentials.now }) }
{
    Ok(Fabric {
        index: fabric.index,
        credentials: credentials.copy()?,
        vendor: fabric.vendor,
        label: fabric.label.copy()?,
    })
}

// The roots that a fabric uses.
pub(crate) fn roots_behind(
    alloc: Global,
    fabrics: &[Fabric],
    roots: &[Bytes],
) -> Result<Roots, AllocError>
    ensures { IfOk result (λ behind. behind ≡ roots_behind fabrics.now roots.now) }
{
    let mut behind = Roots::new(alloc);
    for root in roots {
        if is_used(fabrics, root.as_slice()) {
            behind.push(root.copy()?)?;
        }
    }
    Ok(behind)
}

pub(crate) fn is_used(fabrics: &[Fabric], root: &[u8]) -> bool
    ensures { result ≡ list_any (is_root_of root.now) fabrics.now }
{
    fabrics.iter().any(|fabric| is_root_of(root, fabric))
}

fn is_root_of(root: &[u8], fabric: &Fabric) -> bool
    ensures { result ≡ is_root_of root.now fabric.now }
{
    fabric.credentials.root.as_slice() == root
}

fn sessions_behind(
    alloc: Global,
    armed: &Armed,
    sessions: &[NodeSession],
) -> Result<NodeSessions, AllocError>
    ensures { IfOk result (λ behind. behind ≡ map (session_behind armed.now) sessions.now) }
{
    let mut behind = NodeSessions::new(alloc);
    for session in sessions {
        behind.push(session_behind(armed, session)?)?;
    }
    Ok(behind)
}

fn session_behind(armed: &Armed, session: &NodeSession) -> Result<NodeSession, AllocError>
    ensures { IfOk result (λ behind. behind ≡ session_behind armed.now session.now) }
{
    let mut behind = session.copy()?;
    if ends(armed, session.auth, session.standing) {
        behind.standing = Standing::Ended;
    }
    Ok(behind)
}

// Whether a session ends: each of PASE, and where a fabric was added or updated those of CASE of the fabric for which
// commissioning went on.
fn ends(armed: &Armed, auth: Auth, standing: Standing) -> bool
    ensures { result ≡ ends armed.now auth standing }
{
    match (auth, standing) {
        (Auth::Pase, _) => true,
        (_, Standing::Live(fabric)) => {
            fabric == armed.context && (armed.added.is_some() || armed.updated.is_some())
        },
        _ => false,
    }
}
