//! The state in which a boot begins: of a new node, and of one of which something was kept.

ghost use Rattle.std.specs.Prelude.{◌≡◌, ◌==◌, ◌++◌, [], bytes_eq, map, IfOk, IfSome, OnOk};
ghost use Rattle.std.specs.List.{find, list_any};
ghost use Rattle.mt_machine.specs.Opened.{begun_with, first_version, live_or_waits, opened_with, session_of, sessions_of, standing_of, versions_at, versions_of_endpoint, with_roots_of};
ghost use Rattle.mt_machine.specs.Effects.{with_root};
ghost use Rattle.mt_regained.specs.Begun.{IsValidWhereRolled, next_boot};
ghost use Rattle.mt_model.specs.texts.Config.{has_identity};

use crate::regained::state_from;
use mt_durable::Durable;
use mt_machine::states_are_valid;
use mt_meta::{clusters_of, endpoints, first_rows};
use mt_model::limits::VERSIONS_OF_BOOT;
use mt_model::{
    Auth, Config, ExactCopy, Fabric, Listed, NodeSession, NodeSessions, NodeState, Roots,
    SessionRow, Standing, Version, Versions,
};
use mt_subs::Changes;
use mt_tlv::Bytes;
use std::alloc::{AllocError, Global};

/// A boot of a new node with this configuration.
pub(crate) fn opened(alloc: Global, boot: u32, config: &Config) -> Result<NodeState, AllocError>
    ensures { IfOk result (λ state. state ≡ opened_with boot config.now.fabrics config.now.entries config.now.sessions) }
{
    let fabrics = config.fabrics.as_slice();
    Ok(NodeState {
        rows: first_rows(alloc)?,
        entries: config.entries.copy()?,
        fabrics: config.fabrics.copy()?,
        roots: roots(alloc, fabrics)?,
        networks: Listed::new(alloc),
        armed: None,
        versions: versions(alloc, first_version(boot))?,
        changes: Changes::new(alloc)?.into_numbers(),
        changed: 0,
        sessions: sessions(alloc, boot, fabrics, config.sessions.as_slice())?,
        plain: Some(0),
        boot,
        clock: 0,
    })
}

/// The version of every cluster as a boot begins.
pub(crate) fn first_version(boot: u32) -> u32
    ensures { result ≡ first_version boot }
{
    let before = boot.saturating_sub(1) as u64;
    let version = before * VERSIONS_OF_BOOT as u64 + 1;
    (version % 0x1_0000_0000) as u32
}

/// A boot of a node of which this was kept: rows, entries, fabrics, roots and networks stay, in the same memory, and all
/// else begins anew.
pub(crate) fn begun_with(
    alloc: Global,
    boot: u32,
    rows: &[SessionRow],
    kept: NodeState,
) -> Result<NodeState, AllocError>
    ensures { IfOk result (λ state. state ≡ begun_with boot rows.now kept) }
{
    let versions = versions(alloc, first_version(boot))?;
    let changes = Changes::new(alloc)?.into_numbers();
    let sessions = sessions(alloc, boot, kept.fabrics.as_slice(), rows)?;
    let mut state = kept;
    state.versions = versions;
    state.changes = changes;
    state.changed = 0;
    state.sessions = sessions;
    state.plain = Some(0);
    state.boot = boot;
    state.clock = 0;
    Ok(state)
}

/// The state in which the boot behind a map begins, where that is rolled back; None exactly where it is not in the grammar
/// of states. The empty map is that of a node that has never started, with the fabrics and entries of its configuration.
/// The state is valid, where no fail-safe is armed in the map and 2^31 boots are not behind it.
pub fn next_boot(
    alloc: Global,
    config: &Config,
    map: &Durable,
) -> Result<Option<NodeState>, AllocError>
    ensures state { IfOk result (λ state. state ≡ next_boot config.now map.now) }
    ensures valid { IfOk result (λ state. IfSome state IsValidWhereRolled) }
{
    states_are_valid();
    if map.as_slice().is_empty() {
        return Ok(Some(opened(alloc, 1, config)?));
    }
    let Some(kept) = state_from(alloc, map)? else {
        return Ok(None);
    };
    let boot = kept.boot + 1;
    Ok(Some(begun_with(alloc, boot, config.sessions.as_slice(), kept)?))
}

// All clusters of all endpoints, each with this version.
pub(crate) fn versions(alloc: Global, version: u32) -> Result<Versions, AllocError>
    ensures { IfOk result (λ versions. versions ≡ versions_at version) }
{
    let all = endpoints();
    let mut versions = Vec::new(alloc);
    for endpoint in all {
        push_versions(version, *endpoint, &mut versions)?;
    }
    Ok(Listed::from_vec(versions))
}

fn push_versions(version: u32, endpoint: u16, versions: &mut Vec<Version>) -> Result<(), AllocError>
    ensures { OnOk result (versions.new.items ≡ versions.old.items ++ versions_of_endpoint version endpoint) }
{
    let clusters = clusters_of(endpoint);
    for cluster in clusters {
        versions.push(Version {
            endpoint,
            cluster: *cluster,
            version,
        })?;
    }
    Ok(())
}

// The root certificates of fabrics, each once.
fn roots(alloc: Global, fabrics: &[Fabric]) -> Result<Roots, AllocError>
    ensures { IfOk result (λ roots. roots ≡ with_roots_of [] fabrics.now) }
{
    let mut roots = Roots::new(alloc);
    for fabric in fabrics {
        push_root(&fabric.credentials.root, &mut roots)?;
    }
    Ok(roots)
}

fn push_root(root: &Bytes, roots: &mut Roots) -> Result<(), AllocError>
    ensures { OnOk result (roots.new ≡ with_root roots.old root.now) }
{
    if !has_root(roots.as_slice(), root) {
        roots.push(root.copy()?)?;
    }
    Ok(())
}

fn has_root(roots: &[Bytes], root: &Bytes) -> bool
    ensures { result ≡ list_any (bytes_eq root.now) roots.now }
{
    roots
        .iter()
        .any(|other| is_same(root.as_slice(), other.as_slice()))
}

fn is_same(bytes: &[u8], other: &[u8]) -> bool
    ensures { result ≡ bytes_eq bytes.now other.now }
{
    bytes == other
}

// The sessions of a boot.
fn sessions(
    alloc: Global,
    boot: u32,
    fabrics: &[Fabric],
    rows: &[SessionRow],
) -> Result<NodeSessions, AllocError>
    ensures { IfOk result (λ sessions. sessions ≡ sessions_of boot fabrics.now rows.now) }
{
    let mut sessions = NodeSessions::new(alloc);
    for row in rows {
        if row.boot == boot {
            sessions.push(session(fabrics, row)?)?;
        }
    }
    Ok(sessions)
}

fn session(fabrics: &[Fabric], row: &SessionRow) -> Result<NodeSession, AllocError>
    ensures { IfOk result (λ session. session ≡ session_of fabrics.now row.now) }
{
    Ok(NodeSession {
        session: row.session,
        auth: row.auth,
        root_key: row.root_key.copy()?,
        fabric_id: row.fabric_id,
        peer_node: row.peer_node,
        cats: row.cats,
        standing: standing(fabrics, row),
    })
}

// A session of PASE may be used at once. One of CASE may where its fabric is in the table.
fn standing(fabrics: &[Fabric], row: &SessionRow) -> Standing
    ensures { result ≡ standing_of fabrics.now row.now row.now.auth }
{
    match row.auth {
        Auth::Pase => Standing::Live(0),
        Auth::Case => live_or_waits(fabrics, row.root_key.as_slice(), row.fabric_id),
        Auth::Group => live_or_waits(fabrics, row.root_key.as_slice(), row.fabric_id),
    }
}

fn live_or_waits(fabrics: &[Fabric], root_key: &[u8], fabric_id: u64) -> Standing
    ensures { result ≡ live_or_waits (find (has_identity root_key.now fabric_id) fabrics.now) }
{
    for fabric in fabrics {
        if has_identity(root_key, fabric_id, fabric) {
            return Standing::Live(fabric.index);
        }
    }
    Standing::Waits
}

fn has_identity(root_key: &[u8], fabric_id: u64, fabric: &Fabric) -> bool
    ensures { result ≡ has_identity root_key.now fabric_id fabric.now }
{
    is_same(fabric.credentials.root_key.as_slice(), root_key)
        && fabric.credentials.fabric_id == fabric_id
}
