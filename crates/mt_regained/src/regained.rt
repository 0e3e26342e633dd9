//! The state that a map stands for.

ghost use Rattle.std.specs.Prelude.{◌≡◌, IfOk, IfSome, option_copied, option_map};
ghost use Rattle.std.specs.List.{find};
ghost use Rattle.mt_model.specs.tables.Holding.{is_root_of};
ghost use Rattle.mt_machine.specs.State.{IsValid};
ghost use Rattle.mt_grammar.specs.Facts.{is_idle};
ghost use Rattle.mt_regained.specs.Regained.{given_root, state_in, state_of};

use crate::bytes::keys_are_of_bytes;
use crate::kept_rows::rows_with;
use crate::laws::states_are_regained;
use crate::opening::{first_version, versions};
use mt_durable::Durable;
use mt_grammar::{MapContents, facts_hold, kept_in};
use mt_meta::stored_places_are_those_of_the_model;
use mt_model::{Armed, ExactCopy, Fabric, NodeSessions, NodeState, Roots};
use mt_subs::Changes;
use mt_tlv::Bytes;
use std::alloc::{AllocError, Global};

/// The state that a map stands for, None exactly where it is not in the grammar of states. What is not kept of a state is
/// as on a new node, and no session is there.
pub fn state_from(alloc: Global, map: &Durable) -> Result<Option<NodeState>, AllocError>
    ensures state { IfOk result (λ state. state ≡ state_in map.now) }
    ensures valid { IfOk result (λ state. IfSome state IsValid) }
{
    states_are_regained();
    keys_are_of_bytes(map.as_slice());
    let Some(kept) = kept_in(alloc, map)? else {
        return Ok(None);
    };
    if !facts_hold(&kept) {
        return Ok(None);
    }
    Ok(Some(state_of(alloc, kept)?))
}

/// The state that what is kept stands for, which has to be valid.
pub(crate) fn state_of(alloc: Global, kept: MapContents) -> Result<NodeState, AllocError>
    requires { IsValid (state_of kept) }
    ensures { IfOk result (λ state. state ≡ state_of kept) }
{
    stored_places_are_those_of_the_model();
    let rows = rows_with(alloc, kept.rows.as_slice())?;
    let armed = with_given_root(
        kept.failsafe,
        kept.fabrics.as_slice(),
        kept.roots.as_slice(),
    )?;
    let boot = kept.boot.unwrap_or(0) as u32;
    Ok(NodeState {
        rows,
        entries: kept.entries,
        fabrics: kept.fabrics,
        roots: kept.roots,
        networks: kept.networks,
        armed,
        versions: versions(alloc, first_version(boot))?,
        changes: Changes::new(alloc)?.into_numbers(),
        changed: 0,
        sessions: NodeSessions::new(alloc),
        plain: Some(0),
        boot,
        clock: 0,
    })
}

// The fail-safe, which was given the one root that no fabric uses.
fn with_given_root(
    failsafe: Option<Armed>,
    fabrics: &[Fabric],
    roots: &[Bytes],
) -> Result<Option<Armed>, AllocError>
    ensures { IfOk result (λ armed. armed ≡ option_map (given_root fabrics.now roots.now) failsafe) }
{
    let Some(armed) = failsafe else {
        return Ok(None);
    };
    let root = match idle_root(fabrics, roots) {
        Some(root) => Some(root.copy()?),
        None => None,
    };
    Ok(Some(Armed { root, ..armed }))
}

fn idle_root<'a>(fabrics: &[Fabric], roots: &'a [Bytes]) -> Option<&'a Bytes>
    ensures { option_copied result ≡ find (is_idle fabrics.now) roots.now }
{
    for root in roots {
        if is_idle(fabrics, root) {
            return Some(root);
        }
    }
    None
}

// Whether no fabric uses a root.
fn is_idle(fabrics: &[Fabric], root: &Bytes) -> bool
    ensures { result ≡ is_idle fabrics.now root.now }
{
    for fabric in fabrics {
        if is_root_of(root, fabric) {
            return false;
        }
    }
    true
}

fn is_root_of(root: &Bytes, fabric: &Fabric) -> bool
    ensures { result ≡ is_root_of root.now fabric.now }
{
    fabric.credentials.root.as_slice() == root.as_slice()
}
