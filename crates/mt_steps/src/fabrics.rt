//! What steps make of the table of fabrics, and of what follows from it.

ghost use Rattle.std.specs.Prelude.{◌≡◌, IfOk, IsTrue, OnErr, OnOk, filter, map, option_map};
ghost use Rattle.std.specs.List.{list_any};
ghost use Rattle.mt_fabrics.specs.Table.{IsTable, is_used};
ghost use Rattle.mt_failsafe.specs.Facts.{keeps_facts};
ghost use Rattle.mt_failsafe.specs.Notes.{may_note_added, with_added};
ghost use Rattle.mt_machine.specs.Effects.{is_pase, is_renewed_by, joined, labelled_in, plain_joined, session_joined, updated_in, without_fabric};
ghost use Rattle.mt_machine.specs.State as states;
ghost use Rattle.mt_steps.specs.Table.{credentials_before, index_for, left, with_joined, with_removed, with_updated};

use crate::expiry::{entries_behind, is_used};
use crate::failsafe::{note_added, note_updated};
use crate::sessions::{is_pase, plain_joined, plain_without, sessions_joined, sessions_without};
use mt_fabrics::{FabricFault, FabricTable};
use mt_failsafe::{is_armed_by, is_context, may_note_added, may_note_updated};
use mt_model::{Actor, Armed, Credentials, ExactCopy, Fabric, Fabrics, NodeState, Roots};
use mt_tlv::Bytes;
use std::alloc::{AllocError, Global};
use std::mem::replace;

/// This fabric joins the table, where that may be. Commissioning goes on for it, whoever asks over PASE has it
/// from now on, and sessions that waited for its identity may be used.
pub(crate) fn add_fabric(
    alloc: Global,
    asking: Option<Actor>,
    fabric: Fabric,
    state: &mut NodeState,
) -> Result<(), AllocError>
    requires table { IsTable state.old.fabrics }
    requires facts { IsTrue (keeps_facts state.old.armed) }
    ensures made { OnOk result (state.new ≡ joined asking fabric state.old) }
    ensures kept { OnErr result (state.new ≡ state.old) }
{
    if !may_note_added(state.armed.as_ref()) {
        return Ok(());
    }
    let joining = fabric.copy()?;
    let mut fabrics = state.fabrics.copy()?;
    match put_fabric(alloc, fabric, &mut fabrics)? {
        Some(index) => join(alloc, asking, index, &joining, fabrics, state),
        None => Ok(()),
    }
}

// Puts a fabric into the table, and answers its index; None where the table refuses it.
fn put_fabric(
    alloc: Global,
    fabric: Fabric,
    fabrics: &mut Fabrics,
) -> Result<Option<u8>, AllocError>
    requires { IsTable fabrics.old }
    ensures index { IfOk result (λ index. index ≡ index_for fabric fabrics.old) }
    ensures table { OnOk result (fabrics.new ≡ with_joined fabric fabrics.old) }
{
    let mut table = FabricTable::from_fabrics(alloc, replace(fabrics, Fabrics::new(alloc)));
    match table.add(fabric) {
        Ok(index) => {
            *fabrics = table.into_fabrics();
            Ok(Some(index))
        },
        Err(FabricFault::Memory) => Err(AllocError),
        Err(_) => {
            *fabrics = table.into_fabrics();
            Ok(None)
        },
    }
}

// What follows from a fabric that has joined under this index, in the table that is now this.
fn join(
    alloc: Global,
    asking: Option<Actor>,
    index: u8,
    fabric: &Fabric,
    fabrics: Fabrics,
    state: &mut NodeState,
) -> Result<(), AllocError>
    requires facts { IsTrue (keeps_facts state.old.armed) }
    requires may { IsTrue (may_note_added state.old.armed) }
    ensures kept { OnErr result (state.new ≡ state.old) }
    ensures made { OnOk result (state.new ≡ record state.old { fabrics = fabrics; armed = option_map (with_added index (is_pase asking)) state.old.armed; sessions = map (session_joined asking index fabric.now) state.old.sessions; plain = plain_joined asking index state.old.plain }) }
{
    let sessions = sessions_joined(alloc, asking, index, fabric, state.sessions.as_slice())?;
    note_added(index, is_pase(asking), &mut state.armed);
    state.fabrics = fabrics;
    state.sessions = sessions;
    state.plain = plain_joined(asking, index, state.plain);
    Ok(())
}

/// The fabric of this index gets these credentials, where that may be. Those that it had are saved.
pub(crate) fn update_fabric(alloc: Global, index: u8, given: Credentials, state: &mut NodeState)
    requires table { IsTable state.old.fabrics }
    requires facts { IsTrue (keeps_facts state.old.armed) }
    ensures { state.new ≡ updated_in index given state.old }
{
    if !may_note_updated(state.armed.as_ref())
        || !is_armed_by(index, state.armed.as_ref())
        || !is_renewed(index, &given, state.fabrics.as_slice())
    {
        return;
    }
    if let Some(before) = change_credentials(alloc, index, given, &mut state.fabrics) {
        note_updated(before, &mut state.armed);
    }
}

// Whether the fabric of this index has the root and the identity of these credentials.
fn is_renewed(index: u8, given: &Credentials, fabrics: &[Fabric]) -> bool
    ensures { result ≡ list_any (is_renewed_by index given.now) fabrics.now }
{
    fabrics
        .iter()
        .any(|fabric| is_renewed_by(index, given, fabric))
}

fn is_renewed_by(index: u8, given: &Credentials, fabric: &Fabric) -> bool
    ensures { result ≡ is_renewed_by index given.now fabric.now }
{
    fabric.index == index
        && fabric.credentials.root.as_slice() == given.root.as_slice()
        && fabric.has_identity(given.root_key.as_slice(), given.fabric_id)
}

// Gives a fabric of the table these credentials, and hands back those that it had; None where the table refuses.
fn change_credentials(
    alloc: Global,
    index: u8,
    given: Credentials,
    fabrics: &mut Fabrics,
) -> Option<Credentials>
    requires { IsTable fabrics.old }
    ensures before { result ≡ credentials_before index given fabrics.old }
    ensures table { fabrics.new ≡ with_updated index given fabrics.old }
{
    let mut table = FabricTable::from_fabrics(alloc, replace(fabrics, Fabrics::new(alloc)));
    match table.update(index, given) {
        Ok(before) => {
            *fabrics = table.into_fabrics();
            Some(before)
        },
        Err(_) => {
            *fabrics = table.into_fabrics();
            None
        },
    }
}

/// The fabric of this index leaves the table, with all that is its own, unless commissioning goes on for it.
pub(crate) fn remove_fabric(
    alloc: Global,
    index: u8,
    state: &mut NodeState,
) -> Result<(), AllocError>
    requires { IsTable state.old.fabrics }
    ensures made { OnOk result (state.new ≡ without_fabric index state.old) }
    ensures kept { OnErr result (state.new ≡ state.old) }
{
    if is_context(index, state.armed.as_ref()) {
        return Ok(());
    }
    let mut fabrics = state.fabrics.copy()?;
    if !take_out(alloc, index, &mut fabrics) {
        return Ok(());
    }
    leave(alloc, index, fabrics, state)
}

// Takes the fabric of this index out of the table, and answers whether there was one.
fn take_out(alloc: Global, index: u8, fabrics: &mut Fabrics) -> bool
    requires { IsTable fabrics.old }
    ensures used { result ≡ is_used index fabrics.old }
    ensures table { fabrics.new ≡ with_removed index fabrics.old }
{
    let mut table = FabricTable::from_fabrics(alloc, replace(fabrics, Fabrics::new(alloc)));
    match table.remove(index) {
        Ok(_) => {
            *fabrics = table.into_fabrics();
            true
        },
        Err(_) => {
            *fabrics = table.into_fabrics();
            false
        },
    }
}

// What follows for a fabric that has left the table, which is now this.
fn leave(
    alloc: Global,
    index: u8,
    fabrics: Fabrics,
    state: &mut NodeState,
) -> Result<(), AllocError>
    ensures made { OnOk result (state.new ≡ left index fabrics state.old) }
    ensures kept { OnErr result (state.new ≡ state.old) }
{
    let rows = state.rows.copy_without(Some(index))?;
    let entries = entries_behind(alloc, state.entries.as_slice(), Some(index))?;
    let roots = roots_in_use(
        alloc,
        fabrics.as_slice(),
        &state.armed,
        state.roots.as_slice(),
    )?;
    let sessions = sessions_without(alloc, index, state.sessions.as_slice())?;
    state.rows = rows;
    state.entries = entries;
    state.fabrics = fabrics;
    state.roots = roots;
    state.sessions = sessions;
    state.plain = plain_without(index, state.plain);
    Ok(())
}

// The roots that a fabric or commissioning uses.
fn roots_in_use(
    alloc: Global,
    fabrics: &[Fabric],
    armed: &Option<Armed>,
    roots: &[Bytes],
) -> Result<Roots, AllocError>
    ensures { IfOk result (λ used. used ≡ filter (states.is_used fabrics.now armed.now) roots.now) }
{
    let mut used = Roots::new(alloc);
    for root in roots {
        if is_in_use(fabrics, armed, root.as_slice()) {
            used.push(root.copy()?)?;
        }
    }
    Ok(used)
}

fn is_in_use(fabrics: &[Fabric], armed: &Option<Armed>, root: &[u8]) -> bool
    ensures { result ≡ states.is_used fabrics.now armed.now root.now }
{
    is_used(fabrics, root) || is_awaited_root(root, armed)
}

fn is_awaited_root(root: &[u8], armed: &Option<Armed>) -> bool
    ensures { result ≡ states.is_awaited_root root.now armed.now }
{
    match armed {
        Some(armed) => is_given_root(root, &armed.root),
        None => false,
    }
}

fn is_given_root(root: &[u8], given: &Option<Bytes>) -> bool
    ensures { result ≡ states.is_given_root root.now given.now }
{
    match given {
        Some(given) => given.as_slice() == root,
        None => false,
    }
}

/// The fabric of this index has this label, where the table takes it.
pub(crate) fn label_fabric(alloc: Global, index: u8, label: Bytes, state: &mut NodeState)
    requires { IsTable state.old.fabrics }
    ensures { state.new ≡ labelled_in index label state.old }
{
    let fabrics = replace(&mut state.fabrics, Fabrics::new(alloc));
    let mut table = FabricTable::from_fabrics(alloc, fabrics);
    match table.label(index, label) {
        Ok(()) => state.fabrics = table.into_fabrics(),
        Err(_) => state.fabrics = table.into_fabrics(),
    }
}
