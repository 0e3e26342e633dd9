//! What steps make of the fail-safe, and of what is done under it but for the table of fabrics.

ghost use Rattle.std.specs.Prelude.{◌≡◌, IsTrue, OnErr, OnOk, bytes_eq, option_map};
ghost use Rattle.std.specs.List.{list_any};
ghost use Rattle.mt_failsafe.specs.Calls.{renewed};
ghost use Rattle.mt_failsafe.specs.Facts.{keeps_facts};
ghost use Rattle.mt_failsafe.specs.Notes.{may_note_added, may_note_csr, may_note_root, may_note_updated, with_added, with_updated};
ghost use Rattle.mt_failsafe.specs.Notes as notes;
ghost use Rattle.mt_machine.specs.Effects.{armed_behind, completed, trusting, with_request, with_root};

use crate::expiry::roots_behind;
use crate::sessions::{plain_without, sessions_completed};
use mt_failsafe::{Failsafe, Saved, may_note_csr, may_note_root};
use mt_model::{Armed, Credentials, ExactCopy, NodeState, Roots};
use mt_tlv::Bytes;
use std::alloc::{AllocError, Global};

/// Arms it for this owner, from the state's time on, for so many seconds, where nobody has armed it. The networks
/// are saved.
pub(crate) fn arm(
    alloc: Global,
    owner: u8,
    seconds: u16,
    state: &mut NodeState,
) -> Result<(), AllocError>
    ensures made { OnOk result (state.new ≡ record state.old { armed = armed_behind owner state.old.clock seconds state.old.networks state.old.armed }) }
    ensures kept { OnErr result (state.new ≡ state.old) }
{
    if state.armed.is_some() {
        return Ok(());
    }
    let saved = Saved {
        networks: state.networks.copy()?,
    };
    let mut failsafe = Failsafe::new(alloc);
    // Nobody has armed it.
    let Ok(()) = failsafe.arm(owner, state.clock, seconds, saved) else {
        unreachable!()
    };
    state.armed = failsafe.into_armed();
    Ok(())
}

/// Lets it last from now on, in ms, for so many seconds, where it is armed.
pub(crate) fn renew(now: u64, seconds: u16, armed: &mut Option<Armed>)
    requires { IsTrue (keeps_facts armed.old) }
    ensures { armed.new ≡ option_map (renewed now seconds) armed.old }
{
    let Some(there) = armed.as_ref() else {
        return;
    };
    let owner = there.owner;
    let mut failsafe = Failsafe::from_armed(armed.take());
    // It is armed by this owner.
    let Ok(()) = failsafe.renew(owner, now, seconds) else {
        unreachable!()
    };
    *armed = failsafe.into_armed();
}

/// Ends it, where it is armed: what was done under it stays, sessions of PASE that have the fabric for which
/// commissioning went on end, and roots that no fabric uses go.
pub(crate) fn complete(alloc: Global, state: &mut NodeState) -> Result<(), AllocError>
    ensures made { OnOk result (state.new ≡ completed state.old.armed state.old) }
    ensures kept { OnErr result (state.new ≡ state.old) }
{
    let Some(armed) = &state.armed else {
        return Ok(());
    };
    let context = armed.context;
    let roots = roots_behind(alloc, state.fabrics.as_slice(), state.roots.as_slice())?;
    let sessions = sessions_completed(alloc, context, state.sessions.as_slice())?;
    state.roots = roots;
    state.sessions = sessions;
    state.plain = plain_without(context, state.plain);
    state.armed = None;
    Ok(())
}

/// Trusts this root certificate, and notes it, where that may be.
pub(crate) fn trust(cert: Bytes, state: &mut NodeState) -> Result<(), AllocError>
    requires { IsTrue (keeps_facts state.old.armed) }
    ensures made { OnOk result (state.new ≡ trusting cert state.old) }
    ensures kept { OnErr result (state.new ≡ state.old) }
{
    if !may_note_root(state.armed.as_ref()) {
        return Ok(());
    }
    add_root(&cert, &mut state.roots)?;
    note_root(cert, &mut state.armed);
    Ok(())
}

fn add_root(root: &Bytes, roots: &mut Roots) -> Result<(), AllocError>
    ensures roots { OnOk result (roots.new ≡ with_root roots.old root.now) }
    ensures kept { OnErr result (roots.new ≡ roots.old) }
{
    if is_root_among(root.as_slice(), roots.as_slice()) {
        return Ok(());
    }
    roots.push(root.copy()?)
}

fn is_root_among(root: &[u8], roots: &[Bytes]) -> bool
    ensures { result ≡ list_any (bytes_eq root.now) roots.now }
{
    roots.iter().any(|other| is_same(root, other))
}

fn is_same(bytes: &[u8], other: &Bytes) -> bool
    ensures { result ≡ bytes_eq bytes.now other.now }
{
    bytes == other.as_slice()
}

fn note_root(cert: Bytes, armed: &mut Option<Armed>)
    requires facts { IsTrue (keeps_facts armed.old) }
    requires may { IsTrue (may_note_root armed.old) }
    ensures { armed.new ≡ option_map (notes.with_root cert) armed.old }
{
    let mut failsafe = Failsafe::from_armed(armed.take());
    failsafe.note_root(cert);
    *armed = failsafe.into_armed();
}

/// Notes that a signing request of this nonce was answered, where that may be.
pub(crate) fn request(nonce: Bytes, update: bool, state: &mut NodeState)
    requires { IsTrue (keeps_facts state.old.armed) }
    ensures { state.new ≡ with_request nonce update state.old }
{
    if may_note_csr(update, state.armed.as_ref()) {
        note_csr(nonce, update, &mut state.armed);
    }
}

fn note_csr(nonce: Bytes, update: bool, armed: &mut Option<Armed>)
    requires facts { IsTrue (keeps_facts armed.old) }
    requires may { IsTrue (may_note_csr update armed.old) }
    ensures { armed.new ≡ option_map (notes.with_csr nonce update) armed.old }
{
    let mut failsafe = Failsafe::from_armed(armed.take());
    failsafe.note_csr(nonce, update);
    *armed = failsafe.into_armed();
}

/// Notes the fabric that was added, and whether over PASE.
pub(crate) fn note_added(index: u8, pase: bool, armed: &mut Option<Armed>)
    requires facts { IsTrue (keeps_facts armed.old) }
    requires may { IsTrue (may_note_added armed.old) }
    ensures { armed.new ≡ option_map (with_added index pase) armed.old }
{
    let mut failsafe = Failsafe::from_armed(armed.take());
    failsafe.note_added(index, pase);
    *armed = failsafe.into_armed();
}

/// Notes that its owner got new credentials in the place of these.
pub(crate) fn note_updated(before: Credentials, armed: &mut Option<Armed>)
    requires facts { IsTrue (keeps_facts armed.old) }
    requires may { IsTrue (may_note_updated armed.old) }
    ensures { armed.new ≡ option_map (with_updated before) armed.old }
{
    let mut failsafe = Failsafe::from_armed(armed.take());
    failsafe.note_updated(before);
    *armed = failsafe.into_armed();
}
