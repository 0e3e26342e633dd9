//! Whether the own part of two states is the same.

ghost use Rattle.std.specs.Prelude.{◌≡◌, ◌↔◌, IsTrue, filter, option_copied};
ghost use Rattle.mt_fabrics.specs.Table.{has_index};
ghost use Rattle.mt_runs.specs.mt_machine.Isolation.{own, saved_for};
ghost use Rattle.mt_runs.specs.mt_machine.State.{IsValid};
ghost use Rattle.mt_model.specs.Optional.{is_that};
ghost use Rattle.mt_model.specs.rows.Seen.{own_entries};
ghost use Rattle.mt_model.specs.declared.node.state.NodeSession.{NodeSession};
ghost use Rattle.mt_subs.specs.Leaving.{is_live_as};

use crate::laws::rows_stand_at_stored_places;
use crate::own::owned::are_own_same;
use crate::own::rows::are_rows_same;
use mt_model::{AclEntries, Armed, Credentials, Fabrics, NodeSessions, NodeState};
use mt_same::Same;

/// Whether a fabric's own part is the same in two states, which are valid: its rows, its access control entries, its
/// credentials, those that an expiry of the fail-safe gives back to it, its live sessions, and whether the plain PASE session
/// is its own. It takes no memory.
pub fn is_own_same(fabric: u8, one: &NodeState, other: &NodeState) -> bool
    requires one { IsValid one.now }
    requires other { IsValid other.now }
    ensures { IsTrue result ↔ (own fabric one.now ≡ own fabric other.now) }
{
    rows_stand_at_stored_places();
    if !are_rows_same(fabric, &one.rows, &other.rows) {
        return false;
    }
    if !are_entries_same(fabric, &one.entries, &other.entries) {
        return false;
    }
    if !are_fabrics_same(fabric, &one.fabrics, &other.fabrics) {
        return false;
    }
    if !are_saved_same(fabric, &one.armed, &other.armed) {
        return false;
    }
    if !are_sessions_same(fabric, &one.sessions, &other.sessions) {
        return false;
    }
    is_plain_same(fabric, one.plain, other.plain)
}

fn are_entries_same(fabric: u8, one: &AclEntries, other: &AclEntries) -> bool
    ensures { IsTrue result ↔ (own_entries fabric one.now ≡ own_entries fabric other.now) }
{
    are_own_same(fabric, one.as_slice(), other.as_slice())
}

fn are_fabrics_same(fabric: u8, one: &Fabrics, other: &Fabrics) -> bool
    ensures { IsTrue result ↔ (filter (has_index fabric) one.now ≡ filter (has_index fabric) other.now) }
{
    are_own_same(fabric, one.as_slice(), other.as_slice())
}

// Whether the credentials that an expiry gives back to the fabric are the same.
fn are_saved_same(fabric: u8, one: &Option<Armed>, other: &Option<Armed>) -> bool
    ensures { IsTrue result ↔ (saved_for fabric one.now ≡ saved_for fabric other.now) }
{
    match (saved_for(fabric, one), saved_for(fabric, other)) {
        (Some(mine), Some(theirs)) => mine.is_same(theirs),
        (None, None) => true,
        _ => false,
    }
}

fn saved_for(fabric: u8, armed: &Option<Armed>) -> Option<&Credentials>
    ensures { option_copied result ≡ saved_for fabric armed.now }
{
    match armed {
        Some(armed) if armed.updated == Some(fabric) => armed.saved_credentials.as_ref(),
        _ => None,
    }
}

// Whether the live sessions are the same.
fn are_sessions_same(fabric: u8, one: &NodeSessions, other: &NodeSessions) -> bool
    ensures { IsTrue result ↔ (filter (λ (session : NodeSession). is_live_as fabric session.standing) one.now ≡ filter (λ (session : NodeSession). is_live_as fabric session.standing) other.now) }
{
    are_own_same(fabric, one.as_slice(), other.as_slice())
}

// Whether the plain PASE session is the fabric's own in both or in none.
fn is_plain_same(fabric: u8, one: Option<u8>, other: Option<u8>) -> bool
    ensures { IsTrue result ↔ (is_that fabric one ≡ is_that fabric other) }
{
    (one == Some(fabric)) == (other == Some(fabric))
}
