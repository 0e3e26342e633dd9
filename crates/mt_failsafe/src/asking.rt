//! What is asked of a fail-safe as a node keeps it, None where none is armed.

ghost use Rattle.std.specs.Prelude.{◌≡◌, option_copied};
ghost use Rattle.mt_model.specs.Optional.{is_that};
ghost use Rattle.mt_failsafe.specs.Calls.{is_armed_by, is_context, is_of_context};
ghost use Rattle.mt_failsafe.specs.Notes.{is_for_new, is_for_update, is_unused, may_note_added, may_note_csr, may_note_root, may_note_updated, was_added};

use mt_model::{Actor, Armed, Auth};
use mt_tlv::Bytes;

/// Whether this fabric has armed it, 0 for whoever commissions over PASE.
pub fn is_armed_by(fabric: u8, armed: Option<&Armed>) -> bool
    ensures { result ≡ is_armed_by fabric (option_copied armed.entry) }
{
    match armed {
        Some(armed) => armed.owner == fabric,
        None => false,
    }
}

/// Whether commissioning goes on for this fabric.
pub fn is_context(fabric: u8, armed: Option<&Armed>) -> bool
    ensures { result ≡ is_context fabric (option_copied armed.entry) }
{
    match armed {
        Some(armed) => armed.context == fabric,
        None => false,
    }
}

/// Whether the caller asks over CASE, for the fabric for which commissioning goes on.
pub fn is_of_context(caller: &Actor, armed: &Armed) -> bool
    ensures { result ≡ is_of_context caller.now armed.now }
{
    caller.auth == Auth::Case && armed.context == caller.fabric
}

/// Whether this fabric was added since it was armed.
pub fn was_added(fabric: u8, armed: Option<&Armed>) -> bool
    ensures { result ≡ was_added fabric (option_copied armed.entry) }
{
    match armed {
        Some(armed) => is_that(fabric, armed.added),
        None => false,
    }
}

fn is_that(fabric: u8, other: Option<u8>) -> bool
    ensures { result ≡ is_that fabric other }
{
    match other {
        Some(other) => other == fabric,
        None => false,
    }
}

/// Whether no fabric was added since it was armed, and none updated.
pub fn is_unused(armed: &Armed) -> bool
    ensures { result ≡ is_unused armed.now }
{
    armed.added.is_none() && armed.updated.is_none()
}

/// Whether a root certificate may be noted.
pub fn may_note_root(armed: Option<&Armed>) -> bool
    ensures { result ≡ may_note_root (option_copied armed.entry) }
{
    match armed {
        Some(armed) => is_unused(armed) && armed.root.is_none(),
        None => false,
    }
}

/// Whether a signing request may be noted, for an update or for a new fabric.
pub fn may_note_csr(update: bool, armed: Option<&Armed>) -> bool
    ensures { result ≡ may_note_csr update (option_copied armed.entry) }
{
    match armed {
        Some(armed) => is_unused(armed) && (!update || armed.owner != 0),
        None => false,
    }
}

/// Whether a fabric may be added under it.
pub fn may_note_added(armed: Option<&Armed>) -> bool
    ensures { result ≡ may_note_added (option_copied armed.entry) }
{
    match armed {
        Some(armed) => is_unused(armed) && armed.root.is_some() && is_for_new(&armed.csr),
        None => false,
    }
}

fn is_for_new(csr: &Option<(Bytes, bool)>) -> bool
    ensures { result ≡ is_for_new csr.now }
{
    match csr {
        Some((_, update)) => !*update,
        None => false,
    }
}

/// Whether its owner may get new credentials under it.
pub fn may_note_updated(armed: Option<&Armed>) -> bool
    ensures { result ≡ may_note_updated (option_copied armed.entry) }
{
    match armed {
        Some(armed) => {
            is_unused(armed) && armed.owner != 0 && armed.root.is_none() && is_for_update(armed)
        },
        None => false,
    }
}

/// Whether the signing request that was answered last is for an update.
pub fn is_for_update(armed: &Armed) -> bool
    ensures { result ≡ is_for_update armed.now.csr }
{
    match &armed.csr {
        Some((_, update)) => *update,
        None => false,
    }
}
