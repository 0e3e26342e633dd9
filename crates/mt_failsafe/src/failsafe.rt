//! The fail-safe and its calls.

ghost use Rattle.std.specs.Prelude.{◌≡◌, ◌≢◌, ◌↔◌, None, Some, false, IsTrue, IfErr, IfSome, OnErr, OnOk, option_copied, option_map};
ghost use Rattle.mt_failsafe.specs.Calls.{arm_answer, armed_by, complete_answer, is_armed_by, put_back, renew_answer, renewed, undo_of, until_of, updated_of};
ghost use Rattle.mt_failsafe.specs.Facts.{keeps_facts};
ghost use Rattle.mt_failsafe.specs.Notes.{may_note_added, may_note_csr, may_note_root, may_note_updated, owner_behind, with_added, with_csr, with_root, with_updated};

use crate::asking::is_of_context;
use crate::fault::{Busy, FailsafeFault};
use crate::undo::{Saved, Undo};
use mt_model::limits::LONGEST_FAILSAFE;
use mt_model::{Actor, Armed, Credentials, ExactCopy, Networks};
use mt_tlv::Bytes;
use std::alloc::{AllocError, Global};
use std::marker::Model;

/// The fail-safe. Contracts see what is armed, None where nothing is. Whatever is armed keeps the
/// fail-safe's facts. No call takes memory, but that to copy it.
#[derive(Drop)]
pub struct Failsafe {
    state: Option<Armed>,
}

impl Model for Failsafe {
    ghost use Rattle.std.specs.Prelude.{IsTrue, Option};
    ghost use Rattle.mt_model.specs.declared.tables.network.Armed.{Armed};
    ghost use Rattle.mt_failsafe.specs.Facts.{keeps_facts};

    ghost Value = { Option Armed };

    ghost view = { λ failsafe. failsafe.state };

    ghost invariant = { λ failsafe. IsTrue (keeps_facts failsafe.state) };
}

impl Failsafe {
    /// A fail-safe that is not armed.
    pub fn new(_alloc: Global) -> Failsafe
        ensures { result ≡ None }
    {
        Failsafe { state: None }
    }

    /// The fail-safe of what a node keeps.
    pub fn from_armed(armed: Option<Armed>) -> Failsafe
        requires { IsTrue (keeps_facts armed) }
        ensures { result ≡ armed }
    {
        Failsafe { state: armed }
    }

    /// What is armed, for a node to keep.
    pub fn into_armed(self) -> Option<Armed>
        ensures value { result ≡ self }
        ensures facts { IsTrue (keeps_facts result) }
    {
        self.state
    }

    /// What is armed, None exactly where nothing is.
    pub fn armed(&self) -> Option<&Armed>
        ensures value { option_copied result ≡ self.now }
        ensures none { (result ≡ None) ↔ (self.now ≡ None) }
        ensures facts { IsTrue (keeps_facts self.now) }
    {
        self.state.as_ref()
    }

    /// Arms it for a fabric that has not armed it, 0 for whoever commissions over PASE: from now, in ms,
    /// for so many seconds, and never past 900 s. Busy where another has armed it.
    pub fn arm(&mut self, owner: u8, now: u64, seconds: u16, saved: Saved) -> Result<(), Busy>
        requires { is_armed_by owner self.old ≡ false }
        // Ok exactly where it is not armed, and otherwise Busy with its owner, who is another.
        ensures answer { result ≡ arm_answer self.old }
        ensures another { IfErr result (λ busy. busy.owner ≢ owner) }

        ensures ok { OnOk result (self.new ≡ Some (armed_by owner now seconds saved.networks)) }
        ensures err { OnErr result (self.new ≡ self.old) }
    {
        if let Some(armed) = &self.state {
            return Err(Busy { owner: armed.owner });
        }
        self.state = Some(first_armed(owner, now, seconds, saved.networks));
        Ok(())
    }

    /// Lets it last from now, in ms, for so many seconds, and never past 900 s behind its arming; that
    /// may be earlier than before. NotArmed where it is not armed, Busy where another has armed it.
    pub fn renew(&mut self, owner: u8, now: u64, seconds: u16) -> Result<(), FailsafeFault>
        // Ok exactly where the owner asks, NotArmed exactly where it is not armed, otherwise Busy.
        ensures answer { result ≡ renew_answer owner self.old }
        ensures ok { OnOk result (self.new ≡ option_map (renewed now seconds) self.old) }
        ensures err { OnErr result (self.new ≡ self.old) }
    {
        let Some(armed) = &mut self.state else {
            return Err(FailsafeFault::NotArmed);
        };
        if armed.owner != owner {
            return Err(FailsafeFault::Busy { owner: armed.owner });
        }
        armed.until = until(now, seconds, armed.limit);
        Ok(())
    }

    /// Ends it, and hands out what is to be taken back; None exactly where it is not armed.
    pub fn expire(&mut self) -> Option<Undo>
        ensures undo { result ≡ option_map undo_of self.old }
        ensures none { (result ≡ None) ↔ (self.old ≡ None) }
        // The credentials of a fabric that was updated are never missing.
        ensures updated { IfSome result (λ undo. option_map (λ fabric. fabric.0) undo.updated ≡ updated_of self.old) }
        ensures ended { self.new ≡ None }
    {
        match self.state.take() {
            Some(armed) => Some(Undo {
                added: armed.added,
                updated: put_back(armed.updated, armed.saved_credentials),
                networks: armed.saved_networks,
            }),
            None => None,
        }
    }

    /// Ends it, and lets stand what was done. NotArmed where it is not armed; Pase where the caller does
    /// not ask over CASE for the fabric for which commissioning goes on.
    pub fn complete(&mut self, caller: &Actor) -> Result<(), FailsafeFault>
        ensures answer { result ≡ complete_answer caller.now self.old }
        ensures ok { OnOk result (self.new ≡ None) }
        ensures err { OnErr result (self.new ≡ self.old) }
    {
        let Some(armed) = &self.state else {
            return Err(FailsafeFault::NotArmed);
        };
        if !is_of_context(caller, armed) {
            return Err(FailsafeFault::Pase);
        }
        self.state = None;
        Ok(())
    }

    /// Notes the root certificate that AddTrustedRootCertificate gives.
    pub fn note_root(&mut self, cert: Bytes)
        requires { IsTrue (may_note_root self.old) }
        ensures { self.new ≡ option_map (with_root cert) self.old }
    {
        let Some(armed) = &mut self.state else {
            unreachable!()
        };
        armed.root = Some(cert);
    }

    /// Notes the nonce of a CSRRequest, and whether it was for an update. A later one takes its place.
    pub fn note_csr(&mut self, nonce: Bytes, update: bool)
        requires { IsTrue (may_note_csr update self.old) }
        ensures { self.new ≡ option_map (with_csr nonce update) self.old }
    {
        let Some(armed) = &mut self.state else {
            unreachable!()
        };
        armed.csr = Some((nonce, update));
    }

    /// Notes the fabric that AddNOC added, and whether over PASE: it becomes the one for which
    /// commissioning goes on, and over PASE the owner.
    pub fn note_added(&mut self, index: u8, pase: bool)
        requires { IsTrue (may_note_added self.old) }
        ensures { self.new ≡ option_map (with_added index pase) self.old }
    {
        let Some(armed) = &mut self.state else {
            unreachable!()
        };
        armed.owner = owner_behind(index, pase, armed.owner);
        armed.context = index;
        armed.added = Some(index);
    }

    /// Notes that UpdateNOC gave the owner new credentials in the place of these.
    pub fn note_updated(&mut self, old: Credentials)
        requires { IsTrue (may_note_updated self.old) }
        ensures { self.new ≡ option_map (with_updated old) self.old }
    {
        let Some(armed) = &mut self.state else {
            unreachable!()
        };
        armed.updated = Some(armed.owner);
        armed.saved_credentials = Some(old);
    }
}

impl ExactCopy for Failsafe {
    fn copy(&self) -> Result<Failsafe, AllocError> {
        match &self.state {
            Some(armed) => Ok(Failsafe {
                state: Some(armed.copy()?),
            }),
            None => Ok(Failsafe { state: None }),
        }
    }
}

// When a fail-safe with this limit ends that now is to last for so many seconds.
fn until(now: u64, seconds: u16, limit: u64) -> u64
    ensures { result ≡ until_of now seconds limit }
{
    now.saturating_add(1000 * u64::from(seconds)).min(limit)
}

fn first_armed(owner: u8, now: u64, seconds: u16, networks: Networks) -> Armed
    ensures { result ≡ armed_by owner now seconds networks }
{
    let limit = now.saturating_add(LONGEST_FAILSAFE);
    Armed {
        owner,
        context: owner,
        until: until(now, seconds, limit),
        limit,
        added: None,
        updated: None,
        root: None,
        csr: None,
        saved_credentials: None,
        saved_networks: networks,
    }
}

// The owner once a fabric was added.
fn owner_behind(index: u8, pase: bool, owner: u8) -> u8
    ensures { result ≡ owner_behind index pase owner }
{
    if pase { index } else { owner }
}

// The fabric that was updated, with the credentials that it had.
fn put_back(updated: Option<u8>, saved: Option<Credentials>) -> Option<(u8, Credentials)>
    ensures { result ≡ put_back updated saved }
{
    match (updated, saved) {
        (Some(fabric), Some(saved)) => Some((fabric, saved)),
        _ => None,
    }
}
