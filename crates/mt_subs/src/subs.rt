//! The subscriptions of a node.

ghost use Rattle.std.specs.Prelude.{◌≡◌, ◌↔◌, ◌<◌, ◌≤◌, ◌∷◌, [], None, false, true, IfErr, IfOk, IsSome, IsTrue, OnErr, OnOk, length, option_copied, slice_get};
ghost use Rattle.mt_model.specs.rows.Seen.{own_entries};
ghost use Rattle.mt_subs.specs.Changes.{IsChanges};
ghost use Rattle.mt_subs.specs.Owed.{IsDue, due_of};
ghost use Rattle.mt_subs.specs.Subscriptions.{IsFullOrMemory, IsSubs, added, begun, changed, confirmed, ended, first_ids, id_end, ids_of, is_full, is_used, kept_at, next_id, none, reported};

use crate::changing::{Told, confirm, report};
use crate::fault::SubFault;
use crate::finding::{count_of, first_id, found, place_of};
use crate::owing::due_places;
use crate::subscription::{Kept, Sub, SubState, Subscription, Subscriptions};
use mt_model::limits::SUBSCRIPTIONS;
use mt_model::{ChangeNumber, ExactCopy, Places, Sight};
use std::alloc::{AllocError, Global};
use std::marker::Model;

/// The subscriptions of a node. Contracts see what a node keeps of them: no fabric has more than three,
/// and its ids ascend, each below its next one.
pub struct Subs {
    pub(crate) subscriptions: Vec<Subscription>,
    next_ids: [u32; 256],
}

impl Drop for Subs {
    fn drop(self) {
        let Subs {
            subscriptions: _,
            next_ids: _,
        } = self;
    }
}

impl Model for Subs {
    ghost use Rattle.mt_subs.specs.declared.subscription.SubState.{SubState};
    ghost use Rattle.mt_subs.specs.Subscriptions.{IsSubs};

    ghost Value = { SubState };

    ghost view = { λ subs. record { subscriptions = subs.subscriptions.items; next_ids = subs.next_ids } };

    ghost invariant = { λ subs. IsSubs (record { subscriptions = subs.subscriptions.items; next_ids = subs.next_ids }) };
}

impl Subs {
    /// No subscription, as at a start. It takes no memory.
    pub fn new(alloc: Global) -> Subs
        ensures { result ≡ none }
    {
        Subs {
            subscriptions: Vec::new(alloc),
            next_ids: first_ids(),
        }
    }

    /// The subscriptions, in the order in which they were added.
    pub fn as_slice(&self) -> &[Subscription]
        ensures { result.now ≡ self.now.subscriptions }
    {
        &self.subscriptions
    }

    /// The subscriptions that a node has kept, in the same memory.
    pub fn from_state(state: SubState) -> Subs
        requires { IsSubs state }
        ensures { result ≡ state }
    {
        let next_ids = state.next_ids;
        Subs {
            subscriptions: state.subscriptions.into_vec(),
            next_ids,
        }
    }

    /// All of them, for a node to keep, in the same memory.
    pub fn into_state(self) -> SubState
        ensures value { result ≡ self }
        ensures valid { IsSubs result }
    {
        let Subs {
            subscriptions,
            next_ids,
        } = self;
        SubState {
            subscriptions: Subscriptions::from_vec(subscriptions),
            next_ids,
        }
    }

    /// The id that the next subscription of a fabric gets. It rises from 1, and from 2,147,483,649 for
    /// whoever has no fabric (0), and goes on where a fabric index is used again.
    pub fn next_id(&self, fabric: u8) -> u32
        ensures { result ≡ next_id fabric self.now }
    {
        let index = usize::from(fabric);
        self.next_ids[index]
    }

    /// Adds a subscription, which is pending and has not been reported to, and answers its id. It takes
    /// memory. After a refusal all is as before, and the subscription is let go.
    pub fn add(&mut self, fabric: u8, sub: Sub) -> Result<u32, SubFault>
        // An id is left, which `next_id` tells.
        requires { next_id fabric self.old < id_end fabric }
        ensures refused { IfErr result (IsFullOrMemory fabric self.old) }
        ensures allowed { OnOk result (is_full fabric self.old ≡ false) }
        ensures id { IfOk result (λ id. id ≡ next_id fabric self.old) }
        ensures unused { IfOk result (λ id. is_used fabric id self.old ≡ false) }
        ensures added { OnOk result (self.new ≡ added fabric sub self.old) }
        ensures kept { OnErr result (self.new ≡ self.old) }
    {
        if count_of(&self.subscriptions, fabric) >= SUBSCRIPTIONS {
            return Err(SubFault::Full);
        }
        let id = self.next_id(fabric);
        let subscription = Subscription {
            fabric,
            id,
            kept: begun(sub),
        };
        match self.subscriptions.push(subscription) {
            Ok(()) => {
                self.next_ids[usize::from(fabric)] = id + 1;
                Ok(id)
            }
            Err(_) => Err(SubFault::Memory),
        }
    }

    /// Its last report was confirmed: it is live. False exactly where there is no such subscription.
    pub fn confirm(&mut self, fabric: u8, id: u32) -> bool
        ensures found { result ≡ is_used fabric id self.old }
        ensures confirmed { self.new ≡ changed fabric id confirmed self.old }
    {
        match place_of(&self.subscriptions, fabric, id) {
            Some(place) => {
                confirm(&mut self.subscriptions, fabric, id, place);
                true
            }
            None => false,
        }
    }

    /// It ends. False exactly where there is no such subscription.
    pub fn end(&mut self, fabric: u8, id: u32) -> bool
        ensures found { result ≡ is_used fabric id self.old }
        ensures ended { self.new ≡ ended fabric id self.old }
    {
        match place_of(&self.subscriptions, fabric, id) {
            Some(place) => {
                self.subscriptions.remove(place);
                true
            }
            None => false,
        }
    }

    /// The ids of a fabric, ascending, and None behind the last.
    pub fn ids(&self, fabric: u8) -> [Option<u32>; 3]
        ensures ids { let ids = ids_of fabric self.now.subscriptions in
            result ≡ slice_get ids 0 ∷ (slice_get ids 1 ∷ (slice_get ids 2 ∷ [])) }
        ensures all { length (ids_of fabric self.now.subscriptions) ≤ 3 }
    {
        let (first, behind) = first_id(&self.subscriptions, fabric);
        let (second, behind) = first_id(behind, fabric);
        let (third, _) = first_id(behind, fabric);
        [first, second, third]
    }

    /// The subscription of a fabric and an id; None exactly where there is none.
    pub fn get(&self, fabric: u8, id: u32) -> Option<&Kept>
        ensures { option_copied result ≡ kept_at fabric id self.now }
    {
        Some(&found(&self.subscriptions, fabric, id)?.kept)
    }

    /// What is owed to a subscription that is due now, in ms: the places that it names, that have changed
    /// since its last report, and that its actor may read. `unreported` says whether an event is unreported.
    /// None exactly where there is no such subscription, it is pending, or it is not due. The changes stand with the
    /// latest first, and only those that are later than the last report are gone through.
    pub fn due<S: Sight>(
        &self,
        alloc: Global,
        sight: &S,
        fabric: u8,
        id: u32,
        now: u64,
        changes: &[ChangeNumber],
        unreported: bool,
    ) -> Result<Option<Places>, AllocError>
        requires { IsChanges changes.now }
        ensures exact { IfOk result (λ due. due ≡ due_of (own_entries fabric (S.all_entries sight.now)) (kept_at fabric id self.now) now changes.now unreported) }
        ensures due { IfOk result (λ due. IsSome due ↔ IsDue (own_entries fabric (S.all_entries sight.now)) (kept_at fabric id self.now) now changes.now unreported) }
    {
        match self.get(fabric, id) {
            Some(kept) => due_places(alloc, sight.entries(fabric), kept, now, changes, unreported),
            None => Ok(None),
        }
    }

    /// It was reported to, now, in ms: up to this change and this event. It is pending until that is
    /// confirmed. Where there is no such subscription, nothing changes.
    pub fn reported(&mut self, fabric: u8, id: u32, now: u64, change: u64, event: u64)
        ensures { self.new ≡ changed fabric id (reported now change event) self.old }
    {
        let told = Told {
            time: now,
            change,
            event,
        };
        match place_of(&self.subscriptions, fabric, id) {
            Some(place) => report(&mut self.subscriptions, fabric, id, place, told),
            None => (),
        }
    }
}

impl ExactCopy for Subs {
    fn copy(&self) -> Result<Subs, AllocError> {
        let mut subscriptions = Vec::with_capacity(
            *self.subscriptions.allocator(),
            self.subscriptions.len(),
        )?;
        for s in &self.subscriptions {
            subscriptions.push(s.copy()?)?;
        }
        let next_ids = self.next_ids;
        Ok(Subs {
            subscriptions,
            next_ids,
        })
    }
}

// The first id of whoever has no fabric.
const FIRST_OF_NOBODY: u32 = 2_147_483_649;

#[tactic(auto, unfolding(crate::specs::Subscriptions::first_ids))]
fn first_ids() -> [u32; 256]
    ensures { result ≡ first_ids }
{
    let mut ids = [1; 256];
    ids[0] = FIRST_OF_NOBODY;
    ids
}

// A subscription that has not been reported to.
fn begun(sub: Sub) -> Kept
    ensures { result ≡ begun sub }
{
    Kept {
        sub,
        primed: false,
        live: false,
        time: 0,
        change: 0,
        event: 0,
    }
}
