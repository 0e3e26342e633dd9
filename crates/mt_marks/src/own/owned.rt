//! What is a fabric's own, and whether two lists have the same of it.

ghost use Rattle.std.specs.Prelude.{◌≡◌, ◌↔◌, ◌==◌, ◌<◌, ◌∷◌, [], ℕ, Bool, IfNone, IfSome, IsTrue, filter, length};
ghost use Rattle.mt_fabrics.specs.Table.{has_index};
ghost use Rattle.mt_runs.specs.mt_machine.Isolation.{is_deadline_in, owns};
ghost use Rattle.mt_subs.specs.Leaving.{is_live_as};
ghost use Rattle.mt_subs.specs.Subscriptions.{is_of};

use mt_model::{AclEntry, Fabric, NodeSession, PlainDeadline, Row};
use mt_same::Same;
use mt_subs::{Subscription, is_live_as};

/// A value that may be a fabric's own.
pub(crate) trait Owned: Same {
    /// Whether it is this fabric's own.
    ghost is_own: { ℕ → Self → Bool };

    /// Whether it is this fabric's own.
    fn is_of(&self, fabric: u8) -> bool
        ensures { result ≡ is_own fabric self.now };
}

/// Whether two lists have the same items of a fabric, in the same order.
pub(crate) fn are_own_same<T: Owned>(fabric: u8, one: &[T], other: &[T]) -> bool
    ensures { IsTrue result ↔ (filter (T.is_own fabric) one.now ≡ filter (T.is_own fabric) other.now) }
{
    let mut mine = one;
    let mut theirs = other;
    'items: while let Some((item, behind)) = next_own(fabric, mine) {
        let Some((its_other, others_behind)) = next_own(fabric, theirs) else {
            return false;
        };
        if !item.is_same(its_other) {
            return false;
        }
        mine = behind;
        theirs = others_behind;
    }
    next_own(fabric, theirs).is_none()
}

// The first item that is the fabric's own, and all behind it.
fn next_own<T: Owned>(fabric: u8, items: &[T]) -> Option<(&T, &[T])>
    ensures none { IfNone result (filter (T.is_own fabric) items.now ≡ []) }
    ensures found { IfSome result (λ found. filter (T.is_own fabric) items.now ≡ found.0.now ∷ filter (T.is_own fabric) found.1.now) }
    ensures behind { IfSome result (λ found. length found.1.now < length items.now) }
{
    let mut rest = items;
    'items: while let [item, behind @ ..] = rest {
        if item.is_of(fabric) {
            return Some((item, behind));
        }
        rest = behind;
    }
    None
}

impl Owned for Row {
    ghost is_own = { owns };

    fn is_of(&self, fabric: u8) -> bool {
        self.fabric == fabric && self.fabric != 0
    }
}

impl Owned for AclEntry {
    ghost is_own = { λ fabric entry. entry.fabric == fabric };

    fn is_of(&self, fabric: u8) -> bool {
        self.fabric == fabric
    }
}

impl Owned for Fabric {
    ghost is_own = { has_index };

    fn is_of(&self, fabric: u8) -> bool {
        self.index == fabric
    }
}

impl Owned for NodeSession {
    ghost is_own = { λ fabric session. is_live_as fabric session.standing };

    fn is_of(&self, fabric: u8) -> bool {
        is_live_as(fabric, self.standing)
    }
}

impl Owned for PlainDeadline {
    ghost is_own = { is_deadline_in };

    fn is_of(&self, fabric: u8) -> bool {
        self.fabric == fabric
    }
}

impl Owned for Subscription {
    ghost is_own = { is_of };

    fn is_of(&self, fabric: u8) -> bool {
        self.fabric == fabric
    }
}
