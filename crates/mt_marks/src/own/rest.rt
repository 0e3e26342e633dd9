//! Whether the rest of a fabric's own part is the same: deadlines, events, subscriptions and exchanges.

ghost use Rattle.std.specs.Prelude.{◌≡◌, ◌↔◌, IsTrue, filter};
ghost use Rattle.mt_events.specs.Rings.{AreRings};
ghost use Rattle.mt_events.specs.Telling.{own_of};
ghost use Rattle.mt_runs.specs.mt_machine.Isolation.{is_deadline_in};
ghost use Rattle.mt_subs.specs.Subscriptions.{is_of, next_id};

use crate::own::owned::are_own_same;
use mt_events::Rings;
use mt_exchange::Exchanges;
use mt_model::PlainDeadline;
use mt_same::Same;
use mt_subs::Subs;

/// Whether the deadlines of a fabric's plain actors are the same. It takes no memory.
pub fn are_deadlines_same(fabric: u8, one: &[PlainDeadline], other: &[PlainDeadline]) -> bool
    ensures { IsTrue result ↔ (filter (is_deadline_in fabric) one.now ≡ filter (is_deadline_in fabric) other.now) }
{
    are_own_same(fabric, one, other)
}

/// Whether the events that are private to a fabric are the same. It takes no memory.
pub fn are_events_same(fabric: u8, one: &Rings, other: &Rings) -> bool
    requires { AreRings one.now }
    ensures { IsTrue result ↔ (own_of fabric one.now ≡ own_of fabric other.now) }
{
    let mut index: usize = 0;
    'events: while let Some(mine) = one.own_at(fabric, index) {
        let Some(theirs) = other.own_at(fabric, index) else {
            return false;
        };
        if !mine.is_same(theirs) {
            return false;
        }
        index += 1;
    }
    other.own_at(fabric, index).is_none()
}

/// Whether the subscriptions of a fabric are the same, and the id that its next one gets. It takes no memory.
pub fn are_subscriptions_same(fabric: u8, one: &Subs, other: &Subs) -> bool
    ensures { IsTrue result ↔ ((filter (is_of fabric) one.now.subscriptions ≡ filter (is_of fabric) other.now.subscriptions) × (next_id fabric one.now ≡ next_id fabric other.now)) }
{
    are_own_same(fabric, one.as_slice(), other.as_slice())
        && one.next_id(fabric) == other.next_id(fabric)
}

/// Whether the exchanges of two sessions are the same: those that are open, and the id that the next one tries first. It
/// takes no memory.
pub fn are_exchanges_same(one: &Exchanges, other: &Exchanges) -> bool
    ensures { IsTrue result ↔ ((one.now.table ≡ other.now.table) × (one.now.next_id ≡ other.now.next_id)) }
{
    one.next_id() == other.next_id() && are_open_same(one, other)
}

// Whether the open exchanges are the same.
fn are_open_same(one: &Exchanges, other: &Exchanges) -> bool
    ensures { IsTrue result ↔ (one.now.table ≡ other.now.table) }
{
    let mut index: usize = 0;
    'exchanges: while let Some(mine) = one.at(index) {
        let Some(theirs) = other.at(index) else {
            return false;
        };
        if !mine.is_same(theirs) {
            return false;
        }
        index += 1;
    }
    other.at(index).is_none()
}
