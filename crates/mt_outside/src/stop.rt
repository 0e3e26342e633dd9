//! At which call a disk in memory stops.

ghost use Rattle.std.specs.Prelude.{◌≡◌, false};
ghost use Rattle.mt_outside.specs.Stops.{fate_now, has_stopped, one_fewer, stops_next};

use crate::fate::Fate;

/// After how many further writes and syncs a disk stops, the one at which it stops included, and what
/// becomes of it then. At 0 it has stopped.
#[derive(Clone, Copy)]
pub struct Stop {
    pub calls: u64,
    pub fate: Fate,
}

pub fn is_stopped(stop: &Option<Stop>) -> bool
    ensures { result ≡ has_stopped stop.now }
{
    match stop {
        Some(stop) => stop.calls == 0,
        None => false,
    }
}

/// Counts a write or a sync, and answers whether it is the one at which the disk stops.
pub fn count_down(stop: &mut Option<Stop>) -> bool
    requires { has_stopped stop.old ≡ false }
    ensures stops { result ≡ stops_next stop.old }
    ensures fewer { stop.new ≡ one_fewer stop.old }
{
    match stop {
        Some(stop) => {
            stop.calls -= 1;
            stop.calls == 0
        }
        None => false,
    }
}

/// What becomes of a disk that has stopped; None of one that has not.
pub fn fate_now(stop: &Option<Stop>) -> Option<Fate>
    ensures { result ≡ fate_now stop.now }
{
    match stop {
        Some(stop) if stop.calls == 0 => Some(stop.fate),
        _ => None,
    }
}
