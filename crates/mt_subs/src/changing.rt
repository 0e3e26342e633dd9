//! What a call changes in one subscription. Nothing here asks whether it is there.

ghost use Rattle.std.specs.Prelude.{◌≡◌, map};
ghost use Rattle.mt_subs.specs.Places.{IsAt};
ghost use Rattle.mt_subs.specs.Subscriptions.{changed_at, confirmed, reported};

use crate::subscription::Subscription;

// Its report was confirmed.
pub(crate) fn confirm(subs: &mut [Subscription], fabric: u8, id: u32, place: usize)
    requires { IsAt fabric id subs.old place }
    ensures { subs.new ≡ map (changed_at fabric id confirmed) subs.old }
{
    let kept = &mut subs[place].kept;
    kept.primed = true;
    kept.live = true;
}

/// The last values that were reported.
#[derive(Clone, Copy)]
pub(crate) struct Told {
    pub(crate) time: u64,
    pub(crate) change: u64,
    pub(crate) event: u64,
}

// It was told what there is, and has not confirmed that yet.
pub(crate) fn report(subs: &mut [Subscription], fabric: u8, id: u32, place: usize, told: Told)
    requires { IsAt fabric id subs.old place }
    ensures { subs.new ≡ map (changed_at fabric id (reported told.time told.change told.event)) subs.old }
{
    let kept = &mut subs[place].kept;
    kept.live = false;
    kept.time = told.time;
    kept.change = told.change;
    kept.event = told.event;
}
