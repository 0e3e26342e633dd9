//! What a worker keeps of one of its sessions.

ghost use Rattle.std.specs.Prelude.{◌≢◌, All};
ghost use Rattle.mt_worker.specs.Accounts.{IsReportable};

use mt_layer::SessionTalk;
use std::alloc::Global;

/// A subscription: its fabric, and its id there.
#[derive(Clone, Copy, Drop)]
pub struct Subscription {
    pub fabric: u8,
    pub id: u32,
}

/// What a worker keeps of a session: its talk, and the subscriptions that it got over it and that have not been named as ended since,
/// oldest first.
pub(crate) struct Seat {
    pub(crate) alloc: Global,
    pub(crate) session: u16,
    pub(crate) talk: SessionTalk,
    pub(crate) subscriptions: Vec<Subscription>,
    ghost named: { session ≢ 0 },
    ghost reportable: { All IsReportable subscriptions.items },
}

impl Drop for Seat {
    fn drop(self) {
        let Seat {
            alloc: _,
            session: _,
            talk: _,
            subscriptions: _,
        } = self;
    }
}
