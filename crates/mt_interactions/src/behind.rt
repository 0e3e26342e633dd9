//! What a planned line makes of the subscriptions.

ghost use Rattle.std.specs.Prelude.{◌≡◌};
ghost use Rattle.mt_interactions.specs.Subscribing.{applied_subs, confirmed_if};

use mt_subs::Subs;

/// What is made of the subscriptions, where all subscribers stay.
#[derive(Drop)]
pub(crate) enum SubsBehind {
    /// They stay as they are.
    Same,
    /// These take their place.
    Other(Box<Subs>),
    /// The last payload of a report was confirmed.
    Confirmed {
        fabric: u8,
        id: u32,
    },
    /// Those of a fabric that have one of these ids end.
    Ended {
        fabric: u8,
        ids: Vec<u32>,
    },
    /// One was reported to, up to this change and this event, which a plain actor confirms at once.
    Told {
        fabric: u8,
        id: u32,
        change: u64,
        event: u64,
        at_once: bool,
    },
}

/// Makes of subscriptions what is made of them at this time, in ms. It takes no memory, and cannot fail.
pub(crate) fn make(behind: SubsBehind, ms: u64, subs: &mut Subs)
    ensures { subs.new ≡ applied_subs behind ms subs.old }
{
    match behind {
        SubsBehind::Same => (),
        SubsBehind::Other(other) => *subs = Box::into_inner(other),
        SubsBehind::Confirmed { fabric, id } => {
            let _ = subs.confirm(fabric, id);
        },
        SubsBehind::Ended { fabric, ids } => subs.end_all(fabric, ids.as_slice()),
        SubsBehind::Told {
            fabric,
            id,
            change,
            event,
            at_once,
        } => {
            subs.reported(fabric, id, ms, change, event);
            confirm_if(at_once, fabric, id, subs);
        },
    }
}

/// A plain actor confirms a report at once.
pub(crate) fn confirm_if(at_once: bool, fabric: u8, id: u32, subs: &mut Subs)
    ensures { subs.new ≡ confirmed_if at_once fabric id subs.old }
{
    if at_once {
        let _ = subs.confirm(fabric, id);
    }
}
