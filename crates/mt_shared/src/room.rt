//! Whether a call has room in the record, and when it is done.

ghost use Rattle.std.specs.Prelude.{◌≡◌, unwrap_or};
ghost use Rattle.mt_model.specs.texts.Events.{event_time};

use mt_model::Event;

/// When a call is done, in ms, and how many bytes the record then has.
#[derive(Clone, Copy, Drop)]
pub(crate) struct Room {
    pub ms: u64,
    pub bytes: usize,
}

/// The time of a line, in ms; 0 for one that has none.
pub(crate) fn time_of(event: &Event) -> u64
    ensures { result ≡ unwrap_or (event_time event.now) 0 }
{
    match event {
        Event::Ask { ms, .. } => *ms,
        Event::Datagram { ms, .. } => *ms,
        Event::Tick { ms } => *ms,
        Event::Report { ms, .. } => *ms,
        Event::Resend { ms, .. } => *ms,
        Event::Stop { .. } => 0,
    }
}
