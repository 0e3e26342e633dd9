//! The events of a recording.

ghost use Rattle.std.specs.Prelude.{◌≡◌, ◌↔◌, IsTrue};
ghost use Rattle.mt_model.specs.declared.texts.recording.Event.TheVariants.{Ask, Datagram, Report, Resend, Stop, Tick};

use crate::same::Same;
use mt_model::Event;
use mt_outside::{Fate, Peer};
use mt_tlv::Bytes;

impl Same for Event {
    fn is_same(&self, other: &Event) -> bool {
        match self {
            Event::Ask {
                ms,
                fabric,
                node,
                cats,
                opcode,
                payload,
            } => is_ask(other, *ms, *fabric, *node, *cats, *opcode, payload),
            Event::Datagram { ms, peer, bytes } => is_datagram(other, *ms, *peer, bytes),
            Event::Tick { ms } => is_tick(other, *ms),
            Event::Report {
                ms,
                fabric,
                subscription,
            } => is_report(other, *ms, *fabric, *subscription),
            Event::Resend { ms, session } => is_resend(other, *ms, *session),
            Event::Stop { calls, fate } => is_stop(other, *calls, *fate),
        }
    }
}

fn is_ask(
    event: &Event,
    at: u64,
    by: u8,
    from: u64,
    with: [u32; 3],
    code: u8,
    bytes: &Bytes,
) -> bool
    ensures { IsTrue result ↔ (Ask at by from with code bytes.now ≡ event.now) }
{
    match event {
        Event::Ask {
            ms,
            fabric,
            node,
            cats,
            opcode,
            payload,
        } => {
            *ms == at
                && *fabric == by
                && *node == from
                && *cats == with
                && *opcode == code
                && payload.equals(bytes)
        },
        _ => false,
    }
}

fn is_datagram(event: &Event, at: u64, from: Peer, datagram: &Bytes) -> bool
    ensures { IsTrue result ↔ (Datagram at from datagram.now ≡ event.now) }
{
    match event {
        Event::Datagram { ms, peer, bytes } => {
            *ms == at && *peer == from && bytes.equals(datagram)
        },
        _ => false,
    }
}

fn is_tick(event: &Event, at: u64) -> bool
    ensures { IsTrue result ↔ (Tick at ≡ event.now) }
{
    match event {
        Event::Tick { ms } => *ms == at,
        _ => false,
    }
}

fn is_report(event: &Event, at: u64, to: u8, id: u32) -> bool
    ensures { IsTrue result ↔ (Report at to id ≡ event.now) }
{
    match event {
        Event::Report {
            ms,
            fabric,
            subscription,
        } => *ms == at && *fabric == to && *subscription == id,
        _ => false,
    }
}

fn is_resend(event: &Event, at: u64, over: u16) -> bool
    ensures { IsTrue result ↔ (Resend at over ≡ event.now) }
{
    match event {
        Event::Resend { ms, session } => *ms == at && *session == over,
        _ => false,
    }
}

fn is_stop(event: &Event, at: u64, left: Fate) -> bool
    ensures { IsTrue result ↔ (Stop at left ≡ event.now) }
{
    match event {
        Event::Stop { calls, fate } => *calls == at && *fate == left,
        _ => false,
    }
}
