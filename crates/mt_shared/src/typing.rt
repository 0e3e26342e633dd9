//! That the parts of an event are within their types.

ghost use Rattle.std.specs.Prelude.{◌<◌, ◌^◌, ℕ, All};
ghost use Rattle.hex.specs.Hex.{IsBytes};
ghost use Rattle.mt_files.specs.Form.{IsEvent, IsPeer};

use mt_model::Event;
use mt_outside::Peer;

/// Each part of an event is within its type, as the laws of recordings ask. It goes over its bytes once, and does nothing.
pub fn events_have_types(event: &Event)
    ensures { IsEvent event.now }
{
    match event {
        Event::Ask {
            ms,
            fabric,
            node,
            cats,
            opcode,
            payload,
        } => {
            let _values = (*ms, *fabric, *node, *opcode);
            are_words(cats);
            are_bytes(payload.as_slice());
        }
        Event::Datagram { ms, peer, bytes } => {
            let _value = *ms;
            peers_have_types(peer);
            are_bytes(bytes.as_slice());
        }
        Event::Tick { ms } => {
            let _value = *ms;
        }
        Event::Report {
            ms,
            fabric,
            subscription,
        } => {
            let _values = (*ms, *fabric, *subscription);
        }
        Event::Resend { ms, session } => {
            let _values = (*ms, *session);
        }
        Event::Stop { calls, fate: _ } => {
            let _value = *calls;
        }
    }
}

fn peers_have_types(peer: &Peer)
    ensures { IsPeer peer.now }
{
    let _value = peer.port;
    are_bytes(&peer.ip);
}

fn are_bytes(bytes: &[u8])
    ensures { IsBytes bytes.now }
{
    for byte in bytes {
        let _value = *byte;
    }
}

fn are_words(words: &[u32])
    ensures { All (λ (word : ℕ). word < 2 ^ 32) words.now }
{
    for word in words {
        let _value = *word;
    }
}
