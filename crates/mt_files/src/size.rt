//! How long the lines of events are, without writing them.

ghost use Rattle.std.specs.Prelude.{◌≡◌, ◌≤◌, ◌*◌, ℕ, decimal, length};
ghost use Rattle.mt_model.specs.declared.limits.TheConstants.{PAYLOAD_BYTES};
ghost use Rattle.mt_files.specs.Event.{at_time, line_size};
ghost use Rattle.mt_files.specs.Field.{payload_text, peer_text};
ghost use Rattle.mt_files.specs.Form.{HasForm};
ghost use Rattle.mt_files.specs.Subject.{cat_text, subject_text};

use itoa::Buffer;
use mt_model::Event;
use mt_outside::Peer;

/// How many bytes the line of an event has, with its end, where the event comes at this time, in ms. The event is within the
/// ranges of the format.
pub fn line_size(event: &Event, ms: u64) -> usize
    requires form { HasForm event.now }
    ensures { result ≡ line_size (at_time ms event.now) }
{
    let head = 2 + decimal_size(ms) + 1;
    match event {
        Event::Ask {
            fabric,
            cats,
            payload,
            ..
        } => {
            let who = decimal_size(*fabric as u64) + 1 + subject_size(cats) + 1;
            head + who + 2 + 1 + payload_size(payload.as_slice()) + 1
        }
        Event::Datagram { peer, bytes, .. } => {
            head + peer_size(*peer) + 1 + payload_size(bytes.as_slice()) + 1
        }
        Event::Tick { .. } => head,
        Event::Report {
            fabric,
            subscription,
            ..
        } => head + decimal_size(*fabric as u64) + 1 + decimal_size(*subscription as u64) + 1,
        Event::Resend { session, .. } => head + decimal_size(*session as u64) + 1,
        Event::Stop { calls, fate } => 2 + decimal_size(*calls) + 1 + fate.text().len() + 1,
    }
}

// A number in decimal digits.
fn decimal_size(number: u64) -> usize
    ensures size { result ≡ length (decimal number) }
    ensures few { result ≤ 20 }
{
    let mut buffer = Buffer::new();
    buffer.format(number).len()
}

// Bytes in hex, or `-` for none.
fn payload_size(bytes: &[u8]) -> usize
    requires { length bytes.now ≤ PAYLOAD_BYTES }
    ensures size { result ≡ length (payload_text bytes.now) }
    ensures few { result ≤ 2 * PAYLOAD_BYTES }
{
    if bytes.is_empty() {
        return 1;
    }
    2 * bytes.len()
}

// An address and a port.
fn peer_size(peer: Peer) -> usize
    ensures size { result ≡ length (peer_text peer) }
    ensures few { result ≤ 36 }
{
    2 * peer.ip.as_slice().len() + 4
}

// A node id, and each CAT that is not 0 behind a `+`.
fn subject_size(cats: &[u32; 3]) -> usize
    ensures size { (node : ℕ) → result ≡ length (subject_text node cats.now) }
    ensures few { result ≤ 43 }
{
    16 + cat_size(cats[0]) + cat_size(cats[1]) + cat_size(cats[2])
}

fn cat_size(cat: u32) -> usize
    ensures size { result ≡ length (cat_text cat) }
    ensures few { result ≤ 9 }
{
    if cat == 0 { 0 } else { 9 }
}
