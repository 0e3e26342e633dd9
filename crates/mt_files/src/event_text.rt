//! The lines of events.

ghost use Rattle.std.specs.Prelude.{◌≡◌, ◌++◌, OnOk};
ghost use Rattle.std.specs.Io.{StartsWith};
ghost use Rattle.mt_files.specs.Event.{event_line};
ghost use Rattle.mt_files.specs.Lines.{ended};

use crate::subject::push_subject;
use crate::writing::{
    push_head, push_last_number, push_letter, push_message, push_number, push_payload, push_peer,
};
use mt_model::Event;
use std::alloc::AllocError;

/// Appends the line of an event, with its end. Where memory runs out, what was there stays in front.
pub fn push_event(event: &Event, out: &mut Vec<u8>) -> Result<(), AllocError>
    ensures written { OnOk result (out.new.items ≡ out.old.items ++ ended (event_line event.now)) }
    ensures kept { StartsWith out.new.items out.old.items }
{
    match event {
        Event::Ask {
            ms,
            fabric,
            node,
            cats,
            opcode,
            payload,
        } => {
            push_head(b'A', *ms, out)?;
            push_number(*fabric as u64, out)?;
            push_subject(*node, *cats, out)?;
            push_message(*opcode, payload.as_slice(), out)
        }
        Event::Datagram { ms, peer, bytes } => {
            push_head(b'D', *ms, out)?;
            push_peer(*peer, out)?;
            push_payload(bytes.as_slice(), out)
        }
        Event::Tick { ms } => {
            push_letter(b'T', out)?;
            push_last_number(*ms, out)
        }
        Event::Report {
            ms,
            fabric,
            subscription,
        } => {
            push_head(b'R', *ms, out)?;
            push_number(*fabric as u64, out)?;
            push_last_number(*subscription as u64, out)
        }
        Event::Resend { ms, session } => {
            push_head(b'M', *ms, out)?;
            push_last_number(*session as u64, out)
        }
        Event::Stop { calls, fate } => {
            push_head(b'X', *calls, out)?;
            out.extend_from_slice(fate.text().as_bytes())?;
            out.push(b'\n')?;
            Ok(())
        }
    }
}
