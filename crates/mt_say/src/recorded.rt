//! The recording that lines of words come to.

ghost use Rattle.std.specs.Prelude.{◌≡◌, All, IfOk, OnOk, Ok, map};
ghost use Rattle.mt_files.specs.Recording.{recording_of, recording_text};
ghost use Rattle.mt_say.specs.Saying.{IsHeard, event_of};

use crate::fault::SayFault;
use crate::saying::{Saying, event_of};
use mt_files::{events, write_event};
use mt_model::{Event, LineFault};
use mt_same::are_items_same;
use std::alloc::{AllocError, Global};

/// The text of the recording of what lines say. It is read again by the node's reader before it is given out.
pub fn recording(alloc: Global, sayings: &[Saying]) -> Result<Vec<u8>, SayFault>
    // It is a recording of exactly the events that are said.
    ensures recorded { IfOk result (λ text. recording_of text.items ≡ Ok (map event_of sayings.now)) }
    // A node decodes each request that is said to exactly that request.
    ensures heard { IfOk result (λ text. All IsHeard sayings.now) }
    // It is the text that a recording of these events is written as.
    ensures written { IfOk result (λ text. text.items ≡ recording_text (map event_of sayings.now)) }
{
    let said = events_of(alloc, sayings)?;
    let text = recording_text(alloc, said.as_slice())?;
    read_again(alloc, text.as_slice(), said.as_slice())?;
    Ok(text)
}

// The events that lines say.
pub(crate) fn events_of(alloc: Global, sayings: &[Saying]) -> Result<Vec<Event>, SayFault>
    ensures said { IfOk result (λ events. events.items ≡ map event_of sayings.now) }
    ensures heard { IfOk result (λ events. All IsHeard sayings.now) }
{
    let mut events = Vec::new(alloc);
    for saying in sayings {
        events.push(event_of(alloc, saying)?)?;
    }
    Ok(events)
}

// The head, and a line for each event.
fn recording_text(alloc: Global, events: &[Event]) -> Result<Vec<u8>, AllocError>
    ensures { IfOk result (λ text. text.items ≡ recording_text events.now) }
{
    let mut text = Vec::new(alloc);
    text.extend_from_slice(b"matter-record 1\n")?;
    for event in events {
        write_event(event, &mut text)?;
    }
    Ok(text)
}

// That the text is a recording of exactly these events.
fn read_again(alloc: Global, text: &[u8], said: &[Event]) -> Result<(), SayFault>
    ensures { OnOk result (recording_of text.now ≡ Ok said.now) }
{
    match events(alloc, text) {
        Ok(again) => {
            if are_items_same(again.as_slice(), said) {
                Ok(())
            } else {
                Err(SayFault::TooLong)
            }
        }
        Err(LineFault::Memory) => Err(SayFault::Memory),
        Err(_) => Err(SayFault::TooLong),
    }
}
