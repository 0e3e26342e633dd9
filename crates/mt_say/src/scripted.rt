//! The script of a session that lines of words come to.

ghost use Rattle.std.specs.Prelude.{◌≡◌, ◌↔◌, All, IfOk, IsTrue, OnOk, Ok, map};
ghost use Rattle.std.specs.List.{filter_map};
ghost use Rattle.mt_ctl.specs.Script.{script_of};
ghost use Rattle.mt_say.specs.Saying.{IsHeard, event_of};
ghost use Rattle.mt_say.specs.Scripts.{step_of};

use crate::fault::SayFault;
use crate::recorded::events_of;
use crate::saying::Saying;
use mt_ctl::{Kind, Step, script as script_in};
use mt_files::{push_head, push_hex, push_payload};
use mt_model::{Event, LineFault};
use std::alloc::{AllocError, Global};

/// The text of the script of what lines say on a session: a request on a new exchange for each request. It is read again by the
/// reader of scripts before it is given out. What is no request has no place in a script, and is left out.
pub fn script(alloc: Global, sayings: &[Saying]) -> Result<Vec<u8>, SayFault>
    // It is a script of exactly the requests that are said.
    ensures scripted { IfOk result (λ text. script_of text.items ≡ Ok (filter_map step_of (map event_of sayings.now))) }
    // A node decodes each request that is said to exactly that request.
    ensures heard { IfOk result (λ text. All IsHeard sayings.now) }
{
    let said = events_of(alloc, sayings)?;
    let steps = steps_of(alloc, said.as_slice())?;
    let text = script_text(alloc, steps.as_slice())?;
    read_again(alloc, text.as_slice(), steps.as_slice())?;
    Ok(text)
}

// The requests among events.
fn steps_of(alloc: Global, events: &[Event]) -> Result<Vec<Step>, AllocError>
    ensures { IfOk result (λ steps. steps.items ≡ filter_map step_of events.now) }
{
    let mut steps = Vec::new(alloc);
    for event in events {
        if let Some(step) = step_of(event)? {
            steps.push(step)?;
        }
    }
    Ok(steps)
}

fn step_of(event: &Event) -> Result<Option<Step>, AllocError>
    ensures { IfOk result (λ step. step ≡ step_of event.now) }
{
    match event {
        Event::Ask {
            ms,
            opcode,
            payload,
            ..
        } => Ok(Some(Step {
            ms: *ms,
            kind: Kind::New,
            opcode: *opcode,
            payload: payload.copy()?,
        })),
        _ => Ok(None),
    }
}

// The head, and a line for each request.
fn script_text(alloc: Global, steps: &[Step]) -> Result<Vec<u8>, AllocError> {
    let mut text = Vec::new(alloc);
    text.extend_from_slice(b"matter-script 1\n")?;
    for step in steps {
        push_head(b'Q', step.ms, &mut text)?;
        push_hex(&[step.opcode], &mut text)?;
        text.push(b' ')?;
        push_payload(step.payload.as_slice(), &mut text)?;
    }
    Ok(text)
}

// That the text is a script of exactly these requests.
fn read_again(alloc: Global, text: &[u8], steps: &[Step]) -> Result<(), SayFault>
    ensures { OnOk result (script_of text.now ≡ Ok steps.now) }
{
    match script_in(alloc, text) {
        Ok(again) => {
            if are_steps_same(again.as_slice(), steps) {
                Ok(())
            } else {
                Err(SayFault::TooLong)
            }
        }
        Err(LineFault::Memory) => Err(SayFault::Memory),
        Err(_) => Err(SayFault::TooLong),
    }
}

fn are_steps_same(steps: &[Step], others: &[Step]) -> bool
    ensures { IsTrue result ↔ (steps.now ≡ others.now) }
{
    if steps.len() != others.len() {
        return false;
    }
    for i in 0..steps.len() {
        let step = &steps[i];
        let its_other = &others[i];
        if !is_same_step(step, its_other) {
            return false;
        }
    }
    true
}

fn is_same_step(one: &Step, other: &Step) -> bool
    ensures { IsTrue result ↔ (one.now ≡ other.now) }
{
    one.ms == other.ms
        && one.kind == other.kind
        && one.opcode == other.opcode
        && one.payload.equals(&other.payload)
}
