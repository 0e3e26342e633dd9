//! A call as a line of a recording. The line tells what is done:
//!
//! - `A`: what is asked, over the session whose number is that of the line's fabric; with opcode 01 the report of subscription 1 is
//!   confirmed over that session;
//! - `R`: a subscription is reported to, where that is due;
//! - `T`: the fail-safe expires, where it is time;
//! - `M`: over its session something comes that asks nothing.

ghost use Rattle.std.specs.Prelude.{IfOk};
ghost use Rattle.mt_files.specs.Form.{HasForm};
ghost use Rattle.mt_interactions.specs.Deeds.{IsWithin};

use cases_page::{Page, no_case};
use mt_files::{events, events_have_a_form};
use mt_interactions::{Deed, asked};
use mt_model::Event;
use mt_shared::Call;
use std::alloc::Global;
use std::io;

/// The call of a line.
pub fn call_of(alloc: Global, line: &str) -> io::Result<Call>
    ensures within { IfOk result (λ call. IsWithin call.deed) }
    ensures form { IfOk result (λ call. HasForm call.event) }
{
    let event = event_of(alloc, line)?;
    let deed = deed_of(alloc, &event)?;
    Ok(Call { event, deed })
}

// What a line tells.
fn event_of(alloc: Global, line: &str) -> io::Result<Event>
    ensures { IfOk result HasForm }
{
    events_have_a_form();
    let mut text = Page::new(alloc);
    text.line("matter-record 1");
    text.line(line);
    let Ok(told) = events(alloc, text.whole()?.as_bytes()) else {
        return Err(no_case());
    };
    let mut told = told.into_vec();
    let Some(event) = told.pop() else {
        return Err(no_case());
    };
    Ok(event)
}

// The opcode of a status, with which a report is confirmed.
const STATUS: u8 = 1;

// What it does.
fn deed_of(alloc: Global, event: &Event) -> io::Result<Deed>
    ensures { IfOk result IsWithin }
{
    match event {
        Event::Ask {
            fabric,
            opcode,
            payload,
            ..
        } => deed_asked(alloc, u16::from(*fabric), *opcode, payload.as_slice()),
        Event::Report {
            fabric,
            subscription,
            ..
        } => Ok(Deed::Report {
            fabric: *fabric,
            subscription: *subscription,
        }),
        Event::Tick { .. } => Ok(Deed::Expire),
        Event::Resend { session, .. } => Ok(Deed::Nothing { session: *session }),
        _ => Err(no_case()),
    }
}

fn deed_asked(alloc: Global, session: u16, opcode: u8, payload: &[u8]) -> io::Result<Deed>
    ensures { IfOk result IsWithin }
{
    if opcode == STATUS {
        return Ok(Deed::Confirm {
            session,
            subscription: 1,
        });
    }
    let Ok(request) = asked(alloc, opcode, payload)? else {
        return Err(no_case());
    };
    Ok(Deed::Ask {
        session,
        request,
        timed: None,
    })
}
