//! Why a line was sent nothing or was refused something, in lines of words.

use mt_ctl::mirror;
use mt_frame::ProtocolHeader;
use mt_im::decode;
use mt_model::{Auth, Config, Event, Request, Sent, SessionRow, To};
use mt_play::{Course, Planned, Playing};
use mt_session::Session;
use mt_soak::count_codes;
use mt_why::{Scene, explain, told};
use std::alloc::{AllocError, Global};

/// In front of each line.
const BLANKS: &str = "      ";

/// The protocol of the interaction model (Matter Core Specification, section 4.4.3, Protocol Header).
const INTERACTION_MODEL: u16 = 1;

/// The most bytes that a session opens.
const OPENED: usize = 65_535;

/// Adds a line for each cause for which a node that is about to play this line sends nothing, or refuses something. None
/// where it is answered all that it asks, and where the disk stops in it.
pub(crate) fn tell(
    alloc: Global,
    text: &mut Vec<u8>,
    config: &Config,
    node: &Playing<'_>,
    event: &Event,
    planned: &Planned,
) -> Result<(), AllocError> {
    let Course::Goes(_) = planned.course() else {
        return Ok(());
    };
    let Some(outcome) = planned.outcome() else {
        return Ok(());
    };
    let request = match &outcome.fresh {
        Some((_, header, payload)) => asked_over(alloc, header, payload.as_slice()),
        None => asked_plainly(alloc, event),
    };
    let codes = codes_sent(alloc, config, node.boot(), event, outcome.sent.as_slice())?;
    let scene = Scene {
        event,
        ms: time_of(event),
        state: node.state(),
        subs: node.subs(),
        request: request.as_ref(),
        is_let_in: outcome.fresh.is_some(),
        is_answered: !outcome.sent.as_slice().is_empty(),
        codes: &codes,
    };
    add_lines(alloc, text, &scene)
}

fn add_lines(alloc: Global, text: &mut Vec<u8>, scene: &Scene<'_>) -> Result<(), AllocError> {
    let causes = explain(alloc, scene)?;
    for cause in causes.as_slice() {
        text.extend_from_slice(BLANKS.as_bytes())?;
        let words = told(alloc, cause)?;
        text.extend_from_slice(words.as_bytes())?;
        text.push(b'\n')?;
    }
    Ok(())
}

// When a line is, 0 of one that stops the disk.
fn time_of(event: &Event) -> u64 {
    match event {
        Event::Ask { ms, .. }
        | Event::Datagram { ms, .. }
        | Event::Tick { ms }
        | Event::Report { ms, .. }
        | Event::Resend { ms, .. } => *ms,
        Event::Stop { .. } => 0,
    }
}

// What a line of a plain actor asks, where it can be read.
fn asked_plainly(alloc: Global, event: &Event) -> Option<Request> {
    match event {
        Event::Ask {
            opcode,
            payload,
            ..
        } => decode(alloc, *opcode, payload.as_slice()).ok(),
        _ => None,
    }
}

// What the message of a datagram asks, where it can be read.
fn asked_over(alloc: Global, header: &ProtocolHeader, payload: &[u8]) -> Option<Request> {
    if !is_interaction(header) {
        return None;
    }
    decode(alloc, header.opcode, payload).ok()
}

fn is_interaction(header: &ProtocolHeader) -> bool {
    header.vendor.is_none() && header.protocol == INTERACTION_MODEL
}

// How often each status code is in what is answered. What is sent again is no answer.
fn codes_sent(
    alloc: Global,
    config: &Config,
    boot: u32,
    event: &Event,
    sent: &[Sent],
) -> Result<[u64; 256], AllocError> {
    let mut codes = [0u64; 256];
    if let Event::Resend { .. } = event {
        return Ok(codes);
    }
    for message in sent {
        match message.to {
            To::Plain { opcode, .. } => count_codes(opcode, message.bytes.as_slice(), &mut codes),
            To::Session { session, .. } => {
                let row = config
                    .sessions
                    .as_slice()
                    .iter()
                    .find(|row| is_of(row, boot, session));
                count_sealed(alloc, row, message.bytes.as_slice(), &mut codes)?;
            }
        }
    }
    Ok(codes)
}

fn is_of(row: &SessionRow, boot: u32, session: u16) -> bool {
    row.boot == boot && row.session == session
}

// Counts the codes of a sealed message, opened as the peer of the session opens it.
fn count_sealed(
    alloc: Global,
    row: Option<&SessionRow>,
    datagram: &[u8],
    codes: &mut [u64; 256],
) -> Result<(), AllocError> {
    let Some(row) = row else {
        return Ok(());
    };
    if row.auth == Auth::Group || row.session == 0 || row.peer_session == 0 {
        return Ok(());
    }
    let mut bytes = Vec::from_slice(alloc, datagram)?;
    if bytes.len() > OPENED {
        return Ok(());
    }
    let mut session = Session::new(mirror(row)?);
    if let Ok(opened) = session.unseal(&mut bytes) {
        if is_interaction(&opened.header) {
            count_codes(opened.header.opcode, opened.payload, codes);
        }
    }
    Ok(())
}
