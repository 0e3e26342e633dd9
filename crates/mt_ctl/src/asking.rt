//! The messages of a script as the datagrams that a controller sends.

ghost use Rattle.std.specs.Prelude.{◌≡◌, ◌≢◌, ◌+◌, ◌≤◌, ◌<◌, ℕ, List, [], ◌∷◌, ◌++◌, All, map, length, true, IfOk, IfErr, IfSome, IfNone, OnOk};
ghost use Rattle.mt_frame.specs.Writing.{IsProtocol};
ghost use Rattle.mt_model.specs.declared.tables.access.Auth.TheVariants.{Group};
ghost use Rattle.mt_model.specs.declared.texts.config.SessionRow.{SessionRow};
ghost use Rattle.mt_session.specs.Sessions.{Message, StandsFor, next_counter};
ghost use Rattle.mt_ctl.specs.Asking.{asked, datagrams_told, event_of, exhausted_line as exhausted_line_of};
ghost use Rattle.mt_ctl.specs.Hearing.{answers, numbered};
ghost use Rattle.mt_ctl.specs.Steps.{AreShort, header_of as header_of_step, message_of, next_behind as next_behind_step, script_headers};
ghost use Rattle.mt_ctl.specs.declared.asking.AskFault.TheVariants.{Exhausted, Memory};

use crate::laws::node_opens_what_is_asked;
use crate::mirroring::mirror;
use crate::steps::{Kind, Step, Steps};
use mt_frame::ProtocolHeader;
use mt_model::limits::LAST_COUNTER;
use mt_model::{Event, Events, SessionRow};
use mt_outside::Peer;
use mt_session::{SealFault, Session};
use std::alloc::{AllocError, Global};

/// The interaction model's number among the protocols.
const INTERACTION_MODEL: u16 = 1;

/// From where a controller sends: 127.0.0.1, as its mapped address.
const CONTROLLER: Peer = Peer {
    ip: [0, 0, 0, 0, 0, 0, 0, 0, 0, 0, 0xff, 0xff, 127, 0, 0, 1],
    port: 5540,
};

/// Why nothing is asked.
#[derive(Clone, Copy, Debug, PartialEq, Eq)]
pub enum AskFault {
    /// No counter is left for the message of this line of the script, whose head is line 1.
    Exhausted { line: u64 },
    /// No memory was left.
    Memory,
}

impl From<AllocError> for AskFault {
    ghost use Rattle.mt_ctl.specs.declared.asking.AskFault.TheVariants.{Memory};

    ghost from_gives = { λ _ fault. fault ≡ Memory };

    fn from(_error: AllocError) -> AskFault {
        AskFault::Memory
    }
}

/// The datagrams of a script, as the events that a node with this row meets. They are sealed by a new
/// session of the other side of the row, which needs what `Session::new` needs: the row is of a unicast
/// session, PASE or CASE, whose two ids are not 0. The payloads are as a script has them (`are_short`).
///
/// Whether a counter is left for each message is told before anything is sealed, and takes no memory.
pub fn ask(alloc: Global, row: &SessionRow, steps: &Steps) -> Result<Events, AskFault>
    requires auth { row.now.auth ≢ Group }
    requires session { row.now.session ≢ 0 }
    requires peer_session { row.now.peer_session ≢ 0 }
    requires short { AreShort steps.now }
    // A datagram for each step.
    ensures asked { IfOk result (λ events. events ≡ asked row.now steps.now) }
    // Exhausted exactly where a step would have the last counter, with the line of the first such step.
    ensures exhausted { IfSome (exhausted_line_of row.now steps.now) (λ line. result ≡ Err (Exhausted line)) }
    // Otherwise only memory may lack.
    ensures memory { IfNone (exhausted_line_of row.now steps.now) (IfErr result (λ fault. fault ≡ Memory)) }
    // A new session of the node opens them, in order, to exactly the headers and payloads of the script.
    ensures opened { IfOk result (λ events. answers row.now (datagrams_told events)
        ≡ map Ok (numbered row.now.counter_in (script_headers steps.now))) }
{
    node_opens_what_is_asked();
    // The law asks for their ranges.
    let (_session, _counter) = (row.session, row.counter_in);
    match exhausted_line(row, steps) {
        Some(line) => Err(AskFault::Exhausted { line }),
        None => Ok(sealed(alloc, row, steps.as_slice())?),
    }
}

// The line of the script for which no counter is left.
fn exhausted_line(row: &SessionRow, steps: &Steps) -> Option<u64>
    ensures line { result ≡ exhausted_line_of row.now steps.now }
    ensures enough { IfNone result (row.now.counter_in + length steps.now ≤ 4294967295) }
{
    let left = (LAST_COUNTER - row.counter_in) as usize;
    if steps.len() <= left {
        return None;
    }
    Some(left as u64 + 2)
}

// The datagrams of steps for which there are counters enough.
fn sealed(alloc: Global, row: &SessionRow, steps: &[Step]) -> Result<Events, AllocError>
    requires auth { row.now.auth ≢ Group }
    requires session { row.now.session ≢ 0 }
    requires peer_session { row.now.peer_session ≢ 0 }
    requires short { AreShort steps.now }
    requires enough { row.now.counter_in + length steps.now ≤ 4294967295 }
    ensures asked { IfOk result (λ events. events ≡ asked row.now steps.now) }
    ensures spelled { OnOk result (All (λ message. IsProtocol message.header) (script_headers steps.now)) }
{
    let mut session = Session::new(mirror(row)?);
    let mut events = Vec::new(alloc);
    let mut next = 1;
    for step in steps {
        events.push(sealed_step(&mut session, next, step)?)?;
        next = next_behind(step.kind, next);
    }
    Ok(Events::from_vec(events))
}

// The datagram of a step, where this is the id of the next exchange.
fn sealed_step(session: &mut Session, next: u16, step: &Step) -> Result<Event, AllocError>
    requires short { length step.now.payload ≤ 1198 }
    requires counted { (row : SessionRow) × (messages : List Message) × (StandsFor session.old row [] messages × (next_counter row messages < 4294967295)) }
    ensures event { (row : SessionRow) (messages : List Message) → StandsFor session.old row [] messages
        → IfOk result (λ event. event ≡ event_of row (next_counter row messages) next step.now) }
    ensures stands { (row : SessionRow) (messages : List Message) → StandsFor session.old row [] messages
        → OnOk result (StandsFor session.new row [] (messages ++ message_of next step.now ∷ [])) }
    ensures spelled { IsProtocol (header_of_step next step.now) }
{
    let header = header_of(step, next);
    match session.seal(&header, step.payload.as_slice()) {
        Ok(bytes) => Ok(Event::Datagram {
            ms: step.ms,
            peer: CONTROLLER,
            bytes,
        }),
        Err(SealFault::Memory) => Err(AllocError),
        Err(SealFault::Exhausted) => unreachable!(),
        Err(SealFault::TooLong) => unreachable!(),
    }
}

// The protocol header of a step.
fn header_of(step: &Step, next: u16) -> ProtocolHeader
    ensures value { result ≡ header_of_step next step.now }
    ensures in_range { IsProtocol result }
{
    match step.kind {
        Kind::New => header(true, next, None, step.opcode),
        Kind::Ours { exchange, ack } => header(true, exchange, ack, step.opcode),
        Kind::Node { exchange, ack } => header(false, exchange, ack, step.opcode),
    }
}

// The header of a message on an exchange.
fn header(ours: bool, exchange: u16, ack: Option<u32>, opcode: u8) -> ProtocolHeader
    ensures value { result ≡ record { initiator = ours; reliable = true; opcode = opcode; exchange = exchange; protocol = 1; vendor = None; acknowledged = ack } }
    ensures in_range { IsProtocol result }
{
    ProtocolHeader {
        initiator: ours,
        reliable: true,
        opcode,
        exchange,
        protocol: INTERACTION_MODEL,
        vendor: None,
        acknowledged: ack,
    }
}

// The id of the next exchange behind a step.
fn next_behind(kind: Kind, next: u16) -> u16
    ensures { result ≡ next_behind_step next kind }
{
    match kind {
        Kind::New => next.wrapping_add(1),
        Kind::Ours { .. } => next,
        Kind::Node { .. } => next,
    }
}
