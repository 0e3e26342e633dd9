//! What is to be told of a run, line by line: of all of it, or of what one fabric asked and was sent.

ghost use Rattle.std.specs.Prelude.{◌≡◌, IfOk, IfSome};

use crate::datagrams::Sessions;
use crate::surviving::surviving_expiry;
use crate::told::{Expiry, Letter, Message, Outcome, Restart, Told};
use mt_im::{ImFault, decode};
use mt_model::{Armed, Config, Event, NodeSession, Request, Sent, To};
use mt_outside::Fate;
use std::alloc::{AllocError, Global};

/// A line of a recording as a node plays it.
#[derive(Clone, Copy)]
pub struct Line<'a> {
    /// Its number, from 1.
    pub number: u64,
    pub event: &'a Event,
    /// The sessions of the node's boot, as the line begins.
    pub sessions: &'a [NodeSession],
    /// The fail-safe as the line begins, None where nobody has armed it.
    pub armed: Option<&'a Armed>,
    pub came: Came<'a>,
}

/// What came of a line.
#[derive(Clone, Copy)]
pub enum Came<'a> {
    /// It was carried out, and these messages were sent.
    Sent(&'a [Sent]),
    /// The disk stopped in it: nothing was sent, and the node started again.
    Stopped(DiskStop<'a>),
}

/// A stop of the disk in a line.
#[derive(Clone, Copy)]
pub struct DiskStop<'a> {
    /// What the `X` line asked for by which the disk stopped: in which of the calls to come, 0 for at once, and what becomes
    /// of what was not synced then.
    pub calls: u64,
    pub fate: Fate,
    /// The bytes of the change that the line was to commit, none where it is that `X` line itself.
    pub change: &'a [u8],
    /// Whether that change is there behind the stop.
    pub survives: bool,
}

/// What is asked of a run, and what opens its datagrams. It is told of each line once, in their order.
pub struct Teller {
    alloc: Global,
    sessions: Sessions,
    /// The one fabric that is shown, None where all are.
    pub fabric: Option<u8>,
}

impl Drop for Teller {
    fn drop(self) {
        let Teller {
            alloc: _,
            sessions: _,
            fabric: _,
        } = self;
    }
}

impl Teller {
    /// A teller of a run with this configuration, which tells of the one fabric, or of all where none is given.
    pub fn new(alloc: Global, config: &Config, fabric: Option<u8>) -> Result<Teller, AllocError>
        ensures wanted { IfOk result (λ teller. teller.fabric ≡ fabric) }
    {
        Ok(Teller {
            alloc,
            sessions: Sessions::of(alloc, config)?,
            fabric,
        })
    }

    /// What is to be told of the next line, None where nothing of it is to be shown.
    pub fn told<'a>(&mut self, line: &Line<'a>) -> Result<Option<Told<'a>>, AllocError>
        ensures wanted { self.new.fabric ≡ self.old.fabric }
        ensures number { IfOk result (λ told. IfSome told (λ it. it.line ≡ line.now.number)) }
    {
        let letter = letter_of(&mut self.sessions, line)?;
        let is_wanted = is_shown(self.fabric, asker(line.event, &letter));
        match line.came {
            Came::Sent(sent) => {
                // Of a line that is wanted all messages are: what PASE asks may be answered to the fabric that it has joined.
                let to = if is_wanted { None } else { self.fabric };
                let sessions = &mut self.sessions;
                let messages = messages(self.alloc, sessions, line.sessions, sent, to)?;
                if !is_wanted && messages.is_empty() {
                    return Ok(None);
                }
                Ok(Some(whole(self.alloc, line, letter, Outcome::Sent(messages))))
            }
            Came::Stopped(stop) => {
                let is_known = is_wanted || is_of_nobody(line.event);
                let restart = restarted(self.alloc, &mut self.sessions, line, &stop, is_known)?;
                if is_known {
                    return Ok(Some(whole(self.alloc, line, letter, Outcome::Restarted(restart))));
                }
                Ok(Some(of_others(line, restart)))
            }
        }
    }
}

// A line with all that it says.
fn whole<'a>(
    alloc: Global,
    line: &Line<'a>,
    letter: Option<Letter>,
    outcome: Outcome<'a>,
) -> Told<'a>
    ensures { result.line ≡ line.now.number }
{
    Told {
        line: line.number,
        event: line.event,
        is_of_others: false,
        asked: asked(alloc, line.event),
        letter,
        expiry: expiry(line),
        outcome,
    }
}

// A line of others in which the disk stops: nothing is told of it but that.
fn of_others<'a>(line: &Line<'a>, restart: Restart) -> Told<'a>
    ensures { result.line ≡ line.now.number }
{
    Told {
        line: line.number,
        event: line.event,
        is_of_others: true,
        asked: None,
        letter: None,
        expiry: None,
        outcome: Outcome::Restarted(restart),
    }
}

// The start behind a stop of the disk, with which the next boot begins. Whether the change survives is told only of a line that
// is known whole.
fn restarted(
    alloc: Global,
    keys: &mut Sessions,
    line: &Line<'_>,
    stop: &DiskStop<'_>,
    is_known: bool,
) -> Result<Restart, AllocError> {
    let armed = line.armed.map(|armed| taken_back(armed));
    let expiry = if stop.survives {
        surviving_expiry(alloc, stop.change, armed)?
    } else {
        armed
    };
    let (boot, sessions) = keys.start_again()?;
    let is_told = is_known && !stop.change.is_empty();
    Ok(Restart {
        calls: stop.calls,
        fate: stop.fate,
        survives: if is_told { Some(stop.survives) } else { None },
        boot,
        expiry,
        sessions,
    })
}

// Whether a line is nobody's: a time step or a line that stops the disk.
fn is_of_nobody(event: &Event) -> bool {
    match event {
        Event::Tick { .. } | Event::Stop { .. } => true,
        _ => false,
    }
}

// What stands in the datagram of a line.
fn letter_of(keys: &mut Sessions, line: &Line<'_>) -> Result<Option<Letter>, AllocError> {
    match line.event {
        Event::Datagram { bytes, .. } => {
            let letter = keys.open_received(line.sessions, bytes.as_slice())?;
            Ok(Some(letter))
        }
        _ => Ok(None),
    }
}

// The messages that are to be shown: all, or those to one fabric. Each is opened, since its session is to know of it.
fn messages<'a>(
    alloc: Global,
    keys: &mut Sessions,
    sessions: &[NodeSession],
    sent: &'a [Sent],
    fabric: Option<u8>,
) -> Result<Vec<Message<'a>>, AllocError> {
    let mut messages = Vec::new(alloc);
    for message in sent {
        let letter = match message.to {
            To::Session { session, .. } => {
                let datagram = message.bytes.as_slice();
                Some(keys.open_sent(sessions, session, datagram)?)
            }
            To::Plain { .. } => None,
        };
        if is_shown(fabric, receiver(&message.to, &letter)) {
            messages.push(Message {
                sent: message,
                letter,
            })?;
        }
    }
    Ok(messages)
}

// Whether what is a fabric's is shown where this one is wanted, or all are where none is.
fn is_shown(wanted: Option<u8>, fabric: Option<u8>) -> bool {
    wanted.is_none() || wanted == fabric
}

// What an expiry takes back, where a time step lets the fail-safe expire, which is at its end.
fn expiry(line: &Line<'_>) -> Option<Expiry> {
    let Event::Tick { ms } = line.event else {
        return None;
    };
    let armed = line.armed?;
    if *ms < armed.until {
        return None;
    }
    Some(taken_back(armed))
}

// What an expiry of this fail-safe takes back.
fn taken_back(armed: &Armed) -> Expiry {
    Expiry {
        added: armed.added,
        updated: armed.updated,
    }
}

// What a line of a plain actor asks.
fn asked(alloc: Global, event: &Event) -> Option<Result<Request, ImFault>> {
    match event {
        Event::Ask {
            opcode,
            payload,
            ..
        } => Some(decode(alloc, *opcode, payload.as_slice())),
        _ => None,
    }
}

// The fabric that asks in a line, None where no fabric does.
fn asker(event: &Event, letter: &Option<Letter>) -> Option<u8> {
    match event {
        Event::Ask { fabric, .. } | Event::Report { fabric, .. } => Some(*fabric),
        Event::Datagram { .. } => fabric_of(letter),
        _ => None,
    }
}

// The fabric to which a message goes, None where it goes to none.
fn receiver(to: &To, letter: &Option<Letter>) -> Option<u8> {
    match to {
        To::Plain { fabric, .. } => Some(*fabric),
        To::Session { .. } => fabric_of(letter),
    }
}

// The fabric for which the session of a datagram is live.
fn fabric_of(letter: &Option<Letter>) -> Option<u8> {
    let owner = letter.as_ref()?.owner?;
    owner.fabric()
}
