//! What stands in sealed datagrams, opened with the keys that the configuration has for the sessions of the node's boot. Whose
//! a session is, the node itself says, line by line.

ghost use Rattle.std.specs.Prelude.{◌≡◌, IfOk};

use crate::told::{Content, Heading, Letter, Owner};
use mt_frame::{FrameFault, read_message};
use mt_model::{Auth, Config, ExactCopy, NodeSession, SessionRow};
use mt_session::{Dropped, Session};
use std::alloc::{AllocError, Global};

/// The most bytes that a session opens.
const OPENED: usize = 65_535;

/// The boot in which a node begins.
const FIRST_BOOT: u32 = 1;

/// Why a datagram is not opened whose session is not known.
const NO_SESSION: &str = "no session of this boot has its id";

/// A session, once as the node has it, and once as its peer does.
#[derive(Drop)]
struct Keyed {
    /// In which boot it may be used.
    boot: u32,
    /// The node's id of it, which no other session of the boot has; two peers may have chosen one id.
    session: u16,
    received: Session,
    sent: Session,
}

impl Keyed {
    // Whether it is the session of this id in that boot.
    fn is_of(&self, boot: u32, session: u16) -> bool {
        self.boot == boot && self.session == session
    }
}

/// The keys of the sessions of all boots, and which boot it is.
pub(crate) struct Sessions {
    alloc: Global,
    sessions: Vec<Keyed>,
    boot: u32,
}

impl Drop for Sessions {
    fn drop(self) {
        let Sessions {
            alloc: _,
            sessions: _,
            boot: _,
        } = self;
    }
}

impl Sessions {
    pub(crate) fn of(alloc: Global, config: &Config) -> Result<Sessions, AllocError> {
        let mut sessions = Vec::new(alloc);
        for row in config.sessions.as_slice() {
            if let Some(keyed) = with_keys(row)? {
                sessions.push(keyed)?;
            }
        }
        Ok(Sessions {
            alloc,
            sessions,
            boot: FIRST_BOOT,
        })
    }

    /// The node has started again: what it receives and sends is now of the next boot, over whose sessions nothing was said
    /// yet. Its number, and the ids of its sessions.
    pub(crate) fn start_again(&mut self) -> Result<(u32, Vec<u16>), AllocError> {
        self.boot = self.boot.saturating_add(1);
        let mut ids = Vec::new(self.alloc);
        for keyed in &self.sessions {
            if keyed.boot == self.boot {
                ids.push(keyed.session)?;
            }
        }
        Ok((self.boot, ids))
    }

    /// Opens a datagram that a node with these sessions receives.
    pub(crate) fn open_received(
        &mut self,
        sessions: &[NodeSession],
        datagram: &[u8],
    ) -> Result<Letter, AllocError> {
        let heading = match heading_of(datagram) {
            Ok(heading) => heading,
            Err(fault) => return Ok(unread(datagram.len(), fault)),
        };
        let owner = owner(sessions, heading.session);
        let alloc = self.alloc;
        if let Some(keyed) = self.keyed(heading.session) {
            let content = opened(alloc, &mut keyed.received, datagram)?;
            return Ok(letter(heading, owner, datagram.len(), content));
        }
        Ok(letter(heading, owner, datagram.len(), Content::Closed(NO_SESSION)))
    }

    /// Opens a datagram that a node with these sessions sends over one of them. The header names that by the peer's id,
    /// which another session may have too.
    pub(crate) fn open_sent(
        &mut self,
        sessions: &[NodeSession],
        session: u16,
        datagram: &[u8],
    ) -> Result<Letter, AllocError> {
        let heading = match heading_of(datagram) {
            Ok(heading) => heading,
            Err(fault) => return Ok(unread(datagram.len(), fault)),
        };
        let owner = owner(sessions, session);
        let alloc = self.alloc;
        if let Some(keyed) = self.keyed(session) {
            let content = opened(alloc, &mut keyed.sent, datagram)?;
            return Ok(letter(heading, owner, datagram.len(), content));
        }
        Ok(letter(heading, owner, datagram.len(), Content::Closed(NO_SESSION)))
    }

    // The session of this id in the boot that it is.
    fn keyed(&mut self, session: u16) -> Option<&mut Keyed> {
        let boot = self.boot;
        self.sessions
            .iter_mut()
            .find(|keyed| keyed.is_of(boot, session))
    }
}

// Whose session it is that a node has under this id.
fn owner(sessions: &[NodeSession], id: u16) -> Option<Owner> {
    for session in sessions {
        if session.session == id {
            return Some(Owner {
                session: id,
                auth: session.auth,
                standing: session.standing,
                node: session.peer_node,
            });
        }
    }
    None
}

// What the header of a datagram names.
fn heading_of(datagram: &[u8]) -> Result<Heading, FrameFault> {
    match read_message(datagram) {
        Ok((header, _)) => Ok(Heading {
            session: header.session,
            counter: header.counter,
        }),
        Err(fault) => Err(fault),
    }
}

fn letter(heading: Heading, owner: Option<Owner>, length: usize, content: Content) -> Letter {
    Letter {
        heading: Some(heading),
        owner,
        length,
        content,
    }
}

// A datagram without a header that can be read.
fn unread(length: usize, fault: FrameFault) -> Letter {
    Letter {
        heading: None,
        owner: None,
        length,
        content: Content::Closed(frame_fault(fault)),
    }
}

// A session, where it is one of unicast.
fn with_keys(row: &SessionRow) -> Result<Option<Keyed>, AllocError> {
    if row.session == 0 || row.peer_session == 0 || row.auth == Auth::Group {
        return Ok(None);
    }
    let own = row.copy()?;
    let peer = mirrored(row)?;
    Ok(Some(Keyed {
        boot: row.boot,
        session: row.session,
        received: Session::new(own),
        sent: Session::new(peer),
    }))
}

// The session as its peer has it.
fn mirrored(row: &SessionRow) -> Result<SessionRow, AllocError>
    ensures auth { IfOk result (λ mirror. mirror.auth ≡ row.now.auth) }
    ensures session { IfOk result (λ mirror. mirror.session ≡ row.now.peer_session) }
    ensures peer_session { IfOk result (λ mirror. mirror.peer_session ≡ row.now.session) }
{
    Ok(SessionRow {
        session: row.peer_session,
        peer_session: row.session,
        boot: row.boot,
        auth: row.auth,
        root_key: row.root_key.copy()?,
        fabric_id: row.fabric_id,
        own_node: row.peer_node,
        peer_node: row.own_node,
        cats: [0; 3],
        key_in: row.key_out,
        key_out: row.key_in,
        counter_in: row.counter_out,
        counter_out: row.counter_in,
    })
}

// What a session lets in of a datagram.
fn opened(alloc: Global, session: &mut Session, datagram: &[u8]) -> Result<Content, AllocError> {
    let mut bytes = Vec::from_slice(alloc, datagram)?;
    if bytes.len() > OPENED {
        return Ok(Content::Closed("it is longer than a datagram can be"));
    }
    match session.unseal(&mut bytes) {
        Ok(message) => {
            let payload = Vec::from_slice(alloc, message.payload)?;
            Ok(Content::Open {
                header: message.header,
                payload,
            })
        }
        Err(Dropped::Duplicate { counter: _, header }) => Ok(Content::Again(header)),
        Err(dropped) => Ok(Content::Closed(dropped_for(dropped))),
    }
}

// Why a session drops a datagram.
fn dropped_for(dropped: Dropped) -> &'static str {
    match dropped {
        Dropped::Frame(fault) => frame_fault(fault),
        Dropped::OtherSession => "it is of another session",
        Dropped::Source =>
            "it names another sender than the peer, or another receiver than the node",
        Dropped::NotSealed => "nothing is sealed in it under the session's key",
        Dropped::Duplicate { .. } => "it was let in before",
        Dropped::Old => "its counter is more than 32 below the greatest",
    }
}

// What is wrong with a header.
fn frame_fault(fault: FrameFault) -> &'static str {
    match fault {
        FrameFault::Short => "a header is cut off",
        FrameFault::Version => "its message format is of a version other than 0",
        FrameFault::Reserved => "a reserved bit of a header is set",
        FrameFault::Group => "it is of a group session or to a group",
        FrameFault::Private => "its header is obfuscated (the P flag)",
        FrameFault::Extended => "it has extensions (the MX or the SX flag)",
        FrameFault::Unsecured => "it is of session 0, which is not sealed",
        FrameFault::NoRoom => "there is no room for it",
        FrameFault::Control => "it is a control message (the C flag)",
    }
}
