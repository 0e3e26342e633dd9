//! Who is taken as asking.

ghost use Rattle.std.specs.Prelude.{◌≡◌, ℕ, List};
ghost use Rattle.mt_machine.specs.Lines.{line_actor};
ghost use Rattle.mt_machine.specs.Step.{asker, live_actor, session_actor};
ghost use Rattle.mt_why.specs.Silence.{asking_in};

use crate::silences::{is_among, session_of};
use mt_frame::read_message;
use mt_model::{Actor, Auth, Event, NodeSession, NodeState, Standing};

/// Who is taken as asking in a line of this node, None where nobody is.
pub fn asking(state: &NodeState, event: &Event) -> Option<Actor>
    ensures { result ≡ asking_in state.now event.now }
{
    match event {
        Event::Ask {
            fabric,
            node,
            cats,
            ..
        } => plainly(state, *fabric, *node, *cats),
        Event::Datagram { bytes, .. } => match read_message(bytes.as_slice()) {
            Ok((header, _)) => over(state, header.session),
            Err(_) => None,
        },
        _ => None,
    }
}

// A plain actor: the plain PASE session where the fabric is 0, otherwise a node of the fabric.
fn plainly(state: &NodeState, fabric: u8, node: u64, cats: [u32; 3]) -> Option<Actor>
    ensures { result ≡ asker state.now (line_actor fabric node cats) }
{
    if fabric == 0 {
        return Some(Actor {
            fabric: state.plain?,
            auth: Auth::Pase,
            node: 0,
            cats: [0; 3],
            session: None,
        });
    }
    if !is_among(state.fabrics.as_slice(), fabric) {
        return None;
    }
    Some(Actor {
        fabric,
        auth: Auth::Case,
        node,
        cats,
        session: None,
    })
}

// The actor of a session.
fn over(state: &NodeState, id: u16) -> Option<Actor>
    ensures { result ≡ session_actor state.now id }
{
    live_actor(session_of(state.sessions.as_slice(), id)?)
}

fn live_actor(session: &NodeSession) -> Option<Actor>
    ensures { result ≡ live_actor session.now session.now.standing }
{
    match session.standing {
        Standing::Live(fabric) => Some(Actor {
            fabric,
            auth: session.auth,
            node: session.peer_node,
            cats: session.cats,
            session: Some(session.session),
        }),
        Standing::Waits => None,
        Standing::Ended => None,
    }
}
