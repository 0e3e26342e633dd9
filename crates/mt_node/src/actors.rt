//! Who is taken as asking.

ghost use Rattle.std.specs.Prelude.{◌≡◌, ◌==◌, None, Some, if◌then◌else◌};
ghost use Rattle.std.specs.List.{find};
ghost use Rattle.std.specs.Option.{option_and_then, option_map};
ghost use Rattle.mt_machine.specs.Step.{asker, live_actor, pase_actor, plain_asker, session_actor};
ghost use Rattle.mt_machine.specs.State.{is_among, is_member};
ghost use Rattle.mt_model.specs.declared.node.state.NodeSession.{NodeSession};

use mt_model::{Actor, Auth, Fabric, NodeSession, NodeState, Standing};

/// The actor of a session.
pub fn session_actor(state: &NodeState, session: u16) -> Option<Actor>
    ensures { result ≡ session_actor state.now session }
{
    actor_among(state.sessions.as_slice(), session)
}

fn actor_among(sessions: &[NodeSession], id: u16) -> Option<Actor>
    ensures { result ≡ option_and_then (λ (session : NodeSession). live_actor session session.standing) (find (λ (session : NodeSession). session.session == id) sessions.now) }
{
    for session in sessions {
        if session.session == id {
            return live_actor(session);
        }
    }
    None
}

fn live_actor(session: &NodeSession) -> Option<Actor>
    ensures { result ≡ live_actor session.now session.now.standing }
{
    match session.standing {
        Standing::Live(fabric) => Some(Actor {
            fabric,
            auth: session.auth,
            node: session.peer_node,
            cats: session.cats,
            session: Some(session.session),
        }),
        Standing::Waits => None,
        Standing::Ended => None,
    }
}

/// Who is taken as asking where this actor does.
pub fn asker(state: &NodeState, actor: &Actor) -> Option<Actor>
    ensures { result ≡ asker state.now actor.now }
{
    match actor.session {
        Some(session) => session_actor(state, session),
        None => plain_asker(state, actor),
    }
}

fn plain_asker(state: &NodeState, actor: &Actor) -> Option<Actor>
    ensures { result ≡ plain_asker state.now actor.now actor.now.auth }
{
    match actor.auth {
        Auth::Case => member(state, actor),
        Auth::Pase => {
            if actor.fabric == 0 && actor.node == 0 {
                plain_pase(state)
            } else {
                None
            }
        }
        Auth::Group => None,
    }
}

// An actor whose fabric is in the table.
fn member(state: &NodeState, actor: &Actor) -> Option<Actor>
    ensures { result ≡ (if is_member actor.now.fabric state.now then Some actor.now else None) }
{
    if has_fabric(state.fabrics.as_slice(), actor.fabric) {
        return Some(*actor);
    }
    None
}

/// Whether a fabric of this index is in the table.
pub(crate) fn has_fabric(fabrics: &[Fabric], index: u8) -> bool
    ensures { result ≡ is_among fabrics.now index }
{
    fabrics.iter().any(|fabric| fabric.index == index)
}

// The plain PASE session, with the fabric that it has.
fn plain_pase(state: &NodeState) -> Option<Actor>
    ensures { result ≡ option_map pase_actor state.now.plain }
{
    match state.plain {
        Some(fabric) => Some(Actor {
            fabric,
            auth: Auth::Pase,
            node: 0,
            cats: [0; 3],
            session: None,
        }),
        None => None,
    }
}
