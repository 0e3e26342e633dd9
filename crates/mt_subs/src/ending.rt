//! Which subscriptions end.

ghost use Rattle.std.specs.Prelude.{◌≡◌, ◌==◌, filter};
ghost use Rattle.std.specs.List.{list_any};
ghost use Rattle.mt_model.specs.declared.tables.fabric.Fabric.{Fabric as TableFabric};
ghost use Rattle.mt_subs.specs.Leaving.{is_by_another, is_live_as, is_live_over, is_none_of, is_there, is_there_plainly, left_in, stands_in, without_ids, without_node};

use crate::subs::Subs;
use crate::subscription::Subscription;
use mt_model::{Auth, Fabric, NodeSession, NodeState, Standing};

impl Subs {
    /// Those whose subscriber is not there any more, where this is the state of the node, end: its session must be live
    /// for the fabric of the subscription; a plain actor must have that fabric over PASE, and over CASE it must be in the
    /// table. It takes no memory.
    pub fn end_left(&mut self, state: &NodeState)
        ensures { self.new ≡ left_in state.now self.old }
    {
        self.subscriptions.retain(|s| stands_in(state, s));
    }

    /// Those of a fabric and node end, whatever CATs or session their subscriber has. It takes no memory.
    pub fn end_of_node(&mut self, fabric: u8, node: u64)
        ensures { self.new ≡ without_node fabric node self.old }
    {
        self.subscriptions
            .retain(|s| is_by_another(fabric, node, s));
    }

    /// Those of a fabric that have one of these ids end. It takes no memory.
    pub fn end_all(&mut self, fabric: u8, ids: &[u32])
        ensures { self.new ≡ without_ids fabric ids.now self.old }
    {
        self.subscriptions.retain(|s| is_none_of(fabric, ids, s));
    }
}

fn is_by_another(fabric: u8, node: u64, s: &Subscription) -> bool
    ensures { result ≡ is_by_another fabric node s.now }
{
    !(s.fabric == fabric && s.kept.sub.actor.node == node)
}

fn is_none_of(fabric: u8, ids: &[u32], s: &Subscription) -> bool
    ensures { result ≡ is_none_of fabric ids.now s.now }
{
    !(s.fabric == fabric && is_in(ids, s.id))
}

fn is_in(ids: &[u32], id: u32) -> bool
    ensures { result ≡ list_any (λ other. other == id) ids.now }
{
    ids.iter().any(|other| *other == id)
}

// Whether whoever subscribed is there.
fn stands_in(state: &NodeState, s: &Subscription) -> bool
    ensures { result ≡ stands_in state.now s.now }
{
    let actor = &s.kept.sub.actor;
    match actor.session {
        Some(id) => is_live_over_any(state.sessions.as_slice(), s.fabric, id),
        None => is_there_plainly(state, s.fabric, actor.auth),
    }
}

fn is_live_over_any(sessions: &[NodeSession], fabric: u8, id: u16) -> bool
    ensures { result ≡ list_any (is_live_over fabric id) sessions.now }
{
    sessions
        .iter()
        .any(|session| is_live_over(fabric, id, session))
}

fn is_live_over(fabric: u8, id: u16, session: &NodeSession) -> bool
    ensures { result ≡ is_live_over fabric id session.now }
{
    session.session == id && is_live_as(fabric, session.standing)
}

/// Whether a session of this standing is live for a fabric.
pub fn is_live_as(fabric: u8, standing: Standing) -> bool
    ensures { result ≡ is_live_as fabric standing }
{
    match standing {
        Standing::Live(other) => other == fabric,
        Standing::Waits => false,
        Standing::Ended => false,
    }
}

fn is_there_plainly(state: &NodeState, fabric: u8, auth: Auth) -> bool
    ensures { result ≡ is_there_plainly state.now fabric auth }
{
    match auth {
        Auth::Case => is_in_table(state.fabrics.as_slice(), fabric),
        Auth::Pase => state.plain == Some(fabric),
        Auth::Group => false,
    }
}

fn is_in_table(fabrics: &[Fabric], fabric: u8) -> bool
    ensures { result ≡ list_any (λ (f : TableFabric). f.index == fabric) fabrics.now }
{
    fabrics.iter().any(|f| f.index == fabric)
}
