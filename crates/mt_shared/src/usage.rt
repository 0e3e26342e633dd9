//! How much a node is used, for whoever watches it.

ghost use Rattle.std.specs.Prelude.{◌≡◌, count_by, length};
ghost use Rattle.mt_shared.specs.Usage.{is_in_use};

use mt_interactions::Interactions;
use mt_model::{NodeSession, Standing};
use mt_outside::Unwatched;

/// How many sessions of a node are live, and how many subscriptions it has.
#[derive(Clone, Copy, Debug, PartialEq, Eq)]
pub struct Usage {
    pub sessions: usize,
    pub subscriptions: usize,
}

/// Is told how much a node is used, behind each time step of one that is served. Nothing is promised of it: what is sent is the same
/// whoever watches.
pub trait Watcher {
    /// The node is used so much.
    fn sees(&mut self, usage: Usage);
}

impl Watcher for Unwatched {
    fn sees(&mut self, _usage: Usage) {}
}

/// How much a node is used.
pub(crate) fn usage_of(node: &Interactions) -> Usage
    ensures sessions { result.sessions ≡ count_by is_in_use node.now.state.node.sessions }
    ensures subscriptions { result.subscriptions ≡ length node.now.ledger.subs.subscriptions }
{
    Usage {
        sessions: live_count(node.state().sessions.as_slice()),
        subscriptions: node.subs().as_slice().len(),
    }
}

// How many sessions are live.
fn live_count(sessions: &[NodeSession]) -> usize
    ensures { result ≡ count_by is_in_use sessions.now }
{
    sessions
        .iter()
        .filter(|session| is_in_use(*session))
        .count()
}

// Whether a session is live.
fn is_in_use(session: &NodeSession) -> bool
    ensures { result ≡ is_in_use session.now }
{
    match session.standing {
        Standing::Live(_) => true,
        Standing::Waits | Standing::Ended => false,
    }
}
