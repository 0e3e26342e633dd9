//! What steps make of the sessions, and of the plain session of PASE.

ghost use Rattle.std.specs.Prelude.{◌≡◌, IfOk, map};
ghost use Rattle.mt_machine.specs.Effects.{is_on, is_pase, is_plain, plain_joined, plain_without, session_completed, session_joined, session_without, standing_completed, standing_joined};

use mt_model::{Actor, Auth, ExactCopy, Fabric, NodeSession, NodeSessions, Standing};
use mt_subs::is_live_as;
use std::alloc::{AllocError, Global};

/// The sessions once commissioning for this fabric is complete: those of PASE that have it end.
pub(crate) fn sessions_completed(
    alloc: Global,
    context: u8,
    sessions: &[NodeSession],
) -> Result<NodeSessions, AllocError>
    ensures { IfOk result (λ behind. behind ≡ map (session_completed context) sessions.now) }
{
    let mut behind = NodeSessions::new(alloc);
    for session in sessions {
        let standing = standing_completed(context, session.auth, session.standing);
        behind.push(with_standing(session, standing)?)?;
    }
    Ok(behind)
}

fn standing_completed(context: u8, auth: Auth, standing: Standing) -> Standing
    ensures { result ≡ standing_completed context auth standing }
{
    match (auth, standing) {
        (Auth::Pase, Standing::Live(fabric)) if fabric == context => Standing::Ended,
        _ => standing,
    }
}

fn with_standing(session: &NodeSession, standing: Standing) -> Result<NodeSession, AllocError>
    ensures { IfOk result (λ behind. behind ≡ record session.now { standing = standing }) }
{
    let mut behind = session.copy()?;
    behind.standing = standing;
    Ok(behind)
}

/// The sessions once this fabric has joined under this index: that of PASE over which it was asked has it from
/// now on, and those that waited for its identity may be used.
pub(crate) fn sessions_joined(
    alloc: Global,
    asking: Option<Actor>,
    index: u8,
    fabric: &Fabric,
    sessions: &[NodeSession],
) -> Result<NodeSessions, AllocError>
    ensures { IfOk result (λ behind. behind ≡ map (session_joined asking index fabric.now) sessions.now) }
{
    let mut behind = NodeSessions::new(alloc);
    for session in sessions {
        behind.push(session_joined(asking, index, fabric, session)?)?;
    }
    Ok(behind)
}

fn session_joined(
    asking: Option<Actor>,
    index: u8,
    fabric: &Fabric,
    session: &NodeSession,
) -> Result<NodeSession, AllocError>
    ensures { IfOk result (λ behind. behind ≡ session_joined asking index fabric.now session.now) }
{
    let fits = fabric.has_identity(session.root_key.as_slice(), session.fabric_id);
    let standing = standing_joined(
        is_on(asking, session),
        index,
        fits,
        session.auth,
        session.standing,
    );
    with_standing(session, standing)
}

// Whether it was asked on this session.
fn is_on(asking: Option<Actor>, session: &NodeSession) -> bool
    ensures { result ≡ is_on asking session.now }
{
    match asking {
        Some(asker) => asker.session == Some(session.session),
        None => false,
    }
}

fn standing_joined(asks: bool, index: u8, fits: bool, auth: Auth, standing: Standing) -> Standing
    ensures { result ≡ standing_joined asks index fits auth standing }
{
    match (auth, standing) {
        (_, Standing::Waits) if fits => Standing::Live(index),
        (Auth::Pase, Standing::Live(_)) if asks => Standing::Live(index),
        _ => standing,
    }
}

/// Whether it was asked over PASE.
pub(crate) fn is_pase(asking: Option<Actor>) -> bool
    ensures { result ≡ is_pase asking }
{
    match asking {
        Some(asker) => asker.auth == Auth::Pase,
        None => false,
    }
}

/// The fabric of the plain session once a fabric has joined under this index: that, where it was asked there.
pub(crate) fn plain_joined(asking: Option<Actor>, index: u8, plain: Option<u8>) -> Option<u8>
    ensures { result ≡ plain_joined asking index plain }
{
    match plain {
        Some(_) if is_plain(asking) => Some(index),
        _ => plain,
    }
}

fn is_plain(asking: Option<Actor>) -> bool
    ensures { result ≡ is_plain asking }
{
    match asking {
        Some(asker) => asker.auth == Auth::Pase && asker.session.is_none(),
        None => false,
    }
}

/// The sessions once this fabric has left the table: those that have it end.
pub(crate) fn sessions_without(
    alloc: Global,
    index: u8,
    sessions: &[NodeSession],
) -> Result<NodeSessions, AllocError>
    ensures { IfOk result (λ behind. behind ≡ map (session_without index) sessions.now) }
{
    let mut behind = NodeSessions::new(alloc);
    for session in sessions {
        behind.push(session_without(index, session)?)?;
    }
    Ok(behind)
}

fn session_without(index: u8, session: &NodeSession) -> Result<NodeSession, AllocError>
    ensures { IfOk result (λ behind. behind ≡ session_without index session.now) }
{
    if is_live_as(index, session.standing) {
        return with_standing(session, Standing::Ended);
    }
    session.copy()
}

/// The fabric of the plain session, which ends where that is this one.
pub(crate) fn plain_without(index: u8, plain: Option<u8>) -> Option<u8>
    ensures { result ≡ plain_without index plain }
{
    match plain {
        Some(fabric) if fabric == index => None,
        _ => plain,
    }
}
