//! Why nothing was sent for a line.

ghost use Rattle.std.specs.Prelude.{◌≡◌, ℕ, List, not, true, IfNone, IfSome, IsSome, None, Some, is_some, option_copied, if◌then◌else◌};
ghost use Rattle.std.specs.List.{find};
ghost use Rattle.mt_machine.specs.Lines.{line_actor};
ghost use Rattle.mt_machine.specs.State.{is_among};
ghost use Rattle.mt_machine.specs.Step.{asker, session_actor};
ghost use Rattle.mt_subs.specs.Owed.{has_passed, may_read};
ghost use Rattle.mt_subs.specs.Subscriptions.{kept_at};
ghost use Rattle.mt_why.specs.Causes.{Holds, IsOfFabric, IsOfLine, IsOfSession, IsOfSubscription};
ghost use Rattle.mt_why.specs.Silence.{IsSpared, asks_no_answer, has_fabric, has_id, has_lost_fabric, has_news, is_news, may_be_due};
ghost use Rattle.mt_why.specs.declared.cause.Cause.TheVariants.{FabricLeft, SessionEnded, Suppressed};

use crate::cause::Cause;
use crate::scene::Scene;
use mt_acl::grants_if_asked;
use mt_frame::read_message;
use mt_meta::{Asked, is_named_by, privilege_asked};
use mt_model::{
    AclEntry, Actor, Auth, ChangeNumber, Event, Fabric, NodeSession, Place, Request, Standing,
};
use mt_subs::Kept;

/// Why nothing was sent for a line. A time step and a line that stops the disk are sent nothing ever, and have no cause.
pub fn silence(scene: &Scene<'_>) -> Option<Cause>
    ensures holds { IfSome result (Holds scene.now) }
    ensures line { IfSome result (IsOfLine scene.now.event.now) }
    ensures found { IfNone result (IsSpared scene.now.state.now scene.now.subs.now scene.now.ms scene.now.event.now) }
{
    match scene.event {
        Event::Ask { fabric, .. } => silent_ask(scene, *fabric),
        Event::Datagram { bytes, .. } => match read_message(bytes.as_slice()) {
            Ok((header, _)) => Some(silent_datagram(scene, header.session)),
            Err(fault) => Some(Cause::NoHeader { fault }),
        },
        Event::Report {
            fabric,
            subscription,
            ..
        } => silent_report(scene, *fabric, *subscription),
        Event::Resend { session, .. } => Some(silent_resend(scene, *session)),
        Event::Tick { .. } => None,
        Event::Stop { .. } => None,
    }
}

// Why a plain actor of a fabric is sent nothing.
fn silent_ask(scene: &Scene<'_>, fabric: u8) -> Option<Cause>
    ensures holds { IfSome result (Holds scene.now) }
    ensures line { IfSome result (IsOfFabric fabric) }
    ensures found { (node : ℕ) (cats : List ℕ) → IfNone result (IsSome (asker scene.now.state.now (line_actor fabric node cats))) }
{
    if fabric == 0 {
        if scene.state.plain.is_none() {
            return Some(Cause::PlainEnded);
        }
        return suppressed(scene);
    }
    if !is_among(scene.state.fabrics.as_slice(), fabric) {
        return Some(Cause::NoFabric { fabric });
    }
    suppressed(scene)
}

// That the request wants no answer.
fn suppressed(scene: &Scene<'_>) -> Option<Cause>
    ensures { result ≡ (if asks_no_answer (option_copied scene.now.request) then Some Suppressed else None) }
{
    match scene.request {
        Some(Request::Write { suppress: true, .. }) => Some(Cause::Suppressed),
        Some(Request::Invoke { suppress: true, .. }) => Some(Cause::Suppressed),
        _ => None,
    }
}

/// Whether a fabric of this index is in the table.
pub(crate) fn is_among(fabrics: &[Fabric], index: u8) -> bool
    ensures { result ≡ is_among fabrics.now index }
{
    fabrics.iter().any(|fabric| fabric.index == index)
}

// Why nothing is sent for a datagram to the session of this id.
fn silent_datagram(scene: &Scene<'_>, id: u16) -> Cause
    ensures holds { Holds scene.now result }
    ensures line { IsOfSession id result }
{
    if let Some(cause) = closed(scene, id) {
        return cause;
    }
    if !scene.is_let_in {
        return Cause::NotLetIn { session: id };
    }
    match suppressed(scene) {
        Some(cause) => cause,
        None => Cause::NothingToAnswer { session: id },
    }
}

// Why nothing is sent again over the session of this id.
fn silent_resend(scene: &Scene<'_>, id: u16) -> Cause
    ensures holds { Holds scene.now result }
    ensures line { IsOfSession id result }
{
    match closed(scene, id) {
        Some(cause) => cause,
        None => Cause::NothingToResend { session: id },
    }
}

// Why the session of this id is not live, None exactly where it is.
fn closed(scene: &Scene<'_>, id: u16) -> Option<Cause>
    ensures holds { IfSome result (Holds scene.now) }
    ensures line { IfSome result (IsOfSession id) }
    ensures live { is_some result ≡ not (is_some (session_actor scene.now.state.now id)) }
{
    let Some(session) = session_of(scene.state.sessions.as_slice(), id) else {
        return Some(Cause::NoSession { session: id });
    };
    match session.standing {
        Standing::Live(_) => None,
        Standing::Waits => Some(Cause::SessionWaits { session: id }),
        Standing::Ended => Some(ended(
            has_lost_fabric(scene.state.fabrics.as_slice(), session),
            id,
        )),
    }
}

// A session that has ended, by whether the table has lost the fabric of its identity.
fn ended(is_lost: bool, id: u16) -> Cause
    ensures { result ≡ (if is_lost then FabricLeft id else SessionEnded id) }
{
    if is_lost {
        return Cause::FabricLeft { session: id };
    }
    Cause::SessionEnded { session: id }
}

pub(crate) fn session_of(sessions: &[NodeSession], id: u16) -> Option<&NodeSession>
    ensures { option_copied result ≡ find (has_id id) sessions.now }
{
    sessions.iter().find(|session| session.session == id)
}

// Whether a session has the identity of a fabric, and none in the table has that. On PASE it has none.
fn has_lost_fabric(fabrics: &[Fabric], session: &NodeSession) -> bool
    ensures { result ≡ has_lost_fabric fabrics.now session.now }
{
    match session.auth {
        Auth::Case => !has_fabric(fabrics, session),
        Auth::Pase | Auth::Group => false,
    }
}

fn has_fabric(fabrics: &[Fabric], session: &NodeSession) -> bool
    ensures { result ≡ has_fabric fabrics.now session.now }
{
    fabrics.iter().any(|fabric| fabric.has_identity(session.root_key.as_slice(), session.fabric_id))
}

// Why a report step tells nothing to a subscription.
fn silent_report(scene: &Scene<'_>, fabric: u8, id: u32) -> Option<Cause>
    ensures holds { IfSome result (Holds scene.now) }
    ensures line { IfSome result (IsOfSubscription fabric id) }
    ensures found { IfNone result (may_be_due scene.now.state.now scene.now.ms (kept_at fabric id scene.now.subs.now) ≡ true) }
{
    let Some(kept) = scene.subs.get(fabric, id) else {
        return Some(Cause::NotSubscribed {
            fabric,
            subscription: id,
        });
    };
    if !kept.live {
        return Some(Cause::NotConfirmed {
            fabric,
            subscription: id,
        });
    }
    undue(scene, fabric, id, kept)
}

// Why a subscription that is live is not due.
fn undue(scene: &Scene<'_>, fabric: u8, id: u32, kept: &Kept) -> Option<Cause>
    requires kept { kept_at fabric id scene.now.subs.now ≡ Some kept.now }
    requires live { kept.now.live ≡ true }
    ensures holds { IfSome result (Holds scene.now) }
    ensures line { IfSome result (IsOfSubscription fabric id) }
    ensures found { IfNone result (may_be_due scene.now.state.now scene.now.ms (Some kept.now) ≡ true) }
{
    if has_passed(kept.sub.ceiling, kept.time, scene.ms) {
        return None;
    }
    if !has_passed(kept.sub.floor, kept.time, scene.ms) {
        return Some(Cause::TooEarly {
            fabric,
            subscription: id,
            floor: kept.sub.floor,
            last: kept.time,
        });
    }
    if has_news(scene, kept) {
        return None;
    }
    Some(Cause::NothingDue {
        fabric,
        subscription: id,
        ceiling: kept.sub.ceiling,
        last: kept.time,
    })
}

// Whether so many seconds lie between the latest report and now, both in ms.
fn has_passed(seconds: u16, last: u64, now: u64) -> bool
    ensures { result ≡ has_passed seconds last now }
{
    1_000 * seconds as u64 <= now.saturating_sub(last)
}

// Whether an attribute that a subscription names and its subscriber may read has changed since its latest report.
fn has_news(scene: &Scene<'_>, kept: &Kept) -> bool
    ensures { result ≡ has_news scene.now.state.now kept.now }
{
    let entries = scene.state.entries.as_slice();
    scene
        .state
        .changes
        .as_slice()
        .iter()
        .any(|change| is_news(entries, kept, change))
}

fn is_news(entries: &[AclEntry], kept: &Kept, change: &ChangeNumber) -> bool
    ensures { result ≡ is_news entries.now kept.now change.now }
{
    kept.change < change.number
        && is_named_by(kept.sub.paths.as_slice(), &change.place)
        && may_read(entries, &kept.sub.actor, &change.place)
}

fn may_read(entries: &[AclEntry], actor: &Actor, place: &Place) -> bool
    ensures { result ≡ may_read entries.now actor.now place.now }
{
    grants_if_asked(
        entries,
        actor,
        place,
        privilege_asked(place, Asked::Read),
        false,
    )
}
