//! What stands over the sessions of a fabric, and whether it is the same in two wholes.

ghost use Rattle.std.specs.Prelude.{◌≡◌, ◌↔◌, ◌∷◌, ◌<◌, [], IfNone, IfSome, IsTrue, length};
ghost use Rattle.mt_whole.specs.Seeing.{is_live_for, standing_in, standings_in, standings_of};

use crate::talks::SessionTalk;
use crate::whole::Whole;
use mt_marks::are_exchanges_same;
use mt_model::NodeSession;
use mt_subs::is_live_as;

/// Whether what stands over a fabric's live sessions is the same in two wholes.
pub(crate) fn are_standings_same(fabric: u8, one: &Whole, other: &Whole) -> bool
    ensures { IsTrue result ↔ (standings_of fabric one.now ≡ standings_of fabric other.now) }
{
    let mine = one.sessions();
    let theirs = other.sessions();
    are_own_same(fabric, mine, &one.talks, theirs, &other.talks)
}

fn are_own_same(
    fabric: u8,
    mine: &[NodeSession],
    talks: &[SessionTalk],
    theirs: &[NodeSession],
    others: &[SessionTalk],
) -> bool
    ensures { IsTrue result ↔ (standings_in fabric mine.now talks.now ≡ standings_in fabric theirs.now others.now) }
{
    let mut rest = talks;
    let mut other_rest = others;
    'talks: while let Some((talk, behind)) = next_own(fabric, mine, rest) {
        let Some((other, others_behind)) = next_own(fabric, theirs, other_rest) else {
            return false;
        };
        if !is_standing_same(talk, other) {
            return false;
        }
        rest = behind;
        other_rest = others_behind;
    }
    next_own(fabric, theirs, other_rest).is_none()
}

// The first talk of a session that is live for the fabric, and all behind it.
fn next_own<'a>(
    fabric: u8,
    sessions: &[NodeSession],
    talks: &'a [SessionTalk],
) -> Option<(&'a SessionTalk, &'a [SessionTalk])>
    ensures none { IfNone result (standings_in fabric sessions.now talks.now ≡ []) }
    ensures found { IfSome result (λ found. standings_in fabric sessions.now talks.now ≡ standing_in found.0.now ∷ standings_in fabric sessions.now found.1.now) }
    ensures behind { IfSome result (λ found. length found.1.now < length talks.now) }
{
    let mut rest = talks;
    'talks: while let [talk, behind @ ..] = rest {
        if is_live_for(fabric, sessions, talk.id) {
            return Some((talk, behind));
        }
        rest = behind;
    }
    None
}

// Whether the session of this id is live for the fabric.
fn is_live_for(fabric: u8, sessions: &[NodeSession], id: u16) -> bool
    ensures { result ≡ is_live_for fabric sessions.now id }
{
    sessions.iter().any(|session| is_live_as(fabric, session.standing) && session.session == id)
}

fn is_standing_same(talk: &SessionTalk, other: &SessionTalk) -> bool
    ensures { IsTrue result ↔ (standing_in talk.now ≡ standing_in other.now) }
{
    talk.id == other.id
        && talk.talk.latest() == other.talk.latest()
        && are_exchanges_same(talk.talk.exchanges(), other.talk.exchanges())
}
