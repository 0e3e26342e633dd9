//! What is said over the sessions of a node.

ghost use Rattle.std.specs.Prelude.{◌≡◌, List, Some, true, IfOk, map, option_copied};
ghost use Rattle.std.specs.List.{find, list_all};
ghost use Rattle.mt_model.specs.texts.Config.{is_session};
ghost use Rattle.mt_interactions.specs.mt_runs.Whole.{SessionTalk as Told, begun, begun_in, without_ended};
ghost use Rattle.mt_whole.specs.Talks.{AreTalks, IsTalkAt, is_code_of, put};

use mt_model::{ExactCopy, SessionRow};
use mt_talk::Talk;
use std::alloc::{AllocError, Global};

/// What is said over the session of an id.
pub struct SessionTalk {
    pub(crate) id: u16,
    pub(crate) talk: Talk,
}

impl Drop for SessionTalk {
    fn drop(self) {
        let SessionTalk { id: _, talk: _ } = self;
    }
}

/// The talks of the sessions of a boot, in which nothing has been said.
pub(crate) fn begun(
    alloc: Global,
    boot: u32,
    rows: &[SessionRow],
) -> Result<Vec<SessionTalk>, AllocError>
    requires { list_all is_session rows.now ≡ true }
    ensures { IfOk result (λ talks. AreTalks talks.items (begun_in boot rows.now)) }
{
    let mut talks = Vec::new(alloc);
    for row in rows {
        if row.boot == boot {
            talks.push(begun_with(alloc, row)?)?;
        }
    }
    Ok(talks)
}

fn begun_with(alloc: Global, row: &SessionRow) -> Result<SessionTalk, AllocError>
    requires { is_session row.now ≡ true }
    ensures { IfOk result (λ talk. IsTalkAt talk (begun row.now)) }
{
    Ok(SessionTalk {
        id: row.session,
        talk: Talk::new(alloc, row.copy()?),
    })
}

/// The talk of the session of this id, where there is one.
pub(crate) fn talk_of(talks: &[SessionTalk], id: u16) -> Option<&SessionTalk>
    ensures { option_copied result ≡ find (is_code_of id) talks.now }
{
    talks.iter().find(|talk| talk.id == id)
}

/// Puts a talk, where there is one, in the place of that of its session.
pub(crate) fn put_if_any(talks: &mut [SessionTalk], new: Option<SessionTalk>)
    ensures { talks.new ≡ put new talks.old }
{
    if let Some(new) = new {
        put(talks, new);
    }
}

fn put(talks: &mut [SessionTalk], new: SessionTalk)
    ensures { talks.new ≡ put (Some new) talks.old }
{
    for talk in talks.iter_mut() {
        if talk.id == new.id {
            *talk = new;
            return;
        }
    }
}

/// Sessions that end let go of all their exchanges.
pub(crate) fn let_go(talks: &mut [SessionTalk], closed: &[u16])
    ensures { (ts : List Told) → AreTalks talks.old ts → AreTalks talks.new (map (without_ended closed.now) ts) }
{
    for talk in talks.iter_mut() {
        let_go_if_ended(talk, closed);
    }
}

fn let_go_if_ended(talk: &mut SessionTalk, closed: &[u16])
    ensures { (t : Told) → IsTalkAt talk.old t → IsTalkAt talk.new (without_ended closed.now t) }
{
    if closed.contains(&talk.id) {
        talk.talk.drop_all();
    }
}
