//! All that is shown of the sessions, as it begins, grows and is compared.

ghost use Rattle.std.specs.Prelude.{◌≡◌, ◌↔◌, ◌<◌, ◌∷◌, [], map, length, position, IfOk, OnErr, OnOk, IsTrue, MatchOption};
ghost use Rattle.mt_runs.specs.Whole.{begun, begun_in};
ghost use Rattle.mt_marks.specs.Noted.{noted, noted_if, noted_talk};
ghost use Rattle.mt_marks.specs.Remembered.{is_told_among, remembered, told_among, told_without_ended};
ghost use Rattle.mt_marks.specs.Told.{is_told_of, talk_in, talks_in};

use crate::shown::{Note, Shown};
use mt_model::{ExactCopy, NodeSession, SessionRow};
use mt_same::{Same, are_items_same};
use std::alloc::{AllocError, Global};
use std::marker::Model;

/// What is shown of the session of a row.
#[derive(Drop)]
pub(crate) struct Told {
    pub(crate) row: SessionRow,
    pub(crate) shown: Vec<Shown>,
}

/// What is shown of the sessions of a boot, in the order of their rows. Contracts see what is remembered of the talks of
/// the written whole.
pub struct ToldTalks {
    talks: Vec<Told>,
}

impl Drop for ToldTalks {
    fn drop(self) {
        let ToldTalks { talks: _ } = self;
    }
}

impl Model for ToldTalks {
    ghost use Rattle.std.specs.Prelude.{List};
    ghost use Rattle.mt_marks.specs.Remembered.{ToldTalk};

    ghost Value = { List ToldTalk };

    ghost use Rattle.mt_marks.specs.Told.{talks_in};

    ghost view = { λ told. talks_in told.talks.items };
}

impl ToldTalks {
    /// Nothing is shown yet of the sessions of a boot. It takes memory, also for copies of the rows.
    pub fn begun(alloc: Global, boot: u32, rows: &[SessionRow]) -> Result<ToldTalks, AllocError>
        ensures { IfOk result (λ talks. talks ≡ map remembered (begun_in boot rows.now)) }
    {
        let talks = begun_talks(alloc, boot, rows)?;
        Ok(ToldTalks { talks })
    }

    /// What a line adds to what is shown of the session that the note names, where there is a note and such a session.
    /// It takes memory; nothing is copied. Where memory is wanting all stays.
    pub fn note(&mut self, note: Option<Note>) -> Result<(), AllocError>
        ensures noted { OnOk result (self.new ≡ noted_if note self.old) }
        ensures kept { OnErr result (self.new ≡ self.old) }
    {
        match note {
            Some(note) => add_note(&mut self.talks, note),
            None => Ok(()),
        }
    }

    /// The exchanges of the sessions of these ids are dropped. It takes memory.
    pub fn let_go(&mut self, closed: &[u16]) -> Result<(), AllocError>
        ensures { OnOk result (self.new ≡ map (told_without_ended closed.now) self.old) }
    {
        let_go(&mut self.talks, closed)
    }

    /// Whether what is shown of the sessions `mine` is what is shown in the other of the sessions `theirs`, row by row. It
    /// takes no memory.
    pub fn are_same_among(
        &self,
        mine: &[NodeSession],
        other: &ToldTalks,
        theirs: &[NodeSession],
    ) -> bool
        ensures { IsTrue result ↔ (told_among mine.now self.now ≡ told_among theirs.now other.now) }
    {
        are_same_among(mine, &self.talks, theirs, &other.talks)
    }
}

fn begun_talks(alloc: Global, boot: u32, rows: &[SessionRow]) -> Result<Vec<Told>, AllocError>
    ensures { IfOk result (λ talks. talks_in talks.items ≡ map remembered (begun_in boot rows.now)) }
{
    let mut talks = Vec::new(alloc);
    for row in rows {
        if row.boot == boot {
            talks.push(begun_with(alloc, row)?)?;
        }
    }
    Ok(talks)
}

fn begun_with(alloc: Global, row: &SessionRow) -> Result<Told, AllocError>
    ensures { IfOk result (λ told. talk_in told ≡ remembered (begun row.now)) }
{
    Ok(Told {
        row: row.copy()?,
        shown: Vec::new(alloc),
    })
}

fn place_of(talks: &[Told], id: u16) -> Option<usize>
    ensures { result ≡ position (is_told_of id) talks.now }
{
    talks.iter().position(|told| told.row.session == id)
}

fn add_note(talks: &mut [Told], note: Note) -> Result<(), AllocError>
    ensures noted { OnOk result (talks_in talks.new ≡ noted note (talks_in talks.old)) }
    ensures kept { OnErr result (talks_in talks.new ≡ talks_in talks.old) }
{
    match place_of(talks, note.session) {
        Some(place) => add_to(&mut talks[place], note),
        None => Ok(()),
    }
}

fn add_to(told: &mut Told, note: Note) -> Result<(), AllocError>
    ensures noted { OnOk result (talk_in told.new ≡ noted_talk note (talk_in told.old)) }
    ensures kept { OnErr result (talk_in told.new ≡ talk_in told.old) }
{
    let mut shown = note.shown.into_vec();
    told.shown.append(&mut shown)?;
    Ok(())
}

fn let_go(talks: &mut [Told], closed: &[u16]) -> Result<(), AllocError>
    ensures { OnOk result (talks_in talks.new ≡ map (told_without_ended closed.now) (talks_in talks.old)) }
{
    for told in talks.iter_mut() {
        let_go_if_ended(told, closed)?;
    }
    Ok(())
}

fn let_go_if_ended(told: &mut Told, closed: &[u16]) -> Result<(), AllocError>
    ensures { OnOk result (talk_in told.new ≡ told_without_ended closed.now (talk_in told.old)) }
{
    if closed.contains(&told.row.session) {
        told.shown.push(Shown::Closed)?;
    }
    Ok(())
}

fn are_same_among(
    mine: &[NodeSession],
    talks: &[Told],
    theirs: &[NodeSession],
    others: &[Told],
) -> bool
    ensures { IsTrue result ↔ (told_among mine.now (talks_in talks.now) ≡ told_among theirs.now (talks_in others.now)) }
{
    let mut rest = talks;
    let mut other_rest = others;
    'pairs: loop {
        match (next_among(mine, rest), next_among(theirs, other_rest)) {
            (Some((told, behind)), Some((other, other_behind))) => {
                if !is_told_same(told, other) {
                    return false;
                }
                rest = behind;
                other_rest = other_behind;
            }
            (None, None) => return true,
            _ => return false,
        }
    }
}

// What is shown of the first that is among the sessions, and of those behind it.
#[tactic(auto, using(crate::proofs::Among::first_among, crate::proofs::Among::rest_among))]
fn next_among<'a>(sessions: &[NodeSession], talks: &'a [Told]) -> Option<(&'a Told, &'a [Told])>
    ensures among { MatchOption result (told_among sessions.now (talks_in talks.now) ≡ []) (λ next. told_among sessions.now (talks_in talks.now) ≡ talk_in next.0.now ∷ told_among sessions.now (talks_in next.1.now)) }
    ensures shorter { MatchOption result (Unit {0}) (λ next. length next.1.now < length talks.now) }
{
    let mut rest = talks;
    'talks: while let Some((told, behind)) = rest.split_first() {
        if is_among(sessions, told) {
            return Some((told, behind));
        }
        rest = behind;
    }
    None
}

fn is_among(sessions: &[NodeSession], told: &Told) -> bool
    ensures { result ≡ is_told_among sessions.now (talk_in told.now) }
{
    sessions
        .iter()
        .any(|session| session.session == told.row.session)
}

fn is_told_same(told: &Told, other: &Told) -> bool
    ensures { IsTrue result ↔ (talk_in told.now ≡ talk_in other.now) }
{
    are_parts_same(told, other)
}

fn are_parts_same(told: &Told, other: &Told) -> bool
    ensures { IsTrue result ↔ ((told.now.row ≡ other.now.row) × (told.now.shown.items ≡ other.now.shown.items)) }
{
    told.row.is_same(&other.row) && are_items_same(&told.shown, &other.shown)
}
