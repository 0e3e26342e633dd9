//! Until when the next requests of plain actors must come.

ghost use Rattle.std.specs.Prelude.{◌≡◌, ◌==◌, ◌&&◌, ◌++◌, ◌∷◌, [], not, bytes_eq, Some, IfOk, filter, unwrap_or, if◌then◌else◌};
ghost use Rattle.std.specs.List.{find, list_any};
ghost use Rattle.std.specs.Option.{option_map};
ghost use Rattle.mt_model.specs.tables.Leaving.{stays};
ghost use Rattle.mt_model.specs.declared.node.action.PlainDeadline.{PlainDeadline};
ghost use Rattle.mt_node.specs.mt_machine.Isolation.{is_deadline_in};
ghost use Rattle.mt_node.specs.mt_machine.Lines.{deadline_at, deadline_of, has_room, is_deadline_of, is_refused, is_timed, later_by, with_deadline, without};
ghost use Rattle.mt_node.specs.mt_machine.Step.{is_late};
ghost use Rattle.mt_interactions.specs.Plan.{left_without, others_in};

use mt_im::ImFault;
use mt_model::limits::PLAIN_DEADLINES;
use mt_model::{Actor, PlainDeadline, PlainDeadlines, Request, stays};
use std::alloc::{AllocError, Global};

/// Until when the next request of an actor must come, where that is set.
pub(crate) fn deadline_of(deadlines: &[PlainDeadline], asking: &Actor) -> Option<u64>
    ensures { result ≡ deadline_of asking.now deadlines.now }
{
    for deadline in deadlines {
        if is_deadline_of(asking, deadline) {
            return Some(deadline.until);
        }
    }
    None
}

fn is_deadline_of(asking: &Actor, deadline: &PlainDeadline) -> bool
    ensures { result ≡ is_deadline_of asking.now deadline.now }
{
    deadline.fabric == asking.fabric
        && deadline.node == asking.node
        && are_same(&deadline.cats, &asking.cats)
}

fn are_same(cats: &[u32; 3], others: &[u32; 3]) -> bool
    ensures { result ≡ bytes_eq cats.now others.now }
{
    cats == others
}

// Whether fewer than four other actors of the fabric have a deadline.
fn has_room(deadlines: &[PlainDeadline], asking: &Actor) -> bool
    ensures { result ≡ has_room asking.now deadlines.now }
{
    others(deadlines, asking) < PLAIN_DEADLINES
}

// How many other actors of the fabric have a deadline.
fn others(deadlines: &[PlainDeadline], asking: &Actor) -> usize
    ensures { result ≡ others_in asking.now deadlines.now }
{
    let mut count = 0;
    for deadline in deadlines {
        if !is_deadline_of(asking, deadline) && deadline.fabric == asking.fabric {
            count += 1;
        }
    }
    count
}

/// Whether a request sets a time for which there is no room. One that is late is refused for that.
pub(crate) fn is_refused(
    deadlines: &[PlainDeadline],
    asking: &Actor,
    ms: u64,
    request: &Request,
) -> bool
    ensures { result ≡ is_refused asking.now deadlines.now ms request.now }
{
    match request {
        Request::Timed { .. } => {
            !has_room(deadlines, asking) && !is_late(deadline_of(deadlines, asking), ms)
        }
        _ => false,
    }
}

// Whether a deadline has passed.
pub(crate) fn is_late(deadline: Option<u64>, now: u64) -> bool
    ensures { result ≡ is_late deadline now }
{
    match deadline {
        Some(deadline) => deadline < now,
        None => false,
    }
}

/// The deadlines behind what an actor sent: its own is taken away, and what sets a time, in time and
/// with room, sets the next one. None where they stay as they are.
pub(crate) fn next_deadlines(
    alloc: Global,
    deadlines: &[PlainDeadline],
    asking: &Actor,
    ms: u64,
    asked: &Result<Request, ImFault>,
) -> Result<Option<PlainDeadlines>, AllocError>
    ensures { IfOk result (λ new. unwrap_or new deadlines.now ≡ with_deadline asking.now deadlines.now ms asked.now) }
{
    match asked {
        Ok(Request::Timed { ms: wait }) => timed(alloc, deadlines, asking, ms, *wait),
        _ => taken_away(alloc, deadlines, asking),
    }
}

fn timed(
    alloc: Global,
    deadlines: &[PlainDeadline],
    asking: &Actor,
    ms: u64,
    wait: u16,
) -> Result<Option<PlainDeadlines>, AllocError>
    ensures { IfOk result (λ new. unwrap_or new deadlines.now ≡ (if has_room asking.now deadlines.now && not (is_late (deadline_of asking.now deadlines.now) ms)
        then without asking.now deadlines.now ++ deadline_at asking.now (later_by wait ms) ∷ [] else without asking.now deadlines.now)) }
{
    if has_room(deadlines, asking) && !is_late(deadline_of(deadlines, asking), ms) {
        let mut rest = without(alloc, deadlines, asking)?;
        rest.push(deadline_at(asking, ms.saturating_add(wait as u64)))?;
        return Ok(Some(rest));
    }
    taken_away(alloc, deadlines, asking)
}

fn deadline_at(asking: &Actor, until: u64) -> PlainDeadline
    ensures { result ≡ deadline_at asking.now until }
{
    PlainDeadline {
        fabric: asking.fabric,
        node: asking.node,
        cats: asking.cats,
        until,
    }
}

/// What is left of the deadlines behind a line where this fabric goes, if any. None where they stay as they are.
pub(crate) fn left_without(
    alloc: Global,
    deadlines: &[PlainDeadline],
    behind: Option<PlainDeadlines>,
    gone: Option<u8>,
) -> Result<Option<PlainDeadlines>, AllocError>
    ensures { IfOk result (λ left. unwrap_or left deadlines.now ≡ left_without gone (unwrap_or behind deadlines.now)) }
{
    let Some(fabric) = gone else {
        return Ok(behind);
    };
    let left = match &behind {
        Some(behind) => without_fabric(alloc, behind.as_slice(), fabric)?,
        None => without_fabric(alloc, deadlines, fabric)?,
    };
    Ok(Some(left))
}

// The deadlines of other fabrics.
fn without_fabric(
    alloc: Global,
    deadlines: &[PlainDeadline],
    fabric: u8,
) -> Result<PlainDeadlines, AllocError>
    ensures { IfOk result (λ rest. rest ≡ filter (λ (deadline : PlainDeadline). stays (Some fabric) deadline.fabric) deadlines.now) }
{
    let mut rest = PlainDeadlines::new(alloc);
    for deadline in deadlines {
        if stays(Some(fabric), deadline.fabric) {
            rest.push(*deadline)?;
        }
    }
    Ok(rest)
}

// The deadlines of others, None where the actor has none.
fn taken_away(
    alloc: Global,
    deadlines: &[PlainDeadline],
    asking: &Actor,
) -> Result<Option<PlainDeadlines>, AllocError>
    ensures { IfOk result (λ new. unwrap_or new deadlines.now ≡ without asking.now deadlines.now) }
{
    if !has_deadline(deadlines, asking) {
        return Ok(None);
    }
    let rest = without(alloc, deadlines, asking)?;
    Ok(Some(rest))
}

fn has_deadline(deadlines: &[PlainDeadline], asking: &Actor) -> bool
    ensures { result ≡ list_any (is_deadline_of asking.now) deadlines.now }
{
    deadlines
        .iter()
        .any(|deadline| is_deadline_of(asking, deadline))
}

fn without(
    alloc: Global,
    deadlines: &[PlainDeadline],
    asking: &Actor,
) -> Result<PlainDeadlines, AllocError>
    ensures { IfOk result (λ rest. rest ≡ without asking.now deadlines.now) }
{
    let mut rest = PlainDeadlines::new(alloc);
    for deadline in deadlines {
        if !is_deadline_of(asking, deadline) {
            rest.push(*deadline)?;
        }
    }
    Ok(rest)
}
