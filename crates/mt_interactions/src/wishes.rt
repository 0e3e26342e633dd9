//! What a request subscribes to.

ghost use Rattle.std.specs.Prelude.{◌≡◌, ◌&&◌, ◌||◌, IfOk};
ghost use Rattle.std.specs.List.{list_any};
ghost use Rattle.mt_meta.specs.Places.{is_not_global};
ghost use Rattle.mt_model.specs.messages.Blocks.{names_item};
ghost use Rattle.mt_runs.specs.mt_ledger.Subscribing.{is_malformed, is_unreadable, names_nothing, wish_in_time, wish_of};
ghost use Rattle.mt_interactions.specs.Subscribing.{wish_as};

use crate::deadlines::is_late;
use mt_meta::is_not_global;
use mt_model::{Actor, ExactCopy, Path, Request, Versions};
use mt_subs::Sub;
use std::alloc::AllocError;

/// What is wished for, by whoever is taken as asking.
#[derive(Drop)]
pub(crate) struct Wish {
    pub(crate) sub: Sub,
    /// Whether the other subscriptions of the same fabric and node stay.
    pub(crate) keeps: bool,
    /// The least number of an event.
    pub(crate) minimum: u64,
    /// Data versions that the subscriber has.
    pub(crate) versions: Versions,
}

/// The wish in a request at this time, in ms; None exactly where it does not subscribe, or is later than its deadline.
pub(crate) fn wish_in_time(
    asking: &Actor,
    timed: Option<u64>,
    ms: u64,
    request: &Request,
) -> Result<Option<Wish>, AllocError>
    ensures { IfOk result (λ wish. wish_as wish ≡ wish_in_time asking.now timed ms request.now) }
{
    if is_late(timed, ms) {
        return Ok(None);
    }
    wish_of(asking, request)
}

fn wish_of(asking: &Actor, request: &Request) -> Result<Option<Wish>, AllocError>
    ensures { IfOk result (λ wish. wish_as wish ≡ wish_of asking.now request.now) }
{
    match request {
        Request::Subscribe {
            keep,
            floor,
            ceiling,
            paths,
            events,
            minimum,
            filtered,
            versions,
        } => Ok(Some(Wish {
            sub: Sub {
                actor: *asking,
                paths: paths.copy()?,
                events: events.copy()?,
                filtered: *filtered,
                floor: *floor,
                ceiling: *ceiling,
            },
            keeps: *keep,
            minimum: *minimum,
            versions: versions.copy()?,
        })),
        _ => Ok(None),
    }
}

/// Whether a wish is refused as a whole: it names nothing; single items of a list, or of every cluster what not every cluster
/// has; or its floor is above its ceiling.
pub(crate) fn is_malformed(sub: &Sub) -> bool
    ensures { result ≡ is_malformed sub.now }
{
    names_nothing(sub) || is_unreadable(sub.paths.as_slice()) || sub.ceiling < sub.floor
}

fn names_nothing(sub: &Sub) -> bool
    ensures { result ≡ names_nothing sub.now }
{
    sub.paths.as_slice().is_empty() && sub.events.as_slice().is_empty()
}

fn is_unreadable(paths: &[Path]) -> bool
    ensures { result ≡ is_unreadable paths.now }
{
    any_item(paths) || any_not_global(paths)
}

fn any_item(paths: &[Path]) -> bool
    ensures { result ≡ list_any names_item paths.now }
{
    paths.iter().any(|path| path.names_item())
}

fn any_not_global(paths: &[Path]) -> bool
    ensures { result ≡ list_any is_not_global paths.now }
{
    paths.iter().any(|path| is_not_global(path))
}
