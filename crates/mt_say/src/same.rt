//! Whether two requests are the same.

ghost use Rattle.std.specs.Prelude.{◌≡◌, ◌↔◌, IsTrue};
ghost use Rattle.mt_model.specs.declared.messages.message.Request.TheVariants.{Invoke, Read, Status, Subscribe, Timed, Write};

use mt_model::{Paths, Place, Request, Versions, WriteItem, Writes};
use mt_same::Same;
use mt_tlv::Value;

/// Whether two requests ask the same. It takes no memory.
pub(crate) fn is_same_request(one: &Request, other: &Request) -> bool
    ensures { IsTrue result ↔ (one.now ≡ other.now) }
{
    match one {
        Request::Status { code } => is_status(other, *code),
        Request::Read {
            paths,
            events,
            minimum,
            filtered,
            versions,
        } => is_read(other, paths, events, *minimum, *filtered, versions),
        Request::Subscribe {
            keep,
            floor,
            ceiling,
            paths,
            events,
            minimum,
            filtered,
            versions,
        } => {
            is_subscribe(
                other, *keep, *floor, *ceiling, paths, events, *minimum, *filtered, versions,
            )
        }
        Request::Write {
            suppress,
            timed,
            items,
        } => is_write(other, *suppress, *timed, items),
        Request::Invoke {
            suppress,
            timed,
            command,
            fields,
        } => is_invoke(other, *suppress, *timed, command, fields),
        Request::Timed { ms } => is_timed(other, *ms),
    }
}

fn is_status(request: &Request, its_code: u8) -> bool
    ensures { IsTrue result ↔ (Status its_code ≡ request.now) }
{
    match request {
        Request::Status { code } => *code == its_code,
        _ => false,
    }
}

fn is_read(
    request: &Request,
    its_paths: &Paths,
    its_events: &Paths,
    least: u64,
    own: bool,
    known: &Versions,
) -> bool
    ensures { IsTrue result ↔ (Read its_paths.now its_events.now least own known.now ≡ request.now) }
{
    match request {
        Request::Read {
            paths,
            events,
            minimum,
            filtered,
            versions,
        } => {
            paths.is_same(its_paths)
                && events.is_same(its_events)
                && *minimum == least
                && *filtered == own
                && versions.is_same(known)
        },
        _ => false,
    }
}

fn is_subscribe(
    request: &Request,
    beside: bool,
    shortest: u16,
    longest: u16,
    its_paths: &Paths,
    its_events: &Paths,
    least: u64,
    own: bool,
    known: &Versions,
) -> bool
    ensures { IsTrue result ↔ (Subscribe beside shortest longest its_paths.now its_events.now least own known.now ≡ request.now) }
{
    match request {
        Request::Subscribe {
            keep,
            floor,
            ceiling,
            paths,
            events,
            minimum,
            filtered,
            versions,
        } => {
            *keep == beside
                && *floor == shortest
                && *ceiling == longest
                && paths.is_same(its_paths)
                && events.is_same(its_events)
                && *minimum == least
                && *filtered == own
                && versions.is_same(known)
        },
        _ => false,
    }
}

fn is_write(request: &Request, unanswered: bool, announced: bool, writes: &Writes) -> bool
    ensures { IsTrue result ↔ (Write unanswered announced writes.now ≡ request.now) }
{
    match request {
        Request::Write {
            suppress,
            timed,
            items,
        } => {
            *suppress == unanswered
                && *timed == announced
                && are_writes_same(items.as_slice(), writes.as_slice())
        },
        _ => false,
    }
}

fn are_writes_same(writes: &[WriteItem], others: &[WriteItem]) -> bool
    ensures { IsTrue result ↔ (writes.now ≡ others.now) }
{
    if writes.len() != others.len() {
        return false;
    }
    for i in 0..writes.len() {
        let item = &writes[i];
        let its_other = &others[i];
        if !is_same_write(item, its_other) {
            return false;
        }
    }
    true
}

fn is_same_write(one: &WriteItem, other: &WriteItem) -> bool
    ensures { IsTrue result ↔ (one.now ≡ other.now) }
{
    one.path.is_same(&other.path) && one.version == other.version && one.value.equals(&other.value)
}

fn is_invoke(
    request: &Request,
    unanswered: bool,
    announced: bool,
    its_command: &Place,
    its_fields: &Value,
) -> bool
    ensures { IsTrue result ↔ (Invoke unanswered announced its_command.now its_fields.now ≡ request.now) }
{
    match request {
        Request::Invoke {
            suppress,
            timed,
            command,
            fields,
        } => {
            *suppress == unanswered
                && *timed == announced
                && *command == *its_command
                && fields.equals(its_fields)
        },
        _ => false,
    }
}

fn is_timed(request: &Request, timeout: u16) -> bool
    ensures { IsTrue result ↔ (Timed timeout ≡ request.now) }
{
    match request {
        Request::Timed { ms } => *ms == timeout,
        _ => false,
    }
}
