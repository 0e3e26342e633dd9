//! The table of requests: which area answers each.

ghost use Rattle.std.specs.Prelude.{◌≡◌, [], IfOk};
ghost use Rattle.mt_model.specs.messages.Status.{code_of};
ghost use Rattle.mt_model.specs.declared.messages.message.Reply.TheVariants.{Nothing};
ghost use Rattle.mt_machine.specs.Step.{at_time, is_untimely, refusal, unless_suppressed};
ghost use Rattle.mt_node.specs.Answered.{IsAnswer};
ghost use Rattle.mt_node.specs.Configured.{given_to};

use crate::node::Node;
use crate::{commands, reads, writes};
use mt_model::{Actor, Effect, Reply, Request, Status, Steps, Verdicts};
use std::alloc::{AllocError, Global};

/// What a request of whoever is taken as asking is answered at this time, in ms, where a deadline stood for it or
/// none did. What subscribes is answered by whoever keeps the subscriptions.
pub(crate) fn answered<V: Verdicts>(
    node: &Node,
    asking: &Actor,
    stood: bool,
    request: &Request,
    now: u64,
    verdicts: &V,
) -> Result<Effect, AllocError>
    ensures { let given = given_to node.now (V.roots verdicts.now) (V.csrs verdicts.now) (V.joins verdicts.now) in
        IfOk result (IsAnswer given (at_time now node.now.state) asking.now stood request.now) }
{
    match request {
        Request::Status { .. } => Ok(refused(node.alloc, Status::InvalidAction)),
        Request::Read {
            paths,
            filtered,
            versions,
            ..
        } => reads::answered(node, asking, paths, *filtered, versions),
        Request::Subscribe { .. } => Ok(nothing(node.alloc)),
        Request::Write {
            suppress,
            timed,
            items,
        } => writes::answered(node, asking, stood, *suppress, *timed, items),
        Request::Invoke {
            suppress,
            timed,
            command,
            fields,
        } => commands::answered(
            node, asking, stood, *suppress, *timed, command, fields, now, verdicts,
        ),
        Request::Timed { .. } => Ok(refused(node.alloc, Status::Success)),
    }
}

/// A status for the whole request, which changes nothing.
pub(crate) fn refused(alloc: Global, status: Status) -> Effect
    ensures { result ≡ record { reply = refusal (code_of status); steps = [] } }
{
    Effect {
        reply: Reply::Status {
            code: status.code(),
        },
        steps: Steps::new(alloc),
    }
}

/// No reply, which changes nothing.
pub(crate) fn nothing(alloc: Global) -> Effect
    ensures { result ≡ record { reply = Nothing; steps = [] } }
{
    Effect {
        reply: Reply::Nothing,
        steps: Steps::new(alloc),
    }
}

/// Whether a deadline stood for a request that says that none did, or the other way round.
pub(crate) fn is_untimely(stood: bool, timed: bool) -> bool
    ensures { result ≡ is_untimely stood timed }
{
    stood != timed
}

/// The reply, unless no answer is asked for.
pub(crate) fn unless_suppressed(suppress: bool, reply: Reply) -> Reply
    ensures { result ≡ unless_suppressed suppress reply }
{
    if suppress {
        return Reply::Nothing;
    }
    reply
}
