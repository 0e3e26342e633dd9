//! Messages of the interaction model as bytes (Matter Core Specification, chapter 10, Interaction Model
//! Encoding): the payloads of a reply, into which the items of a report are put greedily, and requests.
//!
//! - `fields`: the fields of messages, appended to bytes;
//! - `front`: the path of an attribute, and what stands in front of its value, made before it is appended;
//! - `blocks`: paths, statuses and items;
//! - `answers`: the replies that are one message;
//! - `reports`: reports, whose items are put into payloads;
//! - `requests`: requests;
//! - `laws`: what holds of the payloads of every report.
#![tactic(auto)]

ghost use Rattle.std.specs.Prelude.{◌≡◌, IfOk};
ghost use Rattle.mt_im_out.specs.Chunks.{chunks_of};

mod answers;
mod blocks;
mod fields;
mod front;
mod laws;
mod reports;
mod requests;

pub use laws::{
    greedy_is_the_one_split, last_payload_ends, payloads_are_full, payloads_are_short,
    payloads_are_within, payloads_have_the_items, split_lists_have_the_elements,
};
use mt_model::{Payloads, Reply};
pub use requests::encode_request;
use std::alloc::{AllocError, Global};

/// The payloads of a reply, in the order of sending, each with no deadline. A report has one or more,
/// `Reply::Nothing` none, each other reply one. The items of a payload have at most `ITEM_BYTES` bytes
/// together, if that holds of each item of an attribute, or of its elements, and of all events together.
pub fn chunks(alloc: Global, reply: &Reply) -> Result<Payloads, AllocError>
    ensures exact { IfOk result (λ payloads. payloads ≡ chunks_of reply.now) }
{
    match reply {
        Reply::Status { code } => answers::status(alloc, *code),
        Reply::Report {
            subscription,
            items,
            suppress,
        } => {
            let suppress = *suppress && subscription.is_none();
            reports::report(alloc, *subscription, items.as_slice(), suppress)
        }
        Reply::Subscribed { id, ceiling } => answers::subscribed(alloc, *id, *ceiling),
        Reply::Written { items } => answers::written(alloc, items.as_slice()),
        Reply::Invoked { command, fields } => answers::invoked(alloc, command, fields),
        Reply::InvokeStatus { command, code } => answers::invoke_status(alloc, command, *code),
        Reply::InvokeClusterStatus {
            command,
            code,
            cluster,
        } => answers::invoke_cluster_status(alloc, command, *code, *cluster),
        Reply::Nothing => Ok(Payloads::new(alloc)),
    }
}
