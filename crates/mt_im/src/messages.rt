//! The messages that ask, each read by its table of fields (Matter Core Specification, chapter 10, Interaction
//! Model Encoding). A field that is missing is told before one that is malformed.

ghost use Rattle.std.specs.Prelude.{◌≡◌, ◌<◌, IfErr};
ghost use Rattle.mt_tlv.specs.View.{tree, elements};
ghost use Rattle.mt_im.specs.declared.fault.ImFault.TheVariants.{Opcode};
ghost use Rattle.mt_im.specs.Blocks.{blocks_in, write_item_in, command_among, command_in, not_true, optional_truth_at};
ghost use Rattle.mt_im.specs.Reading.{Gives, form, field_at, selection_at, status_at, read_at, subscribe_at, write_at, invoke_at, timed_at, fields_at, kind_of as kind_of_opcode};

use crate::arrays::{attribute_paths, event_paths, minimum, version_filters, write_items};
use crate::blocks::command_data;
use crate::fault::ImFault;
use crate::fields::{optional_truth, require, revision, truth_field, u8_field, u16_field};
use mt_model::limits::{PATHS, WRITE_ITEMS};
use mt_model::opcode::{
    INVOKE_REQUEST, READ_REQUEST, STATUS_RESPONSE, SUBSCRIBE_REQUEST, TIMED_REQUEST, WRITE_REQUEST,
};
use mt_model::{Paths, Place, Request, Versions, Writes, take_field};
use mt_tlv::{Tag, Value};
use std::alloc::Global;

/// The kinds of requests.
#[derive(Clone, Copy, Debug, PartialEq, Eq)]
pub(crate) enum Kind {
    Status,
    Read,
    Subscribe,
    Write,
    Invoke,
    Timed,
}

/// What a read or a subscription asks for.
#[derive(Drop)]
pub(crate) struct Selection {
    pub paths: Paths,
    pub events: Paths,
    pub minimum: u64,
    pub filtered: bool,
    pub versions: Versions,
}

/// The kind of request that an opcode announces.
#[tactic(auto, unfolding(crate::specs::Reading::kind_of))]
pub(crate) fn kind_of(opcode: u8) -> Result<Kind, ImFault>
    ensures value { result ≡ kind_of_opcode opcode }
    ensures fault { IfErr result (λ fault. fault ≡ Opcode) }
{
    match opcode {
        STATUS_RESPONSE => Ok(Kind::Status),
        READ_REQUEST => Ok(Kind::Read),
        SUBSCRIBE_REQUEST => Ok(Kind::Subscribe),
        WRITE_REQUEST => Ok(Kind::Write),
        INVOKE_REQUEST => Ok(Kind::Invoke),
        TIMED_REQUEST => Ok(Kind::Timed),
        _ => Err(ImFault::Opcode),
    }
}

/// The request of this kind that stands in the fields of a message.
pub(crate) fn request_of(
    alloc: Global,
    kind: Kind,
    members: Vec<(Tag, Value)>,
) -> Result<Request, ImFault>
    ensures { Gives (λ request. request) result (fields_at kind (elements members.items)) }
{
    match kind {
        Kind::Status => status(&members),
        Kind::Read => read(alloc, &members),
        Kind::Subscribe => subscribe(alloc, &members),
        Kind::Write => write(alloc, members),
        Kind::Invoke => invoke(alloc, members),
        Kind::Timed => timed(&members),
    }
}

// StatusResponse: status (0).
#[tactic(auto, unfolding(crate::specs::Reading::status_at))]
fn status(members: &[(Tag, Value)]) -> Result<Request, ImFault>
    ensures { result ≡ status_at (elements members.now) }
{
    require(members, &[0, 255])?;
    let code = u8_field(members, 0)?;
    revision(members)?;
    Ok(Request::Status { code })
}

// ReadRequest: attribute paths (0), event paths (1), event filters (2), fabric filtered (3), version
// filters (4).
#[tactic(auto, unfolding(crate::specs::Reading::read_at))]
fn read(alloc: Global, members: &[(Tag, Value)]) -> Result<Request, ImFault>
    ensures { Gives (λ request. request) result (read_at (elements members.now)) }
{
    require(members, &[3, 255])?;
    let selection = selection_of(alloc, members, 0, 3)?;
    revision(members)?;
    if selection.paths.len() + selection.events.len() > PATHS {
        return Err(ImFault::TooManyPaths);
    }
    Ok(Request::Read {
        paths: selection.paths,
        events: selection.events,
        minimum: selection.minimum,
        filtered: selection.filtered,
        versions: selection.versions,
    })
}

// SubscribeRequest: keep subscriptions (0), floor (1), ceiling (2), attribute paths (3), event paths (4),
// event filters (5), fabric filtered (7), version filters (8).
#[tactic(auto, unfolding(crate::specs::Reading::subscribe_at))]
fn subscribe(alloc: Global, members: &[(Tag, Value)]) -> Result<Request, ImFault>
    ensures { Gives (λ request. request) result (subscribe_at (elements members.now)) }
{
    require(members, &[0, 1, 2, 7, 255])?;
    let keep = truth_field(members, 0)?;
    let floor = u16_field(members, 1)?;
    let ceiling = u16_field(members, 2)?;
    let selection = selection_of(alloc, members, 3, 7)?;
    revision(members)?;
    if selection.paths.len() + selection.events.len() > PATHS {
        return Err(ImFault::TooManyPaths);
    }
    Ok(Request::Subscribe {
        keep,
        floor,
        ceiling,
        paths: selection.paths,
        events: selection.events,
        minimum: selection.minimum,
        filtered: selection.filtered,
        versions: selection.versions,
    })
}

// What is asked for: attribute paths, event paths and event filters from the tag `first` on, and the version
// filters behind the tag `filtered`.
#[tactic(auto, unfolding(crate::specs::Reading::selection_at))]
fn selection_of(
    alloc: Global,
    members: &[(Tag, Value)],
    first: u8,
    filtered_tag: u8,
) -> Result<Selection, ImFault>
    requires first { first < 8 }
    requires filtered { filtered_tag < 8 }
    ensures { Gives (λ selection. selection) result (selection_at first filtered_tag (elements members.now)) }
{
    let paths = attribute_paths(alloc, members, first)?;
    let events = event_paths(alloc, members, first + 1)?;
    let minimum = minimum(members, first + 2)?;
    let filtered = truth_field(members, filtered_tag)?;
    let versions = version_filters(alloc, members, filtered_tag + 1)?;
    Ok(Selection {
        paths,
        events,
        minimum,
        filtered,
        versions,
    })
}

// WriteRequest: suppress (0), timed (1), writes (2), more (3), which is false.
#[tactic(auto, unfolding(crate::specs::Reading::write_at))]
fn write(alloc: Global, members: Vec<(Tag, Value)>) -> Result<Request, ImFault>
    ensures { Gives (λ request. request) result (write_at (elements members.items)) }
{
    require(&members, &[1, 2, 255])?;
    let suppress = suppress_response(&members)?;
    let timed = truth_field(&members, 1)?;
    let only_chunk = no_more_chunks(&members);
    let known_revision = revision(&members);
    let items = writes(alloc, members)?;
    only_chunk?;
    known_revision?;
    if items.len() > WRITE_ITEMS {
        return Err(ImFault::TooManyPaths);
    }
    Ok(Request::Write {
        suppress,
        timed,
        items,
    })
}

// Whether a write wants no response, which may be missing.
fn suppress_response(members: &[(Tag, Value)]) -> Result<bool, ImFault>
    ensures { result ≡ form 0 (optional_truth_at 0 (elements members.now)) }
{
    optional_truth(members, 0).ok_or(ImFault::Form(0))
}

// A write that goes on in a further message is not taken.
fn no_more_chunks(members: &[(Tag, Value)]) -> Result<(), ImFault>
    ensures { result ≡ form 3 (not_true (optional_truth_at 3 (elements members.now))) }
{
    match optional_truth(members, 3) {
        Some(false) => Ok(()),
        _ => Err(ImFault::Form(3)),
    }
}

// The written items, whose values are moved out of the message.
fn writes(alloc: Global, members: Vec<(Tag, Value)>) -> Result<Writes, ImFault>
    ensures { Gives (λ items. items) result (field_at (blocks_in write_item_in) 2 (elements members.items)) }
{
    match take_field(members, 2) {
        Some(Value::Array(blocks)) => write_items(alloc, &mut blocks.into_vec(), 2),
        _ => Err(ImFault::Form(2)),
    }
}

// InvokeRequest: suppress (0), timed (1), requests (2), of which there is one.
#[tactic(auto, unfolding(crate::specs::Reading::invoke_at))]
fn invoke(alloc: Global, members: Vec<(Tag, Value)>) -> Result<Request, ImFault>
    ensures { result ≡ invoke_at (elements members.items) }
{
    require(&members, &[0, 1, 2, 255])?;
    let suppress = truth_field(&members, 0)?;
    let timed = truth_field(&members, 1)?;
    let known_revision = revision(&members);
    let (command, fields) = one_command(alloc, members)?;
    known_revision?;
    Ok(Request::Invoke {
        suppress,
        timed,
        command,
        fields,
    })
}

// The one command of an invocation, whose fields are moved out of the message.
fn one_command(alloc: Global, members: Vec<(Tag, Value)>) -> Result<(Place, Value), ImFault>
    ensures { result ≡ field_at command_in 2 (elements members.items) }
{
    match take_field(members, 2) {
        Some(Value::Array(commands)) => {
            only_command(alloc, commands.into_vec()).ok_or(ImFault::Form(2))
        }
        _ => Err(ImFault::Form(2)),
    }
}

fn only_command(alloc: Global, mut commands: Vec<(Tag, Value)>) -> Option<(Place, Value)>
    ensures { result ≡ command_among (elements commands.items) }
{
    if commands.len() != 1 {
        return None;
    }
    let (_, command) = commands.pop()?;
    command_data(alloc, command)
}

// TimedRequest: timeout (0), in ms.
#[tactic(auto, unfolding(crate::specs::Reading::timed_at))]
fn timed(members: &[(Tag, Value)]) -> Result<Request, ImFault>
    ensures { result ≡ timed_at (elements members.now) }
{
    require(members, &[0, 255])?;
    let ms = u16_field(members, 0)?;
    revision(members)?;
    Ok(Request::Timed { ms })
}
