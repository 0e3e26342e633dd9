//! Requests in words, and the places that they name.

use crate::fronts::REVISION;
use crate::page::{Colour, Page};
use crate::places::{encoding_fault, fault_place};
use crate::shapes::{shape_of_attribute, shape_of_command};
use crate::values::{Where, show_tree};
use mt_im::ImFault;
use mt_model::opcode::{
    INVOKE_REQUEST, READ_REQUEST, STATUS_RESPONSE, SUBSCRIBE_REQUEST, TIMED_REQUEST, WRITE_REQUEST,
};
use mt_model::{Index, Path, Place, Request, Version, WriteItem};
use mt_names::{
    Named, attribute_name, cluster_name, command_name, event_name, message_name, name_among,
    response_name,
};
use mt_tlv::Value;

/// How far what belongs to a message is indented, and what is asked or answered in it.
pub(crate) const MESSAGE: usize = 6;

pub(crate) const ITEM: usize = 8;

/// What an id names behind its cluster.
#[derive(Clone, Copy)]
pub(crate) enum Leaf {
    Attribute,
    Event,
    Command,
    Response,
}

/// What a read and a subscription have in common.
#[derive(Clone, Copy)]
pub(crate) struct Query<'a> {
    pub paths: &'a [Path],
    pub events: &'a [Path],
    /// The least number of an event that is asked for.
    pub minimum: u64,
    /// Whether the asker's own items alone are asked for.
    pub filtered: bool,
    /// What the asker knows already.
    pub versions: &'a [Version],
}

/// What a read or a subscription asks for; None of any other request.
pub(crate) fn query_of(request: &Request) -> Option<Query<'_>> {
    match request {
        Request::Read {
            paths,
            events,
            minimum,
            filtered,
            versions,
        }
        | Request::Subscribe {
            paths,
            events,
            minimum,
            filtered,
            versions,
            ..
        } => Some(Query {
            paths: paths.as_slice(),
            events: events.as_slice(),
            minimum: *minimum,
            filtered: *filtered,
            versions: versions.as_slice(),
        }),
        _ => None,
    }
}

/// A message of this opcode by its name, or by its number.
pub(crate) fn show_message_name(page: &mut Page, opcode: u8) {
    page.begin(Colour::Message);
    match message_name(opcode) {
        Some(name) => page.text(name),
        None => {
            page.text("message ");
            page.octets(&[opcode]);
        }
    }
    page.end()
}

/// What is asked, behind who asks, with the end of its line and lines below it.
pub(crate) fn show_request(page: &mut Page, opcode: u8, request: &Request) {
    show_message_name(page, opcode);
    match request {
        Request::Status { code } => {
            page.byte(b' ');
            crate::answers::show_status(page, *code);
            page.end_line()
        }
        Request::Read { .. } | Request::Subscribe { .. } => show_query(page, request),
        Request::Write {
            suppress,
            timed,
            items,
        } => {
            show_manner(page, *suppress, *timed);
            show_writes(page, items.as_slice())
        }
        Request::Invoke {
            suppress,
            timed,
            command,
            fields,
        } => {
            show_manner(page, *suppress, *timed);
            show_command(page, command, fields)
        }
        Request::Timed { ms } => {
            page.text(", within ");
            page.number(*ms as u64);
            page.text(" ms\n")
        }
    }
}

fn show_query(page: &mut Page, request: &Request) {
    let Some(query) = query_of(request) else {
        return page.end_line();
    };
    show_filter(page, query.filtered);
    show_pace(page, request);
    page.end_line();
    show_paths(page, query.paths, query.events, query.minimum);
    show_versions(page, query.versions)
}

// How often a subscription reports, and what becomes of the asker's others.
fn show_pace(page: &mut Page, request: &Request) {
    let Request::Subscribe {
        keep,
        floor,
        ceiling,
        ..
    } = request
    else {
        return;
    };
    page.text(", a report every ");
    page.number(*floor as u64);
    page.text(" to ");
    page.number(*ceiling as u64);
    page.text(if *keep {
        " s, beside its other subscriptions"
    } else {
        " s, in place of its other subscriptions"
    })
}

// Of which fabrics items are asked for.
fn show_filter(page: &mut Page, filtered: bool) {
    page.text(if filtered {
        ", own items"
    } else {
        ", items of all fabrics"
    })
}

// How a write or a command is asked for.
fn show_manner(page: &mut Page, suppress: bool, timed: bool) {
    if timed {
        page.text(", timed");
    }
    if suppress {
        page.text(", no response wanted");
    }
    page.end_line()
}

fn show_paths(page: &mut Page, paths: &[Path], events: &[Path], minimum: u64) {
    for path in paths {
        page.blanks(ITEM);
        show_path(page, path, Leaf::Attribute);
        page.end_line();
    }
    for path in events {
        page.blanks(ITEM);
        page.text("events ");
        show_path(page, path, Leaf::Event);
        page.text(" from number ");
        page.number(minimum);
        page.end_line();
    }
}

// What the asker knows already.
fn show_versions(page: &mut Page, versions: &[Version]) {
    for known in versions {
        page.blanks(ITEM);
        page.text("unless the version of ");
        page.number(known.endpoint as u64);
        page.byte(b'/');
        show_cluster(page, known.cluster);
        page.text(" is ");
        page.number(known.version as u64);
        page.end_line();
    }
}

fn show_writes(page: &mut Page, items: &[WriteItem]) {
    for item in items {
        page.blanks(ITEM);
        show_path(page, &item.path, Leaf::Attribute);
        if let Some(version) = item.version {
            page.text(", at version ");
            page.number(version as u64);
        }
        page.text(": ");
        show_tree(
            page,
            &item.value,
            Where::whole(shape_of_attribute(&item.path), ITEM),
        );
        page.end_line();
    }
}

fn show_command(page: &mut Page, command: &Place, fields: &Value) {
    page.blanks(ITEM);
    show_path(page, &Path::from(*command), Leaf::Command);
    if !is_empty(fields) {
        page.text(": ");
        show_tree(page, fields, Where::whole(shape_of_command(command), ITEM));
    }
    page.end_line()
}

// Whether fields are a structure with none.
fn is_empty(fields: &Value) -> bool {
    match fields {
        Value::Struct(members) => members.as_slice().is_empty(),
        _ => false,
    }
}

/// ENDPOINT/CLUSTER/LEAF by their names, with `*` for a wildcard, and which item of a list is meant.
pub(crate) fn show_path(page: &mut Page, path: &Path, leaf: Leaf) {
    match path.endpoint {
        Some(endpoint) => page.number(endpoint as u64),
        None => page.byte(b'*'),
    }
    page.byte(b'/');
    match path.cluster {
        Some(cluster) => show_cluster(page, cluster),
        None => page.byte(b'*'),
    }
    page.byte(b'/');
    match path.leaf {
        Some(id) => show_leaf(page, path.cluster, id, leaf),
        None => page.byte(b'*'),
    }
    match path.index {
        Index::Whole => {}
        Index::Append => page.text(", appended"),
        Index::At(number) => {
            page.text(", item ");
            page.number(number as u64)
        }
    }
}

/// The path of a whole list, where one names an item of it.
pub(crate) fn whole_of(path: &Path) -> Path {
    Path {
        index: Index::Whole,
        ..*path
    }
}

pub(crate) fn show_cluster(page: &mut Page, cluster: u32) {
    match cluster_name(cluster) {
        Some(name) => page.text(name),
        None => page.id(cluster),
    }
}

// Without a cluster only what every cluster has is named.
fn show_leaf(page: &mut Page, cluster: Option<u32>, id: u32, leaf: Leaf) {
    let cluster = cluster.unwrap_or(u32::MAX);
    let name = match leaf {
        Leaf::Attribute => attribute_name(cluster, id),
        Leaf::Event => event_name(cluster, id),
        Leaf::Command => command_name(cluster, id),
        Leaf::Response => response_name(cluster, id),
    };
    match name {
        Some(name) => page.text(name),
        None => page.id(id),
    }
}

/// A payload that is no request: its first fault, where that stands, and its bytes.
pub(crate) fn show_malformed(page: &mut Page, opcode: u8, payload: &[u8], fault: ImFault) {
    show_message_name(page, opcode);
    page.text(", ");
    page.begin(Colour::Refusal);
    show_fault(page, opcode, payload, fault);
    page.end();
    page.end_line();
    page.blanks(ITEM);
    if payload.is_empty() {
        page.text("no bytes\n")
    } else {
        page.octets(payload);
        page.end_line()
    }
}

/// The first fault of a payload that is no request, and where it stands.
pub(crate) fn show_fault(page: &mut Page, opcode: u8, payload: &[u8], fault: ImFault) {
    match fault {
        ImFault::Tlv(fault) => {
            page.text("malformed at byte ");
            match fault_place(page.alloc(), payload, fault) {
                Ok(place) => page.number(place as u64),
                Err(_) => page.leave_gap(),
            }
            page.text(": ");
            page.text(encoding_fault(fault))
        }
        ImFault::Missing(field) => {
            page.text("malformed: its field ");
            show_field(page, opcode, field);
            page.text(" is missing")
        }
        ImFault::Form(REVISION) => page.text(
            "malformed: its bytes are no structure without a tag, or its field 255, the revision, is no number",
        ),
        ImFault::Form(field) => {
            page.text("malformed: its field ");
            show_field(page, opcode, field);
            page.text(" is not formed as it must be")
        }
        ImFault::Opcode => page.text("not a request"),
        ImFault::TooManyPaths => page.text("more than 16 paths or items"),
        ImFault::Memory => page.text("not decoded for want of memory"),
    }
}

// A field of a message by its number and name.
fn show_field(page: &mut Page, opcode: u8, field: u8) {
    page.number(field as u64);
    match field_name(opcode, field) {
        Some(name) => {
            page.text(", ");
            page.text(name);
            page.text(",")
        }
        None => {}
    }
}

// The name of a field of a request.
fn field_name(opcode: u8, field: u8) -> Option<&'static str> {
    if field == REVISION {
        return Some("the revision");
    }
    name_among(fields_of(opcode), field as u32)
}

fn fields_of(opcode: u8) -> &'static [Named] {
    match opcode {
        STATUS_RESPONSE => STATUS_FIELDS,
        READ_REQUEST => READ_FIELDS,
        SUBSCRIBE_REQUEST => SUBSCRIBE_FIELDS,
        WRITE_REQUEST => WRITE_FIELDS,
        INVOKE_REQUEST => INVOKE_FIELDS,
        TIMED_REQUEST => TIMED_FIELDS,
        _ => &[],
    }
}

const STATUS_FIELDS: &[Named] = &[Named {
    number: 0,
    name: "the status",
}];

const READ_FIELDS: &[Named] = &[
    Named {
        number: 0,
        name: "the attribute paths",
    },
    Named {
        number: 1,
        name: "the event paths",
    },
    Named {
        number: 2,
        name: "the event filters",
    },
    Named {
        number: 3,
        name: "whether it is filtered by fabric",
    },
    Named {
        number: 4,
        name: "the version filters",
    },
];

const SUBSCRIBE_FIELDS: &[Named] = &[
    Named {
        number: 0,
        name: "whether its other subscriptions stay",
    },
    Named {
        number: 1,
        name: "the floor",
    },
    Named {
        number: 2,
        name: "the ceiling",
    },
    Named {
        number: 3,
        name: "the attribute paths",
    },
    Named {
        number: 4,
        name: "the event paths",
    },
    Named {
        number: 5,
        name: "the event filters",
    },
    Named {
        number: 7,
        name: "whether it is filtered by fabric",
    },
    Named {
        number: 8,
        name: "the version filters",
    },
];

const WRITE_FIELDS: &[Named] = &[
    Named {
        number: 0,
        name: "whether no response is wanted",
    },
    Named {
        number: 1,
        name: "whether it is timed",
    },
    Named {
        number: 2,
        name: "the writes",
    },
    Named {
        number: 3,
        name: "whether more chunks follow",
    },
];

const INVOKE_FIELDS: &[Named] = &[
    Named {
        number: 0,
        name: "whether no response is wanted",
    },
    Named {
        number: 1,
        name: "whether it is timed",
    },
    Named {
        number: 2,
        name: "the commands",
    },
];

const TIMED_FIELDS: &[Named] = &[Named {
    number: 0,
    name: "the timeout",
}];
