//! What came of a case, in words. Numbers are in hex digits.

use cases_page::Page;
use mt_model::{Index, Path, Payload, Place, Request, Version, WriteItem};
use mt_tlv::{Tag, Value, write};
use std::alloc::Global;

/// What a request asks for.
pub(crate) fn tell_request(alloc: Global, page: &mut Page, request: &Request) {
    match request {
        Request::Status { code } => {
            page.add("status ");
            page.add_hex(&[*code]);
            page.end_line();
        }
        Request::Timed { ms } => {
            page.add("timed ");
            page.add_id(u64::from(*ms));
            page.end_line();
        }
        Request::Write {
            suppress,
            timed,
            items,
        } => {
            tell_intent(page, "write", *suppress, *timed);
            page.end_line();
            tell_items(alloc, page, items.as_slice());
        }
        Request::Invoke {
            suppress,
            timed,
            command,
            fields,
        } => {
            tell_intent(page, "invoke", *suppress, *timed);
            page.add(" ");
            tell_place(page, command);
            tell_value(alloc, page, fields);
        }
        _ => tell_reading(page, request),
    }
}

fn tell_intent(page: &mut Page, name: &str, suppress: bool, timed: bool) {
    page.add(name);
    page.add(" suppress ");
    page.add_shown(&suppress);
    page.add(" timed ");
    page.add_shown(&timed);
}

fn tell_reading(page: &mut Page, request: &Request) {
    match request {
        Request::Read {
            paths,
            events,
            minimum,
            filtered,
            versions,
        } => {
            page.add("read");
            tell_paths(page, paths.as_slice(), events.as_slice());
            tell_wanted(page, *minimum, *filtered, versions.as_slice());
        }
        Request::Subscribe {
            keep,
            floor,
            ceiling,
            paths,
            events,
            minimum,
            filtered,
            versions,
        } => {
            tell_pace(page, *keep, *floor, *ceiling);
            tell_paths(page, paths.as_slice(), events.as_slice());
            tell_wanted(page, *minimum, *filtered, versions.as_slice());
        }
        _ => {}
    }
}

fn tell_pace(page: &mut Page, keep: bool, floor: u16, ceiling: u16) {
    page.add("subscribe keep ");
    page.add_shown(&keep);
    page.add(" floor ");
    page.add_id(u64::from(floor));
    page.add(" ceiling ");
    page.add_id(u64::from(ceiling));
}

fn tell_paths(page: &mut Page, paths: &[Path], events: &[Path]) {
    page.add(" paths");
    for path in paths {
        tell_path(page, path);
    }
    page.add(" events");
    for path in events {
        tell_path(page, path);
    }
}

fn tell_wanted(page: &mut Page, minimum: u64, filtered: bool, versions: &[Version]) {
    page.add(" minimum ");
    page.add_id(minimum);
    page.add(" filtered ");
    page.add_shown(&filtered);
    page.end_line();
    for known in versions {
        tell_version(page, known);
    }
}

fn tell_version(page: &mut Page, known: &Version) {
    page.add("  version ");
    page.add_id(u64::from(known.endpoint));
    page.add("/");
    page.add_id(u64::from(known.cluster));
    page.add(" ");
    page.add_id(u64::from(known.version));
    page.end_line();
}

/// ENDPOINT/CLUSTER/ID.
pub(crate) fn tell_place(page: &mut Page, place: &Place) {
    page.add_id(u64::from(place.endpoint));
    page.add("/");
    page.add_id(u64::from(place.cluster));
    page.add("/");
    page.add_id(u64::from(place.leaf));
}

/// ENDPOINT/CLUSTER/ID, with `*` for a wildcard, and `+` or the number of the item behind it.
pub(crate) fn tell_path(page: &mut Page, path: &Path) {
    page.add(" ");
    match path.endpoint {
        Some(endpoint) => page.add_id(u64::from(endpoint)),
        None => page.add("*"),
    }
    tell_id(page, path.cluster);
    tell_id(page, path.leaf);
    match path.index {
        Index::Whole => {}
        Index::Append => page.add("+"),
        Index::At(number) => {
            page.add("[");
            page.add_id(u64::from(number));
            page.add("]");
        }
    }
}

fn tell_id(page: &mut Page, id: Option<u32>) {
    page.add("/");
    match id {
        Some(id) => page.add_id(u64::from(id)),
        None => page.add("*"),
    }
}

fn tell_items(alloc: Global, page: &mut Page, items: &[WriteItem]) {
    for item in items {
        tell_item(alloc, page, item);
    }
}

fn tell_item(alloc: Global, page: &mut Page, item: &WriteItem) {
    page.add(" ");
    tell_path(page, &item.path);
    if let Some(version) = item.version {
        page.add(" version ");
        page.add_id(u64::from(version));
    }
    tell_value(alloc, page, &item.value);
}

/// A value as the bytes of its narrow encoding, at the end of a line.
pub(crate) fn tell_value(alloc: Global, page: &mut Page, value: &Value) {
    let mut bytes = Vec::new(alloc);
    if write(&Tag::Anonymous, value, &mut bytes).is_err() {
        page.leave_gap();
    }
    page.add(" = ");
    page.add_hex(&bytes);
    page.end_line();
}

/// Each payload with its opcode.
pub(crate) fn tell_payloads(page: &mut Page, payloads: &[Payload]) {
    if payloads.is_empty() {
        page.line("no payload");
    }
    for payload in payloads {
        page.add_hex(&[payload.opcode]);
        page.add(" ");
        page.add_hex(payload.bytes.as_slice());
        page.end_line();
    }
}

/// How many bytes each payload has, in decimal digits.
pub(crate) fn tell_lengths(page: &mut Page, payloads: &[Payload]) {
    for payload in payloads {
        page.add_number(payload.bytes.as_slice().len() as u64);
        page.line(" bytes");
    }
}
