//! Requests as objects of JSON.

use crate::fronts::Refusal;
use crate::json_objects::Object;
use crate::json_values::put_text;
use crate::shapes::{reason, shape_of_attribute, shape_of_command};
use crate::values::{Where, show_tree};
use crate::words::{Leaf, query_of, show_cluster, show_fault, show_path, whole_of};
use mt_im::ImFault;
use mt_model::{Index, Path, Request, Version, WriteItem};
use mt_names::{message_name, status_name, status_of};

// How many bytes the words for a fault take at most.
const ROOM: usize = 128;

/// The name of a message, and its opcode.
pub(crate) fn put_name(out: &mut Object, opcode: u8) {
    if let Some(name) = message_name(opcode) {
        out.text("message", name);
    }
    out.number("opcode", opcode as u64)
}

/// What is asked.
pub(crate) fn put_request(out: &mut Object, opcode: u8, request: &Request) {
    match request {
        Request::Status { code } => {
            out.number("code", *code as u64);
            put_name(out, opcode);
            put_status_name(out, *code)
        }
        Request::Read { .. } | Request::Subscribe { .. } => put_query(out, opcode, request),
        Request::Write {
            suppress,
            timed,
            items,
        } => {
            put_name(out, opcode);
            put_manner(out, *suppress, *timed);
            put_writes(out, items.as_slice())
        }
        Request::Invoke {
            suppress,
            timed,
            command,
            fields,
        } => {
            put_name(out, opcode);
            put_manner(out, *suppress, *timed);
            put_path(out, &Path::from(*command), Leaf::Command);
            out.key("fields");
            show_tree(out, fields, Where::whole(shape_of_command(command), 0))
        }
        Request::Timed { ms } => {
            put_name(out, opcode);
            out.number("timeout", *ms as u64)
        }
    }
}

/// A payload that is no request: its first fault, and its bytes.
pub(crate) fn put_malformed(out: &mut Object, opcode: u8, payload: &[u8], fault: ImFault) {
    out.octets("bytes", payload);
    let mut page = out.page.plain(ROOM);
    show_fault(&mut page, opcode, payload, fault);
    out.key("malformed");
    match page.whole() {
        Ok(text) => put_text(out, text),
        Err(_) => out.page.leave_gap(),
    }
    put_name(out, opcode)
}

fn put_manner(out: &mut Object, suppress: bool, timed: bool) {
    out.truth("suppress", suppress);
    out.truth("timed", timed)
}

fn put_query(out: &mut Object, opcode: u8, request: &Request) {
    let Some(query) = query_of(request) else {
        return;
    };
    put_paths(out, "events", query.events, Leaf::Event);
    put_name(out, opcode);
    out.number("minimum", query.minimum);
    out.truth("ownItems", query.filtered);
    put_paths(out, "paths", query.paths, Leaf::Attribute);
    put_versions(out, query.versions);
    if let Request::Subscribe {
        keep,
        floor,
        ceiling,
        ..
    } = request
    {
        out.truth("keep", *keep);
        out.number("floor", *floor as u64);
        out.number("ceiling", *ceiling as u64);
    }
}

fn put_paths(out: &mut Object, key: &str, paths: &[Path], leaf: Leaf) {
    out.key(key);
    out.open_list();
    for path in paths {
        out.next_item();
        out.open();
        put_path(out, path, leaf);
        out.close();
    }
    out.close_list()
}

/// A path by its names, and by its numbers; a wildcard has none.
pub(crate) fn put_path(out: &mut Object, path: &Path, leaf: Leaf) {
    put_cluster(out, path);
    put_leaf(out, path, leaf)
}

/// What is refused, and why.
pub(crate) fn put_refused(out: &mut Object, path: &Path, leaf: Leaf, refusal: Refusal) {
    put_cluster(out, path);
    if let Some(code) = refusal.reason {
        out.number("clusterCode", code as u64);
    }
    out.number("code", refusal.code as u64);
    put_leaf(out, path, leaf);
    put_reason(out, path.cluster, refusal.reason);
    put_status_name(out, refusal.code)
}

// The reason that a cluster gives by a code of its own, in words where they are known.
fn put_reason(out: &mut Object, cluster: Option<u32>, code: Option<u8>) {
    let Some(code) = code else {
        return;
    };
    if let Some(words) = reason(cluster, code) {
        out.text("reason", words);
    }
}

fn put_cluster(out: &mut Object, path: &Path) {
    if path.index == Index::Append {
        out.truth("appended", true);
    }
    if let Some(cluster) = path.cluster {
        out.number("cluster", cluster as u64);
    }
}

// What of a path stands behind its cluster. No name has anything to be escaped.
fn put_leaf(out: &mut Object, path: &Path, leaf: Leaf) {
    if let Some(endpoint) = path.endpoint {
        out.next_key("\"endpoint\":");
        out.page.number(endpoint as u64);
    }
    if let Some(id) = path.leaf {
        out.number("id", id as u64);
    }
    if let Index::At(number) = path.index {
        out.next_key("\"item\":");
        out.page.number(number as u64);
    }
    out.key("path");
    out.page.byte(b'"');
    show_path(&mut out.page, &whole_of(path), leaf);
    out.page.byte(b'"')
}

// What the asker knows already.
fn put_versions(out: &mut Object, versions: &[Version]) {
    out.key("versions");
    out.open_list();
    for known in versions {
        out.next_item();
        put_version(out, known);
    }
    out.close_list()
}

fn put_version(out: &mut Object, known: &Version) {
    out.open();
    out.number("cluster", known.cluster as u64);
    out.number("endpoint", known.endpoint as u64);
    out.key("name");
    out.page.byte(b'"');
    show_cluster(&mut out.page, known.cluster);
    out.page.byte(b'"');
    out.number("version", known.version as u64);
    out.close()
}

fn put_writes(out: &mut Object, items: &[WriteItem]) {
    out.key("writes");
    out.open_list();
    for item in items {
        out.next_item();
        put_write(out, item);
    }
    out.close_list()
}

fn put_write(out: &mut Object, item: &WriteItem) {
    out.open();
    put_path(out, &item.path, Leaf::Attribute);
    out.key("value");
    show_tree(
        out,
        &item.value,
        Where::whole(shape_of_attribute(&item.path), 0),
    );
    if let Some(version) = item.version {
        out.number("version", version as u64);
    }
    out.close()
}

/// The name of a status.
pub(crate) fn put_status_name(out: &mut Object, code: u8) {
    if let Some(status) = status_of(code) {
        out.text("status", status_name(status));
    }
}
