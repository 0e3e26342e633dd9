//! What a command comes to, in words. Bytes and values are in hex, ids and places in hex digits.

use cases_page::Page;
use mt_model::{AclEntry, Credentials, Effect, Fabric, NodeStep, Place, Reply};
use mt_tlv::{Bytes, Tag, Value, write};
use std::alloc::Global;

/// The reply, and each step.
pub(crate) fn tell(alloc: Global, page: &mut Page, effect: &Effect) {
    tell_reply(alloc, page, &effect.reply);
    for step in effect.steps.as_slice() {
        page.add("  ");
        tell_step(alloc, page, step);
        page.end_line();
    }
}

fn tell_reply(alloc: Global, page: &mut Page, reply: &Reply) {
    match reply {
        Reply::Invoked { command, fields } => {
            page.add("  response ");
            tell_place(page, command);
            tell_value(alloc, page, fields);
            page.end_line();
        }
        Reply::InvokeStatus { command, code } => {
            page.add("  status ");
            page.add_hex(&[*code]);
            tell_command(page, command);
        }
        Reply::InvokeClusterStatus {
            command,
            code,
            cluster,
        } => {
            page.add("  status ");
            page.add_hex(&[*code]);
            page.add(" cluster ");
            page.add_hex(&[*cluster]);
            tell_command(page, command);
        }
        Reply::Nothing => page.line("  no reply"),
        _ => page.line("  another reply"),
    }
}

// The command whose status is told, and the line's end.
fn tell_command(page: &mut Page, command: &Place) {
    page.add(" of ");
    tell_place(page, command);
    page.end_line();
}

fn tell_place(page: &mut Page, place: &Place) {
    page.add_id(u64::from(place.endpoint));
    page.add("/");
    page.add_id(u64::from(place.cluster));
    page.add("/");
    page.add_id(u64::from(place.leaf));
}

// The bytes of its narrow encoding.
fn tell_value(alloc: Global, page: &mut Page, value: &Value) {
    let mut bytes = Vec::new(alloc);
    if write(&Tag::Anonymous, value, &mut bytes).is_err() {
        page.leave_gap();
    }
    page.add(" = ");
    page.add_hex(&bytes);
}

// Bytes behind a word, `-` where there are none.
fn tell_bytes(page: &mut Page, word: &str, bytes: &Bytes) {
    page.add(word);
    if bytes.as_slice().is_empty() {
        return page.add(" -");
    }
    page.add(" ");
    page.add_hex(bytes.as_slice());
}

// A number behind a word.
fn tell_number(page: &mut Page, word: &str, number: u64) {
    page.add(word);
    page.add_number(number);
}

fn tell_step(alloc: Global, page: &mut Page, step: &NodeStep) {
    match step {
        NodeStep::SetRow {
            place,
            fabric,
            values,
        } => {
            page.add("set ");
            tell_place(page, place);
            tell_number(page, " of fabric ", u64::from(*fabric));
            tell_values(alloc, page, values.as_slice());
        }
        NodeStep::Emit {
            place,
            priority,
            fabric,
            value,
        } => {
            page.add("event ");
            tell_place(page, place);
            tell_number(page, " of priority ", u64::from(*priority));
            tell_number(page, " for fabric ", u64::from(*fabric));
            tell_value(alloc, page, value);
        }
        _ => tell_failsafe(page, step),
    }
}

fn tell_values(alloc: Global, page: &mut Page, values: &[Value]) {
    for value in values {
        tell_value(alloc, page, value);
    }
}

fn tell_failsafe(page: &mut Page, step: &NodeStep) {
    match step {
        NodeStep::Arm { owner, seconds } => {
            tell_number(page, "arm for fabric ", u64::from(*owner));
            tell_number(page, ", ", u64::from(*seconds));
            page.add(" s");
        }
        NodeStep::Renew { seconds } => {
            tell_number(page, "renew for ", u64::from(*seconds));
            page.add(" s");
        }
        NodeStep::Expire => page.add("expire"),
        NodeStep::Complete => page.add("complete"),
        NodeStep::AddRoot { cert } => tell_bytes(page, "root", cert),
        NodeStep::Csr { nonce, update } => {
            tell_bytes(page, "csr", nonce);
            page.add(" update ");
            page.add_shown(update);
        }
        _ => tell_network(page, step),
    }
}

fn tell_network(page: &mut Page, step: &NodeStep) {
    match step {
        NodeStep::PutNetwork { id, secret } => {
            tell_bytes(page, "put", id);
            tell_bytes(page, " secret", secret);
        }
        NodeStep::RemoveNetwork { id } => tell_bytes(page, "remove", id),
        NodeStep::ConnectNetwork { id } => tell_bytes(page, "connect", id),
        NodeStep::MoveNetwork { id, index } => {
            tell_bytes(page, "move", id);
            tell_number(page, " to ", u64::from(*index));
        }
        _ => tell_fabric_step(page, step),
    }
}

fn tell_fabric_step(page: &mut Page, step: &NodeStep) {
    match step {
        NodeStep::AddFabric { fabric } => tell_fabric(page, fabric),
        NodeStep::UpdateFabric { index, credentials } => {
            tell_number(page, "fabric ", u64::from(*index));
            page.add(" has");
            tell_credentials(page, credentials);
        }
        NodeStep::RemoveFabric { index } => {
            tell_number(page, "fabric ", u64::from(*index));
            page.add(" leaves");
        }
        NodeStep::Label { index, label } => {
            tell_number(page, "fabric ", u64::from(*index));
            tell_bytes(page, " has label", label);
        }
        NodeStep::SetEntries { fabric, entries } => {
            tell_number(page, "fabric ", u64::from(*fabric));
            page.add(" has");
            tell_entries(page, entries.as_slice());
        }
        _ => page.add("another step"),
    }
}

fn tell_fabric(page: &mut Page, fabric: &Fabric) {
    tell_number(page, "fabric ", u64::from(fabric.index));
    page.add(" joins");
    tell_credentials(page, &fabric.credentials);
    page.add(" vendor ");
    page.add_id(u64::from(fabric.vendor));
    tell_bytes(page, " label", &fabric.label);
}

fn tell_credentials(page: &mut Page, given: &Credentials) {
    page.add(" id ");
    page.add_id(given.fabric_id);
    page.add(" node ");
    page.add_id(given.node_id);
    tell_bytes(page, " root", &given.root);
    tell_bytes(page, " key", &given.root_key);
    tell_bytes(page, " noc", &given.noc);
    tell_bytes(page, " icac", &given.icac);
    tell_bytes(page, " ipk", &given.ipk);
}

fn tell_entries(page: &mut Page, entries: &[AclEntry]) {
    for entry in entries {
        page.add(" ");
        page.add_debug(&entry.privilege);
        page.add(" ");
        page.add_debug(&entry.auth);
        tell_number(page, " of fabric ", u64::from(entry.fabric));
        for subject in entry.subjects.as_slice() {
            page.add(" for ");
            page.add_id(*subject);
        }
        tell_number(page, " with ", entry.targets.len() as u64);
        page.add(" targets");
    }
}
