//! What a journal keeps, in words. No secret is among them: of certificates their lengths are shown, of group key sets
//! their ids, and of other items what is seen of them by who is of no fabric.

ghost use Rattle.std.specs.Io.{StartsWith};

use crate::page::{Colour, Page};
use crate::shapes::shape_of_attribute;
use crate::telling::show_taken_back;
use crate::told::Expiry;
use crate::values::{Where, show_tree};
use crate::word_values::show_octets;
use crate::words::{Leaf, MESSAGE, show_path};
use mt_apps::entry_value;
use mt_grammar::MapContents;
use mt_meta::clusters::access_control::{ACL, CLUSTER as ACCESS_CONTROL};
use mt_meta::clusters::group_key_management::KEY_SET_ID;
use mt_model::{
    AclEntry, Armed, Credentials, Fabric, Network, Path, Place, Row, field, key_sets, shown_items,
    shown_value, stays, structure_of, unsigned_of,
};
use mt_tlv::{Bytes, Members, Tag, Value};
use std::alloc::{AllocError, Global};

// How many bytes what most journals keep takes at most.
const ROOM: usize = 4_000;

// Who is of no fabric.
const NOBODY: u8 = 0;

/// Adds what a journal keeps, in words, and what the next start takes back of it: all of that, or what is of the one
/// fabric. Of a node that has never started these are the contents with which it begins. Where there is no memory for
/// that, the page knows.
pub fn show_kept(page: &mut Page, contents: &MapContents, has_started: bool, fabric: Option<u8>)
    ensures kept { StartsWith page.new page.old }
{
    let mut kept = page.fresh(ROOM);
    if !has_started {
        kept.text("the node has never started; its configuration gives it:\n");
    }
    match fabric {
        Some(index) => show_one(&mut kept, contents, index),
        None => show_all(&mut kept, contents, has_started),
    }
    show_failsafe(&mut kept, contents);
    page.append(&kept);
}

// The fabric of an index.
fn show_one(page: &mut Page, contents: &MapContents, index: u8) {
    for fabric in contents.fabrics.as_slice() {
        if fabric.index == index {
            return show_fabric(page, contents, fabric);
        }
    }
    page.text("no fabric ");
    page.number(index as u64);
    page.end_line()
}

fn show_all(page: &mut Page, contents: &MapContents, has_started: bool) {
    if has_started {
        show_counts(page, contents);
    }
    show_fabrics(page, contents);
    show_roots(page, contents.roots.as_slice());
    show_networks(page, contents.networks.as_slice(), 0);
    show_rows(page, contents.rows.as_slice(), NOBODY)
}

// How often the node has started, and its events' numbers.
fn show_counts(page: &mut Page, contents: &MapContents) {
    page.text("boot ");
    page.number(contents.boot.unwrap_or(0));
    page.text("; event numbers below ");
    page.number(contents.ceiling.unwrap_or(0));
    page.text(" are set aside\n")
}

fn show_fabrics(page: &mut Page, contents: &MapContents) {
    if contents.fabrics.is_empty() {
        return page.text("no fabrics\n");
    }
    for fabric in contents.fabrics.as_slice() {
        show_fabric(page, contents, fabric);
    }
}

// A fabric with what is its own.
fn show_fabric(page: &mut Page, contents: &MapContents, fabric: &Fabric) {
    page.begin(Colour::Head);
    page.text("fabric ");
    page.number(fabric.index as u64);
    if !fabric.label.as_slice().is_empty() {
        page.byte(b' ');
        page.quoted(fabric.label.as_slice());
    }
    page.end();
    show_identity(page, &fabric.credentials);
    page.text(", vendor 0x");
    page.octets(&fabric.vendor.to_be_bytes());
    page.end_line();
    show_certificates(page, &fabric.credentials);
    show_entries(page, contents.entries.as_slice(), fabric.index);
    show_rows(page, contents.rows.as_slice(), fabric.index)
}

// Which node it is, of which fabric.
fn show_identity(page: &mut Page, credentials: &Credentials) {
    page.text(": node ");
    page.octets(&credentials.node_id.to_be_bytes());
    page.text(" of fabric id ");
    page.octets(&credentials.fabric_id.to_be_bytes())
}

fn show_certificates(page: &mut Page, credentials: &Credentials) {
    page.blanks(MESSAGE);
    page.text("root certificate of ");
    show_length(page, &credentials.root);
    page.text(", operational certificate of ");
    show_length(page, &credentials.noc);
    if credentials.icac.as_slice().is_empty() {
        return page.text(", no intermediate certificate\n");
    }
    page.text(", intermediate certificate of ");
    show_length(page, &credentials.icac);
    page.end_line()
}

fn show_length(page: &mut Page, certificate: &Bytes) {
    let length = certificate.as_slice().len();
    page.number(length as u64);
    page.text(if length == 1 { " byte" } else { " bytes" })
}

// The access control list of a fabric, where it has entries.
fn show_entries(page: &mut Page, entries: &[AclEntry], fabric: u8) {
    if !entries.iter().any(|entry| entry.fabric == fabric) {
        return;
    }
    let list = Place {
        endpoint: 0,
        cluster: ACCESS_CONTROL,
        leaf: ACL,
    };
    show_value(
        page,
        &list,
        entries_of(page.alloc(), entries, fabric),
        MESSAGE,
    )
}

fn entries_of(alloc: Global, entries: &[AclEntry], fabric: u8) -> Result<Value, AllocError> {
    let mut items = Vec::new(alloc);
    for entry in entries {
        if entry.fabric == fabric {
            items.push((Tag::Anonymous, entry_value(alloc, entry)?))?;
        }
    }
    Ok(Value::Array(Members::from_vec(items)))
}

// The rows of a fabric, or nobody's. Those of one place stand together.
fn show_rows(page: &mut Page, rows: &[Row], fabric: u8) {
    for run in rows.chunk_by(|row, next| are_together(row, next)) {
        show_run(page, run, fabric);
    }
}

// Whether two rows are of one fabric at one place.
fn are_together(row: &Row, next: &Row) -> bool {
    row.fabric == next.fabric && row.place == next.place
}

// The rows of a place, where they are the fabric's.
fn show_run(page: &mut Page, rows: &[Row], fabric: u8) {
    let [first, ..] = rows else {
        return;
    };
    if first.fabric != fabric {
        return;
    }
    if first.place == key_sets() {
        return show_key_sets(page, rows);
    }
    let indent = if fabric == NOBODY { 0 } else { MESSAGE };
    show_value(
        page,
        &first.place,
        seen_value(page.alloc(), rows, fabric),
        indent,
    )
}

// The ids of group key sets.
fn show_key_sets(page: &mut Page, rows: &[Row]) {
    page.blanks(MESSAGE);
    page.text("group key sets: ");
    let mut is_first = true;
    for row in rows {
        if !is_first {
            page.text(", ");
        }
        is_first = false;
        match key_set_id(&row.value) {
            Some(id) => page.number(id),
            None => page.text("without an id"),
        }
    }
    page.end_line()
}

fn key_set_id(set: &Value) -> Option<u64> {
    unsigned_of(field(structure_of(set)?, KEY_SET_ID)?)
}

// What stands at a place: a value, or a list with an item for each row. It is as who is of no fabric sees it, so that
// nothing of an item is in it that its fabric keeps to itself.
fn seen_value(alloc: Global, rows: &[Row], fabric: u8) -> Result<Value, AllocError> {
    if fabric == NOBODY {
        return shown_value(alloc, NOBODY, rows);
    }
    Ok(Value::Array(shown_items(alloc, NOBODY, false, rows)?))
}

fn show_value(page: &mut Page, place: &Place, value: Result<Value, AllocError>, indent: usize) {
    let Ok(value) = value else {
        return page.leave_gap();
    };
    let path = Path::from(*place);
    page.blanks(indent);
    show_path(page, &path, Leaf::Attribute);
    page.text(": ");
    show_tree(
        page,
        &value,
        Where::whole(shape_of_attribute(&path), indent),
    );
    page.end_line()
}

// How many root certificates there are, and how long each is.
fn show_roots(page: &mut Page, roots: &[Bytes]) {
    if roots.is_empty() {
        return;
    }
    page.text("root certificates: ");
    page.number(roots.len() as u64);
    page.text(", of ");
    let mut left = roots.len();
    for root in roots {
        left = left.saturating_sub(1);
        show_length(page, root);
        page.text(match left {
            0 => "\n",
            1 => " and ",
            _ => ", ",
        });
    }
}

// Networks by their ids, without their secrets.
fn show_networks(page: &mut Page, networks: &[Network], indent: usize) {
    if networks.is_empty() {
        page.blanks(indent);
        return page.text("no networks\n");
    }
    for network in networks {
        page.blanks(indent);
        page.text("network ");
        show_octets(page, network.id.as_slice());
        page.text(if network.connected {
            ", connected\n"
        } else {
            ", not connected\n"
        });
    }
}

// The fail-safe where it is armed, what the next start takes back, and the networks from before.
fn show_failsafe(page: &mut Page, contents: &MapContents) {
    let Some(armed) = &contents.failsafe else {
        return;
    };
    page.begin(Colour::Head);
    page.text("the fail-safe is armed");
    page.end();
    show_owner(page, armed);
    page.text("; at the next start it expires: ");
    show_taken_back(
        page,
        Expiry {
            added: armed.added,
            updated: armed.updated,
        },
    );
    show_leaving_roots(page, contents, armed);
    page.end_line();
    show_networks(page, armed.saved_networks.as_slice(), MESSAGE)
}

// Who armed it, and for which fabric commissioning goes on, where that is another.
fn show_owner(page: &mut Page, armed: &Armed) {
    if armed.owner == 0 {
        page.text(" over PASE");
    } else {
        page.text(" by fabric ");
        page.number(armed.owner as u64);
    }
    if armed.context != armed.owner {
        page.text(" for fabric ");
        page.number(armed.context as u64);
    }
}

// The root certificates that no fabric uses once the fail-safe has expired.
fn show_leaving_roots(page: &mut Page, contents: &MapContents, armed: &Armed) {
    for root in contents.roots.as_slice() {
        if !is_used(contents.fabrics.as_slice(), armed, root.as_slice()) {
            page.text(", a root certificate of ");
            show_length(page, root);
            page.text(" goes");
        }
    }
}

// Whether a fabric that stays uses a root once the fail-safe has expired.
fn is_used(fabrics: &[Fabric], armed: &Armed, root: &[u8]) -> bool {
    for fabric in fabrics {
        let credentials = credentials_behind(fabric, armed);
        if stays(armed.added, fabric.index) && credentials.root.as_slice() == root {
            return true;
        }
    }
    false
}

// What a fabric has once the fail-safe has expired: its earlier credentials, where it was updated.
fn credentials_behind<'a>(fabric: &'a Fabric, armed: &'a Armed) -> &'a Credentials {
    match &armed.saved_credentials {
        Some(saved) if armed.updated == Some(fabric.index) => saved,
        _ => &fabric.credentials,
    }
}
