//! Where two recordings first differ for a fabric, in words: the line of each, and both values of what differs.

use crate::faults::Fault;
use crate::standing::{Kind, Stand, stand_of};
use crate::values::{tell_cluster, tell_octets, tell_place, tell_value};
use mt_compare::{Difference, LineOf, compare};
use mt_files::write_event;
use mt_marks::{Descriptor, Mark, Part};
use mt_model::{Armed, ChangeNumber, Config, Event, Happened, Network, Row, Version};
use mt_same::Same;
use std::alloc::{AllocError, Global};
use std::io::{self, Write};

// The status where the recordings differ.
const DIFFER: u8 = 11;

/// Compares two recordings by what a fabric sees of them, shows what is found, and answers the exit status.
pub(crate) fn tell(
    rt: &HostRuntime,
    config: &Config,
    fabric: u8,
    first: &[Event],
    second: &[Event],
) -> Result<u8, Fault> {
    let found = compare(rt.alloc(), fabric, config, first, second)?;
    let text = match &found {
        Some(difference) => told(rt.alloc(), config, fabric, first, second, difference)?,
        None => format!(in rt.alloc(); "for fabric {fabric} the recordings are alike\n")?,
    };
    match io::writer(rt).write_all(text.as_bytes()) {
        Ok(()) => Ok(if found.is_some() { DIFFER } else { 0 }),
        Err(_) => Err(Fault::Unwritten),
    }
}

// A difference in words.
fn told(
    alloc: Global,
    config: &Config,
    fabric: u8,
    first: &[Event],
    second: &[Event],
    difference: &Difference<'_>,
) -> Result<String, AllocError> {
    let number = difference.number;
    let part = difference.part;
    let one = stand_of(alloc, config, fabric, first, number)?;
    let other = stand_of(alloc, config, fabric, second, number)?;
    let mut text = String::new(alloc);
    let name = what(part);
    writeln!(
        text,
        "fabric {fabric} can tell the recordings apart by its mark {number}: {name}"
    )?;
    tell_line(alloc, &mut text, "first", &one, difference.first)?;
    tell_line(alloc, &mut text, "second", &other, difference.second)?;
    let (one, other) = (mark_in(&one), mark_in(&other));
    if let (Some(one), Some(other)) = (one, other) {
        tell_values(alloc, &mut text, part, one, other)?;
    }
    Ok(text)
}

fn mark_in(stand: &Option<Stand>) -> Option<&Mark> {
    stand.as_ref()?.mark.as_ref()
}

// What differs.
fn what(part: Part) -> &'static str {
    match part {
        Part::Event => "what happened",
        Part::Born => "what it has as it enters the table",
        Part::Rows => "an attribute, or whose the entries of others are",
        Part::Fabrics => "who the fabrics are",
        Part::Roots => "the root certificates",
        Part::Networks => "the networks",
        Part::Failsafe => "the fail-safe",
        Part::Versions => "a data version, or what changed latest",
        Part::Events => "the events that all may see",
        Part::Numbers => "the number of the next event",
        Part::Boot => "how often the node has started",
        Part::Now => "the time of the line before",
    }
}

// At which line of a recording the mark is, and what that is.
fn tell_line(
    alloc: Global,
    text: &mut String,
    which: &str,
    stand: &Option<Stand>,
    line: Option<LineOf<'_>>,
) -> Result<(), AllocError> {
    match stand {
        Some(stand) => {
            let number = stand.line;
            let kind = kind_of(stand.kind);
            write!(text, "{which}, line {number}, {kind}: ")?;
        }
        None => write!(text, "{which}: ")?,
    }
    let mut bytes = Vec::new(alloc);
    match line {
        Some(LineOf::Event(event)) => write_event(event, &mut bytes)?,
        Some(LineOf::Stop { calls, fate }) => {
            write_event(&Event::Stop { calls, fate }, &mut bytes)?
        }
        None => bytes.extend_from_slice(b"no mark any more\n")?,
    }
    let words = String::from_utf8_lossy(alloc, &bytes)?;
    text.push_str(words.as_str())
}

fn kind_of(kind: Kind) -> &'static str {
    match kind {
        Kind::Seen => "which it sees",
        Kind::Reopened => "in which the disk stopped by",
        Kind::Enters => "by which it enters the table",
        Kind::Leaves => "by which it leaves the table",
    }
}

// Both values of what differs. Of what happened the lines tell.
fn tell_values(
    alloc: Global,
    text: &mut String,
    part: Part,
    one: &Mark,
    other: &Mark,
) -> Result<(), AllocError> {
    match part {
        Part::Event | Part::Born => Ok(()),
        Part::Rows => tell_rows(alloc, text, one, other),
        Part::Versions => tell_versions(text, one, other),
        _ => {
            text.push_str("  first: ")?;
            tell_part(text, part, one, other)?;
            text.push_str("\n  second: ")?;
            tell_part(text, part, other, one)?;
            text.push_str("\n")
        }
    }
}

// The first of the items that are not those of another list, by its place.
fn apart<T: Same>(items: &[T], others: &[T]) -> usize {
    for (at, item) in items.iter().enumerate() {
        match others.get(at) {
            Some(other) if item.is_same(other) => {}
            _ => return at,
        }
    }
    items.len()
}

fn tell_rows(alloc: Global, text: &mut String, one: &Mark, other: &Mark) -> Result<(), AllocError> {
    let (rows, others) = (one.rows.as_slice(), other.rows.as_slice());
    let at = apart(rows, others);
    if at == rows.len() && at == others.len() {
        let owners = one.owners.as_slice().len();
        let their_owners = other.owners.as_slice().len();
        return writeln!(
            text,
            "  first: {owners} entries of others\n  second: {their_owners} entries of others, or those of other fabrics"
        );
    }
    text.push_str("  first: ")?;
    tell_row(alloc, text, rows.get(at))?;
    text.push_str("\n  second: ")?;
    tell_row(alloc, text, others.get(at))?;
    text.push_str("\n")
}

fn tell_row(alloc: Global, text: &mut String, row: Option<&Row>) -> Result<(), AllocError> {
    let Some(row) = row else {
        return text.push_str("no further attribute");
    };
    tell_place(text, &row.place)?;
    text.push_str(": ")?;
    tell_value(alloc, text, &row.value)?;
    if row.fabric == 0 {
        return Ok(());
    }
    let fabric = row.fabric;
    write!(text, ", an item of fabric {fabric}")
}

fn tell_versions(text: &mut String, one: &Mark, other: &Mark) -> Result<(), AllocError> {
    let (versions, others) = (one.versions.as_slice(), other.versions.as_slice());
    let at = apart(versions, others);
    if at < versions.len() {
        text.push_str("  first: ")?;
        tell_version(text, versions.get(at))?;
        text.push_str("\n  second: ")?;
        tell_version(text, others.get(at))?;
        return text.push_str("\n");
    }
    let (changes, others) = (one.changes.as_slice(), other.changes.as_slice());
    let at = apart(changes, others);
    text.push_str("  first: ")?;
    tell_change(text, changes.get(at))?;
    text.push_str("\n  second: ")?;
    tell_change(text, others.get(at))?;
    text.push_str("\n")
}

fn tell_version(text: &mut String, version: Option<&Version>) -> Result<(), AllocError> {
    let Some(version) = version else {
        return text.push_str("no further cluster");
    };
    tell_cluster(text, version.endpoint, version.cluster)?;
    let number = version.version;
    write!(text, " is at version {number}")
}

fn tell_change(text: &mut String, change: Option<&ChangeNumber>) -> Result<(), AllocError> {
    let Some(change) = change else {
        return text.push_str("no further change");
    };
    tell_place(text, &change.place)?;
    let number = change.number;
    write!(text, " changed with change {number}")
}

// The value of a part that is not that of the other mark.
fn tell_part(text: &mut String, part: Part, one: &Mark, other: &Mark) -> Result<(), AllocError> {
    match part {
        Part::Fabrics => {
            let fabrics = one.fabrics.as_slice();
            tell_fabric(text, fabrics.get(apart(fabrics, other.fabrics.as_slice())))
        }
        Part::Roots => {
            let roots = one.roots.as_slice();
            let count = roots.len();
            write!(text, "{count} root certificates")
        }
        Part::Networks => {
            let networks = one.networks.as_slice();
            tell_network(
                text,
                networks.get(apart(networks, other.networks.as_slice())),
            )
        }
        Part::Failsafe => tell_failsafe(text, &one.failsafe),
        Part::Events => {
            let events = one.events.as_slice();
            tell_happened(text, events.get(apart(events, other.events.as_slice())))
        }
        _ => tell_number(text, part, one),
    }
}

fn tell_number(text: &mut String, part: Part, mark: &Mark) -> Result<(), AllocError> {
    let (next, boot, now) = (mark.next, mark.boot, mark.now);
    match part {
        Part::Numbers => write!(text, "{next}"),
        Part::Boot => write!(text, "boot {boot}"),
        _ => write!(text, "{now} ms"),
    }
}

fn tell_fabric(text: &mut String, fabric: Option<&Descriptor>) -> Result<(), AllocError> {
    let Some(fabric) = fabric else {
        return text.push_str("no further fabric");
    };
    let (index, node, id) = (fabric.index, fabric.node_id, fabric.fabric_id);
    let vendor = fabric.vendor;
    write!(
        text,
        "fabric {index}: node {node:016x} of fabric id {id:016x}, vendor {vendor:#06x}, label "
    )?;
    tell_octets(text, fabric.label.as_slice())
}

fn tell_network(text: &mut String, network: Option<&Network>) -> Result<(), AllocError> {
    let Some(network) = network else {
        return text.push_str("no further network");
    };
    text.push_str("network ")?;
    tell_octets(text, network.id.as_slice())?;
    text.push_str(if network.connected { ", connected" } else { "" })
}

fn tell_failsafe(text: &mut String, failsafe: &Option<Armed>) -> Result<(), AllocError> {
    let Some(armed) = failsafe else {
        return text.push_str("not armed");
    };
    let (owner, context, until) = (armed.owner, armed.context, armed.until);
    write!(
        text,
        "armed by fabric {owner} for fabric {context} until {until} ms"
    )
}

fn tell_happened(text: &mut String, event: Option<&Happened>) -> Result<(), AllocError> {
    let Some(event) = event else {
        return text.push_str("no further event");
    };
    let (number, at) = (event.number, event.at);
    write!(text, "event {number}, at {at} ms")
}
