//! What a node is that begins with a configuration, in words.

use mt_model::{AclEntry, Auth, Config, Fabric, JoinRow, Privilege, SessionRow, Target};
use mt_names::cluster_name;
use std::alloc::{AllocError, Global};

// The boot in which a run begins.
const FIRST_BOOT: u32 = 1;

// What the upper half of a subject is that means CATs.
const CAT_SUBJECT: u64 = 0xffff_fffd;

/// What the node is in its first boot: its fabrics with who may do what, the sessions, the verdicts and the networks in
/// reach.
pub(crate) fn node_in_words(alloc: Global, config: &Config) -> Result<String, AllocError> {
    let mut text = String::new(alloc);
    if config.fabrics.is_empty() {
        text.push_str("no fabrics\n")?;
    }
    for fabric in config.fabrics.as_slice() {
        tell_fabric(alloc, &mut text, fabric)?;
        tell_entries(&mut text, fabric.index, config.entries.as_slice())?;
    }
    tell_sessions(&mut text, config)?;
    tell_verdicts(&mut text, config)?;
    for id in config.reachable.as_slice() {
        text.push_str("network in reach: 0x")?;
        tell_octets(&mut text, id.as_slice())?;
        text.push_str("\n")?;
    }
    Ok(text)
}

fn tell_fabric(alloc: Global, text: &mut String, fabric: &Fabric) -> Result<(), AllocError> {
    let index = fabric.index;
    write!(text, "fabric {index}")?;
    if !fabric.label.as_slice().is_empty() {
        let label = String::from_utf8_lossy(alloc, fabric.label.as_slice())?;
        let label = label.as_str();
        write!(text, " {label:?}")?;
    }
    let node = fabric.credentials.node_id;
    let id = fabric.credentials.fabric_id;
    let vendor = fabric.vendor;
    writeln!(
        text,
        ": node {node:016x} of fabric id {id:016x}, vendor {vendor:#06x}"
    )
}

// Who may do what on a fabric.
fn tell_entries(text: &mut String, fabric: u8, entries: &[AclEntry]) -> Result<(), AllocError> {
    let mut has_none = true;
    for entry in entries {
        if entry.fabric == fabric {
            tell_entry(text, entry)?;
            has_none = false;
        }
    }
    if has_none {
        text.push_str("  no entry: it may do nothing over CASE\n")?;
    }
    Ok(())
}

fn tell_entry(text: &mut String, entry: &AclEntry) -> Result<(), AllocError> {
    text.push_str("  ")?;
    tell_subjects(text, entry.auth, entry.subjects.as_slice())?;
    text.push_str(may(entry.privilege))?;
    tell_targets(text, entry.targets.as_slice())?;
    text.push_str("\n")
}

fn tell_subjects(text: &mut String, auth: Auth, subjects: &[u64]) -> Result<(), AllocError> {
    if subjects.is_empty() {
        return text.push_str(match auth {
            Auth::Pase => "whoever is on PASE",
            Auth::Case => "every node",
            Auth::Group => "every group",
        });
    }
    for (at, subject) in subjects.iter().enumerate() {
        if at > 0 {
            text.push_str(", ")?;
        }
        tell_subject(text, auth, *subject)?;
    }
    Ok(())
}

fn tell_subject(text: &mut String, auth: Auth, subject: u64) -> Result<(), AllocError> {
    if auth == Auth::Group {
        return write!(text, "group {subject}");
    }
    if subject / 0x1_0000_0000 != CAT_SUBJECT {
        return write!(text, "node {subject:016x}");
    }
    let identifier = subject / 0x1_0000 % 0x1_0000;
    let version = subject % 0x1_0000;
    write!(
        text,
        "holders of CAT {identifier:04x} from version {version}"
    )
}

fn may(privilege: Privilege) -> &'static str {
    match privilege {
        Privilege::View => " may view ",
        Privilege::ProxyView => " may view, as a proxy, ",
        Privilege::Operate => " may operate ",
        Privilege::Manage => " may manage ",
        Privilege::Administer => " may administer ",
    }
}

fn tell_targets(text: &mut String, targets: &[Target]) -> Result<(), AllocError> {
    if targets.is_empty() {
        return text.push_str("everything");
    }
    for (at, target) in targets.iter().enumerate() {
        if at > 0 {
            text.push_str(", ")?;
        }
        tell_target(text, target)?;
    }
    Ok(())
}

fn tell_target(text: &mut String, target: &Target) -> Result<(), AllocError> {
    match target.cluster {
        Some(cluster) => tell_cluster(text, cluster)?,
        None => text.push_str("every cluster")?,
    }
    if let Some(endpoint) = target.endpoint {
        write!(text, " of endpoint {endpoint}")?;
    }
    if let Some(device) = target.device {
        write!(text, " of endpoints of device type {device}")?;
    }
    Ok(())
}

fn tell_cluster(text: &mut String, cluster: u32) -> Result<(), AllocError> {
    match cluster_name(cluster) {
        Some(name) => text.push_str(name),
        None => write!(text, "cluster {cluster}"),
    }
}

// The sessions of the first boot, and how many others have.
fn tell_sessions(text: &mut String, config: &Config) -> Result<(), AllocError> {
    let mut others = 0u64;
    for row in config.sessions.as_slice() {
        if row.boot == FIRST_BOOT {
            tell_session(text, config.fabrics.as_slice(), row)?;
        } else {
            others = others.saturating_add(1);
        }
    }
    if others > 0 {
        writeln!(text, "sessions of later boots: {others}")?;
    }
    Ok(())
}

fn tell_session(text: &mut String, fabrics: &[Fabric], row: &SessionRow) -> Result<(), AllocError> {
    let session = row.session;
    let peer = row.peer_session;
    write!(text, "session {session}, the peer's {peer}: ")?;
    if row.auth != Auth::Case {
        return text.push_str("PASE\n");
    }
    let node = row.peer_node;
    match fabrics.iter().find(|fabric| is_of(fabric, row)) {
        Some(fabric) => {
            let index = fabric.index;
            writeln!(text, "CASE, node {node:016x} of fabric {index}")
        }
        None => {
            let id = row.fabric_id;
            writeln!(
                text,
                "CASE, node {node:016x}; it waits for fabric id {id:016x} to join"
            )
        }
    }
}

fn is_of(fabric: &Fabric, row: &SessionRow) -> bool {
    fabric.has_identity(row.root_key.as_slice(), row.fabric_id)
}

fn tell_verdicts(text: &mut String, config: &Config) -> Result<(), AllocError> {
    for root in config.roots.as_slice() {
        text.push_str("good root certificate: ")?;
        tell_certificate(text, root.cert.as_slice())?;
        text.push_str("\n")?;
    }
    for csr in config.csrs.as_slice() {
        text.push_str("signing request answered for nonce 0x")?;
        tell_start(text, csr.nonce.as_slice())?;
        text.push_str("\n")?;
    }
    for join in config.joins.as_slice() {
        tell_join(text, join)?;
    }
    Ok(())
}

fn tell_join(text: &mut String, join: &JoinRow) -> Result<(), AllocError> {
    text.push_str("good chain: root ")?;
    tell_certificate(text, join.root.as_slice())?;
    text.push_str(" and certificate ")?;
    tell_certificate(text, join.noc.as_slice())?;
    let node = join.node_id;
    let id = join.fabric_id;
    writeln!(text, " make it node {node:016x} of fabric id {id:016x}")
}

// A certificate by its first bytes and its length.
fn tell_certificate(text: &mut String, bytes: &[u8]) -> Result<(), AllocError> {
    text.push_str("0x")?;
    tell_start(text, bytes)?;
    let len = bytes.len();
    if len > START {
        write!(text, " of {len} bytes")?;
    }
    Ok(())
}

// How many bytes are told of what is long.
const START: usize = 4;

fn tell_start(text: &mut String, bytes: &[u8]) -> Result<(), AllocError> {
    match bytes.get(..START) {
        Some(start) if bytes.len() > START => {
            tell_octets(text, start)?;
            text.push_str("..")
        }
        _ => tell_octets(text, bytes),
    }
}

fn tell_octets(text: &mut String, bytes: &[u8]) -> Result<(), AllocError> {
    for byte in bytes {
        write!(text, "{byte:02x}")?;
    }
    Ok(())
}
