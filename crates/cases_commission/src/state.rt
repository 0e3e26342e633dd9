//! The node of a case. Its words, each of which may be left out:
//!
//! - `armed:N`: fabric N armed the fail-safe, 0 for PASE, and commissioning goes on for it; `context:N` for another;
//! - `added:N`, `updated:N`, `root:CERT`, `csr:new`, `csr:update`: what was done since. The nonce of a signing
//!   request is 32 bytes 0e;
//! - `networks:N`: the first N of the networks n1 to n4, of which n1 is connected;
//! - `fabrics:N`: the first N of the configuration's fabrics, the first two where it is left out; `gone:N`: fabric N left;
//! - `window:N`, `sets:SETS`, `map:ITEMS`, `sets-of-2:SETS`, `map-of-2:ITEMS`: what its rows have (`rows`);
//! - `now:MS`: what time it is, 10000 ms where it is left out.

ghost use Rattle.std.specs.Prelude.{IsTrue};
ghost use Rattle.mt_model.specs.rows.Order.{fabrics_ascend};
ghost use Rattle.mt_model.specs.texts.Config.{ascend_from};

use crate::rows::rows;
use crate::words::{number, said};
use cases_page::{no_case, pieces};
use mt_fabrics::FabricTable;
use mt_model::{
    AclEntries, Armed, Config, ExactCopy, Fabrics, Network, Networks, Roots, StoredRows, View,
};
use mt_tlv::Bytes;
use std::alloc::{AllocError, Global};
use std::io;

/// A node.
pub(crate) struct Node {
    rows: StoredRows,
    entries: AclEntries,
    table: FabricTable,
    roots: Roots,
    networks: Networks,
    armed: Option<Armed>,
    ghost entries_ascend: { IsTrue (ascend_from 0 entries) },
}

impl Drop for Node {
    fn drop(self) {
        let Node {
            rows: _,
            entries: _,
            table: _,
            roots: _,
            networks: _,
            armed: _,
        } = self;
    }
}

impl Node {
    /// What a command observes of it.
    pub(crate) fn view(&self) -> View<'_> {
        View {
            rows: &self.rows,
            entries: &self.entries,
            fabrics: fabrics_of(&self.table),
            roots: &self.roots,
            networks: &self.networks,
            armed: self.armed.as_ref(),
        }
    }
}

fn fabrics_of(table: &FabricTable) -> &Fabrics
    ensures { IsTrue (fabrics_ascend result.now) }
{
    table.fabrics()
}

/// The node of these words.
pub(crate) fn node_of(alloc: Global, config: &Config, state: &str) -> io::Result<Node> {
    are_known(state)?;
    let mut node = bare_node(alloc)?;
    node.rows = rows(alloc, state)?;
    node.table = table(alloc, config, state)?;
    node.networks = networks(alloc, state)?;
    node.armed = armed(alloc, state)?;
    Ok(node)
}

/// What time it is in these words, in ms.
pub(crate) fn time_of(state: &str) -> u64 {
    match said(state, "now") {
        Some(word) => word.parse::<u64>().unwrap_or(0),
        None => NOW,
    }
}

// What time it is where no word says it, in ms.
const NOW: u64 = 10_000;

fn bare_node(alloc: Global) -> Result<Node, AllocError> {
    let rows = StoredRows::new(alloc)?;
    Ok(Node {
        rows,
        entries: AclEntries::new(alloc),
        table: FabricTable::new(alloc),
        roots: Roots::new(alloc),
        networks: Networks::new(alloc),
        armed: None,
    })
}

fn are_known(state: &str) -> io::Result<()> {
    for word in state.split(' ') {
        let (key, _) = word.split_once(':').unwrap_or((word, ""));
        match key {
            ""
            | "armed"
            | "context"
            | "added"
            | "updated"
            | "root"
            | "csr"
            | "networks"
            | "fabrics"
            | "gone"
            | "window"
            | "sets"
            | "map"
            | "sets-of-2"
            | "map-of-2"
            | "now" => {}
            _ => return Err(no_case()),
        }
    }
    Ok(())
}

fn table(alloc: Global, config: &Config, state: &str) -> io::Result<FabricTable> {
    let count = number(state, "fabrics").unwrap_or(2);
    let mut table = FabricTable::new(alloc);
    for fabric in config.fabrics.as_slice().iter().take(count as usize) {
        if table.add(fabric.copy()?).is_err() {
            return Err(no_case());
        }
    }
    if let Some(index) = number(state, "gone") {
        if table.remove(index).is_err() {
            return Err(no_case());
        }
    }
    Ok(table)
}

const NETWORKS: [&str; 4] = ["n1", "n2", "n3", "n4"];

fn networks(alloc: Global, state: &str) -> Result<Networks, AllocError> {
    let count = number(state, "networks").unwrap_or(0);
    let mut networks = Networks::new(alloc);
    for id in NETWORKS.iter().take(count as usize) {
        networks.push(Network {
            id: Bytes::from_slice(alloc, id.as_bytes())?,
            secret: Bytes::from_slice(alloc, b"secret")?,
            connected: *id == "n1",
        })?;
    }
    Ok(networks)
}

fn armed(alloc: Global, state: &str) -> io::Result<Option<Armed>> {
    let Some(owner) = number(state, "armed") else {
        return Ok(None);
    };
    let context = number(state, "context").unwrap_or(owner);
    let added = number(state, "added");
    let updated = number(state, "updated");
    let root = root(alloc, state)?;
    let csr = csr(alloc, state)?;
    Ok(Some(Armed {
        owner,
        context,
        until: 60_000,
        limit: 900_000,
        added,
        updated,
        root,
        csr,
        saved_credentials: None,
        saved_networks: Networks::new(alloc),
    }))
}

fn root(alloc: Global, state: &str) -> io::Result<Option<Bytes>> {
    match said(state, "root") {
        Some(cert) => Ok(Some(Bytes::from_vec(pieces(alloc, cert)?))),
        None => Ok(None),
    }
}

// The signing request, and whether it was for an update.
fn csr(alloc: Global, state: &str) -> io::Result<Option<(Bytes, bool)>> {
    let update = match said(state, "csr") {
        Some("update") => true,
        Some("new") => false,
        Some(_) => return Err(no_case()),
        None => return Ok(None),
    };
    Ok(Some((Bytes::from_vec(pieces(alloc, "0e*32")?), update)))
}
