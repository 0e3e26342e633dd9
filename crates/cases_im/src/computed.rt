//! Computed rows of a node with two fabrics, two entries, two networks and two roots.

ghost use Rattle.std.specs.Prelude.{◌≡◌, IfOk, IsTrue};
ghost use Rattle.mt_model.specs.texts.Config.{ascend_from};
ghost use Rattle.mt_model.specs.rows.Order.{fabrics_ascend};

use crate::reading::place;
use crate::telling::tell_value;
use cases_page::Page;
use mt_apps::rows_at;
use mt_model::{
    AclEntries, AclEntry, Auth, Credentials, Fabric, Fabrics, Network, Networks, Place, Privilege,
    Roots, Row, Rows, StoredRows, Subjects, Target, Targets, View,
};
use mt_tlv::Bytes;
use std::alloc::{AllocError, Global};

fn entries(alloc: Global) -> Result<AclEntries, AllocError>
    ensures { IfOk result (λ entries. IsTrue (ascend_from 0 entries)) }
{
    let on_off = Target {
        cluster: Some(6),
        endpoint: None,
        device: None,
    };
    let bench = Target {
        cluster: None,
        endpoint: Some(1),
        device: Some(0xfff1_0001),
    };
    let administers = AclEntry {
        privilege: Privilege::Administer,
        auth: Auth::Case,
        subjects: Subjects::from_vec(vec![in alloc; 1]?),
        targets: Targets::new(alloc),
        fabric: 1,
    };
    let operates = AclEntry {
        privilege: Privilege::Operate,
        auth: Auth::Case,
        subjects: Subjects::new(alloc),
        targets: Targets::from_vec(vec![in alloc; on_off, bench]?),
        fabric: 2,
    };
    Ok(AclEntries::from_vec(vec![in alloc; administers, operates]?))
}

fn fabric(
    alloc: Global,
    index: u8,
    root_key: &[u8],
    noc: &[u8],
    icac: &[u8],
    label: &[u8],
) -> Result<Fabric, AllocError>
    ensures { IfOk result (λ fabric. fabric.index ≡ index) }
{
    let credentials = Credentials {
        root: Bytes::new(alloc),
        root_key: Bytes::from_slice(alloc, root_key)?,
        fabric_id: index as u64,
        node_id: 10 * index as u64,
        noc: Bytes::from_slice(alloc, noc)?,
        icac: Bytes::from_slice(alloc, icac)?,
        ipk: Bytes::new(alloc),
    };
    Ok(Fabric {
        index,
        credentials,
        vendor: 65_521,
        label: Bytes::from_slice(alloc, label)?,
    })
}

fn fabrics(alloc: Global) -> Result<Fabrics, AllocError>
    ensures { IfOk result (λ fabrics. IsTrue (fabrics_ascend fabrics)) }
{
    let one = fabric(alloc, 1, b"\x04\x11", b"\xb1", b"", b"one")?;
    let two = fabric(alloc, 2, b"\x04\x22", b"\xb2", b"\xd2", b"two")?;
    Ok(Fabrics::from_vec(vec![in alloc; one, two]?))
}

fn network(alloc: Global, id: &[u8], connected: bool) -> Result<Network, AllocError> {
    Ok(Network {
        id: Bytes::from_slice(alloc, id)?,
        secret: Bytes::new(alloc),
        connected,
    })
}

fn networks(alloc: Global) -> Result<Networks, AllocError> {
    let net = network(alloc, b"net", false)?;
    let lan = network(alloc, b"lan", true)?;
    Ok(Networks::from_vec(vec![in alloc; net, lan]?))
}

fn roots(alloc: Global) -> Result<Roots, AllocError> {
    let second = Bytes::from_slice(alloc, b"\xa2")?;
    let first = Bytes::from_slice(alloc, b"\xa1")?;
    Ok(Roots::from_vec(vec![in alloc; second, first]?))
}

// The parts of the node.
struct Parts {
    rows: StoredRows,
    entries: AclEntries,
    fabrics: Fabrics,
    roots: Roots,
    networks: Networks,
    ghost entries_ascend: { IsTrue (ascend_from 0 entries) },
    ghost fabrics_ascend: { IsTrue (fabrics_ascend fabrics) },
}

impl Drop for Parts {
    fn drop(self) {
        let Parts {
            rows: _,
            entries: _,
            fabrics: _,
            roots: _,
            networks: _,
        } = self;
    }
}

fn some_parts(alloc: Global) -> Result<Parts, AllocError> {
    let rows = StoredRows::new(alloc)?;
    let entries = entries(alloc)?;
    let fabrics = fabrics(alloc)?;
    let roots = roots(alloc)?;
    let networks = networks(alloc)?;
    Ok(Parts {
        rows,
        entries,
        fabrics,
        roots,
        networks,
    })
}

/// The rows that are computed at a place.
pub(crate) fn tell(alloc: Global, page: &mut Page, at: &str) -> Result<(), AllocError> {
    let parts = some_parts(alloc)?;
    let rows = rows_of(alloc, &parts, &place(at))?;
    tell_rows(alloc, page, rows.as_slice());
    Ok(())
}

fn rows_of(alloc: Global, parts: &Parts, place: &Place) -> Result<Rows, AllocError> {
    let view = View {
        rows: &parts.rows,
        entries: &parts.entries,
        fabrics: &parts.fabrics,
        roots: &parts.roots,
        networks: &parts.networks,
        armed: None,
    };
    rows_at(alloc, &view, place)
}

fn tell_rows(alloc: Global, page: &mut Page, rows: &[Row]) {
    if rows.is_empty() {
        page.line("no row");
    }
    for row in rows {
        page.add("of fabric ");
        page.add_shown(&row.fabric);
        tell_value(alloc, page, &row.value);
    }
}
