//! Configurations: the rows of those that are read, and what is told of the others.

use crate::pieces::spelled;
use cases_page::Page;
use mt_files::{ConfigFault, config};
use mt_model::{AclEntry, Auth, Config, Fabric, JoinRow, SessionRow, TableVerdicts, Verdicts};
use std::alloc::{AllocError, Global};

/// Tells a case, and what is told of it: `ok`, or the first field that is not as it must be. A case is a
/// text, or `old|new` for the bench configuration in which new stands in the place of old.
pub(crate) fn tell(
    alloc: Global,
    page: &mut Page,
    bench: &str,
    case: &str,
) -> Result<(), AllocError> {
    let text = match case.split_once('|') {
        Some((old, new)) => bench.replacen(alloc, old, new, 1)?,
        None => String::from_str(alloc, case)?,
    };
    page.add(told(alloc, text.as_str())?);
    page.add(": ");
    page.line(case);
    Ok(())
}

fn told(alloc: Global, text: &str) -> Result<&'static str, AllocError> {
    match config(alloc, long(alloc, text)?.as_bytes()) {
        Ok(_) => Ok("ok"),
        Err(ConfigFault::Field(field)) => Ok(field.name()),
        Err(ConfigFault::Memory) => Err(AllocError),
    }
}

// Rows stand between two `^`, and in them bytes between two `~`.
fn long(alloc: Global, text: &str) -> Result<String, AllocError> {
    let rows = spelled(alloc, text, '^')?;
    spelled(alloc, rows.as_str(), '~')
}

/// Tells a configuration row by row.
pub(crate) fn tell_rows(alloc: Global, page: &mut Page, text: &str) -> Result<(), AllocError> {
    match config(alloc, long(alloc, text)?.as_bytes()) {
        Ok(config) => {
            page.line("a configuration");
            tell_node(page, &config);
            tell_verdicts(page, &config, &TableVerdicts::new(&config)?);
        }
        Err(fault) => {
            page.add_shown(&fault);
            page.end_line();
        }
    }
    Ok(())
}

fn tell_node(page: &mut Page, config: &Config) {
    for fabric in config.fabrics.as_slice() {
        tell_fabric(page, fabric);
    }
    for entry in config.entries.as_slice() {
        tell_entry(page, entry);
    }
    for row in config.sessions.as_slice() {
        tell_session(page, row);
    }
}

// Each row as whoever asks for its verdict finds it.
fn tell_verdicts(page: &mut Page, config: &Config, verdicts: &TableVerdicts) {
    for row in config.roots.as_slice() {
        if let Some(root) = verdicts.root(row.cert.as_slice()) {
            page.add("root");
            tell_texts(page, &[root.cert.as_slice(), root.key.as_slice()]);
        }
    }
    for row in config.csrs.as_slice() {
        if let Some(csr) = verdicts.csr(row.nonce.as_slice()) {
            let (nonce, elements) = (csr.nonce.as_slice(), csr.elements.as_slice());
            page.add("csr");
            tell_texts(page, &[nonce, elements, csr.signature.as_slice()]);
        }
    }
    for row in config.joins.as_slice() {
        let (root, noc, icac) = (row.root.as_slice(), row.noc.as_slice(), row.icac.as_slice());
        if let Some(join) = verdicts.join(root, noc, icac) {
            tell_join(page, join);
        }
    }
    for id in config.reachable.as_slice() {
        page.add("network");
        tell_texts(page, &[id.as_slice()]);
    }
}

fn tell_fabric(page: &mut Page, fabric: &Fabric) {
    let given = &fabric.credentials;
    page.add("fabric");
    tell_number(page, u64::from(fabric.index));
    tell_number(page, given.fabric_id);
    tell_number(page, given.node_id);
    tell_number(page, u64::from(fabric.vendor));
    tell_texts(
        page,
        &[
            given.root.as_slice(),
            given.root_key.as_slice(),
            given.noc.as_slice(),
            given.icac.as_slice(),
            given.ipk.as_slice(),
            fabric.label.as_slice(),
        ],
    );
}

fn tell_entry(page: &mut Page, entry: &AclEntry) {
    page.add("entry of");
    tell_number(page, u64::from(entry.fabric));
    page.add(" ");
    page.add_debug(&entry.privilege);
    page.add(" ");
    page.add_debug(&entry.auth);
    page.end_line();
    for subject in entry.subjects.as_slice() {
        page.add("  for");
        tell_number(page, *subject);
        page.end_line();
    }
    for target in entry.targets.as_slice() {
        page.add("  on ");
        page.add_debug(&target.cluster);
        page.add(" ");
        page.add_debug(&target.endpoint);
        page.add(" ");
        page.add_debug(&target.device);
        page.end_line();
    }
}

fn tell_session(page: &mut Page, row: &SessionRow) {
    page.add(match row.auth {
        Auth::Pase => "session PASE",
        Auth::Case => "session CASE",
        Auth::Group => "session of a group",
    });
    tell_number(page, u64::from(row.session));
    tell_number(page, u64::from(row.peer_session));
    tell_number(page, u64::from(row.boot));
    tell_number(page, row.fabric_id);
    tell_number(page, row.own_node);
    tell_number(page, row.peer_node);
    for cat in row.cats {
        tell_number(page, u64::from(cat));
    }
    tell_number(page, u64::from(row.counter_in));
    tell_number(page, u64::from(row.counter_out));
    tell_texts(
        page,
        &[
            row.root_key.as_slice(),
            row.key_in.as_slice(),
            row.key_out.as_slice(),
        ],
    );
}

fn tell_join(page: &mut Page, row: &JoinRow) {
    page.add("join");
    tell_number(page, row.fabric_id);
    tell_number(page, row.node_id);
    tell_texts(
        page,
        &[
            row.root.as_slice(),
            row.noc.as_slice(),
            row.icac.as_slice(),
            row.nonce.as_slice(),
        ],
    );
}

fn tell_number(page: &mut Page, number: u64) {
    page.add(" ");
    page.add_number(number);
}

// Bytes in hex, at the end of a line.
fn tell_texts(page: &mut Page, texts: &[&[u8]]) {
    for text in texts {
        page.add(",");
        page.add_hex(text);
    }
    page.end_line();
}
