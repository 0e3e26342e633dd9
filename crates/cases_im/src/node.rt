//! A node that keeps rows, one data version and one access control entry, and how it answers.

use crate::telling::{tell_path, tell_place, tell_value};
use cases_page::Page;
use mt_model::{
    AclEntry, Actor, ExactCopy, Item, NodeStep, Paths, Place, Row, Rows, Sight, Version, Versions,
    Writes,
};
use mt_read::read;
use mt_tlv::Value;
use mt_write::write;
use std::alloc::{AllocError, Global};
use std::slice;

/// What the node keeps.
pub(crate) struct SmallNode {
    pub(crate) rows: Vec<Row>,
    pub(crate) version: Version,
    pub(crate) entry: AclEntry,
}

impl Drop for SmallNode {
    fn drop(self) {
        let SmallNode {
            rows: _,
            version: _,
            entry: _,
        } = self;
    }
}

impl Sight for SmallNode {
    ghost use Rattle.std.specs.Prelude.{[], ◌∷◌, filter};
    ghost use Rattle.mt_model.specs.rows.Sight.{stands_at};

    ghost rows_of = { λ kept place. filter (stands_at place) kept.rows.items };

    ghost versions = { λ kept. kept.version ∷ [] };

    ghost all_entries = { λ kept. kept.entry ∷ [] };

    fn rows_at(&self, place: &Place) -> Result<Rows, AllocError> {
        let mut rows = Vec::new(*self.rows.allocator());
        for row in &self.rows {
            if stands_at(row, place) {
                rows.push(row.copy()?)?;
            }
        }
        if !Rows::is_ascending(&rows) {
            return Err(AllocError);
        }
        Ok(Rows::from_vec(rows))
    }

    fn version(&self, endpoint: u16, cluster: u32) -> u32 {
        if self.version.endpoint == endpoint && self.version.cluster == cluster {
            return self.version.version;
        }
        0
    }

    fn entries(&self, fabric: u8) -> &[AclEntry] {
        if self.entry.fabric == fabric {
            return slice::from_ref(&self.entry);
        }
        &[]
    }
}

ghost use Rattle.std.specs.Prelude.{◌≡◌};
ghost use Rattle.mt_model.specs.rows.Sight.{stands_at};

fn stands_at(row: &Row, place: &Place) -> bool
    ensures { result ≡ stands_at place.now row.now }
{
    row.place.endpoint == place.endpoint
        && row.place.cluster == place.cluster
        && row.place.leaf == place.leaf
}

impl SmallNode {
    /// A node without rows.
    pub(crate) fn new(alloc: Global, entry: AclEntry) -> SmallNode {
        SmallNode {
            rows: Vec::new(alloc),
            version: Version {
                endpoint: 0,
                cluster: 0,
                version: 0,
            },
            entry,
        }
    }

    /// From here on it is a node without rows, with this entry and version.
    pub(crate) fn begin(&mut self, entry: AclEntry, version: Version) {
        self.rows.clear();
        self.version = version;
        self.entry = entry;
    }

    /// Tells what a read is answered by a reader that knows the data in this version.
    pub(crate) fn tell_read(
        &self,
        alloc: Global,
        page: &mut Page,
        actor: &Actor,
        paths: &Paths,
        filtered: bool,
        known: u32,
    ) -> Result<(), AllocError> {
        let versions = self.versions(alloc, known)?;
        match read(alloc, self, actor, paths, filtered, &versions) {
            Ok(items) => tell_items(alloc, page, items.as_slice()),
            Err(fault) => {
                page.add_debug(&fault);
                page.end_line();
            }
        }
        Ok(())
    }

    fn versions(&self, alloc: Global, known: u32) -> Result<Versions, AllocError> {
        let version = Version {
            endpoint: self.version.endpoint,
            cluster: self.version.cluster,
            version: known,
        };
        Ok(Versions::from_vec(vec![in alloc; version]?))
    }

    /// Tells the statuses of a write, and what it would change.
    pub(crate) fn tell_write(
        &self,
        alloc: Global,
        page: &mut Page,
        actor: &Actor,
        items: &Writes,
        timed: bool,
    ) -> Result<(), AllocError> {
        let written = write(alloc, self, actor, items, timed)?;
        tell_items(alloc, page, written.statuses.as_slice());
        for step in written.rows.as_slice() {
            tell_step(alloc, page, step);
        }
        Ok(())
    }
}

fn tell_items(alloc: Global, page: &mut Page, items: &[Item]) {
    if items.is_empty() {
        page.line("no item");
    }
    for item in items {
        tell_item(alloc, page, item);
    }
}

fn tell_item(alloc: Global, page: &mut Page, item: &Item) {
    match item {
        Item::Attribute {
            path,
            version,
            value,
        } => {
            page.add("data");
            tell_path(page, path);
            page.add(" version ");
            page.add_id(u64::from(*version));
            tell_value(alloc, page, value);
        }
        Item::Refused { path, code } => {
            page.add("status ");
            page.add_hex(&[*code]);
            tell_path(page, path);
            page.end_line();
        }
        _ => page.line("an event"),
    }
}

fn tell_step(alloc: Global, page: &mut Page, step: &NodeStep) {
    match step {
        NodeStep::SetRow {
            place,
            fabric,
            values,
        } => {
            tell_place(page, place);
            page.add(" of fabric ");
            page.add_shown(fabric);
            page.line(" becomes");
            tell_values(alloc, page, values.as_slice());
        }
        NodeStep::SetEntries { fabric, entries } => {
            page.add("fabric ");
            page.add_shown(fabric);
            page.add(" has ");
            page.add_number(entries.len() as u64);
            page.line(" entries");
        }
        _ => page.line("another step"),
    }
}

fn tell_values(alloc: Global, page: &mut Page, values: &[Value]) {
    for value in values {
        page.add(" ");
        tell_value(alloc, page, value);
    }
}
