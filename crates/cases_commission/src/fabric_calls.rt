//! Calls of the table of fabrics.

use cases_page::{Page, byte, number, word};
use mt_fabrics::FabricTable;
use mt_model::{Credentials, ExactCopy, Fabric};
use mt_tlv::Bytes;
use std::alloc::{AllocError, Global};

/// A table of fabrics.
pub(crate) struct Table {
    alloc: Global,
    table: FabricTable,
}

impl Drop for Table {
    fn drop(self) {
        let Table { alloc: _, table: _ } = self;
    }
}

impl Table {
    /// One with no fabric.
    pub(crate) fn new(alloc: Global) -> Table {
        Table {
            alloc,
            table: FabricTable::new(alloc),
        }
    }

    /// What a call answers.
    pub(crate) fn tell(&mut self, page: &mut Page, words: &[&str]) -> Result<(), AllocError> {
        match word(words, 0) {
            "table" => self.table = FabricTable::new(self.alloc),
            "copy-table" => self.table = self.table.copy()?,
            "fabrics" => self.tell_fabrics(page),
            _ => {
                page.add("  ");
                self.call(page, words)?;
                page.end_line();
            }
        }
        Ok(())
    }

    fn call(&mut self, page: &mut Page, words: &[&str]) -> Result<(), AllocError> {
        match word(words, 0) {
            "add" => self.add(page, words)?,
            "update" => self.update(page, words)?,
            "remove" => self.remove(page, byte(words, 1)),
            "label" => self.label(page, words)?,
            _ => page.add_debug(&self.table.by_identity(&[byte(words, 1)], number(words, 2))),
        }
        Ok(())
    }

    fn add(&mut self, page: &mut Page, words: &[&str]) -> Result<(), AllocError> {
        let fabric = fabric(self.alloc, byte(words, 1), number(words, 2), word(words, 3))?;
        page.add_debug(&self.table.add(fabric));
        Ok(())
    }

    // Tells the id that the credentials had.
    fn update(&mut self, page: &mut Page, words: &[&str]) -> Result<(), AllocError> {
        let given = credentials(self.alloc, byte(words, 2), number(words, 3))?;
        match self.table.update(byte(words, 1), given) {
            Ok(before) => page.add_number(before.fabric_id),
            Err(fault) => page.add_debug(&fault),
        }
        Ok(())
    }

    // Tells the id of the fabric that goes.
    fn remove(&mut self, page: &mut Page, index: u8) {
        match self.table.remove(index) {
            Ok(fabric) => page.add_number(fabric.credentials.fabric_id),
            Err(fault) => page.add_debug(&fault),
        }
    }

    fn label(&mut self, page: &mut Page, words: &[&str]) -> Result<(), AllocError> {
        let label = label_of(self.alloc, word(words, 2))?;
        page.add_debug(&self.table.label(byte(words, 1), label));
        Ok(())
    }

    fn tell_fabrics(&self, page: &mut Page) {
        for fabric in self.table.fabrics().as_slice() {
            page.add("  ");
            page.add_number(u64::from(fabric.index));
            page.add(" ");
            page.add_number(fabric.credentials.fabric_id);
            page.add(" ");
            page.add_hex(fabric.label.as_slice());
            page.end_line();
        }
    }
}

fn label_of(alloc: Global, word: &str) -> Result<Bytes, AllocError> {
    if word == "-" {
        return Ok(Bytes::new(alloc));
    }
    Bytes::from_slice(alloc, word.as_bytes())
}

fn credentials(alloc: Global, key: u8, fabric_id: u64) -> Result<Credentials, AllocError> {
    Ok(Credentials {
        root: Bytes::new(alloc),
        root_key: Bytes::from_slice(alloc, &[key])?,
        fabric_id,
        node_id: 1,
        noc: Bytes::new(alloc),
        icac: Bytes::new(alloc),
        ipk: Bytes::new(alloc),
    })
}

// A fabric with an index that the table replaces.
fn fabric(alloc: Global, key: u8, fabric_id: u64, label: &str) -> Result<Fabric, AllocError> {
    Ok(Fabric {
        index: 200,
        credentials: credentials(alloc, key, fabric_id)?,
        vendor: 65_521,
        label: label_of(alloc, label)?,
    })
}
