//! The table of the fabrics.

ghost use Rattle.std.specs.Prelude.{◌≡◌, [], None, Some, IfErr, IfOk, OnErr, OnOk, find};
ghost use Rattle.mt_fabrics.specs.Table.{IsLeastUnused, IsRefusalOrMemory, IsTable, add_refusal, added, credentials_at, has_index, index_by, label_refusal, labelled, least_unused, remove_refusal, removed, update_refusal, updated};

use crate::changing::{change_credentials, change_label, put, take_out};
use crate::fault::FabricFault;
use crate::finding::{
    index_by, is_identity_of_another, is_identity_used, is_label_of_another, is_label_used,
    least_unused, place_of,
};
use mt_model::limits::FABRICS;
use mt_model::{Credentials, ExactCopy, Fabric, Fabrics};
use mt_tlv::Bytes;
use std::alloc::{AllocError, Global};
use std::marker::Model;
use std::mem::replace;

/// The fabrics of a node. Contracts see the list of them, by ascending index: the indexes are 1 to 16,
/// no two fabrics have one identity, and no two have one label, unless it is empty.
#[derive(Drop)]
pub struct FabricTable {
    alloc: Global,
    fabrics: Fabrics,
}

impl Model for FabricTable {
    ghost use Rattle.std.specs.Prelude.{List};
    ghost use Rattle.mt_model.specs.declared.tables.fabric.Fabric.{Fabric};
    ghost use Rattle.mt_fabrics.specs.Table.{IsTable};

    ghost Value = { List Fabric };

    ghost view = { λ table. table.fabrics };

    ghost invariant = { λ table. IsTable table.fabrics };
}

impl FabricTable {
    /// A table with no fabric. It takes no memory.
    pub fn new(alloc: Global) -> FabricTable
        ensures { result ≡ [] }
    {
        FabricTable {
            alloc,
            fabrics: Fabrics::new(alloc),
        }
    }

    /// The table of these fabrics.
    pub fn from_fabrics(alloc: Global, fabrics: Fabrics) -> FabricTable
        requires { IsTable fabrics }
        ensures { result ≡ fabrics }
    {
        FabricTable { alloc, fabrics }
    }

    /// The fabrics, for a node to keep.
    pub fn into_fabrics(self) -> Fabrics
        ensures value { result ≡ self }
        ensures valid { IsTable result }
    {
        self.fabrics
    }

    /// Adds a fabric under the least unused index from 1, whatever index it has, and answers that
    /// index. It takes memory. After a refusal the table is as before, and the fabric is let go.
    pub fn add(&mut self, fabric: Fabric) -> Result<u8, FabricFault>
        ensures refused { IfErr result (IsRefusalOrMemory (add_refusal fabric self.old)) }
        ensures allowed { OnOk result (add_refusal fabric self.old ≡ None) }
        ensures index { IfOk result (λ index. index ≡ least_unused self.old) }
        ensures least { IfOk result (λ index. IsLeastUnused index self.old) }
        ensures added { OnOk result (self.new ≡ added fabric self.old) }
        ensures kept { OnErr result (self.new ≡ self.old) }
    {
        let fabrics = self.fabrics.as_slice();
        let given = &fabric.credentials;
        if is_identity_used(fabrics, given.root_key.as_slice(), given.fabric_id) {
            return Err(FabricFault::Conflict);
        }
        if is_label_used(fabrics, fabric.label.as_slice()) {
            return Err(FabricFault::LabelConflict);
        }
        if fabrics.len() >= FABRICS {
            return Err(FabricFault::TableFull);
        }
        let index = least_unused(fabrics);
        let mut items = replace(&mut self.fabrics, Fabrics::new(self.alloc)).into_vec();
        match put(&mut items, with_index(fabric, index)) {
            Ok(()) => {
                self.fabrics = Fabrics::from_vec(items);
                Ok(index)
            }
            Err(_) => {
                self.fabrics = Fabrics::from_vec(items);
                Err(FabricFault::Memory)
            }
        }
    }

    /// Gives a fabric new credentials, and hands back those that it had. It takes no memory. After a
    /// refusal, NoIndex or Conflict, the table is as before.
    pub fn update(&mut self, index: u8, given: Credentials) -> Result<Credentials, FabricFault>
        ensures refused { IfErr result (λ fault. update_refusal index given self.old ≡ Some fault) }
        ensures allowed { OnOk result (update_refusal index given self.old ≡ None) }
        ensures before { IfOk result (λ before. credentials_at index self.old ≡ Some before) }
        ensures updated { OnOk result (self.new ≡ updated index given self.old) }
        ensures kept { OnErr result (self.new ≡ self.old) }
    {
        let fabrics = self.fabrics.as_slice();
        let Some(place) = place_of(fabrics, index) else {
            return Err(FabricFault::NoIndex);
        };
        if is_identity_of_another(fabrics, index, &given) {
            return Err(FabricFault::Conflict);
        }
        let mut items = replace(&mut self.fabrics, Fabrics::new(self.alloc)).into_vec();
        let before = change_credentials(&mut items, index, place, given);
        self.fabrics = Fabrics::from_vec(items);
        Ok(before)
    }

    /// Takes a fabric out of the table, and hands it out. It takes no memory. After a refusal,
    /// NoIndex, the table is as before.
    pub fn remove(&mut self, index: u8) -> Result<Fabric, FabricFault>
        ensures refused { IfErr result (λ fault. remove_refusal index self.old ≡ Some fault) }
        ensures allowed { OnOk result (remove_refusal index self.old ≡ None) }
        ensures found { IfOk result (λ fabric. find (has_index index) self.old ≡ Some fabric) }
        ensures removed { OnOk result (self.new ≡ removed index self.old) }
        ensures kept { OnErr result (self.new ≡ self.old) }
    {
        let Some(place) = place_of(self.fabrics.as_slice(), index) else {
            return Err(FabricFault::NoIndex);
        };
        let mut items = replace(&mut self.fabrics, Fabrics::new(self.alloc)).into_vec();
        let fabric = take_out(&mut items, index, place);
        self.fabrics = Fabrics::from_vec(items);
        Ok(fabric)
    }

    /// Gives a fabric a label. It takes no memory. After a refusal, NoIndex or LabelConflict, the
    /// table is as before.
    pub fn label(&mut self, index: u8, label: Bytes) -> Result<(), FabricFault>
        ensures refused { IfErr result (λ fault. label_refusal index label self.old ≡ Some fault) }
        ensures allowed { OnOk result (label_refusal index label self.old ≡ None) }
        ensures labelled { OnOk result (self.new ≡ labelled index label self.old) }
        ensures kept { OnErr result (self.new ≡ self.old) }
    {
        let fabrics = self.fabrics.as_slice();
        let Some(place) = place_of(fabrics, index) else {
            return Err(FabricFault::NoIndex);
        };
        if is_label_of_another(fabrics, index, label.as_slice()) {
            return Err(FabricFault::LabelConflict);
        }
        let mut items = replace(&mut self.fabrics, Fabrics::new(self.alloc)).into_vec();
        change_label(&mut items, index, place, label);
        self.fabrics = Fabrics::from_vec(items);
        Ok(())
    }

    /// The index of the fabric with an identity, which is the public key of its root with its id.
    /// None exactly where there is none.
    pub fn by_identity(&self, root_key: &[u8], fabric_id: u64) -> Option<u8>
        ensures { result ≡ index_by root_key.now fabric_id self.now }
    {
        index_by(self.fabrics.as_slice(), root_key, fabric_id)
    }

    /// The fabrics, lent.
    pub fn fabrics(&self) -> &Fabrics
        ensures value { result.now ≡ self.now }
        ensures valid { IsTable self.now }
    {
        &self.fabrics
    }
}

impl ExactCopy for FabricTable {
    fn copy(&self) -> Result<FabricTable, AllocError> {
        let fabrics = self.fabrics.copy()?;
        Ok(FabricTable {
            alloc: self.alloc,
            fabrics,
        })
    }
}

// The fabric under another index.
fn with_index(fabric: Fabric, index: u8) -> Fabric
    ensures { result ≡ record fabric { index = index } }
{
    let mut fabric = fabric;
    fabric.index = index;
    fabric
}
