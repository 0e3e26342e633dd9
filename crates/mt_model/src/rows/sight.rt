//! What answers are made of, and what a fabric may see of others.

ghost use Rattle.std.specs.Prelude.{◌≡◌, ◌==◌, List, filter, IfOk, IsTrue};
ghost use Rattle.mt_tlv.specs.View.{elements};
ghost use Rattle.mt_model.specs.texts.Config.{ascend_from};
ghost use Rattle.mt_model.specs.rows.Order.{fabrics_ascend};
ghost use Rattle.mt_model.specs.rows.Shown.{shown_items, shown_value};
ghost use Rattle.mt_model.specs.rows.Sight.{bare_elements, bare_value, is_acl, is_bench_list, is_key_sets, is_nocs, is_sensitive, is_sensitive_field, seen_by, version_in};
ghost use Rattle.mt_model.specs.declared.tables.access.AclEntry.{AclEntry};
ghost use Rattle.mt_model.specs.declared.rows.place.Place.{Place};
ghost use Rattle.mt_model.specs.declared.rows.place.Row.{Row};
ghost use Rattle.mt_model.specs.declared.node.state.Version.{Version};

use crate::rows::place::{Place, Row, Rows};
use crate::rows::shown::{shown_items, shown_value};
use crate::rows::stored::StoredRows;
use crate::tables::access::{AclEntries, AclEntry};
use crate::tables::fabric::Fabrics;
use crate::tables::network::{Armed, Networks, Roots};
use mt_tlv::{Members, Tag, Value};
use std::alloc::{AllocError, Global};

/// What of the node's state an answer may ask for.
pub trait Sight {
    /// The rows of each place, by ascending fabric and in the order of each list; those that are
    /// computed among them.
    ghost rows_of: { Self → Place → List Row };

    /// The data versions.
    ghost versions: { Self → List Version };

    /// The access control entries of all fabrics.
    ghost all_entries: { Self → List AclEntry };

    /// The rows of a place.
    fn rows_at(&self, place: &Place) -> Result<Rows, AllocError>
        ensures { IfOk result (λ rows. rows ≡ rows_of self.now place.now) };

    /// The items of a place's list as a fabric sees them, by ascending fabric and in their order; where
    /// `own` is set, the fabric's own alone. Whatever keeps the rows need not build what is not shown.
    fn items_shown(
        &self,
        alloc: Global,
        place: &Place,
        fabric: u8,
        own: bool,
    ) -> Result<Members, AllocError>
        ensures { IfOk result (λ items. items ≡ shown_items fabric own (rows_of self.now place.now)) }
    {
        let rows = self.rows_at(place)?;
        shown_items(alloc, fabric, own, rows.as_slice())
    }

    /// The value of a place that has one row, as a fabric sees it; null where there is none.
    fn value_shown(&self, alloc: Global, place: &Place, fabric: u8) -> Result<Value, AllocError>
        ensures { IfOk result (λ value. value ≡ shown_value fabric (rows_of self.now place.now)) }
    {
        let rows = self.rows_at(place)?;
        shown_value(alloc, fabric, rows.as_slice())
    }

    /// The data version of a cluster on an endpoint, 0 where there is none.
    fn version(&self, endpoint: u16, cluster: u32) -> u32
        ensures { result ≡ version_in (versions self.now) endpoint cluster };

    /// The access control entries of a fabric, in their order; none for one that is not in the table.
    fn entries(&self, fabric: u8) -> &[AclEntry]
        ensures { result.now ≡ filter (λ entry. entry.fabric == fabric) (all_entries self.now) };
}

/// The parts of the state from which computed attributes and commands are answered.
#[derive(Clone, Copy)]
pub struct View<'a> {
    pub rows: &'a StoredRows,
    pub entries: &'a AclEntries,
    pub fabrics: &'a Fabrics,
    pub roots: &'a Roots,
    pub networks: &'a Networks,
    pub armed: Option<&'a Armed>,
    /// The entries ascend by fabric.
    pub ghost entries_ascend: { IsTrue (ascend_from 0 entries.now) },
    /// The indexes of the fabrics rise.
    pub ghost fabrics_ascend: { IsTrue (fabrics_ascend fabrics.now) },
}

/// A row as a fabric sees it: as it stands where it is the fabric's own or nobody's, and without its
/// sensitive fields where it is another's.
pub fn sees(alloc: Global, fabric: u8, row: &Row) -> Result<Row, AllocError>
    ensures { IfOk result (λ seen. seen ≡ seen_by fabric row.now) }
{
    let value = if row.fabric == fabric || row.fabric == 0 {
        row.value.copy()?
    } else {
        bare(alloc, &row.place, &row.value)?
    };
    Ok(Row {
        place: row.place,
        fabric: row.fabric,
        value,
    })
}

// An item without its sensitive fields.
fn bare(alloc: Global, place: &Place, value: &Value) -> Result<Value, AllocError>
    ensures { IfOk result (λ bare. bare ≡ bare_value place.now value.now) }
{
    match value {
        Value::Struct(members) => Ok(Value::Struct(bare_members(alloc, place, members)?)),
        _ => value.copy(),
    }
}

fn bare_members(alloc: Global, place: &Place, members: &Members) -> Result<Members, AllocError>
    ensures { IfOk result (λ bare. bare ≡ bare_elements place.now members.now) }
{
    let all = members.as_slice();
    let mut kept = Vec::new(alloc);
    for (tag, value) in all {
        if !is_sensitive(place, *tag) {
            kept.push((*tag, value.copy()?))?;
        }
    }
    Ok(Members::from_vec(kept))
}

fn is_sensitive(place: &Place, tag: Tag) -> bool
    ensures { result ≡ is_sensitive place.now tag }
{
    match tag {
        Tag::Context(field) => is_sensitive_field(place, field),
        _ => is_acl(place) || is_key_sets(place),
    }
}

fn is_sensitive_field(place: &Place, field: u8) -> bool
    ensures { result ≡ is_sensitive_field place.now field }
{
    if is_acl(place) {
        return field != FABRIC_INDEX;
    }
    if is_nocs(place) {
        return field == 1 || field == 2;
    }
    if is_key_sets(place) {
        return field != FABRIC_INDEX;
    }
    is_bench_list(place) && field == 2
}

// The field of an item that names its fabric.
const FABRIC_INDEX: u8 = 254;

fn is_acl(place: &Place) -> bool
    ensures { result ≡ is_acl place.now }
{
    place.cluster == 0x1f && place.leaf == 0
}

fn is_nocs(place: &Place) -> bool
    ensures { result ≡ is_nocs place.now }
{
    place.cluster == 0x3e && place.leaf == 0
}

fn is_bench_list(place: &Place) -> bool
    ensures { result ≡ is_bench_list place.now }
{
    place.cluster == 0xfff1_fc00 && place.leaf == 0
}

fn is_key_sets(place: &Place) -> bool
    ensures { result ≡ is_key_sets place.now }
{
    place.cluster == 0x3f && place.leaf == 0xfff1_0000
}
