//! The stored rows, kept by place.

ghost use Rattle.std.specs.Prelude.{◌≡◌, ◌==◌, ◌+◌, ◌≤◌, ◌++◌, ◌∷◌, [], true, IfOk, IsTrue, OnOk, filter, length, not, vec_capacity, vec_len};
ghost use Rattle.std.specs.List.{list_all};
ghost use Rattle.mt_model.specs.rows.Order.{are_ascending};
ghost use Rattle.mt_model.specs.rows.Setting.{is_at, is_other_at, with_rows};
ghost use Rattle.mt_model.specs.rows.Sight.{stands_at};
ghost use Rattle.mt_model.specs.rows.Stored.{is_stored_place, stored_places};
ghost use Rattle.mt_model.specs.tables.Leaving.{stays};
ghost use Rattle.mt_model.specs.declared.rows.place.Row.{Row};

use crate::listed::ExactCopy;
use crate::node::action::Values;
use crate::rows::place::{Place, Row};
use crate::rows::setting::{rows_within, set_rows};
use crate::tables::fabric::stays;
use std::alloc::{AllocError, Global};
use std::collections::BTreeMap;
use std::marker::Model;
use std::mem::replace;

macro_rules! at {
    ($endpoint:expr, $cluster:expr, $leaf:expr) => {
        Place {
            endpoint: $endpoint,
            cluster: $cluster,
            leaf: $leaf,
        }
    };
}

// The places whose rows are stored, ascending.
static STORED_PLACES: [Place; 18] = [
    // Basic Information: NodeLabel and Location.
    at!(0, 0x28, 5),
    at!(0, 0x28, 6),
    // General Commissioning: Breadcrumb and RegulatoryConfig.
    at!(0, 0x30, 0),
    at!(0, 0x30, 2),
    // Network Commissioning: InterfaceEnabled, LastNetworkingStatus and LastNetworkID.
    at!(0, 0x31, 4),
    at!(0, 0x31, 5),
    at!(0, 0x31, 6),
    // Administrator Commissioning: WindowStatus, AdminFabricIndex, AdminVendorId and WindowEnd.
    at!(0, 0x3c, 0),
    at!(0, 0x3c, 1),
    at!(0, 0x3c, 2),
    at!(0, 0x3c, 0xfff1_0000),
    // Group Key Management: GroupKeyMap, and the key sets, which are no attribute's.
    at!(0, 0x3f, 0),
    at!(0, 0x3f, 0xfff1_0000),
    // On/Off: OnOff.
    at!(1, 0x06, 0),
    // Binding: Binding.
    at!(1, 0x1e, 0),
    // User Label: LabelList.
    at!(1, 0x41, 0),
    // Bench: Items and Number.
    at!(1, 0xfff1_fc00, 0),
    at!(1, 0xfff1_fc00, 1),
];

/// The places whose rows are stored, ascending: those of the table of clusters, and that of the group key sets.
pub fn stored_places() -> &'static [Place]
    ensures { result.now ≡ stored_places }
{
    &STORED_PLACES
}

/// The stored rows. They are kept by place, so that a place's rows are found and set without going over
/// the others. Contracts see all of them as one list, ascending by place, by fabric and by the order of the list.
pub struct StoredRows {
    alloc: Global,
    places: BTreeMap<Place, Vec<Row>>,
}

impl Drop for StoredRows {
    fn drop(self) {
        let StoredRows {
            alloc: _,
            places: _,
        } = self;
    }
}

impl Model for StoredRows {
    ghost use Rattle.std.specs.Prelude.{List};
    ghost use Rattle.mt_model.specs.declared.rows.place.Row.{Row};
    ghost use Rattle.mt_model.specs.rows.Stored.{IsKept, listed};
    ghost use Rattle.mt_tlv.specs.contracts.value.Value as values;
    ghost use Rattle.std.specs.Coded.{codes};

    ghost Value = { List Row };

    ghost coded = { Prim.hlevel (codes, values.the_row.coded) };

    ghost view = { λ rows. listed rows.places.entries };

    ghost invariant = { λ rows. IsKept rows.places };
}

impl StoredRows {
    /// Every stored place, without a row.
    pub fn new(alloc: Global) -> Result<Self, AllocError>
        ensures { IfOk result (λ rows. rows ≡ []) }
    {
        let mut places = BTreeMap::new(alloc);
        for place in stored_places() {
            places.insert(*place, Vec::new(alloc))?;
        }
        Ok(StoredRows { alloc, places })
    }

    /// These rows, which ascend, each at a stored place. The values are moved.
    pub fn from_vec(alloc: Global, rows: Vec<Row>) -> Result<Self, AllocError>
        requires ascending { IsTrue (are_ascending rows.items) }
        requires stored { IsTrue (list_all (λ (row : Row). is_stored_place row.place) rows.items) }
        ensures { IfOk result (λ stored. stored ≡ rows.items) }
    {
        let mut stored = StoredRows::new(alloc)?;
        for row in rows {
            stored.push(row)?;
        }
        Ok(stored)
    }

    /// A copy of the rows that stay where this fabric leaves: all where it is None, and those of nobody (fabric 0)
    /// among them where it is not 0.
    pub fn copy_without(&self, gone: Option<u8>) -> Result<StoredRows, AllocError>
        ensures { IfOk result (λ rows. rows ≡ filter (λ (row : Row). stays gone row.fabric) self.now) }
    {
        let mut places = BTreeMap::new(self.alloc);
        for (place, rows) in &self.places {
            places.insert(*place, copies(self.alloc, rows, gone)?)?;
        }
        Ok(StoredRows {
            alloc: self.alloc,
            places,
        })
    }

    // Adds a row at a stored place, which may follow all others.
    fn push(&mut self, row: Row) -> Result<(), AllocError>
        requires ascending { IsTrue (are_ascending (self.old ++ row ∷ [])) }
        requires stored { is_stored_place row.place ≡ true }
        ensures { OnOk result (self.new ≡ self.old ++ row ∷ []) }
    {
        let place = row.place;
        // No stored place is missing.
        let Some(rows) = self.places.get_mut(&place) else {
            return Ok(());
        };
        rows.push(row)?;
        Ok(())
    }

    /// The rows of a place, lent: by ascending fabric, and in the order of the list.
    pub fn at(&self, place: &Place) -> &[Row]
        ensures value { result.now ≡ filter (stands_at place.now) self.now }
        ensures ascending { IsTrue (are_ascending result.now) }
    {
        match self.places.get(place) {
            Some(rows) => rows.as_slice(),
            None => &[],
        }
    }

    /// The rows of a fabric at a place, lent, in the order of the list.
    pub fn of(&self, place: &Place, fabric: u8) -> &[Row]
        ensures { result.now ≡ filter (is_at place.now fabric) self.now }
    {
        let rows = self.at(place);
        let (begin, end) = rows_within(rows, place, fabric);
        &rows[begin..end]
    }

    /// How many rows of other fabrics stand at a place.
    pub fn others_at(&self, place: &Place, fabric: u8) -> usize
        ensures { result ≡ length (filter (is_other_at place.now fabric) self.now) }
    {
        self.at(place).len() - self.of(place, fabric).len()
    }

    /// The rows of this fabric at this place are these. It takes no memory: the rows of others at the place
    /// move into the room, which is for them and for the new ones, and no other row is touched.
    pub fn set(&mut self, place: &Place, fabric: u8, values: Values, room: Vec<Row>)
        requires stored { is_stored_place place.now ≡ true }
        requires empty { room.items ≡ [] }
        requires room { length (filter (is_other_at place.now fabric) self.old) + length values ≤ vec_capacity room }
        ensures { self.new ≡ with_rows place.now fabric values self.old }
    {
        // No stored place is missing.
        let Some(rows) = self.places.get_mut(place) else {
            return;
        };
        set_in_room(rows, place, fabric, values, room);
    }
}

impl ExactCopy for StoredRows {
    fn copy(&self) -> Result<StoredRows, AllocError> {
        self.copy_without(None)
    }
}

// Copies of the rows that stay where this fabric leaves.
fn copies(alloc: Global, rows: &[Row], gone: Option<u8>) -> Result<Vec<Row>, AllocError>
    ensures { IfOk result (λ copies. copies.items ≡ filter (λ (row : Row). stays gone row.fabric) rows.now) }
{
    let mut copies = Vec::with_capacity(alloc, rows.len())?;
    for row in rows {
        if stays(gone, row.fabric) {
            copies.push(row.copy()?)?;
        }
    }
    Ok(copies)
}

// Moves the rows of others into the room, and sets those of this fabric at this place there.
fn set_in_room(rows: &mut Vec<Row>, place: &Place, fabric: u8, values: Values, room: Vec<Row>)
    requires ascending { IsTrue (are_ascending rows.old.items) }
    requires empty { room.items ≡ [] }
    requires room { length (filter (λ (row : Row). not (is_at place.now fabric row)) rows.old.items) + length values ≤ vec_capacity room }
    ensures { rows.new.items ≡ with_rows place.now fabric values rows.old.items }
{
    let others = without(replace(rows, room), place, fabric);
    fill(rows, others);
    set_rows(rows, place, fabric, values);
}

// Moves rows into the room that is there for them.
fn fill(room: &mut Vec<Row>, rows: Vec<Row>)
    requires empty { room.old.items ≡ [] }
    requires room { vec_len rows ≤ vec_capacity room.old }
    ensures items { room.new.items ≡ rows.items }
    ensures capacity { vec_capacity room.old ≤ vec_capacity room.new }
{
    let mut rows = rows;
    room.append(&mut rows).unwrap();
}

// The rows, without those of this fabric at this place, which are let go.
fn without(rows: Vec<Row>, place: &Place, fabric: u8) -> Vec<Row>
    ensures { result.items ≡ filter (λ (row : Row). not (is_at place.now fabric row)) rows.items }
{
    let mut rows = rows;
    rows.retain(|row| !is_at(place, fabric, row));
    rows
}

fn is_at(place: &Place, fabric: u8, row: &Row) -> bool
    ensures { result ≡ is_at place.now fabric row.now }
{
    row.place == *place && row.fabric == fabric
}
