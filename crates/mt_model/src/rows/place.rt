//! Where data stands on the node.

ghost use Rattle.std.specs.Prelude.{◌≡◌, ◌↔◌, ◌++◌, ◌∷◌, [], IsTrue, IfOk, OnOk, OnErr, length, filter, not};
ghost use Rattle.mt_model.specs.Optional.{fits};
ghost use Rattle.mt_model.specs.rows.Devices.{device_of};
ghost use Rattle.mt_model.specs.rows.Order.{are_ascending, may_follow, stands_before};
ghost use Rattle.mt_model.specs.rows.Setting.{is_at};
ghost use Rattle.mt_model.specs.rows.Sight.{stands_at};

use crate::listed::ExactCopy;
use mt_tlv::Value;
use std::alloc::{AllocError, Global};
use std::marker::Model;

/// An attribute, a command or an event of a cluster on an endpoint.
#[derive(Clone, Copy, Debug, PartialEq, Eq, PartialOrd, Ord)]
pub struct Place {
    pub endpoint: u16,
    pub cluster: u32,
    /// The id of the attribute, command or event.
    pub leaf: u32,
}

impl Place {
    /// Whether the place is on the endpoint that is wanted, if one is.
    pub fn fits_endpoint(&self, wanted: Option<u16>) -> bool
        ensures { result ≡ fits wanted self.now.endpoint }
    {
        match wanted {
            None => true,
            Some(wanted) => wanted == self.endpoint,
        }
    }

    /// Whether the place is of the cluster that is wanted, if one is.
    pub fn fits_cluster(&self, wanted: Option<u32>) -> bool
        ensures { result ≡ fits wanted self.now.cluster }
    {
        fits_number(wanted, self.cluster)
    }

    /// Whether the attribute, command or event is the one that is wanted, if one is.
    pub fn fits_leaf(&self, wanted: Option<u32>) -> bool
        ensures { result ≡ fits wanted self.now.leaf }
    {
        fits_number(wanted, self.leaf)
    }
}

impl ExactCopy for Place {
    fn copy(&self) -> Result<Place, AllocError> {
        Ok(*self)
    }
}

/// An attribute's value. A fabric-scoped list has one row for each item.
pub struct Row {
    pub place: Place,
    /// Whose item it is; 0 where the attribute is not fabric-scoped.
    pub fabric: u8,
    pub value: Value,
}

impl Drop for Row {
    fn drop(self) {
        let Row {
            place: _,
            fabric: _,
            value: _,
        } = self;
    }
}

impl Row {
    /// The value, in the same memory.
    pub fn into_value(self) -> Value
        ensures { result ≡ self.value }
    {
        let Row {
            place: _,
            fabric: _,
            value,
        } = self;
        value
    }
}

impl ExactCopy for Row {
    fn copy(&self) -> Result<Row, AllocError> {
        Ok(Row {
            place: self.place,
            fabric: self.fabric,
            value: self.value.copy()?,
        })
    }
}

/// Rows, ascending by place, by fabric and by the order of the list, in one vector.
pub struct Rows {
    rows: Vec<Row>,
}

impl Drop for Rows {
    fn drop(self) {
        let Rows { rows: _ } = self;
    }
}

impl Model for Rows {
    ghost use Rattle.std.specs.Prelude.{List, IsTrue};
    ghost use Rattle.mt_model.specs.declared.rows.place.Row.{Row};
    ghost use Rattle.mt_model.specs.rows.Order.{are_ascending};
    ghost use Rattle.mt_tlv.specs.contracts.value.Value as values;
    ghost use Rattle.std.specs.Coded.{codes};

    ghost Value = { List Row };

    ghost coded = { Prim.hlevel (codes, values.the_row.coded) };

    ghost view = { λ list. list.rows.items };

    ghost invariant = { λ list. IsTrue (are_ascending list.rows.items) };
}

impl Rows {
    /// No rows. It takes no memory.
    pub fn new(alloc: Global) -> Self
        ensures { result ≡ [] }
    {
        Rows {
            rows: Vec::new(alloc),
        }
    }

    /// Whether these rows ascend.
    pub fn is_ascending(rows: &[Row]) -> bool
        ensures { result ≡ are_ascending rows.now }
    {
        rows.is_sorted_by(
            |row: &Row, next: &Row| -> bool
                ensures { result ≡ may_follow row.now next.now }
            { may_follow(row, next) },
        )
    }

    /// These rows, which ascend, in the same memory.
    pub fn from_vec(rows: Vec<Row>) -> Self
        requires { IsTrue (are_ascending rows.items) }
        ensures { result ≡ rows.items }
    {
        Rows { rows }
    }

    /// The rows, in the same memory.
    pub fn into_vec(self) -> Vec<Row>
        ensures value { result.items ≡ self }
        ensures ascending { IsTrue (are_ascending self) }
    {
        let Rows { rows } = self;
        rows
    }

    /// The rows, lent.
    pub fn as_slice(&self) -> &[Row]
        ensures value { result.now ≡ self.now }
        ensures ascending { IsTrue (are_ascending self.now) }
    {
        self.rows.as_slice()
    }

    /// How many rows there are.
    pub fn len(&self) -> usize
        ensures { result ≡ length self.now }
    {
        self.rows.len()
    }

    /// Adds a row at the end, which it may follow.
    pub fn push(&mut self, row: Row) -> Result<(), AllocError>
        requires { IsTrue (are_ascending (self.old ++ row ∷ [])) }
        ensures ok { OnOk result (self.new ≡ self.old ++ row ∷ []) }
        ensures err { OnErr result (self.new ≡ self.old) }
    {
        self.rows.push(row)?;
        Ok(())
    }
}

impl ExactCopy for Rows {
    fn copy(&self) -> Result<Rows, AllocError> {
        let mut rows = Vec::with_capacity(*self.rows.allocator(), self.rows.len())?;
        for row in &self.rows {
            rows.push(row.copy()?)?;
        }
        Ok(Rows { rows })
    }
}

// Whether the first place stands before the second: by endpoint, then by cluster, then by leaf.
pub(crate) fn stands_before(place: &Place, other: &Place) -> bool
    ensures { result ≡ stands_before place.now other.now }
{
    if place.endpoint != other.endpoint {
        return place.endpoint < other.endpoint;
    }
    if place.cluster != other.cluster {
        return place.cluster < other.cluster;
    }
    place.leaf < other.leaf
}

// Whether the second row may come right after the first.
fn may_follow(row: &Row, next: &Row) -> bool
    ensures { result ≡ may_follow row.now next.now }
{
    stands_before(&row.place, &next.place) || (row.place == next.place && row.fabric <= next.fabric)
}

/// The device type of an endpoint: the root node on endpoint 0, the bench device on endpoint 1, and
/// None exactly where there is no such endpoint.
pub fn device_type(endpoint: u16) -> Option<u32>
    ensures { result ≡ device_of endpoint }
{
    match endpoint {
        0 => Some(0x16),
        1 => Some(0xfff1_0001),
        _ => None,
    }
}

// Whether the number of a cluster, or of what stands in it, is the one that is wanted.
fn fits_number(wanted: Option<u32>, number: u32) -> bool
    ensures { result ≡ fits wanted number }
{
    match wanted {
        None => true,
        Some(wanted) => wanted == number,
    }
}
