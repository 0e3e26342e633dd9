//! The lists that are computed and of which each item is a fabric's: as rows, and as the items that a fabric
//! is shown.

ghost use Rattle.std.specs.Prelude.{◌≡◌, ◌==◌, ◌||◌, ◌++◌, ℕ, Bool, true, IsTrue, List, IfOk, OnOk, map};
ghost use Rattle.mt_tlv.specs.declared.value.Value.{Value};
ghost use Rattle.mt_model.specs.rows.Order.{are_ascending};
ghost use Rattle.mt_model.specs.rows.Shown.{shown_item, shown_items};
ghost use Rattle.mt_model.specs.rows.Sight.{bare_value, seen_by};
ghost use Rattle.mt_model.specs.declared.rows.place.Place.{Place};
ghost use Rattle.mt_model.specs.declared.rows.sight.View.{View};
ghost use Rattle.mt_apps.specs.Lists.{fabric_alone, item_row};

use mt_model::{Place, Row, Rows, View};
use mt_tlv::{Members, Tag, Value};
use std::alloc::{AllocError, Global};

/// An item that is a fabric's.
pub(crate) trait FabricItem: Sized {
    /// All items in a view.
    ghost all: { View → List Self };

    /// The fabric of an item.
    ghost fabric: { Self → ℕ };

    /// All items in a view. Their rows ascend, whatever the value of each.
    fn all<'a>(view: &'a View<'a>) -> &'a [Self]
        ensures all { result.now ≡ all view.now }
        ensures ascending { (value : Self → Value) (place : Place) → IsTrue (are_ascending (map (item_row fabric value place) (all view.now))) };

    /// The fabric of an item.
    fn fabric(&self) -> u8
        ensures { result ≡ fabric self.now };
}

/// A list of which each item is a fabric's.
pub(crate) trait FabricList {
    type Item: FabricItem;

    /// Whether this is the list of a place.
    ghost is_at: { Place → Bool };

    /// The value of an item.
    ghost value: { Self.Item → Value };

    /// Whether this is the list of a place.
    fn is_at(place: &Place) -> bool
        ensures { result ≡ is_at place.now };

    /// The value of an item.
    fn value(alloc: Global, item: &Self::Item) -> Result<Value, AllocError>
        ensures { IfOk result (λ whole. whole ≡ value item.now) };

    /// What other fabrics see of an item, of which nothing else is built.
    fn bare(alloc: Global, item: &Self::Item) -> Result<Value, AllocError>
        ensures { (place : Place) → is_at place ≡ true → IfOk result (λ bare. bare ≡ bare_value place (value item.now)) };
}

/// The items of a list as rows of its place.
pub(crate) fn list_rows<L: FabricList>(
    alloc: Global,
    view: &View,
    place: &Place,
) -> Result<Rows, AllocError>
    ensures { IfOk result (λ rows. rows ≡ map (item_row L.Item.fabric L.value place.now) (L.Item.all view.now)) }
{
    let items = L::Item::all(view);
    let mut rows = Vec::with_capacity(alloc, items.len())?;
    for item in items {
        rows.push(Row {
            place: *place,
            fabric: item.fabric(),
            value: L::value(alloc, item)?,
        })?;
    }
    Ok(Rows::from_vec(rows))
}

/// The items of a list that a fabric is shown, wherever the list stands; where `own` is set, its own alone.
pub(crate) fn list_items<L: FabricList>(
    alloc: Global,
    view: &View,
    fabric: u8,
    own: bool,
) -> Result<Members, AllocError>
    ensures { (place : Place) → L.is_at place ≡ true
        → IfOk result (λ shown. shown ≡ shown_items fabric own (map (item_row L.Item.fabric L.value place) (L.Item.all view.now))) }
{
    let items = L::Item::all(view);
    let mut shown = Vec::with_capacity(alloc, items.len())?;
    for item in items {
        push_item::<L>(alloc, item, fabric, own, &mut shown)?;
    }
    Ok(Members::from_vec(shown))
}

/// The field of a structure that names the fabric whose it is.
pub(crate) const FABRIC_INDEX: u8 = 254;

/// An item of which nothing is shown but its fabric.
pub(crate) fn fabric_alone(alloc: Global, fabric: u8) -> Result<Value, AllocError>
    ensures { IfOk result (λ value. value ≡ fabric_alone fabric) }
{
    let index = (Tag::Context(FABRIC_INDEX), Value::Uint(fabric as u64));
    let fields = vec![in alloc; index]?;
    Ok(Value::Struct(Members::from_vec(fields)))
}

fn push_item<L: FabricList>(
    alloc: Global,
    item: &L::Item,
    fabric: u8,
    own: bool,
    shown: &mut Vec<(Tag, Value)>,
) -> Result<(), AllocError>
    ensures { (place : Place) → L.is_at place ≡ true
        → OnOk result (shown.new.items ≡ shown.old.items ++ shown_item fabric own (item_row L.Item.fabric L.value place item.now)) }
{
    if own && item.fabric() != fabric {
        return Ok(());
    }
    shown.push((Tag::Anonymous, seen_value::<L>(alloc, item, fabric)?))?;
    Ok(())
}

// An item as a fabric sees it.
#[tactic(auto, using(crate::proofs::Bare::seen_whole, crate::proofs::Bare::seen_bare))]
fn seen_value<L: FabricList>(alloc: Global, item: &L::Item, fabric: u8) -> Result<Value, AllocError>
    ensures { (place : Place) → L.is_at place ≡ true
        → IfOk result (λ shown. shown ≡ (seen_by fabric (item_row L.Item.fabric L.value place item.now)).value) }
{
    if is_shown_whole(item.fabric(), fabric) {
        return L::value(alloc, item);
    }
    L::bare(alloc, item)
}

// Whether an item of this owner is shown to a fabric with its sensitive fields: its own is, and nobody's.
fn is_shown_whole(owner: u8, fabric: u8) -> bool
    ensures { result ≡ (owner == fabric || owner == 0) }
{
    owner == fabric || owner == 0
}
