//! Arrays of what is kept.

ghost use Rattle.std.specs.Prelude.{◌≡◌, List, IfOk};
ghost use Rattle.mt_tlv.specs.Tree.{Tree, octets};
ghost use Rattle.mt_tlv.specs.View.{elements, tree, value_of};
ghost use Rattle.mt_model.specs.Trees.{array_of, untagged};
ghost use Rattle.mt_lasting.specs.Arrays.{members};
ghost use Rattle.mt_lasting.specs.Values.{array_if, entry_tree, network_tree, row_tree};

use crate::structures::network_value;
use mt_apps::entry_value;
use mt_model::{AclEntry, Network, Row};
use mt_tlv::{Bytes, Members, Tag, Value, values_are_trees};
use std::alloc::{AllocError, Global};

/// What is kept as an element of an array.
pub(crate) trait Element {
    /// What it is there.
    ghost tree_of: { Self → Tree };

    /// The value that stands in the array.
    fn value(&self, alloc: Global) -> Result<Value, AllocError>
        ensures { IfOk result (λ value. value ≡ value_of (tree_of self.now)) };
}

impl Element for AclEntry {
    ghost tree_of = { entry_tree };

    fn value(&self, alloc: Global) -> Result<Value, AllocError> {
        values_are_trees();
        entry_value(alloc, self)
    }
}

impl Element for Row {
    ghost tree_of = { row_tree };

    fn value(&self, _alloc: Global) -> Result<Value, AllocError> {
        values_are_trees();
        self.value.copy()
    }
}

impl Element for Value {
    ghost tree_of = { tree };

    fn value(&self, _alloc: Global) -> Result<Value, AllocError> {
        values_are_trees();
        self.copy()
    }
}

impl Element for Bytes {
    ghost tree_of = { octets };

    fn value(&self, _alloc: Global) -> Result<Value, AllocError> {
        Ok(Value::Octets(self.copy()?))
    }
}

impl Element for Network {
    ghost tree_of = { network_tree };

    fn value(&self, alloc: Global) -> Result<Value, AllocError> {
        network_value(alloc, self)
    }
}

/// The array of these, in their order, None where there are none.
pub(crate) fn array_if<T: Element>(alloc: Global, items: &[T]) -> Result<Option<Value>, AllocError>
    ensures { IfOk result (λ value. value ≡ array_if T.tree_of items.now) }
{
    match items {
        [] => Ok(None),
        [_, ..] => Ok(Some(Value::Array(array_members(alloc, items)?))),
    }
}

/// The members of that array.
pub(crate) fn array_members<T: Element>(alloc: Global, items: &[T]) -> Result<Members, AllocError>
    ensures { IfOk result (λ all. all ≡ untagged T.tree_of items.now) }
{
    values_are_trees();
    let members = members(alloc, items)?;
    Ok(Members::from_vec(members))
}

fn members<T: Element>(alloc: Global, items: &[T]) -> Result<Vec<(Tag, Value)>, AllocError>
    ensures { IfOk result (λ all. all.items ≡ members T.tree_of items.now) }
{
    let mut members = Vec::with_capacity(alloc, items.len())?;
    for item in items {
        members.push((Tag::Anonymous, item.value(alloc)?))?;
    }
    Ok(members)
}
