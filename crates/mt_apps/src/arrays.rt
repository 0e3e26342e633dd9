//! Arrays of values, and what stands in them.

ghost use Rattle.std.specs.Prelude.{◌≡◌, List, IfOk};
ghost use Rattle.mt_tlv.specs.Tree.{Tree, octets, uint};
ghost use Rattle.mt_tlv.specs.View.{elements, tree, value_of};
ghost use Rattle.mt_model.specs.Trees.{array_of, nullable};
ghost use Rattle.mt_apps.specs.Descriptor.{device_tree};
ghost use Rattle.mt_apps.specs.NetworkCommissioning.{network_tree};
ghost use Rattle.mt_model.specs.tables.Entries.{target_tree};
ghost use Rattle.mt_apps.specs.Members.{member, members};

use mt_model::{Network, Target};
use mt_tlv::{Bytes, Members, Tag, Value, values_are_trees};
use std::alloc::{AllocError, Global};

/// What can stand in an array.
pub(crate) trait Member {
    /// What it stands there as.
    ghost tree_of: { Self → Tree };

    /// The value that stands in the array.
    fn value(&self, alloc: Global) -> Result<Value, AllocError>
        ensures { IfOk result (λ value. value ≡ value_of (tree_of self.now)) };
}

impl Member for u32 {
    ghost tree_of = { uint };

    fn value(&self, _alloc: Global) -> Result<Value, AllocError> {
        Ok(Value::Uint(*self as u64))
    }
}

impl Member for u64 {
    ghost tree_of = { uint };

    fn value(&self, _alloc: Global) -> Result<Value, AllocError> {
        Ok(Value::Uint(*self))
    }
}

impl Member for Bytes {
    ghost tree_of = { octets };

    fn value(&self, _alloc: Global) -> Result<Value, AllocError> {
        Ok(Value::Octets(self.copy()?))
    }
}

impl Member for Target {
    ghost tree_of = { target_tree };

    fn value(&self, alloc: Global) -> Result<Value, AllocError> {
        let fields = vec![in alloc;
            (Tag::Context(0), nullable(self.cluster)),
            (Tag::Context(1), nullable(self.endpoint.map(u32::from))),
            (Tag::Context(2), nullable(self.device)),
        ]?;
        Ok(Value::Struct(Members::from_vec(fields)))
    }
}

impl Member for Network {
    ghost tree_of = { network_tree };

    fn value(&self, alloc: Global) -> Result<Value, AllocError> {
        let id = self.id.copy()?;
        let fields = vec![in alloc;
            (Tag::Context(0), Value::Octets(id)),
            (Tag::Context(1), Value::Bool(self.connected)),
        ]?;
        Ok(Value::Struct(Members::from_vec(fields)))
    }
}

/// A device type, of revision 1.
#[derive(Drop)]
pub(crate) struct DeviceType {
    pub(crate) number: u32,
}

impl Member for DeviceType {
    ghost tree_of = { λ device. device_tree device.number };

    fn value(&self, alloc: Global) -> Result<Value, AllocError> {
        let fields = vec![in alloc;
            (Tag::Context(0), Value::Uint(self.number as u64)),
            (Tag::Context(1), Value::Uint(1)),
        ]?;
        Ok(Value::Struct(Members::from_vec(fields)))
    }
}

// A number, or null.
fn nullable(number: Option<u32>) -> Value
    ensures { tree result ≡ nullable number }
{
    match number {
        Some(number) => Value::Uint(number as u64),
        None => Value::Null,
    }
}

/// The array of these items, in their order.
pub(crate) fn array_of<T: Member>(alloc: Global, items: &[T]) -> Result<Value, AllocError>
    ensures { IfOk result (λ value. value ≡ array_of T.tree_of items.now) }
{
    values_are_trees();
    let members = members(alloc, items)?;
    Ok(Value::Array(Members::from_vec(members)))
}

fn members<T: Member>(alloc: Global, items: &[T]) -> Result<Vec<(Tag, Value)>, AllocError>
    ensures { IfOk result (λ all. all.items ≡ members T.tree_of items.now) }
{
    let mut members = Vec::with_capacity(alloc, items.len())?;
    for item in items {
        members.push((Tag::Anonymous, item.value(alloc)?))?;
    }
    Ok(members)
}
