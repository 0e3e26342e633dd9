//! The blocks that stand inside fields: paths, filters, written data and commands (Matter Core Specification,
//! chapter 10, Interaction Model Encoding). A malformed block is None.

ghost use Rattle.std.specs.Prelude.{◌≡◌};
ghost use Rattle.mt_tlv.specs.View.{tree, elements};
ghost use Rattle.mt_im.specs.Blocks.{index_at, attribute_path_in, event_path_in, event_filter_in, version_in, version_filter_in, is_concrete as is_concrete_path, concrete_path_in, write_item_in, command_path_in, command_data_in};

use crate::fields::{list_of, optional_truth, optional_u16, optional_u32, u16_at, u16_of, u32_at};
use mt_model::{
    Index, Path, Place, Version, WriteItem, field, structure_of, take_field, unsigned_of,
};
use mt_tlv::{Members, Tag, Value};
use std::alloc::Global;

/// AttributePath: a list of compression (0), node (1), endpoint (2), cluster (3), attribute (4) and list
/// index (5), each of which may be missing. A compressed path is malformed.
#[tactic(auto, unfolding(crate::specs::Blocks::attribute_path_in))]
pub(crate) fn attribute_path(value: &Value) -> Option<Path>
    ensures { result ≡ attribute_path_in (tree value.now) }
{
    let members = list_of(value)?;
    if optional_truth(members, 0)? {
        return None;
    }
    Some(Path {
        endpoint: optional_u16(members, 2)?,
        cluster: optional_u32(members, 3)?,
        leaf: optional_u32(members, 4)?,
        index: index(members)?,
    })
}

// The list index of a path: null is one more item.
#[tactic(auto, unfolding(crate::specs::Blocks::index_at))]
fn index(members: &[(Tag, Value)]) -> Option<Index>
    ensures { result ≡ index_at (elements members.now) }
{
    match field(members, 5) {
        None => Some(Index::Whole),
        Some(Value::Null) => Some(Index::Append),
        Some(value) => Some(Index::At(u16_of(value)?)),
    }
}

/// EventPath: a list of node (0), endpoint (1), cluster (2), event (3) and urgent (4), each of which may be
/// missing.
#[tactic(auto, unfolding(crate::specs::Blocks::event_path_in))]
pub(crate) fn event_path(value: &Value) -> Option<Path>
    ensures { result ≡ event_path_in (tree value.now) }
{
    let members = list_of(value)?;
    Some(Path {
        endpoint: optional_u16(members, 1)?,
        cluster: optional_u32(members, 2)?,
        leaf: optional_u32(members, 3)?,
        index: Index::Whole,
    })
}

/// EventFilter: a structure of node (0), which may be missing, and the least number of an event (1).
#[tactic(auto, unfolding(crate::specs::Blocks::event_filter_in))]
pub(crate) fn event_filter(value: &Value) -> Option<u64>
    ensures { result ≡ event_filter_in (tree value.now) }
{
    unsigned_of(field(structure_of(value)?, 1)?)
}

/// VersionFilter: a structure of ClusterPath (0) and the data version (1).
#[tactic(auto, unfolding(crate::specs::Blocks::version_filter_in))]
pub(crate) fn version_filter(value: &Value) -> Option<Version>
    ensures { result ≡ version_filter_in (tree value.now) }
{
    let members = structure_of(value)?;
    let version = u32_at(members, 1)?;
    cluster_version(field(members, 0)?, version)
}

// ClusterPath, a list of node (0), which may be missing, endpoint (1) and cluster (2), with a data version.
#[tactic(auto, unfolding(crate::specs::Blocks::version_in))]
fn cluster_version(path: &Value, version: u32) -> Option<Version>
    ensures { result ≡ version_in version (tree path.now) }
{
    let members = list_of(path)?;
    Some(Version {
        endpoint: u16_at(members, 1)?,
        cluster: u32_at(members, 2)?,
        version,
    })
}

/// AttributeData of a write: a structure of the data version (0), which may be missing, the path (1) and the
/// value (2).
#[tactic(auto, unfolding(crate::specs::Blocks::write_item_in))]
pub(crate) fn write_item(value: Value) -> Option<WriteItem>
    ensures { result ≡ write_item_in (tree value) }
{
    let Value::Struct(members) = value else {
        return None;
    };
    let members = members.into_vec();
    let version = optional_u32(&members, 0)?;
    let path = concrete_path(field(&members, 1)?)?;
    let value = take_field(members, 2)?;
    Some(WriteItem {
        path,
        version,
        value,
    })
}

// The path of written data names an endpoint, a cluster and an attribute.
#[tactic(auto, unfolding(crate::specs::Blocks::concrete_path_in))]
fn concrete_path(value: &Value) -> Option<Path>
    ensures { result ≡ concrete_path_in (tree value.now) }
{
    let path = attribute_path(value)?;
    if is_concrete(&path) { Some(path) } else { None }
}

fn is_concrete(path: &Path) -> bool
    ensures { result ≡ is_concrete_path path.now }
{
    path.endpoint.is_some() && path.cluster.is_some() && path.leaf.is_some()
}

/// CommandData: a structure of CommandPath (0) and the fields (1), of any form. Where they are missing they
/// are an empty structure.
#[tactic(auto, unfolding(crate::specs::Blocks::command_data_in))]
pub(crate) fn command_data(alloc: Global, value: Value) -> Option<(Place, Value)>
    ensures { result ≡ command_data_in (tree value) }
{
    let Value::Struct(members) = value else {
        return None;
    };
    let members = members.into_vec();
    let command = command_path(field(&members, 0)?)?;
    match take_field(members, 1) {
        Some(fields) => Some((command, fields)),
        None => Some((command, Value::Struct(Members::from_vec(Vec::new(alloc))))),
    }
}

// CommandPath: a list of endpoint (0), cluster (1) and command (2).
#[tactic(auto, unfolding(crate::specs::Blocks::command_path_in))]
fn command_path(value: &Value) -> Option<Place>
    ensures { result ≡ command_path_in (tree value.now) }
{
    let members = list_of(value)?;
    Some(Place {
        endpoint: u16_at(members, 0)?,
        cluster: u32_at(members, 1)?,
        leaf: u32_at(members, 2)?,
    })
}
