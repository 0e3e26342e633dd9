//! The attributes that every cluster has.

ghost use Rattle.std.specs.Prelude.{◌≡◌, IfOk};
ghost use Rattle.mt_apps.specs.Globals.{attribute_numbers, command_numbers, features_of, global_value};
ghost use Rattle.mt_apps.specs.Parts.{numbers};

use crate::arrays::array_of;
use mt_meta::clusters::{ADMINISTRATOR_COMMISSIONING, NETWORK_COMMISSIONING};
use mt_meta::{
    ACCEPTED_COMMAND_LIST, ATTRIBUTE_LIST, CLUSTER_REVISION, FEATURE_MAP, GENERATED_COMMAND_LIST,
    attributes_of, commands_of, extensions_of, globals, responses_of,
};
use mt_tlv::Value;
use std::alloc::{AllocError, Global};

/// An attribute that every cluster has.
pub(crate) fn global_value(
    alloc: Global,
    cluster: u32,
    leaf: u32,
) -> Result<Option<Value>, AllocError>
    ensures { IfOk result (λ value. value ≡ global_value cluster leaf) }
{
    match leaf {
        GENERATED_COMMAND_LIST => Ok(Some(array_of(alloc, responses_of(cluster))?)),
        ACCEPTED_COMMAND_LIST => Ok(Some(command_numbers(alloc, cluster)?)),
        ATTRIBUTE_LIST => Ok(Some(attribute_numbers(alloc, cluster)?)),
        FEATURE_MAP => Ok(Some(Value::Uint(features_of(cluster)))),
        CLUSTER_REVISION => Ok(Some(Value::Uint(1))),
        _ => Ok(None),
    }
}

fn command_numbers(alloc: Global, cluster: u32) -> Result<Value, AllocError>
    ensures { IfOk result (λ value. value ≡ numbers (command_numbers cluster)) }
{
    let numbers: Vec<u32> = commands_of(cluster)
        .iter()
        .map(|row| row.number)
        .collect(alloc)?;
    array_of(alloc, numbers.as_slice())
}

fn attribute_numbers(alloc: Global, cluster: u32) -> Result<Value, AllocError>
    ensures { IfOk result (λ value. value ≡ numbers (attribute_numbers cluster)) }
{
    let numbers: Vec<u32> = attributes_of(cluster)
        .iter()
        .chain(globals().iter().chain(extensions_of(cluster).iter()))
        .map(|row| row.number)
        .collect(alloc)?;
    array_of(alloc, numbers.as_slice())
}

fn features_of(cluster: u32) -> u64
    ensures { result ≡ features_of cluster }
{
    match cluster {
        NETWORK_COMMISSIONING => 1,
        ADMINISTRATOR_COMMISSIONING => 1,
        _ => 0,
    }
}
