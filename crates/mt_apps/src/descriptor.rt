//! Descriptor: the device types and clusters of an endpoint, and the endpoints below it.

ghost use Rattle.std.specs.Prelude.{◌≡◌, IfOk};
ghost use Rattle.mt_apps.specs.Descriptor.{descriptor_value, devices_value, parts_of};
ghost use Rattle.mt_model.specs.rows.Devices.{device_of};

use crate::arrays::{DeviceType, array_of};
use mt_meta::clusters::descriptor::{CLIENT_LIST, DEVICE_TYPE_LIST, PARTS_LIST, SERVER_LIST};
use mt_meta::clusters_of;
use mt_model::device_type;
use mt_tlv::{Members, Value};
use std::alloc::{AllocError, Global};

/// What stands on the endpoint, and below it.
pub(crate) fn descriptor_value(
    alloc: Global,
    endpoint: u16,
    leaf: u32,
) -> Result<Option<Value>, AllocError>
    ensures { IfOk result (λ value. value ≡ descriptor_value endpoint leaf) }
{
    match leaf {
        DEVICE_TYPE_LIST => Ok(Some(devices_value(alloc, endpoint)?)),
        SERVER_LIST => Ok(Some(array_of(alloc, clusters_of(endpoint))?)),
        CLIENT_LIST => Ok(Some(Value::Array(Members::from_vec(Vec::new(alloc))))),
        PARTS_LIST => Ok(Some(array_of(alloc, parts_of(endpoint))?)),
        _ => Ok(None),
    }
}

// The device types of an endpoint.
fn devices_value(alloc: Global, endpoint: u16) -> Result<Value, AllocError>
    ensures { IfOk result (λ value. value ≡ devices_value (device_of endpoint)) }
{
    match device_type(endpoint) {
        Some(number) => array_of(alloc, &[DeviceType { number }]),
        None => Ok(Value::Array(Members::from_vec(Vec::new(alloc)))),
    }
}

// The endpoints below an endpoint.
fn parts_of(endpoint: u16) -> &'static [u32]
    ensures { result.now ≡ parts_of endpoint }
{
    if endpoint == 0 { &[1] } else { &[] }
}
