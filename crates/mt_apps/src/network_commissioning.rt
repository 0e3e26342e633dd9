//! Network Commissioning: the networks, and what never changes.

ghost use Rattle.std.specs.Prelude.{◌≡◌, IfOk};
ghost use Rattle.mt_apps.specs.NetworkCommissioning.{network_commissioning_value};

use crate::arrays::array_of;
use mt_meta::clusters::network_commissioning::{
    CONNECT_MAX_TIME_SECONDS, LAST_CONNECT_ERROR_VALUE, MAX_NETWORKS, NETWORKS,
    SCAN_MAX_TIME_SECONDS,
};
use mt_model::{Networks, limits};
use mt_tlv::Value;
use std::alloc::{AllocError, Global};

/// The networks and how many there can be, how long a scan and a connection take at most, in seconds, and
/// the error of the last connection.
pub(crate) fn network_commissioning_value(
    alloc: Global,
    networks: &Networks,
    leaf: u32,
) -> Result<Option<Value>, AllocError>
    ensures { IfOk result (λ value. value ≡ network_commissioning_value networks.now leaf) }
{
    match leaf {
        MAX_NETWORKS => Ok(Some(Value::Uint(limits::NETWORKS as u64))),
        NETWORKS => Ok(Some(array_of(alloc, networks.as_slice())?)),
        SCAN_MAX_TIME_SECONDS => Ok(Some(Value::Uint(0))),
        CONNECT_MAX_TIME_SECONDS => Ok(Some(Value::Uint(20))),
        LAST_CONNECT_ERROR_VALUE => Ok(Some(Value::Null)),
        _ => Ok(None),
    }
}
