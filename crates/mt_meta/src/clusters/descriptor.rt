//! Descriptor: what stands on an endpoint.

use crate::rows::{AttributeRow, computed};

/// The number of the cluster.
pub const CLUSTER: u32 = 0x1d;

// Attributes.

/// The device types of the endpoint.
pub const DEVICE_TYPE_LIST: u32 = 0;

/// Its clusters.
pub const SERVER_LIST: u32 = 1;

/// The clusters of others that it uses.
pub const CLIENT_LIST: u32 = 2;

/// The endpoints below it.
pub const PARTS_LIST: u32 = 3;

// The rows, ascending.

pub(crate) static ATTRIBUTES: [AttributeRow; 4] = [
    computed!(DEVICE_TYPE_LIST, DeviceTypes),
    computed!(SERVER_LIST, Numbers),
    computed!(CLIENT_LIST, Numbers),
    computed!(PARTS_LIST, Numbers),
];
