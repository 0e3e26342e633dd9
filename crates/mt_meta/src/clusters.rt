//! The node's clusters, a module each: the cluster's number, those of its attributes, commands and
//! events, and its rows of the table.

pub mod access_control;
pub mod administrator_commissioning;
pub mod basic_information;
pub mod bench;
pub mod binding;
pub mod descriptor;
pub mod general_commissioning;
pub mod group_key_management;
pub mod network_commissioning;
pub mod on_off;
pub mod operational_credentials;
pub mod user_label;

/// On/Off.
pub const ON_OFF: u32 = on_off::CLUSTER;

/// Descriptor.
pub const DESCRIPTOR: u32 = descriptor::CLUSTER;

/// Binding.
pub const BINDING: u32 = binding::CLUSTER;

/// Access Control.
pub const ACCESS_CONTROL: u32 = access_control::CLUSTER;

/// Basic Information.
pub const BASIC_INFORMATION: u32 = basic_information::CLUSTER;

/// General Commissioning.
pub const GENERAL_COMMISSIONING: u32 = general_commissioning::CLUSTER;

/// Network Commissioning.
pub const NETWORK_COMMISSIONING: u32 = network_commissioning::CLUSTER;

/// Administrator Commissioning.
pub const ADMINISTRATOR_COMMISSIONING: u32 = administrator_commissioning::CLUSTER;

/// Operational Credentials.
pub const OPERATIONAL_CREDENTIALS: u32 = operational_credentials::CLUSTER;

/// Group Key Management.
pub const GROUP_KEY_MANAGEMENT: u32 = group_key_management::CLUSTER;

/// User Label.
pub const USER_LABEL: u32 = user_label::CLUSTER;

/// Bench, a cluster of this project.
pub const BENCH: u32 = bench::CLUSTER;
