//! The names of the clusters, a module each: columns that stand beside the rows of the table.

pub(crate) mod access_control;
pub(crate) mod administrator_commissioning;
pub(crate) mod basic_information;
pub(crate) mod bench;
pub(crate) mod binding;
pub(crate) mod descriptor;
pub(crate) mod general_commissioning;
pub(crate) mod group_key_management;
pub(crate) mod network_commissioning;
pub(crate) mod on_off;
pub(crate) mod operational_credentials;
pub(crate) mod user_label;
