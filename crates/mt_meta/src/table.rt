//! The table of the node's clusters: which stand on which endpoint, and where the rows of each are. It is
//! proved to be that of `specs/Table.antt`, and its rows to be those of `specs/clusters/`.

ghost use Rattle.std.specs.Prelude.{◌≡◌};
ghost use Rattle.mt_meta.specs.Table.{attributes_of, clusters_of, command_fields, commands_of, endpoints, events_of, extensions_of, fields_of, globals, hidden_of, responses_of};

use crate::clusters::{
    ACCESS_CONTROL, ADMINISTRATOR_COMMISSIONING, BASIC_INFORMATION, BENCH, BINDING, DESCRIPTOR,
    GENERAL_COMMISSIONING, GROUP_KEY_MANAGEMENT, NETWORK_COMMISSIONING, ON_OFF,
    OPERATIONAL_CREDENTIALS, USER_LABEL, access_control, administrator_commissioning,
    basic_information, bench, binding, descriptor, general_commissioning, group_key_management,
    network_commissioning, on_off, operational_credentials, user_label,
};
use crate::meta::Kind;
use crate::rows::{AttributeRow, CommandRow, EventRow, Field, computed};

/// The commands with which a cluster answers.
pub const GENERATED_COMMAND_LIST: u32 = 0xfff8;

/// The commands that a cluster accepts.
pub const ACCEPTED_COMMAND_LIST: u32 = 0xfff9;

/// The attributes of a cluster.
pub const ATTRIBUTE_LIST: u32 = 0xfffb;

/// Which of its optional features a cluster has.
pub const FEATURE_MAP: u32 = 0xfffc;

/// Which revision of the standard a cluster is of.
pub const CLUSTER_REVISION: u32 = 0xfffd;

// The endpoints, and the clusters of each, ascending.

static ENDPOINTS: [u16; 2] = [0, 1];

static ROOT_CLUSTERS: [u32; 8] = [
    DESCRIPTOR,
    ACCESS_CONTROL,
    BASIC_INFORMATION,
    GENERAL_COMMISSIONING,
    NETWORK_COMMISSIONING,
    ADMINISTRATOR_COMMISSIONING,
    OPERATIONAL_CREDENTIALS,
    GROUP_KEY_MANAGEMENT,
];

static DEVICE_CLUSTERS: [u32; 5] = [ON_OFF, DESCRIPTOR, BINDING, USER_LABEL, BENCH];

static GLOBALS: [AttributeRow; 5] = [
    computed!(GENERATED_COMMAND_LIST, Numbers),
    computed!(ACCEPTED_COMMAND_LIST, Numbers),
    computed!(ATTRIBUTE_LIST, Numbers),
    computed!(FEATURE_MAP, Uint),
    computed!(CLUSTER_REVISION, Uint),
];

/// The endpoints, ascending.
#[tactic(auto, unfolding(crate::specs::Table::endpoints))]
pub fn endpoints() -> &'static [u16]
    ensures { result.now ≡ endpoints }
{
    &ENDPOINTS
}

/// The clusters of an endpoint, ascending; none where there is no such endpoint.
#[tactic(auto, unfolding(crate::specs::Table::clusters_of))]
pub fn clusters_of(endpoint: u16) -> &'static [u32]
    ensures { result.now ≡ clusters_of endpoint }
{
    match endpoint {
        0 => &ROOT_CLUSTERS,
        1 => &DEVICE_CLUSTERS,
        _ => &[],
    }
}

/// The attributes that every cluster has, ascending: the lists of generated commands, of accepted
/// commands and of attributes, the features, the revision.
#[tactic(auto, unfolding(crate::specs::Table::globals))]
pub fn globals() -> &'static [AttributeRow]
    ensures { result.now ≡ globals }
{
    &GLOBALS
}

/// The attributes of a cluster that stand below the global ones, ascending; none where there is no such
/// cluster.
#[tactic(auto, unfolding(crate::specs::Table::attributes_of))]
pub fn attributes_of(cluster: u32) -> &'static [AttributeRow]
    ensures { result.now ≡ attributes_of cluster }
{
    match cluster {
        ON_OFF => &on_off::ATTRIBUTES,
        DESCRIPTOR => &descriptor::ATTRIBUTES,
        BINDING => &binding::ATTRIBUTES,
        ACCESS_CONTROL => &access_control::ATTRIBUTES,
        BASIC_INFORMATION => &basic_information::ATTRIBUTES,
        GENERAL_COMMISSIONING => &general_commissioning::ATTRIBUTES,
        NETWORK_COMMISSIONING => &network_commissioning::ATTRIBUTES,
        ADMINISTRATOR_COMMISSIONING => &administrator_commissioning::ATTRIBUTES,
        OPERATIONAL_CREDENTIALS => &operational_credentials::ATTRIBUTES,
        GROUP_KEY_MANAGEMENT => &group_key_management::ATTRIBUTES,
        USER_LABEL => &user_label::ATTRIBUTES,
        BENCH => &bench::ATTRIBUTES,
        _ => &[],
    }
}

/// The attributes of a cluster that stand above the global ones, ascending, as those of a vendor's
/// extension of a standard cluster do.
#[tactic(auto, unfolding(crate::specs::Table::extensions_of))]
pub fn extensions_of(cluster: u32) -> &'static [AttributeRow]
    ensures { result.now ≡ extensions_of cluster }
{
    match cluster {
        ADMINISTRATOR_COMMISSIONING => &administrator_commissioning::EXTENSIONS,
        _ => &[],
    }
}

/// The data of a cluster that is no attribute's, ascending: rows stand there, but no path names them.
pub(crate) fn hidden_of(cluster: u32) -> &'static [AttributeRow]
    ensures { result.now ≡ hidden_of cluster }
{
    match cluster {
        GROUP_KEY_MANAGEMENT => &group_key_management::HIDDEN,
        _ => &[],
    }
}

/// The commands that a cluster accepts, ascending; none where there is no such cluster.
#[tactic(auto, unfolding(crate::specs::Table::commands_of))]
pub fn commands_of(cluster: u32) -> &'static [CommandRow]
    ensures { result.now ≡ commands_of cluster }
{
    match cluster {
        ON_OFF => &on_off::COMMANDS,
        GENERAL_COMMISSIONING => &general_commissioning::COMMANDS,
        NETWORK_COMMISSIONING => &network_commissioning::COMMANDS,
        ADMINISTRATOR_COMMISSIONING => &administrator_commissioning::COMMANDS,
        OPERATIONAL_CREDENTIALS => &operational_credentials::COMMANDS,
        GROUP_KEY_MANAGEMENT => &group_key_management::COMMANDS,
        BENCH => &bench::COMMANDS,
        _ => &[],
    }
}

/// The fields of a command that a cluster accepts, ascending; none where it has none.
#[tactic(auto, unfolding(crate::specs::Table::command_fields))]
pub fn command_fields(cluster: u32, command: u32) -> &'static [Field]
    ensures { result.now ≡ command_fields cluster command }
{
    match cluster {
        GENERAL_COMMISSIONING => general_commissioning::command_fields(command),
        NETWORK_COMMISSIONING => network_commissioning::command_fields(command),
        ADMINISTRATOR_COMMISSIONING => administrator_commissioning::command_fields(command),
        OPERATIONAL_CREDENTIALS => operational_credentials::command_fields(command),
        GROUP_KEY_MANAGEMENT => group_key_management::command_fields(command),
        _ => &[],
    }
}

/// The commands with which a cluster answers, which are those that it generates, ascending.
#[tactic(auto, unfolding(crate::specs::Table::responses_of))]
pub fn responses_of(cluster: u32) -> &'static [u32]
    ensures { result.now ≡ responses_of cluster }
{
    match cluster {
        GENERAL_COMMISSIONING => &general_commissioning::RESPONSES,
        NETWORK_COMMISSIONING => &network_commissioning::RESPONSES,
        OPERATIONAL_CREDENTIALS => &operational_credentials::RESPONSES,
        GROUP_KEY_MANAGEMENT => &group_key_management::RESPONSES,
        _ => &[],
    }
}

/// The events of a cluster, ascending; none where there is no such cluster.
#[tactic(auto, unfolding(crate::specs::Table::events_of))]
pub fn events_of(cluster: u32) -> &'static [EventRow]
    ensures { result.now ≡ events_of cluster }
{
    match cluster {
        ACCESS_CONTROL => &access_control::EVENTS,
        BASIC_INFORMATION => &basic_information::EVENTS,
        BENCH => &bench::EVENTS,
        _ => &[],
    }
}

/// The fields of an item of a list that is written, and of a group key set, ascending, by the kind; none for
/// every other kind.
#[tactic(auto, unfolding(crate::specs::Table::fields_of))]
pub fn fields_of(kind: Kind) -> &'static [Field]
    ensures { result.now ≡ fields_of kind }
{
    match kind {
        Kind::Binding => &binding::FIELDS,
        Kind::Acl => &access_control::FIELDS,
        Kind::Labels => &user_label::FIELDS,
        Kind::Bench => &bench::FIELDS,
        Kind::GroupKeyMap => &group_key_management::MAP_FIELDS,
        Kind::KeySets => &group_key_management::SET_FIELDS,
        _ => &[],
    }
}
