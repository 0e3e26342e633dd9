//! The columns of names beside the table of clusters, found by cluster. Each is proved to have the numbers of
//! the table's rows, in their order, so that what the table gains or loses, this must too.

ghost use Rattle.std.specs.Prelude.{◌≡◌, map};
ghost use Rattle.mt_meta.specs.Table as rows;
ghost use Rattle.mt_meta.specs.declared.rows.AttributeRow.{AttributeRow};
ghost use Rattle.mt_meta.specs.declared.rows.CommandRow.{CommandRow};
ghost use Rattle.mt_meta.specs.declared.rows.EventRow.{EventRow};
ghost use Rattle.mt_meta.specs.declared.rows.Field.{Field};
ghost use Rattle.mt_names.specs.Columns.{entry, number_of};
ghost use Rattle.mt_names.specs.Names.{attributes_of, clusters, command_fields, commands_of, event_fields, events_of, extensions_of, globals, item_fields, response_fields, responses_of, target_fields, value_fields};

use crate::clusters::{
    access_control, administrator_commissioning, basic_information, bench, binding, descriptor,
    general_commissioning, group_key_management, network_commissioning, on_off,
    operational_credentials, user_label,
};
use crate::columns::Named;
use mt_meta::clusters::{
    ACCESS_CONTROL, ADMINISTRATOR_COMMISSIONING, BASIC_INFORMATION, BENCH, BINDING, DESCRIPTOR,
    GENERAL_COMMISSIONING, GROUP_KEY_MANAGEMENT, NETWORK_COMMISSIONING, ON_OFF,
    OPERATIONAL_CREDENTIALS, USER_LABEL,
};
use mt_meta::{
    ACCEPTED_COMMAND_LIST, ATTRIBUTE_LIST, CLUSTER_REVISION, FEATURE_MAP, GENERATED_COMMAND_LIST,
    Kind,
};

static CLUSTERS: [Named; 12] = [
    Named {
        number: ON_OFF,
        name: "On-Off",
    },
    Named {
        number: DESCRIPTOR,
        name: "Descriptor",
    },
    Named {
        number: BINDING,
        name: "Binding",
    },
    Named {
        number: ACCESS_CONTROL,
        name: "Access-Control",
    },
    Named {
        number: BASIC_INFORMATION,
        name: "Basic-Information",
    },
    Named {
        number: GENERAL_COMMISSIONING,
        name: "General-Commissioning",
    },
    Named {
        number: NETWORK_COMMISSIONING,
        name: "Network-Commissioning",
    },
    Named {
        number: ADMINISTRATOR_COMMISSIONING,
        name: "Administrator-Commissioning",
    },
    Named {
        number: OPERATIONAL_CREDENTIALS,
        name: "Operational-Credentials",
    },
    Named {
        number: GROUP_KEY_MANAGEMENT,
        name: "Group-Key-Management",
    },
    Named {
        number: USER_LABEL,
        name: "User-Label",
    },
    Named {
        number: BENCH,
        name: "Bench",
    },
];

static GLOBALS: [Named; 5] = [
    Named {
        number: GENERATED_COMMAND_LIST,
        name: "GeneratedCommandList",
    },
    Named {
        number: ACCEPTED_COMMAND_LIST,
        name: "AcceptedCommandList",
    },
    Named {
        number: ATTRIBUTE_LIST,
        name: "AttributeList",
    },
    Named {
        number: FEATURE_MAP,
        name: "FeatureMap",
    },
    Named {
        number: CLUSTER_REVISION,
        name: "ClusterRevision",
    },
];

static TARGET_FIELDS: [Named; 3] = [
    Named {
        number: 0,
        name: "cluster",
    },
    Named {
        number: 1,
        name: "endpoint",
    },
    Named {
        number: 2,
        name: "deviceType",
    },
];

/// The names of the clusters that stand on an endpoint.
#[tactic(auto, unfolding(crate::specs::Names::clusters))]
pub fn cluster_names() -> &'static [Named]
    ensures names { map entry result.now ≡ clusters }
{
    &CLUSTERS
}

/// The names of the attributes that every cluster has.
#[tactic(auto, unfolding(crate::specs::Names::globals, mt_meta::specs::Table::globals))]
pub fn global_names() -> &'static [Named]
    ensures names { map entry result.now ≡ globals }
    ensures numbers { map number_of result.now ≡ map (λ (row : AttributeRow). row.number) rows.globals }
{
    &GLOBALS
}

/// The names of the attributes of a cluster that stand below those that every cluster has; none where there is no such
/// cluster.
#[tactic(auto, unfolding(crate::specs::Names::attributes_of, mt_meta::specs::Table::attributes_of))]
pub fn attribute_names(cluster: u32) -> &'static [Named]
    ensures names { map entry result.now ≡ attributes_of cluster }
    ensures numbers { map number_of result.now ≡ map (λ (row : AttributeRow). row.number) (rows.attributes_of cluster) }
{
    match cluster {
        ON_OFF => &on_off::ATTRIBUTES,
        DESCRIPTOR => &descriptor::ATTRIBUTES,
        BINDING => &binding::ATTRIBUTES,
        ACCESS_CONTROL => &access_control::ATTRIBUTES,
        BASIC_INFORMATION => &basic_information::ATTRIBUTES,
        GENERAL_COMMISSIONING => &general_commissioning::ATTRIBUTES,
        NETWORK_COMMISSIONING => &network_commissioning::ATTRIBUTES,
        ADMINISTRATOR_COMMISSIONING => &administrator_commissioning::ATTRIBUTES,
        OPERATIONAL_CREDENTIALS => &operational_credentials::ATTRIBUTES,
        GROUP_KEY_MANAGEMENT => &group_key_management::ATTRIBUTES,
        USER_LABEL => &user_label::ATTRIBUTES,
        BENCH => &bench::ATTRIBUTES,
        _ => &[],
    }
}

/// The names of the attributes of a cluster that stand above those that every cluster has, as those of a vendor's
/// extension of a standard cluster do.
#[tactic(auto, unfolding(crate::specs::Names::extensions_of, mt_meta::specs::Table::extensions_of))]
pub fn extension_names(cluster: u32) -> &'static [Named]
    ensures names { map entry result.now ≡ extensions_of cluster }
    ensures numbers { map number_of result.now ≡ map (λ (row : AttributeRow). row.number) (rows.extensions_of cluster) }
{
    match cluster {
        ADMINISTRATOR_COMMISSIONING => &administrator_commissioning::EXTENSIONS,
        _ => &[],
    }
}

/// The names of the commands that a cluster accepts.
#[tactic(auto, unfolding(crate::specs::Names::commands_of, mt_meta::specs::Table::commands_of))]
pub fn command_names(cluster: u32) -> &'static [Named]
    ensures names { map entry result.now ≡ commands_of cluster }
    ensures numbers { map number_of result.now ≡ map (λ (row : CommandRow). row.number) (rows.commands_of cluster) }
{
    match cluster {
        ON_OFF => &on_off::COMMANDS,
        GENERAL_COMMISSIONING => &general_commissioning::COMMANDS,
        NETWORK_COMMISSIONING => &network_commissioning::COMMANDS,
        ADMINISTRATOR_COMMISSIONING => &administrator_commissioning::COMMANDS,
        OPERATIONAL_CREDENTIALS => &operational_credentials::COMMANDS,
        GROUP_KEY_MANAGEMENT => &group_key_management::COMMANDS,
        BENCH => &bench::COMMANDS,
        _ => &[],
    }
}

/// The names of the commands with which a cluster answers.
#[tactic(auto, unfolding(crate::specs::Names::responses_of, mt_meta::specs::Table::responses_of))]
pub fn response_names(cluster: u32) -> &'static [Named]
    ensures names { map entry result.now ≡ responses_of cluster }
    ensures numbers { map number_of result.now ≡ rows.responses_of cluster }
{
    match cluster {
        GENERAL_COMMISSIONING => &general_commissioning::RESPONSES,
        NETWORK_COMMISSIONING => &network_commissioning::RESPONSES,
        OPERATIONAL_CREDENTIALS => &operational_credentials::RESPONSES,
        GROUP_KEY_MANAGEMENT => &group_key_management::RESPONSES,
        _ => &[],
    }
}

/// The names of the events of a cluster.
#[tactic(auto, unfolding(crate::specs::Names::events_of, mt_meta::specs::Table::events_of))]
pub fn event_names(cluster: u32) -> &'static [Named]
    ensures names { map entry result.now ≡ events_of cluster }
    ensures numbers { map number_of result.now ≡ map (λ (row : EventRow). row.number) (rows.events_of cluster) }
{
    match cluster {
        ACCESS_CONTROL => &access_control::EVENTS,
        BASIC_INFORMATION => &basic_information::EVENTS,
        BENCH => &bench::EVENTS,
        _ => &[],
    }
}

/// The names of the fields of a command that a cluster accepts; none where it has none.
#[tactic(auto, unfolding(crate::specs::Names::command_fields, mt_meta::specs::Table::command_fields))]
pub fn command_field_names(cluster: u32, command: u32) -> &'static [Named]
    ensures names { map entry result.now ≡ command_fields cluster command }
    ensures numbers { map number_of result.now ≡ map (λ (field : Field). field.number) (rows.command_fields cluster command) }
{
    match cluster {
        GENERAL_COMMISSIONING => general_commissioning::command_fields(command),
        NETWORK_COMMISSIONING => network_commissioning::command_fields(command),
        ADMINISTRATOR_COMMISSIONING => administrator_commissioning::command_fields(command),
        OPERATIONAL_CREDENTIALS => operational_credentials::command_fields(command),
        GROUP_KEY_MANAGEMENT => group_key_management::command_fields(command),
        _ => &[],
    }
}

/// The names of the fields of a command with which a cluster answers.
#[tactic(auto, unfolding(crate::specs::Names::response_fields))]
pub fn response_field_names(cluster: u32, command: u32) -> &'static [Named]
    ensures names { map entry result.now ≡ response_fields cluster command }
{
    match cluster {
        GENERAL_COMMISSIONING => general_commissioning::response_fields(command),
        NETWORK_COMMISSIONING => network_commissioning::response_fields(command),
        OPERATIONAL_CREDENTIALS => operational_credentials::response_fields(command),
        GROUP_KEY_MANAGEMENT => group_key_management::response_fields(command),
        _ => &[],
    }
}

/// The names of the fields of an event.
#[tactic(auto, unfolding(crate::specs::Names::event_fields))]
pub fn event_field_names(cluster: u32, event: u32) -> &'static [Named]
    ensures names { map entry result.now ≡ event_fields cluster event }
{
    match cluster {
        ACCESS_CONTROL => access_control::event_fields(event),
        BASIC_INFORMATION => basic_information::event_fields(event),
        BENCH => bench::event_fields(event),
        _ => &[],
    }
}

/// The names of the fields of a structure in the value of an attribute that nobody writes.
#[tactic(auto, unfolding(crate::specs::Names::value_fields))]
pub fn value_field_names(cluster: u32, attribute: u32) -> &'static [Named]
    ensures names { map entry result.now ≡ value_fields cluster attribute }
{
    match cluster {
        DESCRIPTOR => descriptor::value_fields(attribute),
        BASIC_INFORMATION => basic_information::value_fields(attribute),
        GENERAL_COMMISSIONING => general_commissioning::value_fields(attribute),
        NETWORK_COMMISSIONING => network_commissioning::value_fields(attribute),
        OPERATIONAL_CREDENTIALS => operational_credentials::value_fields(attribute),
        GROUP_KEY_MANAGEMENT => group_key_management::value_fields(attribute),
        _ => &[],
    }
}

/// The names of the fields of an item of a list that is written, and of a group key set, by the kind.
#[tactic(auto, unfolding(crate::specs::Names::item_fields, mt_meta::specs::Table::fields_of))]
pub fn item_field_names(kind: Kind) -> &'static [Named]
    ensures names { map entry result.now ≡ item_fields kind }
    ensures numbers { map number_of result.now ≡ map (λ (field : Field). field.number) (rows.fields_of kind) }
{
    match kind {
        Kind::Binding => &binding::ITEM_FIELDS,
        Kind::Acl => &access_control::ITEM_FIELDS,
        Kind::Labels => &user_label::ITEM_FIELDS,
        Kind::Bench => &bench::ITEM_FIELDS,
        Kind::GroupKeyMap => &group_key_management::MAP_ITEM_FIELDS,
        Kind::KeySets => &group_key_management::SET_FIELDS,
        _ => &[],
    }
}

/// The names of the fields of a target of an access control entry.
#[tactic(auto, unfolding(crate::specs::Names::target_fields))]
pub fn target_field_names() -> &'static [Named]
    ensures names { map entry result.now ≡ target_fields }
{
    &TARGET_FIELDS
}
