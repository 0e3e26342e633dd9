//! The name of a number. There is one exactly where the table of clusters has a row of that number.

ghost use Rattle.std.specs.Prelude.{◌≡◌, ◌==◌, ◌++◌, is_some, map, option_copied};
ghost use Rattle.std.specs.List.{find, list_any};
ghost use Rattle.std.specs.Option.{option_map};
ghost use Rattle.mt_meta.specs.Table as rows;
ghost use Rattle.mt_meta.specs.declared.rows.AttributeRow.{AttributeRow};
ghost use Rattle.mt_meta.specs.declared.rows.CommandRow.{CommandRow};
ghost use Rattle.mt_meta.specs.declared.rows.EventRow.{EventRow};
ghost use Rattle.mt_names.specs.declared.columns.Named.{Named};
ghost use Rattle.mt_names.specs.Columns.{entry, name_in};
ghost use Rattle.mt_names.specs.Names.{all_attributes_of, clusters, commands_of, events_of, extensions_of, globals, responses_of};

use crate::columns::Named;
use crate::table::{
    attribute_names, cluster_names, command_names, event_names, extension_names, global_names,
    response_names,
};

/// The name of a number in a column; None where it is not in it.
#[tactic(auto, using(crate::proofs::Lookups::name_entries))]
pub fn name_among(names: &'static [Named], number: u32) -> Option<&'static str>
    ensures { option_map (λ name. name.now) result ≡ name_in number (map entry names.now) }
{
    Some(named_among(names, number)?.name)
}

fn named_among(names: &'static [Named], number: u32) -> Option<&'static Named>
    ensures { option_copied result ≡ find (λ (named : Named). named.number == number) names.now }
{
    names.iter().find(|named| named.number == number)
}

/// The name of a cluster; None where it stands on no endpoint.
pub fn cluster_name(cluster: u32) -> Option<&'static str>
    ensures { option_map (λ name. name.now) result ≡ name_in cluster clusters }
{
    name_among(cluster_names(), cluster)
}

/// The name of an attribute of a cluster. Those that every cluster has are named in any.
pub fn attribute_name(cluster: u32, attribute: u32) -> Option<&'static str>
    ensures name { option_map (λ name. name.now) result ≡ name_in attribute (all_attributes_of cluster) }
    // There is one exactly where the table has the attribute.
    ensures there { is_some result ≡ list_any (λ (row : AttributeRow). row.number == attribute) (rows.all_attributes_of cluster) }
{
    match name_among(attribute_names(cluster), attribute) {
        Some(name) => Some(name),
        None => other_name(cluster, attribute),
    }
}

// The name of an attribute that every cluster has, or that stands above those.
fn other_name(cluster: u32, attribute: u32) -> Option<&'static str>
    ensures name { option_map (λ name. name.now) result ≡ name_in attribute (globals ++ extensions_of cluster) }
    ensures there { is_some result ≡ list_any (λ (row : AttributeRow). row.number == attribute) (rows.globals ++ rows.extensions_of cluster) }
{
    match name_among(global_names(), attribute) {
        Some(name) => Some(name),
        None => name_among(extension_names(cluster), attribute),
    }
}

/// The name of a command that a cluster accepts.
pub fn command_name(cluster: u32, command: u32) -> Option<&'static str>
    ensures name { option_map (λ name. name.now) result ≡ name_in command (commands_of cluster) }
    // There is one exactly where the table has the command.
    ensures there { is_some result ≡ list_any (λ (row : CommandRow). row.number == command) (rows.commands_of cluster) }
{
    name_among(command_names(cluster), command)
}

/// The name of a command with which a cluster answers.
pub fn response_name(cluster: u32, command: u32) -> Option<&'static str>
    ensures name { option_map (λ name. name.now) result ≡ name_in command (responses_of cluster) }
    // There is one exactly where the table has the command.
    ensures there { is_some result ≡ list_any (λ number. number == command) (rows.responses_of cluster) }
{
    name_among(response_names(cluster), command)
}

/// The name of an event of a cluster.
pub fn event_name(cluster: u32, event: u32) -> Option<&'static str>
    ensures name { option_map (λ name. name.now) result ≡ name_in event (events_of cluster) }
    // There is one exactly where the table has the event.
    ensures there { is_some result ≡ list_any (λ (row : EventRow). row.number == event) (rows.events_of cluster) }
{
    name_among(event_names(cluster), event)
}
