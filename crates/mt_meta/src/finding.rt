//! What the table says of a place, and which privilege is asked there.

ghost use Rattle.std.specs.Prelude.{◌≡◌, ◌↔◌, ◌==◌, ◌++◌, if◌then◌else◌, Some, None, not, option_copied, IsFalse, IsTrue, IsOkAnd};
ghost use Rattle.std.specs.List.{find, list_any};
ghost use Rattle.std.specs.Option.{option_map};
ghost use Rattle.mt_model.specs.declared.messages.status.Status.TheVariants.{UnsupportedEndpoint, UnsupportedCluster};
ghost use Rattle.mt_meta.specs.Stored.{is_stored, is_stored_origin, origin_of, row_in};
ghost use Rattle.mt_meta.specs.Table.{all_attributes_of, all_data_of};
ghost use Rattle.mt_meta.specs.Writable.{takes_of};
ghost use Rattle.mt_meta.specs.Finding.{attribute_of, command_of, data_of, event_of, find_command_of, find_data_of, find_event_of, find_of, has_cluster, is_endpoint, missing_of, privilege_found, privilege_of};

use crate::meta::{CommandMeta, EventMeta, Meta};
use crate::rows::{AttributeRow, Origin, Takes};
use crate::table::{
    attributes_of, clusters_of, commands_of, endpoints, events_of, extensions_of, globals,
    hidden_of,
};
use mt_model::{Place, Privilege, Status};

/// What the table says of an attribute. What is not there is refused with UNSUPPORTED_ENDPOINT,
/// UNSUPPORTED_CLUSTER or UNSUPPORTED_ATTRIBUTE, the first that fits.
pub fn find(place: &Place) -> Result<Meta, Status>
    ensures { result ≡ find_of place.now }
{
    if let Some(status) = missing(place) {
        return Err(status);
    }
    attribute_of(place).ok_or(Status::UnsupportedAttribute)
}

/// What the table says of the data of a place, which is an attribute's, or is that of the group key sets, which no
/// path names. What is not there is refused as by `find`.
pub fn find_data(place: &Place) -> Result<Meta, Status>
    ensures { result ≡ find_data_of place.now }
{
    if let Some(status) = missing(place) {
        return Err(status);
    }
    data_of(place).ok_or(Status::UnsupportedAttribute)
}

/// What the table says of a command. What is not there is refused with UNSUPPORTED_ENDPOINT,
/// UNSUPPORTED_CLUSTER or UNSUPPORTED_COMMAND, the first that fits.
pub fn find_command(place: &Place) -> Result<CommandMeta, Status>
    ensures { result ≡ find_command_of place.now }
{
    if let Some(status) = missing(place) {
        return Err(status);
    }
    command_of(place).ok_or(Status::UnsupportedCommand)
}

/// What the table says of an event. What is not there is refused with UNSUPPORTED_ENDPOINT,
/// UNSUPPORTED_CLUSTER or UNSUPPORTED_EVENT, the first that fits.
pub fn find_event(place: &Place) -> Result<EventMeta, Status>
    ensures { result ≡ find_event_of place.now }
{
    if let Some(status) = missing(place) {
        return Err(status);
    }
    event_of(place).ok_or(Status::UnsupportedEvent)
}

/// Whether the rows of a place are stored, as the table says. Those of all others are computed.
#[tactic(auto, unfolding(crate::specs::Stored::is_stored))]
pub fn is_stored(place: &Place) -> bool
    ensures { result ≡ is_stored place.now }
{
    match origin_of(place) {
        Some(Origin::Stored(_)) | Some(Origin::StoredItems) => true,
        Some(Origin::Computed) | None => false,
    }
}

/// What the attribute of a place takes when it is written; None where its cluster has no such attribute.
pub fn takes(place: &Place) -> Option<Takes>
    ensures { result ≡ takes_of place.now }
{
    Some(row_of(place)?.takes)
}

/// What an actor wants of a place.
#[derive(Clone, Copy, Debug, PartialEq, Eq)]
pub enum Asked {
    Read,
    Write,
    Command,
    Event,
}

/// The privilege that an actor must have for what it wants: that of the table, and View where there is
/// nothing. None where nobody can be granted it, which is a write of what is not writable.
pub fn privilege_asked(place: &Place, what: Asked) -> Option<Privilege>
    ensures exact { result ≡ privilege_of place.now what }
    ensures none { (result ≡ None)
        ↔ ((what ≡ Asked.Write) × IsOkAnd (find_of place.now) (λ meta. meta.write ≡ None)) }
{
    match privilege_found(place, what) {
        Ok(privilege) => privilege,
        Err(_) => Some(Privilege::View),
    }
}

// The privilege of what is there.
fn privilege_found(place: &Place, what: Asked) -> Result<Option<Privilege>, Status>
    ensures { result ≡ privilege_found place.now what }
{
    match what {
        Asked::Read => Ok(Some(find(place)?.read)),
        Asked::Write => Ok(find(place)?.write),
        Asked::Command => Ok(Some(find_command(place)?.invoke)),
        Asked::Event => Ok(Some(find_event(place)?.read)),
    }
}

// What is missing before the attribute, command or event is looked for.
fn missing(place: &Place) -> Option<Status>
    ensures { result ≡ missing_of place.now }
{
    if !endpoints().contains(&place.endpoint) {
        return Some(Status::UnsupportedEndpoint);
    }
    if !clusters_of(place.endpoint).contains(&place.cluster) {
        return Some(Status::UnsupportedCluster);
    }
    None
}

fn attribute_of(place: &Place) -> Option<Meta>
    ensures { result ≡ attribute_of place.now }
{
    Some(row_of(place)?.meta)
}

fn origin_of(place: &Place) -> Option<Origin>
    ensures { result ≡ origin_of place.now }
{
    Some(data_row_of(place)?.origin)
}

fn data_of(place: &Place) -> Option<Meta>
    ensures { result ≡ data_of place.now }
{
    Some(data_row_of(place)?.meta)
}

// The row of the table for the data of a place.
fn data_row_of(place: &Place) -> Option<&'static AttributeRow>
    ensures { option_copied result ≡ row_in (all_data_of place.now.cluster) place.now.leaf }
{
    if let Some(row) = row_of(place) {
        return Some(row);
    }
    row_among(hidden_of(place.cluster), place.leaf)
}

// The row of the table for the attribute of a place. Each of the three lists is gone through by itself,
// which takes half the time of going through them as one.
fn row_of(place: &Place) -> Option<&'static AttributeRow>
    ensures { option_copied result ≡ row_in (all_attributes_of place.now.cluster) place.now.leaf }
{
    if let Some(row) = row_among(attributes_of(place.cluster), place.leaf) {
        return Some(row);
    }
    if let Some(row) = row_among(globals(), place.leaf) {
        return Some(row);
    }
    row_among(extensions_of(place.cluster), place.leaf)
}

fn row_among(rows: &'static [AttributeRow], leaf: u32) -> Option<&'static AttributeRow>
    ensures { option_copied result ≡ row_in rows.now leaf }
{
    rows.iter().find(|row| row.number == leaf)
}

fn command_of(place: &Place) -> Option<CommandMeta>
    ensures { result ≡ command_of place.now }
{
    let row = commands_of(place.cluster)
        .iter()
        .find(|row| row.number == place.leaf)?;
    Some(row.meta)
}

fn event_of(place: &Place) -> Option<EventMeta>
    ensures { result ≡ event_of place.now }
{
    let row = events_of(place.cluster)
        .iter()
        .find(|row| row.number == place.leaf)?;
    Some(row.meta)
}
