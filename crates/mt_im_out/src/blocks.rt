//! Paths, statuses and items as bytes. What is named a body follows the opening of its element.

ghost use Rattle.std.specs.Prelude.{◌≡◌, ◌++◌, OnOk};
ghost use Rattle.mt_tlv.specs.declared.value.Tag.TheVariants.{Context};
ghost use Rattle.mt_tlv.specs.Narrow.{narrow, narrow_elements, length_and_value};
ghost use Rattle.mt_model.specs.declared.messages.message.Item.TheVariants as items;
ghost use Rattle.mt_im_out.specs.Messages.{cluster_status_tree};
ghost use Rattle.mt_model.specs.messages.Blocks.{path_tree, event_path_tree, path_of, status_tree, refused_tree, event_tree, item_block};
ghost use Rattle.mt_im.specs.Requests.{command_path_tree, command_tree};

use crate::fields::{
    LIST, STRUCTURE, close, close_both, open, open_field, write_endpoint, write_number,
    write_optional,
};
use crate::front::Front;
use mt_model::{Happened, Index, Item, Path, Place};
use mt_tlv::{Tag, Value, write};
use std::alloc::AllocError;

/// The body of an AttributePath.
pub fn write_path(path: &Path, out: &mut Vec<u8>) -> Result<(), AllocError>
    ensures { OnOk result (out.new.items ≡ out.old.items ++ length_and_value (path_tree path.now)) }
{
    let front = Front::of_path(path);
    front.append_to(out)
}

/// The body of an EventPath.
#[tactic(auto, using(crate::proofs::Tails::path_fields))]
pub fn write_event_path(path: &Path, out: &mut Vec<u8>) -> Result<(), AllocError>
    ensures { OnOk result (out.new.items ≡ out.old.items ++ length_and_value (event_path_tree path.now)) }
{
    write_endpoint(1, path.endpoint, out)?;
    write_optional(2, path.cluster, out)?;
    write_optional(3, path.leaf, out)?;
    close(out)
}

/// A Status under a context tag.
pub fn write_status(tag: u8, code: u8, out: &mut Vec<u8>) -> Result<(), AllocError>
    ensures { OnOk result (out.new.items ≡ out.old.items ++ narrow (Context tag) (status_tree code)) }
{
    open_field(tag, STRUCTURE, out)?;
    write_number(0, code as u64, out)?;
    close(out)
}

/// A Status with a code of the cluster's own, under a context tag.
pub fn write_cluster_status(
    tag: u8,
    code: u8,
    reason: u8,
    out: &mut Vec<u8>,
) -> Result<(), AllocError>
    ensures { OnOk result (out.new.items ≡ out.old.items ++ narrow (Context tag) (cluster_status_tree code reason)) }
{
    open_field(tag, STRUCTURE, out)?;
    write_number(0, code as u64, out)?;
    write_number(1, reason as u64, out)?;
    close(out)
}

/// The body of an AttributeStatus.
pub fn write_attribute_status(path: &Path, code: u8, out: &mut Vec<u8>) -> Result<(), AllocError>
    ensures { OnOk result (out.new.items ≡ out.old.items ++ length_and_value (refused_tree (path_tree path.now) code)) }
{
    open_field(0, LIST, out)?;
    write_path(path, out)?;
    write_status(1, code, out)?;
    close(out)
}

// The body of an EventStatus.
fn write_event_status(path: &Path, code: u8, out: &mut Vec<u8>) -> Result<(), AllocError>
    ensures { OnOk result (out.new.items ≡ out.old.items ++ length_and_value (refused_tree (event_path_tree path.now) code)) }
{
    open_field(0, LIST, out)?;
    write_event_path(path, out)?;
    write_status(1, code, out)?;
    close(out)
}

/// The body of a CommandPath.
pub fn write_command_path(command: &Place, out: &mut Vec<u8>) -> Result<(), AllocError>
    ensures { OnOk result (out.new.items ≡ out.old.items ++ length_and_value (command_path_tree command.now)) }
{
    write_number(0, command.endpoint as u64, out)?;
    write_number(1, command.cluster as u64, out)?;
    write_number(2, command.leaf as u64, out)?;
    close(out)
}

/// The body of a CommandData.
pub fn write_command_data(
    command: &Place,
    fields: &Value,
    out: &mut Vec<u8>,
) -> Result<(), AllocError>
    ensures { OnOk result (out.new.items ≡ out.old.items ++ length_and_value (command_tree command.now fields.now)) }
{
    open_field(0, LIST, out)?;
    write_command_path(command, out)?;
    write(&Tag::Context(1), fields, out)?;
    close(out)
}

/// The block of an attribute's data.
pub fn write_attribute(
    path: &Path,
    version: u32,
    value: &Value,
    out: &mut Vec<u8>,
) -> Result<(), AllocError>
    ensures { OnOk result (out.new.items ≡ out.old.items ++ item_block (items.Attribute path.now version value.now)) }
{
    let front = Front::of_data(path, version);
    front.append_to(out)?;
    write(&Tag::Context(2), value, out)?;
    close_both(out)
}

/// The block of a refused attribute path.
pub fn write_refused(path: &Path, code: u8, out: &mut Vec<u8>) -> Result<(), AllocError>
    ensures { OnOk result (out.new.items ≡ out.old.items ++ item_block (items.Refused path.now code)) }
{
    open(STRUCTURE, out)?;
    open_field(0, STRUCTURE, out)?;
    write_attribute_status(path, code, out)?;
    close(out)
}

/// The block of a refused event path.
pub fn write_event_refused(path: &Path, code: u8, out: &mut Vec<u8>) -> Result<(), AllocError>
    ensures { OnOk result (out.new.items ≡ out.old.items ++ item_block (items.EventRefused path.now code)) }
{
    open(STRUCTURE, out)?;
    open_field(0, STRUCTURE, out)?;
    write_event_status(path, code, out)?;
    close(out)
}

/// The block of an event.
pub fn write_event(event: &Happened, out: &mut Vec<u8>) -> Result<(), AllocError>
    ensures { OnOk result (out.new.items ≡ out.old.items ++ item_block (items.Event event.now)) }
{
    open(STRUCTURE, out)?;
    open_field(1, STRUCTURE, out)?;
    write_event_data(event, out)?;
    close(out)
}

// The body of an EventData.
fn write_event_data(event: &Happened, out: &mut Vec<u8>) -> Result<(), AllocError>
    ensures { OnOk result (out.new.items ≡ out.old.items ++ length_and_value (event_tree event.now)) }
{
    open_field(0, LIST, out)?;
    write_event_path(&path_to(&event.place), out)?;
    write_number(1, event.number, out)?;
    write_number(2, event.priority as u64, out)?;
    write_number(4, event.at, out)?;
    write(&Tag::Context(7), &event.value, out)?;
    close(out)
}

fn path_to(place: &Place) -> Path
    ensures { result ≡ path_of place.now }
{
    Path {
        endpoint: Some(place.endpoint),
        cluster: Some(place.cluster),
        leaf: Some(place.leaf),
        index: Index::Whole,
    }
}

/// The block of an item.
pub fn write_item(item: &Item, out: &mut Vec<u8>) -> Result<(), AllocError>
    ensures { OnOk result (out.new.items ≡ out.old.items ++ item_block item.now) }
{
    match item {
        Item::Attribute {
            path,
            version,
            value,
        } => write_attribute(path, *version, value, out),
        Item::Refused { path, code } => write_refused(path, *code, out),
        Item::Event(event) => write_event(event, out),
        Item::EventRefused { path, code } => write_event_refused(path, *code, out),
    }
}
