//! Arrays of blocks. Whatever is wrong inside one is the form of the field in which it stands.

ghost use Rattle.std.specs.Prelude.{◌≡◌, ◌+◌, max};
ghost use Rattle.mt_tlv.specs.View.{tree, elements};
ghost use Rattle.mt_im.specs.Fields.{greatest};
ghost use Rattle.mt_im.specs.Blocks.{blocks_of, attribute_path_in, event_path_in, event_filter_in, version_filter_in, write_item_in};
ghost use Rattle.mt_im.specs.Reading.{Gives, form, blocks_at, minimum_at, minimum_of};

use crate::blocks::{attribute_path, event_filter, event_path, version_filter, write_item};
use crate::fault::ImFault;
use crate::fields::array_of;
use mt_model::{Paths, Versions, Writes, field};
use mt_tlv::{Tag, Value};
use std::alloc::Global;
use std::mem;

/// The attribute paths of a field, none where it is missing.
pub(crate) fn attribute_paths(
    alloc: Global,
    members: &[(Tag, Value)],
    number: u8,
) -> Result<Paths, ImFault>
    ensures { Gives (λ paths. paths) result (blocks_at attribute_path_in number (elements members.now)) }
{
    match field(members, number) {
        Some(value) => each_attribute_path(
            alloc,
            array_of(value).ok_or(ImFault::Form(number))?,
            number,
        ),
        None => Ok(Paths::new(alloc)),
    }
}

fn each_attribute_path(alloc: Global, blocks: &[(Tag, Value)], number: u8) -> Result<Paths, ImFault>
    ensures { Gives (λ paths. paths) result (form number (blocks_of attribute_path_in (elements blocks.now))) }
{
    let mut paths = Paths::new(alloc);
    for block in blocks {
        let Some(path) = attribute_path(&block.1) else {
            return Err(ImFault::Form(number));
        };
        paths.push(path)?;
    }
    Ok(paths)
}

/// The event paths of a field, none where it is missing.
pub(crate) fn event_paths(
    alloc: Global,
    members: &[(Tag, Value)],
    number: u8,
) -> Result<Paths, ImFault>
    ensures { Gives (λ paths. paths) result (blocks_at event_path_in number (elements members.now)) }
{
    match field(members, number) {
        Some(value) => each_event_path(
            alloc,
            array_of(value).ok_or(ImFault::Form(number))?,
            number,
        ),
        None => Ok(Paths::new(alloc)),
    }
}

fn each_event_path(alloc: Global, blocks: &[(Tag, Value)], number: u8) -> Result<Paths, ImFault>
    ensures { Gives (λ paths. paths) result (form number (blocks_of event_path_in (elements blocks.now))) }
{
    let mut paths = Paths::new(alloc);
    for block in blocks {
        let Some(path) = event_path(&block.1) else {
            return Err(ImFault::Form(number));
        };
        paths.push(path)?;
    }
    Ok(paths)
}

/// The version filters of a field, none where it is missing.
pub(crate) fn version_filters(
    alloc: Global,
    members: &[(Tag, Value)],
    number: u8,
) -> Result<Versions, ImFault>
    ensures { Gives (λ versions. versions) result (blocks_at version_filter_in number (elements members.now)) }
{
    match field(members, number) {
        Some(value) => each_version_filter(
            alloc,
            array_of(value).ok_or(ImFault::Form(number))?,
            number,
        ),
        None => Ok(Versions::new(alloc)),
    }
}

fn each_version_filter(
    alloc: Global,
    blocks: &[(Tag, Value)],
    number: u8,
) -> Result<Versions, ImFault>
    ensures { Gives (λ versions. versions) result (form number (blocks_of version_filter_in (elements blocks.now))) }
{
    let mut versions = Versions::new(alloc);
    for block in blocks {
        let Some(known) = version_filter(&block.1) else {
            return Err(ImFault::Form(number));
        };
        versions.push(known)?;
    }
    Ok(versions)
}

/// The greatest minimum of the event filters of a field, 0 where there is none.
pub(crate) fn minimum(members: &[(Tag, Value)], number: u8) -> Result<u64, ImFault>
    ensures { result ≡ minimum_at number (elements members.now) }
{
    match field(members, number) {
        Some(value) => greatest_minimum(array_of(value).ok_or(ImFault::Form(number))?, number),
        None => Ok(0),
    }
}

fn greatest_minimum(blocks: &[(Tag, Value)], number: u8) -> Result<u64, ImFault>
    ensures { result ≡ minimum_of (form number (blocks_of event_filter_in (elements blocks.now))) }
{
    let mut greatest = 0;
    for block in blocks {
        let Some(minimum) = event_filter(&block.1) else {
            return Err(ImFault::Form(number));
        };
        greatest = minimum.max(greatest);
    }
    Ok(greatest)
}

/// The items of a write, whose values are moved out of the blocks.
pub(crate) fn write_items(
    alloc: Global,
    blocks: &mut [(Tag, Value)],
    number: u8,
) -> Result<Writes, ImFault>
    ensures { Gives (λ items. items) result (form number (blocks_of write_item_in (elements blocks.old))) }
{
    let mut items = Writes::new(alloc);
    for block in blocks.iter_mut() {
        let value = mem::replace(&mut block.1, Value::Null);
        let Some(item) = write_item(value) else {
            return Err(ImFault::Form(number));
        };
        items.push(item)?;
    }
    Ok(items)
}
