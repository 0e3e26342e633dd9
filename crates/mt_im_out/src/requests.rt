//! Requests as bytes.

ghost use Rattle.std.specs.Prelude.{◌≡◌, ◌++◌, [], ◌∷◌, IfOk, OnOk};
ghost use Rattle.mt_tlv.specs.declared.value.Tag.TheVariants.{Anonymous, Context};
ghost use Rattle.mt_tlv.specs.Narrow.{narrow, narrow_elements, length_and_value, end_of_container};
ghost use Rattle.mt_tlv.specs.Tree.{uint, bool, structure, array, none, more};
ghost use Rattle.mt_model.specs.Trees.{untagged};
ghost use Rattle.mt_model.specs.messages.Blocks.{path_tree, event_path_tree};
ghost use Rattle.mt_model.specs.declared.messages.message.Request.TheVariants as requests;
ghost use Rattle.mt_im.specs.Requests.{optional_blocks, command_tree, event_filter_tree, event_filters, version_filter_tree, write_tree, revision, request_fields, request_tree};

use crate::blocks::{write_command_data, write_event_path, write_path};
use crate::fields::{
    ARRAY, LIST, STRUCTURE, close, end_message, open, open_field, write_bool, write_number,
    write_optional,
};
use mt_model::{Path, Place, Request, Version, WriteItem};
use mt_tlv::{Bytes, Tag, Value, write};
use std::alloc::{AllocError, Global};

/// The bytes of a request, in the narrow encoding. Truth values are written also where they are false.
pub fn encode_request(alloc: Global, request: &Request) -> Result<Bytes, AllocError>
    ensures exact { IfOk result (λ bytes. bytes ≡ narrow Anonymous (request_tree request.now)) }
{
    let mut out = Vec::new(alloc);
    open(STRUCTURE, &mut out)?;
    write_request(request, &mut out)?;
    Ok(Bytes::from_vec(out))
}

// The body of the message.
fn write_request(request: &Request, out: &mut Vec<u8>) -> Result<(), AllocError>
    ensures { OnOk result (out.new.items ≡ out.old.items ++ length_and_value (request_tree request.now)) }
{
    match request {
        Request::Status { code } => write_one_number(*code as u64, out),
        Request::Read {
            paths,
            events,
            minimum,
            filtered,
            versions,
        } => {
            write_read(
                paths.as_slice(),
                events.as_slice(),
                *minimum,
                *filtered,
                versions.as_slice(),
                out,
            )
        }
        Request::Subscribe {
            keep,
            floor,
            ceiling,
            paths,
            events,
            minimum,
            filtered,
            versions,
        } => {
            write_bool(0, *keep, out)?;
            write_number(1, *floor as u64, out)?;
            write_number(2, *ceiling as u64, out)?;
            write_subscribed(
                paths.as_slice(),
                events.as_slice(),
                *minimum,
                *filtered,
                versions.as_slice(),
                out,
            )
        }
        Request::Write {
            suppress,
            timed,
            items,
        } => write_writes(*suppress, *timed, items.as_slice(), out),
        Request::Invoke {
            suppress,
            timed,
            command,
            fields,
        } => write_invoke(*suppress, *timed, command, fields, out),
        Request::Timed { ms } => write_one_number(*ms as u64, out),
    }
}

// The body of a message that has one number.
fn write_one_number(number: u64, out: &mut Vec<u8>) -> Result<(), AllocError>
    ensures { OnOk result (out.new.items ≡ out.old.items ++ length_and_value (structure (more (Context 0) (uint number) revision))) }
{
    write_number(0, number, out)?;
    end_message(out)
}

// The body of a ReadRequest.
fn write_read(
    paths: &[Path],
    events: &[Path],
    minimum: u64,
    filtered: bool,
    versions: &[Version],
    out: &mut Vec<u8>,
) -> Result<(), AllocError>
    ensures { OnOk result (out.new.items ≡ out.old.items ++ length_and_value (structure (request_fields (requests.Read paths.now events.now minimum filtered versions.now)))) }
{
    write_paths(0, paths, out)?;
    write_event_paths(1, events, out)?;
    write_event_filter(2, minimum, out)?;
    write_bool(3, filtered, out)?;
    write_version_filters(4, versions, out)?;
    end_message(out)
}

// What a SubscribeRequest has behind its intervals.
fn write_subscribed(
    paths: &[Path],
    events: &[Path],
    minimum: u64,
    filtered: bool,
    versions: &[Version],
    out: &mut Vec<u8>,
) -> Result<(), AllocError>
    ensures { OnOk result (out.new.items ≡ out.old.items ++ (narrow_elements
        (optional_blocks 3 path_tree paths.now
        (optional_blocks 4 event_path_tree events.now
        (optional_blocks 5 event_filter_tree (event_filters minimum)
        (more (Context 7) (bool filtered)
        (optional_blocks 8 version_filter_tree versions.now revision))))) ++ end_of_container ∷ [])) }
{
    write_paths(3, paths, out)?;
    write_event_paths(4, events, out)?;
    write_event_filter(5, minimum, out)?;
    write_bool(7, filtered, out)?;
    write_version_filters(8, versions, out)?;
    end_message(out)
}

// AttributePaths as an array, left out where there are none.
fn write_paths(tag: u8, paths: &[Path], out: &mut Vec<u8>) -> Result<(), AllocError>
    ensures { OnOk result (out.new.items ≡ out.old.items ++ narrow_elements (optional_blocks tag path_tree paths.now none)) }
{
    if paths.is_empty() {
        return Ok(());
    }
    open_field(tag, ARRAY, out)?;
    write_path_blocks(paths, out)?;
    close(out)
}

fn write_path_blocks(paths: &[Path], out: &mut Vec<u8>) -> Result<(), AllocError>
    ensures { OnOk result (out.new.items ≡ out.old.items ++ narrow_elements (untagged path_tree paths.now)) }
{
    'paths: for path in paths {
        open(LIST, out)?;
        write_path(path, out)?;
    }
    Ok(())
}

// EventPaths as an array, left out where there are none.
fn write_event_paths(tag: u8, paths: &[Path], out: &mut Vec<u8>) -> Result<(), AllocError>
    ensures { OnOk result (out.new.items ≡ out.old.items ++ narrow_elements (optional_blocks tag event_path_tree paths.now none)) }
{
    if paths.is_empty() {
        return Ok(());
    }
    open_field(tag, ARRAY, out)?;
    write_event_path_blocks(paths, out)?;
    close(out)
}

fn write_event_path_blocks(paths: &[Path], out: &mut Vec<u8>) -> Result<(), AllocError>
    ensures { OnOk result (out.new.items ≡ out.old.items ++ narrow_elements (untagged event_path_tree paths.now)) }
{
    'paths: for path in paths {
        open(LIST, out)?;
        write_event_path(path, out)?;
    }
    Ok(())
}

// The EventFilter of a minimum as an array, left out where the minimum is 0.
fn write_event_filter(tag: u8, minimum: u64, out: &mut Vec<u8>) -> Result<(), AllocError>
    ensures { OnOk result (out.new.items ≡ out.old.items ++ narrow_elements (optional_blocks tag event_filter_tree (event_filters minimum) none)) }
{
    if minimum == 0 {
        return Ok(());
    }
    open_field(tag, ARRAY, out)?;
    open(STRUCTURE, out)?;
    write_number(1, minimum, out)?;
    close(out)?;
    close(out)
}

// VersionFilters as an array, left out where there are none.
fn write_version_filters(tag: u8, versions: &[Version], out: &mut Vec<u8>) -> Result<(), AllocError>
    ensures { OnOk result (out.new.items ≡ out.old.items ++ narrow_elements (optional_blocks tag version_filter_tree versions.now none)) }
{
    if versions.is_empty() {
        return Ok(());
    }
    open_field(tag, ARRAY, out)?;
    write_version_blocks(versions, out)?;
    close(out)
}

fn write_version_blocks(versions: &[Version], out: &mut Vec<u8>) -> Result<(), AllocError>
    ensures { OnOk result (out.new.items ≡ out.old.items ++ narrow_elements (untagged version_filter_tree versions.now)) }
{
    'versions: for version in versions {
        write_version_filter(version, out)?;
    }
    Ok(())
}

fn write_version_filter(known: &Version, out: &mut Vec<u8>) -> Result<(), AllocError>
    ensures { OnOk result (out.new.items ≡ out.old.items ++ narrow Anonymous (version_filter_tree known.now)) }
{
    open(STRUCTURE, out)?;
    open_field(0, LIST, out)?;
    write_number(1, known.endpoint as u64, out)?;
    write_number(2, known.cluster as u64, out)?;
    close(out)?;
    write_number(1, known.version as u64, out)?;
    close(out)
}

// The body of a WriteRequest.
fn write_writes(
    suppress: bool,
    timed: bool,
    items: &[WriteItem],
    out: &mut Vec<u8>,
) -> Result<(), AllocError>
    ensures { OnOk result (out.new.items ≡ out.old.items ++ length_and_value (structure (request_fields (requests.Write suppress timed items.now)))) }
{
    write_bool(0, suppress, out)?;
    write_bool(1, timed, out)?;
    open_field(2, ARRAY, out)?;
    write_write_blocks(items, out)?;
    close(out)?;
    end_message(out)
}

fn write_write_blocks(items: &[WriteItem], out: &mut Vec<u8>) -> Result<(), AllocError>
    ensures { OnOk result (out.new.items ≡ out.old.items ++ narrow_elements (untagged write_tree items.now)) }
{
    'items: for item in items {
        write_write_item(item, out)?;
    }
    Ok(())
}

#[tactic(auto, using(crate::proofs::Tails::number_tail))]
fn write_write_item(item: &WriteItem, out: &mut Vec<u8>) -> Result<(), AllocError>
    ensures { OnOk result (out.new.items ≡ out.old.items ++ narrow Anonymous (write_tree item.now)) }
{
    open(STRUCTURE, out)?;
    write_optional(0, item.version, out)?;
    open_field(1, LIST, out)?;
    write_path(&item.path, out)?;
    write(&Tag::Context(2), &item.value, out)?;
    close(out)
}

// The body of an InvokeRequest.
fn write_invoke(
    suppress: bool,
    timed: bool,
    command: &Place,
    fields: &Value,
    out: &mut Vec<u8>,
) -> Result<(), AllocError>
    ensures { OnOk result (out.new.items ≡ out.old.items ++ length_and_value (structure (request_fields (requests.Invoke suppress timed command.now fields.now)))) }
{
    write_bool(0, suppress, out)?;
    write_bool(1, timed, out)?;
    write_command(command, fields, out)?;
    end_message(out)
}

// The array of one command.
fn write_command(command: &Place, fields: &Value, out: &mut Vec<u8>) -> Result<(), AllocError>
    ensures { OnOk result (out.new.items ≡ out.old.items ++ narrow (Context 2) (array (more Anonymous (command_tree command.now fields.now) none))) }
{
    open_field(2, ARRAY, out)?;
    open(STRUCTURE, out)?;
    write_command_data(command, fields, out)?;
    close(out)
}
