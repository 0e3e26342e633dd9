//! The replies that are one message.

ghost use Rattle.std.specs.Prelude.{◌≡◌, ◌++◌, [], ◌∷◌, false, None, IfOk, OnOk};
ghost use Rattle.mt_tlv.specs.Narrow.{narrow, narrow_elements, length_and_value, opening, end_of_container};
ghost use Rattle.mt_tlv.specs.Tree.{bool};
ghost use Rattle.mt_tlv.specs.declared.value.Tag.TheVariants.{Anonymous, Context};
ghost use Rattle.mt_im_out.specs.Chunks.{payload};
ghost use Rattle.mt_im_out.specs.Messages.{status_response_tree, subscribe_response_tree, status_elements, write_response_tree, command_failure_tree, command_status_tree, invoke_response_tree};
ghost use Rattle.mt_im.specs.Requests.{revision, command_path_tree, command_tree};

use crate::blocks::{
    write_attribute_status, write_cluster_status, write_command_data, write_command_path,
    write_status,
};
use crate::fields::{
    ARRAY, LIST, STRUCTURE, close, end_message, open, open_field, write_bool, write_number,
};
use mt_model::opcode::{INVOKE_RESPONSE, STATUS_RESPONSE, SUBSCRIBE_RESPONSE, WRITE_RESPONSE};
use mt_model::{Item, Payload, Payloads, Place};
use mt_tlv::{Bytes, Value};
use std::alloc::{AllocError, Global};

/// A StatusResponse.
pub fn status(alloc: Global, code: u8) -> Result<Payloads, AllocError>
    ensures { IfOk result (λ payloads. payloads ≡ payload STATUS_RESPONSE (status_response_tree code) ∷ []) }
{
    let mut out = Vec::new(alloc);
    open(STRUCTURE, &mut out)?;
    write_number(0, code as u64, &mut out)?;
    end_message(&mut out)?;
    one(alloc, STATUS_RESPONSE, out)
}

/// A SubscribeResponse.
pub fn subscribed(alloc: Global, id: u32, ceiling: u16) -> Result<Payloads, AllocError>
    ensures { IfOk result (λ payloads. payloads ≡ payload SUBSCRIBE_RESPONSE (subscribe_response_tree id ceiling) ∷ []) }
{
    let mut out = Vec::new(alloc);
    open(STRUCTURE, &mut out)?;
    write_number(0, id as u64, &mut out)?;
    write_number(2, ceiling as u64, &mut out)?;
    end_message(&mut out)?;
    one(alloc, SUBSCRIBE_RESPONSE, out)
}

/// A WriteResponse with the statuses among the items.
pub fn written(alloc: Global, items: &[Item]) -> Result<Payloads, AllocError>
    ensures { IfOk result (λ payloads. payloads ≡ payload WRITE_RESPONSE (write_response_tree items.now) ∷ []) }
{
    let mut out = Vec::new(alloc);
    open(STRUCTURE, &mut out)?;
    open_field(0, ARRAY, &mut out)?;
    write_statuses(items, &mut out)?;
    close(&mut out)?;
    end_message(&mut out)?;
    one(alloc, WRITE_RESPONSE, out)
}

#[tactic(auto, using(crate::proofs::Tails::statuses))]
fn write_statuses(items: &[Item], out: &mut Vec<u8>) -> Result<(), AllocError>
    ensures { OnOk result (out.new.items ≡ out.old.items ++ narrow_elements (status_elements items.now)) }
{
    'items: for item in items {
        write_status_of(item, out)?;
    }
    Ok(())
}

fn write_status_of(item: &Item, out: &mut Vec<u8>) -> Result<(), AllocError>
    ensures { OnOk result (out.new.items ≡ out.old.items ++ narrow_elements (status_elements (item.now ∷ []))) }
{
    match item {
        Item::Refused { path, code } => {
            open(STRUCTURE, out)?;
            write_attribute_status(path, *code, out)
        }
        _ => Ok(()),
    }
}

/// An InvokeResponse with the response to a command.
pub fn invoked(alloc: Global, command: &Place, fields: &Value) -> Result<Payloads, AllocError>
    ensures { IfOk result (λ payloads. payloads ≡ payload INVOKE_RESPONSE (invoke_response_tree 0 (command_tree command.now fields.now)) ∷ []) }
{
    let mut out = Vec::new(alloc);
    begin_invoke_response(0, &mut out)?;
    write_command_data(command, fields, &mut out)?;
    end_invoke_response(&mut out)?;
    one(alloc, INVOKE_RESPONSE, out)
}

/// An InvokeResponse with the status of a command.
pub fn invoke_status(alloc: Global, command: &Place, code: u8) -> Result<Payloads, AllocError>
    ensures { IfOk result (λ payloads. payloads ≡ payload INVOKE_RESPONSE (invoke_response_tree 1 (command_status_tree command.now code)) ∷ []) }
{
    let mut out = Vec::new(alloc);
    begin_invoke_response(1, &mut out)?;
    write_command_status(command, code, &mut out)?;
    end_invoke_response(&mut out)?;
    one(alloc, INVOKE_RESPONSE, out)
}

/// An InvokeResponse with the status of a command that failed for a reason of its cluster's.
pub fn invoke_cluster_status(
    alloc: Global,
    command: &Place,
    code: u8,
    reason: u8,
) -> Result<Payloads, AllocError>
    ensures { IfOk result (λ payloads. payloads ≡ payload INVOKE_RESPONSE (invoke_response_tree 1 (command_failure_tree command.now code reason)) ∷ []) }
{
    let mut out = Vec::new(alloc);
    begin_invoke_response(1, &mut out)?;
    write_command_failure(command, code, reason, &mut out)?;
    end_invoke_response(&mut out)?;
    one(alloc, INVOKE_RESPONSE, out)
}

// What stands before the body of the answer to a command, which has this tag in its block.
fn begin_invoke_response(tag: u8, out: &mut Vec<u8>) -> Result<(), AllocError>
    ensures { OnOk result (out.new.items ≡ out.old.items ++ (opening Anonymous STRUCTURE ++ (narrow (Context 0) (bool false) ++ (opening (Context 1) ARRAY ++ (opening Anonymous STRUCTURE ++ opening (Context tag) STRUCTURE))))) }
{
    open(STRUCTURE, out)?;
    write_bool(0, false, out)?;
    open_field(1, ARRAY, out)?;
    open(STRUCTURE, out)?;
    open_field(tag, STRUCTURE, out)
}

// What stands behind it.
fn end_invoke_response(out: &mut Vec<u8>) -> Result<(), AllocError>
    ensures { OnOk result (out.new.items ≡ out.old.items ++ (end_of_container ∷ end_of_container ∷ [] ++ (narrow_elements revision ++ end_of_container ∷ []))) }
{
    close(out)?;
    close(out)?;
    end_message(out)
}

// The body of a CommandStatus.
fn write_command_status(command: &Place, code: u8, out: &mut Vec<u8>) -> Result<(), AllocError>
    ensures { OnOk result (out.new.items ≡ out.old.items ++ length_and_value (command_status_tree command.now code)) }
{
    open_field(0, LIST, out)?;
    write_command_path(command, out)?;
    write_status(1, code, out)?;
    close(out)
}

// The body of a CommandStatus with a code of the cluster's own.
fn write_command_failure(
    command: &Place,
    code: u8,
    reason: u8,
    out: &mut Vec<u8>,
) -> Result<(), AllocError>
    ensures { OnOk result (out.new.items ≡ out.old.items ++ length_and_value (command_failure_tree command.now code reason)) }
{
    open_field(0, LIST, out)?;
    write_command_path(command, out)?;
    write_cluster_status(1, code, reason, out)?;
    close(out)
}

// One payload of these bytes.
fn one(alloc: Global, opcode: u8, bytes: Vec<u8>) -> Result<Payloads, AllocError>
    ensures { IfOk result (λ payloads. payloads ≡ record { opcode = opcode; bytes = bytes.items; deadline = None } ∷ []) }
{
    let payload = Payload {
        opcode,
        bytes: Bytes::from_vec(bytes),
        deadline: None,
    };
    Ok(Payloads::from_vec(vec![in alloc; payload]?))
}
