//! A request from its bytes.

ghost use Rattle.std.specs.Prelude.{◌≡◌, ◌≢◌, ◌≤◌, ℕ, length, take, IfOk, IfErr, Ok};
ghost use Rattle.mt_tlv.specs.View.{tree, elements};
ghost use Rattle.mt_tlv.specs.declared.value.Tag.TheVariants.{Anonymous};
ghost use Rattle.mt_tlv.specs.Limits.{IsElement};
ghost use Rattle.mt_tlv.specs.Reading.{element_at};
ghost use Rattle.mt_tlv.specs.Tree.{structure};
ghost use Rattle.mt_tlv.specs.declared.fault.TlvFault.TheVariants as tlv;
ghost use Rattle.mt_model.specs.declared.messages.message.Request.{Request};
ghost use Rattle.mt_im.specs.declared.fault.ImFault.TheVariants.{Tlv};
ghost use Rattle.mt_im.specs.Limits.{IsRequestIn};
ghost use Rattle.mt_im.specs.Reading.{Gives, message_in, request_in};

use crate::fault::ImFault;
use crate::messages::{kind_of, request_of};
use mt_model::Request;
use mt_tlv::{Tag, TlvFault, Value, element_is_read, read, values_are_trees};
use std::alloc::Global;

/// Decodes the request with this opcode that stands in front of the bytes, whatever follows it. Of several
/// faults the answer is the first in the order that `ImFault` says.
pub fn decode(alloc: Global, opcode: u8, bytes: &[u8]) -> Result<Request, ImFault>
    // What is decoded is a request that an element in front of the bytes spells, within the limits.
    ensures found { IfOk result (λ request. IsRequestIn opcode request bytes.now) }
    // A request that an element in front of the bytes spells is decoded, unless memory runs out.
    ensures only { (request : Request) → IsRequestIn opcode request bytes.now → Gives (λ x. x) result (Ok request) }
    // Which fault it is.
    ensures exact { Gives (λ x. x) result (request_in opcode bytes.now) }
    // Want of memory is told as Memory, and never as a fault of the encoding.
    ensures memory_alone { IfErr result (λ fault. fault ≢ Tlv tlv.Memory) }
{
    element_is_read();
    values_are_trees();
    request_in_front(alloc, opcode, bytes)
}

fn request_in_front(alloc: Global, opcode: u8, bytes: &[u8]) -> Result<Request, ImFault>
    ensures found { IfOk result (λ request. IsRequestIn opcode request bytes.now) }
    ensures exact { Gives (λ x. x) result (request_in opcode bytes.now) }
    ensures memory_alone { IfErr result (λ fault. fault ≢ Tlv tlv.Memory) }
{
    values_are_trees();
    let kind = kind_of(opcode)?;
    request_of(alloc, kind, message(alloc, bytes)?)
}

// The fields of the message in front: an anonymous structure.
fn message(alloc: Global, bytes: &[u8]) -> Result<Vec<(Tag, Value)>, ImFault>
    ensures gives { Gives (λ members. elements members.items) result (message_in (element_at bytes.now)) }
    ensures in_front { IfOk result (λ members. (len : ℕ) × (len ≤ length bytes.now) × IsElement Anonymous (structure (elements members.items)) (take len bytes.now)) }
    ensures memory_alone { IfErr result (λ fault. fault ≢ Tlv tlv.Memory) }
{
    match read(alloc, bytes) {
        Ok((Tag::Anonymous, Value::Struct(members), _)) => Ok(members.into_vec()),
        Ok(_) => Err(ImFault::Form(255)),
        Err(TlvFault::Memory) => Err(ImFault::Memory),
        Err(fault) => Err(ImFault::Tlv(fault)),
    }
}
