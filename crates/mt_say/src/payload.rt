//! The payload of a request: what a node decodes to exactly this request again.

ghost use Rattle.std.specs.Prelude.{◌≡◌, ◌≤◌, Ok, IfErr, IfOk, length};
ghost use Rattle.mt_model.specs.declared.messages.message.Request.{Request};
ghost use Rattle.mt_tlv.specs.declared.value.Tag.TheVariants.{Anonymous};
ghost use Rattle.mt_tlv.specs.Narrow.{narrow};
ghost use Rattle.mt_im.specs.Limits.{IsRequest};
ghost use Rattle.mt_im.specs.Reading.{request_in};
ghost use Rattle.mt_im.specs.Requests.{opcode_of, request_tree};
ghost use Rattle.mt_model.specs.declared.limits.TheConstants.{PAYLOAD_BYTES};
ghost use Rattle.mt_say.specs.declared.payload.Unsaid.TheVariants as unsaid;

use crate::same::is_same_request;
use mt_im::{ImFault, decode, encoded_is_decoded};
use mt_im_out::encode_request;
use mt_model::Request;
use mt_model::limits::PAYLOAD_BYTES;
use mt_model::opcode::{
    INVOKE_REQUEST, READ_REQUEST, STATUS_RESPONSE, SUBSCRIBE_REQUEST, TIMED_REQUEST, WRITE_REQUEST,
};
use mt_tlv::Bytes;
use std::alloc::{AllocError, Global};

/// Why a request has no payload.
#[derive(Clone, Copy, Debug, PartialEq, Eq)]
pub enum Unsaid {
    /// It has more bytes than a line of a recording takes.
    TooLong,
    /// A node refuses it, with this fault.
    Refused(ImFault),
    /// A node takes it for another request.
    Another,
    /// There was no memory.
    Memory,
}

impl From<AllocError> for Unsaid {
    ghost from_gives = { λ _ fault. fault ≡ unsaid.Memory };

    fn from(_fault: AllocError) -> Unsaid {
        Unsaid::Memory
    }
}

/// The opcode of a request.
pub fn opcode_of(request: &Request) -> u8
    ensures { result ≡ opcode_of request.now }
{
    match request {
        Request::Status { .. } => STATUS_RESPONSE,
        Request::Read { .. } => READ_REQUEST,
        Request::Subscribe { .. } => SUBSCRIBE_REQUEST,
        Request::Write { .. } => WRITE_REQUEST,
        Request::Invoke { .. } => INVOKE_REQUEST,
        Request::Timed { .. } => TIMED_REQUEST,
    }
}

/// The payload of a request, which is read again by the decoder of the node before it is given out.
pub fn payload_of(alloc: Global, request: &Request) -> Result<Bytes, Unsaid>
    // It is the narrow encoding of the request.
    ensures narrow { IfOk result (λ bytes. bytes ≡ narrow Anonymous (request_tree request.now)) }
    // A node decodes it to this very request.
    ensures decoded { IfOk result (λ bytes. request_in (opcode_of request.now) bytes ≡ Ok request.now) }
    ensures short { IfOk result (λ bytes. length bytes ≤ PAYLOAD_BYTES) }
    // A request that can be encoded in so many bytes is not refused, unless memory lacks.
    ensures refused { IsRequest request.now → length (narrow Anonymous (request_tree request.now)) ≤ PAYLOAD_BYTES
        → IfErr result (λ fault. fault ≡ unsaid.Memory) }
{
    encoding_is_decoded();
    let bytes = encode_request(alloc, request)?;
    if bytes.as_slice().len() > PAYLOAD_BYTES {
        return Err(Unsaid::TooLong);
    }
    read_again(alloc, request, bytes)
}

// A request that can be encoded is decoded from what it is encoded as.
fn encoding_is_decoded()
    ensures { (request : Request) → IsRequest request → request_in (opcode_of request) (narrow Anonymous (request_tree request)) ≡ Ok request }
{
    encoded_is_decoded();
}

// The bytes, where a node decodes them to this request.
fn read_again(alloc: Global, request: &Request, bytes: Bytes) -> Result<Bytes, Unsaid>
    ensures same { IfOk result (λ given. given ≡ bytes) }
    ensures decoded { IfOk result (λ given. request_in (opcode_of request.now) bytes ≡ Ok request.now) }
    ensures refused { request_in (opcode_of request.now) bytes ≡ Ok request.now → IfErr result (λ fault. fault ≡ unsaid.Memory) }
{
    match decode(alloc, opcode_of(request), bytes.as_slice()) {
        Ok(again) => {
            if is_same_request(&again, request) {
                Ok(bytes)
            } else {
                Err(Unsaid::Another)
            }
        }
        Err(ImFault::Memory) => Err(Unsaid::Memory),
        Err(fault) => Err(Unsaid::Refused(fault)),
    }
}
