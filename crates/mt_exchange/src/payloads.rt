//! What a message of the interaction model says of its exchange.

ghost use Rattle.std.specs.Prelude.{◌≡◌, ◌<◌, length, Some, None, IfOk, MatchOption, slice_index_or, option_map};
ghost use Rattle.mt_exchange.specs.Payloads.{is_success as is_success_of, subscription_in, is_suppressed, fields, is_true_field, number_of_field};
ghost use Rattle.mt_tlv.specs.declared.value.Tag.{Tag};
ghost use Rattle.mt_tlv.specs.declared.value.Value.{Value};
ghost use Rattle.mt_tlv.specs.Outline.{outlines};
ghost use Rattle.mt_tlv.specs.View.{tree, elements};
ghost use Rattle.mt_model.specs.Trees.{field_in};

use mt_im::{ImFault, decode};
use mt_model::{Request, field};
use mt_tlv::{Members, Tag, TlvFault, Value, read_outlines};
use std::alloc::{AllocError, Global};

/// What a report says of its exchange.
#[derive(Clone, Copy, Debug, PartialEq, Eq)]
pub(crate) struct ReportTags {
    /// Its subscription.
    pub subscription: Option<u32>,
    /// Whether it wants no confirmation.
    pub suppressed: bool,
}

/// Whether a message is a StatusResponse that says success.
pub(crate) fn is_success(alloc: Global, opcode: u8, payload: &[u8]) -> Result<bool, AllocError>
    ensures { IfOk result (λ success. success ≡ is_success_of opcode payload.now) }
{
    match decode(alloc, opcode, payload) {
        Ok(Request::Status { code }) => Ok(code == 0),
        Ok(_) => Ok(false),
        Err(ImFault::Memory) => Err(AllocError),
        Err(_) => Ok(false),
    }
}

/// What the report in these bytes says of its exchange.
#[tactic(auto, using(crate::proofs::Outlined::number_stands, crate::proofs::Outlined::truth_stands))]
pub(crate) fn report_tags(alloc: Global, bytes: &[u8]) -> Result<ReportTags, AllocError>
    ensures subscription { IfOk result (λ tags. tags.subscription ≡ subscription_in bytes.now) }
    ensures suppressed { IfOk result (λ tags. tags.suppressed ≡ is_suppressed bytes.now) }
{
    let outlines = report_outlines(alloc, bytes)?;
    Ok(ReportTags {
        subscription: number_of(field(outlines.as_slice(), 0)),
        suppressed: is_true(field(outlines.as_slice(), 4)),
    })
}

// The outlines of the fields of the structure at the front, or none.
#[tactic(auto, using(crate::proofs::Outlined::outlines_told, crate::proofs::Outlined::outlines_lack))]
fn report_outlines(alloc: Global, bytes: &[u8]) -> Result<Members, AllocError>
    ensures { IfOk result (λ members. members ≡ outlines (fields bytes.now)) }
{
    match read_outlines(alloc, bytes) {
        Ok(fields) => Ok(fields),
        Err(TlvFault::Memory) => Err(AllocError),
        Err(_) => Ok(Members::from_vec(Vec::new(alloc))),
    }
}

fn number_of(value: Option<&Value>) -> Option<u32>
    ensures { result ≡ number_of_field (option_map (λ v. tree v.now) value.entry) }
{
    match value {
        Some(Value::Uint(number)) if *number <= u32::MAX as u64 => Some(*number as u32),
        _ => None,
    }
}

fn is_true(value: Option<&Value>) -> bool
    ensures { result ≡ is_true_field (option_map (λ v. tree v.now) value.entry) }
{
    match value {
        Some(Value::Bool(truth)) => *truth,
        _ => false,
    }
}
