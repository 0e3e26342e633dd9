//! Where the first fault of a payload's encoding stands.

use mt_tlv::{TlvFault, read};
use std::alloc::{AllocError, Global};

/// The byte at which the first fault of an encoding stands, from 0: the last of the fewest bytes in front
/// that already have it. What is cut off has it behind its last byte.
pub(crate) fn fault_place(
    alloc: Global,
    bytes: &[u8],
    fault: TlvFault,
) -> Result<usize, AllocError> {
    if fault == TlvFault::Short {
        return Ok(bytes.len());
    }
    let mut low = 0;
    let mut high = bytes.len();
    // The place is at least `low` bytes in, and at most `high`; each turn halves what is between.
    for _ in 0..usize::BITS {
        if low >= high {
            break;
        }
        let middle = low + (high - low) / 2;
        if has_fault(alloc, bytes, middle, fault)? {
            high = middle;
        } else {
            low = middle + 1;
        }
    }
    Ok(low.saturating_sub(1))
}

// Whether so many bytes in front have the fault.
fn has_fault(
    alloc: Global,
    bytes: &[u8],
    count: usize,
    fault: TlvFault,
) -> Result<bool, AllocError> {
    let (front, _) = bytes.split_at(count.min(bytes.len()));
    match read(alloc, front) {
        Ok(_) => Ok(false),
        Err(TlvFault::Memory) => Err(AllocError),
        Err(met) => Ok(met == fault),
    }
}

/// What is wrong with an encoding, in words.
pub(crate) fn encoding_fault(fault: TlvFault) -> &'static str {
    match fault {
        TlvFault::Short => "an element is cut off",
        TlvFault::Reserved => {
            "an element of a reserved type, or an end of a container that ends none or has a tag"
        }
        TlvFault::NotUtf8 => "a text that is not UTF-8",
        TlvFault::TooDeep => "more than 16 containers open inside each other",
        TlvFault::SameTag => "a structure that has a tag twice",
        TlvFault::TagForm => "a member of an array with a tag, or one of a structure without",
        TlvFault::TooLong => "a length of more than 65,535 bytes",
        TlvFault::Memory => "out of memory",
    }
}
