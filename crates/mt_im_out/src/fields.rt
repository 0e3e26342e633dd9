//! The fields of messages, appended to bytes in their narrow encoding.

ghost use Rattle.std.specs.Prelude.{◌≡◌, ◌<◌, ◌++◌, ◌∷◌, [], ℕ, Option, OnOk};
ghost use Rattle.mt_tlv.specs.declared.value.Tag.TheVariants.{Anonymous, Context};
ghost use Rattle.mt_tlv.specs.Narrow.{narrow, narrow_elements, opening, end_of_container};
ghost use Rattle.mt_tlv.specs.Tree.{uint, bool, none};
ghost use Rattle.mt_model.specs.messages.Blocks.{optional_number};
ghost use Rattle.mt_im.specs.Requests.{revision};
ghost use Rattle.mt_im_out.specs.Messages.{optional_truth};

use mt_tlv::{Tag, write_unsigned};
use std::alloc::AllocError;

/// The element type of a structure.
pub const STRUCTURE: u8 = 0x15;

/// The element type of an array.
pub const ARRAY: u8 = 0x16;

/// The element type of a list.
pub const LIST: u8 = 0x17;

/// The element type of null, which is whole with its tag.
pub const NULL: u8 = 0x14;

// The element types of the truth values, which are whole with their tag.
const FALSE: u8 = 0x08;

const TRUE: u8 = 0x09;

/// The element type that ends a container.
pub const END: u8 = 0x18;

/// The bits of a control octet whose tag is a context tag of one byte.
pub const CONTEXT: u8 = 0x20;

/// Opens a container with no tag.
pub fn open(container: u8, out: &mut Vec<u8>) -> Result<(), AllocError>
    ensures { OnOk result (out.new.items ≡ out.old.items ++ opening Anonymous container) }
{
    out.push(container)?;
    Ok(())
}

/// Opens a container under a context tag, or writes an element that is whole with its tag.
pub fn open_field(tag: u8, container: u8, out: &mut Vec<u8>) -> Result<(), AllocError>
    requires { container < 32 }
    ensures { OnOk result (out.new.items ≡ out.old.items ++ opening (Context tag) container) }
{
    out.extend_from_slice(&[CONTEXT + container, tag])
}

/// Closes the two innermost containers.
pub fn close_both(out: &mut Vec<u8>) -> Result<(), AllocError>
    ensures { OnOk result (out.new.items ≡ out.old.items ++ end_of_container ∷ end_of_container ∷ []) }
{
    out.extend_from_slice(&[END, END])
}

/// Closes the innermost container.
pub fn close(out: &mut Vec<u8>) -> Result<(), AllocError>
    ensures { OnOk result (out.new.items ≡ out.old.items ++ end_of_container ∷ []) }
{
    out.push(END)?;
    Ok(())
}

/// A number under a context tag.
pub fn write_number(tag: u8, number: u64, out: &mut Vec<u8>) -> Result<(), AllocError>
    ensures { OnOk result (out.new.items ≡ out.old.items ++ narrow (Context tag) (uint number)) }
{
    write_unsigned(&Tag::Context(tag), number, out)
}

/// An endpoint under a context tag, where there is one.
pub fn write_endpoint(tag: u8, endpoint: Option<u16>, out: &mut Vec<u8>) -> Result<(), AllocError>
    ensures { OnOk result (out.new.items ≡ out.old.items ++ narrow_elements (optional_number tag endpoint none)) }
{
    match endpoint {
        Some(endpoint) => write_number(tag, endpoint as u64, out),
        None => Ok(()),
    }
}

/// A number under a context tag, where there is one.
pub fn write_optional(tag: u8, number: Option<u32>, out: &mut Vec<u8>) -> Result<(), AllocError>
    ensures { OnOk result (out.new.items ≡ out.old.items ++ narrow_elements (optional_number tag number none)) }
{
    match number {
        Some(number) => write_number(tag, number as u64, out),
        None => Ok(()),
    }
}

/// A truth value under a context tag.
pub fn write_bool(tag: u8, truth: bool, out: &mut Vec<u8>) -> Result<(), AllocError>
    ensures { OnOk result (out.new.items ≡ out.old.items ++ narrow (Context tag) (bool truth)) }
{
    open_field(tag, if truth { TRUE } else { FALSE }, out)
}

/// A truth value under a context tag, where it is true.
pub fn write_truth(tag: u8, truth: bool, out: &mut Vec<u8>) -> Result<(), AllocError>
    ensures { OnOk result (out.new.items ≡ out.old.items ++ narrow_elements (optional_truth tag truth none)) }
{
    if truth {
        write_bool(tag, true, out)
    } else {
        Ok(())
    }
}

/// The revision, and the end of the message.
pub fn end_message(out: &mut Vec<u8>) -> Result<(), AllocError>
    ensures { OnOk result (out.new.items ≡ out.old.items ++ (narrow_elements revision ++ end_of_container ∷ [])) }
{
    write_number(255, 1, out)?;
    close(out)
}
