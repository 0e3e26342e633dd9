//! What stands in front of an attribute's value: made on the stack, and appended at once. Each append asks for
//! room and copies, which for a few bytes is most of the work.

ghost use Rattle.std.specs.Prelude.{◌≡◌, ◌≤◌, ◌<◌, ◌+◌, ◌++◌, [], ◌∷◌, OnOk};
ghost use Rattle.mt_tlv.specs.declared.value.Tag.TheVariants.{Context};
ghost use Rattle.mt_tlv.specs.Narrow.{narrow, narrow_elements, opening, length_and_value};
ghost use Rattle.mt_tlv.specs.Tree.{uint, none};
ghost use Rattle.mt_model.specs.messages.Blocks.{optional_number, path_tree, index_field};
ghost use Rattle.mt_im_out.specs.Fronts.{written_in, front_of};

use crate::fields::{CONTEXT, END, LIST, NULL, STRUCTURE};
use mt_model::{Index, Path};
use std::alloc::AllocError;

// The most bytes of a number of 32 bits under a context tag.
const NUMBER: usize = 6;

// The most bytes of a path's body: its numbers, and its end.
const PATH: usize = 4 * NUMBER + 1;

// The most bytes in front of a value: those that open two structures, the version, those that open the
// path, and its body.
const ROOM: usize = 3 + NUMBER + 2 + PATH;

// The element types of unsigned numbers, by their width.
const ONE_BYTE: u8 = 0x04;

const TWO_BYTES: u8 = 0x05;

const FOUR_BYTES: u8 = 0x06;

/// Bytes as they are made. The first `len` are written.
#[derive(Drop)]
pub struct Front {
    bytes: [u8; ROOM],
    len: usize,
}

impl Front {
    fn new() -> Self
        ensures written { written_in result ≡ [] }
        ensures length { result.len ≡ 0 }
    {
        Front {
            bytes: [0; ROOM],
            len: 0,
        }
    }

    fn push(&mut self, byte: u8)
        requires { self.old.len < ROOM }
        ensures written { written_in self.new ≡ written_in self.old ++ byte ∷ [] }
        ensures length { self.new.len ≡ self.old.len + 1 }
    {
        self.bytes[self.len] = byte;
        self.len += 1;
    }

    // A number under a context tag, in its least width.
    fn put_number(&mut self, tag: u8, number: u32)
        requires { self.old.len + NUMBER ≤ ROOM }
        ensures written { written_in self.new ≡ written_in self.old ++ narrow (Context tag) (uint number) }
        ensures length { self.new.len ≤ self.old.len + NUMBER }
    {
        let [a, b, c, d] = number.to_le_bytes();
        if number < 0x100 {
            self.push(CONTEXT + ONE_BYTE);
            self.push(tag);
            self.push(a);
        } else if number < 0x1_0000 {
            self.push(CONTEXT + TWO_BYTES);
            self.push(tag);
            self.push(a);
            self.push(b);
        } else {
            self.push(CONTEXT + FOUR_BYTES);
            self.push(tag);
            self.push(a);
            self.push(b);
            self.push(c);
            self.push(d);
        }
    }

    // A number under a context tag, where there is one.
    fn put_optional(&mut self, tag: u8, number: Option<u32>)
        requires { self.old.len + NUMBER ≤ ROOM }
        ensures written { written_in self.new ≡ written_in self.old ++ narrow_elements (optional_number tag number none) }
        ensures length { self.new.len ≤ self.old.len + NUMBER }
    {
        match number {
            Some(number) => self.put_number(tag, number),
            None => {}
        }
    }

    // An endpoint under a context tag, where there is one.
    fn put_endpoint(&mut self, tag: u8, endpoint: Option<u16>)
        requires { self.old.len + NUMBER ≤ ROOM }
        ensures written { written_in self.new ≡ written_in self.old ++ narrow_elements (optional_number tag endpoint none) }
        ensures length { self.new.len ≤ self.old.len + NUMBER }
    {
        match endpoint {
            Some(endpoint) => self.put_number(tag, endpoint as u32),
            None => {}
        }
    }

    // The list index of a path.
    fn put_index(&mut self, index: Index)
        requires { self.old.len + NUMBER ≤ ROOM }
        ensures written { written_in self.new ≡ written_in self.old ++ narrow_elements (index_field index) }
        ensures length { self.new.len ≤ self.old.len + NUMBER }
    {
        match index {
            Index::Whole => {}
            Index::Append => {
                self.push(CONTEXT + NULL);
                self.push(5);
            }
            Index::At(number) => self.put_number(5, number as u32),
        }
    }

    // The body of an AttributePath.
    #[tactic(auto, using(crate::proofs::Tails::path_fields))]
    fn put_path(&mut self, path: &Path)
        requires { self.old.len + PATH ≤ ROOM }
        ensures written { written_in self.new ≡ written_in self.old ++ length_and_value (path_tree path.now) }
        ensures length { self.new.len ≤ self.old.len + PATH }
    {
        self.put_endpoint(2, path.endpoint);
        self.put_optional(3, path.cluster);
        self.put_optional(4, path.leaf);
        self.put_index(path.index);
        self.push(END);
    }

    // Opens a container under a context tag.
    fn open_field(&mut self, tag: u8, container: u8)
        requires container { container < 32 }
        requires room { self.old.len + 2 ≤ ROOM }
        ensures written { written_in self.new ≡ written_in self.old ++ opening (Context tag) container }
        ensures length { self.new.len ≡ self.old.len + 2 }
    {
        self.push(CONTEXT + container);
        self.push(tag);
    }

    /// The body of an AttributePath.
    pub fn of_path(path: &Path) -> Self
        ensures written { written_in result ≡ length_and_value (path_tree path.now) }
        ensures room { result.len ≤ ROOM }
    {
        let mut front = Front::new();
        front.put_path(path);
        front
    }

    /// What stands in front of the value of an attribute's data.
    pub fn of_data(path: &Path, version: u32) -> Self
        ensures written { written_in result ≡ front_of path.now version }
        ensures room { result.len ≤ ROOM }
    {
        let mut front = Front::new();
        front.push(STRUCTURE);
        front.open_field(1, STRUCTURE);
        front.put_number(0, version);
        front.open_field(1, LIST);
        front.put_path(path);
        front
    }

    /// Appends what is written.
    pub fn append_to(&self, out: &mut Vec<u8>) -> Result<(), AllocError>
        requires { self.now.len ≤ ROOM }
        ensures { OnOk result (out.new.items ≡ out.old.items ++ written_in self.now) }
    {
        out.extend_from_slice(&self.bytes[..self.len])
    }
}
