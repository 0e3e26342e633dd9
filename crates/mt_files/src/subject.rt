//! Who asks: a node id and its CATs (Matter Core Specification, section 2.5.5, Node Identifier).

ghost use Rattle.std.specs.Prelude.{◌≡◌, ◌++◌, ◌∷◌, [], OnOk};
ghost use Rattle.std.specs.Io.{StartsWith};
ghost use Rattle.mt_files.specs.Lines.{parts_of};
ghost use Rattle.mt_files.specs.Subject.{cat_in, cat_text, cats_in, node_in, subject_in, subject_text};

use crate::lines::cut;
use crate::writing::push_hex;
use std::alloc::AllocError;

/// A node that asks, with its CATs; 0 stands for a CAT that is not there.
#[derive(Clone, Copy)]
pub struct Subject {
    pub node: u64,
    pub cats: [u32; 3],
}

/// A node id, then up to three CATs, each behind a `+`.
pub fn read_subject(text: &[u8]) -> Option<Subject>
    ensures { result ≡ subject_in text.now }
{
    match cut(b'+', text) {
        Some((first, rest)) => match (node(first), cats(rest)) {
            (Some(node), Some(cats)) => Some(Subject { node, cats }),
            _ => None,
        },
        None => match node(text) {
            Some(node) => Some(Subject { node, cats: [0; 3] }),
            None => None,
        },
    }
}

// A node id in 16 hex digits.
fn node(text: &[u8]) -> Option<u64>
    ensures { result ≡ node_in text.now }
{
    let mut bytes = [0; 8];
    match hex::decode_to_slice(text, &mut bytes) {
        Ok(()) => Some(u64::from_be_bytes(bytes)),
        Err(_) => None,
    }
}

// One to three CATs, between which a `+` stands.
fn cats(text: &[u8]) -> Option<[u32; 3]>
    ensures { result ≡ cats_in (parts_of 43 text.now) }
{
    let Some((first, rest)) = cut(b'+', text) else {
        return Some([cat(text)?, 0, 0]);
    };
    let Some((second, third)) = cut(b'+', rest) else {
        return Some([cat(first)?, cat(rest)?, 0]);
    };
    match cut(b'+', third) {
        Some(_) => None,
        None => Some([cat(first)?, cat(second)?, cat(third)?]),
    }
}

// A CAT in 8 hex digits, the last four of which, its version, are not 0.
fn cat(text: &[u8]) -> Option<u32>
    ensures { result ≡ cat_in text.now }
{
    let mut bytes = [0; 4];
    match hex::decode_to_slice(text, &mut bytes) {
        Ok(()) => {
            let cat = u32::from_be_bytes(bytes);
            if cat % 0x1_0000 == 0 { None } else { Some(cat) }
        }
        Err(_) => None,
    }
}

/// Appends a node id and the CATs that are not 0, each behind a `+`, in lower case hex, and a space.
pub fn push_subject(node: u64, cats: [u32; 3], out: &mut Vec<u8>) -> Result<(), AllocError>
    ensures written { OnOk result (out.new.items ≡ out.old.items ++ (subject_text node cats ++ 32 ∷ [])) }
    ensures kept { StartsWith out.new.items out.old.items }
{
    push_hex(node.to_be_bytes().as_slice(), out)?;
    for cat in &cats {
        push_cat(*cat, out)?;
    }
    out.push(b' ')?;
    Ok(())
}

// A CAT behind its `+`, and nothing for 0.
fn push_cat(cat: u32, out: &mut Vec<u8>) -> Result<(), AllocError>
    ensures written { OnOk result (out.new.items ≡ out.old.items ++ cat_text cat) }
    ensures kept { StartsWith out.new.items out.old.items }
{
    if cat == 0 {
        return Ok(());
    }
    out.push(b'+')?;
    push_hex(cat.to_be_bytes().as_slice(), out)
}
