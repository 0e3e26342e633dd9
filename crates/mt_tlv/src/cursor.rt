//! The parts of an element, one after the other, in no memory.

ghost use Rattle.std.specs.Prelude.{◌≡◌, ◌<◌, ◌≤◌, ◌^◌, take, IfOk, IsSome, is_none, reverse, ◌&&◌};
ghost use Rattle.mt_tlv.specs.Reading.{Exactly};
ghost use Rattle.mt_tlv.specs.Parts.{GivesNext, CanStep, start, innermost, kinds_after, piece, fits, enter_at, part_at, piece_in};

use crate::fault::TlvFault;
use crate::reading::{
    Kind, at_end, kind_of, read_head, read_scalar, read_string, read_text, take_piece,
};
use crate::value::{Tag, Value};
use std::marker::Model;

/// A part of an element, with parts of the input in it.
#[derive(Drop)]
pub enum Part<'a> {
    /// A number, a truth value, a float by its bits, or null.
    Scalar(Tag, Value),
    Text(Tag, &'a str),
    Octets(Tag, &'a [u8]),
    /// The front of a container, with its element type: 0x15 a structure, 0x16 an array, 0x17 a
    /// list. Its members follow, and then `Leave`.
    Enter(Tag, u8),
    /// The end of the innermost open container.
    Leave,
}

/// A place among the parts of the first element of some bytes. It takes no memory, and keeps no
/// tags: it does not tell of a tag that a structure has twice.
#[derive(Drop)]
pub struct Cursor<'a> {
    whole: usize,
    rest: &'a [u8],
    kinds: [Kind; 16],
    depth: usize,
    begun: bool,
    fault: Option<TlvFault>,
}

impl<'a> Model for Cursor<'a> {
    ghost use Rattle.std.specs.Prelude.{◌≤◌, ◌<◌, ◌^◌, reverse, take, length};
    ghost use Rattle.mt_tlv.specs.Parts.{Place};

    ghost Value = { Place };

    ghost view = { λ c. record { whole = c.whole; rest = c.rest.now; open_kinds = reverse (take c.depth c.kinds); begun = c.begun; fault = c.fault } };

    ghost invariant = { λ c. (c.depth ≤ 16) × (c.whole < 2 ^ 63) };
}

impl<'a> Cursor<'a> {
    /// In front of the first part.
    pub fn new(bytes: &'a [u8]) -> Self
        ensures { result ≡ start bytes.now }
    {
        Cursor {
            whole: bytes.len(),
            rest: bytes,
            kinds: [Kind::List; 16],
            depth: 0,
            begun: false,
            fault: None,
        }
    }

    /// The next part, and None behind the last, where no container is open. A fault is the one that
    /// `read` meets there, equal tags aside, and is answered again from then on.
    pub fn next(&mut self) -> Result<Option<Part<'a>>, TlvFault>
        ensures { GivesNext result self.old self.new }
    {
        if let Some(fault) = self.fault {
            return Err(fault);
        }
        let innermost = innermost_of(&self.kinds, self.depth);
        if ended(self.begun, innermost) {
            return Ok(None);
        }
        match read_piece(self.whole, innermost, self.depth, self.rest) {
            Err(fault) => {
                self.fault = Some(fault);
                Err(fault)
            }
            Ok((part, rest)) => {
                self.depth = step(&mut self.kinds, self.depth, &part);
                self.rest = rest;
                self.begun = true;
                Ok(Some(part))
            }
        }
    }
}

fn ended(begun: bool, innermost: Option<Kind>) -> bool
    ensures { result ≡ (begun && is_none innermost) }
{
    begun && innermost.is_none()
}

// The kind of the innermost open container.
fn innermost_of(kinds: &[Kind; 16], depth: usize) -> Option<Kind>
    requires { depth ≤ 16 }
    ensures value { result ≡ innermost (reverse (take depth kinds.now)) }
    ensures some { IsSome result → 0 < depth }
{
    if depth == 0 {
        None
    } else {
        Some(kinds[depth - 1])
    }
}

// Opens or closes a container behind a part, and answers how many are open.
fn step(kinds: &mut [Kind; 16], depth: usize, part: &Part<'_>) -> usize
    requires depth { depth ≤ 16 }
    requires can { CanStep (piece part.now) depth }
    ensures kinds { reverse (take result kinds.new) ≡ kinds_after (piece part.now) (reverse (take depth kinds.old)) }
    ensures small { result ≤ 16 }
{
    match part {
        Part::Enter(_, element_type) => {
            kinds[depth] = kind_of(*element_type);
            depth + 1
        }
        Part::Leave => depth - 1,
        _ => depth,
    }
}

#[tactic(auto, unfolding(crate::specs::Parts::piece_in))]
fn read_piece<'a>(
    whole: usize,
    innermost: Option<Kind>,
    depth: usize,
    bytes: &'a [u8],
) -> Result<(Part<'a>, &'a [u8]), TlvFault>
    requires whole { whole < 2 ^ 63 }
    requires depth { IsSome innermost → 0 < depth }
    ensures gives { Exactly (λ x. (piece x.0, x.1.now)) result (piece_in whole innermost depth bytes.now) }
    ensures can { IfOk result (λ x. CanStep (piece x.0) depth) }
{
    if innermost.is_some() && at_end(bytes) {
        let (_, rest) = take_piece(whole, 1, bytes)?;
        return Ok((Part::Leave, rest));
    }
    let (head, rest) = read_head(bytes)?;
    tag_fits(innermost, head.tag)?;
    read_part(whole, depth, head.element_type, head.tag, rest)
}

// Whether the innermost container may have a member with the tag, others aside.
fn tag_fits(innermost: Option<Kind>, tag: Tag) -> Result<(), TlvFault>
    ensures { Exactly (λ _. tt) result (fits innermost tag) }
{
    match (innermost, tag) {
        (Some(Kind::Struct), Tag::Anonymous) => Err(TlvFault::TagForm),
        (Some(Kind::Array), Tag::Anonymous) => Ok(()),
        (Some(Kind::Array), _) => Err(TlvFault::TagForm),
        _ => Ok(()),
    }
}

#[tactic(auto, unfolding(crate::specs::Parts::part_at))]
fn read_part<'a>(
    whole: usize,
    depth: usize,
    element_type: u8,
    tag: Tag,
    bytes: &'a [u8],
) -> Result<(Part<'a>, &'a [u8]), TlvFault>
    requires { whole < 2 ^ 63 }
    ensures gives { Exactly (λ x. (piece x.0, x.1.now)) result (part_at whole depth element_type tag bytes.now) }
    ensures can { IfOk result (λ x. CanStep (piece x.0) depth) }
{
    if element_type < 12 || element_type == 20 {
        let (value, rest) = read_scalar(whole, element_type, bytes)?;
        return Ok((Part::Scalar(tag, value), rest));
    }
    if element_type < 16 {
        let (text, rest) = read_text(whole, element_type, bytes)?;
        return Ok((Part::Text(tag, text), rest));
    }
    if element_type < 20 {
        let (octets, rest) = read_string(whole, element_type, bytes)?;
        return Ok((Part::Octets(tag, octets), rest));
    }
    read_enter(whole, depth, element_type, tag, bytes)
}

fn read_enter<'a>(
    whole: usize,
    depth: usize,
    element_type: u8,
    tag: Tag,
    bytes: &'a [u8],
) -> Result<(Part<'a>, &'a [u8]), TlvFault>
    requires { whole < 2 ^ 63 }
    ensures gives { Exactly (λ x. (piece x.0, x.1.now)) result (enter_at whole depth element_type tag bytes.now) }
    ensures can { IfOk result (λ x. CanStep (piece x.0) depth) }
{
    if depth >= 16 {
        return Err(TlvFault::TooDeep);
    }
    let (_, rest) = take_piece(whole, 0, bytes)?;
    Ok((Part::Enter(tag, element_type), rest))
}
