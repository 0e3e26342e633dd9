//! Values, as they are read part by part, and where each part stands. In which form they are shown is for whoever shows
//! them.

use crate::fronts::{ARRAY, Fronts, Unread, numbers_of};
use crate::page::STEP;
use crate::shapes::{Shape, unknown};
use mt_tlv::{Cursor, Part, Tag, Value, write};
use std::alloc::Global;

/// How many containers may be open inside each other: as many as the encoding lets.
const ROOM: u8 = 16;

/// Where a value is shown: what its structures are, the field in which it stands and of what, and how far
/// what stands beside it is indented.
#[derive(Clone, Copy)]
pub(crate) struct Where {
    pub shape: Shape,
    pub of: Shape,
    pub field: Option<u8>,
    pub indent: usize,
}

impl Where {
    /// Where a value stands that is no member of another.
    pub(crate) fn whole(shape: Shape, indent: usize) -> Where {
        Where {
            shape,
            of: unknown(),
            field: None,
            indent,
        }
    }

    // Where a member stands. One without a tag stands where its array does.
    fn member(self, tag: Tag) -> Where {
        let indent = self.indent.saturating_add(STEP);
        match tag {
            Tag::Context(field) => Where {
                shape: self.shape.inner(field),
                of: self.shape,
                field: Some(field),
                indent,
            },
            _ => Where { indent, ..self },
        }
    }
}

/// A form in which values are shown.
pub(crate) trait Shows {
    /// A value that has no members.
    fn show_leaf(&mut self, leaf: &Part<'_>, at: Where);

    /// The front of a container of this element type.
    fn begin_container(&mut self, kind: u8);

    /// The front of a member of such a container, whose fields have these names.
    fn begin_member(&mut self, kind: u8, tag: Tag, shape: Shape);

    fn end_member(&mut self, kind: u8);

    /// The end of the innermost container.
    fn end_container(&mut self, kind: u8, at: Where);

    /// From where memory is.
    fn memory(&self) -> Global;

    /// Notes that there was no memory for a part of what is shown.
    fn miss(&mut self);
}

/// A value, whose bytes these are. Most that have members are arrays of numbers, which are gone over as such.
pub(crate) fn show_value<S: Shows>(out: &mut S, bytes: &[u8], at: Where) -> Result<(), Unread> {
    if let Some(numbers) = numbers_of(bytes) {
        show_numbers(out, numbers, at);
        return Ok(());
    }
    let mut reading = Reading {
        cursor: Cursor::new(bytes),
        most: bytes.len(),
    };
    let value = reading.next()?;
    show_within(out, &mut reading, &value, at, ROOM)
}

/// A number under a context tag, as most values are.
pub(crate) fn show_number<S: Shows>(out: &mut S, number: u64, at: Where) {
    out.show_leaf(&Part::Scalar(Tag::Anonymous, Value::Uint(number)), at)
}

fn show_numbers<S: Shows>(out: &mut S, numbers: Fronts<'_>, at: Where) {
    let mut rest = numbers;
    let inner = at.member(Tag::Anonymous);
    out.begin_container(ARRAY);
    for _ in 0..numbers.len() {
        let Some(number) = rest.untagged() else {
            break;
        };
        out.begin_member(ARRAY, Tag::Anonymous, at.shape);
        show_number(out, number, inner);
        out.end_member(ARRAY);
    }
    out.end_container(ARRAY, at)
}

// A place among the parts of a value.
#[derive(Drop)]
struct Reading<'a> {
    cursor: Cursor<'a>,
    /// No more parts than that.
    most: usize,
}

impl<'a> Reading<'a> {
    fn next(&mut self) -> Result<Part<'a>, Unread> {
        match self.cursor.next() {
            Ok(Some(part)) => Ok(part),
            _ => Err(Unread),
        }
    }
}

fn show_within<S: Shows>(
    out: &mut S,
    reading: &mut Reading<'_>,
    value: &Part<'_>,
    at: Where,
    room: u8,
) -> Result<(), Unread> {
    let kind = match value {
        Part::Enter(_, kind) => *kind,
        leaf => {
            out.show_leaf(leaf, at);
            return Ok(());
        }
    };
    if room == 0 {
        return Err(Unread);
    }
    out.begin_container(kind);
    for _ in 0..reading.most {
        let member = reading.next()?;
        let Some(tag) = tag_of(&member) else {
            out.end_container(kind, at);
            return Ok(());
        };
        out.begin_member(kind, tag, at.shape);
        show_within(out, reading, &member, at.member(tag), room - 1)?;
        out.end_member(kind);
    }
    Err(Unread)
}

// The tag of a part; None at the end of a container.
fn tag_of(part: &Part<'_>) -> Option<Tag> {
    match part {
        Part::Scalar(tag, _) | Part::Text(tag, _) | Part::Octets(tag, _) | Part::Enter(tag, _) => {
            Some(*tag)
        }
        Part::Leave => None,
    }
}

/// A value that is there as a tree. One that can't be read again is shown by its bytes.
pub(crate) fn show_tree<S: Shows>(out: &mut S, tree: &Value, at: Where) {
    let mut bytes = Vec::new(out.memory());
    if write(&Tag::Anonymous, tree, &mut bytes).is_err() {
        return out.miss();
    }
    if show_value(out, bytes.as_slice(), at).is_err() {
        out.show_leaf(&Part::Octets(Tag::Anonymous, bytes.as_slice()), at)
    }
}
