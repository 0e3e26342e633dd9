//! What stands at the front of a payload (Matter Core Specification, Appendix A), gone over in the order in which the
//! node writes it. It takes no memory.

ghost use Rattle.std.specs.Prelude.{◌≤◌, IfOk};

use mt_model::{Index, Path};

/// The element types of containers.
pub(crate) const STRUCTURE: u8 = 0x15;

pub(crate) const ARRAY: u8 = 0x16;

pub(crate) const LIST: u8 = 0x17;

/// The element type that ends a container.
pub(crate) const END: u8 = 0x18;

/// The element types of the truth values, which are whole with their tag.
pub(crate) const FALSE: u8 = 0x08;

pub(crate) const TRUE: u8 = 0x09;

/// The bits of a control octet whose tag is a context tag of one byte.
pub(crate) const FIELD: u8 = 0x20;

// The bits of a control octet that name its tag's form.
const TAG_FORM: u8 = 0xe0;

/// The field that each message ends with.
pub(crate) const REVISION: u8 = 255;

/// What is looked for does not stand there.
#[derive(Clone, Copy)]
pub(crate) struct Unread;

/// With what something is answered that has no data.
#[derive(Clone, Copy)]
pub(crate) struct Refusal {
    /// The status.
    pub code: u8,
    /// The reason for it, where the cluster gives one, as a code of its own.
    pub reason: Option<u8>,
}

/// A place in a payload.
#[derive(Clone, Copy)]
pub(crate) struct Fronts<'a> {
    rest: &'a [u8],
}

impl<'a> Fronts<'a> {
    pub(crate) fn new(payload: &'a [u8]) -> Fronts<'a> {
        Fronts { rest: payload }
    }

    /// How many bytes follow.
    pub(crate) fn len(&self) -> usize {
        self.rest.len()
    }

    /// Whether what follows ends with these bytes.
    pub(crate) fn ends_with(&self, end: &[u8]) -> bool {
        self.rest.ends_with(end)
    }

    /// Goes over these bytes. False where others stand there, and then it stays.
    pub(crate) fn passes(&mut self, front: &[u8]) -> bool {
        match self.rest.strip_prefix(front) {
            Some(rest) => {
                self.rest = rest;
                true
            }
            None => false,
        }
    }

    pub(crate) fn pass(&mut self, front: &[u8]) -> Result<(), Unread> {
        if self.passes(front) {
            return Ok(());
        }
        Err(Unread)
    }

    /// The revision, the end of the message, and nothing behind it.
    pub(crate) fn close(&mut self) -> Result<(), Unread> {
        self.number(REVISION)?;
        self.pass(&[END])?;
        if self.rest.is_empty() {
            return Ok(());
        }
        Err(Unread)
    }

    /// A number under a context tag.
    pub(crate) fn number(&mut self, field: u8) -> Result<u64, Unread> {
        let [control, met, body @ ..] = self.rest else {
            return Err(Unread);
        };
        if *control & TAG_FORM != FIELD || *met != field {
            return Err(Unread);
        }
        let (number, rest) = number_at(*control & !TAG_FORM, body).ok_or(Unread)?;
        self.rest = rest;
        Ok(number)
    }

    /// A number without a tag; None where there is none.
    pub(crate) fn untagged(&mut self) -> Option<u64> {
        let (control, body) = self.rest.split_first()?;
        let (number, rest) = number_at(*control, body)?;
        self.rest = rest;
        Some(number)
    }

    /// A number of 8 bits.
    pub(crate) fn octet(&mut self, field: u8) -> Result<u8, Unread> {
        Ok(self.number_up_to(u8::MAX as u64, field)? as u8)
    }

    /// A number of 16 bits.
    pub(crate) fn short(&mut self, field: u8) -> Result<u16, Unread> {
        Ok(self.number_up_to(u16::MAX as u64, field)? as u16)
    }

    /// A number of 32 bits.
    pub(crate) fn word(&mut self, field: u8) -> Result<u32, Unread> {
        Ok(self.number_up_to(u32::MAX as u64, field)? as u32)
    }

    // A number that is no greater. Where another stands there, it stays.
    fn number_up_to(&mut self, most: u64, field: u8) -> Result<u64, Unread>
        ensures { IfOk result (λ number. number ≤ most) }
    {
        let mut behind = *self;
        let number = behind.number(field)?;
        if number > most {
            return Err(Unread);
        }
        *self = behind;
        Ok(number)
    }

    /// A status under the context tag 1: its code (0), and the code of the cluster, where there is one (1).
    pub(crate) fn refusal(&mut self) -> Result<Refusal, Unread> {
        self.pass(&[FIELD + STRUCTURE, 1])?;
        let refusal = Refusal {
            code: self.octet(0)?,
            reason: self.octet(1).ok(),
        };
        self.pass(&[END])?;
        Ok(refusal)
    }

    /// A path under a context tag, whose fields are numbered from `first` on: endpoint, cluster, what of it, item of a list.
    pub(crate) fn path(&mut self, field: u8, first: u8) -> Result<Path, Unread> {
        self.pass(&[FIELD + LIST, field])?;
        let path = Path {
            endpoint: self.short(first).ok(),
            cluster: self.word(first.wrapping_add(1)).ok(),
            leaf: self.word(first.wrapping_add(2)).ok(),
            index: self.index(first.wrapping_add(3)),
        };
        self.pass(&[END])?;
        Ok(path)
    }

    fn index(&mut self, field: u8) -> Index {
        if self.passes(&[FIELD + NULL, field]) {
            return Index::Append;
        }
        match self.short(field) {
            Ok(number) => Index::At(number),
            Err(Unread) => Index::Whole,
        }
    }

    /// The bytes of a value under a context tag.
    pub(crate) fn value(&mut self, field: u8) -> Result<&'a [u8], Unread> {
        let (control, behind) = self.rest.split_first().ok_or(Unread)?;
        let met = behind.first().ok_or(Unread)?;
        if *control & TAG_FORM != FIELD || *met != field {
            return Err(Unread);
        }
        let rest = behind_element(self.rest).ok_or(Unread)?;
        let (value, rest) = self
            .rest
            .split_at(self.rest.len().saturating_sub(rest.len()));
        self.rest = rest;
        Ok(value)
    }
}

/// Whether a value is a container.
pub(crate) fn has_members(value: &[u8]) -> bool {
    match value.first() {
        Some(control) => {
            let kind = *control & !TAG_FORM;
            kind == STRUCTURE || kind == ARRAY || kind == LIST
        }
        None => false,
    }
}

/// The items of an array that has numbers alone, under a context tag; None where a value is none.
pub(crate) fn numbers_of(value: &[u8]) -> Option<Fronts<'_>> {
    let [control, _, items @ ..] = value else {
        return None;
    };
    if *control != FIELD + ARRAY {
        return None;
    }
    let mut fronts = Fronts::new(items);
    for _ in 0..items.len() {
        if fronts.untagged().is_none() {
            break;
        }
    }
    match fronts.rest {
        [END] => Some(Fronts::new(items)),
        _ => None,
    }
}

// The element type of null.
const NULL: u8 = 0x14;

// The number of an element type, at the front of bytes, and what follows.
fn number_at(kind: u8, bytes: &[u8]) -> Option<(u64, &[u8])> {
    match (kind, bytes) {
        (4, [a, rest @ ..]) => Some((*a as u64, rest)),
        (5, [a, b, rest @ ..]) => Some((u16::from_le_bytes([*a, *b]) as u64, rest)),
        (6, [a, b, c, d, rest @ ..]) => {
            Some((u32::from_le_bytes([*a, *b, *c, *d]) as u64, rest))
        }
        (7, [a, b, c, d, e, f, g, h, rest @ ..]) => {
            Some((u64::from_le_bytes([*a, *b, *c, *d, *e, *f, *g, *h]), rest))
        }
        _ => None,
    }
}

// What follows the first element of some bytes, with all that stands in it.
fn behind_element(bytes: &[u8]) -> Option<&[u8]> {
    let mut rest = bytes;
    let mut open = 0usize;
    for _ in 0..bytes.len() {
        let (control, behind) = rest.split_first()?;
        let kind = *control & !TAG_FORM;
        if *control == END {
            open = open.saturating_sub(1);
            rest = behind;
        } else {
            rest = behind_part(*control, behind)?;
            if kind == STRUCTURE || kind == ARRAY || kind == LIST {
                open = open.saturating_add(1);
            }
        }
        if open == 0 {
            return Some(rest);
        }
    }
    None
}

// What follows the tag and the body of the part that begins with a control octet.
fn behind_part(control: u8, bytes: &[u8]) -> Option<&[u8]> {
    let tag = match control >> 5 {
        0 => 0,
        1 => 1,
        2 | 4 => 2,
        3 | 5 => 4,
        6 => 6,
        _ => 8,
    };
    let body = bytes.get(tag..)?;
    match control & !TAG_FORM {
        0 | 4 => body.get(1..),
        1 | 5 => body.get(2..),
        2 | 6 | 10 => body.get(4..),
        3 | 7 | 11 => body.get(8..),
        8 | 9 | NULL | STRUCTURE | ARRAY | LIST => Some(body),
        12 | 16 => {
            let (length, string) = body.split_first()?;
            string.get(*length as usize..)
        }
        13 | 17 => match body {
            [low, high, string @ ..] => string.get(u16::from_le_bytes([*low, *high]) as usize..),
            _ => None,
        },
        _ => None,
    }
}
