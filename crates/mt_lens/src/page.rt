//! Text that grows, with the forms of numbers and bytes that all that is shown has. Whoever writes on a page need
//! not look whether memory sufficed: the page knows, and says so at its end.

ghost use Rattle.std.specs.Io.{StartsWith};
ghost use Rattle.std.specs.Prelude.{◌<◌, ◌≡◌, [], length, take, IfOk};

use itoa::Buffer;
use std::alloc::{AllocError, Global};
use std::marker::Model;

/// The colours of a terminal, by the codes that begin them.
#[derive(Clone, Copy)]
pub(crate) enum Colour {
    /// When, and who.
    Head,
    /// A message's name.
    Message,
    /// What was refused, or can't be shown.
    Refusal,
}

// How many bytes stand between two members in one line: a comma and a blank.
const SEPARATOR: usize = 2;

// As many as most lines are indented by.
const BLANKS: [u8; 48] = [b' '; 48];

/// The most bytes of a container that stand in one line.
const LONG: usize = 100;

/// How far the members of a container that takes lines are indented beyond it.
pub(crate) const STEP: usize = 2;

// A container whose members are shown.
#[derive(Clone, Copy)]
struct Opened {
    /// Where its bracket stands.
    begins: usize,
    /// How many members of others had begun.
    others: usize,
}

/// Text that grows. A contract sees the bytes that stand on the page.
pub struct Page {
    alloc: Global,
    bytes: Vec<u8>,
    colours: bool,
    /// Whether there was no memory for a part of the text.
    has_gap: bool,
    /// The containers that are open, the innermost last, and where the members of each begin.
    opened: Vec<Opened>,
    members: Vec<usize>,
}

impl Drop for Page {
    fn drop(self) {
        let Page {
            alloc: _,
            bytes: _,
            colours: _,
            has_gap: _,
            opened: _,
            members: _,
        } = self;
    }
}

impl Model for Page {
    ghost use Rattle.std.specs.Prelude.{List, ℕ};

    ghost Value = { List ℕ };

    ghost view = { λ page. page.bytes.items };
}

impl Page {
    /// A page with nothing on it. Only one that has colours shows them.
    pub fn new(alloc: Global, colours: bool) -> Page
        ensures empty { result ≡ [] }
    {
        blank(alloc, Vec::new(alloc), colours)
    }

    /// The whole text; an error where there was no memory for a part of it.
    pub fn whole(&self) -> Result<&[u8], AllocError>
        ensures all { IfOk result (λ text. text.now ≡ self.now) }
    {
        if self.has_gap {
            return Err(AllocError);
        }
        Ok(self.bytes.as_slice())
    }

    /// How many bytes of text there are.
    pub fn len(&self) -> usize
        ensures length { result ≡ length self.now }
    {
        self.bytes.len()
    }

    /// Forgets what stands behind a length.
    pub fn cut(&mut self, len: usize)
        ensures kept { self.new ≡ take len self.old }
    {
        self.bytes.truncate(len);
    }

    /// Adds the text of another page.
    pub(crate) fn append(&mut self, page: &Page)
        ensures kept { StartsWith self.new self.old }
    {
        if page.has_gap || self.bytes.extend_from_slice(page.bytes.as_slice()).is_err() {
            self.has_gap = true;
        }
    }

    /// A page with nothing on it and room for so many bytes, which has colours where this one has.
    pub(crate) fn fresh(&self, room: usize) -> Page {
        with_room(self.alloc, room, self.colours)
    }

    /// A page with nothing on it and room for so many bytes, which has no colours.
    pub(crate) fn plain(&self, room: usize) -> Page {
        with_room(self.alloc, room, false)
    }

    pub(crate) fn alloc(&self) -> Global {
        self.alloc
    }

    /// What stands on the page so far.
    pub(crate) fn bytes(&self) -> &[u8] {
        self.bytes.as_slice()
    }

    /// The last byte; 0 where there is none.
    pub(crate) fn last(&self) -> u8 {
        match self.bytes.as_slice() {
            [.., last] => *last,
            [] => 0,
        }
    }

    /// Notes that there was no memory for a part of the text.
    pub(crate) fn leave_gap(&mut self) {
        self.has_gap = true;
    }

    pub(crate) fn raw(&mut self, bytes: &[u8]) {
        if self.bytes.extend_from_slice(bytes).is_err() {
            self.has_gap = true;
        }
    }

    pub(crate) fn text(&mut self, text: &str) {
        self.raw(text.as_bytes());
    }

    pub(crate) fn byte(&mut self, byte: u8) {
        if self.bytes.push(byte).is_err() {
            self.has_gap = true;
        }
    }

    pub(crate) fn end_line(&mut self) {
        self.byte(b'\n');
    }

    pub(crate) fn blanks(&mut self, count: usize) {
        match BLANKS.get(..count) {
            Some(blanks) => self.raw(blanks),
            None => {
                for _ in 0..count {
                    self.byte(b' ');
                }
            }
        }
    }

    /// A number in decimal digits.
    pub(crate) fn number(&mut self, number: u64) {
        if number < 10 {
            return self.byte(b'0' + number as u8);
        }
        let mut buffer = Buffer::new();
        self.text(buffer.format(number));
    }

    pub(crate) fn signed(&mut self, number: i64) {
        if number < 0 {
            self.byte(b'-');
        }
        self.number(number.unsigned_abs());
    }

    /// Bytes in hex, two digits each.
    pub(crate) fn octets(&mut self, octets: &[u8]) {
        for octet in octets {
            self.byte(digit(*octet / 16));
            self.byte(digit(*octet % 16));
        }
    }

    /// An id in hex, without leading zeroes, as `0xfff1fc00`.
    pub(crate) fn id(&mut self, id: u32) {
        self.text("0x");
        let mut has_begun = false;
        for octet in id.to_be_bytes() {
            for value in [octet / 16, octet % 16] {
                has_begun = has_begun || value != 0;
                if has_begun {
                    self.byte(digit(value % 16));
                }
            }
        }
        if !has_begun {
            self.byte(b'0');
        }
    }

    /// A text in quotes, with what can't be printed as it would stand in a source.
    pub(crate) fn quoted(&mut self, text: &[u8]) {
        self.byte(b'"');
        if text.iter().any(|byte| is_escaped(*byte)) {
            self.escaped(text);
        } else {
            self.raw(text);
        }
        self.byte(b'"');
    }

    fn escaped(&mut self, text: &[u8]) {
        for byte in text {
            match *byte {
                b'"' => self.text("\\\""),
                b'\\' => self.text("\\\\"),
                b'\n' => self.text("\\n"),
                0..=31 | 127 => {
                    self.text("\\x");
                    self.octets(&[*byte]);
                }
                other => self.byte(other),
            }
        }
    }

    /// Opens a container, whose members follow.
    pub(crate) fn open_members(&mut self, bracket: u8) {
        let opened = Opened {
            begins: self.bytes.len(),
            others: self.members.len(),
        };
        self.byte(bracket);
        if self.opened.push(opened).is_err() {
            self.has_gap = true;
        }
    }

    /// Begins the next member of the innermost container.
    pub(crate) fn next_member(&mut self) {
        let others = match self.opened.last() {
            Some(opened) => opened.others,
            None => 0,
        };
        if self.members.len() > others {
            self.text(", ");
        }
        if self.members.push(self.bytes.len()).is_err() {
            self.has_gap = true;
        }
    }

    /// Closes the innermost container, which stands beside what is indented so far. One that is long gets a line a member.
    pub(crate) fn close_members(&mut self, bracket: u8, indent: usize) {
        let Some(opened) = self.opened.pop() else {
            return;
        };
        let end = self.bytes.len();
        self.byte(bracket);
        if end.saturating_sub(opened.begins) >= LONG && self.members.len() > opened.others {
            let lines = self.in_lines(opened, end, indent);
            self.bytes.truncate(opened.begins);
            self.append(&lines);
        }
        self.members.truncate(opened.others);
    }

    // A container with its members in lines of their own.
    fn in_lines(&self, opened: Opened, end: usize, indent: usize) -> Page {
        let mut lines = self.plain(end.saturating_sub(opened.begins).saturating_mul(2));
        let bytes = self.bytes.as_slice();
        lines.raw(
            bytes
                .get(opened.begins..opened.begins.saturating_add(1))
                .unwrap_or(&[]),
        );
        let mut begun = None;
        for next in self.members.get(opened.others..).unwrap_or(&[]) {
            lines.line(indent, bytes, begun, next.saturating_sub(SEPARATOR));
            begun = Some(*next);
        }
        lines.line(indent, bytes, begun, end);
        lines.end_line();
        lines.blanks(indent);
        lines.raw(bytes.get(end..).unwrap_or(&[]));
        lines
    }

    // A line for the member between two places, where one has begun.
    fn line(&mut self, indent: usize, bytes: &[u8], begun: Option<usize>, end: usize) {
        if let Some(begun) = begun {
            self.end_line();
            self.blanks(indent.saturating_add(STEP));
            self.raw(bytes.get(begun..end).unwrap_or(&[]));
        }
    }

    /// Begins a colour, where the page has colours.
    pub(crate) fn begin(&mut self, colour: Colour) {
        if !self.colours {
            return;
        }
        match colour {
            Colour::Head => self.text("\x1b[1m"),
            Colour::Message => self.text("\x1b[36m"),
            Colour::Refusal => self.text("\x1b[31m"),
        }
    }

    /// Ends the colour.
    pub(crate) fn end(&mut self) {
        if self.colours {
            self.text("\x1b[0m");
        }
    }
}

// A page with nothing on it; with no room where there is no memory for that.
fn with_room(alloc: Global, room: usize, colours: bool) -> Page {
    let bytes = match Vec::with_capacity(alloc, room) {
        Ok(bytes) => bytes,
        Err(_) => Vec::new(alloc),
    };
    blank(alloc, bytes, colours)
}

fn blank(alloc: Global, bytes: Vec<u8>, colours: bool) -> Page
    ensures { result ≡ bytes.items }
{
    Page {
        alloc,
        bytes,
        colours,
        has_gap: false,
        opened: Vec::new(alloc),
        members: Vec::new(alloc),
    }
}

// Whether a byte of a text can't stand in quotes as it is.
fn is_escaped(byte: u8) -> bool {
    byte < 32 || byte == 127 || byte == b'"' || byte == b'\\'
}

fn digit(value: u8) -> u8
    requires { value < 16 }
{
    if value < 10 {
        b'0' + value
    } else {
        b'a' - 10 + value
    }
}
