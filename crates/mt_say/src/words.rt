//! The words of a line, read from left to right.

ghost use Rattle.std.specs.Prelude.{◌≤◌, length};

use crate::fault::{Misfit, Wanted};

/// What is left of a line.
#[derive(Clone, Copy)]
pub(crate) struct Words<'a> {
    rest: &'a [u8],
    // How many bytes the line has.
    whole: usize,
}

impl<'a> Words<'a> {
    /// The words of a line.
    pub(crate) fn new(line: &'a [u8]) -> Words<'a> {
        Words {
            rest: line,
            whole: line.len(),
        }
    }

    /// No line has more parts than that.
    pub(crate) fn most(&self) -> usize {
        self.whole
    }

    /// The byte at which the next part stands, from 1.
    pub(crate) fn column(&mut self) -> u64 {
        self.pass_blanks();
        let passed = self.whole.saturating_sub(self.rest.len());
        (passed as u64).saturating_add(1)
    }

    /// That what stands next does not fit.
    pub(crate) fn misfit(&mut self, wanted: Wanted) -> Misfit {
        Misfit::At {
            column: self.column(),
            wanted,
        }
    }

    /// Whether nothing is left but a comment.
    pub(crate) fn is_done(&mut self) -> bool {
        self.pass_blanks();
        match self.rest.first() {
            Some(byte) => *byte == b'#',
            None => true,
        }
    }

    /// The next word; no bytes where none stands next.
    pub(crate) fn peek(&mut self) -> &'a [u8] {
        self.pass_blanks();
        let length = word_length(self.rest);
        let (word, _) = self.rest.split_at(length);
        word
    }

    /// The next word, which is passed.
    pub(crate) fn next(&mut self) -> &'a [u8] {
        self.pass_blanks();
        let length = word_length(self.rest);
        let (word, behind) = self.rest.split_at(length);
        self.rest = behind;
        word
    }

    /// Passes this word, where it is next.
    pub(crate) fn take(&mut self, word: &[u8]) -> bool {
        let mut behind = *self;
        if behind.next() == word {
            *self = behind;
            true
        } else {
            false
        }
    }

    /// Passes this mark, where it is next.
    pub(crate) fn take_mark(&mut self, mark: u8) -> bool {
        self.pass_blanks();
        match self.rest.split_first() {
            Some((byte, behind)) if *byte == mark => {
                self.rest = behind;
                true
            }
            _ => false,
        }
    }

    /// Whether this mark is next.
    pub(crate) fn is_mark(&mut self, mark: u8) -> bool {
        self.pass_blanks();
        match self.rest.first() {
            Some(byte) => *byte == mark,
            None => false,
        }
    }

    /// Passes this word, which must be next.
    pub(crate) fn want(
        &mut self,
        word: &[u8],
        words: &'static [&'static str],
    ) -> Result<(), Misfit> {
        if self.take(word) {
            Ok(())
        } else {
            Err(self.misfit(Wanted::Words(words)))
        }
    }

    /// The next byte as it stands, a blank too, which is passed.
    pub(crate) fn byte(&mut self) -> Option<u8> {
        match self.rest.split_first() {
            Some((byte, behind)) => {
                self.rest = behind;
                Some(*byte)
            }
            None => None,
        }
    }

    fn pass_blanks(&mut self) {
        let blanks = blanks(self.rest);
        let (_, behind) = self.rest.split_at(blanks);
        self.rest = behind;
    }
}

// How many blanks are in front. A carriage return is one, so that a text with ends of lines of two bytes is read.
fn blanks(bytes: &[u8]) -> usize
    ensures { result ≤ length bytes.now }
{
    match bytes.iter().position(|byte| !is_blank(*byte)) {
        Some(place) => place,
        None => bytes.len(),
    }
}

fn is_blank(byte: u8) -> bool {
    byte == b' ' || byte == b'\t' || byte == b'\r'
}

// How many bytes the word in front has.
fn word_length(bytes: &[u8]) -> usize
    ensures { result ≤ length bytes.now }
{
    match bytes.iter().position(|byte| ends_word(*byte)) {
        Some(place) => place,
        None => bytes.len(),
    }
}

fn ends_word(byte: u8) -> bool {
    match byte {
        b'{' | b'}' | b'[' | b']' | b':' | b',' | b'"' | b'#' => true,
        _ => is_blank(byte),
    }
}
