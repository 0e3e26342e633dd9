//! A page: text that grows and is printed once. What adds to it need not look whether memory sufficed: the page knows,
//! and says so at its end.

ghost use Rattle.std.specs.Prelude.{◌≡◌, [], ◌∷◌, ◌++◌, List, ℕ, false, true, Some, IfOk, IsErr, ◌↔◌};
ghost use Rattle.std.specs.Fmt.{decimal, digits};
ghost use Rattle.std.specs.Str.Lossy.{utf8_lossy};
ghost use Rattle.hex.specs.Hex.{encode_lower};
ghost use Rattle.cases_page.specs.Page.{Adds};

use std::alloc::{AllocError, Global};
use std::fmt::{Debug, Display};
use std::marker::Model;

/// Text that grows. A contract sees its bytes, and whether there was no memory for a part of it.
pub struct Page {
    alloc: Global,
    text: String,
    has_gap: bool,
}

impl Drop for Page {
    fn drop(self) {
        let Page {
            alloc: _,
            text: _,
            has_gap: _,
        } = self;
    }
}

impl Model for Page {
    ghost use Rattle.std.specs.Prelude.{string_bytes};
    ghost use Rattle.cases_page.specs.Page.{PageState};

    ghost Value = { PageState };

    ghost view = { λ page. record {
      text = string_bytes page.text;
      has_gap = page.has_gap;
    } };
}

impl Page {
    /// A page with nothing on it.
    pub fn new(alloc: Global) -> Page
        ensures text { result.text ≡ [] }
        ensures gap { result.has_gap ≡ false }
    {
        Page {
            alloc,
            text: String::new(alloc),
            has_gap: false,
        }
    }

    /// The whole text; an error where there was no memory for a part of it.
    pub fn whole(&self) -> Result<&str, AllocError>
        ensures text { IfOk result (λ text. text.now ≡ self.now.text) }
        ensures gap { IsErr result ↔ (self.now.has_gap ≡ true) }
    {
        if self.has_gap {
            return Err(AllocError);
        }
        Ok(self.text.as_str())
    }

    /// Notes that there was no memory for a part of the text.
    pub fn leave_gap(&mut self)
        ensures gap { self.new.has_gap ≡ true }
    {
        self.has_gap = true;
    }

    /// Adds a text.
    pub fn add(&mut self, text: &str)
        ensures added { Adds self.old text.now self.new }
    {
        if self.text.push_str(text).is_err() {
            self.has_gap = true;
        }
    }

    /// Adds a line's end.
    pub fn end_line(&mut self)
        ensures added { Adds self.old (10 ∷ []) self.new }
    {
        self.add("\n");
    }

    /// Adds a text and a line's end.
    pub fn line(&mut self, text: &str)
        ensures added { Adds self.old (text.now ++ 10 ∷ []) self.new }
    {
        self.add(text);
        self.end_line();
    }

    /// Adds a number in decimal digits.
    pub fn add_number(&mut self, number: u64)
        ensures added { Adds self.old (decimal number) self.new }
    {
        if write!(self.text, "{number}").is_err() {
            self.has_gap = true;
        }
    }

    /// Adds a number in hex digits, without leading zeroes.
    pub fn add_id(&mut self, number: u64)
        ensures added { Adds self.old (digits 16 false number) self.new }
    {
        if write!(self.text, "{number:x}").is_err() {
            self.has_gap = true;
        }
    }

    /// Adds bytes in hex, two digits each.
    pub fn add_hex(&mut self, bytes: &[u8])
        ensures added { Adds self.old (encode_lower bytes.now) self.new }
    {
        match hex::encode(self.alloc, bytes) {
            Ok(text) => self.add(text.as_str()),
            Err(_) => self.has_gap = true,
        }
    }

    /// Adds bytes that are meant as text, with a mark in the place of each that is none.
    pub fn add_lossy(&mut self, bytes: &[u8])
        ensures added { Adds self.old (utf8_lossy bytes.now) self.new }
    {
        match String::from_utf8_lossy(self.alloc, bytes) {
            Ok(text) => self.add(text.as_str()),
            Err(_) => self.has_gap = true,
        }
    }

    /// Adds a value as `{}` shows it.
    pub fn add_shown<T: Display>(&mut self, value: &T)
        ensures added { (bytes : List ℕ) → T.output value.now ≡ Some bytes → Adds self.old bytes self.new }
    {
        if write!(self.text, "{value}").is_err() {
            self.has_gap = true;
        }
    }

    /// Adds a value as `{:?}` shows it.
    pub fn add_debug<T: Debug>(&mut self, value: &T)
        ensures added { (bytes : List ℕ) → T.debug_output value.now ≡ Some bytes → Adds self.old bytes self.new }
    {
        if write!(self.text, "{value:?}").is_err() {
            self.has_gap = true;
        }
    }
}
