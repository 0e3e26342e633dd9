//! A string of bytes: the value of an octet string, or of a text by its UTF-8 bytes.

ghost use Rattle.std.specs.Prelude.{◌≡◌, [], IfOk, ◌↔◌, IsTrue};

use std::alloc::{AllocError, Global};
use std::marker::Model;

/// A string of bytes. A contract sees the list of the bytes, each 0 to 255.
pub struct Bytes {
    items: Vec<u8>,
}

impl Drop for Bytes {
    fn drop(self) {
        let Bytes { items: _ } = self;
    }
}

impl Model for Bytes {
    ghost use Rattle.std.specs.Prelude.{List, ℕ};

    ghost Value = { List ℕ };

    ghost view = { λ b. b.items.items };
}

impl Bytes {
    /// The empty string, which takes no memory.
    pub fn new(alloc: Global) -> Self
        ensures { result ≡ [] }
    {
        Bytes {
            items: Vec::new(alloc),
        }
    }

    /// A string of these bytes.
    pub fn from_slice(alloc: Global, bytes: &[u8]) -> Result<Self, AllocError>
        ensures { IfOk result (λ b. b ≡ bytes.now) }
    {
        Ok(Bytes {
            items: Vec::from_slice(alloc, bytes)?,
        })
    }

    /// The string of the vector's bytes, in the vector's memory.
    pub fn from_vec(items: Vec<u8>) -> Self
        ensures { result ≡ items.items }
    {
        Bytes { items }
    }

    /// The bytes as a vector again, in the same memory.
    pub fn into_vec(self) -> Vec<u8>
        ensures { result.items ≡ self }
    {
        let Bytes { items } = self;
        items
    }

    /// The bytes in their order.
    pub fn as_slice(&self) -> &[u8]
        ensures { result.now ≡ self.now }
    {
        self.items.as_slice()
    }

    /// The same bytes, in memory of the same allocator.
    pub fn copy(&self) -> Result<Self, AllocError>
        ensures { IfOk result (λ b. b ≡ self.now) }
    {
        Ok(Bytes {
            items: Vec::from_slice(*self.items.allocator(), &self.items)?,
        })
    }

    /// Whether the other string has the same bytes in the same order.
    pub fn equals(&self, other: &Bytes) -> bool
        ensures { IsTrue result ↔ (self.now ≡ other.now) }
    {
        self.items == other.items
    }
}
