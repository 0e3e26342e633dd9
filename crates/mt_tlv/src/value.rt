//! Tags, values and the members of containers (Matter Core Specification, Appendix A).

ghost use Rattle.std.specs.Prelude.{◌≡◌, IfOk, ◌↔◌, IsTrue};
ghost use Rattle.mt_tlv.specs.View.{elements};

use crate::bytes::Bytes;
use std::alloc::AllocError;
use std::marker::Model;

/// What names an element inside its container. Tags are equal where kind and numbers are.
#[derive(Clone, Copy, Debug, PartialEq, Eq)]
pub enum Tag {
    /// No tag.
    Anonymous,
    /// A number that the surrounding structure or list gives a meaning.
    Context(u8),
    /// A number of the Matter common profile.
    Common(u32),
    /// A number of the profile that the context implies.
    Implicit(u32),
    /// A number of a vendor's profile.
    Full {
        vendor: u16,
        profile: u16,
        number: u32,
    },
}

/// The value of an element. Its contracts speak of it as the tree that it stands for.
#[derive(Drop)]
#[cycle(value)]
pub enum Value {
    Int(i64),
    Uint(u64),
    Bool(bool),
    /// A text, by its UTF-8 bytes.
    Text(Bytes),
    Octets(Bytes),
    Null,
    /// A single precision float, by its 32 bits of IEEE 754.
    Bits32(u32),
    /// A double precision float, by its 64 bits of IEEE 754.
    Bits64(u64),
    Struct(Members),
    Array(Members),
    List(Members),
}

/// The members of a container, in their order. A contract sees their tags and the trees of their
/// values, and nothing of where they lie in memory.
#[cycle(value)]
pub struct Members {
    pub(crate) items: Vec<(Tag, Value)>,
}

impl Drop for Members {
    #[cycle(value)]
    fn drop(self) {
        let Members { items: _ } = self;
    }
}

impl Model for Members {
    ghost use Rattle.mt_tlv.specs.Tree.{Elements, elements_size, elements_code};

    ghost Value = { Elements };

    ghost coded = { elements_code };

    ghost use Rattle.mt_tlv.specs.View.{elements};

    ghost view = { λ m. elements m.items.items };

    ghost size = { elements_size };

    ghost use Rattle.mt_tlv.specs.Falls.{deepest-elements};

    ghost size_decreases = { λ m h. deepest-elements m.items.items };
}

impl Members {
    /// The members of the vector, in its memory.
    pub fn from_vec(items: Vec<(Tag, Value)>) -> Self
        ensures { result ≡ elements items.items }
    {
        Members { items }
    }

    /// The members as a vector again, in the same memory.
    pub fn into_vec(self) -> Vec<(Tag, Value)>
        ensures { elements result.items ≡ self }
    {
        let Members { items } = self;
        items
    }

    /// The members in their order.
    pub fn as_slice(&self) -> &[(Tag, Value)]
        ensures { elements result.now ≡ self.now }
    {
        self.items.as_slice()
    }

    /// The same members, each copied, in memory of the same allocators.
    #[cycle(copy)]
    pub fn copy(&self) -> Result<Self, AllocError>
        ensures { IfOk result (λ m. m ≡ self.now) }
    {
        let mut items = Vec::with_capacity(*self.items.allocator(), self.items.len())?;
        for (tag, value) in &self.items {
            items.push((*tag, value.copy()?))?;
        }
        Ok(Members { items })
    }

    /// Whether the other members have the same tags and equal values, in the same order.
    #[cycle(equals)]
    pub fn equals(&self, other: &Members) -> bool
        ensures { IsTrue result ↔ (self.now ≡ other.now) }
    {
        if self.items.len() != other.items.len() {
            return false;
        }
        for i in 0..self.items.len() {
            let mine = &self.items[i];
            let theirs = &other.items[i];
            if mine.0 != theirs.0 {
                return false;
            }
            if !mine.1.equals(&theirs.1) {
                return false;
            }
        }
        true
    }
}

impl Value {
    /// The same value, in memory of the same allocators.
    #[cycle(copy)]
    pub fn copy(&self) -> Result<Value, AllocError>
        ensures { IfOk result (λ v. v ≡ self.now) }
    {
        match self {
            Value::Int(number) => Ok(Value::Int(*number)),
            Value::Uint(number) => Ok(Value::Uint(*number)),
            Value::Bool(truth) => Ok(Value::Bool(*truth)),
            Value::Text(text) => Ok(Value::Text(text.copy()?)),
            Value::Octets(octets) => Ok(Value::Octets(octets.copy()?)),
            Value::Null => Ok(Value::Null),
            Value::Bits32(bits) => Ok(Value::Bits32(*bits)),
            Value::Bits64(bits) => Ok(Value::Bits64(*bits)),
            Value::Struct(members) => Ok(Value::Struct(members.copy()?)),
            Value::Array(members) => Ok(Value::Array(members.copy()?)),
            Value::List(members) => Ok(Value::List(members.copy()?)),
        }
    }

    /// Whether the other value is of the same kind and equal; containers by their members.
    #[cycle(equals)]
    pub fn equals(&self, other: &Value) -> bool
        ensures { IsTrue result ↔ (self.now ≡ other.now) }
    {
        match (self, other) {
            (Value::Int(mine), Value::Int(theirs)) => *mine == *theirs,
            (Value::Uint(mine), Value::Uint(theirs)) => *mine == *theirs,
            (Value::Bool(mine), Value::Bool(theirs)) => *mine == *theirs,
            (Value::Text(mine), Value::Text(theirs)) => mine.equals(theirs),
            (Value::Octets(mine), Value::Octets(theirs)) => mine.equals(theirs),
            (Value::Null, Value::Null) => true,
            (Value::Bits32(mine), Value::Bits32(theirs)) => *mine == *theirs,
            (Value::Bits64(mine), Value::Bits64(theirs)) => *mine == *theirs,
            (Value::Struct(mine), Value::Struct(theirs)) => mine.equals(theirs),
            (Value::Array(mine), Value::Array(theirs)) => mine.equals(theirs),
            (Value::List(mine), Value::List(theirs)) => mine.equals(theirs),
            _ => false,
        }
    }
}
