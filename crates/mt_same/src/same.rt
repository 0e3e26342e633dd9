//! A value that can be told from others of its type; lists, options and plain types.

ghost use Rattle.std.specs.Prelude.{◌≡◌, ◌↔◌, IsTrue};

use mt_model::Listed;
use mt_tlv::Bytes;

/// A value that can be told from others of its type. It takes no memory.
pub trait Same: Sized {
    /// Whether the other value is this one.
    fn is_same(&self, other: &Self) -> bool
        ensures { IsTrue result ↔ (self.now ≡ other.now) };
}

/// Whether the items are the same, in the same order. It takes no memory.
pub fn are_items_same<T: Same>(one: &[T], other: &[T]) -> bool
    ensures { IsTrue result ↔ (one.now ≡ other.now) }
{
    if one.len() != other.len() {
        return false;
    }
    for i in 0..one.len() {
        let item = &one[i];
        let its_other = &other[i];
        if !item.is_same(its_other) {
            return false;
        }
    }
    true
}

impl<T: Same> Same for Listed<T> {
    fn is_same(&self, other: &Listed<T>) -> bool {
        are_items_same(self.as_slice(), other.as_slice())
    }
}

impl<T: Same> Same for Option<T> {
    fn is_same(&self, other: &Option<T>) -> bool {
        match (self, other) {
            (Some(mine), Some(theirs)) => mine.is_same(theirs),
            (None, None) => true,
            _ => false,
        }
    }
}

impl Same for u8 {
    fn is_same(&self, other: &u8) -> bool {
        *self == *other
    }
}

impl Same for u32 {
    fn is_same(&self, other: &u32) -> bool {
        *self == *other
    }
}

impl Same for u64 {
    fn is_same(&self, other: &u64) -> bool {
        *self == *other
    }
}

impl Same for Bytes {
    fn is_same(&self, other: &Bytes) -> bool {
        self.equals(other)
    }
}

impl Same for (Bytes, bool) {
    fn is_same(&self, other: &(Bytes, bool)) -> bool {
        self.0.equals(&other.0) && self.1 == other.1
    }
}
