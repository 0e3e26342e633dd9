//! A change from its bytes.

ghost use Rattle.std.specs.Prelude.{◌≡◌, ◌≤◌, ◌&&◌, ℕ, List, Some, IfOk, IsTrue, drop, length};
ghost use Rattle.mt_durable.specs.Keys.{is_same};
ghost use Rattle.mt_durable.specs.Changes.{change_bytes, entry_trees};
ghost use Rattle.mt_durable.specs.Maps.{keys_ascend};
ghost use Rattle.mt_durable.specs.Reading.{Says, change_at, entries_in, entries_of, entry_in, entry_of, if_ascending, is_empty};
ghost use Rattle.mt_durable.specs.Readings.{Gives};
ghost use Rattle.mt_durable.specs.declared.durable.Entry.{Entry};
ghost use Rattle.mt_durable.specs.declared.reading.ChangeFault.TheVariants.{Memory};
ghost use Rattle.mt_tlv.specs.Limits.{IsElement};
ghost use Rattle.mt_tlv.specs.Narrow.{narrow};
ghost use Rattle.mt_tlv.specs.Tree.{array};
ghost use Rattle.mt_tlv.specs.View.{elements, tree};
ghost use Rattle.mt_tlv.specs.declared.value.Tag.TheVariants.{Anonymous};

use crate::durable::{Change, Entry};
use crate::key::is_same;
use mt_tlv::{Tag, TlvFault, Value, element_is_read, read, values_are_trees, write};
use std::alloc::{AllocError, AllocFailed, Global};

/// Why no change was read.
#[derive(Clone, Copy, Debug, PartialEq, Eq)]
pub enum ChangeFault {
    /// The bytes are no change, or more than one.
    NotAChange,
    /// No memory was left for what they say.
    Memory,
}

impl From<AllocError> for ChangeFault {
    ghost from_gives = { λ _ e. e ≡ Memory };

    fn from(_error: AllocError) -> ChangeFault {
        ChangeFault::Memory
    }
}

impl<T: Drop> From<AllocFailed<T>> for ChangeFault {
    ghost from_gives = { λ _ e. e ≡ Memory };

    fn from(_error: AllocFailed<T>) -> ChangeFault {
        ChangeFault::Memory
    }
}

/// Reads the bytes of a change, as `write_change` writes them: all of them, in the narrow encoding and
/// with ascending keys, or they are none.
pub fn read_change(alloc: Global, bytes: &[u8]) -> Result<Change, ChangeFault>
    // They are the bytes of what was read.
    ensures found { IfOk result (λ change. Says change bytes.now) }
    // A change is read, unless memory runs out.
    ensures only { (entries : List Entry) → Says entries bytes.now → Gives (λ change. change) result (Some entries) }
    ensures exact { Gives (λ change. change) result (change_at bytes.now) }
{
    bytes_of_a_change_are_read();
    change_of(alloc, bytes)
}

/// The bytes of a change are read, and what is read has these bytes.
pub fn bytes_of_a_change_are_read()
    ensures read { (entries : List Entry) (bytes : List ℕ) → Says entries bytes → change_at bytes ≡ Some entries }
    ensures alone { (bytes : List ℕ) (entries : List Entry) → change_at bytes ≡ Some entries → (bytes ≡ change_bytes entries) × IsTrue (keys_ascend entries) }
{
    element_is_read();
    values_are_trees();
}

// The change that these bytes are.
fn change_of(alloc: Global, bytes: &[u8]) -> Result<Change, ChangeFault>
    ensures exact { Gives (λ change. change) result (change_at bytes.now) }
    ensures element { IfOk result (λ change. IsElement Anonymous (array (entry_trees change)) bytes.now) }
{
    let (tag, value, count) = match read(alloc, bytes) {
        Ok(element) => element,
        Err(TlvFault::Memory) => return Err(ChangeFault::Memory),
        Err(_) => return Err(ChangeFault::NotAChange),
    };
    let narrow = narrow_bytes(alloc, tag, &value)?;
    if !is_whole(bytes, count, &narrow) {
        return Err(ChangeFault::NotAChange);
    }
    ascending(entries_of(alloc, tag, value)?)
}

// Whether an element of so many bytes is all of these, in the narrow encoding.
fn is_whole(bytes: &[u8], count: usize, narrow: &[u8]) -> bool
    requires { count ≤ length bytes.now }
    ensures { result ≡ (is_empty (drop count bytes.now) && is_same narrow.now bytes.now) }
{
    bytes[count..].is_empty() && is_same(narrow, bytes)
}

// The narrow encoding.
fn narrow_bytes(alloc: Global, tag: Tag, value: &Value) -> Result<Vec<u8>, AllocError>
    ensures { IfOk result (λ bytes. bytes.items ≡ narrow tag (tree value.now)) }
{
    let mut bytes = Vec::new(alloc);
    write(&tag, value, &mut bytes)?;
    Ok(bytes)
}

fn ascending(entries: Vec<Entry>) -> Result<Change, ChangeFault>
    ensures { Gives (λ change. change) result (if_ascending (Some entries.items)) }
{
    if !Change::is_ascending(&entries) {
        return Err(ChangeFault::NotAChange);
    }
    Ok(Change::from_vec(entries))
}

// The entries that the members of an array are.
fn entries_of(alloc: Global, tag: Tag, value: Value) -> Result<Vec<Entry>, ChangeFault>
    ensures { Gives (λ entries. entries.items) result (entries_of tag (tree value)) }
{
    match (tag, value) {
        (Tag::Anonymous, Value::Array(members)) => entries_in(alloc, members.into_vec()),
        _ => Err(ChangeFault::NotAChange),
    }
}

fn entries_in(alloc: Global, members: Vec<(Tag, Value)>) -> Result<Vec<Entry>, ChangeFault>
    ensures { Gives (λ entries. entries.items) result (entries_in (elements members.items)) }
{
    let mut entries = Vec::new(alloc);
    for (tag, value) in members {
        let Some(entry) = entry_of(tag, value) else {
            return Err(ChangeFault::NotAChange);
        };
        entries.push(entry)?;
    }
    Ok(entries)
}

// The entry that a member is.
fn entry_of(tag: Tag, value: Value) -> Option<Entry>
    ensures { result ≡ entry_of tag (tree value) }
{
    match (tag, value) {
        (Tag::Anonymous, Value::Struct(fields)) => entry_in(fields.into_vec()),
        _ => None,
    }
}

// The entry that the fields of a structure are.
fn entry_in(fields: Vec<(Tag, Value)>) -> Option<Entry>
    ensures { result ≡ entry_in (elements fields.items) }
{
    values_are_trees();
    let mut fields = fields.into_iter();
    let Some((Tag::Context(0), Value::Octets(key))) = fields.next() else {
        return None;
    };
    let Some((tag, value)) = fields.next() else {
        return Some(Entry { key, value: None });
    };
    if fields.next().is_some() {
        return None;
    }
    match tag {
        Tag::Context(1) => Some(Entry {
            key,
            value: Some(value),
        }),
        _ => None,
    }
}
