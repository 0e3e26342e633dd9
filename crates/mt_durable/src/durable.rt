//! The map, and a change merged into it.

ghost use Rattle.std.specs.Prelude.{◌≡◌, ◌≤◌, ◌<◌, ◌+◌, ◌∷◌, ◌++◌, [], true, drop, length, take, option_map, vec_len, vec_capacity, IfOk, OnOk, OnErr, IsTrue};
ghost use Rattle.mt_durable.specs.Keys.{is_before};
ghost use Rattle.mt_durable.specs.Maps.{Merged, ascend_above, have_values, keys_ascend, value_under};
ghost use Rattle.mt_durable.specs.Setting.{begins_with, count_before, with_all, with_entry, without};

use crate::key::{is_before, is_same};
use mt_tlv::{Bytes, Value};
use std::alloc::{AllocError, Global};
use std::marker::Model;

/// A key, and its value. In a change a key may have none: then it goes.
#[derive(Drop)]
pub struct Entry {
    pub key: Bytes,
    pub value: Option<Value>,
}

impl Entry {
    /// The same entry, in memory of the same allocators.
    pub fn copy(&self) -> Result<Self, AllocError>
        ensures { IfOk result (λ entry. entry ≡ self.now) }
    {
        let value = match &self.value {
            Some(value) => Some(value.copy()?),
            None => None,
        };
        Ok(Entry {
            key: self.key.copy()?,
            value,
        })
    }
}

/// A change: entries whose keys ascend.
pub struct Change {
    entries: Vec<Entry>,
}

impl Drop for Change {
    fn drop(self) {
        let Change { entries: _ } = self;
    }
}

impl Model for Change {
    ghost use Rattle.std.specs.Prelude.{List, IsTrue};
    ghost use Rattle.std.specs.Coded.{codes};
    ghost use Rattle.mt_tlv.specs.contracts.value.Value as values;
    ghost use Rattle.mt_durable.specs.Maps.{keys_ascend};
    ghost use Rattle.mt_durable.specs.declared.durable.Entry.{Entry};

    ghost Value = { List Entry };

    ghost coded = { Prim.hlevel (codes, values.the_row.coded) };

    ghost view = { λ change. change.entries.items };

    ghost invariant = { λ change. IsTrue (keys_ascend change.entries.items) };
}

impl Change {
    /// Whether the keys of these entries ascend.
    pub fn is_ascending(entries: &[Entry]) -> bool
        ensures { result ≡ keys_ascend entries.now }
    {
        match entries {
            [] => true,
            [first, rest @ ..] => ascend_above(first.key.as_slice(), rest),
        }
    }

    /// Whether each entry has a value, so that the change is one from the empty map.
    pub fn is_whole(&self) -> bool
        ensures { result ≡ have_values self.now }
    {
        have_values(self.entries.as_slice())
    }

    /// The change of these entries, whose keys ascend, in the same memory.
    pub fn from_vec(entries: Vec<Entry>) -> Self
        requires { IsTrue (keys_ascend entries.items) }
        ensures { result ≡ entries.items }
    {
        Change { entries }
    }

    /// The entries, in the same memory.
    pub fn into_vec(self) -> Vec<Entry>
        ensures value { result.items ≡ self }
        ensures ascend { IsTrue (keys_ascend self) }
    {
        let Change { entries } = self;
        entries
    }

    /// The entries, lent.
    pub fn as_slice(&self) -> &[Entry]
        ensures value { result.now ≡ self.now }
        ensures ascend { IsTrue (keys_ascend self.now) }
    {
        self.entries.as_slice()
    }
}

/// Durable state: a finite map from keys to values. Contracts see its entries, whose keys ascend and each
/// of which has a value.
pub struct Durable {
    entries: Vec<Entry>,
}

impl Drop for Durable {
    fn drop(self) {
        let Durable { entries: _ } = self;
    }
}

impl Model for Durable {
    ghost use Rattle.std.specs.Prelude.{List, IsTrue};
    ghost use Rattle.std.specs.Coded.{codes};
    ghost use Rattle.mt_tlv.specs.contracts.value.Value as values;
    ghost use Rattle.mt_durable.specs.Maps.{have_values, keys_ascend};
    ghost use Rattle.mt_durable.specs.declared.durable.Entry.{Entry};

    ghost Value = { List Entry };

    ghost coded = { Prim.hlevel (codes, values.the_row.coded) };

    ghost view = { λ map. map.entries.items };

    ghost invariant = { λ map. IsTrue (keys_ascend map.entries.items) × IsTrue (have_values map.entries.items) };
}

impl Durable {
    /// The empty map, which takes no memory.
    pub fn new(alloc: Global) -> Self
        ensures { result ≡ [] }
    {
        Durable {
            entries: Vec::new(alloc),
        }
    }

    /// The entries, lent: the keys ascend, and each has a value.
    pub fn as_slice(&self) -> &[Entry]
        ensures value { result.now ≡ self.now }
        ensures ascend { IsTrue (keys_ascend self.now) }
        ensures whole { IsTrue (have_values self.now) }
    {
        self.entries.as_slice()
    }

    /// The same map, in memory of the same allocator.
    pub fn copy(&self) -> Result<Self, AllocError>
        ensures { IfOk result (λ map. map ≡ self.now) }
    {
        let mut entries = Vec::with_capacity(*self.entries.allocator(), self.entries.len())?;
        for entry in &self.entries {
            entries.push(entry.copy()?)?;
        }
        Ok(Durable { entries })
    }

    /// The change that leads to the map from the empty one, in the same memory.
    pub fn into_change(self) -> Change
        ensures { result ≡ self }
    {
        let Durable { entries } = self;
        Change { entries }
    }

    /// The value under a key, None where there is none.
    pub fn get(&self, key: &[u8]) -> Option<&Value>
        ensures { option_map (λ value. value.now) result ≡ value_under key.now self.now }
    {
        value_under(key, self.entries.as_slice())
    }

    /// Merges a change: under each key that it names stands what it says, and all others stay. Where no
    /// memory is left, the map stays as it is.
    pub fn merge(&mut self, change: Change) -> Result<(), AllocError>
        ensures merged { OnOk result (Merged change self.old self.new) }
        // That is the map after its entries, one after the other.
        ensures one_by_one { OnOk result (self.new ≡ with_all change self.old) }
        ensures err { OnErr result (self.new ≡ self.old) }
    {
        let change = change.into_vec();
        self.entries.reserve(change.len())?;
        set_all(&mut self.entries, change);
        Ok(())
    }
}

// The value under a key.
fn value_under<'a>(key: &[u8], entries: &'a [Entry]) -> Option<&'a Value>
    ensures { option_map (λ value. value.now) result ≡ value_under key.now entries.now }
{
    let mut left = entries;
    'entries: loop {
        let [first, rest @ ..] = left else {
            return None;
        };
        if is_same(key, first.key.as_slice()) {
            return first.value.as_ref();
        }
        left = rest;
    }
}

// Whether the keys ascend from above this one on.
fn ascend_above(key: &[u8], entries: &[Entry]) -> bool
    ensures { result ≡ ascend_above key.now entries.now }
{
    let mut low = key;
    let mut left = entries;
    'entries: loop {
        let [first, rest @ ..] = left else {
            return true;
        };
        if !is_before(low, first.key.as_slice()) {
            return false;
        }
        low = first.key.as_slice();
        left = rest;
    }
}

// Whether each entry has a value.
fn have_values(entries: &[Entry]) -> bool
    ensures { result ≡ have_values entries.now }
{
    let mut left = entries;
    'entries: loop {
        let [first, rest @ ..] = left else {
            return true;
        };
        if first.value.is_none() {
            return false;
        }
        left = rest;
    }
}

// How many entries stand before a key.
fn count_before(key: &[u8], entries: &[Entry]) -> usize
    ensures count { result ≡ count_before key.now entries.now }
    ensures at_most { result ≤ length entries.now }
{
    let mut count = 0;
    let mut left = entries;
    'entries: loop {
        let [first, rest @ ..] = left else {
            return count;
        };
        if !is_before(first.key.as_slice(), key) {
            return count;
        }
        count += 1;
        left = rest;
    }
}

// Sets entry by entry. It takes no memory, where there is room for all of them.
fn set_all(entries: &mut Vec<Entry>, change: Vec<Entry>)
    requires room { vec_len entries.old + vec_len change ≤ vec_capacity entries.old }
    ensures items { entries.new.items ≡ with_all change.items entries.old.items }
{
    for entry in change {
        set(entries, entry);
    }
}

// Sets what stands under a key, or takes it away. It takes no memory, where there is room for one more.
fn set(entries: &mut Vec<Entry>, entry: Entry)
    requires room { vec_len entries.old < vec_capacity entries.old }
    ensures items { entries.new.items ≡ with_entry entry entries.old.items }
    ensures len { vec_len entries.new ≤ vec_len entries.old + 1 }
    ensures capacity { vec_capacity entries.new ≡ vec_capacity entries.old }
{
    let at = count_before(entry.key.as_slice(), entries);
    take_away(entries, at, entry.key.as_slice());
    if entry.value.is_some() {
        put(entries, at, entry);
    }
}

// Puts an entry between those that stand here.
fn put(entries: &mut Vec<Entry>, at: usize, entry: Entry)
    requires within { at ≤ vec_len entries.old }
    requires room { vec_len entries.old < vec_capacity entries.old }
    ensures items { entries.new.items ≡ take at entries.old.items ++ entry ∷ drop at entries.old.items }
    ensures len { vec_len entries.new ≡ vec_len entries.old + 1 }
    ensures capacity { vec_capacity entries.new ≡ vec_capacity entries.old }
{
    entries.insert(at, entry).unwrap();
}

// Takes away the entry at this place, if it has this key.
fn take_away(entries: &mut Vec<Entry>, at: usize, key: &[u8])
    requires within { at ≤ vec_len entries.old }
    ensures items { entries.new.items ≡ take at entries.old.items ++ without key.now (drop at entries.old.items) }
    ensures there { at ≤ vec_len entries.new }
    ensures len { vec_len entries.new ≤ vec_len entries.old }
    ensures capacity { vec_capacity entries.new ≡ vec_capacity entries.old }
{
    if stands_at(entries, at, key) {
        drop(entries.remove(at));
    }
}

// Whether the entry at this place has this key.
fn stands_at(entries: &[Entry], at: usize, key: &[u8]) -> bool
    ensures value { result ≡ begins_with key.now (drop at entries.now) }
    ensures there { IsTrue result → at < length entries.now }
{
    match entries.get(at) {
        Some(entry) => is_same(key, entry.key.as_slice()),
        None => false,
    }
}
