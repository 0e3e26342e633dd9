//! The change that leads from one image to another, as bytes, in the memory that is there.

ghost use Rattle.std.specs.Prelude.{◌≡◌, ◌≤◌, ◌<◌, ◌+◌, ◌++◌, [], IfSome, None, Some, is_some, length, take, if◌then◌else◌};
ghost use Rattle.mt_durable.specs.Differences.{behind, difference_bytes, gone, set_at, set_up_to};
ghost use Rattle.mt_durable.specs.Fronts.{AreEntries, IsFront, Stands, entries_bytes, entries_said, entry_bytes};
ghost use Rattle.mt_durable.specs.Images.{IsImage};
ghost use Rattle.mt_durable.specs.Keys.{is_same};
ghost use Rattle.mt_durable.specs.Setting.{begins_with, without};

use crate::image::{ARRAY, END, Front, behind_first, behind_lower, entry_in_front};
use crate::key::is_same;
use crate::length::string_length;
use crate::reading::bytes_of_a_change_are_read;

/// Leaves in the front of `into` the change that leads from the map of the image `from` to that of the image `to`, and
/// answers how many bytes that is: what `to` has under each key where it differs, and each key that it does not have. None
/// says that it is longer than `into`. It takes no memory.
pub fn write_difference(from: &[u8], to: &[u8], into: &mut [u8]) -> Option<usize>
    requires from { IsImage from.now }
    requires to { IsImage to.now }
    ensures written { IfSome result (λ count. take count into.new ≡ difference_bytes from.now to.now) }
    ensures count { IfSome result (λ count. count ≡ length (difference_bytes from.now to.now)) }
    ensures room { result ≡ None → length into.old < length (difference_bytes from.now to.now) }
    ensures size { length into.new ≡ length into.old }
{
    bytes_of_a_change_are_read();
    let mut left = behind_first(from);
    let mut others = behind_first(to);
    let mut end = add_within(&[ARRAY], into, 0)?;
    'entries: while let Some(entry) = entry_in_front(left) {
        let (behind, at) = write_entry(&entry, others, into, end)?;
        others = behind;
        end = at;
        left = entry.rest;
    }
    add_within(others, into, end)
}

// Adds at a place what is set up to the key of an entry of the one map, where the other has these entries from there on. It
// answers what the other has behind that key, and the place behind what was added; None where there is no room for it.
fn write_entry<'a>(
    entry: &Front<'_>,
    others: &'a [u8],
    into: &mut [u8],
    at: usize,
) -> Option<(&'a [u8], usize)>
    requires entry { Stands entry.now }
    requires others { AreEntries others.now }
    requires within { at ≤ length into.old }
    ensures added { (stands : Stands entry.now) → IfSome result (λ next. take next.1 into.new ≡ take at into.old ++ entries_bytes (set_up_to stands.entry (entries_said others.now))) }
    ensures within { IfSome result (λ next. next.1 ≤ length into.new) }
    ensures entries { IfSome result (λ next. AreEntries next.0.now) }
    ensures left { IfSome result (λ next. entries_said next.0.now ≡ behind entry.now.key.now (entries_said others.now)) }
    ensures room { (stands : Stands entry.now) → result ≡ None → length into.old < at + length (entries_bytes (set_up_to stands.entry (entries_said others.now))) }
    ensures size { length into.new ≡ length into.old }
{
    let behind = behind_lower(entry.key, others);
    let (lower, _) = others.split_at(others.len() - behind.len());
    let end = add_within(lower, into, at)?;
    write_under(entry, behind, into, end)
}

// Adds at a place what is set under the key of an entry of the one map, where the other has these entries from that key on.
// It answers the same.
fn write_under<'a>(
    entry: &Front<'_>,
    others: &'a [u8],
    into: &mut [u8],
    at: usize,
) -> Option<(&'a [u8], usize)>
    requires entry { Stands entry.now }
    requires others { AreEntries others.now }
    requires within { at ≤ length into.old }
    ensures added { (stands : Stands entry.now) → IfSome result (λ next. take next.1 into.new ≡ take at into.old ++ entries_bytes (set_at stands.entry (entries_said others.now))) }
    ensures within { IfSome result (λ next. next.1 ≤ length into.new) }
    ensures entries { IfSome result (λ next. AreEntries next.0.now) }
    ensures left { IfSome result (λ next. entries_said next.0.now ≡ without entry.now.key.now (entries_said others.now)) }
    ensures room { (stands : Stands entry.now) → result ≡ None → length into.old < at + length (entries_bytes (set_at stands.entry (entries_said others.now))) }
    ensures size { length into.new ≡ length into.old }
{
    match entry_under(entry.key, others) {
        Some(other) => {
            let end = add_within(changed_bytes(entry, &other), into, at)?;
            Some((other.rest, end))
        }
        None => {
            let end = add_gone(entry, into, at)?;
            Some((others, end))
        }
    }
}

// The entry in front, if it has this key.
fn entry_under<'a>(key: &[u8], entries: &'a [u8]) -> Option<Front<'a>>
    requires { AreEntries entries.now }
    ensures front { IfSome result (λ front. IsFront (entries_said entries.now) (Some front)) }
    ensures there { is_some result ≡ begins_with key.now (entries_said entries.now) }
{
    match entry_in_front(entries) {
        Some(front) if is_same(key, front.key) => Some(front),
        _ => None,
    }
}

// The bytes of an entry, none where another has the same.
fn changed_bytes<'a>(entry: &Front<'_>, other: &Front<'a>) -> &'a [u8]
    ensures { result.now ≡ (if is_same entry.now.bytes.now other.now.bytes.now then [] else other.now.bytes.now) }
{
    if is_same(entry.bytes, other.bytes) {
        &[]
    } else {
        other.bytes
    }
}

// Adds at a place that the key of an entry goes: what stands before its value, and the end.
fn add_gone(entry: &Front<'_>, into: &mut [u8], at: usize) -> Option<usize>
    requires entry { Stands entry.now }
    requires within { at ≤ length into.old }
    ensures added { (stands : Stands entry.now) → IfSome result (λ end. take end into.new ≡ take at into.old ++ entry_bytes (gone stands.entry)) }
    ensures within { IfSome result (λ end. end ≤ length into.new) }
    ensures room { (stands : Stands entry.now) → result ≡ None → length into.old < at + length (entry_bytes (gone stands.entry)) }
    ensures size { length into.new ≡ length into.old }
{
    let (front, _) = entry.bytes.split_at(3 + string_length(entry.key.len()));
    let end = add_within(front, into, at)?;
    add_within(&[END], into, end)
}

// Adds bytes at a place, and answers the place behind them; None where there is no room for them.
fn add_within(bytes: &[u8], into: &mut [u8], at: usize) -> Option<usize>
    requires { at ≤ length into.old }
    ensures added { IfSome result (λ end. take end into.new ≡ take at into.old ++ bytes.now) }
    ensures end { IfSome result (λ end. end ≡ at + length bytes.now) }
    ensures within { IfSome result (λ end. end ≤ length into.new) }
    ensures room { result ≡ None → length into.old < at + length bytes.now }
    ensures size { length into.new ≡ length into.old }
    ensures still { result ≡ None → into.new ≡ into.old }
{
    if into.len() - at < bytes.len() {
        return None;
    }
    let end = at + bytes.len();
    into[at..end].copy_from_slice(bytes);
    Some(end)
}
