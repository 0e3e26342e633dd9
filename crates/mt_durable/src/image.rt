//! A change merged into an image as bytes, in the memory that is there.

ghost use Rattle.std.specs.Prelude.{◌≡◌, ◌≢◌, ◌≤◌, ◌+◌, ◌++◌, ◌∷◌, ℕ, List, [], Ok, Some, drop, length, take, option_map, IfSome};
ghost use Rattle.mt_durable.specs.Fronts.{AreEntries, IsFront, IsKeyInFront, IsSplit, Names, array_octet, bytes_if, entries_said, entry_bytes, is_leave, lower_bytes};
ghost use Rattle.mt_durable.specs.Images.{IsImage, image_after};
ghost use Rattle.mt_durable.specs.Keeping.{IsChange};
ghost use Rattle.mt_durable.specs.Setting.{count_before, without};
ghost use Rattle.mt_durable.specs.declared.durable.Entry.{Entry};
ghost use Rattle.mt_tlv.specs.Limits.{IsElement};
ghost use Rattle.mt_tlv.specs.Parts.{Piece, Place, next_at, octets};
ghost use Rattle.mt_tlv.specs.declared.value.Tag.{Tag};
ghost use Rattle.mt_tlv.specs.declared.value.Tag.TheVariants.{Anonymous};
ghost use Rattle.mt_durable.specs.Changes.{entry_tree};

use crate::key::{is_before, is_same};
use crate::length::element_length;
use crate::reading::bytes_of_a_change_are_read;
use mt_tlv::{Cursor, Part, cursor_comes_over_the_element, narrow_is_element};

/// The control octet of an anonymous array, and the end of a container.
pub(crate) const ARRAY: u8 = 0x16;

pub(crate) const END: u8 = 0x18;

/// The entry in front of some bytes, and those behind it.
#[derive(Clone, Copy)]
pub(crate) struct Front<'a> {
    pub(crate) key: &'a [u8],
    pub(crate) has_value: bool,
    pub(crate) bytes: &'a [u8],
    pub(crate) rest: &'a [u8],
}

/// Leaves in the front of `into` the image after a change: of the map to which the change leads from that of the
/// image `from`. It answers how many bytes that is. It takes no memory.
pub fn merge_image(from: &[u8], change: &[u8], into: &mut [u8]) -> usize
    requires from { IsImage from.now }
    requires change { IsChange change.now }
    requires room { length (image_after change.now from.now) ≤ length into.old }
    ensures merged { take result into.new ≡ image_after change.now from.now }
    ensures count { result ≡ length (image_after change.now from.now) }
{
    bytes_of_a_change_are_read();
    let mut image = behind_first(from);
    let mut entries = behind_first(change);
    let mut end = add(&[ARRAY], into, 0);
    'entries: while let Some(entry) = entry_in_front(entries) {
        let (behind, at) = merge_entry(&entry, image, into, end);
        image = behind;
        end = at;
        entries = entry.rest;
    }
    add(image, into, end)
}

/// How many bytes the image has after a change: of the map to which the change leads from that of the image `from`. It
/// takes no memory.
pub fn length_after(from: &[u8], change: &[u8]) -> usize
    requires from { IsImage from.now }
    requires change { IsChange change.now }
    ensures { result ≡ length (image_after change.now from.now) }
{
    bytes_of_a_change_are_read();
    let mut image = behind_first(from);
    let mut entries = behind_first(change);
    let mut length = 1;
    'entries: while let Some(entry) = entry_in_front(entries) {
        let (lower, behind) = split_entry(entry.key, image);
        length += lower.len() + own_bytes(&entry).len();
        image = behind;
        entries = entry.rest;
    }
    length + image.len()
}

// Adds at a place what stands in an image before the key of a changed entry, and the entry unless its key goes. It
// answers what stands behind in the image, and the place behind what it added.
fn merge_entry<'a>(
    entry: &Front<'_>,
    image: &'a [u8],
    into: &mut [u8],
    at: usize,
) -> (&'a [u8], usize)
    requires image { AreEntries image.now }
    requires room { at + (length (lower_bytes entry.now.key.now (entries_said image.now)) + length (bytes_if entry.now.has_value entry.now.bytes.now)) ≤ length into.old }
    ensures added { take result.1 into.new ≡ take at into.old ++ (lower_bytes entry.now.key.now (entries_said image.now) ++ bytes_if entry.now.has_value entry.now.bytes.now) }
    ensures end { result.1 ≡ at + (length (lower_bytes entry.now.key.now (entries_said image.now)) + length (bytes_if entry.now.has_value entry.now.bytes.now)) }
    ensures within { result.1 ≤ length into.new }
    ensures entries { AreEntries result.0.now }
    ensures left { entries_said result.0.now ≡ without entry.now.key.now (drop (count_before entry.now.key.now (entries_said image.now)) (entries_said image.now)) }
{
    let (lower, behind) = split_entry(entry.key, image);
    let end = add(lower, into, at);
    (behind, add(own_bytes(entry), into, end))
}

// What stands in an image before a key, and what stands behind it.
fn split_entry<'a>(key: &[u8], image: &'a [u8]) -> (&'a [u8], &'a [u8])
    requires { AreEntries image.now }
    ensures lower { result.0.now ≡ lower_bytes key.now (entries_said image.now) }
    ensures entries { AreEntries result.1.now }
    ensures left { entries_said result.1.now ≡ without key.now (drop (count_before key.now (entries_said image.now)) (entries_said image.now)) }
{
    let behind = behind_lower(key, image);
    let (lower, _) = image.split_at(image.len() - behind.len());
    (lower, pass_same(key, behind))
}

// The bytes of a changed entry, none where its key goes.
fn own_bytes<'a>(entry: &Front<'a>) -> &'a [u8]
    ensures { result.now ≡ bytes_if entry.now.has_value entry.now.bytes.now }
{
    if entry.has_value { entry.bytes } else { &[] }
}

/// What stands in an image behind the entries before a key.
pub(crate) fn behind_lower<'a>(key: &[u8], image: &'a [u8]) -> &'a [u8]
    requires { AreEntries image.now }
    ensures parts { image.now ≡ lower_bytes key.now (entries_said image.now) ++ result.now }
    ensures entries { AreEntries result.now }
    ensures left { entries_said result.now ≡ drop (count_before key.now (entries_said image.now)) (entries_said image.now) }
{
    let mut left = image;
    'lower: while let Some(front) = key_in_front(left) {
        if !is_before(front, key) {
            return left;
        }
        let (_, rest) = split_front(left);
        left = rest;
    }
    left
}

// Passes over the entry in front, if it has this key.
fn pass_same<'a>(key: &[u8], entries: &'a [u8]) -> &'a [u8]
    requires { AreEntries entries.now }
    ensures entries { AreEntries result.now }
    ensures left { entries_said result.now ≡ without key.now (entries_said entries.now) }
{
    match key_in_front(entries) {
        Some(front) if is_same(key, front) => {
            let (_, rest) = split_front(entries);
            rest
        }
        _ => entries,
    }
}

// The key of the entry in front: none at the end. It does not go over the value.
fn key_in_front<'a>(entries: &'a [u8]) -> Option<&'a [u8]>
    requires { AreEntries entries.now }
    ensures { IsKeyInFront (entries_said entries.now) (option_map (λ key. key.now) result) }
{
    bytes_of_a_change_are_read();
    narrow_is_element();
    let [first, ..] = entries else {
        return None;
    };
    if *first == END {
        return None;
    }
    first_key(entries)
}

// The key of the entry that stands here.
fn first_key<'a>(bytes: &'a [u8]) -> Option<&'a [u8]>
    ensures { (entry : Entry) (rest : List ℕ) → IsElement Anonymous (entry_tree entry) (entry_bytes entry) → bytes.now ≡ entry_bytes entry ++ rest
        → option_map (λ key. key.now) result ≡ Some entry.key }
{
    cursor_comes_over_the_element();
    let mut cursor = Cursor::new(bytes);
    pass(&mut cursor);
    next_octets(&mut cursor)
}

// The bytes of the entry in front, and those behind it.
fn split_front<'a>(entries: &'a [u8]) -> (&'a [u8], &'a [u8])
    requires entries { AreEntries entries.now }
    requires some { entries_said entries.now ≢ [] }
    ensures front { IsSplit (entries_said entries.now) result.0.now result.1.now }
    ensures parts { entries.now ≡ result.0.now ++ result.1.now }
{
    bytes_of_a_change_are_read();
    narrow_is_element();
    entries.split_at(element_length(entries))
}

/// What stands in front of entries: none at the end.
pub(crate) fn entry_in_front<'a>(entries: &'a [u8]) -> Option<Front<'a>>
    requires { AreEntries entries.now }
    ensures front { IsFront (entries_said entries.now) result }
    ensures parts { IfSome result (λ front. entries.now ≡ front.bytes.now ++ front.rest.now) }
{
    bytes_of_a_change_are_read();
    narrow_is_element();
    let [first, ..] = entries else {
        return None;
    };
    if *first == END {
        return None;
    }
    let (key, has_value) = key_of(entries)?;
    let (bytes, rest) = entries.split_at(element_length(entries));
    Some(Front {
        key,
        has_value,
        bytes,
        rest,
    })
}

// The key of the entry in front, and whether it has a value.
fn key_of<'a>(bytes: &'a [u8]) -> Option<(&'a [u8], bool)>
    ensures { (entry : Entry) (rest : List ℕ) → IsElement Anonymous (entry_tree entry) (entry_bytes entry) → bytes.now ≡ entry_bytes entry ++ rest
        → Names entry (option_map (λ named. (named.0.now, named.1)) result) }
{
    cursor_comes_over_the_element();
    let mut cursor = Cursor::new(bytes);
    pass(&mut cursor);
    let key = next_octets(&mut cursor)?;
    Some((key, !is_next_leave(&mut cursor)))
}

// Passes over a part.
fn pass(cursor: &mut Cursor<'_>)
    ensures { (part : Piece) (place : Place) → next_at cursor.old ≡ Ok (Some part, place) → cursor.new ≡ place }
{
    let _ = cursor.next();
}

// The octets that are the next part.
fn next_octets<'a>(cursor: &mut Cursor<'a>) -> Option<&'a [u8]>
    ensures { (tag : Tag) (s : List ℕ) (place : Place) → next_at cursor.old ≡ Ok (Some (octets tag s), place) → (option_map (λ octets. octets.now) result ≡ Some s) × (cursor.new ≡ place) }
{
    match cursor.next() {
        Ok(Some(Part::Octets(_, octets))) => Some(octets),
        _ => None,
    }
}

// Whether the next part is the end of a container.
fn is_next_leave(cursor: &mut Cursor<'_>) -> bool
    ensures { (part : Piece) (place : Place) → next_at cursor.old ≡ Ok (Some part, place) → result ≡ is_leave part }
{
    match cursor.next() {
        Ok(Some(Part::Leave)) => true,
        _ => false,
    }
}

/// The bytes behind the first of a change.
pub(crate) fn behind_first(bytes: &[u8]) -> &[u8]
    requires { IsChange bytes.now }
    ensures { bytes.now ≡ array_octet ∷ result.now }
{
    match bytes {
        [_, rest @ ..] => rest,
        [] => bytes,
    }
}

// Adds bytes at a place, and answers the place behind them.
fn add(bytes: &[u8], into: &mut [u8], at: usize) -> usize
    requires { at + length bytes.now ≤ length into.old }
    ensures added { take result into.new ≡ take at into.old ++ bytes.now }
    ensures end { result ≡ at + length bytes.now }
    ensures within { result ≤ length into.new }
{
    let end = at + bytes.len();
    into[at..end].copy_from_slice(bytes);
    end
}
