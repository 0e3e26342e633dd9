//! The keys of durable state.

ghost use Rattle.std.specs.Prelude.{◌≡◌, ◌∷◌};
ghost use Rattle.mt_grammar.specs.Keys.{alone, fabric_key, four_bytes, is_index, items_key, key_in, key_of, place_in, two_bytes};

use mt_model::Place;
use mt_model::limits::FABRICS;

/// What a key is of.
#[derive(Clone, Copy, Debug, PartialEq, Eq)]
pub enum Key {
    /// How often the node has started.
    Boot,
    /// Which numbers of events are set aside.
    Ceiling,
    /// The value of an attribute that has one for the node.
    Single { place: Place },
    /// A fabric's items of an attribute.
    Items { fabric: u8, place: Place },
    Fabric { index: u8 },
    Roots,
    Networks,
    Failsafe,
}

/// The key that bytes are, None where they are none.
pub fn key_in(bytes: &[u8]) -> Option<Key>
    ensures { result ≡ key_in bytes.now }
{
    match bytes {
        [kind, rest @ ..] => key_of(*kind, rest),
        [] => None,
    }
}

fn key_of(kind: u8, rest: &[u8]) -> Option<Key>
    ensures { result ≡ key_of kind rest.now }
{
    match kind {
        1 => alone(Key::Boot, rest),
        2 => alone(Key::Ceiling, rest),
        3 => single_key(rest),
        4 => items_key(rest),
        5 => fabric_key(rest),
        6 => alone(Key::Roots, rest),
        7 => alone(Key::Networks, rest),
        8 => alone(Key::Failsafe, rest),
        _ => None,
    }
}

// A key behind whose kind nothing stands.
fn alone(key: Key, rest: &[u8]) -> Option<Key>
    ensures { result ≡ alone key rest.now }
{
    match rest {
        [] => Some(key),
        [_, ..] => None,
    }
}

fn single_key(rest: &[u8]) -> Option<Key>
    ensures { result ≡ key_of 3 rest.now }
{
    let place = place_in(rest)?;
    Some(Key::Single { place })
}

fn items_key(rest: &[u8]) -> Option<Key>
    ensures { result ≡ items_key rest.now }
{
    match rest {
        [fabric, place @ ..] => items_of(*fabric, place),
        [] => None,
    }
}

fn items_of(fabric: u8, rest: &[u8]) -> Option<Key>
    ensures { result ≡ items_key (fabric ∷ rest.now) }
{
    if !is_index(fabric) {
        return None;
    }
    let place = place_in(rest)?;
    Some(Key::Items { fabric, place })
}

fn fabric_key(rest: &[u8]) -> Option<Key>
    ensures { result ≡ fabric_key rest.now }
{
    match rest {
        [index, rest @ ..] => fabric_of(*index, rest),
        [] => None,
    }
}

fn fabric_of(index: u8, rest: &[u8]) -> Option<Key>
    ensures { result ≡ fabric_key (index ∷ rest.now) }
{
    if !is_index(index) {
        return None;
    }
    alone(Key::Fabric { index }, rest)
}

// Whether it may be the index of a fabric.
fn is_index(index: u8) -> bool
    ensures { result ≡ is_index index }
{
    1 <= index && index as usize <= FABRICS
}

// Endpoint, cluster and attribute.
fn place_in(bytes: &[u8]) -> Option<Place>
    ensures { result ≡ place_in bytes.now }
{
    if bytes.len() != 10 {
        return None;
    }
    Some(Place {
        endpoint: two_bytes(bytes[0], bytes[1]),
        cluster: four_bytes(bytes[2], bytes[3], bytes[4], bytes[5]),
        leaf: four_bytes(bytes[6], bytes[7], bytes[8], bytes[9]),
    })
}

// The number of two bytes, the higher first.
fn two_bytes(a: u8, b: u8) -> u16
    ensures { result ≡ two_bytes a b }
{
    a as u16 * 256 + b as u16
}

// The number of four bytes, the highest first.
fn four_bytes(a: u8, b: u8, c: u8, d: u8) -> u32
    ensures { result ≡ four_bytes a b c d }
{
    ((a as u32 * 256 + b as u32) * 256 + c as u32) * 256 + d as u32
}
