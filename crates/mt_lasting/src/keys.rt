//! The keys that a node's state may have, and their bytes.

ghost use Rattle.std.specs.Prelude.{◌≡◌, ◌∷◌, ◌++◌, [], IfOk, OnOk, map};
ghost use Rattle.std.specs.List.{flat_map};
ghost use Rattle.mt_grammar.specs.declared.keys.Key.TheVariants.{Fabric as FabricKey, Failsafe, Networks, Roots, Single};
ghost use Rattle.mt_lasting.specs.Keys.{acl_place, all_keys, four_bytes, indexes, item_places, key_bytes, keys_of, place_bytes, single_places, two_bytes};

use mt_grammar::Key;
use mt_model::Place;
use mt_tlv::Bytes;
use std::alloc::{AllocError, Global};

macro_rules! at {
    ($endpoint:expr, $cluster:expr, $leaf:expr) => {
        Place {
            endpoint: $endpoint,
            cluster: $cluster,
            leaf: $leaf,
        }
    };
}

// The places with one value for the node, ascending.
static SINGLE_PLACES: [Place; 7] = [
    // Basic Information: NodeLabel and Location.
    at!(0, 0x28, 5),
    at!(0, 0x28, 6),
    // General Commissioning: RegulatoryConfig.
    at!(0, 0x30, 2),
    // Network Commissioning: InterfaceEnabled.
    at!(0, 0x31, 4),
    // On/Off: OnOff.
    at!(1, 0x06, 0),
    // User Label: LabelList.
    at!(1, 0x41, 0),
    // Bench: Number.
    at!(1, 0xfff1_fc00, 1),
];

// The places with items of each fabric, which are rows, ascending.
static ITEM_PLACES: [Place; 4] = [
    // Group Key Management: GroupKeyMap, and the key sets, which are no attribute's.
    at!(0, 0x3f, 0),
    at!(0, 0x3f, 0xfff1_0000),
    // Binding: Binding.
    at!(1, 0x1e, 0),
    // Bench: Items.
    at!(1, 0xfff1_fc00, 0),
];

/// The place of the access control list, whose items are entries.
pub(crate) const ACL_PLACE: Place = at!(0, 0x1f, 0);

// The indexes that fabrics may have.
static INDEXES: [u8; 16] = [1, 2, 3, 4, 5, 6, 7, 8, 9, 10, 11, 12, 13, 14, 15, 16];

/// The places with one value for the node, ascending.
pub(crate) fn single_places() -> &'static [Place]
    ensures { result.now ≡ single_places }
{
    &SINGLE_PLACES
}

/// The places with items of each fabric, but for that of the access control list.
pub(crate) fn item_places() -> &'static [Place]
    ensures { result.now ≡ item_places }
{
    &ITEM_PLACES
}

/// The indexes that fabrics may have, ascending.
pub(crate) fn indexes() -> &'static [u8]
    ensures { result.now ≡ indexes }
{
    &INDEXES
}

/// All keys, ascending.
pub(crate) fn all_keys(alloc: Global) -> Result<Vec<Key>, AllocError>
    ensures { IfOk result (λ keys. keys.items ≡ all_keys) }
{
    let mut keys = vec![in alloc; Key::Boot, Key::Ceiling]?;
    push_singles(&mut keys)?;
    push_items(&mut keys)?;
    push_fabrics(&mut keys)?;
    push_last(&mut keys)?;
    Ok(keys)
}

fn push_singles(keys: &mut Vec<Key>) -> Result<(), AllocError>
    ensures { OnOk result (keys.new.items ≡ keys.old.items ++ map Single single_places) }
{
    let places = single_places();
    for place in places {
        keys.push(Key::Single { place: *place })?;
    }
    Ok(())
}

fn push_items(keys: &mut Vec<Key>) -> Result<(), AllocError>
    ensures { OnOk result (keys.new.items ≡ keys.old.items ++ flat_map keys_of indexes) }
{
    let fabrics = indexes();
    for fabric in fabrics {
        push_items_of(*fabric, keys)?;
    }
    Ok(())
}

fn push_items_of(fabric: u8, keys: &mut Vec<Key>) -> Result<(), AllocError>
    ensures { OnOk result (keys.new.items ≡ keys.old.items ++ keys_of fabric) }
{
    keys.push(Key::Items {
        fabric,
        place: ACL_PLACE,
    })?;
    let places = item_places();
    for place in places {
        keys.push(Key::Items {
            fabric,
            place: *place,
        })?;
    }
    Ok(())
}

fn push_fabrics(keys: &mut Vec<Key>) -> Result<(), AllocError>
    ensures { OnOk result (keys.new.items ≡ keys.old.items ++ map FabricKey indexes) }
{
    let fabrics = indexes();
    for index in fabrics {
        keys.push(Key::Fabric { index: *index })?;
    }
    Ok(())
}

fn push_last(keys: &mut Vec<Key>) -> Result<(), AllocError>
    ensures { OnOk result (keys.new.items ≡ keys.old.items ++ Roots ∷ Networks ∷ Failsafe ∷ []) }
{
    keys.push(Key::Roots)?;
    keys.push(Key::Networks)?;
    keys.push(Key::Failsafe)?;
    Ok(())
}

/// The bytes of a key: its kind, and behind it what it is of, with numbers in big-endian order.
pub(crate) fn key_bytes(alloc: Global, key: &Key) -> Result<Bytes, AllocError>
    ensures { IfOk result (λ bytes. bytes ≡ key_bytes key.now) }
{
    match key {
        Key::Boot => Bytes::from_slice(alloc, &[1]),
        Key::Ceiling => Bytes::from_slice(alloc, &[2]),
        Key::Single { place } => single_bytes(alloc, place),
        Key::Items { fabric, place } => items_bytes(alloc, *fabric, place),
        Key::Fabric { index } => Bytes::from_slice(alloc, &[5, *index]),
        Key::Roots => Bytes::from_slice(alloc, &[6]),
        Key::Networks => Bytes::from_slice(alloc, &[7]),
        Key::Failsafe => Bytes::from_slice(alloc, &[8]),
    }
}

fn single_bytes(alloc: Global, place: &Place) -> Result<Bytes, AllocError>
    ensures { IfOk result (λ bytes. bytes ≡ 3 ∷ place_bytes place.now) }
{
    let mut bytes = vec![in alloc; 3]?;
    push_place(place, &mut bytes)?;
    Ok(Bytes::from_vec(bytes))
}

fn items_bytes(alloc: Global, fabric: u8, place: &Place) -> Result<Bytes, AllocError>
    ensures { IfOk result (λ bytes. bytes ≡ 4 ∷ fabric ∷ place_bytes place.now) }
{
    let mut bytes = vec![in alloc; 4, fabric]?;
    push_place(place, &mut bytes)?;
    Ok(Bytes::from_vec(bytes))
}

fn push_place(place: &Place, bytes: &mut Vec<u8>) -> Result<(), AllocError>
    ensures { OnOk result (bytes.new.items ≡ bytes.old.items ++ place_bytes place.now) }
{
    bytes.extend_from_slice(&two_bytes(place.endpoint))?;
    bytes.extend_from_slice(&four_bytes(place.cluster))?;
    bytes.extend_from_slice(&four_bytes(place.leaf))?;
    Ok(())
}

fn two_bytes(number: u16) -> [u8; 2]
    ensures { result ≡ two_bytes number }
{
    [(number / 0x100) as u8, (number % 0x100) as u8]
}

fn four_bytes(number: u32) -> [u8; 4]
    ensures { result ≡ four_bytes number }
{
    [
        (number / 0x100_0000) as u8,
        (number / 0x1_0000 % 0x100) as u8,
        (number / 0x100 % 0x100) as u8,
        (number % 0x100) as u8,
    ]
}
