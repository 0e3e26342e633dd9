//! The form of a group key set, and where those of all fabrics are kept.

ghost use Rattle.std.specs.Prelude.{◌≡◌, ◌&&◌, ◌||◌, option_and_then, option_map};
ghost use Rattle.mt_tlv.specs.Scalars.{octets_in};
ghost use Rattle.mt_tlv.specs.View.{elements, tree};
ghost use Rattle.mt_model.specs.Trees.{field_in};
ghost use Rattle.mt_model.specs.tables.KeySets.{has_key, has_no_key, is_id, is_key, is_key_set, is_later, is_null, is_policy, key_sets, keys_rise, number_at, start_of};

use crate::fields::{field, unsigned_of};
use crate::limits::{EPOCH_KEY_BYTES, LAST_KEY_SET};
use crate::rows::place::Place;
use mt_tlv::{Tag, Value};

/// The place at which the group key sets of all fabrics are kept. No path names it.
pub fn key_sets() -> Place
    ensures { result ≡ key_sets }
{
    Place {
        endpoint: 0,
        cluster: 0x3f,
        leaf: 0xfff1_0000,
    }
}

/// Whether these are the fields of a group key set (Matter Core Specification, chapter 11, Group Key Management
/// Cluster): 0 the id, which is not 0; 1 the policy, which is 0; a first key of 16 bytes under 2 and the time from which
/// it is used under 3, which is not 0; a second and a third with later times under 4 to 7, or null for both. It takes
/// no memory.
pub fn is_key_set(members: &[(Tag, Value)]) -> bool
    ensures { result ≡ is_key_set (elements members.now) }
{
    is_id(number_at(members, 0)) && is_policy(number_at(members, 1)) && keys_rise(members)
}

fn is_id(id: Option<u64>) -> bool
    ensures { result ≡ is_id id }
{
    match id {
        Some(id) => 0 < id && id <= LAST_KEY_SET,
        None => false,
    }
}

fn is_policy(policy: Option<u64>) -> bool
    ensures { result ≡ is_policy policy }
{
    match policy {
        Some(policy) => policy == 0,
        None => false,
    }
}

// There is a first key. Each later one is used from a later time on, and none is left out.
fn keys_rise(members: &[(Tag, Value)]) -> bool
    ensures { result ≡ keys_rise (elements members.now) }
{
    has_key(members, 0, 2, 3) && later_keys_rise(members)
}

fn later_keys_rise(members: &[(Tag, Value)]) -> bool
    ensures { let es = elements members.now in
        result ≡ ((has_no_key 4 5 es && has_no_key 6 7 es) || (has_key (start_of 3 es) 4 5 es && (has_no_key 6 7 es || has_key (start_of 5 es) 6 7 es))) }
{
    if has_no_key(members, 4, 5) && has_no_key(members, 6, 7) {
        return true;
    }
    has_key(members, start_of(members, 3), 4, 5)
        && (has_no_key(members, 6, 7) || has_key(members, start_of(members, 5), 6, 7))
}

// Whether a key stands there with a start that is later than this time.
fn has_key(members: &[(Tag, Value)], time: u64, key: u8, start: u8) -> bool
    ensures { result ≡ has_key time key start (elements members.now) }
{
    is_key(field(members, key)) && is_later(time, number_at(members, start))
}

fn is_key(key: Option<&Value>) -> bool
    ensures { result ≡ is_key (option_and_then octets_in (option_map (λ value. tree value.now) key.entry)) }
{
    match key {
        Some(Value::Octets(key)) => key.as_slice().len() == EPOCH_KEY_BYTES,
        _ => false,
    }
}

fn is_later(time: u64, start: Option<u64>) -> bool
    ensures { result ≡ is_later time start }
{
    match start {
        Some(start) => time < start,
        None => false,
    }
}

// Whether both are null.
fn has_no_key(members: &[(Tag, Value)], key: u8, start: u8) -> bool
    ensures { result ≡ has_no_key key start (elements members.now) }
{
    is_null(field(members, key)) && is_null(field(members, start))
}

fn is_null(value: Option<&Value>) -> bool
    ensures { result ≡ is_null (option_map (λ value. tree value.now) value.entry) }
{
    match value {
        Some(Value::Null) => true,
        _ => false,
    }
}

fn number_at(members: &[(Tag, Value)], number: u8) -> Option<u64>
    ensures { result ≡ number_at number (elements members.now) }
{
    unsigned_of(field(members, number)?)
}

// From when a key is used; 0 where there is none.
fn start_of(members: &[(Tag, Value)], number: u8) -> u64
    ensures { result ≡ start_of number (elements members.now) }
{
    number_at(members, number).unwrap_or(0)
}
