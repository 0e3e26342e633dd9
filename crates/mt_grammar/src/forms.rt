//! The forms of values that are kept.

ghost use Rattle.std.specs.Prelude.{◌≡◌, ◌&&◌, ℕ, false, nat_le, length};
ghost use Rattle.std.specs.List.{list_all};
ghost use Rattle.std.specs.Str.{is_utf8};
ghost use Rattle.mt_tlv.specs.View.{elements, tree};
ghost use Rattle.mt_tlv.specs.declared.value.Tag.{Tag};
ghost use Rattle.mt_tlv.specs.declared.value.Value.{Value};
ghost use Rattle.mt_meta.specs.Forms.{all_in, count_in, has_form, is_label_item, is_of_kind};
ghost use Rattle.mt_meta.specs.declared.meta.Kind.TheVariants as kinds;
ghost use Rattle.mt_grammar.specs.Values.{is_acl};

use crate::fields::are_untagged;
use crate::items::is_kept_item;
use mt_meta::{Kind, Meta, fields_of};
use mt_model::limits::NETWORK_ID_BYTES;
use mt_model::{is_key_set, is_utf8};
use mt_rules::has_up_to;
use mt_tlv::{Tag, Value};

/// Whether a value has the form of an attribute, and is this fabric's where it is an item. Entries of the access control
/// list are read in another way.
pub(crate) fn has_form(meta: &Meta, fabric: u8, value: &Value) -> bool
    requires { is_acl meta.now.kind ≡ false }
    ensures { result ≡ has_form meta.now fabric value.now }
{
    match meta.kind {
        Kind::Bool => is_bool(value),
        Kind::Uint => is_uint(value),
        Kind::Uint32 => is_uint32(value),
        Kind::NullableUint => is_nullable_uint(value),
        Kind::NullableOctets => is_nullable_id(value),
        Kind::Text => is_text(meta.least, meta.limit, value),
        Kind::Labels => are_labels(meta.limit, value),
        Kind::Binding => is_binding(fabric, value),
        Kind::Bench => is_bench(fabric, value),
        Kind::GroupKeyMap => is_mapped(fabric, value),
        Kind::KeySets => is_set(fabric, value),
        Kind::Null
        | Kind::Numbers
        | Kind::Structure
        | Kind::DeviceTypes
        | Kind::Acl
        | Kind::Networks
        | Kind::Nocs
        | Kind::Fabrics
        | Kind::Roots
        | Kind::GroupTable => false,
    }
}

fn is_bool(value: &Value) -> bool
    ensures { (least limit fabric : ℕ) → result ≡ is_of_kind kinds.Bool least limit fabric value.now }
{
    match value {
        Value::Bool(_) => true,
        _ => false,
    }
}

fn is_uint(value: &Value) -> bool
    ensures { (least limit fabric : ℕ) → result ≡ is_of_kind kinds.Uint least limit fabric value.now }
{
    match value {
        Value::Uint(number) => *number <= u64::MAX,
        _ => false,
    }
}

fn is_uint32(value: &Value) -> bool
    ensures { (least limit fabric : ℕ) → result ≡ is_of_kind kinds.Uint32 least limit fabric value.now }
{
    match value {
        Value::Uint(number) => *number < 0x1_0000_0000,
        _ => false,
    }
}

fn is_nullable_uint(value: &Value) -> bool
    ensures { (least limit fabric : ℕ) → result ≡ is_of_kind kinds.NullableUint least limit fabric value.now }
{
    match value {
        Value::Null => true,
        Value::Uint(number) => *number <= u64::MAX,
        _ => false,
    }
}

fn is_nullable_id(value: &Value) -> bool
    ensures { (least limit fabric : ℕ) → result ≡ is_of_kind kinds.NullableOctets least limit fabric value.now }
{
    match value {
        Value::Null => true,
        Value::Octets(octets) => has_up_to(NETWORK_ID_BYTES, octets.as_slice()),
        _ => false,
    }
}

fn is_text(least: u16, limit: u16, value: &Value) -> bool
    ensures { (fabric : ℕ) → result ≡ is_of_kind kinds.Text least limit fabric value.now }
{
    match value {
        Value::Text(text) => is_text_within(least, limit, text.as_slice()),
        _ => false,
    }
}

fn is_text_within(least: u16, most: u16, text: &[u8]) -> bool
    ensures { result ≡ (nat_le least (length text.now) && nat_le (length text.now) most && is_utf8 text.now) }
{
    least as usize <= text.len() && text.len() <= most as usize && is_utf8(text)
}

// Lists of labels.

fn are_labels(limit: u16, value: &Value) -> bool
    ensures { (least fabric : ℕ) → result ≡ is_of_kind kinds.Labels least limit fabric value.now }
{
    match value {
        Value::Array(members) => are_few_labels(limit, members.as_slice()),
        _ => false,
    }
}

#[tactic(auto, using(crate::proofs::Elements::count_of_elements, crate::proofs::Elements::all_of_elements))]
fn are_few_labels(limit: u16, members: &[(Tag, Value)]) -> bool
    ensures { result ≡ (nat_le (count_in (elements members.now)) limit && all_in is_label_item (elements members.now)) }
{
    members.len() <= limit as usize && are_untagged(members) && each_is_label(members)
}

fn each_is_label(members: &[(Tag, Value)]) -> bool
    ensures { result ≡ list_all (λ (member : Tag × Value). is_label_item (tree member.1)) members.now }
{
    members.iter().all(|member| is_label(&member.1))
}

fn is_label(value: &Value) -> bool
    ensures { result ≡ is_label_item (tree value.now) }
{
    is_kept_item(fields_of(Kind::Labels), 0, value)
}

// Items of scoped lists.

fn is_binding(fabric: u8, value: &Value) -> bool
    ensures { (least limit : ℕ) → result ≡ is_of_kind kinds.Binding least limit fabric value.now }
{
    is_kept_item(fields_of(Kind::Binding), fabric, value)
}

fn is_bench(fabric: u8, value: &Value) -> bool
    ensures { (least limit : ℕ) → result ≡ is_of_kind kinds.Bench least limit fabric value.now }
{
    is_kept_item(fields_of(Kind::Bench), fabric, value)
}

fn is_mapped(fabric: u8, value: &Value) -> bool
    ensures { (least limit : ℕ) → result ≡ is_of_kind kinds.GroupKeyMap least limit fabric value.now }
{
    is_kept_item(fields_of(Kind::GroupKeyMap), fabric, value)
}

// Group key sets.

fn is_set(fabric: u8, value: &Value) -> bool
    ensures { (least limit : ℕ) → result ≡ is_of_kind kinds.KeySets least limit fabric value.now }
{
    match value {
        Value::Struct(members) => {
            is_key_set(members.as_slice()) && is_kept_item(fields_of(Kind::KeySets), fabric, value)
        },
        _ => false,
    }
}
