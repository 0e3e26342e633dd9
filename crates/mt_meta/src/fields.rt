//! The forms that the table asks of what is given: of written values, of the fields of items and of those of commands.

ghost use Rattle.std.specs.Prelude.{◌≡◌};
ghost use Rattle.std.specs.List.{list_all};
ghost use Rattle.mt_tlv.specs.View.{elements, tree};
ghost use Rattle.mt_tlv.specs.declared.value.Tag.{Tag};
ghost use Rattle.mt_tlv.specs.declared.value.Value.{Value};
ghost use Rattle.mt_model.specs.Trees.{field_in};
ghost use Rattle.mt_meta.specs.declared.rows.Field.{Field};
ghost use Rattle.mt_meta.specs.Targets.{is_target, is_unsigned};
ghost use Rattle.mt_meta.specs.Fields.{all_elements, are_octets, are_within, field_has_type, field_is_within, has_fields, has_type, have_types, is_bool, is_item, is_null_or, is_null_or_array, is_number, is_structure, is_text, is_within, octets_fit, text_fits};

use crate::rows::{Field, Form};
use crate::targets::target_of;
use mt_model::{field, is_utf8, structure_of};
use mt_tlv::{Tag, Value};

/// Whether a value has the type that a form asks for.
pub fn has_type(form: Form, value: &Value) -> bool
    ensures { result ≡ has_type form (tree value.now) }
{
    match form {
        Form::Bool => is_bool(value),
        Form::Uint { greatest } => is_number(greatest, value),
        Form::Text { .. } => is_text(value),
        Form::Octets { .. } => are_octets(value),
        Form::Subjects => are_subjects(value),
        Form::Targets => are_targets(value),
        Form::FabricIndex => is_unsigned(value),
        Form::NullableUint { greatest } => is_null_or_number(greatest, value),
        Form::NullableOctets { .. } => is_null_or_octets(value),
        Form::Structure => is_structure(value),
    }
}

fn is_bool(value: &Value) -> bool
    ensures { result ≡ is_bool (tree value.now) }
{
    match value {
        Value::Bool(_) => true,
        _ => false,
    }
}

fn is_number(greatest: u64, value: &Value) -> bool
    ensures { result ≡ is_number greatest (tree value.now) }
{
    match value {
        Value::Uint(number) => *number <= greatest,
        _ => false,
    }
}

fn is_unsigned(value: &Value) -> bool
    ensures { result ≡ is_unsigned (tree value.now) }
{
    match value {
        Value::Uint(_) => true,
        _ => false,
    }
}

fn is_null_or_number(greatest: u64, value: &Value) -> bool
    ensures { result ≡ is_null_or (is_number greatest) (tree value.now) }
{
    match value {
        Value::Null => true,
        Value::Uint(number) => *number <= greatest,
        _ => false,
    }
}

fn is_null_or_octets(value: &Value) -> bool
    ensures { result ≡ is_null_or are_octets (tree value.now) }
{
    match value {
        Value::Null => true,
        Value::Octets(_) => true,
        _ => false,
    }
}

fn is_structure(value: &Value) -> bool
    ensures { result ≡ is_structure (tree value.now) }
{
    match value {
        Value::Struct(_) => true,
        _ => false,
    }
}

fn is_text(value: &Value) -> bool
    ensures { result ≡ is_text (tree value.now) }
{
    match value {
        Value::Text(text) => is_utf8(text.as_slice()),
        _ => false,
    }
}

fn are_octets(value: &Value) -> bool
    ensures { result ≡ are_octets (tree value.now) }
{
    match value {
        Value::Octets(_) => true,
        _ => false,
    }
}

fn are_subjects(value: &Value) -> bool
    ensures { result ≡ is_null_or_array is_unsigned (tree value.now) }
{
    match value {
        Value::Null => true,
        Value::Array(subjects) => all_unsigned(subjects.as_slice()),
        _ => false,
    }
}

#[tactic(auto, using(crate::proofs::Elements::all_of_elements))]
fn all_unsigned(members: &[(Tag, Value)]) -> bool
    ensures { result ≡ all_elements is_unsigned (elements members.now) }
{
    each_is_unsigned(members)
}

fn each_is_unsigned(members: &[(Tag, Value)]) -> bool
    ensures { result ≡ list_all (λ (member : Tag × Value). is_unsigned (tree member.1)) members.now }
{
    members.iter().all(|member| is_unsigned(&member.1))
}

fn are_targets(value: &Value) -> bool
    ensures { result ≡ is_null_or_array is_target (tree value.now) }
{
    match value {
        Value::Null => true,
        Value::Array(targets) => all_targets(targets.as_slice()),
        _ => false,
    }
}

#[tactic(auto, using(crate::proofs::Elements::all_of_elements))]
fn all_targets(members: &[(Tag, Value)]) -> bool
    ensures { result ≡ all_elements is_target (elements members.now) }
{
    each_is_target(members)
}

fn each_is_target(members: &[(Tag, Value)]) -> bool
    ensures { result ≡ list_all (λ (member : Tag × Value). is_target (tree member.1)) members.now }
{
    members.iter().all(|member| is_target(&member.1))
}

fn is_target(value: &Value) -> bool
    ensures { result ≡ is_target (tree value.now) }
{
    target_of(value).is_some()
}

/// Whether a value that has the type of a form keeps its limits.
pub fn is_within(form: Form, value: &Value) -> bool
    ensures { result ≡ is_within form (tree value.now) }
{
    match form {
        Form::Text { least, most } => text_fits(least, most, value),
        Form::Octets { least, most } => octets_fit(least, most, value),
        Form::NullableOctets { least, most } => octets_fit(least, most, value),
        _ => true,
    }
}

fn text_fits(least: u16, most: u16, value: &Value) -> bool
    ensures { result ≡ text_fits least most (tree value.now) }
{
    match value {
        Value::Text(text) => least as usize <= text.as_slice().len()
            && text.as_slice().len() <= most as usize,
        _ => true,
    }
}

fn octets_fit(least: u16, most: u16, value: &Value) -> bool
    ensures { result ≡ octets_fit least most (tree value.now) }
{
    match value {
        Value::Octets(octets) => least as usize <= octets.as_slice().len()
            && octets.as_slice().len() <= most as usize,
        _ => true,
    }
}

/// Whether all items are structures whose fields have their types.
#[tactic(auto, using(crate::proofs::Elements::all_of_elements))]
pub fn are_items(fields: &[Field], items: &[(Tag, Value)]) -> bool
    ensures { result ≡ all_elements (is_item fields.now) (elements items.now) }
{
    each_is_item(fields, items)
}

fn each_is_item(fields: &[Field], items: &[(Tag, Value)]) -> bool
    ensures { result ≡ list_all (λ (item : Tag × Value). is_item fields.now (tree item.1)) items.now }
{
    items.iter().all(|item| is_item(fields, &item.1))
}

/// Whether an item is a structure whose fields have their types.
pub fn is_item(fields: &[Field], item: &Value) -> bool
    ensures { result ≡ is_item fields.now (tree item.now) }
{
    match structure_of(item) {
        Some(members) => have_types(fields, members),
        None => false,
    }
}

fn have_types(fields: &[Field], members: &[(Tag, Value)]) -> bool
    ensures { result ≡ have_types fields.now (elements members.now) }
{
    fields.iter().all(|row| field_has_type(row, members))
}

fn field_has_type(row: &Field, members: &[(Tag, Value)]) -> bool
    ensures { result ≡ field_has_type row.now (field_in row.now.number (elements members.now)) }
{
    match field(members, row.number) {
        Some(value) => has_type(row.form, value),
        None => !row.needed,
    }
}

/// Whether the fields of an item keep their limits.
pub fn are_within(fields: &[Field], members: &[(Tag, Value)]) -> bool
    ensures { result ≡ are_within fields.now (elements members.now) }
{
    fields.iter().all(|row| field_is_within(row, members))
}

fn field_is_within(row: &Field, members: &[(Tag, Value)]) -> bool
    ensures { result ≡ field_is_within row.now (field_in row.now.number (elements members.now)) }
{
    match field(members, row.number) {
        Some(value) => is_within(row.form, value),
        None => true,
    }
}

/// Whether a value is a structure that has these fields: each that must be there is, and each that is there
/// has its type and keeps its limits. What is not named is passed over.
pub fn has_fields(fields: &[Field], value: &Value) -> bool
    ensures { result ≡ has_fields fields.now (tree value.now) }
{
    match structure_of(value) {
        Some(members) => have_types(fields, members) && are_within(fields, members),
        None => false,
    }
}
