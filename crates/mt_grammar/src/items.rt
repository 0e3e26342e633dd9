//! Items of lists as they are kept.

ghost use Rattle.std.specs.Prelude.{◌≡◌, ◌∷◌};
ghost use Rattle.mt_tlv.specs.Scalars.{unsigned_in};
ghost use Rattle.mt_tlv.specs.View.{elements, tree};
ghost use Rattle.mt_model.specs.Optional.{is_that};
ghost use Rattle.mt_meta.specs.Fields.{are_kept_fields, is_fabric_index, is_kept_as, is_kept_item, may_be_missing};

use crate::fields::is_context;
use mt_meta::{Field, Form, has_type, is_within};
use mt_model::unsigned_of;
use mt_tlv::{Tag, Value};

/// Whether a value is an item of a fabric as it is kept: the named fields alone, in their order.
pub(crate) fn is_kept_item(fields: &[Field], fabric: u8, value: &Value) -> bool
    ensures { result ≡ is_kept_item fields.now fabric (tree value.now) }
{
    match value {
        Value::Struct(members) => are_kept_fields(fabric, fields, members.as_slice()),
        _ => false,
    }
}

#[cycle(are_kept_fields)]
#[tactic(auto, using(crate::proofs::Elements::none_of_elements))]
fn are_kept_fields(fabric: u8, fields: &[Field], members: &[(Tag, Value)]) -> bool
    ensures { result ≡ are_kept_fields fabric fields.now (elements members.now) }
{
    match fields {
        [] => members.len() == 0,
        [row, fields @ ..] => begin_with(fabric, row, fields, members),
    }
}

// The first member is that of the first field, unless that may be missing.
#[cycle(are_kept_fields)]
fn begin_with(fabric: u8, row: &Field, fields: &[Field], members: &[(Tag, Value)]) -> bool
    ensures { result ≡ are_kept_fields fabric (row.now ∷ fields.now) (elements members.now) }
{
    match members {
        [member, rest @ ..] if is_context(member.0, row.number) => {
            is_kept_as(fabric, row.form, &member.1) && are_kept_fields(fabric, fields, rest)
        },
        _ => may_be_missing(row) && are_kept_fields(fabric, fields, members),
    }
}

fn may_be_missing(row: &Field) -> bool
    ensures { result ≡ may_be_missing row.now }
{
    !row.needed && !is_fabric_index(row.form)
}

// Whether a value is that of a field of this form, of an item of this fabric.
fn is_kept_as(fabric: u8, form: Form, value: &Value) -> bool
    ensures { result ≡ is_kept_as fabric form (tree value.now) }
{
    if is_fabric_index(form) {
        return is_index(fabric, value);
    }
    has_type(form, value) && is_within(form, value)
}

fn is_fabric_index(form: Form) -> bool
    ensures { result ≡ is_fabric_index form }
{
    form == Form::FabricIndex
}

fn is_index(fabric: u8, value: &Value) -> bool
    ensures { result ≡ is_that fabric (unsigned_in (tree value.now)) }
{
    match unsigned_of(value) {
        Some(number) => number == fabric as u64,
        None => false,
    }
}
