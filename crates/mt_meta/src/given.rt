//! What stands in the fields of a command, whose form is asked before: `has_fields`. What is missing or has
//! another form is read as 0, as no bytes, as false, or as what is not given.

ghost use Rattle.std.specs.Prelude.{◌≡◌, option_map};
ghost use Rattle.mt_tlv.specs.View.{tree};
ghost use Rattle.mt_meta.specs.Given.{field_of, flag_of, given_number, number_of, octets_of, text_of};

use mt_model::{field, structure_of, unsigned_of};
use mt_tlv::Value;

/// A number that may be missing.
pub fn given_number(fields: &Value, number: u8) -> Option<u64>
    ensures { result ≡ given_number number fields.now }
{
    unsigned_of(field_of(fields, number)?)
}

/// A number, 0 where it is missing.
pub fn number_of(fields: &Value, number: u8) -> u64
    ensures { result ≡ number_of number fields.now }
{
    given_number(fields, number).unwrap_or(0)
}

/// Octets, none where they are missing.
pub fn octets_of(fields: &Value, number: u8) -> &[u8]
    ensures { result.now ≡ octets_of number fields.now }
{
    match field_of(fields, number) {
        Some(Value::Octets(octets)) => octets.as_slice(),
        _ => &[],
    }
}

/// A text's bytes, none where it is missing.
pub fn text_of(fields: &Value, number: u8) -> &[u8]
    ensures { result.now ≡ text_of number fields.now }
{
    match field_of(fields, number) {
        Some(Value::Text(text)) => text.as_slice(),
        _ => &[],
    }
}

/// A truth value, false where it is missing.
pub fn flag_of(fields: &Value, number: u8) -> bool
    ensures { result ≡ flag_of number fields.now }
{
    match field_of(fields, number) {
        Some(Value::Bool(flag)) => *flag,
        _ => false,
    }
}

// The first field of this number.
fn field_of(fields: &Value, number: u8) -> Option<&Value>
    ensures { option_map (λ value. tree value.now) result ≡ field_of number fields.now }
{
    let members = structure_of(fields)?;
    field(members, number)
}
