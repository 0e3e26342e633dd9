//! What a field of a configuration must be, and whether it is.

ghost use Rattle.std.specs.Prelude.{◌≡◌, option_copied, position};
ghost use Rattle.std.specs.List.{find, list_all, list_any};
ghost use Rattle.serde_json.specs.View.{view};
ghost use Rattle.mt_config.specs.Json.{id, number};
ghost use Rattle.mt_check.specs.Forms.{are_bytes, are_digits_of, fits, fits_field, has_at_most, is_digit, is_in, is_misfit, is_operational_id, is_subject, is_tag, is_text};

use hex::FromHex;
use mt_acl::may_be_subject;
use mt_model::{Auth, is_operational};
use serde_json::Value;

/// What a value must be.
#[derive(Clone, Copy, Debug, PartialEq, Eq)]
pub enum Form {
    /// A text of hex digits, two for each of so many bytes.
    Bytes { least: usize, most: usize },
    /// A text of 16 hex digits.
    Id,
    /// The same, of an operational node: 1 to ffffffefffffffff.
    Node,
    /// A whole number in a range.
    Number { least: u64, most: u64 },
    /// A whole number up to this one, or null.
    NumberOrNull { most: u64 },
    /// A text of at most so many bytes.
    Text { most: usize },
    /// A list of at most so many items.
    List { most: usize },
    /// A CAT, as a number of 32 bits with a version that is not 0.
    Cat,
    /// The id of a node or a CAT, as a subject on CASE.
    CaseSubject,
    /// The id of a group, as a subject on Group.
    GroupSubject,
}

/// A field of a row.
#[derive(Clone, Copy, Debug)]
pub struct Field {
    pub name: &'static str,
    /// Whether it must be there.
    pub needed: bool,
    pub form: Form,
}

/// Whether a value has a form.
pub(crate) fn fits(form: Form, value: &Value) -> bool
    ensures { result ≡ fits form (view value.now) }
{
    match form {
        Form::Bytes { least, most } => are_bytes(least, most, value),
        Form::Id => id(value).is_some(),
        Form::Node => is_operational_id(value),
        Form::Number { least, most } => is_in(least, most, value),
        Form::NumberOrNull { most } => value.is_null() || number(most, value).is_some(),
        Form::Text { most } => is_text(most, value),
        Form::List { most } => has_at_most(most, value),
        Form::Cat => is_tag(value),
        Form::CaseSubject => is_subject(Auth::Case, value),
        Form::GroupSubject => is_subject(Auth::Group, value),
    }
}

fn are_bytes(least: usize, most: usize, value: &Value) -> bool
    ensures { result ≡ are_bytes least most (view value.now) }
{
    match value.as_str() {
        Some(text) => are_digits_of(least, most, text),
        None => false,
    }
}

fn are_digits_of(least: usize, most: usize, text: &str) -> bool
    ensures { result ≡ are_digits_of least most text.now }
{
    let digits = text.as_bytes();
    digits.len() % 2 == 0
        && least <= digits.len() / 2
        && digits.len() / 2 <= most
        && are_digits(digits)
}

fn are_digits(digits: &[u8]) -> bool
    ensures { result ≡ list_all is_digit digits.now }
{
    digits.iter().all(|digit| is_digit(*digit))
}

fn is_digit(byte: u8) -> bool
    ensures { result ≡ is_digit byte }
{
    (byte >= b'0' && byte <= b'9')
        || (byte >= b'a' && byte <= b'f')
        || (byte >= b'A' && byte <= b'F')
}

fn is_operational_id(value: &Value) -> bool
    ensures { result ≡ is_operational_id (view value.now) }
{
    match id(value) {
        Some(node) => is_operational(node),
        None => false,
    }
}

fn is_subject(auth: Auth, value: &Value) -> bool
    ensures { result ≡ is_subject auth (view value.now) }
{
    match id(value) {
        Some(subject) => may_be_subject(auth, subject),
        None => false,
    }
}

fn is_in(least: u64, most: u64, value: &Value) -> bool
    ensures { result ≡ is_in least most (view value.now) }
{
    match number(most, value) {
        Some(number) => least <= number,
        None => false,
    }
}

fn is_text(most: usize, value: &Value) -> bool
    ensures { result ≡ is_text most (view value.now) }
{
    match value.as_str() {
        Some(text) => text.len() <= most,
        None => false,
    }
}

#[tactic(auto, using(crate::proofs::Counts::count_view))]
fn has_at_most(most: usize, value: &Value) -> bool
    ensures { result ≡ has_at_most most (view value.now) }
{
    match value.as_array() {
        Some(items) => items.len() <= most,
        None => false,
    }
}

fn is_tag(value: &Value) -> bool
    ensures { result ≡ is_tag (view value.now) }
{
    match number(u32::MAX as u64, value) {
        Some(tag) => tag % 0x1_0000 != 0,
        None => false,
    }
}

/// The 64 bits of an id.
#[tactic(auto, unfolding(mt_config::specs::Json::id, mt_config::specs::Json::octets_of))]
pub(crate) fn id(value: &Value) -> Option<u64>
    ensures { result ≡ id (view value.now) }
{
    let text = value.as_str()?;
    match <[u8; 8]>::from_hex(text) {
        Ok(bytes) => Some(u64::from_be_bytes(bytes)),
        Err(_) => None,
    }
}

/// A whole number, up to this one.
#[tactic(auto, unfolding(mt_config::specs::Json::number))]
pub(crate) fn number(most: u64, value: &Value) -> Option<u64>
    ensures { result ≡ number most (view value.now) }
{
    match value.as_u64() {
        Some(number) if number <= most => Some(number),
        _ => None,
    }
}

/// Whether the field of a row has its form.
pub(crate) fn fits_field(row: &Value, field: &Field) -> bool
    ensures { result ≡ fits_field (view row.now) field.now }
{
    match row.get(field.name) {
        Some(value) => fits(field.form, value),
        None => !field.needed,
    }
}

/// The first of the fields that the row has not in their form.
pub(crate) fn misfit(fields: &'static [Field], row: &Value) -> Option<&'static Field>
    ensures first { option_copied result ≡ find (is_misfit (view row.now)) fields.now }
{
    fields.iter().find(|field| is_misfit(row, field))
}

fn is_misfit(row: &Value, field: &Field) -> bool
    ensures { result ≡ is_misfit (view row.now) field.now }
{
    !fits_field(row, field)
}

fn has_misfit(fields: &[Field], row: &Value) -> bool
    ensures { result ≡ list_any (is_misfit (view row.now)) fields.now }
{
    fields.iter().any(|field| is_misfit(row, field))
}

/// The first of the rows that has not its fields in their form.
pub(crate) fn first_misfit(fields: &[Field], rows: &[Value]) -> Option<usize>
    ensures first { result ≡ position (λ row. list_any (is_misfit (view row)) fields.now) rows.now }
{
    rows.iter().position(|row| has_misfit(fields, row))
}
