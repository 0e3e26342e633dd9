//! Places and values in words.

use mt_model::Place;
use mt_names::{attribute_name, cluster_name};
use mt_tlv::{Cursor, Part, Tag, Value, write};
use std::alloc::{AllocError, Global};

/// The endpoint, the cluster and the attribute.
pub(crate) fn tell_place(text: &mut String, place: &Place) -> Result<(), AllocError> {
    let endpoint = place.endpoint;
    write!(text, "{endpoint}/")?;
    tell_name(text, cluster_name(place.cluster), place.cluster)?;
    text.push_str("/")?;
    tell_name(text, attribute_name(place.cluster, place.leaf), place.leaf)
}

/// The endpoint and the cluster.
pub(crate) fn tell_cluster(
    text: &mut String,
    endpoint: u16,
    cluster: u32,
) -> Result<(), AllocError> {
    write!(text, "{endpoint}/")?;
    tell_name(text, cluster_name(cluster), cluster)
}

fn tell_name(text: &mut String, name: Option<&'static str>, number: u32) -> Result<(), AllocError> {
    match name {
        Some(name) => text.push_str(name),
        None => write!(text, "0x{number:x}"),
    }
}

/// A value: fields by their numbers, texts in quotes, octets in hex.
pub(crate) fn tell_value(
    alloc: Global,
    text: &mut String,
    value: &Value,
) -> Result<(), AllocError> {
    let mut bytes = Vec::new(alloc);
    write(&Tag::Anonymous, value, &mut bytes)?;
    let mut cursor = Cursor::new(&bytes);
    let mut is_first = true;
    for _ in 0..bytes.len() {
        let Ok(Some(part)) = cursor.next() else {
            return Ok(());
        };
        is_first = tell_part(text, &part, is_first)?;
    }
    Ok(())
}

// A part of a value; whether the next one is the first of a container.
fn tell_part(text: &mut String, part: &Part<'_>, is_first: bool) -> Result<bool, AllocError> {
    match part {
        Part::Leave => {
            text.push_str("}")?;
            return Ok(false);
        }
        Part::Enter(tag, _) => {
            tell_tag(text, tag, is_first)?;
            text.push_str("{")?;
            return Ok(true);
        }
        Part::Text(tag, words) => {
            tell_tag(text, tag, is_first)?;
            write!(text, "{words:?}")?;
        }
        Part::Octets(tag, octets) => {
            tell_tag(text, tag, is_first)?;
            tell_octets(text, octets)?;
        }
        Part::Scalar(tag, value) => {
            tell_tag(text, tag, is_first)?;
            tell_scalar(text, value)?;
        }
    }
    Ok(false)
}

// What is in front of a member: a comma behind another, and its number in a structure.
fn tell_tag(text: &mut String, tag: &Tag, is_first: bool) -> Result<(), AllocError> {
    if !is_first {
        text.push_str(", ")?;
    }
    match tag {
        Tag::Context(number) => write!(text, "{number}: "),
        _ => Ok(()),
    }
}

fn tell_scalar(text: &mut String, value: &Value) -> Result<(), AllocError> {
    match value {
        Value::Int(number) => write!(text, "{number}"),
        Value::Uint(number) => write!(text, "{number}"),
        Value::Bool(is_so) => write!(text, "{is_so}"),
        Value::Null => text.push_str("null"),
        Value::Bits32(bits) => write!(text, "bits 0x{bits:x}"),
        Value::Bits64(bits) => write!(text, "bits 0x{bits:x}"),
        _ => Ok(()),
    }
}

/// Octets in hex.
pub(crate) fn tell_octets(text: &mut String, octets: &[u8]) -> Result<(), AllocError> {
    text.push_str("0x")?;
    for octet in octets {
        write!(text, "{octet:02x}")?;
    }
    Ok(())
}
