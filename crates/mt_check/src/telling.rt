//! The verdict on a configuration in words: where it is bad, which row and field, and what that must be; which fields are
//! passed over; and where it is good, what the node is.

ghost use Rattle.std.specs.Prelude.{◌≡◌, IfOk, string_bytes};
ghost use Rattle.std.specs.Io.{StartsWith};
ghost use Rattle.mt_check.specs.Checked.{first_line};

use crate::checking::{Checked, Fault, Verdict};
use crate::forms::Form;
use crate::node::node_in_words;
use crate::passing::Passed;
use crate::places::{Breach, Place};
use mt_config::ConfigField;
use std::alloc::{AllocError, Global};

/// What a check has found, in words. It begins with `good`, or with `bad` and the first field that is not as it must be.
pub fn explain(alloc: Global, checked: &Checked) -> Result<String, AllocError>
    ensures first { IfOk result (λ text. StartsWith (string_bytes text) (first_line checked.now.verdict)) }
{
    let mut text = first_line(alloc, &checked.verdict)?;
    let rest = rest_of(alloc, checked)?;
    text.push_str(rest.as_str())?;
    Ok(text)
}

fn first_line(alloc: Global, verdict: &Verdict) -> Result<String, AllocError>
    ensures { IfOk result (λ text. string_bytes text ≡ first_line verdict.now) }
{
    match verdict {
        Verdict::Good(_) => String::from_str(alloc, "good\n"),
        Verdict::Bad { field, .. } => {
            let mut text = String::from_str(alloc, "bad: ")?;
            text.push_str(field.name())?;
            text.push_str("\n")?;
            Ok(text)
        }
    }
}

// What is behind the first line.
fn rest_of(alloc: Global, checked: &Checked) -> Result<String, AllocError> {
    let mut text = String::new(alloc);
    if let Verdict::Bad { field, fault } = &checked.verdict {
        tell_fault(&mut text, *field, fault)?;
    }
    for passed in checked.passed.as_slice() {
        tell_passed(&mut text, passed)?;
    }
    if let Verdict::Good(config) = &checked.verdict {
        let node = node_in_words(alloc, config)?;
        text.push_str(node.as_str())?;
    }
    Ok(text)
}

fn tell_fault(text: &mut String, field: ConfigField, fault: &Fault) -> Result<(), AllocError> {
    match fault {
        Fault::Syntax(syntax) => writeln!(text, "the text is no JSON: {syntax}"),
        Fault::Place(place) => tell_place(text, field.name(), place),
        Fault::Whole => writeln!(text, "{}", whole(field)),
    }
}

// What is wrong with a text as a whole, or with a list of which no place is found.
fn whole(field: ConfigField) -> &'static str {
    match field {
        ConfigField::Size => "the text has more than 1,048,576 bytes",
        ConfigField::Json => "the text is no object of JSON",
        _ => "the list is not as it must be",
    }
}

fn tell_place(text: &mut String, list: &str, place: &Place) -> Result<(), AllocError> {
    text.push_str(list)?;
    tell_count(text, "", place.row)?;
    tell_count(text, ", acl", place.entry)?;
    if let Some(field) = place.field {
        write!(text, ", {field}")?;
    }
    tell_count(text, "", place.item)?;
    if let Some(inner) = place.inner {
        write!(text, ", {inner}")?;
    }
    text.push_str(": ")?;
    tell_breach(text, place.breach)?;
    text.push_str("\n")
}

// The number of an item of a list, where there is one.
fn tell_count(text: &mut String, of: &str, count: u64) -> Result<(), AllocError> {
    if count == 0 {
        return Ok(());
    }
    write!(text, "{of} #{count}")
}

fn tell_breach(text: &mut String, breach: Breach) -> Result<(), AllocError> {
    match breach {
        Breach::Missing => text.push_str("is not there"),
        Breach::Form(form) => tell_form(text, form),
        Breach::NoObject => text.push_str("must be an object"),
        Breach::GroupAdministers => text.push_str("a group may not administer"),
        Breach::EmptyTarget => {
            text.push_str("must name a cluster, an endpoint or a device type")
        }
        Breach::DoubleTarget => {
            text.push_str("must not name both an endpoint and a device type")
        }
        Breach::SameIdentity(row) => {
            write!(text, "the root key and the fabric id are those of #{row}")
        }
        Breach::SameLabel(row) => write!(text, "the label is that of #{row}"),
        Breach::SameSession(row) => { write!(text, "the session of this boot is that of #{row}") }
        Breach::FourthCase => {
            text.push_str("one boot has at most 3 sessions of CASE of one fabric")
        }
        Breach::FifthPase => text.push_str("one boot has at most 4 sessions of PASE"),
    }
}

fn tell_form(text: &mut String, form: Form) -> Result<(), AllocError> {
    match form {
        Form::Bytes { least, most } => {
            text.push_str("must be a text of hex digits, two a byte, of ")?;
            tell_range(text, least as u64, most as u64)?;
            text.push_str(" bytes")
        }
        Form::Id => text.push_str("must be a text of 16 hex digits"),
        Form::Node => {
            text.push_str(
                "must be a text of 16 hex digits from 0000000000000001 to ffffffefffffffff",
            )
        }
        Form::Number { least, most } => {
            text.push_str("must be a whole number from ")?;
            tell_range(text, least, most)
        }
        Form::NumberOrNull { most } => {
            write!(text, "must be null or a whole number from 0 to {most}")
        }
        Form::Text { most } => write!(text, "must be a text of at most {most} bytes"),
        Form::List { most } => write!(text, "must be a list of at most {most} items"),
        Form::Cat => text.push_str(
            "must be a whole number up to 4294967295 whose lower 16 bits, the version, are not 0",
        ),
        Form::CaseSubject => text.push_str(
            "must be a text of 16 hex digits: the id of a node, or fffffffd, an identifier and a version that is not 0",
        ),
        Form::GroupSubject => text.push_str(
            "must be a text of 16 hex digits from 0000000000000001 to 000000000000ffff, the id of a group",
        ),
    }
}

fn tell_range(text: &mut String, least: u64, most: u64) -> Result<(), AllocError> {
    if least == most {
        return write!(text, "{least}");
    }
    write!(text, "{least} to {most}")
}

fn tell_passed(text: &mut String, passed: &Passed) -> Result<(), AllocError> {
    text.push_str("passed over, nothing reads it: ")?;
    if let Some(list) = passed.list {
        text.push_str(list)?;
        tell_count(text, "", passed.row)?;
        tell_count(text, ", acl", passed.entry)?;
        tell_count(text, ", targets", passed.target)?;
        text.push_str(", ")?;
    }
    let name = passed.name.as_str();
    writeln!(text, "{name:?}")
}
