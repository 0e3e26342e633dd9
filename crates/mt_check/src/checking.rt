//! The verdict on the text of a configuration: that of `config`, with what helps to see why.

ghost use Rattle.std.specs.Prelude.{IfOk};
ghost use Rattle.mt_check.specs.Checked.{IsVerdict};

use crate::passing::{Passed, passed_in};
use crate::places::{Place, place_in};
use mt_config::{ConfigFault, ConfigField, config};
use mt_model::Config;
use mt_model::limits::CONFIGURATION_BYTES;
use serde_json::Value;
use std::alloc::{AllocError, Global};

/// Whether a text is a configuration.
pub enum Verdict {
    Good(Config),
    /// The first field that is not as it must be, and what of it.
    Bad { field: ConfigField, fault: Fault },
}

impl Drop for Verdict {
    fn drop(self) {
        match self {
            Verdict::Good(_) => {}
            Verdict::Bad { field: _, fault: _ } => {}
        }
    }
}

/// What of a field is not as it must be.
#[derive(Drop)]
pub enum Fault {
    /// Why the text is no JSON, with the place.
    Syntax(String),
    /// A place of a list.
    Place(Place),
    /// There is nothing to be said beside the field.
    Whole,
}

/// The verdict on a text, and the fields that are passed over.
#[derive(Drop)]
pub struct Checked {
    pub verdict: Verdict,
    pub passed: Vec<Passed>,
}

/// Checks a text: it is good exactly where `config` reads it, and otherwise names the field that `config` names.
pub fn check(alloc: Global, bytes: &[u8]) -> Result<Checked, AllocError>
    ensures verdict { IfOk result (λ checked. IsVerdict bytes.now checked.verdict) }
{
    match config(alloc, bytes) {
        Ok(config) => Ok(Checked {
            verdict: Verdict::Good(config),
            passed: passed_by(alloc, bytes)?,
        }),
        Err(ConfigFault::Field(field)) => Ok(Checked {
            verdict: Verdict::Bad {
                field,
                fault: fault_of(alloc, field, bytes)?,
            },
            passed: passed_by(alloc, bytes)?,
        }),
        Err(ConfigFault::Memory) => Err(AllocError),
    }
}

// The value that a text is, where it is not too long.
fn value_of(alloc: Global, bytes: &[u8]) -> Option<Value> {
    if bytes.len() > CONFIGURATION_BYTES {
        return None;
    }
    Value::from_slice(alloc, bytes).ok()
}

// The fields that are passed over.
fn passed_by(alloc: Global, bytes: &[u8]) -> Result<Vec<Passed>, AllocError> {
    match value_of(alloc, bytes) {
        Some(object) => passed_in(alloc, &object),
        None => Ok(Vec::new(alloc)),
    }
}

// What of a field is not as it must be.
fn fault_of(alloc: Global, field: ConfigField, bytes: &[u8]) -> Result<Fault, AllocError> {
    match field {
        ConfigField::Size => Ok(Fault::Whole),
        ConfigField::Json => syntax_of(alloc, bytes),
        _ => Ok(place_by(alloc, field, bytes)),
    }
}

fn syntax_of(alloc: Global, bytes: &[u8]) -> Result<Fault, AllocError> {
    match Value::from_slice(alloc, bytes) {
        Ok(_) => Ok(Fault::Whole),
        Err(error) => Ok(Fault::Syntax(error.to_string(alloc)?)),
    }
}

fn place_by(alloc: Global, list: ConfigField, bytes: &[u8]) -> Fault {
    let Some(object) = value_of(alloc, bytes) else {
        return Fault::Whole;
    };
    match place_in(list, &object) {
        Some(place) => Fault::Place(place),
        None => Fault::Whole,
    }
}
