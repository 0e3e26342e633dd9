//! The configuration of a node, read from its text.

ghost use Rattle.std.specs.Prelude.{◌≡◌, IfErr, IfOk, Some};
ghost use Rattle.serde_json.specs.View.{view};
ghost use Rattle.mt_config.specs.Configuration.{IsConfiguration, IsFaultOf, IsFirstFault, IsReadAs, contents, name_of, object};
ghost use Rattle.mt_model.specs.texts.Contents.{contents_of};
ghost use Rattle.mt_config.specs.Gives.{AnswersAs};

use crate::lists::{csrs, fabrics, joins, reachable, roots, sessions};
use mt_model::Config;
use mt_model::limits::CONFIGURATION_BYTES;
use serde_json::Value;
use std::alloc::Global;
use std::fmt;
use thiserror::Error;

/// What of a configuration's text is not as it must be: its size, the JSON as a whole, or a list. They
/// are looked at in this order.
#[derive(Clone, Copy, Debug, PartialEq, Eq)]
pub enum ConfigField {
    Size,
    Json,
    Fabrics,
    Sessions,
    Roots,
    Csrs,
    Joins,
    Reachable,
}

impl ConfigField {
    /// The name, as the list has it in the text.
    pub fn name(self) -> &'static str
        ensures { result.now ≡ name_of self }
    {
        match self {
            ConfigField::Size => "size",
            ConfigField::Json => "json",
            ConfigField::Fabrics => "fabrics",
            ConfigField::Sessions => "sessions",
            ConfigField::Roots => "roots",
            ConfigField::Csrs => "csrs",
            ConfigField::Joins => "joins",
            ConfigField::Reachable => "reachable",
        }
    }
}

impl fmt::Display for ConfigField {
    ghost output = { λ field. Some (name_of field) };

    fn fmt<W: fmt::Write>(&self, f: &mut fmt::Formatter<W>) -> fmt::Result {
        f.write_str(self.name())
    }
}

/// Why a configuration was not read.
#[derive(Clone, Copy, Debug, Drop, PartialEq, Eq, Error)]
pub enum ConfigFault {
    /// The first field that is not as it must be.
    #[error("the configuration's {0} is not as it must be")]
    Field(ConfigField),
    #[error("out of memory")]
    Memory,
}

/// The configuration that these bytes are: a JSON object of at most 1,048,576 bytes with the lists
/// `fabrics`, `sessions`, `roots`, `csrs`, `joins` and `reachable`, each of which may be missing. A
/// fault names the first of them that is not as it must be.
#[tactic(auto, unfolding(crate::specs::Configuration::configuration))]
pub fn config(alloc: Global, bytes: &[u8]) -> Result<Config, ConfigFault>
    ensures read { IfOk result (λ config. IsConfiguration bytes.now config) }
    ensures refused { IfErr result (λ fault. IsFirstFault bytes.now fault) }
    ensures only { (wanted : Config) → IsConfiguration bytes.now wanted → IsReadAs wanted result }
{
    if bytes.len() > CONFIGURATION_BYTES {
        return Err(ConfigFault::Field(ConfigField::Size));
    }
    let object = object(alloc, bytes)?;
    lists(alloc, &object)
}

#[tactic(auto, unfolding(crate::specs::Configuration::object))]
fn object(alloc: Global, bytes: &[u8]) -> Result<Value, ConfigFault>
    ensures { AnswersAs view ConfigField.Json result (object bytes.now) }
{
    match Value::from_slice(alloc, bytes) {
        Ok(value) => {
            if value.is_object() {
                Ok(value)
            } else {
                Err(ConfigFault::Field(ConfigField::Json))
            }
        }
        Err(error) => {
            if error.is_memory() {
                Err(ConfigFault::Memory)
            } else {
                Err(ConfigFault::Field(ConfigField::Json))
            }
        }
    }
}

#[tactic(auto, unfolding(crate::specs::Configuration::contents))]
fn lists(alloc: Global, object: &Value) -> Result<Config, ConfigFault>
    ensures read { IfOk result (λ config. contents (view object.now) ≡ Ok (contents_of config)) }
    ensures refused { IfErr result (λ fault. IsFaultOf (contents (view object.now)) fault) }
{
    let table = fabrics(alloc, object)?;
    let sessions = sessions(alloc, object)?;
    let roots = roots(alloc, object)?;
    let csrs = csrs(alloc, object)?;
    let joins = joins(alloc, object)?;
    let reachable = reachable(alloc, object)?;
    Ok(Config {
        fabrics: table.fabrics,
        entries: table.entries,
        sessions,
        roots,
        csrs,
        joins,
        reachable,
    })
}
