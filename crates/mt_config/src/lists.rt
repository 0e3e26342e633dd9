//! The lists of a configuration: rows that have their form and keep the rules.

ghost use Rattle.std.specs.Prelude.{◌≡◌, ◌≤◌, IfOk, IsTrue, length};
ghost use Rattle.serde_json.specs.View.{view, items_view};
ghost use Rattle.mt_model.specs.texts.Config.{are_csrs, are_entries, are_fabrics, are_joins, are_network_ids, are_roots, are_sessions};
ghost use Rattle.mt_model.specs.declared.limits.TheConstants.{FABRICS};
ghost use Rattle.mt_config.specs.Gives.{Answers, Gives};
ghost use Rattle.mt_config.specs.Lists.{fabrics, is_table, table_of, table_from, sessions, roots, csrs, joins, reachable};

use crate::configuration::{ConfigFault, ConfigField};
use crate::json::{Unread, items, list};
use crate::rows::{entries, fabric};
use mt_model::limits::{FABRICS, NETWORKS, SESSIONS, VERDICTS};
use mt_model::{AclEntries, CsrRows, Fabrics, JoinRows, Listed, RootRows, SessionRows, Ssids};
use mt_rules::{
    are_csrs, are_entries, are_fabrics, are_joins, are_network_ids, are_roots, are_sessions,
};
use serde_json::Value;
use std::alloc::Global;

/// The fabrics of a configuration, and the access control entries of all of them.
#[derive(Drop)]
pub(crate) struct Table {
    pub fabrics: Fabrics,
    pub entries: AclEntries,
}

/// The fabrics, with the indexes 1, 2 and so on in the order of their rows, and their entries.
#[tactic(auto, unfolding(crate::specs::Lists::fabrics))]
pub(crate) fn fabrics(alloc: Global, object: &Value) -> Result<Table, ConfigFault>
    ensures value { Answers ConfigField.Fabrics result (fabrics (view object.now)) }
    ensures fabrics { IfOk result (λ table. IsTrue (are_fabrics table.fabrics)) }
    ensures entries { IfOk result (λ table. IsTrue (are_entries table.fabrics table.entries)) }
{
    match table_of(alloc, object) {
        Ok(table) if is_table(&table) => Ok(table),
        Ok(_) => Err(ConfigFault::Field(ConfigField::Fabrics)),
        Err(why) => Err(why.in_field(ConfigField::Fabrics)),
    }
}

fn is_table(table: &Table) -> bool
    ensures { result ≡ is_table table.now }
{
    are_fabrics(table.fabrics.as_slice())
        && are_entries(table.fabrics.as_slice(), table.entries.as_slice())
}

#[tactic(auto, unfolding(crate::specs::Lists::table_of))]
fn table_of(alloc: Global, object: &Value) -> Result<Table, Unread>
    ensures { Gives (λ x. x) result (table_of (view object.now)) }
{
    let rows = items(object, "fabrics", FABRICS)?;
    table_from(alloc, rows)
}

// The rows in their order, with the indexes 1, 2 and so on.
fn table_from(alloc: Global, rows: &[Value]) -> Result<Table, Unread>
    requires { length rows.now ≤ FABRICS }
    ensures { Gives (λ x. x) result (table_from 1 (items_view rows.now)) }
{
    let mut found = Vec::new(alloc);
    let mut granted = Vec::new(alloc);
    for (place, row) in rows.iter().enumerate() {
        let index = place as u8 + 1;
        found.push(fabric(alloc, index, row)?)?;
        let mut added = entries(alloc, index, row)?;
        granted.append(&mut added)?;
    }
    Ok(Table {
        fabrics: Listed::from_vec(found),
        entries: Listed::from_vec(granted),
    })
}

/// The sessions whose keys were agreed on outside.
#[tactic(auto, unfolding(crate::specs::Lists::sessions))]
pub(crate) fn sessions(alloc: Global, object: &Value) -> Result<SessionRows, ConfigFault>
    ensures value { Answers ConfigField.Sessions result (sessions (view object.now)) }
    ensures rule { IfOk result (λ rows. IsTrue (are_sessions rows)) }
{
    match list(alloc, object, "sessions", SESSIONS) {
        Ok(rows) if are_sessions(rows.as_slice()) => Ok(rows),
        Ok(_) => Err(ConfigFault::Field(ConfigField::Sessions)),
        Err(why) => Err(why.in_field(ConfigField::Sessions)),
    }
}

/// The verdicts on root certificates.
#[tactic(auto, unfolding(crate::specs::Lists::roots))]
pub(crate) fn roots(alloc: Global, object: &Value) -> Result<RootRows, ConfigFault>
    ensures value { Answers ConfigField.Roots result (roots (view object.now)) }
    ensures rule { IfOk result (λ rows. IsTrue (are_roots rows)) }
{
    match list(alloc, object, "roots", VERDICTS) {
        Ok(rows) if are_roots(rows.as_slice()) => Ok(rows),
        Ok(_) => Err(ConfigFault::Field(ConfigField::Roots)),
        Err(why) => Err(why.in_field(ConfigField::Roots)),
    }
}

/// The answers to requests for certificate signing requests.
#[tactic(auto, unfolding(crate::specs::Lists::csrs))]
pub(crate) fn csrs(alloc: Global, object: &Value) -> Result<CsrRows, ConfigFault>
    ensures value { Answers ConfigField.Csrs result (csrs (view object.now)) }
    ensures rule { IfOk result (λ rows. IsTrue (are_csrs rows)) }
{
    match list(alloc, object, "csrs", VERDICTS) {
        Ok(rows) if are_csrs(rows.as_slice()) => Ok(rows),
        Ok(_) => Err(ConfigFault::Field(ConfigField::Csrs)),
        Err(why) => Err(why.in_field(ConfigField::Csrs)),
    }
}

/// The verdicts on chains of certificates.
#[tactic(auto, unfolding(crate::specs::Lists::joins))]
pub(crate) fn joins(alloc: Global, object: &Value) -> Result<JoinRows, ConfigFault>
    ensures value { Answers ConfigField.Joins result (joins (view object.now)) }
    ensures rule { IfOk result (λ rows. IsTrue (are_joins rows)) }
{
    match list(alloc, object, "joins", VERDICTS) {
        Ok(rows) if are_joins(rows.as_slice()) => Ok(rows),
        Ok(_) => Err(ConfigFault::Field(ConfigField::Joins)),
        Err(why) => Err(why.in_field(ConfigField::Joins)),
    }
}

/// The ids of the networks to which the node can connect.
#[tactic(auto, unfolding(crate::specs::Lists::reachable))]
pub(crate) fn reachable(alloc: Global, object: &Value) -> Result<Ssids, ConfigFault>
    ensures value { Answers ConfigField.Reachable result (reachable (view object.now)) }
    ensures rule { IfOk result (λ ids. IsTrue (are_network_ids ids)) }
{
    match list(alloc, object, "reachable", NETWORKS) {
        Ok(ids) if are_network_ids(ids.as_slice()) => Ok(ids),
        Ok(_) => Err(ConfigFault::Field(ConfigField::Reachable)),
        Err(why) => Err(why.in_field(ConfigField::Reachable)),
    }
}
