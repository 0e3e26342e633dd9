//! The rows of a new node.

ghost use Rattle.std.specs.Prelude.{◌≡◌, ◌++◌, IfOk, OnOk};
ghost use Rattle.std.specs.List.{flat_map};
ghost use Rattle.mt_meta.specs.Stored.{first_rows, first_rows_of, first_rows_of_cluster, first_rows_of_endpoint, rows_from, value_of_first};

use crate::rows::{AttributeRow, FirstValue, Origin};
use crate::table::{attributes_of, clusters_of, endpoints, extensions_of, globals};
use mt_model::{Place, Row, StoredRows};
use mt_tlv::{Bytes, Members, Value};
use std::alloc::{AllocError, Global};

/// The stored attributes that are not fabric-scoped, each with its first value, in the order of their
/// places.
pub fn first_rows(alloc: Global) -> Result<StoredRows, AllocError>
    ensures { IfOk result (λ rows. rows ≡ first_rows) }
{
    let rows = rows(alloc)?;
    StoredRows::from_vec(alloc, rows)
}

fn rows(alloc: Global) -> Result<Vec<Row>, AllocError>
    ensures { IfOk result (λ rows. rows.items ≡ first_rows) }
{
    let mut rows = Vec::new(alloc);
    for endpoint in endpoints() {
        push_endpoint(alloc, &mut rows, *endpoint)?;
    }
    Ok(rows)
}

fn push_endpoint(alloc: Global, rows: &mut Vec<Row>, endpoint: u16) -> Result<(), AllocError>
    ensures { OnOk result (rows.new.items ≡ rows.old.items ++ first_rows_of_endpoint endpoint) }
{
    for cluster in clusters_of(endpoint) {
        push_cluster(alloc, rows, endpoint, *cluster)?;
    }
    Ok(())
}

fn push_cluster(
    alloc: Global,
    rows: &mut Vec<Row>,
    endpoint: u16,
    cluster: u32,
) -> Result<(), AllocError>
    ensures { OnOk result (rows.new.items ≡ rows.old.items ++ first_rows_of_cluster endpoint cluster) }
{
    push_attributes(alloc, rows, endpoint, cluster, attributes_of(cluster))?;
    push_attributes(alloc, rows, endpoint, cluster, globals())?;
    push_attributes(alloc, rows, endpoint, cluster, extensions_of(cluster))?;
    Ok(())
}

fn push_attributes(
    alloc: Global,
    rows: &mut Vec<Row>,
    endpoint: u16,
    cluster: u32,
    attributes: &[AttributeRow],
) -> Result<(), AllocError>
    ensures { OnOk result (rows.new.items
        ≡ rows.old.items ++ flat_map (first_rows_of endpoint cluster) attributes.now) }
{
    for row in attributes {
        let place = Place {
            endpoint,
            cluster,
            leaf: row.number,
        };
        push_first(alloc, rows, place, row.origin)?;
    }
    Ok(())
}

fn push_first(
    alloc: Global,
    rows: &mut Vec<Row>,
    place: Place,
    origin: Origin,
) -> Result<(), AllocError>
    ensures { OnOk result (rows.new.items ≡ rows.old.items ++ rows_from place origin) }
{
    match origin {
        Origin::Stored(value) => {
            let value = first_value(alloc, value)?;
            rows.push(Row {
                place,
                fabric: 0,
                value,
            })?;
            Ok(())
        },
        _ => Ok(()),
    }
}

fn first_value(alloc: Global, value: FirstValue) -> Result<Value, AllocError>
    ensures { IfOk result (λ first. first ≡ value_of_first value) }
{
    match value {
        FirstValue::Bool(bool) => Ok(Value::Bool(bool)),
        FirstValue::Uint(number) => Ok(Value::Uint(number)),
        FirstValue::Null => Ok(Value::Null),
        FirstValue::EmptyText => Ok(Value::Text(Bytes::new(alloc))),
        FirstValue::Country(a, b) => Ok(Value::Text(Bytes::from_slice(alloc, &[a, b])?)),
        FirstValue::EmptyArray => Ok(Value::Array(Members::from_vec(Vec::new(alloc)))),
    }
}
