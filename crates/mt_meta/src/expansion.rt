//! The places that a path names.

ghost use Rattle.std.specs.Prelude.{◌≡◌, ◌↔◌, ◌==◌, ◌++◌, ◌&&◌, All, IfOk, IsOk, IsTrue, OnOk, filter, map};
ghost use Rattle.std.specs.List.{flat_map, list_any};
ghost use Rattle.mt_meta.specs.Finding.{find_of};
ghost use Rattle.mt_meta.specs.Places.{all_places, is_global, is_named, is_named_by, is_not_global, place_of, places, places_of_cluster, places_of_endpoint};

use crate::rows::AttributeRow;
use crate::table::{attributes_of, clusters_of, endpoints, extensions_of, globals};
use mt_model::{Index, Path, Place, Places};
use std::alloc::{AllocError, Global};

/// Why a path is not expanded.
#[derive(Clone, Copy, Debug, PartialEq, Eq)]
pub enum ExpandFault {
    /// The cluster is a wildcard, and an attribute is given that not every cluster has.
    NotGlobal = 1,
    /// There was no memory.
    Memory = 2,
}

/// The places that a path names, ascending by endpoint, cluster and attribute: none where what it
/// names is not there.
pub fn expand(alloc: Global, path: &Path) -> Result<Places, ExpandFault>
    ensures places { IfOk result (λ expanded. expanded ≡ places path.now) }
    ensures found { IfOk result (All (λ place. IsOk (find_of place))) }
    ensures not_global { (result ≡ Err ExpandFault.NotGlobal) ↔ IsTrue (is_not_global path.now) }
{
    if is_not_global(path) {
        return Err(ExpandFault::NotGlobal);
    }
    match named(alloc, path) {
        Ok(named) => Ok(Places::from_vec(named)),
        Err(_) => Err(ExpandFault::Memory),
    }
}

/// The places of all attributes, ascending by endpoint, cluster and attribute.
pub fn all_places(alloc: Global) -> Result<Places, AllocError>
    ensures { IfOk result (λ places. places ≡ all_places) }
{
    let everywhere = Path {
        endpoint: None,
        cluster: None,
        leaf: None,
        index: Index::Whole,
    };
    Ok(Places::from_vec(named(alloc, &everywhere)?))
}

/// Whether every cluster has the attribute.
pub fn is_global(attribute: u32) -> bool
    ensures { result ≡ is_global attribute }
{
    globals().iter().any(|row| row.number == attribute)
}

/// Whether the path asks every cluster for an attribute that not every cluster has.
pub fn is_not_global(path: &Path) -> bool
    ensures { result ≡ is_not_global path.now }
{
    match (path.cluster, path.leaf) {
        (None, Some(attribute)) => !is_global(attribute),
        _ => false,
    }
}

fn named(alloc: Global, path: &Path) -> Result<Vec<Place>, AllocError>
    ensures { IfOk result (λ named. named.items ≡ places path.now) }
{
    let mut named = Vec::new(alloc);
    for endpoint in endpoints() {
        push_endpoint(&mut named, path, *endpoint)?;
    }
    Ok(named)
}

fn push_endpoint(named: &mut Vec<Place>, path: &Path, endpoint: u16) -> Result<(), AllocError>
    ensures { OnOk result (named.new.items
        ≡ named.old.items ++ filter (is_named path.now) (places_of_endpoint endpoint)) }
{
    for cluster in clusters_of(endpoint) {
        push_cluster(named, path, endpoint, *cluster)?;
    }
    Ok(())
}

fn push_cluster(
    named: &mut Vec<Place>,
    path: &Path,
    endpoint: u16,
    cluster: u32,
) -> Result<(), AllocError>
    ensures { OnOk result (named.new.items
        ≡ named.old.items ++ filter (is_named path.now) (places_of_cluster endpoint cluster)) }
{
    push_attributes(named, path, endpoint, cluster, attributes_of(cluster))?;
    push_attributes(named, path, endpoint, cluster, globals())?;
    push_attributes(named, path, endpoint, cluster, extensions_of(cluster))?;
    Ok(())
}

fn push_attributes(
    named: &mut Vec<Place>,
    path: &Path,
    endpoint: u16,
    cluster: u32,
    rows: &[AttributeRow],
) -> Result<(), AllocError>
    ensures { OnOk result (named.new.items
        ≡ named.old.items ++ filter (is_named path.now) (map (place_of endpoint cluster) rows.now)) }
{
    for row in rows {
        let place = Place {
            endpoint,
            cluster,
            leaf: row.number,
        };
        if is_named(path, &place) {
            named.push(place)?;
        }
    }
    Ok(())
}

/// Whether one of the paths names the place.
pub fn is_named_by(paths: &[Path], place: &Place) -> bool
    ensures { result ≡ is_named_by paths.now place.now }
{
    paths.iter().any(|path| is_named(path, place))
}

// Whether the place has each field that the path has.
fn is_named(path: &Path, place: &Place) -> bool
    ensures { result ≡ is_named path.now place.now }
{
    place.fits_endpoint(path.endpoint)
        && place.fits_cluster(path.cluster)
        && place.fits_leaf(path.leaf)
}
