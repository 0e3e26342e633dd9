//! Operational Credentials: the certificates and the fabrics as rows, and the counts and roots.

ghost use Rattle.std.specs.Prelude.{◌≡◌, IfOk};
ghost use Rattle.mt_apps.specs.OperationalCredentials.{fabric_value, intermediate_tree, is_fabrics, noc_value, operational_credentials_value};
ghost use Rattle.mt_apps.specs.Seen.{parts_in};
ghost use Rattle.mt_model.specs.rows.Sight.{is_nocs};
ghost use Rattle.mt_tlv.specs.View.{tree};

use crate::arrays::array_of;
use crate::lists::{FABRIC_INDEX, FabricItem, FabricList, fabric_alone};
use mt_meta::clusters::operational_credentials::{
    CLUSTER, COMMISSIONED_FABRICS, FABRICS, NOCS, SUPPORTED_FABRICS, TRUSTED_ROOT_CERTIFICATES,
};
use mt_model::{Fabric, Place, View, fabrics_are_in_order, limits};
use mt_tlv::{Bytes, Members, Tag, Value};
use std::alloc::{AllocError, Global};

/// How many fabrics there can be, how many there are, and the roots.
pub(crate) fn operational_credentials_value(
    alloc: Global,
    view: &View,
    leaf: u32,
) -> Result<Option<Value>, AllocError>
    ensures { IfOk result (λ value. value ≡ operational_credentials_value (parts_in view.now) leaf) }
{
    match leaf {
        SUPPORTED_FABRICS => Ok(Some(Value::Uint(limits::FABRICS as u64))),
        COMMISSIONED_FABRICS => Ok(Some(Value::Uint(view.fabrics.len() as u64))),
        TRUSTED_ROOT_CERTIFICATES => Ok(Some(array_of(alloc, view.roots.as_slice())?)),
        _ => Ok(None),
    }
}

impl FabricItem for Fabric {
    ghost all = { λ view. view.fabrics.now };

    ghost fabric = { λ fabric. fabric.index };

    fn all<'a>(view: &'a View<'a>) -> &'a [Self] {
        fabrics_are_in_order();
        view.fabrics.as_slice()
    }

    fn fabric(&self) -> u8 {
        self.index
    }
}

/// The list of operational certificates.
pub(crate) struct Nocs;

impl FabricList for Nocs {
    type Item = Fabric;

    ghost is_at = { is_nocs };

    ghost value = { noc_value };

    fn is_at(place: &Place) -> bool {
        place.cluster == CLUSTER && place.leaf == NOCS
    }

    fn value(alloc: Global, fabric: &Fabric) -> Result<Value, AllocError> {
        noc_value(alloc, fabric)
    }

    #[tactic(auto, using(crate::proofs::Bare::bare_noc))]
    fn bare(alloc: Global, fabric: &Fabric) -> Result<Value, AllocError> {
        fabric_alone(alloc, fabric.index)
    }
}

fn noc_value(alloc: Global, fabric: &Fabric) -> Result<Value, AllocError>
    ensures { IfOk result (λ value. value ≡ noc_value fabric.now) }
{
    let noc = fabric.credentials.noc.copy()?;
    let intermediate = intermediate(&fabric.credentials.icac)?;
    let fields = vec![in alloc;
        (Tag::Context(1), Value::Octets(noc)),
        (Tag::Context(2), intermediate),
        (Tag::Context(FABRIC_INDEX), Value::Uint(fabric.index as u64)),
    ]?;
    Ok(Value::Struct(Members::from_vec(fields)))
}

// The intermediate certificate, null where there is none.
fn intermediate(icac: &Bytes) -> Result<Value, AllocError>
    ensures { IfOk result (λ value. tree value ≡ intermediate_tree icac.now) }
{
    match icac.as_slice() {
        [] => Ok(Value::Null),
        [_, ..] => Ok(Value::Octets(icac.copy()?)),
    }
}

/// The list of fabrics, of which nothing is sensitive.
pub(crate) struct Fabrics;

impl FabricList for Fabrics {
    type Item = Fabric;

    ghost is_at = { is_fabrics };

    ghost value = { fabric_value };

    fn is_at(place: &Place) -> bool {
        place.cluster == CLUSTER && place.leaf == FABRICS
    }

    fn value(alloc: Global, fabric: &Fabric) -> Result<Value, AllocError> {
        fabric_value(alloc, fabric)
    }

    #[tactic(auto, using(crate::proofs::Bare::plain_fabric))]
    fn bare(alloc: Global, fabric: &Fabric) -> Result<Value, AllocError> {
        fabric_value(alloc, fabric)
    }
}

fn fabric_value(alloc: Global, fabric: &Fabric) -> Result<Value, AllocError>
    ensures { IfOk result (λ value. value ≡ fabric_value fabric.now) }
{
    let root_key = fabric.credentials.root_key.copy()?;
    let label = fabric.label.copy()?;
    let fields = vec![in alloc;
        (Tag::Context(1), Value::Octets(root_key)),
        (Tag::Context(2), Value::Uint(fabric.vendor as u64)),
        (Tag::Context(3), Value::Uint(fabric.credentials.fabric_id)),
        (Tag::Context(4), Value::Uint(fabric.credentials.node_id)),
        (Tag::Context(5), Value::Text(label)),
        (Tag::Context(FABRIC_INDEX), Value::Uint(fabric.index as u64)),
    ]?;
    Ok(Value::Struct(Members::from_vec(fields)))
}
