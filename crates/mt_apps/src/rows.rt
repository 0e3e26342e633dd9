//! The computed rows of a place.

ghost use Rattle.std.specs.Prelude.{◌≡◌, IfOk};
ghost use Rattle.mt_apps.specs.Computed.{computed_rows, computed_value, particular_value, value_rows};
ghost use Rattle.mt_apps.specs.Seen.{parts_in};

use crate::access_control::{Acl, access_control_value};
use crate::basic_information::basic_information_value;
use crate::descriptor::descriptor_value;
use crate::general_commissioning::general_commissioning_value;
use crate::globals::global_value;
use crate::group_key_management::group_key_management_value;
use crate::lists::{FabricList, list_rows};
use crate::network_commissioning::network_commissioning_value;
use crate::operational_credentials::{Fabrics, Nocs, operational_credentials_value};
use mt_meta::clusters::{
    ACCESS_CONTROL, BASIC_INFORMATION, DESCRIPTOR, GENERAL_COMMISSIONING, GROUP_KEY_MANAGEMENT,
    NETWORK_COMMISSIONING, OPERATIONAL_CREDENTIALS,
};
use mt_model::{Place, Row, Rows, View};
use mt_tlv::Value;
use std::alloc::{AllocError, Global};

/// The rows of a place that are computed: of the access control list, of the operational certificates
/// and of the fabrics one for each item, and one for each other attribute that is not stored. There are
/// none where the rows are stored, and none of the reader's own fabric. It takes memory for the rows
/// alone.
#[tactic(auto, unfolding(crate::specs::Computed::computed_rows))]
pub fn rows_at(alloc: Global, view: &View, place: &Place) -> Result<Rows, AllocError>
    ensures { IfOk result (λ rows. rows ≡ computed_rows (parts_in view.now) place.now) }
{
    if Acl::is_at(place) {
        return list_rows::<Acl>(alloc, view, place);
    }
    if Nocs::is_at(place) {
        return list_rows::<Nocs>(alloc, view, place);
    }
    if Fabrics::is_at(place) {
        return list_rows::<Fabrics>(alloc, view, place);
    }
    value_rows(alloc, place, computed_value(alloc, view, place)?)
}

// A row of no fabric, where there is a value.
fn value_rows(alloc: Global, place: &Place, value: Option<Value>) -> Result<Rows, AllocError>
    ensures { IfOk result (λ rows. rows ≡ value_rows place.now value) }
{
    let Some(value) = value else {
        return Ok(Rows::new(alloc));
    };
    let row = Row {
        place: *place,
        fabric: 0,
        value,
    };
    Ok(Rows::from_vec(vec![in alloc; row]?))
}

/// The value that is computed at the place; None where there is none.
pub(crate) fn computed_value(
    alloc: Global,
    view: &View,
    place: &Place,
) -> Result<Option<Value>, AllocError>
    ensures { IfOk result (λ value. value ≡ computed_value (parts_in view.now) place.now) }
{
    match global_value(alloc, place.cluster, place.leaf)? {
        Some(value) => Ok(Some(value)),
        None => particular_value(alloc, view, place),
    }
}

// An attribute of the cluster's own.
fn particular_value(alloc: Global, view: &View, place: &Place) -> Result<Option<Value>, AllocError>
    ensures { IfOk result (λ value. value ≡ particular_value (parts_in view.now) place.now) }
{
    match place.cluster {
        DESCRIPTOR => descriptor_value(alloc, place.endpoint, place.leaf),
        ACCESS_CONTROL => Ok(access_control_value(place.leaf)),
        BASIC_INFORMATION => basic_information_value(alloc, place.leaf),
        GENERAL_COMMISSIONING => general_commissioning_value(alloc, place.leaf),
        NETWORK_COMMISSIONING => network_commissioning_value(alloc, view.networks, place.leaf),
        OPERATIONAL_CREDENTIALS => operational_credentials_value(alloc, view, place.leaf),
        GROUP_KEY_MANAGEMENT => Ok(group_key_management_value(place.leaf)),
        _ => Ok(None),
    }
}
