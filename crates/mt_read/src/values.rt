//! The value of an attribute, as the reader's fabric sees it.

ghost use Rattle.std.specs.Prelude.{◌≡◌, IfOk};
ghost use Rattle.mt_read.specs.Reading.{is_current_fabric, value_of};
ghost use Rattle.mt_model.specs.rows.Seen.{seen_as};

use mt_meta::Meta;
use mt_meta::clusters::OPERATIONAL_CREDENTIALS;
use mt_model::{Actor, Place, Sight};
use mt_tlv::Value;
use std::alloc::{AllocError, Global};

// The attribute of Operational Credentials that tells the reader its own fabric.
const CURRENT_FABRIC_INDEX: u32 = 5;

/// The value of an attribute that is there.
#[tactic(auto, using(crate::proofs::SeenRows::shown_as_items, crate::proofs::SeenRows::shown_as_first))]
pub(crate) fn value_at<S: Sight>(
    alloc: Global,
    sight: &S,
    actor: &Actor,
    place: &Place,
    meta: &Meta,
    filtered: bool,
) -> Result<Value, AllocError>
    ensures { let seen = seen_as actor.now.fabric (S.rows_of sight.now) (S.versions sight.now) (S.all_entries sight.now) in
        IfOk result (λ value. value ≡ value_of seen actor.now filtered place.now meta.now) }
{
    if is_current_fabric(place) {
        return Ok(Value::Uint(actor.fabric as u64));
    }
    if meta.scoped {
        let items = sight.items_shown(alloc, place, actor.fabric, filtered)?;
        return Ok(Value::Array(items));
    }
    sight.value_shown(alloc, place, actor.fabric)
}

fn is_current_fabric(place: &Place) -> bool
    ensures { result ≡ is_current_fabric place.now }
{
    place.cluster == OPERATIONAL_CREDENTIALS && place.leaf == CURRENT_FABRIC_INDEX
}
