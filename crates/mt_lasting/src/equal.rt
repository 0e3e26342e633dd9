//! Parts of states that are told to be equal, in no memory. Where they are not told so, the values that are made of them decide: so a
//! test may say too seldom that parts are equal, and never wrongly.

ghost use Rattle.std.specs.Prelude.{◌≡◌, IsTrue, option_copied, option_map};
ghost use Rattle.std.specs.List.{find};
ghost use Rattle.mt_lasting.specs.Values.{failsafe_value, has_index};

use crate::values::find_fabric;
use mt_model::{AclEntry, Armed, Credentials, Fabric, Network, Row};
use mt_tlv::Bytes;

/// Parts of states that can be told to be equal, in no memory.
pub(crate) trait Equal {
    fn is_equal(&self, other: &Self) -> bool
        ensures { IsTrue result → self.now ≡ other.now };
}

impl Equal for Row {
    fn is_equal(&self, other: &Row) -> bool {
        self.fabric == other.fabric && self.place == other.place && self.value.equals(&other.value)
    }
}

impl Equal for AclEntry {
    fn is_equal(&self, other: &AclEntry) -> bool {
        self.equals(other)
    }
}

impl Equal for Bytes {
    fn is_equal(&self, other: &Bytes) -> bool {
        self.equals(other)
    }
}

impl Equal for Network {
    fn is_equal(&self, other: &Network) -> bool {
        self.connected == other.connected
            && self.id.equals(&other.id)
            && self.secret.equals(&other.secret)
    }
}

impl Equal for Credentials {
    fn is_equal(&self, other: &Credentials) -> bool {
        self.fabric_id == other.fabric_id
            && self.node_id == other.node_id
            && self.root.equals(&other.root)
            && self.root_key.equals(&other.root_key)
            && self.noc.equals(&other.noc)
            && self.icac.equals(&other.icac)
            && self.ipk.equals(&other.ipk)
    }
}

impl Equal for Fabric {
    fn is_equal(&self, other: &Fabric) -> bool {
        self.index == other.index
            && self.vendor == other.vendor
            && self.label.equals(&other.label)
            && self.credentials.is_equal(&other.credentials)
    }
}

/// Whether two lists are equal.
pub(crate) fn are_equal<T: Equal>(items: &[T], others: &[T]) -> bool
    ensures { IsTrue result → items.now ≡ others.now }
{
    if items.len() != others.len() {
        return false;
    }
    for i in 0..items.len() {
        let item = &items[i];
        let other = &others[i];
        if !item.is_equal(other) {
            return false;
        }
    }
    true
}

fn are_both_equal<T: Equal>(item: Option<&T>, other: Option<&T>) -> bool
    ensures { IsTrue result → option_copied item.entry ≡ option_copied other.entry }
{
    match (item, other) {
        (Some(item), Some(other)) => item.is_equal(other),
        _ => item.is_none() && other.is_none(),
    }
}

/// Whether the fabric of an index is equal among others.
pub(crate) fn have_equal_fabric(index: u8, fabrics: &[Fabric], others: &[Fabric]) -> bool
    ensures { IsTrue result → find (has_index index) fabrics.now ≡ find (has_index index) others.now }
{
    are_both_equal(find_fabric(index, fabrics), find_fabric(index, others))
}

/// Whether what is kept of the fail-safe is equal.
pub(crate) fn have_equal_failsafe(armed: &Option<Armed>, other: &Option<Armed>) -> bool
    ensures { IsTrue result → option_map failsafe_value armed.now ≡ option_map failsafe_value other.now }
{
    match (armed, other) {
        (Some(armed), Some(other)) => is_equal_failsafe(armed, other),
        _ => armed.is_none() && other.is_none(),
    }
}

fn is_equal_failsafe(armed: &Armed, other: &Armed) -> bool
    ensures { IsTrue result → failsafe_value armed.now ≡ failsafe_value other.now }
{
    armed.owner == other.owner
        && armed.context == other.context
        && armed.added.is_some() == other.added.is_some()
        && armed.updated.is_some() == other.updated.is_some()
        && are_both_equal(
            armed.saved_credentials.as_ref(),
            other.saved_credentials.as_ref(),
        )
        && are_equal(
            armed.saved_networks.as_slice(),
            other.saved_networks.as_slice(),
        )
}
