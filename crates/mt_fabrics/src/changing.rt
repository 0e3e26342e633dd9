//! What a call changes in the table. Nothing here asks whether it may.

ghost use Rattle.std.specs.Prelude.{◌≡◌, ◌+◌, ◌≤◌, true, Some, OnErr, OnOk, find, vec_len};
ghost use Rattle.mt_model.specs.rows.Order.{fabrics_ascend};
ghost use Rattle.mt_fabrics.specs.Places.{IsAt};
ghost use Rattle.mt_fabrics.specs.Table.{credentials_at, has_index, labelled, least_unused, placed, removed, updated};

use mt_model::{Credentials, Fabric};
use mt_tlv::Bytes;
use std::alloc::AllocError;
use std::mem::replace;

// Puts a fabric among others, by its index, which is the least that none of them has.
pub(crate) fn put(fabrics: &mut Vec<Fabric>, fabric: Fabric) -> Result<(), AllocError>
    requires rises { fabrics_ascend fabrics.old.items ≡ true }
    requires least { fabric.index ≡ least_unused fabrics.old.items }
    requires from_one { 1 ≤ fabric.index }
    requires within { fabric.index ≤ vec_len fabrics.old + 1 }
    ensures ok { OnOk result (fabrics.new.items ≡ placed fabric fabrics.old.items) }
    ensures err { OnErr result (fabrics.new.items ≡ fabrics.old.items) }
{
    let place = usize::from(fabric.index) - 1;
    fabrics.insert(place, fabric)?;
    Ok(())
}

// Gives the fabric with an index other credentials. It hands back those that it had.
pub(crate) fn change_credentials(
    fabrics: &mut [Fabric],
    index: u8,
    place: usize,
    given: Credentials,
) -> Credentials
    requires { IsAt index fabrics.old place }
    ensures changed { fabrics.new ≡ updated index given fabrics.old }
    ensures before { credentials_at index fabrics.old ≡ Some result }
{
    replace(&mut fabrics[place].credentials, given)
}

// Gives the fabric with an index another label.
pub(crate) fn change_label(fabrics: &mut [Fabric], index: u8, place: usize, label: Bytes)
    requires { IsAt index fabrics.old place }
    ensures { fabrics.new ≡ labelled index label fabrics.old }
{
    fabrics[place].label = label;
}

// Takes the fabric with an index away, and hands it out.
pub(crate) fn take_out(fabrics: &mut Vec<Fabric>, index: u8, place: usize) -> Fabric
    requires { IsAt index fabrics.old.items place }
    ensures removed { fabrics.new.items ≡ removed index fabrics.old.items }
    ensures found { find (has_index index) fabrics.old.items ≡ Some result }
{
    fabrics.remove(place)
}
