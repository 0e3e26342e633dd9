//! Why what is wanted of a place is refused.

ghost use Rattle.std.specs.Prelude.{◌≡◌, not, IfNone, IfSome, None, Some, false, is_none};
ghost use Rattle.mt_acl.specs.Access.{is_granted};
ghost use Rattle.mt_meta.specs.Finding.{privilege_of};
ghost use Rattle.mt_model.specs.rows.Sight.{version_in};
ghost use Rattle.mt_why.specs.Causes.{Holds, IsOfWish, is_denial};
ghost use Rattle.mt_why.specs.Refusal.{is_granted_to, is_scoped_change, is_timed, missing_at};

use crate::cause::Cause;
use crate::scene::Scene;
use mt_acl::grants;
use mt_meta::{Asked, find, find_command, find_event, privilege_asked};
use mt_model::{Actor, NodeState, Place, Privilege, Status, Version};

/// What an actor wants of a place.
#[derive(Clone, Copy, Debug, PartialEq, Eq)]
pub struct Wish {
    pub actor: Actor,
    pub what: Asked,
    pub place: Place,
    /// Whether it says that it is timed.
    pub is_timed: bool,
    /// Whether it is of a single item of a list.
    pub is_item: bool,
    /// For which data version it is, where it names one.
    pub version: Option<u32>,
}

/// What stands in the way of a wish: access first, then what is there, then whether it can be written, timed and in the
/// version that is named. None where none of these is found.
pub fn refusal(scene: &Scene<'_>, wish: &Wish) -> Option<Cause>
    ensures holds { IfSome result (Holds scene.now) }
    ensures wish { IfSome result (IsOfWish wish.now) }
    ensures denied { is_denial result ≡ not (is_granted_to scene.now.state.now wish.now) }
    ensures found { IfNone result (missing_at wish.now.what wish.now.place ≡ None) }
{
    if let Some(privilege) = lacking(scene.state, wish) {
        return Some(Cause::NoEntry {
            actor: wish.actor,
            what: wish.what,
            privilege,
            place: wish.place,
        });
    }
    if let Some(status) = missing(wish.what, &wish.place) {
        return Some(Cause::Missing {
            what: wish.what,
            place: wish.place,
            status,
        });
    }
    closed(scene, wish)
}

// The privilege that the actor must be granted and is not. None where it is granted, or none is asked.
fn lacking(state: &NodeState, wish: &Wish) -> Option<Privilege>
    ensures asked { IfSome result (λ privilege. privilege_of wish.now.place wish.now.what ≡ Some privilege) }
    ensures denied { IfSome result (λ privilege. is_granted state.now.entries wish.now.actor wish.now.place privilege (is_scoped_change wish.now.what wish.now.place) ≡ false) }
    ensures granted { is_none result ≡ is_granted_to state.now wish.now }
{
    let privilege = privilege_asked(&wish.place, wish.what)?;
    let scoped = is_scoped_change(wish.what, &wish.place);
    match grants(
        state.entries.as_slice(),
        &wish.actor,
        &wish.place,
        privilege,
        scoped,
    ) {
        Some(_) => None,
        None => Some(privilege),
    }
}

// Whether what is scoped by fabric is changed.
fn is_scoped_change(what: Asked, place: &Place) -> bool
    ensures { result ≡ is_scoped_change what place.now }
{
    match what {
        Asked::Write => match find(place) {
            Ok(meta) => meta.scoped,
            Err(_) => false,
        },
        Asked::Command => match find_command(place) {
            Ok(meta) => meta.scoped,
            Err(_) => false,
        },
        Asked::Read => false,
        Asked::Event => false,
    }
}

// Whether it is written or called in timed interactions alone.
fn is_timed(what: Asked, place: &Place) -> bool
    ensures { result ≡ is_timed what place.now }
{
    match what {
        Asked::Write => match find(place) {
            Ok(meta) => meta.timed,
            Err(_) => false,
        },
        Asked::Command => match find_command(place) {
            Ok(meta) => meta.timed,
            Err(_) => false,
        },
        Asked::Read => false,
        Asked::Event => false,
    }
}

// The status of what is missing, None where the table has it.
fn missing(what: Asked, place: &Place) -> Option<Status>
    ensures { result ≡ missing_at what place.now }
{
    match what {
        Asked::Read => find(place).err(),
        Asked::Write => find(place).err(),
        Asked::Command => find_command(place).err(),
        Asked::Event => find_event(place).err(),
    }
}

// What stands in the way of what is there.
fn closed(scene: &Scene<'_>, wish: &Wish) -> Option<Cause>
    ensures holds { IfSome result (Holds scene.now) }
    ensures wish { IfSome result (IsOfWish wish.now) }
    ensures granted { is_denial result ≡ false }
{
    if let Some(cause) = unwritable(scene, wish) {
        return Some(cause);
    }
    if !wish.is_timed && is_timed(wish.what, &wish.place) {
        return Some(Cause::NeedsTimed {
            what: wish.what,
            place: wish.place,
        });
    }
    outdated(scene, wish)
}

// That an attribute, or a single item of it, can't be written.
fn unwritable(scene: &Scene<'_>, wish: &Wish) -> Option<Cause>
    ensures holds { IfSome result (Holds scene.now) }
    ensures wish { IfSome result (IsOfWish wish.now) }
    ensures granted { is_denial result ≡ false }
{
    if wish.what != Asked::Write {
        return None;
    }
    if privilege_asked(&wish.place, Asked::Write).is_none() {
        return Some(Cause::NotWritable { place: wish.place });
    }
    if wish.is_item {
        return Some(Cause::SingleItem { place: wish.place });
    }
    None
}

// That the cluster has another data version than the one that is named.
fn outdated(scene: &Scene<'_>, wish: &Wish) -> Option<Cause>
    ensures holds { IfSome result (Holds scene.now) }
    ensures wish { IfSome result (IsOfWish wish.now) }
    ensures granted { is_denial result ≡ false }
{
    let wanted = wish.version?;
    let version = version_in(
        scene.state.versions.as_slice(),
        wish.place.endpoint,
        wish.place.cluster,
    );
    if wanted == version {
        return None;
    }
    Some(Cause::OtherVersion {
        place: wish.place,
        wanted,
        version,
    })
}

// The data version of a cluster, 0 where there is none.
fn version_in(versions: &[Version], endpoint: u16, cluster: u32) -> u32
    ensures { result ≡ version_in versions.now endpoint cluster }
{
    match versions
        .iter()
        .find(|v| v.endpoint == endpoint && v.cluster == cluster)
    {
        Some(v) => v.version,
        None => 0,
    }
}
