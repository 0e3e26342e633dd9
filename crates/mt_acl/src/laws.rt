//! Laws of grants, over the definitions alone. Each is the contract of a function that does nothing.

ghost use Rattle.std.specs.Prelude.{◌≡◌, ◌<◌, ◌+◌, ◌*◌, ◌^◌, ◌==◌, ◌&&◌, ℕ, List, Bool, filter, nat_le};
ghost use Rattle.mt_acl.specs.Access.{is_granted, is_own, names_cat};
ghost use Rattle.mt_model.specs.declared.tables.access.AclEntry.{AclEntry};
ghost use Rattle.mt_model.specs.declared.tables.access.Actor.{Actor};
ghost use Rattle.mt_model.specs.declared.tables.access.Privilege.{Privilege};
ghost use Rattle.mt_model.specs.declared.rows.place.Place.{Place};

/// Whether an actor is granted a privilege depends on the entries of its own fabric alone.
pub fn own_entries_alone_grant()
    ensures { (entries : List AclEntry) (actor : Actor) (place : Place) (asked : Privilege) (scoped_change : Bool)
        → is_granted entries actor place asked scoped_change
        ≡ is_granted (filter (is_own actor) entries) actor place asked scoped_change }
{}

/// A subject that is a CAT names whoever holds a CAT of the same identifier, in the same version or a
/// later one. A version is not 0, so what stands for no CAT is named by none.
pub fn later_tags_are_named()
    ensures { (identifier version held_identifier held_version : ℕ)
        → identifier < 2 ^ 16 → version < 2 ^ 16 → held_version < 2 ^ 16
        → names_cat (0xfffffffd * 2 ^ 32 + identifier * 2 ^ 16 + version) (held_identifier * 2 ^ 16 + held_version)
        ≡ (identifier == held_identifier && (nat_le 1 held_version && nat_le version held_version)) }
{}
