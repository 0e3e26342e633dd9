//! The law of the table and of what is computed. It is the contract of a function that does nothing.

ghost use Rattle.std.specs.Prelude.{IsTrue};
ghost use Rattle.std.specs.List.{list_all};
ghost use Rattle.mt_meta.specs.Places.{all_places};
ghost use Rattle.mt_apps.specs.Parts.{Parts};
ghost use Rattle.mt_apps.specs.Places.{has_its_rows};

/// Every place of the table is either stored, with exactly one first row where it is not
/// fabric-scoped, or computed, with a value: but for the fabric-scoped lists, of which each item is a
/// row, and the reader's own fabric.
pub fn places_have_their_rows()
    ensures { (parts : Parts) → IsTrue (list_all (has_its_rows parts) all_places) }
{}
