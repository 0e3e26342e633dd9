//! Laws of what a write answers. Each is the contract of a function that does nothing, but that it may
//! call laws of the table and of values.

ghost use Rattle.mt_write.specs.Laws.{DeniesWritesExactly, LeavesSound, NobodySetsScoped, TouchesItsOwn};

use mt_meta::{attributes_are_data, writable_attributes_take_something};
use mt_tlv::values_are_trees;

/// A write touches what is the writer's own, and at places that are not fabric-scoped what is nobody's:
/// each of its steps sets rows or entries of the writer's fabric, or the row of such a place.
pub fn writes_touch_their_own()
    ensures { TouchesItsOwn }
{
    attributes_are_data();
}

/// A writer of no fabric, for whom no entry stands, as whoever commissions the node over PASE before it has
/// a fabric, sets rows of places that are not fabric-scoped, and nothing else.
pub fn nobody_writes_scoped()
    ensures { NobodySetsScoped }
{
    attributes_are_data();
    writable_attributes_take_something();
}

/// An item that names one place is refused with the status UNSUPPORTED_ACCESS exactly where a privilege is
/// asked and neither the implicit entry nor an entry of the writer's own fabric grants it, as they stood
/// before the request.
pub fn write_denials_are_exact()
    ensures { DeniesWritesExactly }
{}

/// Where the rows and entries that a writer's fabric sees as its own, or nobody's, have their form, so has
/// all that a write sets: rows stand at stored places, with values of the form of their attribute within its
/// limit, one where the attribute is not fabric-scoped; entries keep the rules on entries, are the writer's
/// and at most four.
pub fn writes_keep_forms()
    ensures { LeavesSound }
{
    attributes_are_data();
    writable_attributes_take_something();
    values_are_trees();
}
