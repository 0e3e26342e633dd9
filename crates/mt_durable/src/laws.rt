//! Laws of maps and changes. Each is the contract of a function that does nothing.

ghost use Rattle.std.specs.Prelude.{◌≡◌, ◌≤◌, [], ℕ, List, IsTrue, length};
ghost use Rattle.mt_durable.specs.Changes.{change_bytes, entry_trees};
ghost use Rattle.mt_durable.specs.Differences.{difference_bytes, differences};
ghost use Rattle.mt_durable.specs.Images.{IsImage};
ghost use Rattle.mt_durable.specs.Maps.{Merged, have_values, keys_ascend};
ghost use Rattle.mt_durable.specs.Reading.{Says, said};
ghost use Rattle.mt_durable.specs.Setting.{with_all};
ghost use Rattle.mt_tlv.specs.Limits.{IsAllowed, deepest, longest};
ghost use Rattle.mt_tlv.specs.Tree.{array};
ghost use Rattle.mt_durable.specs.declared.durable.Entry.{Entry};

use crate::reading::bytes_of_a_change_are_read;
use mt_tlv::narrow_is_element;

/// A change leads from each map to one, which is that of its entries set one after the other; and a map is
/// a change that leads to it from the empty map.
pub fn changes_lead_on()
    ensures merged { (change map : List Entry) → IsTrue (keys_ascend change) → IsTrue (keys_ascend map) → IsTrue (have_values map) → Merged change map (with_all change map) }
    ensures from_empty { (map : List Entry) → IsTrue (keys_ascend map) → IsTrue (have_values map) → with_all map [] ≡ map }
{}

/// What is allowed in an element stays so: what a change makes of a map has an image too, if that is no
/// longer than an element may be.
pub fn maps_have_images()
    ensures allowed { (change map : List Entry) (bytes : List ℕ) → Says change bytes → IsAllowed (array (entry_trees map)) deepest
        → IsAllowed (array (entry_trees (with_all change map))) deepest }
    ensures image { (map : List Entry) → IsTrue (keys_ascend map) → IsAllowed (array (entry_trees map)) deepest → length (change_bytes map) ≤ longest
        → Says map (change_bytes map) }
{
    narrow_is_element();
}

/// The differences of the maps of two images lead from the one to the other. Where they are no longer than an element may
/// be, their bytes are a change.
pub fn differences_lead_there()
    ensures leads { (from to : List ℕ) → IsImage from → IsImage to → with_all (differences (said from) (said to)) (said from) ≡ said to }
    ensures says { (from to : List ℕ) → IsImage from → IsImage to → length (difference_bytes from to) ≤ longest
        → Says (differences (said from) (said to)) (difference_bytes from to) }
{
    narrow_is_element();
    bytes_of_a_change_are_read();
}
