//! Whether the stored rows of a fabric are the same.

ghost use Rattle.std.specs.Prelude.{◌≡◌, ◌↔◌, IsTrue, filter};
ghost use Rattle.std.specs.List.{list_all};
ghost use Rattle.mt_runs.specs.mt_machine.Isolation.{owns};
ghost use Rattle.mt_model.specs.rows.Order.{are_ascending};
ghost use Rattle.mt_model.specs.rows.Stored.{is_stored_place};
ghost use Rattle.mt_model.specs.declared.rows.place.Row.{Row};

use crate::laws::rows_stand_at_stored_places;
use crate::own::owned::are_own_same;
use mt_model::{StoredRows, stored_places};

/// Whether the rows of a fabric are the same. They are gone over place by place, so all of them must stand at stored places.
pub(crate) fn are_rows_same(fabric: u8, one: &StoredRows, other: &StoredRows) -> bool
    requires one_ascends { IsTrue (are_ascending one.now) }
    requires one_stored { IsTrue (list_all (λ (row : Row). is_stored_place row.place) one.now) }
    requires other_ascends { IsTrue (are_ascending other.now) }
    requires other_stored { IsTrue (list_all (λ (row : Row). is_stored_place row.place) other.now) }
    ensures { IsTrue result ↔ (filter (owns fabric) one.now ≡ filter (owns fabric) other.now) }
{
    rows_stand_at_stored_places();
    for place in stored_places() {
        if !are_own_same(fabric, one.at(place), other.at(place)) {
            return false;
        }
    }
    true
}
