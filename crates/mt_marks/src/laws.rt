//! Laws of marks.

ghost use Rattle.std.specs.Prelude.{◌≡◌, ◌↔◌, ℕ, IsTrue, List};
ghost use Rattle.std.specs.List.{list_all};
ghost use Rattle.mt_model.specs.rows.Order.{are_ascending};
ghost use Rattle.mt_model.specs.rows.Stored.{is_stored_place, stored_places};
ghost use Rattle.mt_model.specs.declared.rows.place.Row.{Row};
ghost use Rattle.mt_model.specs.declared.tables.fabric.Fabric.{Fabric};
ghost use Rattle.mt_model.specs.declared.texts.recording.Event.{Event};
ghost use Rattle.mt_runs.specs.mt_machine.State.{is_row};
ghost use Rattle.mt_runs.specs.Isolation.{public_part};
ghost use Rattle.mt_runs.specs.Whole.{Whole};
ghost use Rattle.mt_runs.specs.Marks.{seen};
ghost use Rattle.mt_marks.specs.Placed.{standing};
ghost use Rattle.mt_marks.specs.Seen.{mark_before, seen_in};
ghost use Rattle.mt_marks.specs.declared.mark.Mark.{Mark};

use mt_meta::stored_places_are_those_of_the_model;

/// What is seen of a state and a history is what a run marks of a whole that has them.
pub fn marks_are_those_of_runs()
    ensures { (fabric : ℕ) (event : Event) (w : Whole) → mark_before fabric event w.state.node w.ledger.history ≡ seen event (public_part fabric w) }
{}

/// Two marks are the same exactly where they are the same mark of a run.
pub fn equal_marks_say_the_same()
    ensures { (one other : Mark) → (one ≡ other) ↔ (seen_in one ≡ seen_in other) }
{}

/// Rows that ascend are those of all stored places, one place after the other, where each stands at a stored place, as each
/// row of a valid state does.
pub fn rows_stand_at_stored_places()
    ensures all { (rows : List Row) → IsTrue (are_ascending rows) → IsTrue (list_all (λ (row : Row). is_stored_place row.place) rows) → standing stored_places rows ≡ rows }
    ensures stored { (fabrics : List Fabric) (rows : List Row) → IsTrue (list_all (is_row fabrics) rows) → IsTrue (list_all (λ (row : Row). is_stored_place row.place) rows) }
{
    stored_places_are_those_of_the_model();
}
