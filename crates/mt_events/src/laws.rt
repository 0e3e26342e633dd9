//! What holds of the rings and of the order of events, over the definitions alone. Each is the contract of a function
//! that does nothing.

ghost use Rattle.mt_events.specs.Denials.{DeniesEventsExactly, LeavesOutEventsExactly};
ghost use Rattle.std.specs.Prelude.{◌≡◌, ◌≤◌, ◌||◌, ℕ, Bool, IsTrue, List, true};
ghost use Rattle.std.specs.List.{list_any};
ghost use Rattle.mt_events.specs.Rings.{AreRings, empty, forgotten, is_new, pushed, rise};
ghost use Rattle.mt_events.specs.Telling.{merged, stay_up};
ghost use Rattle.mt_model.specs.declared.messages.message.Happened.{Happened};

/// What each call makes of rings are rings.
pub fn rings_stay_rings()
    ensures empty { AreRings empty }
    ensures pushed { (event : Happened) (rings : List (List Happened)) → event.fabric ≤ 16 → is_new event.number rings ≡ true → AreRings rings → AreRings (pushed event rings) }
    ensures forgotten { (fabric : ℕ) (rings : List (List Happened)) → AreRings rings → AreRings (forgotten fabric rings) }
{}

/// What is merged of two lists of events are the events of both and no others, and their numbers don't fall where those of
/// both rise.
pub fn events_are_told_in_order()
    ensures of_both { (test : Happened → Bool) (xs ys : List Happened) → list_any test (merged xs ys) ≡ (list_any test xs || list_any test ys) }
    ensures in_order { (xs ys : List Happened) → rise xs ≡ true → rise ys ≡ true → IsTrue (stay_up (merged xs ys)) }
{}

/// A read of events is denied exactly where neither the implicit entry nor an entry of the reader's own fabric grants what is
/// asked there. A path that names one place is then answered with UNSUPPORTED_ACCESS, and of the events that are asked for
/// those are left out.
pub fn event_denials_are_exact()
    ensures concrete { DeniesEventsExactly }
    ensures told { LeavesOutEventsExactly }
{}
