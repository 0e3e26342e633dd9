//! What holds of the events of every soak, over their definitions alone. Each law is the contract of a
//! function that does nothing.

ghost use Rattle.std.specs.Prelude.{◌≡◌, ◌+◌, ◌*◌, ◌++◌, ◌∷◌, ℕ, [], All, Some, true, length};
ghost use Rattle.std.specs.List.{filter_map};
ghost use Rattle.std.specs.List.Sorted.{IsStrictlyIncreasing};
ghost use Rattle.mt_model.specs.declared.texts.recording.Event.{Event};
ghost use Rattle.mt_model.specs.texts.Events.{event_time};
ghost use Rattle.mt_soak.specs.Generated.{State, begun, behind, behind_all, event_of, events_from, generated, is_played};

/// From any state on, the first event is the next one, and those behind it come from the state behind it.
/// One event more is the next one behind all that came before.
pub fn events_come_one_by_one()
    ensures first { (state : State) (count : ℕ) → events_from state (count + 1) ≡ event_of state ∷ events_from (behind state) count }
    ensures last { (begin fabrics count : ℕ) → generated begin fabrics (count + 1) ≡ generated begin fabrics count ++ event_of (behind_all (begun begin fabrics) count) ∷ [] }
    ensures all { (begin fabrics count : ℕ) → length (generated begin fabrics count) ≡ count }
{}

/// Each event is played: none is a stop.
pub fn events_are_played()
    ensures next { (state : State) → is_played (event_of state) ≡ true }
    ensures all { (begin fabrics count : ℕ) → All (λ event. is_played event ≡ true) (generated begin fabrics count) }
{}

/// Each event has a time, 100 ms behind the one before, so times rise.
pub fn times_rise()
    ensures next { (state : State) → event_time (event_of state) ≡ Some (100 * (state.answered + 1)) }
    ensures all { (begin fabrics count : ℕ) → IsStrictlyIncreasing (filter_map event_time (generated begin fabrics count)) }
{}
