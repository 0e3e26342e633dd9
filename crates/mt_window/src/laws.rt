//! Laws of the answers, over the definitions alone. Each is the contract of a function that does
//! nothing.

ghost use Rattle.std.specs.Prelude.{◌≡◌, ◌≢◌, ◌≤◌, ◌+◌, ◌↔◌, ℕ, List, [], nat_eq, count_by, IsTrue, IsFalse};
ghost use Rattle.mt_window.specs.Counters.{greatest_of, seen, was_accepted, accepted_over};
ghost use Rattle.mt_window.specs.declared.window.Seen.TheVariants.{Fresh};

/// A counter is Fresh exactly where it is at most 32 below the greatest and was not accepted.
pub fn fresh_is_new_within_reach()
    ensures { (start : ℕ) (accepted : List ℕ) (counter : ℕ) → (seen start accepted counter ≡ Fresh)
        ↔ ((greatest_of start accepted ≤ counter + 32)
        × IsFalse (was_accepted accepted counter)) }
{}

/// A counter that was accepted is never Fresh again, whatever else was accepted before or after it.
pub fn accepted_is_not_fresh()
    ensures { (start : ℕ) (accepted : List ℕ) (counter : ℕ)
        → IsTrue (was_accepted accepted counter) → seen start accepted counter ≢ Fresh }
{}

/// Over any run of counters from a new window on, no counter is accepted twice.
pub fn none_is_accepted_twice()
    ensures { (start : ℕ) (counters : List ℕ) (counter : ℕ)
        → count_by (nat_eq counter) (accepted_over start [] counters) ≤ 1 }
{}
