//! The window of a session's message counters.

ghost use Rattle.std.specs.Prelude.{◌≡◌, ◌≢◌, ◌+◌, ◌-◌, ◌<◌, ◌≤◌, ℕ, List, [], ◌∷◌, ◌++◌};
ghost use Rattle.std.specs.Int.{bit_at};
ghost use Rattle.mt_window.specs.Counters.{reach, seen, accepted_after};
ghost use Rattle.mt_window.specs.Standing.{StandsFor};

/// How far below the greatest counter a counter may still be accepted: the standard's
/// MSG_COUNTER_WINDOW_SIZE.
pub const WINDOW_SIZE: u32 = 32;

/// What a window answers of a counter.
#[derive(Clone, Copy, Debug, PartialEq, Eq)]
pub enum Seen {
    /// The counter was not accepted before, and now is.
    Fresh,
    /// The counter was accepted before: the message is a copy of one that was let in.
    Duplicate,
    /// The counter is more than `WINDOW_SIZE` below the greatest one, and it is not looked up whether
    /// it was accepted.
    Old,
}

/// What is kept of all accepted counters: the greatest of the start and of them, and for it and each
/// of the `WINDOW_SIZE` below whether it was accepted.
#[derive(Clone, Copy, Debug)]
pub struct Window {
    greatest: u32,
    // Bit i is of the counter that is i below the greatest.
    marks: u64,
}

impl Window {
    /// A window that begins at a counter, and has accepted none.
    pub fn new(start: u32) -> Window
        ensures { StandsFor result start [] }
    {
        Window {
            greatest: start,
            marks: 0,
        }
    }

    /// Judges a counter, and accepts it where it is Fresh. A message whose counter is not Fresh is not
    /// to be processed again.
    pub fn accept(&mut self, counter: u32) -> Seen
        ensures answer { (start : ℕ) (accepted : List ℕ) → StandsFor self.old start accepted
            → result ≡ seen start accepted counter }
        ensures accepted { (start : ℕ) (accepted : List ℕ) → StandsFor self.old start accepted
            → StandsFor self.new start (accepted_after start accepted counter) }
        ensures kept { result ≢ Seen.Fresh → self.new ≡ self.old }
    {
        let seen = self.judge(counter);
        if seen == Seen::Fresh {
            self.note(counter);
        }
        seen
    }

    // What the window says of a counter.
    fn judge(&self, counter: u32) -> Seen
        ensures answer { (start : ℕ) (accepted : List ℕ) → StandsFor self.now start accepted
            → result ≡ seen start accepted counter }
        ensures fresh { result ≡ Seen.Fresh → self.now.greatest ≤ counter + reach }
    {
        if self.greatest < counter {
            return Seen::Fresh;
        }
        let below = self.greatest - counter;
        if below > WINDOW_SIZE {
            return Seen::Old;
        }
        if self.marks >> below & 1 == 1 {
            return Seen::Duplicate;
        }
        Seen::Fresh
    }

    // Marks a counter as accepted. One above the greatest moves the marks away from it.
    fn note(&mut self, counter: u32)
        requires { self.old.greatest ≤ counter + reach }
        ensures { (start : ℕ) (accepted : List ℕ) → StandsFor self.old start accepted
            → StandsFor self.new start (accepted ++ counter ∷ []) }
    {
        if counter > self.greatest {
            let rise = counter - self.greatest;
            self.marks = moved(self.marks, rise) | 1;
            self.greatest = counter;
        } else {
            self.marks |= 1 << (self.greatest - counter);
        }
    }
}

// Marks, each of which is from now on for a counter that is `rise` further below the greatest.
fn moved(marks: u64, rise: u32) -> u64
    ensures free { (i : ℕ) → i < rise → i < 64 → bit_at result i ≡ 0 }
    ensures kept { (i : ℕ) → rise ≤ i → i < 64 → bit_at result i ≡ bit_at marks (i - rise) }
{
    marks.checked_shl(rise).unwrap_or(0)
}
