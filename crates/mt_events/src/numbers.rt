//! The numbers of events.

ghost use Rattle.std.specs.Prelude.{◌≡◌, ◌+◌, ◌<◌, ◌≤◌, ◌^◌};
ghost use Rattle.mt_events.specs.Numbers.{begun, taken};

// How many numbers a raise of the ceiling gives.
const NUMBERS: u64 = 1024;

/// Which number the next event has, and below which all are that may have been given since the ceiling was stored. A
/// start goes on at the stored ceiling, so that no number is given twice.
#[derive(Clone, Copy, Debug, PartialEq, Eq)]
pub struct Numbers {
    pub next: u64,
    pub ceiling: u64,
}

impl Numbers {
    /// The numbers of a node that starts, where this ceiling was stored last: they go on there, and the new
    /// ceiling is 1,024 higher.
    pub fn begin(ceiling: u64) -> Numbers
        requires { ceiling ≤ 2 ^ 62 }
        ensures { result ≡ begun ceiling }
    {
        Numbers {
            next: ceiling,
            ceiling: ceiling + NUMBERS,
        }
    }

    /// The number of an event that happens now. Where it reaches the ceiling, that rises by 1,024 with it.
    pub fn take(&mut self) -> u64
        requires within { self.old.next ≤ self.old.ceiling }
        requires room { self.old.ceiling ≤ 2 ^ 62 }
        ensures number { result ≡ self.old.next }
        ensures taken { self.new ≡ taken self.old }
        // So a start that goes on at this ceiling never gives it again.
        ensures below { result < self.new.ceiling }
        ensures within { self.new.next ≤ self.new.ceiling }
    {
        let number = self.next;
        if number >= self.ceiling {
            self.ceiling += NUMBERS;
        }
        self.next = number + 1;
        number
    }
}
