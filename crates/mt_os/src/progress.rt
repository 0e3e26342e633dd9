//! How far a long run is, told to whoever looks at a terminal.

ghost use Rattle.std.specs.Prelude.{◌≡◌, None, false};

use mt_outside::Progress;
use std::io::IsTerminal;
use std::time::{Duration, Instant};

// The line is written again at most once in so many ms.
const PAUSE: u64 = 1_000;

// The clock is looked at once in so many events.
const STRIDE: u32 = 256;

/// A line on standard error that is written again, where that is a terminal; nothing where it is a file or a pipe.
#[derive(Drop)]
pub struct TerminalProgress<'a> {
    rt: &'a HostRuntime,
    is_terminal: bool,
    // When the line was written last, or when the run began.
    last: Option<Instant>,
    has_line: bool,
}

impl<'a> TerminalProgress<'a> {
    /// Of a run that has not begun.
    pub fn new(rt: &'a HostRuntime) -> Self
        ensures begun { result.last ≡ None }
        ensures line { result.has_line ≡ false }
    {
        TerminalProgress {
            rt,
            is_terminal: rt.stderr().is_terminal(),
            last: None,
            has_line: false,
        }
    }

    // Whether it is time for the line, which is not at once.
    fn is_due(&mut self) -> bool
        ensures place { self.new.is_terminal ≡ self.old.is_terminal }
    {
        let Ok(now) = Instant::now(self.rt) else {
            return false;
        };
        let is_due = match self.last {
            Some(last) => now.duration_since(last) >= Duration::from_millis(PAUSE),
            None => false,
        };
        if is_due || self.last.is_none() {
            self.last = Some(now);
        }
        is_due
    }
}

/// The line is written where it is time for it.
impl Progress for TerminalProgress<'_> {
    fn done(&mut self, events: u32, all: u32)
        ensures silent { self.old.is_terminal ≡ false → self.new.has_line ≡ self.old.has_line }
        ensures place { self.new.is_terminal ≡ self.old.is_terminal }
    {
        if !self.is_terminal {
            return;
        }
        // A line that can't be written is not missed.
        if events == all {
            if self.has_line {
                let _ = eprintln!(self.rt; "\r{events} of {all} events");
            }
        } else if events % STRIDE == 1 && self.is_due() {
            self.has_line = true;
            let _ = eprint!(self.rt; "\r{events} of {all} events");
        }
    }
}
