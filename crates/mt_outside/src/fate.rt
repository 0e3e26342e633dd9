//! What becomes of a disk that stops.

ghost use Rattle.std.specs.Prelude.{◌≡◌};
ghost use Rattle.mt_outside.specs.Fates.{fate_text};

/// What is on the disk after a stop, of what was written since the last sync.
#[derive(Clone, Copy, Debug, PartialEq, Eq)]
pub enum Fate {
    /// All of it.
    Kept,
    /// None of it, and the old length.
    Lost,
    /// The first half of each range that was written, rounded down, and a5 in the rest of it.
    Torn,
}

impl Fate {
    /// The word for it.
    pub fn text(self) -> &'static str
        ensures { result.now ≡ fate_text self }
    {
        match self {
            Fate::Kept => "kept",
            Fate::Lost => "lost",
            Fate::Torn => "torn",
        }
    }
}
