//! What keeps durable state, change by change.

ghost use Rattle.std.specs.Prelude.{◌≡◌, ◌≤◌, Bool, List, ℕ, Option, Some, false, is_err, length, IsErr, IsTrue, OnErr, OnOk};
ghost use Rattle.mt_durable.specs.Keeping.{Committed, HasRoom, IsAdmitted, IsChange, LeadsTo, WasOrCommitted};
ghost use Rattle.mt_durable.specs.declared.durable.Entry.{Entry};
ghost use Rattle.mt_outside.specs.Stream.{HasCause};

use mt_outside::Failed;

/// What keeps durable state: what was committed is there after any loss of power.
pub trait Keeper {
    /// The entries of the map to which its commits have led, where it can tell.
    ghost map: { Self → Option (List Entry) };

    /// Which maps may stand: the rule of what it keeps.
    ghost admits: { List Entry → Bool };

    /// Whether a commit has failed. Then each further one fails, until the keeper is made again.
    ghost failed: { Self → Bool };

    /// How many calls have failed, up to 2^64 - 1.
    ghost faults: { Self → ℕ };

    /// Behind a commit that failed: what is found of it now is one of these two maps, as far as it can tell. They are the one from
    /// before that commit and the one with its change.
    ghost stands_between: { Self → List Entry → List Entry → Type 0 };

    /// Commits a change: the bytes of one, as `write_change` writes them, that leads to a map that may stand.
    /// After `Failed` the map is the one with the change or the one without it, and the keeper commits no
    /// more.
    fn commit(&mut self, change: &[u8]) -> Result<(), Failed>
        requires form { IsChange change.now }
        requires room { HasRoom change.now (map self.old) }
        requires admitted { IsAdmitted admits change.now (map self.old) }
        ensures committed { OnOk result (Committed change.now (map self.old) (map self.new)) }
        ensures part { OnErr result (WasOrCommitted change.now (map self.old) (map self.new)) }
        ensures failed { failed self.new ≡ is_err result }
        ensures stays { IsTrue (failed self.old) → IsErr result × (map self.new ≡ map self.old) × (faults self.new ≡ faults self.old) }
        ensures cause { failed self.old ≡ false → HasCause (faults self.old) (faults self.new) result }
        ensures between { (before : List Entry) (after : List Entry) → failed self.old ≡ false → map self.old ≡ Some before → LeadsTo change.now before after
            → OnErr result (stands_between self.new before after) };

    /// How many calls have failed, up to 2^64 - 1.
    fn faults(&self) -> u64
        ensures { result ≡ faults self.now };
}
