//! Sources and sinks: what the program asks of a file, a terminal or a connection.

ghost use Rattle.std.specs.Prelude.{◌≡◌, ◌≤◌, ◌<◌, ℕ, List, [], Option, length, take, IfOk, IfSome, OnErr};
ghost use Rattle.mt_outside.specs.Stream.{Gave, HasCause, Took};

/// The object outside did not do what it was asked. Its count of faults rose by one.
#[derive(Clone, Copy, Debug, PartialEq, Eq)]
pub struct Failed;

/// Where bytes come from.
pub trait Source {
    /// The bytes that are left, where the source can tell.
    ghost left: { Self → Option (List ℕ) };

    /// How many calls have failed. Each that fails raises the count by one, up to 2^64 - 1, where it
    /// stays; no other call changes it.
    ghost faults: { Self → ℕ };

    /// Reads the next bytes to the front of `into`, and answers how many there are.
    /// 0 bytes into a slice that is not empty are the end. After `Failed` a caller may read again.
    fn read(&mut self, into: &mut [u8]) -> Result<usize, Failed>
        ensures within { IfOk result (λ count. count ≤ length into.old) }
        ensures gave { IfOk result (λ count.
            Gave (left self.old) (left self.new) (take count into.new)) }
        ensures end { IfOk result (λ count.
            count ≡ 0 → 0 < length into.old → IfSome (left self.old) (λ bytes. bytes ≡ [])) }
        ensures kept { OnErr result (left self.new ≡ left self.old) }
        ensures cause { HasCause (faults self.old) (faults self.new) result };
}

/// Where bytes go.
pub trait Sink {
    /// The bytes that were written so far, where the sink can tell.
    ghost written: { Self → Option (List ℕ) };

    /// How many calls have failed. Each that fails raises the count by one, up to 2^64 - 1, where it
    /// stays; no other call changes it.
    ghost faults: { Self → ℕ };

    /// Writes bytes from the front of `from`, and answers how many. Of a piece that is not empty it
    /// takes one at least. After `Failed`, where none was taken, a caller may write again.
    fn write(&mut self, from: &[u8]) -> Result<usize, Failed>
        ensures within { IfOk result (λ count. count ≤ length from.now) }
        ensures some { IfOk result (λ count. 0 < length from.now → 0 < count) }
        ensures took { IfOk result (λ count.
            Took (written self.old) (written self.new) (take count from.now)) }
        ensures kept { OnErr result (written self.new ≡ written self.old) }
        ensures cause { HasCause (faults self.old) (faults self.new) result };
}
