//! What a source and a sink promise.

ghost use Rattle.std.specs.Prelude.{◌≡◌, ℕ, List, ◌≤◌, ◌<◌, take, length, IfOk, OnErr, Option};
ghost use Rattle.acl_edge.specs.Outside.{Gives, IsSpent, Takes, HasRisen};

/// Reading or writing failed.
#[derive(Clone, Copy, Debug, PartialEq, Eq)]
pub struct Failed;

/// Where bytes come from.
pub trait Source {
    /// The bytes still to come, where the source tells them.
    ghost left: { Self → Option (List ℕ) };

    /// How many calls have failed. It stands still at 2^64 - 1.
    ghost faults: { Self → ℕ };

    /// Puts the next bytes at the front of the buffer, and says how many they are. None, in a buffer that is not empty, is
    /// the end.
    fn read(&mut self, buf: &mut [u8]) -> Result<usize, Failed>
        ensures count { IfOk result (λ n. n ≤ length buf.new) }
        ensures gives { IfOk result (λ n. Gives (left self.old) (left self.new) (take n buf.new)) }
        ensures end { IfOk result (λ n. n ≡ 0 → 0 < length buf.new → IsSpent (left self.old)) }
        ensures fault { OnErr result (HasRisen (faults self.old) (faults self.new)) }
        ensures quiet { IfOk result (λ _. faults self.new ≡ faults self.old) }
        ensures err { OnErr result (left self.new ≡ left self.old) }
        ensures counts { faults self.old ≤ faults self.new };
}

/// Where bytes go.
pub trait Sink {
    /// The bytes written so far, where the sink tells them.
    ghost written: { Self → Option (List ℕ) };

    /// How many calls have failed. It stands still at 2^64 - 1.
    ghost faults: { Self → ℕ };

    /// Takes bytes from the front of the piece, and says how many; at least one of a piece that is not empty.
    fn write(&mut self, piece: &[u8]) -> Result<usize, Failed>
        ensures count { IfOk result (λ n. n ≤ length piece.now) }
        ensures some { IfOk result (λ n. 0 < length piece.now → 0 < n) }
        ensures takes { IfOk result (λ n. Takes (written self.old) (written self.new) (take n piece.now)) }
        ensures fault { OnErr result (HasRisen (faults self.old) (faults self.new)) }
        ensures quiet { IfOk result (λ _. faults self.new ≡ faults self.old) }
        ensures err { OnErr result (written self.new ≡ written self.old) }
        ensures counts { faults self.old ≤ faults self.new };
}
