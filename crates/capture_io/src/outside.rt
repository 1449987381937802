//! Where bytes come from and go to.
ghost use Rattle.std.specs.Prelude.{◌≡◌, ◌≤◌, ◌<◌, ◌++◌, ℕ, List, [], length, take, IfOk, OnOk, OnErr, MatchResult};
ghost use Rattle.crypto_model.specs.Counts.{Rose};

use thiserror::Error;

/// A read failed.
#[derive(Clone, Copy, Debug, PartialEq, Eq, Error)]
#[error("a read failed")]
pub struct ReadFault;

/// A write or a flush failed.
#[derive(Clone, Copy, Debug, PartialEq, Eq, Error)]
#[error("a write failed")]
pub struct WriteFault;

/// Bytes to read, in as many reads as it takes.
///
/// A read may give fewer bytes than there is room for, and that says nothing of the end: only a read
/// that gives none tells it. A read that failed may be tried again, unless its source says otherwise.
pub trait Source {
    /// Whether contracts can know the bytes: of a source in memory, and not of a file.
    ghost tells: { Type 0 };

    /// The bytes that reads will give, where they are told.
    ghost left: { Self → List ℕ };

    /// How many reads have failed: a count that stands still at the last value of a `u64`.
    ghost faults: { Self → ℕ };

    /// Reads bytes to the front of the buffer, and gives their number: 0 only at the end. What lies
    /// behind them in the buffer is left open, and all of it after a fault.
    fn read(&mut self, buf: &mut [u8]) -> Result<usize, ReadFault>
        requires { 0 < length buf.old }
        ensures within { IfOk result (λ n. n ≤ length buf.old) }
        ensures taken { tells → MatchResult result (λ n. left self.old ≡ take n buf.new ++ left self.new)
            (λ _. left self.new ≡ left self.old) }
        ensures ended { tells → IfOk result (λ n. n ≡ 0 → left self.old ≡ []) }
        ensures later { faults self.old ≤ faults self.new }
        ensures cause { OnErr result (Rose (faults self.old) (faults self.new)) };
}

/// Where bytes are written, in as many writes as it takes.
///
/// What was written may wait in a buffer until a flush, so a caller flushes once at the end. A sink
/// that takes nothing more fails: it never answers that it took 0 bytes.
pub trait Sink {
    /// Whether contracts can know the bytes: of a sink in memory, and not of a file.
    ghost tells: { Type 0 };

    /// The bytes written so far, where they are told.
    ghost written: { Self → List ℕ };

    /// How many writes and flushes have failed: a count that stands still at the last value of a `u64`.
    ghost faults: { Self → ℕ };

    /// Whether a write or a flush that is Ok leaves the count of faults as it was.
    ghost steady: { Type 0 };

    /// Writes bytes from the front of a piece, and gives their number.
    fn write(&mut self, piece: &[u8]) -> Result<usize, WriteFault>
        requires { 0 < length piece.now }
        ensures within { IfOk result (λ n. n ≤ length piece.now) }
        ensures some { IfOk result (λ n. 0 < n) }
        ensures appended { tells → MatchResult result (λ n. written self.new ≡ written self.old ++ take n piece.now)
            (λ _. written self.new ≡ written self.old) }
        ensures later { faults self.old ≤ faults self.new }
        ensures cause { OnErr result (Rose (faults self.old) (faults self.new)) }
        ensures steady { steady → OnOk result (faults self.new ≡ faults self.old) };

    /// Passes on what waits in buffers.
    fn flush(&mut self) -> Result<(), WriteFault>
        ensures same { tells → written self.new ≡ written self.old }
        ensures later { faults self.old ≤ faults self.new }
        ensures cause { OnErr result (Rose (faults self.old) (faults self.new)) }
        ensures steady { steady → OnOk result (faults self.new ≡ faults self.old) };
}
