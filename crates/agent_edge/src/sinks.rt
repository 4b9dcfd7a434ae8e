//! What takes bytes.
ghost use Rattle.std.specs.Prelude.{◌≡◌, ℕ, ◌<◌, ◌≤◌, List, Option, length, take, IfOk, OnOk, OnErr};
ghost use Rattle.std.specs.Io.KnownBytes.{Appends, Keeps};
ghost use Rattle.agent_edge.specs.Counts.{Rose};

use std::error::Error;
use std::fmt;

/// A write failed. What was written before is as it was.
#[derive(Clone, Copy, Debug, PartialEq, Eq)]
pub struct SinkFault;

impl fmt::Display for SinkFault {
    fn fmt<W: fmt::Write>(&self, f: &mut fmt::Formatter<W>) -> fmt::Result {
        write!(f, "a write failed")
    }
}

impl Error for SinkFault {}

/// What takes bytes, piece by piece.
pub trait Sink {
    /// The bytes written so far, where they are told.
    ghost contents: { Self → Option (List ℕ) };

    /// How many writes have failed: a u64 that begins at 0.
    ghost faults: { Self → ℕ };

    /// Takes bytes from the front of `from`, and answers how many: at least 1 of a piece that isn't empty.
    fn write(&mut self, from: &[u8]) -> Result<usize, SinkFault>
        ensures within { IfOk result (λ count. count ≤ length from.now) }
        ensures some { IfOk result (λ count. 0 < length from.now → 0 < count) }
        ensures bytes { IfOk result (λ count. Appends (contents self.old) (contents self.new)
            (take count from.now)) }
        ensures kept { OnErr result (Keeps (contents self.old) (contents self.new)) }

        ensures fault { OnErr result (Rose (faults self.old) (faults self.new)) }
        ensures no_fault { OnOk result (faults self.new ≡ faults self.old) }
        ensures never_falls { faults self.old ≤ faults self.new };
}
