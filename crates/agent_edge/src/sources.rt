//! What gives bytes.
ghost use Rattle.std.specs.Prelude.{◌≡◌, ℕ, ◌<◌, ◌≤◌, List, [], Option, Some, length, take, IfOk, OnOk, OnErr};
ghost use Rattle.std.specs.Io.KnownBytes.{Consumes, IsAtEnd, Keeps};
ghost use Rattle.agent_edge.specs.Counts.{Rose};

use std::error::Error;
use std::fmt;

/// A read failed. What is left to read is as it was.
#[derive(Clone, Copy, Debug, PartialEq, Eq)]
pub struct SourceFault;

impl fmt::Display for SourceFault {
    fn fmt<W: fmt::Write>(&self, f: &mut fmt::Formatter<W>) -> fmt::Result {
        write!(f, "a read failed")
    }
}

impl Error for SourceFault {}

/// What gives bytes, piece by piece.
pub trait Source {
    /// The bytes left to read, where they are told.
    ghost left: { Self → Option (List ℕ) };

    /// How many reads have failed: a u64 that begins at 0.
    ghost faults: { Self → ℕ };

    /// Fills the front of `into` with the next bytes, and answers how many these are.
    ///
    /// 0 for a piece that isn't empty means the end. What stands in `into` behind these bytes, or after a fault,
    /// isn't said.
    fn read(&mut self, into: &mut [u8]) -> Result<usize, SourceFault>
        ensures within { IfOk result (λ count. count ≤ length into.new) }
        ensures bytes { IfOk result (λ count. Consumes (left self.old) (left self.new)
            (take count into.new)) }
        ensures end { IfOk result (λ count. left self.old ≡ Some [] → count ≡ 0) }
        ensures only_at_end { IfOk result (λ count. count ≡ 0 → 0 < length into.new
            → IsAtEnd (left self.old)) }
        ensures kept { OnErr result (Keeps (left self.old) (left self.new)) }

        ensures fault { OnErr result (Rose (faults self.old) (faults self.new)) }
        ensures no_fault { OnOk result (faults self.new ≡ faults self.old) }
        ensures never_falls { faults self.old ≤ faults self.new };
}
