//! What can be copied where memory allows.
ghost use Rattle.std.specs.Prelude.{◌≡◌, IfOk};

use money_units::NoMemory;
use std::alloc::Global;

/// A value that owns memory, and can be copied.
pub trait Copied: Sized {
    /// A copy, equal to the value.
    fn copy(&self, alloc: Global) -> Result<Self, NoMemory>
        ensures { IfOk result (λ copy. copy ≡ self.now) };
}
