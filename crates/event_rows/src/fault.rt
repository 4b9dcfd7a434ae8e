//! Why a row couldn't be read.
ghost use Rattle.std.specs.Prelude.{◌≡◌};
ghost use Rattle.event_rows.specs.declared.fault.RowFault.TheVariants.{Memory};

use money_units::NoMemory;

/// Why nothing was read. What the reader has left is then of no use.
#[derive(Clone, Copy, Debug, PartialEq, Eq)]
pub enum RowFault {
    /// There was no memory for what the row holds.
    Memory,
    /// No value in its form stands there.
    Wrong,
}

impl From<NoMemory> for RowFault {
    ghost from_gives = { λ _ fault. fault ≡ Memory };

    fn from(_error: NoMemory) -> RowFault {
        RowFault::Memory
    }
}
