//! What one commit changes.
ghost use Rattle.std.specs.Prelude.{◌≡◌, []};

use money_units::{Bytes, List};
use std::alloc::Global;

/// The household and the sheet of a checkpoint row.
#[derive(Clone, Copy, Debug, PartialEq, Eq, Hash)]
pub struct CheckName {
    pub household: u32,
    pub sheet: u32,
}

/// A checkpoint row: the bytes that are kept of a household at a sheet.
#[derive(Debug, Drop)]
pub struct CheckPut {
    pub household: u32,
    pub sheet: u32,
    pub bytes: Bytes,
}

/// Rows of the journal, in order.
pub type ByteRows = List<Bytes>;

/// Checkpoint rows to put.
pub type CheckPuts = List<CheckPut>;

/// The names of checkpoint rows to remove.
pub type CheckNames = List<CheckName>;

/// What one commit changes: rows of the journal to append, checkpoint rows to put, in place of those of the same
/// household and sheet, and checkpoint rows to remove. No pair of household and sheet is to stand twice in the last
/// two; where one does, its last put counts, and a removal counts more than any put.
#[derive(Debug, Drop)]
pub struct Batch {
    pub rows: ByteRows,
    pub puts: CheckPuts,
    pub removes: CheckNames,
}

impl Batch {
    /// A batch that changes nothing, which takes no memory yet.
    pub fn new(alloc: Global) -> Batch
        ensures rows { result.rows ≡ [] }
        ensures puts { result.puts ≡ [] }
        ensures removes { result.removes ≡ [] }
    {
        Batch {
            rows: ByteRows::new(alloc),
            puts: CheckPuts::new(alloc),
            removes: CheckNames::new(alloc),
        }
    }
}
