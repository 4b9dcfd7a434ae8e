//! The refusals of the database, as faults of a keeper.
ghost use Rattle.std.specs.Prelude.{◌≡◌};
ghost use Rattle.sqlite_keeper.specs.Faults.{fault_of as fault_told};

use agent_keeper::KeepFault;
use sqlite::{Error, ErrorCode};

/// Want of memory is told as such, and every other refusal is a fault of the store.
pub fn fault_of(error: Error) -> KeepFault
    ensures { result ≡ fault_told error }
{
    match error {
        Error::SqliteFailure(ErrorCode::OutOfMemory) => KeepFault::NoMemory,
        _ => KeepFault::Failed,
    }
}
