//! What keeps the rows of the journal and the checkpoint rows, as a trait whose contract the desk stands on, and two
//! keepers in memory: one that fails where it is told to, and one that never fails.
#![tactic(auto)]

mod append;
mod batch;
mod copies;
mod fault;
mod keeper;
mod kept;
mod memory;
mod packed_rows;
mod reads;
mod sure;

pub use crate::append::append_row;
pub use crate::batch::{Batch, ByteRows, CheckName, CheckNames, CheckPut, CheckPuts};
pub use crate::fault::KeepFault;
pub use crate::keeper::Keeper;
pub use crate::memory::MemoryKeeper;
pub use crate::sure::SureKeeper;
