//! The register and order desk: it answers requests as the register machine does, and keeps the journal in a store. A dealer's
//! batch is prepared and kept as one.
#![tactic(auto)]

mod answering;
mod asking;
mod balances;
mod batches;
mod dealers;
mod desk;
mod events;
mod faults;
mod following;
mod fresh;
mod households;
pub mod laws;
mod looks;
mod noted_lines;
mod noting;
mod opening;
mod prepared;
mod prepared_batch;
mod ready_change;
mod statements;
mod stored;

pub use crate::desk::Desk;
pub use crate::faults::{LedgerFault, StartFault};
pub use crate::prepared::Prepared;
pub use crate::prepared_batch::PreparedBatch;
