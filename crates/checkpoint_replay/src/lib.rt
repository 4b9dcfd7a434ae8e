//! The ledger: each household's positions and trades, what a sheet or a correction makes of those that it reaches, and the
//! totals over all. What is made stands beside the ledger until it is installed, which takes no memory. A household is replayed
//! by its own orders, from any sheet on; of its earlier states a few are kept, so that a correction needn't begin at the first
//! sheet, and any of them can be forgotten.
#![tactic(auto)]

mod change;
mod differences;
pub mod laws;
mod ledger;
pub mod number_laws;
mod numbered_orders;
mod part;
mod parts;
mod places;
mod reopening;
mod replay;
mod shares;
mod sheet;
mod states;
mod totals;

pub use crate::change::{Change, HouseholdMove};
pub use crate::ledger::Ledger;
pub use crate::numbered_orders::NumberedOrders;
pub use crate::part::HouseholdPart;
pub use crate::reopening::{ReplayStart, move_by_replay};
pub use crate::states::{KeptState, KeptStates};
pub use crate::totals::LedgerTotals;
