//! What is kept by number from event to event: the terms of classes, the accounts, the dividend rates, and the prices.
#![tactic(auto)]

mod applying;
mod patches;
mod places;
mod price_change;
pub mod price_laws;
mod room;
mod rows;
mod table_change;
pub mod table_laws;
mod tables;

pub use crate::applying::apply;
pub use crate::patches::{patch_of, sheet_priced};
pub use crate::price_change::{PriceChange, prepare, prices_in};
pub use crate::table_change::TableChange;
pub use crate::tables::JournalTables;
